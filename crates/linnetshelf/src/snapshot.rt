//! A copy of a queue while its endpoints go on.
ghost use Rattle.std.specs.Prelude.{◌≡◌};
ghost use Rattle.cq_endpoint.specs.Endpoints.{ChangesTailer};
ghost use Rattle.linnetshelf.specs.Answers.{Tells};
ghost use Rattle.linnetshelf.specs.Handles.{OnEndpoint};
ghost use Rattle.linnetshelf.specs.Snapshots.{TakesSnapshot};
ghost use Rattle.linnetshelf.specs.Statuses.{number};
ghost use Rattle.linnetshelf.specs.declared.status.Status.TheVariants.{WrongKind};

use crate::calling::on_held;
use crate::making::hand_out;
use crate::status::Status;
use cq_endpoint::Endpoint;
use cq_handle::{Handle, Held};
use cq_saved::Saved;
use std::alloc::Global;

/// Hands out a copy of what a queue holds at one moment of this call, as what is saved, while its endpoints go on. Each name is
/// at 0, and the floor is 0. `Saved::snapshot` says more. The endpoint stays where it is.
///
/// - `OutOfMemory`: out of memory. Nothing is handed out.
#[unsafe(no_mangle)]
pub extern "C" fn linnetshelf_snapshot(alloc: Global, handle: &mut Handle, out: &mut Handle) -> u32
    ensures { OnEndpoint handle.old.held handle.new.held
        ((result ≡ number WrongKind) × (out.new.held ≡ out.old.held)) (λ old new.
        Tells (TakesSnapshot old new out.old.held out.new.held) number result × ChangesTailer old new) }
{
    on_held!(handle, Held::Endpoint(endpoint) => {
        snapshot(alloc, endpoint, out).number()
    }, else Status::number)
}

fn snapshot(alloc: Global, endpoint: &mut Endpoint, out: &mut Handle) -> Status
    ensures says { TakesSnapshot endpoint.old endpoint.new out.old.held out.new.held result }
    ensures rest { ChangesTailer endpoint.old endpoint.new }
{
    match Saved::snapshot(alloc, endpoint) {
        Ok(saved) => hand_out(alloc, Held::Saved(saved), out),
        Err(_) => Status::OutOfMemory,
    }
}
