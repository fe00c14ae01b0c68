//! Closing queues.
ghost use Rattle.std.specs.Prelude.{◌≡◌};
ghost use Rattle.linnetshelf.specs.Answers.{Tells, close_answer};
ghost use Rattle.linnetshelf.specs.Closes.{ClosesQueue};
ghost use Rattle.linnetshelf.specs.Handles.{OnEndpoint};
ghost use Rattle.linnetshelf.specs.Statuses.{number};
ghost use Rattle.linnetshelf.specs.declared.status.Status.TheVariants.{WrongKind};

use crate::answer::close_answer;
use crate::calling::on_held;
use crate::status::Status;
use cq_handle::{Handle, Held};

/// Closes the queue for all its endpoints: from then on nothing is appended or begun. `Endpoint::close` says what is
/// refused.
#[unsafe(no_mangle)]
pub extern "C" fn linnetshelf_close(handle: &mut Handle) -> u32
    ensures { OnEndpoint handle.old.held handle.new.held (result ≡ number WrongKind) (λ old new.
        Tells (ClosesQueue old new) close_answer result) }
{
    on_held!(handle, Held::Endpoint(endpoint) => {
        close_answer(endpoint.close())
    }, else Status::number)
}
