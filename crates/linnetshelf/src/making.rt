//! Making queues, and handing out, splitting off and ending endpoints of them.
ghost use Rattle.std.specs.Prelude.{◌≡◌};
ghost use Rattle.linnetshelf.specs.Answers.{Tells};
ghost use Rattle.linnetshelf.specs.Handles.{OnEndpoint};
ghost use Rattle.linnetshelf.specs.Makes.{Creates, HandsOut, Makes, Splits};
ghost use Rattle.linnetshelf.specs.Statuses.{number};
ghost use Rattle.linnetshelf.specs.declared.status.Status.TheVariants.{WrongKind};

use crate::appending::linnetshelf_roll_back;
use crate::calling::on_held;
use crate::settings::{Settings, config_of};
use crate::status::Status;
use cq_endpoint::Endpoint;
use cq_handle::{Handle, Held, OptionalHandle};
use cq_shown::CreateError;
use std::alloc::Global;

/// Hands out the first endpoint of a new queue, whose first cycle is that of `moment`, in milliseconds of Unix time.
/// The names are a text with a line for each. It returns `BadSettings` only if there can be no such queue, or if a
/// name is not UTF-8.
#[unsafe(no_mangle)]
pub extern "C" fn linnetshelf_create(
    alloc: Global,
    settings: &Settings,
    names: &[u8],
    moment: u64,
    out: &mut Handle,
) -> u32
    ensures { Tells (Creates settings.now names.now moment out.old.held out.new.held) number result }
{
    match create(alloc, settings, names, moment) {
        Ok(endpoint) => hand_out(alloc, Held::Endpoint(endpoint), out).number(),
        Err(status) => status.number(),
    }
}

/// Makes the first endpoint of a new queue.
fn create(alloc: Global, settings: &Settings, names: &[u8], moment: u64) -> Result<Endpoint, Status>
    ensures { Makes settings.now names.now moment result }
{
    let config = config_of(alloc, settings, names)?;
    match Endpoint::create(alloc, config, moment) {
        Ok(endpoint) => Ok(endpoint),
        Err(CreateError::BadMoment) => Err(Status::BadMoment),
        Err(CreateError::OutOfMemory) => Err(Status::OutOfMemory),
        Err(CreateError::BadContents) => unreachable!(),
    }
}

/// Hands out a handle of this value. Returns `Done`, or `OutOfMemory`; then the handle is left as it was.
pub(crate) fn hand_out(alloc: Global, held: Held, out: &mut Handle) -> Status
    ensures { HandsOut out.old.held held out.new.held result }
{
    match Handle::new(alloc, held) {
        Ok(handle) => {
            *out = handle;
            Status::Done
        }
        Err(_) => Status::OutOfMemory,
    }
}

/// Hands out another endpoint of the same queue, which may go to another thread. It has begun no message, and reads
/// forwards from the start.
#[unsafe(no_mangle)]
pub extern "C" fn linnetshelf_split(alloc: Global, handle: &mut Handle, out: &mut Handle) -> u32
    ensures { OnEndpoint handle.old.held handle.new.held
        ((result ≡ number WrongKind) × (out.new.held ≡ out.old.held)) (λ old new.
        Tells (Splits old new out.old.held out.new.held) number result) }
{
    on_held!(handle, Held::Endpoint(endpoint) => {
        split(alloc, endpoint, out).number()
    }, else Status::number)
}

/// Hands out an endpoint that is split off this one.
fn split(alloc: Global, endpoint: &mut Endpoint, out: &mut Handle) -> Status
    ensures { Splits endpoint.old endpoint.new out.old.held out.new.held result }
{
    match endpoint.split() {
        Ok(child) => hand_out(alloc, Held::Endpoint(child), out),
        Err(_) => Status::OutOfMemory,
    }
}

/// Ends what a handle holds. The last endpoint frees its queue. A message that an endpoint has begun is given up first, since
/// nobody could write to the queue otherwise. A writer of a shelf does that at its end. A zero handle holds nothing, and
/// nothing is done.
#[unsafe(no_mangle)]
pub extern "C" fn linnetshelf_destroy(handle: OptionalHandle) {
    if let Some(mut handle) = handle.handle() {
        let _given_up = linnetshelf_roll_back(&mut handle);
        drop(handle.into_box());
    }
}
