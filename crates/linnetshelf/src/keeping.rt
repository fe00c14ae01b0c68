//! Queues that keep what comes to them in a log.
ghost use Rattle.std.specs.Prelude.{◌≡◌};
ghost use Rattle.linnetshelf.specs.Answers.{Tells, done, plain};
ghost use Rattle.linnetshelf.specs.Handles.{OnKeeper, OnSaved};
ghost use Rattle.linnetshelf.specs.Keeps.{HandsOutBoth, KeepsQueue, Settled, Turned, settle_answer, turn_answer};
ghost use Rattle.linnetshelf.specs.Statuses.{number};
ghost use Rattle.linnetshelf.specs.declared.status.Status.TheVariants.{WrongKind};

use crate::answer::{Answer, done, plain};
use crate::calling::on_held;
use crate::status::Status;
use cq_handle::{Handle, Held};
use cq_keeper::KeepFault;
use cq_kept::OpenFault;
use cq_kept_calls::Called;
use cq_log::DeviceFault;
use cq_saved::Saved;
use std::alloc::Global;

/// Hands out the first endpoint of a queue that holds what is saved, and a keeper of the queue, with the first calls of a new log. What
/// is saved stays as it is. `Saved::keep` says what is refused; both handles are then as they were.
#[unsafe(no_mangle)]
pub extern "C" fn linnetshelf_keep(
    alloc: Global,
    handle: &mut Handle,
    endpoint: &mut Handle,
    keeper: &mut Handle,
) -> u32
    ensures { OnSaved handle.old.held handle.new.held
        ((result ≡ number WrongKind) × (endpoint.new.held ≡ endpoint.old.held) × (keeper.new.held ≡ keeper.old.held)) (λ old new.
        Tells (KeepsQueue old (endpoint.old.held, keeper.old.held) (endpoint.new.held, keeper.new.held)) number result × (new ≡ old)) }
{
    on_held!(handle, Held::Saved(saved) => {
        keep(alloc, saved, endpoint, keeper).number()
    }, else Status::number)
}

/// Hands out the first endpoint of a queue that holds what is saved, and its keeper.
fn keep(alloc: Global, saved: &Saved, endpoint: &mut Handle, keeper: &mut Handle) -> Status
    ensures { KeepsQueue saved.now (endpoint.old.held, keeper.old.held) (endpoint.new.held, keeper.new.held) result }
{
    match saved.keep(alloc) {
        Ok(called) => hand_out_both(alloc, called, endpoint, keeper),
        Err(OpenFault::BadContents) => Status::BadContents,
        Err(OpenFault::LongHead) => Status::LongHead,
        Err(OpenFault::OutOfMemory) => Status::OutOfMemory,
        Err(OpenFault::Failed(_)) => unreachable!(),
    }
}

/// Hands out both, or none if memory is refused.
fn hand_out_both(
    alloc: Global,
    called: Called,
    endpoint: &mut Handle,
    keeper: &mut Handle,
) -> Status
    ensures { HandsOutBoth called (endpoint.old.held, keeper.old.held) (endpoint.new.held, keeper.new.held) result }
{
    let Called {
        keeper: made,
        endpoint: first,
    } = called;
    let Ok(first) = Handle::new(alloc, Held::Endpoint(first)) else {
        return Status::OutOfMemory;
    };
    let Ok(made) = Handle::new(alloc, Held::Keeper(made)) else {
        drop(first.into_box());
        return Status::OutOfMemory;
    };
    *endpoint = first;
    *keeper = made;
    Status::Done
}

/// Puts what came to the queue since the last turn into its log, as `CallKeeper::turn` does. The calls for it are left to make.
#[unsafe(no_mangle)]
pub extern "C" fn linnetshelf_turn(alloc: Global, handle: &mut Handle) -> u32
    ensures { OnKeeper handle.old.held handle.new.held (result ≡ number WrongKind) (λ old new.
        Tells (Turned old new) turn_answer result) }
{
    on_held!(handle, Held::Keeper(keeper) => turn_answer(keeper.turn(alloc)), else Status::number)
}

/// Makes the answer of `turn`.
fn turn_answer(said: Result<(), KeepFault>) -> u32
    ensures { result ≡ turn_answer said }
{
    let status = match said {
        Ok(()) => Status::Done,
        Err(KeepFault::OutOfMemory) => Status::OutOfMemory,
        Err(KeepFault::LongFrame) => Status::LongFrame,
        Err(KeepFault::Full) => Status::LogFull,
        Err(KeepFault::Stopped(_)) => Status::LogStopped,
    };
    status.number()
}

/// Brings all that turns put into the log to be stored, as `CallKeeper::settle` does. The calls for it are left to make.
#[unsafe(no_mangle)]
pub extern "C" fn linnetshelf_settle(handle: &mut Handle) -> u32
    ensures { OnKeeper handle.old.held handle.new.held (result ≡ number WrongKind) (λ old new.
        Tells (Settled old new) settle_answer result) }
{
    on_held!(handle, Held::Keeper(keeper) => settle_answer(keeper.settle()), else Status::number)
}

/// Makes the answer of `settle`.
fn settle_answer(said: Result<(), DeviceFault>) -> u32
    ensures { result ≡ settle_answer said }
{
    match said {
        Ok(()) => Status::Done.number(),
        Err(_) => Status::LogStopped.number(),
    }
}

/// Returns the end below which all messages are stored, as far as the calls that were made say.
#[unsafe(no_mangle)]
pub extern "C" fn linnetshelf_stored(handle: &mut Handle) -> Answer
    ensures { OnKeeper handle.old.held handle.new.held (result ≡ plain WrongKind) (λ old new.
        (result ≡ done old.stored_end) × (new ≡ old)) }
{
    on_held!(handle, Held::Keeper(keeper) => done(keeper.stored_end()), else plain)
}
