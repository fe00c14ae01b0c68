//! Appending messages, whole or in parts, and beginning cycles.
ghost use Rattle.std.specs.Prelude.{◌≡◌};
ghost use Rattle.cq_endpoint.specs.Endpoints.{ChangesWork};
ghost use Rattle.cq_endpoint.specs.Works.{Advances, Appends, BeginsMessage, CompletesMessage, GivesUp, PutsBytes};
ghost use Rattle.linnetshelf.specs.Answers.{Tells, append_answer, begin_answer, complete_answer, plain, put_answer, roll_back_answer};
ghost use Rattle.linnetshelf.specs.Handles.{OnEndpoint};
ghost use Rattle.linnetshelf.specs.Statuses.{number};
ghost use Rattle.linnetshelf.specs.declared.status.Status.TheVariants.{WrongKind};

use crate::answer::{
    Answer, advance_answer, append_answer, begin_answer, complete_answer, plain, put_answer,
    roll_back_answer,
};
use crate::calling::on_held;
use crate::status::Status;
use cq_handle::{Handle, Held};

/// Appends a message in the cycle of `moment`, in milliseconds of Unix time, or in the current cycle if that is
/// later. Returns its index. `Endpoint::append` says what is refused.
#[unsafe(no_mangle)]
pub extern "C" fn linnetshelf_append(handle: &mut Handle, moment: u64, bytes: &[u8]) -> Answer
    ensures { OnEndpoint handle.old.held handle.new.held (result ≡ plain WrongKind) (λ old new.
        Tells (Appends old.queue old.work moment bytes.now new.work) append_answer result × ChangesWork old new) }
{
    on_held!(handle, Held::Endpoint(endpoint) => {
        append_answer(endpoint.append(moment, bytes))
    }, else plain)
}

/// Begins the cycle of `moment` if it is above the current one. Returns the current cycle, which is at least the one
/// of the moment.
#[unsafe(no_mangle)]
pub extern "C" fn linnetshelf_advance(handle: &mut Handle, moment: u64) -> Answer
    ensures { OnEndpoint handle.old.held handle.new.held (result ≡ plain WrongKind) (λ old new.
        Tells (Advances old.queue old.work moment new.work) append_answer result × ChangesWork old new) }
{
    on_held!(handle, Held::Endpoint(endpoint) => {
        advance_answer(endpoint.advance(moment))
    }, else plain)
}

/// Begins a message of at most `room` bytes in the cycle of `moment`. No other endpoint begins a message before this
/// one is completed or given up.
#[unsafe(no_mangle)]
pub extern "C" fn linnetshelf_begin(handle: &mut Handle, moment: u64, room: u32) -> u32
    ensures { OnEndpoint handle.old.held handle.new.held (result ≡ number WrongKind) (λ old new.
        Tells (BeginsMessage old.queue old.work moment room new.work) begin_answer result × ChangesWork old new) }
{
    on_held!(handle, Held::Endpoint(endpoint) => {
        begin_answer(endpoint.begin(moment, room))
    }, else Status::number)
}

/// Puts bytes after those that were put into the message that is begun.
#[unsafe(no_mangle)]
pub extern "C" fn linnetshelf_put(handle: &mut Handle, bytes: &[u8]) -> u32
    ensures { OnEndpoint handle.old.held handle.new.held (result ≡ number WrongKind) (λ old new.
        Tells (PutsBytes old.queue old.work bytes.now new.work) put_answer result × ChangesWork old new) }
{
    on_held!(handle, Held::Endpoint(endpoint) => {
        put_answer(endpoint.put(bytes))
    }, else Status::number)
}

/// Appends the message that is begun, and returns its index.
#[unsafe(no_mangle)]
pub extern "C" fn linnetshelf_complete(handle: &mut Handle) -> Answer
    ensures { OnEndpoint handle.old.held handle.new.held (result ≡ plain WrongKind) (λ old new.
        Tells (CompletesMessage old.queue old.work new.work) complete_answer result × ChangesWork old new) }
{
    on_held!(handle, Held::Endpoint(endpoint) => complete_answer(endpoint.complete()), else plain)
}

/// Gives up the message that is begun.
#[unsafe(no_mangle)]
pub extern "C" fn linnetshelf_roll_back(handle: &mut Handle) -> u32
    ensures { OnEndpoint handle.old.held handle.new.held (result ≡ number WrongKind) (λ old new.
        Tells (GivesUp old.queue old.work new.work) roll_back_answer result × ChangesWork old new) }
{
    on_held!(handle, Held::Endpoint(endpoint) => {
        roll_back_answer(endpoint.roll_back())
    }, else Status::number)
}
