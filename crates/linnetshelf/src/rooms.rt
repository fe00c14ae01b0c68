//! Reading and taking messages into buffers, which are bytes of the caller. It allocates nothing.
ghost use Rattle.std.specs.Prelude.{◌≡◌};
ghost use Rattle.cq_endpoint.specs.Endpoints.{ChangesTailer};
ghost use Rattle.cq_endpoint.specs.Reads.{NextIntoSays, ReadAtIntoSays};
ghost use Rattle.linnetshelf.specs.Answers.{Tells, at_answer, found_answer, plain, read, take_answer, too_long, took_answer};
ghost use Rattle.linnetshelf.specs.Handles.{OnEndpoint};
ghost use Rattle.linnetshelf.specs.Reads.{TakesName};
ghost use Rattle.linnetshelf.specs.declared.status.Status.TheVariants.{WrongKind};

use crate::answer::{Answer, answer_of, moved, plain};
use crate::calling::on_held;
use crate::status::Status;
use cq_cycle::Index;
use cq_endpoint::{Endpoint, NextInto, NoSuchName, ReadAtInto, TakenInto};
use cq_handle::{Handle, Held};

/// Reads the next message in the endpoint's direction into a buffer. Returns its index and its length, and moves
/// after it, or backwards before it.
///
/// - `NotYet`, `Finished`, `BeforeStart`: there is no such message.
/// - `NoRoom`: the buffer has fewer bytes. The answer has the length, and nothing is read.
#[unsafe(no_mangle)]
pub extern "C" fn linnetshelf_next(handle: &mut Handle, room: &mut [u8]) -> Answer
    ensures { OnEndpoint handle.old.held handle.new.held ((result ≡ plain WrongKind) × (room.new ≡ room.old)) (λ old new.
        Tells (NextIntoSays old.queue old.tailer new.tailer room.old room.new) found_answer result × ChangesTailer old new) }
{
    on_held!(handle, Held::Endpoint(endpoint) => found_answer(endpoint.next_into(room)), else plain)
}

/// Reads the message with this index into a buffer. Returns its length, and the endpoint stays where it is.
///
/// - `NotYet`, `Finished`, `Never`, `Gone`: no message is there that reads return.
/// - `NoRoom`: the buffer has fewer bytes. The answer has the length, and nothing is read.
#[unsafe(no_mangle)]
pub extern "C" fn linnetshelf_read_at(handle: &mut Handle, index: u64, room: &mut [u8]) -> Answer
    ensures { OnEndpoint handle.old.held handle.new.held ((result ≡ plain WrongKind) × (room.new ≡ room.old)) (λ old new.
        Tells (ReadAtIntoSays old.queue old.tailer new.tailer index room.old room.new) at_answer result
        × ChangesTailer old new) }
{
    on_held!(handle, Held::Endpoint(endpoint) => {
        at_answer(endpoint.read_at_into(Index::of_value(index), room))
    }, else plain)
}

/// Takes the next message of a name into a buffer. Returns its index and its length.
///
/// - `NotYet`: no message has come for it.
/// - `Finished`: no message comes for it any more.
/// - `NoSuchName`: the queue declares no such name.
/// - `NoRoom`: the buffer has fewer bytes. The answer has the length, and nothing is taken.
/// - `Moved`: another endpoint has moved the name meanwhile. The answer has the position that was found, and nothing
///   is taken.
#[unsafe(no_mangle)]
pub extern "C" fn linnetshelf_take(handle: &mut Handle, name: &[u8], room: &mut [u8]) -> Answer
    ensures { OnEndpoint handle.old.held handle.new.held ((result ≡ plain WrongKind) × (room.new ≡ room.old)) (λ old new.
        Tells (TakesName old new name.now room.old room.new) take_answer result × ChangesTailer old new) }
{
    on_held!(handle, Held::Endpoint(endpoint) => {
        take_answer(take(endpoint, name, room))
    }, else plain)
}

fn take(endpoint: &mut Endpoint, name: &[u8], room: &mut [u8]) -> Result<TakenInto, NoSuchName>
    ensures says { TakesName endpoint.old endpoint.new name.now room.old room.new result }
    ensures rest { ChangesTailer endpoint.old endpoint.new }
{
    match str::from_utf8(name) {
        Ok(name) => endpoint.take_into(name, room),
        Err(_) => Err(NoSuchName),
    }
}

/// Makes the answer that a message of this length was read.
pub(crate) fn read(index: u64, length: u32) -> Answer
    ensures { result ≡ read index length }
{
    answer_of(index, length, Status::Done)
}

/// Makes the answer that a message of this length was not read: the buffer is too small.
pub(crate) fn too_long(length: u32) -> Answer
    ensures { result ≡ too_long length }
{
    answer_of(0, length, Status::NoRoom)
}

/// Makes the answer of `next`.
pub(crate) fn found_answer(said: NextInto) -> Answer
    ensures { result ≡ found_answer said }
{
    match said {
        NextInto::Message(index, length) => read(index.value(), length),
        NextInto::NoRoom(length) => too_long(length),
        NextInto::NotYet => plain(Status::NotYet),
        NextInto::Finished => plain(Status::Finished),
        NextInto::BeforeStart => plain(Status::BeforeStart),
    }
}

/// Makes the answer of `read_at`.
fn at_answer(said: ReadAtInto) -> Answer
    ensures { result ≡ at_answer said }
{
    match said {
        ReadAtInto::Message(length) => read(0, length),
        ReadAtInto::NoRoom(length) => too_long(length),
        ReadAtInto::NotYet => plain(Status::NotYet),
        ReadAtInto::Finished => plain(Status::Finished),
        ReadAtInto::Never => plain(Status::Never),
        ReadAtInto::Gone => plain(Status::Gone),
    }
}

/// Makes the answer of `take`.
fn take_answer(said: Result<TakenInto, NoSuchName>) -> Answer
    ensures { result ≡ take_answer said }
{
    match said {
        Ok(took) => took_answer(took),
        Err(NoSuchName) => plain(Status::NoSuchName),
    }
}

/// Makes the answer of a take by a name that the queue declares.
fn took_answer(took: TakenInto) -> Answer
    ensures { result ≡ took_answer took }
{
    match took {
        TakenInto::Taken(index, length) => read(index.value(), length),
        TakenInto::NoRoom(length) => too_long(length),
        TakenInto::NotYet => plain(Status::NotYet),
        TakenInto::Finished => plain(Status::Finished),
        TakenInto::Moved(position) => moved(position),
    }
}
