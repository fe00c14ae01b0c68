//! What calls on a shelf return to C.
ghost use Rattle.std.specs.Prelude.{◌≡◌};
ghost use Rattle.linnetshelf.specs.ShelfAnswers.{complete_answer, cycle_answer, done_answer, fault_status, longer, missed, move_answer, moved_to, next_answer, place_answer, placed, read_at_answer, shelf_answer_of, shelf_plain, take_answer};

use crate::answer::{Answer, done, plain};
use crate::rooms::{read, too_long};
use crate::status::Status;
use cq_endpoint::CompleteFault;
use cq_shelf::{Position, ShelfFault, ShelfNextInto, ShelfReadAtInto, ShelfTakenInto};

/// What a call on a shelf returns if it says where a message is. What it does not say is 0.
#[repr(C)]
#[derive(Clone, Copy)]
pub struct ShelfAnswer {
    /// The number of a queue, from 0.
    pub queue: u64,
    /// The index of a message in this queue, or a position there; or how many queues were missed.
    pub index: u64,
    /// The length of a message in bytes, or the length that the buffer needs.
    pub length: u32,
    /// How it went: the number of a `Status`.
    pub status: u32,
}

/// Makes an answer of a queue, an index there, a length and a status.
fn shelf_answer_of(queue: u64, index: u64, length: u32, status: Status) -> ShelfAnswer
    ensures { result ≡ shelf_answer_of queue index length status }
{
    ShelfAnswer {
        queue,
        index,
        length,
        status: status.number(),
    }
}

/// Makes an answer that has only a status.
pub(crate) fn shelf_plain(status: Status) -> ShelfAnswer
    ensures { result ≡ shelf_plain status }
{
    shelf_answer_of(0, 0, 0, status)
}

/// Makes the answer of a call that is done, with a position. If a message was read there, it has this length.
pub(crate) fn placed(at: Position, length: u32) -> ShelfAnswer
    ensures { result ≡ placed at length }
{
    shelf_answer_of(at.queue, at.index.value(), length, Status::Done)
}

/// Makes the answer that a message of this length was not read: the buffer is too small.
fn longer(length: u32) -> ShelfAnswer
    ensures { result ≡ longer length }
{
    shelf_answer_of(0, 0, length, Status::NoRoom)
}

/// Makes the answer that a name was found at this position.
fn moved_to(at: Position) -> ShelfAnswer
    ensures { result ≡ moved_to at }
{
    shelf_answer_of(at.queue, at.index.value(), 0, Status::Moved)
}

/// Makes the answer that this many queues were dropped before they were read.
fn missed(count: u64) -> ShelfAnswer
    ensures { result ≡ missed count }
{
    shelf_answer_of(0, count, 0, Status::Missed)
}

/// Says why a call on a shelf was refused.
pub(crate) fn fault_status(fault: ShelfFault) -> Status
    ensures { result ≡ fault_status fault }
{
    match fault {
        ShelfFault::Writing => Status::Writing,
        ShelfFault::BadRoom => Status::BadRoom,
        ShelfFault::BadMoment => Status::BadMoment,
        ShelfFault::Busy => Status::Busy,
        ShelfFault::Full => Status::Full,
        ShelfFault::Closed => Status::Closed,
        ShelfFault::BadShelf => Status::BadShelf,
        ShelfFault::NoSuchName => Status::NoSuchName,
        ShelfFault::OutOfMemory => Status::OutOfMemory,
    }
}

/// Makes the answer of `append`, and of `position`.
pub(crate) fn place_answer(said: Result<Position, ShelfFault>) -> ShelfAnswer
    ensures { result ≡ place_answer said }
{
    match said {
        Ok(at) => placed(at, 0),
        Err(fault) => shelf_plain(fault_status(fault)),
    }
}

/// Makes the answer of `complete`.
pub(crate) fn complete_answer(said: Result<Position, CompleteFault>) -> ShelfAnswer
    ensures { result ≡ complete_answer said }
{
    match said {
        Ok(at) => placed(at, 0),
        Err(CompleteFault::NotWriting) => shelf_plain(Status::NotWriting),
        Err(CompleteFault::EmptyMessage) => shelf_plain(Status::EmptyMessage),
    }
}

/// Makes the answer of `advance`.
pub(crate) fn cycle_answer(said: Result<u32, ShelfFault>) -> Answer
    ensures { result ≡ cycle_answer said }
{
    match said {
        Ok(cycle) => done(u64::from(cycle)),
        Err(fault) => plain(fault_status(fault)),
    }
}

/// Makes the answer of a call that is done or refused.
pub(crate) fn done_answer(said: Result<(), ShelfFault>) -> u32
    ensures { result ≡ done_answer said }
{
    match said {
        Ok(()) => Status::Done.number(),
        Err(fault) => fault_status(fault).number(),
    }
}

/// Makes the answer of `move_to`.
pub(crate) fn move_answer(said: Result<bool, ShelfFault>) -> u32
    ensures { result ≡ move_answer said }
{
    let status = match said {
        Ok(true) => Status::Done,
        Ok(false) => Status::NoMessage,
        Err(fault) => fault_status(fault),
    };
    status.number()
}

/// Makes the answer of `next`.
pub(crate) fn next_answer(said: Result<ShelfNextInto, ShelfFault>) -> ShelfAnswer
    ensures { result ≡ next_answer said }
{
    match said {
        Ok(ShelfNextInto::Message(at, length)) => placed(at, length),
        Ok(ShelfNextInto::NoRoom(length)) => longer(length),
        Ok(ShelfNextInto::NotYet) => shelf_plain(Status::NotYet),
        Ok(ShelfNextInto::Finished) => shelf_plain(Status::Finished),
        Ok(ShelfNextInto::BeforeStart) => shelf_plain(Status::BeforeStart),
        Ok(ShelfNextInto::Missed(count)) => missed(count),
        Err(fault) => shelf_plain(fault_status(fault)),
    }
}

/// Makes the answer of `read_at`.
pub(crate) fn read_at_answer(said: Result<ShelfReadAtInto, ShelfFault>) -> Answer
    ensures { result ≡ read_at_answer said }
{
    match said {
        Ok(ShelfReadAtInto::Message(length)) => read(0, length),
        Ok(ShelfReadAtInto::NoRoom(length)) => too_long(length),
        Ok(ShelfReadAtInto::NotYet) => plain(Status::NotYet),
        Ok(ShelfReadAtInto::Never) => plain(Status::Never),
        Ok(ShelfReadAtInto::Gone) => plain(Status::Gone),
        Err(fault) => plain(fault_status(fault)),
    }
}

/// Makes the answer of `take`.
pub(crate) fn take_answer(said: Result<ShelfTakenInto, ShelfFault>) -> ShelfAnswer
    ensures { result ≡ take_answer said }
{
    match said {
        Ok(ShelfTakenInto::Taken(at, length)) => placed(at, length),
        Ok(ShelfTakenInto::NoRoom(length)) => longer(length),
        Ok(ShelfTakenInto::NotYet) => shelf_plain(Status::NotYet),
        Ok(ShelfTakenInto::Finished) => shelf_plain(Status::Finished),
        Ok(ShelfTakenInto::Moved(at)) => moved_to(at),
        Ok(ShelfTakenInto::Missed(count)) => missed(count),
        Err(fault) => shelf_plain(fault_status(fault)),
    }
}
