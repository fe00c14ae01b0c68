//! What calls return to C.
ghost use Rattle.std.specs.Prelude.{◌≡◌};
ghost use Rattle.linnetshelf.specs.Answers.{answer_of, append_answer, append_status, begin_answer, close_answer, complete_answer, direction_answer, done, drop_answer, end_answer, move_answer, moved, plain, position_answer, put_answer, refusal_status, roll_back_answer, seek_answer};

use crate::status::Status;
use cq_cycle::Index;
use cq_endpoint::{
    AppendFault, CloseFault, CompleteFault, Direction, NoSuchName, NotSeen, NotWriting, PutFault,
    SeekFault, Sought,
};
use cq_layout::Refusal;

/// What a call returns if it says more than how it went. What it does not say is 0.
#[repr(C)]
#[derive(Clone, Copy)]
pub struct Answer {
    /// A number, as the call says: the index of a message, a position, an end, a cycle, a floor or a count. It is 1
    /// for a cycle that has ended, and for an image with an error the byte at which that is.
    pub index: u64,
    /// The length of a message or an image in bytes, or the length that the buffer needs.
    pub length: u32,
    /// How it went: the number of a `Status`.
    pub status: u32,
}

/// Makes an answer of a number, a length and a status.
pub(crate) fn answer_of(index: u64, length: u32, status: Status) -> Answer
    ensures { result ≡ answer_of index length status }
{
    Answer {
        index,
        length,
        status: status.number(),
    }
}

/// Makes an answer that has only a status.
pub(crate) fn plain(status: Status) -> Answer
    ensures { result ≡ plain status }
{
    answer_of(0, 0, status)
}

/// Makes the answer of a call that is done, with a number.
pub(crate) fn done(index: u64) -> Answer
    ensures { result ≡ done index }
{
    answer_of(index, 0, Status::Done)
}

/// Makes the answer of `append`.
pub(crate) fn append_answer(said: Result<Index, AppendFault>) -> Answer
    ensures { result ≡ append_answer said }
{
    match said {
        Ok(index) => done(index.value()),
        Err(fault) => plain(append_status(fault)),
    }
}

/// Makes the answer of `advance`.
pub(crate) fn advance_answer(said: Result<u32, AppendFault>) -> Answer
    ensures { result ≡ append_answer said }
{
    match said {
        Ok(cycle) => done(u64::from(cycle)),
        Err(fault) => plain(append_status(fault)),
    }
}

/// Makes the answer of `begin`.
pub(crate) fn begin_answer(said: Result<(), AppendFault>) -> u32
    ensures { result ≡ begin_answer said }
{
    match said {
        Ok(()) => Status::Done.number(),
        Err(fault) => append_status(fault).number(),
    }
}

/// Says why nothing was appended or begun.
pub(crate) fn append_status(fault: AppendFault) -> Status
    ensures { result ≡ append_status fault }
{
    match fault {
        AppendFault::Writing => Status::Writing,
        AppendFault::Closed => Status::Closed,
        AppendFault::Refused(refusal) => refusal_status(refusal),
    }
}

/// Says why an appender was refused.
fn refusal_status(refusal: Refusal) -> Status
    ensures { result ≡ refusal_status refusal }
{
    match refusal {
        Refusal::BadRoom => Status::BadRoom,
        Refusal::BadMoment => Status::BadMoment,
        Refusal::Busy => Status::Busy,
        Refusal::NoCycleLeft => Status::NoCycleLeft,
        Refusal::CycleFull => Status::CycleFull,
    }
}

/// Makes the answer of `close`.
pub(crate) fn close_answer(said: Result<(), CloseFault>) -> u32
    ensures { result ≡ close_answer said }
{
    let status = match said {
        Ok(()) => Status::Done,
        Err(CloseFault::Writing) => Status::Writing,
        Err(CloseFault::Closed) => Status::Closed,
        Err(CloseFault::Refused(refusal)) => refusal_status(refusal),
    };
    status.number()
}

/// Makes the answer of `put`.
pub(crate) fn put_answer(said: Result<(), PutFault>) -> u32
    ensures { result ≡ put_answer said }
{
    let status = match said {
        Ok(()) => Status::Done,
        Err(PutFault::NotWriting) => Status::NotWriting,
        Err(PutFault::NoRoom) => Status::PastRoom,
    };
    status.number()
}

/// Makes the answer of `complete`.
pub(crate) fn complete_answer(said: Result<Index, CompleteFault>) -> Answer
    ensures { result ≡ complete_answer said }
{
    match said {
        Ok(index) => done(index.value()),
        Err(CompleteFault::NotWriting) => plain(Status::NotWriting),
        Err(CompleteFault::EmptyMessage) => plain(Status::EmptyMessage),
    }
}

/// Makes the answer of `roll_back`.
pub(crate) fn roll_back_answer(said: Result<(), NotWriting>) -> u32
    ensures { result ≡ roll_back_answer said }
{
    match said {
        Ok(()) => Status::Done.number(),
        Err(NotWriting) => Status::NotWriting.number(),
    }
}

/// Makes the answer of `direction`.
pub(crate) fn direction_answer(said: Option<Direction>) -> u32
    ensures { result ≡ direction_answer said }
{
    match said {
        Some(_) => Status::Done.number(),
        None => Status::BadDirection.number(),
    }
}

/// Makes the answer of `end`.
pub(crate) fn end_answer(said: Option<u64>) -> Answer
    ensures { result ≡ end_answer said }
{
    match said {
        Some(end) => done(end),
        None => plain(Status::OutOfMemory),
    }
}

/// Makes the answer of `move_to`.
pub(crate) fn move_answer(stands: bool) -> u32
    ensures { result ≡ move_answer stands }
{
    if stands {
        Status::Done.number()
    } else {
        Status::NoMessage.number()
    }
}

/// Makes the answer of `drop_before`.
pub(crate) fn drop_answer(said: Result<u32, NotSeen>) -> Answer
    ensures { result ≡ drop_answer said }
{
    match said {
        Ok(floor) => done(u64::from(floor)),
        Err(NotSeen) => plain(Status::NotSeen),
    }
}

/// Makes the answer of `position`.
pub(crate) fn position_answer(said: Result<u64, NoSuchName>) -> Answer
    ensures { result ≡ position_answer said }
{
    match said {
        Ok(position) => done(position),
        Err(NoSuchName) => plain(Status::NoSuchName),
    }
}

/// Makes the answer that a name is at this position.
pub(crate) fn moved(position: u64) -> Answer
    ensures { result ≡ moved position }
{
    answer_of(position, 0, Status::Moved)
}

/// Makes the answer of `seek`.
pub(crate) fn seek_answer(said: Result<Sought, SeekFault>) -> Answer
    ensures { result ≡ seek_answer said }
{
    match said {
        Ok(Sought::Done) => plain(Status::Done),
        Ok(Sought::Moved(position)) => moved(position),
        Err(SeekFault::NotSeen) => plain(Status::NotSeen),
        Err(SeekFault::NoSuchName) => plain(Status::NoSuchName),
    }
}
