//! What calls return to C that append or read many messages.
ghost use Rattle.std.specs.Prelude.{◌≡◌};
ghost use Rattle.linnetshelf.specs.Many.{appended_answer, counted, many_plain, read_answer};

use crate::answer::append_status;
use crate::rooms::found_answer;
use crate::status::Status;
use cq_endpoint::{AppendFault, NextInto};

/// What a call returns that appends or reads many messages. What it does not say is 0.
#[repr(C)]
#[derive(Clone, Copy)]
pub struct Many {
    /// The index of the last message that was appended or read.
    pub index: u64,
    /// How many messages were appended or read.
    pub count: u64,
    /// The length of the message for which there are too few bytes.
    pub length: u32,
    /// Why there are no more: the number of a `Status`, which is `Done` if these are all that were asked for.
    pub status: u32,
}

/// How far an append of many messages came.
#[derive(Clone, Copy)]
pub(crate) struct Appended {
    /// How many messages were appended.
    pub(crate) count: usize,
    /// The index of the last one, or 0.
    pub(crate) last: u64,
    /// Why the next one was not, if there is one.
    pub(crate) stop: Option<AppendStop>,
}

impl Appended {
    /// Makes the result of an append of many messages: how many were appended, the index of the last one or 0, and why the
    /// next one was not.
    pub(crate) fn new(count: usize, last: u64, stop: Option<AppendStop>) -> Appended
        ensures { result ≡ record { count = count; last = last; stop = stop } }
    {
        Appended { count, last, stop }
    }
}

/// Why one of many messages was not appended.
#[derive(Clone, Copy)]
pub(crate) enum AppendStop {
    /// It has this length, and fewer bytes are left.
    Short(u32),
    /// The append was refused.
    Refused(AppendFault),
}

/// How far a read of many messages came.
#[derive(Clone, Copy)]
pub(crate) struct ManyRead {
    /// How many messages were read.
    pub(crate) count: usize,
    /// The index of the last one, or 0.
    pub(crate) last: u64,
    /// What the next read returned, if it read none.
    pub(crate) stop: Option<NextInto>,
}

impl ManyRead {
    /// Makes the result of a read of many messages: how many were read, the index of the last one or 0, and what the next
    /// read returned, if it read none.
    pub(crate) fn new(count: usize, last: u64, stop: Option<NextInto>) -> ManyRead
        ensures { result ≡ record { count = count; last = last; stop = stop } }
    {
        ManyRead { count, last, stop }
    }
}

/// Makes an answer that has only a status.
pub(crate) fn many_plain(status: Status) -> Many
    ensures { result ≡ many_plain status }
{
    counted(0, 0, 0, status.number())
}

/// Makes the answer of `append_many`.
pub(crate) fn appended_answer(said: Appended) -> Many
    ensures { result ≡ appended_answer said }
{
    let Appended { count, last, stop } = said;
    match stop {
        None => counted(last, count, 0, Status::Done.number()),
        Some(AppendStop::Short(length)) => counted(last, count, length, Status::NoRoom.number()),
        Some(AppendStop::Refused(fault)) => counted(last, count, 0, append_status(fault).number()),
    }
}

/// Makes the answer of `next_many`.
pub(crate) fn read_answer(said: ManyRead) -> Many
    ensures { result ≡ read_answer said }
{
    let ManyRead { count, last, stop } = said;
    match stop {
        None => counted(last, count, 0, Status::Done.number()),
        Some(found) => {
            let answer = found_answer(found);
            counted(last, count, answer.length, answer.status)
        }
    }
}

fn counted(index: u64, count: usize, length: u32, status: u32) -> Many
    ensures { result ≡ counted index count length status }
{
    Many {
        index,
        count: count as u64,
        length,
        status,
    }
}
