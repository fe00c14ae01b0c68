//! Two endpoints of a queue, from its start to its end.
use crate::calls::Call;
use crate::new_queues::two_endpoints;
use cq_endpoint::{Direction, Endpoint};
use cq_fixtures::{
    DAY, contents_of, contents_text, expect, expect_answer, expect_end, expect_text, small_config,
};
use cq_shown::{CreateError, recover};
use std::alloc::Global;
use std::test::Fail;

/// Which endpoint calls.
#[derive(Clone, Copy)]
pub enum Who {
    /// The first one of the queue.
    First,
    /// The one that was split off from it.
    Second,
}

/// A new queue with four cycles of 64 cells, each of a day, and the name "reader".
pub struct Life {
    /// Calls of its endpoints in turn, each with what it returns.
    pub calls: &'static [(Who, Call, &'static str)],
    /// What it holds once the last endpoint stopped it.
    pub end: &'static str,
}

/// What a call of one of two endpoints returns.
fn answer_text(
    alloc: Global,
    who: Who,
    call: Call,
    first: &mut Endpoint,
    second: &mut Endpoint,
) -> Result<String, Fail> {
    match who {
        Who::First => call.answer_text(alloc, first),
        Who::Second => call.answer_text(alloc, second),
    }
}

/// Makes the calls of two endpoints in turn. Fails if one of them does not return what is wanted.
fn expect_calls(
    alloc: Global,
    row: &str,
    calls: &[(Who, Call, &str)],
    first: &mut Endpoint,
    second: &mut Endpoint,
) -> Result<(), Fail> {
    for (number, &(who, call, want)) in calls.iter().enumerate() {
        let answer = answer_text(alloc, who, call, first, second)?;
        expect_answer(row, number, answer.as_str(), want)?;
    }
    Ok(())
}

/// What a queue holds that an endpoint stops as the last one.
pub fn stopped_text(alloc: Global, last: Endpoint) -> Result<String, Fail> {
    match last.stop() {
        Ok(stopped) => contents_text(alloc, &recover(alloc, &stopped)?),
        Err(_endpoint) => Err(Fail::new("the last endpoint did not stop the queue")),
    }
}

/// What a queue holds once the first endpoint stopped it. It may not while the second one lives.
fn end_text(alloc: Global, first: Endpoint, second: Endpoint) -> Result<String, Fail> {
    match first.stop() {
        Ok(_stopped) => Err(Fail::new("the queue was stopped while another endpoint lived")),
        Err(first) => {
            drop(second);
            stopped_text(alloc, first)
        }
    }
}

impl Life {
    /// Fails if a call does not return what is wanted, or if the queue does not hold it at the end.
    fn expect(&self, alloc: Global, row: &str) -> Result<(), Fail> {
        let (mut first, mut second) = two_endpoints(alloc)?;
        expect_calls(alloc, row, self.calls, &mut first, &mut second)?;
        expect_end(row, end_text(alloc, first, second)?.as_str(), self.end)
    }
}

static LIVES: [Life; 5] = [
    // One appends, and the other reads both ways.
    Life {
        calls: &[
            (Who::First, Call::Append(0, "a"), "0"),
            (Who::First, Call::Append(0, "b"), "1"),
            (Who::Second, Call::Next, "0 a"),
            (Who::Second, Call::Next, "1 b"),
            (Who::Second, Call::Next, "NotYet"),
            (Who::Second, Call::Turn(Direction::Backwards), "turned"),
            (Who::Second, Call::Next, "1 b"),
            (Who::Second, Call::Cursor, "at 1"),
            (Who::Second, Call::SeenEnd, "end 2"),
            (Who::Second, Call::ToStart, "start"),
            (Who::Second, Call::Next, "BeforeStart"),
            (Who::Second, Call::ToEnd, "end 2"),
            (Who::Second, Call::MoveTo(0), "moved"),
            (Who::Second, Call::MoveTo(7), "stays"),
            (Who::Second, Call::Cursor, "at 0"),
            (Who::Second, Call::SeenEnd, "end 2"),
            (Who::Second, Call::ReadAt(1), "1 b"),
            (Who::Second, Call::ReadAt(2), "NotYet"),
            (Who::First, Call::Snapshot, "0[a;b;] "),
        ],
        end: "0[a;b;] at [0]",
    },
    // A message is put in parts, and keeps the other one from writing. Meanwhile its endpoint begins no other.
    Life {
        calls: &[
            (Who::First, Call::Put("x"), "NotWriting"),
            (Who::First, Call::Complete, "NotWriting"),
            (Who::First, Call::GiveUp, "NotWriting"),
            (Who::First, Call::Begin(0, 0), "Refused(BadRoom)"),
            (Who::First, Call::Begin(0, 5), "begun"),
            (Who::First, Call::Begin(0, 5), "Writing"),
            (Who::First, Call::Append(0, "b"), "Writing"),
            (Who::First, Call::Advance(DAY), "Writing"),
            (Who::Second, Call::Append(0, "b"), "Refused(Busy)"),
            (Who::First, Call::Complete, "EmptyMessage"),
            (Who::First, Call::Put("hel"), "put"),
            (Who::First, Call::Put("lo!"), "NoRoom"),
            (Who::First, Call::Put("lo"), "put"),
            (Who::First, Call::Next, "NotYet"),
            (Who::First, Call::Complete, "0"),
            (Who::First, Call::Next, "0 hello"),
            (Who::Second, Call::Append(0, "b"), "1"),
            (Who::First, Call::Complete, "NotWriting"),
        ],
        end: "0[hello;b;] at [0]",
    },
    // One that is given up, and one that is begun when the queue stops, are in no list.
    Life {
        calls: &[
            (Who::First, Call::Begin(0, 5), "begun"),
            (Who::First, Call::Put("hello"), "put"),
            (Who::First, Call::GiveUp, "given up"),
            (Who::Second, Call::Append(0, "a"), "0"),
            (Who::First, Call::Begin(0, 5), "begun"),
            (Who::First, Call::Put("lost"), "put"),
        ],
        end: "0[a;] at [0]",
    },
    // A name is taken by, asked for and moved; none is moved past what was seen.
    Life {
        calls: &[
            (Who::First, Call::Append(0, "a"), "0"),
            (Who::First, Call::Append(0, "b"), "1"),
            (Who::Second, Call::Take("reader"), "0 a"),
            (Who::First, Call::Take("reader"), "1 b"),
            (Who::First, Call::Take("reader"), "NotYet"),
            (Who::First, Call::Take("other"), "NoSuchName"),
            (Who::First, Call::Position("reader"), "at 2"),
            (Who::First, Call::Position("other"), "NoSuchName"),
            (Who::First, Call::Seek("reader", 0, 1), "Moved(2)"),
            (Who::First, Call::Seek("reader", 2, 1), "Done"),
            (Who::First, Call::Seek("reader", 1, 3), "NotSeen"),
            (Who::First, Call::Seek("other", 1, 2), "NoSuchName"),
            (Who::First, Call::Seek("other", 1, 3), "NotSeen"),
        ],
        end: "0[a;b;] at [1]",
    },
    // Cycles begin, and old ones are dropped if the endpoint has seen a later one.
    Life {
        calls: &[
            (Who::First, Call::Append(0, "a"), "0"),
            (Who::First, Call::Advance(DAY), "cycle 1"),
            (Who::First, Call::Append(DAY, "b"), "4294967296"),
            (Who::Second, Call::DropBefore(1), "NotSeen"),
            (Who::Second, Call::ToEnd, "end 4294967297"),
            (Who::Second, Call::DropBefore(1), "floor 1"),
            (Who::Second, Call::ReadAt(0), "Gone"),
            (Who::First, Call::Next, "4294967296 b"),
            (Who::First, Call::Advance(9 * DAY), "cycle 9"),
        ],
        end: "0[a;] 1[b;] 9[] at [0] floor 1",
    },
];

/// Fails if a queue does not live as one of these.
pub fn expect_lives(alloc: Global, lives: &[Life]) -> Result<(), Fail> {
    for (number, life) in lives.iter().enumerate() {
        let row = format!(in alloc; "life {number}")?;
        life.expect(alloc, row.as_str())?;
    }
    Ok(())
}

#[test]
fn endpoints_append_and_read(rt: HostRuntime) -> Result<(), Fail> {
    expect_lives(rt.alloc(), &LIVES)
}

/// An endpoint of a queue that is opened with one message.
fn opened(alloc: Global) -> Result<Endpoint, Fail> {
    let contents = contents_of(alloc, &[(3, &["old"])], &[0])?;
    Ok(Endpoint::open(alloc, small_config(alloc, 4)?, &contents)?)
}

/// What an endpoint of a queue that is opened with one message reads.
fn opened_text(alloc: Global) -> Result<String, Fail> {
    let mut endpoint = opened(alloc)?;
    Call::Next.answer_text(alloc, &mut endpoint)
}

#[test]
fn a_queue_is_opened_with_contents(rt: HostRuntime) -> Result<(), Fail> {
    expect_text(opened_text(rt.alloc())?, "12884901888 old")
}

/// Why no queue is opened with contents that have no position for its name.
fn fault_of_contents(alloc: Global) -> Result<Option<CreateError>, Fail> {
    let contents = contents_of(alloc, &[(3, &["old"])], &[])?;
    Ok(Endpoint::open(alloc, small_config(alloc, 4)?, &contents).err())
}

/// Why no queue is created after the last moment.
fn fault_of_moment(alloc: Global) -> Result<Option<CreateError>, Fail> {
    Ok(Endpoint::create(alloc, small_config(alloc, 4)?, u64::MAX).err())
}

#[test]
fn no_queue_is_opened_with_other_contents(rt: HostRuntime) -> Result<(), Fail> {
    let fault = fault_of_contents(rt.alloc())?;
    expect(matches!(fault, Some(CreateError::BadContents)), "contents")?;
    let fault = fault_of_moment(rt.alloc())?;
    expect(matches!(fault, Some(CreateError::BadMoment)), "a moment")
}
