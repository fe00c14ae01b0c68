//! Queues that are closed: what each call of their endpoints returns.
use crate::calls::{Call, Calls, expect_calls};
use crate::life_tests::{Life, Who, expect_lives, stopped_text};
use crate::new_queues::rolling_endpoint;
use cq_cycle::{LAST_MOMENT, Roll};
use cq_endpoint::Direction;
use cq_fixtures::{DAY, expect_end};
use std::alloc::Global;
use std::test::Fail;

static LIVES: [Life; 6] = [
    // Both endpoints find the queue closed. Nothing is appended, and reads and takes come to their end.
    Life {
        calls: &[
            (Who::First, Call::Append(0, "a"), "0"),
            (Who::First, Call::IsClosed, "open"),
            (Who::First, Call::Close, "closed"),
            (Who::First, Call::IsClosed, "closed"),
            (Who::Second, Call::IsClosed, "closed"),
            (Who::First, Call::Close, "Closed"),
            (Who::Second, Call::Close, "Closed"),
            (Who::First, Call::Append(0, "b"), "Closed"),
            (Who::Second, Call::Append(9 * DAY, "b"), "Closed"),
            (Who::Second, Call::Append(0, ""), "Refused(BadRoom)"),
            (Who::Second, Call::Begin(0, 5), "Closed"),
            (Who::Second, Call::Advance(0), "cycle 0"),
            (Who::Second, Call::Advance(DAY), "Closed"),
            (Who::First, Call::Put("x"), "NotWriting"),
            (Who::Second, Call::Peek, "0 1"),
            (Who::Second, Call::Next, "0 a"),
            (Who::Second, Call::Peek, "Finished"),
            (Who::Second, Call::Next, "Finished"),
            (Who::Second, Call::Next, "Finished"),
            (Who::Second, Call::NextInto(1), "Finished [.]"),
            (Who::First, Call::NextInto(0), "NoRoom(1) []"),
            (Who::First, Call::NextInto(1), "0 1 [a]"),
            (Who::First, Call::ReadAt(0), "0 a"),
            (Who::First, Call::ReadAt(1), "Finished"),
            (Who::First, Call::ReadAtInto(1, 1), "Finished [.]"),
            (Who::First, Call::Take("reader"), "0 a"),
            (Who::First, Call::Take("reader"), "Finished"),
            (Who::Second, Call::TakeInto("reader", 1), "Finished [.]"),
            (Who::First, Call::Take("other"), "NoSuchName"),
            (Who::Second, Call::Turn(Direction::Backwards), "turned"),
            (Who::Second, Call::Next, "0 a"),
            (Who::Second, Call::Next, "BeforeStart"),
            // Names and the floor still move.
            (Who::First, Call::Position("reader"), "at 1"),
            (Who::First, Call::Seek("reader", 1, 0), "Done"),
            (Who::First, Call::Take("reader"), "0 a"),
            (Who::First, Call::ToEnd, "end 1"),
            (Who::First, Call::DropBefore(0), "floor 0"),
            (Who::First, Call::Snapshot, "0[a;] "),
        ],
        end: "0[a;] at [1]",
    },
    // A message that is begun keeps everybody from closing the queue, until it is completed or given up.
    Life {
        calls: &[
            (Who::First, Call::Begin(0, 5), "begun"),
            (Who::First, Call::Close, "Writing"),
            (Who::Second, Call::Close, "Refused(Busy)"),
            (Who::Second, Call::IsClosed, "open"),
            (Who::First, Call::Put("ab"), "put"),
            (Who::First, Call::Complete, "0"),
            (Who::Second, Call::Next, "0 ab"),
            (Who::Second, Call::Next, "NotYet"),
            (Who::First, Call::Begin(0, 5), "begun"),
            (Who::First, Call::GiveUp, "given up"),
            (Who::Second, Call::Close, "closed"),
            (Who::First, Call::Append(0, "b"), "Closed"),
            (Who::First, Call::Begin(0, 5), "Closed"),
            (Who::First, Call::Close, "Closed"),
            (Who::Second, Call::Next, "Finished"),
        ],
        end: "0[ab;] at [0]",
    },
    // A queue without a message is closed, and one whose last cycle has none.
    Life {
        calls: &[
            (Who::Second, Call::Close, "closed"),
            (Who::First, Call::Next, "Finished"),
            (Who::First, Call::Append(DAY, "a"), "Closed"),
        ],
        end: "0[] at [0]",
    },
    Life {
        calls: &[
            (Who::First, Call::Append(0, "a"), "0"),
            (Who::First, Call::Advance(5 * DAY), "cycle 5"),
            (Who::Second, Call::Close, "closed"),
            (Who::First, Call::Append(9 * DAY, "a"), "Closed"),
            (Who::First, Call::Next, "0 a"),
            (Who::First, Call::Next, "Finished"),
            (Who::First, Call::ReadAt(1), "Never"),
        ],
        end: "0[a;] 5[] at [0]",
    },
    // Where not one byte fits into the current cycle, the next one begins.
    Life {
        calls: &[
            (
                Who::First,
                Call::AppendAll,
                "13 appended, Refused(CycleFull)",
            ),
            (Who::First, Call::Close, "closed"),
            (Who::Second, Call::Append(0, "a"), "Closed"),
            (Who::Second, Call::Append(9 * DAY, "a"), "Closed"),
            (Who::Second, Call::ToEnd, "end 4294967296"),
        ],
        end: "0[a;a;a;a;a;a;a;a;a;a;a;a;a;] 1[] at [0]",
    },
    // Where all cycles have begun too, no message can come in any case. The queue is closed all the same.
    Life {
        calls: &[
            (Who::First, Call::Advance(DAY), "cycle 1"),
            (Who::First, Call::Advance(2 * DAY), "cycle 2"),
            (Who::First, Call::Advance(3 * DAY), "cycle 3"),
            (
                Who::First,
                Call::AppendAll,
                "13 appended, Refused(CycleFull)",
            ),
            (
                Who::First,
                Call::Append(9 * DAY, "a"),
                "Refused(NoCycleLeft)",
            ),
            (Who::Second, Call::IsClosed, "open"),
            (Who::Second, Call::Close, "closed"),
            (Who::First, Call::IsClosed, "closed"),
            (Who::First, Call::Close, "Closed"),
            (Who::First, Call::Append(0, "a"), "Closed"),
            (Who::First, Call::Append(9 * DAY, "a"), "Closed"),
            (Who::First, Call::Begin(0, 1), "Closed"),
            (Who::First, Call::ToEnd, "end 12884901901"),
            (Who::First, Call::Next, "Finished"),
        ],
        end: "0[] 1[] 2[] 3[a;a;a;a;a;a;a;a;a;a;a;a;a;] at [0]",
    },
];

#[test]
fn endpoints_close_a_queue(rt: HostRuntime) -> Result<(), Fail> {
    expect_lives(rt.alloc(), &LIVES)
}

/// A queue in a late cycle.
struct Late {
    roll: Roll,
    /// How many cycles it may have. The first one is cycle 0.
    cycles: u32,
    /// Calls of its endpoint in turn, each with what it returns.
    calls: Calls,
    /// What it holds once the endpoint stopped it.
    end: &'static str,
}

/// A message after which a cycle of 64 cells has a place for one more, of at most four bytes.
const LONG: &str =
    "This message takes 33 of the 36 cells that are left by the store record and two tables. One more of four bytes has a place now.";

/// The last millisecond of the last cycle of a minute. No queue has a later one.
const LAST_OF_MINUTES: u64 = 128_849_018_819_999;

/// Not one byte fits into the last day. No message can come, and yet the queue is not closed.
const FULL_DAY: Calls = &[
    (Call::Advance(LAST_MOMENT), "cycle 2932896"),
    (Call::AppendAll, "13 appended, Refused(CycleFull)"),
    (Call::Close, "Refused(CycleFull)"),
    (Call::IsClosed, "open"),
    (Call::Close, "Refused(CycleFull)"),
    (Call::Append(0, "b"), "Refused(CycleFull)"),
    (Call::Append(LAST_MOMENT, "b"), "Refused(CycleFull)"),
    (Call::Append(LAST_MOMENT + 1, "b"), "Refused(BadMoment)"),
    (Call::Begin(0, 1), "Refused(CycleFull)"),
    (Call::Advance(LAST_MOMENT), "cycle 2932896"),
    (Call::Next, "12596692402569216 a"),
    (Call::Take("reader"), "12596692402569216 a"),
    (Call::ReadAt(12596692402569228), "12596692402569228 a"),
    (Call::ReadAt(12596692402569229), "NotYet"),
    (Call::ToEnd, "end 12596692402569229"),
    (Call::Next, "NotYet"),
    (Call::NextInto(1), "NotYet [.]"),
    (Call::Turn(Direction::Backwards), "turned"),
    (Call::Next, "12596692402569228 a"),
];

static LATE: [Late; 9] = [
    // The last day has room.
    Late {
        roll: Roll::Daily,
        cycles: 2,
        calls: &[
            (Call::Append(LAST_MOMENT, "a"), "12596692402569216"),
            (Call::Close, "closed"),
            (Call::IsClosed, "closed"),
            (Call::Close, "Closed"),
            (Call::Append(0, "b"), "Closed"),
            (Call::Append(LAST_MOMENT, "b"), "Closed"),
            (Call::Append(LAST_MOMENT + 1, "b"), "Refused(BadMoment)"),
            (Call::Begin(0, 1), "Closed"),
            (Call::Advance(LAST_MOMENT), "cycle 2932896"),
            (Call::Next, "12596692402569216 a"),
            (Call::Next, "Finished"),
            (Call::Take("reader"), "12596692402569216 a"),
            (Call::Take("reader"), "Finished"),
        ],
        end: "0[] 2932896[a;] at [12596692402569217]",
    },
    // It has room for the message of one byte that closes the queue, and for no longer one.
    Late {
        roll: Roll::Daily,
        cycles: 2,
        calls: &[
            (Call::Append(LAST_MOMENT, LONG), "12596692402569216"),
            (Call::Append(LAST_MOMENT, "hello"), "Refused(CycleFull)"),
            (Call::Close, "closed"),
            (Call::IsClosed, "closed"),
            (Call::Append(0, "b"), "Closed"),
            (Call::Append(0, "hello"), "Closed"),
            (Call::MoveTo(12596692402569216), "moved"),
            (Call::NextInto(0), "NoRoom(127) []"),
            (Call::ToEnd, "end 12596692402569217"),
            (Call::Next, "Finished"),
        ],
        end: "0[] 2932896[This message takes 33 of the 36 cells that are left by the store record and two tables. One more of four bytes has a place now.;] at [0]",
    },
    // It has none, whether all cycles have begun or not.
    Late {
        roll: Roll::Daily,
        cycles: 2,
        calls: FULL_DAY,
        end: "0[] 2932896[a;a;a;a;a;a;a;a;a;a;a;a;a;] at [12596692402569217]",
    },
    Late {
        roll: Roll::Daily,
        cycles: 4,
        calls: FULL_DAY,
        end: "0[] 2932896[a;a;a;a;a;a;a;a;a;a;a;a;a;] at [12596692402569217]",
    },
    // The day before is full. The last day begins, or all cycles have begun.
    Late {
        roll: Roll::Daily,
        cycles: 4,
        calls: &[
            (Call::Advance(LAST_MOMENT - DAY), "cycle 2932895"),
            (Call::AppendAll, "13 appended, Refused(CycleFull)"),
            (Call::Close, "closed"),
            (Call::Append(LAST_MOMENT, "b"), "Closed"),
            (Call::ToEnd, "end 12596692402569216"),
            (Call::Next, "Finished"),
        ],
        end: "0[] 2932895[a;a;a;a;a;a;a;a;a;a;a;a;a;] 2932896[] at [0]",
    },
    Late {
        roll: Roll::Daily,
        cycles: 2,
        calls: &[
            (Call::Advance(LAST_MOMENT - DAY), "cycle 2932895"),
            (Call::AppendAll, "13 appended, Refused(CycleFull)"),
            (Call::Close, "closed"),
            (Call::Append(LAST_MOMENT, "b"), "Closed"),
            (Call::ToEnd, "end 12596688107601933"),
            (Call::Next, "Finished"),
        ],
        end: "0[] 2932895[a;a;a;a;a;a;a;a;a;a;a;a;a;] at [0]",
    },
    // The last hour of the same year, and the last minute that has a number, are as the last day.
    Late {
        roll: Roll::Hourly,
        cycles: 4,
        calls: &[
            (Call::Advance(LAST_MOMENT), "cycle 70389527"),
            (Call::AppendAll, "13 appended, Refused(CycleFull)"),
            (Call::Close, "Refused(CycleFull)"),
            (Call::IsClosed, "open"),
            (Call::Append(LAST_MOMENT, "b"), "Refused(CycleFull)"),
            (Call::Append(LAST_MOMENT + 1, "b"), "Refused(BadMoment)"),
            (Call::ToEnd, "end 302320716445909005"),
            (Call::Next, "NotYet"),
        ],
        end: "0[] 70389527[a;a;a;a;a;a;a;a;a;a;a;a;a;] at [0]",
    },
    Late {
        roll: Roll::Minutely,
        cycles: 4,
        calls: &[
            (Call::Advance(LAST_OF_MINUTES), "cycle 2147483646"),
            (Call::AppendAll, "13 appended, Refused(CycleFull)"),
            (Call::Close, "Refused(CycleFull)"),
            (Call::IsClosed, "open"),
            (Call::Append(LAST_OF_MINUTES, "b"), "Refused(CycleFull)"),
            (Call::Append(LAST_OF_MINUTES + 1, "b"), "Refused(BadMoment)"),
            (Call::ToEnd, "end 9223372028264841229"),
            (Call::Next, "NotYet"),
        ],
        end: "0[] 2147483646[a;a;a;a;a;a;a;a;a;a;a;a;a;] at [0]",
    },
    Late {
        roll: Roll::Minutely,
        cycles: 4,
        calls: &[
            (Call::Append(LAST_OF_MINUTES, "a"), "9223372028264841216"),
            (Call::Close, "closed"),
            (Call::Append(LAST_OF_MINUTES, "b"), "Closed"),
            (Call::Next, "9223372028264841216 a"),
            (Call::Next, "Finished"),
        ],
        end: "0[] 2147483646[a;] at [0]",
    },
];

impl Late {
    /// Fails if a call does not return what is wanted, or if the queue does not hold it at the end.
    fn expect(&self, alloc: Global, row: &str) -> Result<(), Fail> {
        let mut endpoint = rolling_endpoint(alloc, self.roll, self.cycles)?;
        expect_calls(alloc, row, &mut endpoint, self.calls)?;
        expect_end(row, stopped_text(alloc, endpoint)?.as_str(), self.end)
    }
}

#[test]
fn a_full_queue_stays_open_in_the_last_cycle_of_time(rt: HostRuntime) -> Result<(), Fail> {
    for (number, late) in LATE.iter().enumerate() {
        let row = format!(in rt.alloc(); "late queue {number}")?;
        late.expect(rt.alloc(), row.as_str())?;
    }
    Ok(())
}
