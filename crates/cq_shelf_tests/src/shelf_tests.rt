//! Shelves in one thread: messages go over queues, queues are freed, and shelves are made or refused.
use crate::calls::{Call, written_text};
use crate::lives::{Life, Who, expect_lives};
use cq_cycle::{LAST_MOMENT, Roll};
use cq_fixtures::{DAY, expect_answer};
use cq_layout::Shape;
use cq_model::Config;
use cq_shelf::{AtLimit, ShelfWriter};
use std::alloc::Global;
use std::test::Fail;

/// A message that a cycle of 64 cells has no place for.
const TOO_LONG: &str =
    "The store record, the top table and the first table take 28 of the 64 cells. This message takes more than the 36 cells of 4 bytes that are left.";

/// The longest message that such a cycle has a place for.
const FILLS: &str =
    "A message of 136 bytes takes a header and 34 cells. These are all that an empty cycle has left, but for one that is kept for its end....";

static LIVES: [Life; 5] = [
    // Each queue takes 13 messages of one byte, and there are places for three.
    Life {
        cycles: 1,
        most: 3,
        at_limit: AtLimit::Refuse,
        calls: &[
            (Who::First, Call::NewReader, "made"),
            (Who::First, Call::NewTaker("reader"), "made"),
            (Who::First, Call::AppendMany(0, 13), "0: 0.12"),
            (Who::Second, Call::Next, "0: 0.0 a"),
            (Who::First, Call::Append(0, "b"), "1: 0.0"),
            (Who::First, Call::WriterQueue, "queue 1"),
            (Who::First, Call::Living, "2 live"),
            (Who::First, Call::AppendMany(0, 12), "1: 0.12"),
            (Who::First, Call::AppendMany(0, 13), "2: 0.12"),
            (Who::First, Call::Living, "3 live"),
            // The reader and the taker keep the first queue.
            (Who::First, Call::Append(0, "c"), "Full"),
            (Who::First, Call::Append(0, "c"), "Full"),
            (Who::First, Call::Append(0, ""), "BadRoom"),
            (Who::First, Call::Append(0, TOO_LONG), "BadRoom"),
            (Who::First, Call::WriterQueue, "queue 2"),
            (Who::Second, Call::Count, "38 read, NotYet"),
            (Who::Second, Call::ReaderQueue, "queue 2"),
            (Who::First, Call::Append(0, "c"), "Full"),
            (Who::Second, Call::Take, "0: 0.0 a"),
            (Who::Second, Call::CountTaken, "38 taken, NotYet"),
            (Who::First, Call::Living, "1 live"),
            (Who::First, Call::Append(0, "c"), "3: 0.0"),
            (Who::Second, Call::NextInto(0), "NoRoom(1) []"),
            (Who::Second, Call::ReaderQueue, "queue 3"),
            (Who::Second, Call::Take, "3: 0.0 c"),
            (Who::Second, Call::Take, "NotYet"),
            (Who::Second, Call::NextInto(3), "3: 0.0 1 [c..]"),
            (Who::Second, Call::NextInto(3), "NotYet [...]"),
            (Who::First, Call::Living, "1 live"),
            // Messages that no queue takes.
            (Who::First, Call::Append(0, ""), "BadRoom"),
            (Who::First, Call::Append(0, TOO_LONG), "BadRoom"),
            (Who::First, Call::Append(u64::MAX, "d"), "BadMoment"),
            (Who::First, Call::Append(0, "d"), "3: 0.1"),
            (Who::Second, Call::Next, "3: 0.1 d"),
        ],
    },
    // A later moment begins the second cycle, and then the next queue. Cycles rise from one queue to the next, whatever the
    // moment is.
    Life {
        cycles: 2,
        most: 3,
        at_limit: AtLimit::Refuse,
        calls: &[
            (Who::First, Call::NewReader, "made"),
            (Who::First, Call::NewTaker("reader"), "made"),
            (Who::First, Call::Append(0, "a"), "0: 0.0"),
            (Who::First, Call::Append(3 * DAY, "b"), "0: 3.0"),
            (Who::First, Call::Append(5 * DAY, "c"), "1: 5.0"),
            (Who::First, Call::Append(0, "d"), "1: 5.1"),
            (Who::First, Call::AppendMany(0, 11), "1: 5.12"),
            (Who::First, Call::AppendMany(7 * DAY, 13), "1: 7.12"),
            (Who::First, Call::Append(0, "e"), "2: 7.0"),
            (Who::First, Call::Append(8 * DAY, "f"), "2: 8.0"),
            (Who::Second, Call::Next, "0: 0.0 a"),
            (Who::Second, Call::Next, "0: 3.0 b"),
            (Who::Second, Call::Next, "1: 5.0 c"),
            (Who::Second, Call::Count, "27 read, NotYet"),
            (Who::Second, Call::Next, "NotYet"),
            (Who::Second, Call::CountTaken, "30 taken, NotYet"),
            (Who::First, Call::Living, "1 live"),
            // A new reader begins with the queue of the writer, and a new taker where the name is.
            (Who::First, Call::NewReader, "made"),
            (Who::First, Call::NewTaker("reader"), "made"),
            (Who::Second, Call::Next, "2: 7.0 e"),
            (Who::Second, Call::Next, "2: 8.0 f"),
            (Who::Second, Call::Take, "NotYet"),
        ],
    },
    // One moment fills the first of two cycles. The next queue begins with the same cycle.
    Life {
        cycles: 2,
        most: 3,
        at_limit: AtLimit::Refuse,
        calls: &[
            (Who::First, Call::NewReader, "made"),
            (Who::First, Call::NewTaker("reader"), "made"),
            (Who::First, Call::AppendMany(0, 13), "0: 0.12"),
            (Who::First, Call::Append(0, "b"), "1: 0.0"),
            (Who::First, Call::AppendMany(0, 13), "2: 0.0"),
            (Who::Second, Call::Count, "27 read, NotYet"),
            (Who::Second, Call::CountTaken, "27 taken, NotYet"),
        ],
    },
    // One message fills a queue.
    Life {
        cycles: 1,
        most: 2,
        at_limit: AtLimit::Refuse,
        calls: &[
            (Who::First, Call::NewReader, "made"),
            (Who::First, Call::Append(0, FILLS), "0: 0.0"),
            (Who::Second, Call::NextInto(3), "NoRoom(136) [...]"),
            (Who::First, Call::Append(0, "b"), "1: 0.0"),
            (Who::First, Call::Append(0, FILLS), "Full"),
            (Who::Second, Call::Count, "2 read, NotYet"),
            (Who::First, Call::NewTaker("reader"), "made"),
            (Who::Second, Call::CountTaken, "2 taken, NotYet"),
            (Who::First, Call::Append(0, FILLS), "2: 0.0"),
            (Who::Second, Call::Count, "1 read, NotYet"),
        ],
    },
    // A writer that does not append keeps its queue until it follows.
    Life {
        cycles: 1,
        most: 2,
        at_limit: AtLimit::Refuse,
        calls: &[
            (Who::First, Call::NewReader, "made"),
            (Who::First, Call::NewTaker("reader"), "made"),
            (Who::First, Call::SplitWriter, "made"),
            (Who::Second, Call::Follow, "queue 0"),
            (Who::First, Call::AppendMany(0, 26), "1: 0.12"),
            (Who::Second, Call::Count, "26 read, NotYet"),
            (Who::Second, Call::CountTaken, "26 taken, NotYet"),
            (Who::First, Call::Append(0, "b"), "Full"),
            (Who::Second, Call::Follow, "queue 1"),
            (Who::First, Call::Living, "1 live"),
            (Who::First, Call::Append(0, "b"), "2: 0.0"),
            // All are at the last queue but the other writer.
            (Who::Second, Call::Take, "2: 0.0 b"),
            (Who::Second, Call::Next, "2: 0.0 b"),
            (Who::First, Call::AppendMany(0, 12), "2: 0.12"),
            (Who::First, Call::Append(0, "c"), "Full"),
            (Who::Second, Call::DropWriter, "dropped"),
            (Who::First, Call::Append(0, "c"), "3: 0.0"),
            // Others are made where the reader and the name are.
            (Who::Second, Call::SplitReader, "made"),
            (Who::Second, Call::DropReader, "dropped"),
            (Who::First, Call::Next, "2: 0.0 b"),
            (Who::First, Call::Count, "13 read, NotYet"),
            (Who::Second, Call::SplitTaker, "made"),
            (Who::Second, Call::DropTaker, "dropped"),
            (Who::First, Call::CountTaken, "13 taken, NotYet"),
            (Who::First, Call::Living, "1 live"),
        ],
    },
];

#[test]
fn messages_go_over_queues(rt: HostRuntime) -> Result<(), Fail> {
    expect_lives(rt.alloc(), &LIVES)
}

/// One cycle of a day, the first of which begins one day after the start of Unix time.
fn late_config(alloc: Global) -> Result<Config, Fail> {
    let shape = Shape::new(64, 8, 1)?;
    Ok(Config::new(shape, 1, Roll::Daily, DAY, Vec::new(alloc))?)
}

/// Why no shelf of such queues is made.
fn fault_of(alloc: Global, most: u32, at_limit: AtLimit, moment: u64) -> Result<String, Fail> {
    match ShelfWriter::create(alloc, late_config(alloc)?, most, at_limit, moment) {
        Ok(_writer) => Ok(String::from_str(alloc, "made")?),
        Err(fault) => Ok(format!(in alloc; "{fault}")?),
    }
}

/// Places and moments of such shelves, and why they are not made.
static SHELVES: [(u32, u64, &str); 10] = [
    (0, DAY, "BadShelf"),
    (1, DAY, "BadShelf"),
    (1, 0, "BadShelf"),
    (2, 0, "BadMoment"),
    (2, DAY - 1, "BadMoment"),
    (2, LAST_MOMENT + 1, "BadMoment"),
    (2, u64::MAX, "BadMoment"),
    (2, DAY, "made"),
    (2, LAST_MOMENT, "made"),
    (9, 2 * DAY, "made"),
];

#[test]
fn shelves_are_made_or_refused(rt: HostRuntime) -> Result<(), Fail> {
    for at_limit in [AtLimit::Refuse, AtLimit::DropOldest] {
        for (row, (most, moment, want)) in SHELVES.iter().enumerate() {
            let fault = fault_of(rt.alloc(), *most, at_limit, *moment)?;
            expect_answer("shelves", row, fault.as_str(), want)?;
        }
    }
    Ok(())
}

/// Calls of the writer of such a shelf, whose first queue begins with cycle 2.
static LATE_CALLS: [(Call, &str); 9] = [
    (Call::Append(DAY - 1, "a"), "BadMoment"),
    (Call::Begin(DAY - 1, 1), "BadMoment"),
    (Call::Advance(DAY - 1), "BadMoment"),
    (Call::Append(DAY, "a"), "0: 2.0"),
    (Call::Append(5 * DAY, "b"), "1: 4.0"),
    (Call::Append(DAY, "c"), "1: 4.1"),
    (Call::Close, "closed"),
    (Call::Append(0, "d"), "BadMoment"),
    (Call::Append(DAY, "d"), "Closed"),
];

#[test]
fn no_message_comes_before_the_first_cycle(rt: HostRuntime) -> Result<(), Fail> {
    let alloc = rt.alloc();
    let config = late_config(alloc)?;
    let mut writer = ShelfWriter::create(alloc, config, 2, AtLimit::Refuse, 3 * DAY)?;
    for (row, (call, want)) in LATE_CALLS.iter().enumerate() {
        let answer = written_text(alloc, &mut writer, *call)?;
        expect_answer("calls", row, answer.as_str(), want)?;
    }
    Ok(())
}
