//! Queues whose opener is their only caller.
//!
//! The calls are not those of `queues`: a reader of a journal returns a message or none, and no reason.
use crate::lives::made_text;
use crate::queues::misplaced;
use cq_fixtures::{
    Cycles, DAY, contents_of, contents_text, expect_answer, message_or_none, small_config,
};
use cq_journal::{Journal, JournalReader, JournalWriter};
use cq_model::Config;
use cq_shown::CreateError;
use cq_tail::Direction;
use std::alloc::Global;
use std::mem;
use std::test::Fail;

/// The first moment after the last one that there is.
const TOO_LATE: u64 = 253_402_300_800_000;

/// "a" in cycle 0, none in cycle 5, "b" and "c" in cycle 9.
const THREE_CYCLES: Cycles = &[(0, &["a"]), (5, &[]), (9, &["b", "c"])];

/// A call of a journal with cycles of 64 cells and the name "reader", from its start to its end.
#[derive(Clone, Copy)]
enum Call {
    /// Makes a journal that may have this many cycles, new at a moment, to append to it.
    New(u32, u64),
    /// Opens a journal that may have this many cycles, with these, and the name at a position, to append to it.
    Held(u32, Cycles, u64),
    /// Opens a journal with the three cycles and the name at a position, to read it this way from another position on.
    Read(u64, Direction, u64),
    /// Appends these bytes at a moment.
    Append(u64, &'static [u8]),
    /// Reads the next message.
    Next,
    /// Takes a message by a name.
    Take(&'static str),
    /// Stops the journal, and gives what it holds then.
    Stop,
}

/// Calls of journals in turn, each with what it returns.
type Calls = &'static [(Call, &'static str)];

/// What is done with a journal, if there is one.
#[derive(Drop)]
enum Work {
    None,
    Write(JournalWriter),
    Read(JournalReader),
}

/// Journals, one after the other.
#[derive(Drop)]
struct Journals {
    work: Work,
}

/// A journal of this configuration that is opened again with these cycles, and the names at these positions.
fn held(
    alloc: Global,
    config: Config,
    cycles: Cycles,
    positions: &[u64],
) -> Result<Journal, CreateError> {
    Journal::reopen(alloc, config, &contents_of(alloc, cycles, positions)?)
}

impl Journals {
    /// Goes on with a journal to which messages are appended, if there is one.
    fn write(&mut self, alloc: Global, made: Result<Journal, CreateError>) -> Result<String, Fail> {
        let text = made_text(alloc, &made);
        self.work = match made {
            Ok(journal) => Work::Write(journal.into_writer()),
            Err(_) => Work::None,
        };
        text
    }

    fn read(
        &mut self,
        alloc: Global,
        position: u64,
        way: Direction,
        start: u64,
    ) -> Result<String, Fail> {
        let journal = held(alloc, small_config(alloc, 4)?, THREE_CYCLES, &[position])?;
        self.work = Work::Read(journal.into_reader(way, start));
        Ok(String::from_str(alloc, "open")?)
    }

    fn append(&mut self, alloc: Global, moment: u64, bytes: &[u8]) -> Result<String, Fail> {
        match &mut self.work {
            Work::Write(writer) => match writer.append(moment, bytes) {
                Ok(index) => Ok(format!(in alloc; "{}", index.value())?),
                Err(refusal) => Ok(format!(in alloc; "{refusal}")?),
            },
            Work::None | Work::Read(_) => misplaced("writer"),
        }
    }

    fn next(&mut self, alloc: Global) -> Result<String, Fail> {
        match &mut self.work {
            Work::Read(reader) => message_or_none(alloc, &reader.next(alloc)?),
            Work::None | Work::Write(_) => misplaced("reader"),
        }
    }

    fn take(&mut self, alloc: Global, name: &str) -> Result<String, Fail> {
        match &mut self.work {
            Work::Read(reader) => match reader.take(alloc, name) {
                Ok(taken) => message_or_none(alloc, &taken),
                Err(fault) => Ok(format!(in alloc; "{fault}")?),
            },
            Work::None | Work::Write(_) => misplaced("reader"),
        }
    }

    /// Stops the journal, and gives what it holds then.
    fn stop(&mut self, alloc: Global) -> Result<String, Fail> {
        let contents = match mem::replace(&mut self.work, Work::None) {
            Work::None => return misplaced("journal"),
            Work::Write(writer) => writer.into_contents(alloc)?,
            Work::Read(reader) => reader.into_contents(alloc)?,
        };
        contents_text(alloc, &contents)
    }

    /// What a call returns.
    fn answer_text(&mut self, alloc: Global, call: Call) -> Result<String, Fail> {
        match call {
            Call::New(cycles, moment) => {
                let config = small_config(alloc, cycles)?;
                self.write(alloc, Journal::create(alloc, config, moment))
            }
            Call::Held(cycles, lists, position) => {
                let config = small_config(alloc, cycles)?;
                self.write(alloc, held(alloc, config, lists, &[position]))
            }
            Call::Read(position, way, start) => self.read(alloc, position, way, start),
            Call::Append(moment, bytes) => self.append(alloc, moment, bytes),
            Call::Next => self.next(alloc),
            Call::Take(name) => self.take(alloc, name),
            Call::Stop => self.stop(alloc),
        }
    }

    fn expect(&mut self, alloc: Global, calls: Calls) -> Result<(), Fail> {
        for (number, (call, want)) in calls.iter().enumerate() {
            let answer = self.answer_text(alloc, *call)?;
            expect_answer("journals", number, answer.as_str(), want)?;
        }
        Ok(())
    }
}

/// Makes these calls of journals in turn. Fails if one of them does not return what is wanted.
fn expect_calls(alloc: Global, calls: Calls) -> Result<(), Fail> {
    Journals { work: Work::None }.expect(alloc, calls)
}

const APPENDED: Calls = &[
    // The cycle of the moment, or the last one.
    (Call::New(4, 0), "open"),
    (Call::Append(7, b"hello"), "0"),
    (Call::Append(5 * DAY, b"ab"), "21474836480"),
    (Call::Append(DAY, b"z"), "21474836481"),
    (Call::Stop, "0[hello;] 5[ab;z;] at [0]"),
    (Call::New(1, 0), "open"),
    (Call::Append(TOO_LATE, b""), "BadRoom"),
    (Call::Append(TOO_LATE, b"a"), "BadMoment"),
    (Call::Stop, "0[] at [0]"),
    // No more cycles than the queue may have.
    (Call::New(2, 0), "open"),
    (Call::Append(DAY, b"a"), "4294967296"),
    (Call::Append(2 * DAY, b"b"), "NoCycleLeft"),
    (Call::Append(DAY, b"c"), "4294967297"),
    (Call::Stop, "0[] 1[a;c;] at [0]"),
    // A message that does not fit leaves its cycle begun.
    (Call::New(2, 0), "open"),
    (Call::Append(3 * DAY, &[65; 256]), "CycleFull"),
    (Call::Stop, "0[] 3[] at [0]"),
    // Appends go on where a journal was opened again.
    (Call::Held(4, THREE_CYCLES, 1), "open"),
    (Call::Append(9 * DAY, b"x"), "38654705666"),
    (Call::Stop, "0[a;] 5[] 9[b;c;x;] at [1]"),
    // No journal begins after the last moment.
    (Call::New(1, TOO_LATE), "BadMoment"),
];

#[test]
fn messages_are_appended(rt: HostRuntime) -> Result<(), Fail> {
    expect_calls(rt.alloc(), APPENDED)
}

/// As many messages as fit into a cycle.
const EIGHT: &[&str] = &[
    "hello", "hello", "hello", "hello", "hello", "hello", "hello", "hello",
];

/// One more.
const NINE: &[&str] = &[
    "hello", "hello", "hello", "hello", "hello", "hello", "hello", "hello", "hello",
];

/// How many cycles a journal may have, with which cycles and positions it is opened, and what it holds then, or why there
/// is none.
static HELD: [(u32, Cycles, &[u64], &str); 10] = [
    (4, &[], &[0], "BadContents"),
    (4, &[(5, &[]), (3, &[])], &[0], "BadContents"),
    (4, THREE_CYCLES, &[(9 << 32) + 3], "BadContents"),
    (
        4,
        THREE_CYCLES,
        &[(9 << 32) + 2],
        "0[a;] 5[] 9[b;c;] at [38654705666]",
    ),
    (4, &[(0, &["a"])], &[0, 0], "BadContents"),
    // A position for each name.
    (4, &[(0, &["a"])], &[], "BadContents"),
    // No more cycles than the queue may have.
    (1, &[(0, &["a"]), (1, &[])], &[0], "BadContents"),
    // A message has a byte at least.
    (4, &[(0, &["a", ""])], &[0], "BadContents"),
    // The store record, the top table and one index table take 28 cells, and 8 messages of 3 cells 24. A ninth one
    // has another index table of 9 cells before it, and none is left that could be kept.
    (
        4,
        &[(0, EIGHT)],
        &[0],
        "0[hello;hello;hello;hello;hello;hello;hello;hello;] at [0]",
    ),
    (4, &[(0, NINE)], &[0], "BadContents"),
];

/// What a journal holds that is opened so, or why there is none.
fn held_text(alloc: Global, cycles: u32, lists: Cycles, positions: &[u64]) -> Result<String, Fail> {
    match held(alloc, small_config(alloc, cycles)?, lists, positions) {
        Ok(journal) => contents_text(alloc, &journal.into_writer().into_contents(alloc)?),
        Err(refusal) => Ok(format!(in alloc; "{refusal}")?),
    }
}

#[test]
fn contents_that_no_queue_holds_are_refused(rt: HostRuntime) -> Result<(), Fail> {
    for (number, (cycles, lists, positions, want)) in HELD.iter().enumerate() {
        let text = held_text(rt.alloc(), *cycles, lists, positions)?;
        expect_answer("held", number, text.as_str(), want)?;
    }
    Ok(())
}

const READ: Calls = &[
    (Call::Read(0, Direction::Forwards, 0), "open"),
    (Call::Next, "0 a"),
    (Call::Next, "38654705664 b"),
    (Call::Next, "38654705665 c"),
    (Call::Next, "none"),
    (Call::Stop, "0[a;] 5[] 9[b;c;] at [0]"),
    (Call::Read(0, Direction::Forwards, (9 << 32) + 1), "open"),
    (Call::Next, "38654705665 c"),
    (Call::Next, "none"),
    (Call::Stop, "0[a;] 5[] 9[b;c;] at [0]"),
    (Call::Read(0, Direction::Backwards, u64::MAX), "open"),
    (Call::Next, "38654705665 c"),
    (Call::Next, "38654705664 b"),
    (Call::Next, "0 a"),
    (Call::Next, "none"),
    (Call::Stop, "0[a;] 5[] 9[b;c;] at [0]"),
    // Nothing is after the end.
    (Call::Read(0, Direction::Forwards, u64::MAX), "open"),
    (Call::Next, "none"),
    (Call::Stop, "0[a;] 5[] 9[b;c;] at [0]"),
    // A taker moves the name, and not the reader.
    (Call::Read(1, Direction::Forwards, 0), "open"),
    (Call::Take("reader"), "38654705664 b"),
    (Call::Take("reader"), "38654705665 c"),
    (Call::Take("reader"), "none"),
    (Call::Next, "0 a"),
    (Call::Stop, "0[a;] 5[] 9[b;c;] at [38654705666]"),
    (Call::Read(0, Direction::Forwards, 0), "open"),
    (Call::Take("writer"), "NoSuchName"),
    (Call::Take("reader"), "0 a"),
    (Call::Stop, "0[a;] 5[] 9[b;c;] at [1]"),
];

#[test]
fn messages_are_read_and_taken(rt: HostRuntime) -> Result<(), Fail> {
    expect_calls(rt.alloc(), READ)
}
