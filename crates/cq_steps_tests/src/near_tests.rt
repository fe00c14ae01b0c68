//! Where walks to messages begin, each from before the first record of the first slot.

ghost use Rattle.cq_words.specs.Values.{IsOf};

use crate::many::Many;
use cq_fixtures::{config_of, contents_of};
use cq_layout::Shape;
use cq_model::Contents;
use cq_walks::{enter_slot, near};
use cq_words::{Caller, Queue};
use std::alloc::Global;
use std::test::Fail;

/// The sequence at which the walk to a message begins.
fn start(queue: &Queue, caller: &mut Caller, wanted: u32) -> u32
    requires { IsOf queue.now caller.old }
    ensures { IsOf queue.now caller.new }
{
    let first = enter_slot(queue, caller, 0);
    near(queue, caller, first, wanted).walker.sequence()
}

impl Many {
    /// Fails if the walk to a message does not begin where wanted. Each row has the message, and the sequence there.
    fn expect_starts(&mut self, rows: &[(u32, u32)]) -> Result<(), Fail> {
        for (wanted, want) in rows {
            let start = start(&self.queue, &mut self.caller, *wanted);
            if start != *want {
                return Err(Fail::new(format_args!("to {wanted}: {start} in place of {want}")));
            }
        }
        Ok(())
    }
}

/// The same of a new queue of 30,000 messages.
fn expect_new_starts(alloc: Global, rows: &[(u32, u32)]) -> Result<(), Fail> {
    Many::new(alloc)?.expect_starts(rows)
}

/// Walks to messages before the last one. One message in 16 has an entry.
static AT_ENTRIES: [(u32, u32); 10] = [
    (0, 0),
    (15, 0),
    (16, 16),
    (17, 16),
    (31, 16),
    (4_095, 4_080),
    (4_096, 4_096),
    (12_345, 12_336),
    (29_983, 29_968),
    (29_998, 29_984),
];

#[test]
fn walks_begin_at_the_last_entry(rt: HostRuntime) -> Result<(), Fail> {
    expect_new_starts(rt.alloc(), &AT_ENTRIES)
}

/// Walks to the last message, and past it.
static AT_LAST: [(u32, u32); 3] = [(29_999, 29_999), (30_000, 29_999), (u32::MAX, 29_999)];

#[test]
fn walks_begin_at_the_last_message(rt: HostRuntime) -> Result<(), Fail> {
    expect_new_starts(rt.alloc(), &AT_LAST)
}

/// A queue that is opened again with contents, after which one message is appended.
fn opened(alloc: Global, contents: &Contents) -> Result<Many, Fail> {
    let config = config_of(alloc, Shape::new(64, 8, 1)?, 1)?;
    Many::held(alloc, config, contents, 1)
}

/// Fails if walks in a queue that is opened again begin elsewhere.
fn expect_opened_starts(
    alloc: Global,
    contents: &Contents,
    rows: &[(u32, u32)],
) -> Result<(), Fail> {
    opened(alloc, contents)?.expect_starts(rows)
}

/// Walks in a queue that is opened again with three messages, after which one is appended.
static BEHIND_THREE: [(u32, u32); 5] = [(0, 0), (1, 0), (2, 0), (3, 3), (4, 3)];

#[test]
fn walks_to_messages_without_entries_begin_before_the_first(rt: HostRuntime) -> Result<(), Fail> {
    let contents = contents_of(rt.alloc(), &[(0, &["a", "b", "c"])], &[0])?;
    expect_opened_starts(rt.alloc(), &contents, &BEHIND_THREE)
}
