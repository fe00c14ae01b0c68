//! Refused memory: the append that is refused for it is made again, and finds the queue as it was.
use crate::queues::Queue;
use cq_contents::{AppendFault, ContentsWriter};
use cq_cycle::Index;
use cq_fixtures::{DAY, contents_text, expect_answer, expect_end};
use std::alloc::Global;
use std::test::Fail;

/// How often a call is made that is out of memory.
const TRIES: u32 = 8;

/// A queue with a message, which may have three cycles.
const QUEUE: Queue = Queue {
    cells: 64,
    spacing: 1,
    cycles: 3,
    lists: &[(0, &["a"])],
};

/// Bytes of messages.
static BYTES: [u8; 200] = [65; 200];

/// Moments and lengths of messages, and what their appends return at last. The cycle begins of the message that is too
/// long.
static APPENDS: &[(u64, usize, &str)] = &[
    (0, 1, "0000000000000001"),
    (DAY, 2, "0000000100000000"),
    (2 * DAY, 200, "CycleFull"),
    (0, 3, "0000000200000000"),
    (3 * DAY, 4, "NoCycleLeft"),
];

/// Appends a message, with another try where memory is refused.
fn appended_at_last(
    alloc: Global,
    writer: &mut ContentsWriter,
    moment: u64,
    len: usize,
) -> Result<Index, AppendFault> {
    let bytes = BYTES.get(..len).unwrap_or(&[]);
    for _ in 0..TRIES {
        let appended = writer.append(alloc, moment, bytes);
        if !matches!(appended, Err(AppendFault::OutOfMemory)) {
            return appended;
        }
    }
    Err(AppendFault::OutOfMemory)
}

#[test]
fn memory_may_be_refused(rt: HostRuntime) -> Result<(), Fail> {
    let alloc = rt.alloc();
    let mut writer = QUEUE.made(alloc)?.into_writer();
    for (number, (moment, len, want)) in APPENDS.iter().enumerate() {
        let answer = match appended_at_last(alloc, &mut writer, *moment, *len) {
            Ok(index) => format!(in alloc; "{index}")?,
            Err(fault) => format!(in alloc; "{fault}")?,
        };
        expect_answer("appends", number, answer.as_str(), want)?;
    }
    let left = contents_text(alloc, &writer.into_contents())?;
    expect_end("left", left.as_str(), "0[a;A;] 1[AA;] 2[AAA;] at [0]")
}
