//! A log that is cut at every byte: what is folded is that of a beginning of its turns, and never a fault.
use crate::logs::Frame::{Head, Turn};
use crate::logs::Line::{Cycle, Floor, Message, Name};
use crate::steps::Step::{self, Cut, Fold, Log, Queue, Text, Write};
use crate::steps::{folder_after, said_at};
use cq_fixtures::{DAY, expect_text};
use cq_folder::MemoryFolder;
use std::alloc::Global;
use std::test::Fail;

/// A queue with a log of four turns.
static STEPS: &[Step] = &[
    Queue,
    Write(0, b"a\n"),
    Log(&[
        Head,
        Turn(&[Message("b")]),
        Turn(&[Name(0, 2), Cycle(1)]),
        Turn(&[Message("c"), Message("d")]),
        Turn(&[Floor(1)]),
    ]),
];

/// The number of bytes of the log.
const BYTES: usize = 188;

/// What is folded from a log with this many bytes or more, and fewer than the next row has.
static ROWS: [(usize, &str); 5] = [
    (0, "0[a;] at [0], 0 turns, 4 cycles"),
    (137, "0[a;b;] at [0], 1 turns, 4 cycles"),
    (160, "0[a;b;] 1[] at [2], 2 turns, 4 cycles"),
    (177, "0[a;b;] 1[c;d;] at [2], 3 turns, 4 cycles"),
    (187, "0[a;b;] 1[c;d;] at [2] floor 1, 4 turns, 4 cycles"),
];

/// What is folded of the log with this many bytes.
fn wanted(count: usize) -> &'static str {
    match ROWS.iter().rev().find(|row| row.0 <= count) {
        Some(&(_, text)) => text,
        None => "",
    }
}

/// What is said of a fold of the first bytes of the log in a folder, and of the log after it.
fn folded_in(alloc: Global, folder: &mut MemoryFolder, count: usize) -> Result<String, Fail> {
    said_at(alloc, folder, Cut(count))?;
    let mut text = said_at(alloc, folder, Fold)?;
    text.push_str(said_at(alloc, folder, Text("queue.log"))?.as_str())?;
    Ok(text)
}

/// The same in a new folder.
fn folded(alloc: Global, count: usize) -> Result<String, Fail> {
    let mut folder = folder_after(alloc, STEPS)?;
    folded_in(alloc, &mut folder, count)
}

#[test]
fn a_log_that_is_cut_gives_a_beginning(rt: HostRuntime) -> Result<(), Fail> {
    for count in 0..=BYTES {
        expect_text(folded(rt.alloc(), count)?, wanted(count))?;
    }
    Ok(())
}
