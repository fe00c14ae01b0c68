//! Readers, writers and folders that fail: all messages are saved, or every file is as it was.
use crate::steps::Step::{self, Append, Messages, Put, Unprinted, Unread};
use crate::steps::{QUEUE, Steps, expect_steps, said_at};
use cq_fixtures::expect_text;
use cq_folder::{FailingFolder, MemoryFolder};
use cq_writing::InputForm::{Lines, Null, Whole};
use std::alloc::Global;
use std::test::Fail;

/// Faults of the folder come before those of the input, and these before the messages.
static ORDER: Steps = &[
    (Unread(Null, 3), "cq: no queue here"),
    (Append(Whole, 0, b"a"), "cq: no queue here"),
    (Put("queue.cqc", QUEUE), ""),
    (Unread(Null, 3), "cq: read fault"),
    (Unread(Whole, 0), "cq: read fault"),
    (Append(Null, u64::MAX, b"\0"), "cq: BadMoment"),
];

/// A writer that fails leaves the messages saved.
static UNPRINTED: Steps = &[
    (Put("queue.cqc", QUEUE), ""),
    (Unprinted(Null, b"a\nb\0c", 20), "cq: write fault"),
    (Unprinted(Whole, b"d\n", 0), "cq: write fault"),
    (Messages("19700101.cqi"), "0 a\nb\n1 c\n2 d\n\nwhole\n"),
    (Unprinted(Lines, b"", 0), ""),
];

/// The number of the call that fails, and whether that call is done all the same; what is said, and what is left.
type Row = (u64, bool, &'static str, &'static str);

static ROWS: &[Row] = &[
    (1, false, "cq: folder fault", "0 a\nwhole\n"),
    (3, false, "cq: file fault: queue.cqc", "0 a\nwhole\n"),
    (5, false, "cq: file fault: 19700101.cqi", "0 a\nwhole\n"),
    (
        5,
        true,
        "cq: file fault: 19700101.cqi",
        "0 a\n1 b\n\n2 c\nwhole\n",
    ),
    (
        9,
        false,
        "0000000000000001\n0000000000000002\n",
        "0 a\n1 b\n\n2 c\nwhole\n",
    ),
];

/// Appends two messages over a folder of the row, and compares what is said and what is left.
fn expect_row(alloc: Global, row: &Row) -> Result<(), Fail> {
    let (number, writes, want, left) = *row;
    let mut folder = MemoryFolder::new(alloc);
    let _config = said_at(alloc, &mut folder, &Put("queue.cqc", QUEUE))?;
    let _first = said_at(alloc, &mut folder, &Append(Whole, 0, b"a"))?;
    let mut failing = if writes {
        FailingFolder::written(folder, number)
    } else {
        FailingFolder::new(folder, number)
    };
    let step: Step = Append(Null, 0, b"b\n\0c");
    expect_text(said_at(alloc, &mut failing, &step)?, want)?;
    let mut after = failing.into_inner();
    expect_text(said_at(alloc, &mut after, &Messages("19700101.cqi"))?, left)
}

#[test]
fn faults_come_in_order(rt: HostRuntime) -> Result<(), Fail> {
    expect_steps(rt.alloc(), ORDER)
}

#[test]
fn a_writer_may_fail(rt: HostRuntime) -> Result<(), Fail> {
    expect_steps(rt.alloc(), UNPRINTED)
}

#[test]
fn a_failing_call_changes_all_or_nothing(rt: HostRuntime) -> Result<(), Fail> {
    for row in ROWS {
        expect_row(rt.alloc(), row)?;
    }
    Ok(())
}
