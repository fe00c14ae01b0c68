//! Folders of which a call fails, done or not done: the next fold gives what there would be had none failed.
use crate::logs::Frame::{Head, Turn};
use crate::logs::Line::{Cycle, Message, Name};
use crate::steps::Step::{self, Check, Fold, Log, Queue, Text, Write};
use crate::steps::{files_text, folded, folder_after, said_at};
use cq_fixtures::{DAY, expect_answer, expect_end};
use cq_folder::{FailingFolder, MemoryFolder};
use std::alloc::Global;
use std::test::Fail;

/// A folder with a log, the faults of its calls, and what is said of a fold.
struct Row {
    before: &'static [Step],
    /// What is said of the fold if the call with this number fails, from the first on.
    faults: &'static [&'static str],
    /// What is said of it if none fails.
    folded: &'static str,
    /// What is said of a fold after it.
    again: &'static str,
    /// What `check` says then.
    checked: &'static str,
}

static ROWS: [Row; 2] = [
    // A turn is played: two images are read, and two saved.
    Row {
        before: &[
            Queue,
            Write(0, b"a\n"),
            Write(DAY, b"b\n"),
            Log(&[
                Head,
                Turn(&[Message("c"), Cycle(2)]),
                Turn(&[Name(0, 1), Message("d")]),
            ]),
        ],
        faults: &[
            "fold: folder fault",
            "fold: folder fault",
            "fold: file fault: queue.cqc",
            "fold: file fault: 19700101.cqi",
            "fold: file fault: 19700102.cqi",
            "fold: folder fault",
            "fold: file fault: queue.log",
            "fold: file fault: 19700102.cqi",
        ],
        folded: "0[a;] 1[b;c;] 2[d;] at [1], 2 turns, 4 cycles",
        again: "0[a;] 1[b;c;] 2[d;] at [1], 0 turns, 4 cycles",
        checked: "19700101.cqi: 1 messages, ended\n19700102.cqi: 2 messages, ended\n19700103.cqi: 1 messages, open\n",
    },
    // None is: the log alone is written.
    Row {
        before: &[Queue, Write(0, b"a\n"), Log(&[Head])],
        faults: &[
            "fold: folder fault",
            "fold: folder fault",
            "fold: file fault: queue.cqc",
            "fold: file fault: 19700101.cqi",
            "fold: folder fault",
            "fold: file fault: queue.log",
            "fold: file fault: queue.log",
        ],
        folded: "0[a;] at [0], 0 turns, 4 cycles",
        again: "0[a;] at [0], 0 turns, 4 cycles",
        checked: "19700101.cqi: 1 messages, open\n",
    },
];

/// Fails unless this is said of a fold of the folder, and then all is there.
fn expect_folded(
    alloc: Global,
    row: &Row,
    folder: &mut MemoryFolder,
    want: &str,
) -> Result<(), Fail> {
    let said = said_at(alloc, folder, Fold)?;
    expect_answer("fold", 0, said.as_str(), want)?;
    let log = said_at(alloc, folder, Text("queue.log"))?;
    expect_end("the log", log.as_str(), "")?;
    let checked = said_at(alloc, folder, Check)?;
    expect_end("the images", checked.as_str(), row.checked)
}

/// Folds the log of a folder of which the call with this number fails. Fails if something else than wanted is said. Gives back the
/// folder, of which no call fails then.
fn fold_failing(
    alloc: Global,
    what: &str,
    number: usize,
    failing: FailingFolder<MemoryFolder>,
    want: &str,
) -> Result<MemoryFolder, Fail> {
    let mut failing = failing;
    let said = folded(alloc, &mut failing)?;
    expect_answer(what, number, said.as_str(), want)?;
    Ok(failing.into_inner())
}

/// Every file is as it was, and the next fold is as if no call had failed.
fn expect_as_before(
    alloc: Global,
    row: &Row,
    folder: &mut MemoryFolder,
    before: &str,
) -> Result<(), Fail> {
    let after = files_text(alloc, folder)?;
    expect_end("not done", after.as_str(), before)?;
    expect_folded(alloc, row, folder, row.folded)
}

/// A call fails and does nothing: every file is as it was, and the next fold is as if none had failed.
fn expect_not_done(alloc: Global, row: &Row, number: usize, fault: &str) -> Result<(), Fail> {
    let mut folder = folder_after(alloc, row.before)?;
    let before = files_text(alloc, &mut folder)?;
    let failing = FailingFolder::new(folder, number as u64);
    let mut folder = fold_failing(alloc, "not done", number, failing, fault)?;
    expect_as_before(alloc, row, &mut folder, before.as_str())
}

/// The last call fails, and is done nevertheless: the next fold plays nothing, and gives the same.
fn expect_done(alloc: Global, row: &Row, number: usize, fault: &str) -> Result<(), Fail> {
    let failing = FailingFolder::written(folder_after(alloc, row.before)?, number as u64);
    let mut folder = fold_failing(alloc, "done", number, failing, fault)?;
    expect_folded(alloc, row, &mut folder, row.again)
}

/// No call fails, since there is none with this number: the next fold plays nothing, and gives the same.
fn expect_none_fails(alloc: Global, row: &Row, number: usize) -> Result<(), Fail> {
    let failing = FailingFolder::new(folder_after(alloc, row.before)?, number as u64);
    let mut folder = fold_failing(alloc, "none fails", number, failing, row.folded)?;
    expect_folded(alloc, row, &mut folder, row.again)
}

/// Each call fails in turn, the last one also done, and then none.
fn expect_row(alloc: Global, row: &Row) -> Result<(), Fail> {
    let mut number: usize = 0;
    for &fault in row.faults {
        number = number.saturating_add(1);
        expect_not_done(alloc, row, number, fault)?;
    }
    if let Some(&fault) = row.faults.last() {
        expect_done(alloc, row, number, fault)?;
    }
    expect_none_fails(alloc, row, number.saturating_add(1))
}

#[test]
fn a_call_that_fails_loses_nothing(rt: HostRuntime) -> Result<(), Fail> {
    for row in &ROWS {
        expect_row(rt.alloc(), row)?;
    }
    Ok(())
}
