//! Queues that are not opened, and what is left of the files.
use crate::folders::{expect_images, expect_images_of, put_log};
use crate::life::{expect_turns, fault_at, folder_with_a, opened, stored};
use crate::torn_place::Matter;
use cq_fixtures::{expect, expect_answer, expect_text};
use cq_folder::{Folder, MemoryFolder};
use std::alloc::Global;
use std::test::Fail;

/// What is the matter with the place of a log of one turn, the fault, what the images hold then, and how many turns the next opening
/// plays.
type Row = (Matter, &'static str, &'static str, usize);

const KEPT: &str = "0[a;] at [0]";

const FOLDED: &str = "0[a;b;] at [0]";

const UNBEGUN: &str =
    "the log could not be begun: the file could not be read, written, cut or synced";

static ROWS: [Row; 17] = [
    // No file changed.
    (
        Matter::Locked,
        "a queue is live in this folder: wait until it is closed, or close it",
        KEPT,
        1,
    ),
    (
        Matter::Denied,
        "the log is not opened: this process may not read and write the file: let it do so in the permissions of the file and the folder",
        KEPT,
        1,
    ),
    (
        Matter::LockedScarcely,
        "out of memory: nothing was lost, so open the queue again with more memory",
        KEPT,
        1,
    ),
    // The log was folded.
    (
        Matter::Moved,
        "the log is not opened: the file was removed or replaced while it was opened: open it again",
        FOLDED,
        0,
    ),
    (
        Matter::LockedLater,
        "the log is not opened: the file is in use: wait until the queue that uses it is closed, or close it",
        FOLDED,
        0,
    ),
    (
        Matter::OpenedScarcely,
        "out of memory: nothing was lost, so open the queue again with more memory",
        FOLDED,
        0,
    ),
    (
        Matter::Changed,
        "the log was changed while the queue was opened: open the queue again",
        FOLDED,
        0,
    ),
    (
        Matter::Kept,
        "the log was changed while the queue was opened: open the queue again",
        FOLDED,
        0,
    ),
    // The first gate and its sync, the head with the next gate, the zeros and its sync, its own gate and its sync.
    (Matter::Failing(1), UNBEGUN, FOLDED, 0),
    (Matter::Failing(2), UNBEGUN, FOLDED, 0),
    (Matter::Failing(3), UNBEGUN, FOLDED, 0),
    (Matter::Failing(4), UNBEGUN, FOLDED, 0),
    (Matter::Failing(5), UNBEGUN, FOLDED, 0),
    (Matter::Failing(6), UNBEGUN, FOLDED, 0),
    (Matter::Failing(7), UNBEGUN, FOLDED, 0),
    (Matter::Failing(8), UNBEGUN, FOLDED, 0),
    (Matter::Failing(9), UNBEGUN, FOLDED, 0),
];

/// The fault of an opening. The folder is left then.
fn fault_text(alloc: Global, folder: &mut MemoryFolder, matter: Matter) -> Result<String, Fail> {
    let fault = fault_at(alloc, folder, matter, u64::MAX)?;
    expect(folder.access().is_none(), "the folder is left")?;
    Ok(fault)
}

/// The log of a queue that was opened in a folder, and stored a message in one turn.
fn log_in(alloc: Global, folder: &mut MemoryFolder) -> Result<Vec<u8>, Fail> {
    let mut live = opened(alloc, folder, Matter::Nothing)?;
    stored(alloc, &mut live, b"b")
}

/// A log of one turn, for a queue that holds "a".
fn log_of_one_turn(alloc: Global) -> Result<Vec<u8>, Fail> {
    let mut folder = folder_with_a(alloc)?;
    log_in(alloc, &mut folder)
}

/// Opens a queue, which fails with the fault of a row.
fn expect_row_fault(
    alloc: Global,
    folder: &mut MemoryFolder,
    number: usize,
    row: &Row,
) -> Result<(), Fail> {
    let fault = fault_text(alloc, folder, row.0)?;
    expect_answer("fault", number, fault.as_str(), row.1)
}

/// Opens a queue with such a log, which fails, and then again.
fn expect_fault(
    alloc: Global,
    folder: &mut MemoryFolder,
    number: usize,
    row: &Row,
) -> Result<(), Fail> {
    expect_row_fault(alloc, folder, number, row)?;
    expect_images_of(alloc, folder, number, row.2)?;
    expect_turns(alloc, folder, row.3)
}

/// The same in a new folder, which holds "a" and this log.
fn expect_row(alloc: Global, log: &[u8], number: usize, row: &Row) -> Result<(), Fail> {
    let mut folder = folder_with_a(alloc)?;
    put_log(alloc, &mut folder, log)?;
    expect_fault(alloc, &mut folder, number, row)
}

/// Each fault of the place and of its log leaves the files as they were, or folded.
#[test]
fn a_fault_of_the_place_loses_nothing(rt: HostRuntime) -> Result<(), Fail> {
    let log = log_of_one_turn(rt.alloc())?;
    for (number, row) in ROWS.iter().enumerate() {
        expect_row(rt.alloc(), &log, number, row)?;
    }
    Ok(())
}

/// Opens the queue of a folder where nothing is the matter with the place of the log. Fails if that does not fail with this fault.
fn expect_refused(alloc: Global, folder: &mut MemoryFolder, want: &str) -> Result<(), Fail> {
    expect_text(fault_text(alloc, folder, Matter::Nothing)?, want)
}

static NO_LOG: &str =
    "the file is no log of a queue: read the log with the version that wrote it, or move it away to open the images alone";

/// Opens the queue of a folder whose log is at fault. The images are as they were.
fn expect_left(alloc: Global, folder: &mut MemoryFolder) -> Result<(), Fail> {
    expect_refused(alloc, folder, NO_LOG)?;
    expect_images(alloc, folder, KEPT)
}

/// A log at fault is not folded.
#[test]
fn a_log_at_fault_is_left(rt: HostRuntime) -> Result<(), Fail> {
    let alloc = rt.alloc();
    let mut folder = folder_with_a(alloc)?;
    put_log(alloc, &mut folder, b"\x01\x07\0\0\0no head\0")?;
    for _ in 0..2 {
        expect_left(alloc, &mut folder)?;
    }
    Ok(())
}

/// A folder without a queue is not opened.
#[test]
fn a_folder_without_a_queue_is_refused(rt: HostRuntime) -> Result<(), Fail> {
    let alloc = rt.alloc();
    expect_refused(alloc, &mut MemoryFolder::new(alloc), "no queue here")
}
