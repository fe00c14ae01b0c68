//! Queues in which no cycle has begun, and which begin one.
use crate::folders::{bytes_of, expect_images, expect_images_of, make, put_log};
use crate::life::{fault_at, open_at, opened_at, said_at, stored_at};
use crate::torn_place::Matter;
use cq_fixtures::{DAY, expect, expect_answer, expect_text};
use cq_folder::{CONFIG_FILE, FailingFolder, Folder, LOG_FILE, MemoryFolder};
use std::alloc::{AllocError, Global};
use std::test::Fail;

/// A moment of cycle 2.
const NOW: u64 = 2 * DAY;

/// The frames of notes in a log of a queue without a cycle, or no log; what an opening in cycle 2 says; what the images hold then.
type Row = (Option<&'static [&'static [u8]]>, &'static str, &'static str);

static ROWS: [Row; 4] = [
    (None, "0 turns: none, none", "2[] at [0]"),
    // A head alone.
    (Some(&[]), "0 turns: none, none", "2[] at [0]"),
    // A turn without notes, and one that moves name 0 to 0.
    (
        Some(&[b"", b"\x03\0\0\0\0\0\0\0\0\0\0\0\0"]),
        "2 turns: none, none",
        "2[] at [0]",
    ),
    // Cycle 5 began, and "z" came to it.
    (
        Some(&[b"\x01\x05\0\0\0\x02\x01\0\0\0z"]),
        "1 turns: 21474836480 z, none",
        "5[z;] at [0]",
    ),
];

/// A folder with a queue without a cycle.
fn folder_without_a_cycle(alloc: Global) -> Result<MemoryFolder, Fail> {
    let mut folder = MemoryFolder::new(alloc);
    make(alloc, &mut folder)?;
    Ok(folder)
}

/// Adds an open block with this frame to a log.
fn push_block(log: &mut Vec<u8>, frame: &[u8]) -> Result<(), AllocError> {
    log.push(1)?;
    log.extend_from_slice(&(frame.len() as u64).to_le_bytes()[..4])?;
    log.extend_from_slice(frame)
}

/// The head of the log of a queue without a cycle, whose configuration this is.
fn head_of_nothing(alloc: Global, config: &[u8]) -> Result<Vec<u8>, AllocError> {
    let mut head = Vec::from_slice(alloc, b"Linnetshelf queue.log\n\x01\0\0\0\x01")?;
    head.extend_from_slice(&[0; 12])?;
    head.extend_from_slice(&(config.len() as u64).to_le_bytes())?;
    head.extend_from_slice(config)?;
    Ok(head)
}

/// The log of a queue without a cycle, whose configuration this is, with these frames of notes.
fn log_of(alloc: Global, config: &[u8], frames: &[&[u8]]) -> Result<Vec<u8>, AllocError> {
    let mut log = Vec::new(alloc);
    push_block(&mut log, &head_of_nothing(alloc, config)?)?;
    for frame in frames {
        push_block(&mut log, frame)?;
    }
    log.push(0)?;
    Ok(log)
}

/// Puts the log of a queue without a cycle into its folder, with these frames of notes.
fn put_frames(alloc: Global, folder: &mut MemoryFolder, frames: &[&[u8]]) -> Result<(), Fail> {
    let config = bytes_of(alloc, folder, CONFIG_FILE)?;
    put_log(alloc, folder, &log_of(alloc, &config, frames)?)
}

/// A folder with such a log, or without a log.
fn folder_with(
    alloc: Global,
    frames: Option<&'static [&'static [u8]]>,
) -> Result<MemoryFolder, Fail> {
    let mut folder = folder_without_a_cycle(alloc)?;
    if let Some(frames) = frames {
        put_frames(alloc, &mut folder, frames)?;
    }
    Ok(folder)
}

/// Opens the queue of a folder in cycle 2. Fails if that does not say what is wanted.
fn expect_said(
    alloc: Global,
    folder: &mut MemoryFolder,
    number: usize,
    want: &str,
) -> Result<(), Fail> {
    let said = said_at(alloc, folder, NOW)?;
    expect_answer("said", number, said.as_str(), want)
}

/// Opens the queue of a folder in cycle 2, and again at a moment in no cycle, which is not used.
fn expect_begun_in(
    alloc: Global,
    folder: &mut MemoryFolder,
    number: usize,
    row: &Row,
) -> Result<(), Fail> {
    expect_said(alloc, folder, number, row.1)?;
    expect_images_of(alloc, folder, number, row.2)?;
    open_at(alloc, folder, u64::MAX)?;
    expect_images_of(alloc, folder, number, row.2)
}

/// The same in the folder of a row.
fn expect_begun(alloc: Global, number: usize, row: &Row) -> Result<(), Fail> {
    let mut folder = folder_with(alloc, row.0)?;
    expect_begun_in(alloc, &mut folder, number, row)
}

/// Where no cycle has begun, neither in the images nor in the log, that of the moment begins.
#[test]
fn a_queue_without_a_cycle_begins_one(rt: HostRuntime) -> Result<(), Fail> {
    for (number, row) in ROWS.iter().enumerate() {
        expect_begun(rt.alloc(), number, row)?;
    }
    Ok(())
}

/// Opens such a queue in cycle 2, stores a message there, and ends without a close. The folder has the log then.
fn live_once(alloc: Global, folder: &mut MemoryFolder) -> Result<(), Fail> {
    let mut live = opened_at(alloc, folder, Matter::Nothing, NOW)?;
    let log = stored_at(alloc, &mut live, NOW, b"a")?;
    put_log(alloc, folder, &log)
}

/// Opens such a queue, which ends without a close, and then again in another cycle.
fn expect_survived(alloc: Global, folder: &mut MemoryFolder) -> Result<(), Fail> {
    live_once(alloc, folder)?;
    expect_text(
        said_at(alloc, folder, 9 * DAY)?,
        "1 turns: 8589934592 a, none",
    )?;
    expect_images(alloc, folder, "2[a;] at [0]")
}

/// What came to the first cycle is there after a crash.
#[test]
fn the_first_cycle_survives_a_crash(rt: HostRuntime) -> Result<(), Fail> {
    let mut folder = folder_without_a_cycle(rt.alloc())?;
    expect_survived(rt.alloc(), &mut folder)
}

static IN_NO_CYCLE: &str =
    "the time of this machine's clock lies in no cycle of this queue: set the clock, or choose another epoch";

/// Opens the queue of a folder at a moment in no cycle, whose images hold none.
fn expect_bad_moment(alloc: Global, folder: &mut MemoryFolder) -> Result<(), Fail> {
    expect_text(
        fault_at(alloc, folder, Matter::Nothing, u64::MAX)?,
        IN_NO_CYCLE,
    )?;
    expect(folder.access().is_none(), "the folder is left")?;
    expect_images(alloc, folder, "at [0]")
}

/// Fails unless the log of a folder has these bytes.
fn expect_log(alloc: Global, folder: &mut MemoryFolder, log: &[u8]) -> Result<(), Fail> {
    let bytes = bytes_of(alloc, folder, LOG_FILE)?;
    expect(bytes.as_slice() == log, "the log is as it was")
}

/// Opens the queue of a folder at such a moment. No file changes.
fn expect_unchanged(alloc: Global, folder: &mut MemoryFolder) -> Result<(), Fail> {
    let log = bytes_of(alloc, folder, LOG_FILE)?;
    expect_bad_moment(alloc, folder)?;
    expect_log(alloc, folder, &log)
}

/// A moment in no cycle begins none.
#[test]
fn a_moment_in_no_cycle_is_refused(rt: HostRuntime) -> Result<(), Fail> {
    let alloc = rt.alloc();
    let mut folder = folder_with(alloc, Some(&[b""]))?;
    expect_unchanged(alloc, &mut folder)?;
    expect_text(said_at(alloc, &mut folder, NOW)?, "1 turns: none, none")
}

/// A folder with the empty log of a queue without a cycle, of which the call with this number fails. Where the call is a save, it is done
/// nevertheless, or it is not.
fn failing_folder(
    alloc: Global,
    number: u64,
    done: bool,
) -> Result<FailingFolder<MemoryFolder>, Fail> {
    let folder = folder_with(alloc, Some(&[]))?;
    if done {
        Ok(FailingFolder::written(folder, number))
    } else {
        Ok(FailingFolder::new(folder, number))
    }
}

/// Opens the queue of a folder that fails. Fails if that does not end with this fault. Gives the folder back.
fn failed(
    alloc: Global,
    folder: FailingFolder<MemoryFolder>,
    want: &str,
) -> Result<MemoryFolder, Fail> {
    let mut failing = folder;
    let fault = fault_at(alloc, &mut failing, Matter::Nothing, NOW)?;
    expect_text(fault, want)?;
    Ok(failing.into_inner())
}

/// The calls of the folder: what the fault is if it fails, what the images hold then, and after a next opening in cycle 3.
static CALLS: [(u64, bool, &str, &str, &str); 7] = [
    (1, false, "folder fault", "at [0]", "3[] at [0]"),
    (2, false, "folder fault", "at [0]", "3[] at [0]"),
    (3, false, "file fault: queue.cqc", "at [0]", "3[] at [0]"),
    (4, false, "folder fault", "at [0]", "3[] at [0]"),
    (5, false, "file fault: queue.log", "at [0]", "3[] at [0]"),
    (6, false, "file fault: 19700103.cqi", "at [0]", "3[] at [0]"),
    (
        6,
        true,
        "file fault: 19700103.cqi",
        "2[] at [0]",
        "2[] at [0]",
    ),
];

/// Opens the queue of a folder in cycle 3. Fails unless the images hold this before and after it.
fn expect_next(
    alloc: Global,
    folder: &mut MemoryFolder,
    before: &str,
    after: &str,
) -> Result<(), Fail> {
    expect_images(alloc, folder, before)?;
    open_at(alloc, folder, 3 * DAY)?;
    expect_images(alloc, folder, after)
}

/// Opens a queue whose folder fails, and then again.
fn expect_failure(alloc: Global, call: &(u64, bool, &str, &str, &str)) -> Result<(), Fail> {
    let failing = failing_folder(alloc, call.0, call.1)?;
    let mut folder = failed(alloc, failing, call.2)?;
    expect_next(alloc, &mut folder, call.3, call.4)
}

/// The first cycle is saved with the empty log, or not at all.
#[test]
fn the_first_cycle_is_saved_or_not(rt: HostRuntime) -> Result<(), Fail> {
    for call in &CALLS {
        expect_failure(rt.alloc(), call)?;
    }
    Ok(())
}
