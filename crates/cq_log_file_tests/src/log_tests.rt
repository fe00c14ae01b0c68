//! A log in a file of the system, and what it leaves where a call of the system fails.
ghost use Rattle.std.specs.Prelude.{◌≡◌, [], None};
ghost use Rattle.cq_log.specs.Device.{Only};
ghost use Rattle.cq_log.specs.Log.{IsSound};

use crate::FailingFile;
use crate::places::{new_folder, within};
use cq_fixtures::expect_row;
use cq_log::{Device, Log, read_frames};
use cq_log_file::{LogFile, LogFileOf, OpenFault, SystemFile};
use std::alloc::Global;
use std::fs;
use std::test::Fail;

/// The frames that are put, in order.
static FRAMES: [&[u8]; 3] = [b"ab", b"", b"xyz"];

/// The number of the call of the file that fails, or 0 if none does; the number of frames that are stored by the answers of the
/// log; and the number of frames that are read from the file.
///
/// The write of a gate that fails leaves it closed.
static FAILURES: [(u64, usize, usize); 24] = [
    (0, 3, 3),
    // The lock, the first read, the sync, the sync of the folder.
    (1, 0, 0),
    (2, 0, 0),
    (3, 0, 0),
    (4, 0, 0),
    // The first gate, and its sync.
    (5, 0, 0),
    (6, 0, 0),
    // The first frame, which waits: its length, its bytes, the next gate, the zeros, the sync.
    (7, 0, 0),
    (8, 0, 0),
    (9, 0, 0),
    (10, 0, 0),
    (11, 0, 0),
    // Its gate, the second frame in three writes, the sync.
    (12, 0, 0),
    (13, 0, 1),
    (14, 0, 1),
    (15, 0, 1),
    (16, 0, 1),
    // The gate of the second frame, the third one, the sync.
    (17, 1, 1),
    (18, 1, 2),
    (19, 1, 2),
    (20, 1, 2),
    (21, 1, 2),
    // The gate of the third frame, the sync.
    (22, 2, 2),
    (23, 2, 3),
];

/// Puts the frames to a log up to the first fault, and settles it. Returns the number of frames that are stored by its answers,
/// and whether a call failed.
fn put_all<D: Device>(log: &mut Log<D>) -> (usize, bool)
    requires { IsSound D.seen D.may_leave D.fault D.supposed log.old }
    ensures { IsSound D.seen D.may_leave D.fault D.supposed log.new }
{
    let mut count = 0usize;
    for frame in &FRAMES {
        if log.push(frame).is_err() {
            return (count.saturating_sub(1), true);
        }
        count = count.saturating_add(1);
    }
    match log.settle() {
        Ok(()) => (count, false),
        Err(_) => (count.saturating_sub(1), true),
    }
}

/// Puts the frames to a log, and then one more. Returns the number of frames that are stored by the answers to the first ones,
/// whether a call of these failed, and whether the log has stopped.
fn put_and_stop<D: Device>(log: &mut Log<D>) -> (usize, bool, bool)
    requires { IsSound D.seen D.may_leave D.fault D.supposed log.old }
{
    let (stored, has_failed) = put_all(log);
    (stored, has_failed, log.push(b"late").is_err())
}

/// Does the same with a new log on a device, whose file is empty.
fn put_to<D: Device + Drop>(device: D) -> (usize, bool, bool)
    requires usable { D.fault device ≡ None }
    requires empty { D.seen device ≡ [] }
    requires durable { Only [] (D.may_leave device) }
{
    match Log::create(device) {
        Ok(log) => {
            let mut log = log;
            put_and_stop(&mut log)
        }
        Err(_) => (0, true, true),
    }
}

/// Does the same in a new file of which a call fails. Out of memory ends it.
fn put_at(rt: &HostRuntime, path: &str, failing: u64) -> Result<(usize, bool, bool), OpenFault> {
    let file = FailingFile::new(SystemFile::create(rt, path)?, failing);
    match LogFileOf::begin_empty(file, rt.alloc()) {
        Ok(file) => Ok(put_to(file)),
        Err(error) if matches!(error.fault, OpenFault::OutOfMemory) => Err(error.fault),
        Err(_) => Ok((0, true, true)),
    }
}

/// Returns the number of frames in these bytes; `None` if they are not the first of those that were put.
fn count_in(alloc: Global, bytes: &[u8]) -> Result<Option<usize>, Fail> {
    let frames = read_frames(alloc, bytes)?.frames;
    let are_first = frames
        .iter()
        .zip(FRAMES.iter())
        .all(|(found, put)| found.as_slice() == *put);
    Ok((are_first && frames.len() <= FRAMES.len()).then_some(frames.len()))
}

/// Returns the number of frames in a file; `None` if they are not the first of those that were put.
fn count_at(rt: &HostRuntime, path: &str) -> Result<Option<usize>, Fail> {
    let found = LogFile::open(rt, path)?;
    count_in(rt.alloc(), &found.bytes)
}

/// Puts the frames to a new file of which a call fails. Fails if the answers are not as wanted, or if other frames are read. The file
/// is removed then.
fn expect_stored(
    rt: &HostRuntime,
    path: &str,
    failing: u64,
    stored: usize,
    read: usize,
) -> Result<(), Fail> {
    let has_failed = failing != 0;
    let answers = put_at(rt, path, failing)?;
    expect_row(answers == (stored, has_failed, has_failed), failing)?;
    expect_row(count_at(rt, path)? == Some(read), failing)?;
    fs::remove_file(rt, path)?;
    Ok(())
}

/// Puts the frames again and again, each time to a new file at this path.
fn expect_each_stored(rt: &HostRuntime, path: &str) -> Result<(), Fail> {
    for &(failing, stored, read) in &FAILURES {
        expect_stored(rt, path, failing, stored, read)?;
    }
    Ok(())
}

#[test]
fn what_is_stored_is_there(rt: HostRuntime) -> Result<(), Fail> {
    let folder = new_folder(&rt, "log_frames")?;
    let path = within(&rt, &folder, "a")?;
    expect_each_stored(&rt, &path)?;
    fs::remove_dir_all(&rt, folder.as_str())?;
    Ok(())
}
