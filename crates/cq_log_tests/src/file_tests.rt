//! A file in memory by itself: its bytes, and what a crash leaves of writes and cuts.
ghost use Rattle.std.specs.Prelude.{◌≡◌, [], IfOk, None};
ghost use Rattle.cq_log.specs.Device.{Overwrites};

use crate::expecting::{expect_at, expect_frames, expect_text_at};
use crate::{Ruin, TornFile};
use cq_log::{Device, DeviceFault, Log, read_frames};
use std::alloc::{AllocError, Global};
use std::test::Fail;

/// Returns what a crash leaves of a file for each of these, as text, a `|` after each.
fn left_text(alloc: Global, file: &TornFile, ruins: &[Ruin]) -> Result<String, AllocError> {
    let mut text = String::new(alloc);
    for &ruin in ruins {
        for byte in file.after_crash(alloc, ruin)? {
            text.push(char::from(byte))?;
        }
        text.push('|')?;
    }
    Ok(text)
}

/// What a crash may make of writes.
static RUINS: [Ruin; 6] = [
    Ruin::Kept,
    Ruin::Lost,
    Ruin::Front(1),
    Ruin::Filled(b'x'),
    Ruin::Spoilt {
        place: 4,
        byte: b'x',
    },
    Ruin::Mixed(0b01010),
];

/// Returns a file with these bytes, which were synced.
fn synced_file(alloc: Global, bytes: &[u8]) -> Result<TornFile, DeviceFault>
    ensures usable { IfOk result (λ synced. synced.fault ≡ None) }
    ensures bytes { IfOk result (λ synced. Overwrites [] 0 bytes.now synced.file.items) }
{
    let mut file = TornFile::new(alloc, 0);
    file.write_at(0, bytes)?;
    file.sync()?;
    Ok(file)
}

/// Fails unless a crash leaves this of a file for each of those.
fn expect_left(alloc: Global, file: &TornFile, want: &str, place: u64) -> Result<(), Fail> {
    let left = left_text(alloc, file, &RUINS)?;
    expect_text_at(left.as_str(), want, place)
}

#[test]
fn a_crash_leaves_any_part_of_a_write(rt: HostRuntime) -> Result<(), Fail> {
    let alloc = rt.alloc();
    let mut file = synced_file(alloc, b"abcd")?;
    expect_left(alloc, &file, "abcd|abcd|abcd|abcd|abcd|abcd|", 0)?;
    file.write_at(3, b"EF")?;
    let is_written = file.read(alloc)?.as_slice() == b"abcEF".as_slice();
    expect_at(is_written, "written", 1)?;
    expect_left(alloc, &file, "abcEF|abcd|abcE|abcxx|abcEx|abcE\0|", 1)
}

/// Returns whether a log is settled without a fault, and its file has these bytes.
fn is_settled_with(log: &Log<TornFile>, bytes: &[u8]) -> bool {
    log.is_settled() && log.fault().is_none() && log.device().bytes() == bytes
}

#[test]
fn a_used_file_gets_a_new_log(rt: HostRuntime) -> Result<(), Fail> {
    let alloc = rt.alloc();
    let mut file = synced_file(alloc, b"old")?;
    file.cut(0)?;
    expect_left(alloc, &file, "|old|o|xxx||o\0d|", 0)?;
    file.sync()?;
    match Log::create(file) {
        Ok(log) => expect_at(is_settled_with(&log, &[0]), "a new log", 0),
        Err(error) => Err(Fail::from(error.fault)),
    }
}

/// The frames `ab` and `c`, and a closed gate.
static LOG: [u8; 14] = [1, 2, 0, 0, 0, 97, 98, 1, 1, 0, 0, 0, 99, 0];

/// How many bytes a crash leaves of that log when it is emptied, and how many frames are read then.
static FRONTS: [(usize, usize); 5] = [(0, 0), (6, 0), (7, 1), (12, 1), (13, 2)];

/// Returns how many frames are read of a file of which a crash leaves this many bytes.
fn frames_left(alloc: Global, file: &TornFile, count: usize) -> Result<usize, AllocError> {
    let left = file.after_crash(alloc, Ruin::Front(count))?;
    Ok(read_frames(alloc, &left)?.frames.len())
}

#[test]
fn a_crash_leaves_frames_of_a_log_that_is_emptied(rt: HostRuntime) -> Result<(), Fail> {
    let mut file = synced_file(rt.alloc(), &LOG)?;
    file.cut(0)?;
    for &(count, want) in &FRONTS {
        let frames = frames_left(rt.alloc(), &file, count)?;
        expect_frames(Some(frames), want, count as u64)?;
    }
    Ok(())
}
