//! The bytes of small logs, and the calls that are made of the file.
use crate::calls::{Call, after_calls, changes_text, file_after};
use crate::expecting::{expect_at, expect_text_at};
use cq_log::DeviceFault;
use std::alloc::Global;
use std::test::Fail;

/// Calls, the bytes of the blocks after them, and the number of zeros that follow.
static LAYOUTS: [(&[Call], &[u8], usize); 8] = [
    (&[], &[0], 0),
    (&[Call::Settle], &[0], 0),
    (&[Call::Push("ab")], &[0, 2, 0, 0, 0, 97, 98, 0], 4096),
    (
        &[Call::Push("ab"), Call::Settle],
        &[1, 2, 0, 0, 0, 97, 98, 0],
        4096,
    ),
    (
        &[Call::Push("ab"), Call::Push("c")],
        &[1, 2, 0, 0, 0, 97, 98, 0, 1, 0, 0, 0, 99, 0],
        4090,
    ),
    (
        &[Call::Push("ab"), Call::Settle, Call::Push("c")],
        &[1, 2, 0, 0, 0, 97, 98, 0, 1, 0, 0, 0, 99, 0],
        4090,
    ),
    (&[Call::Push("")], &[0, 0, 0, 0, 0, 0], 4096),
    (
        &[Call::Push(""), Call::Push("c"), Call::Settle],
        &[1, 0, 0, 0, 0, 1, 1, 0, 0, 0, 99, 0],
        4090,
    ),
];

/// Returns whether a file has these bytes, and then this number of zeros.
fn has_layout(file: &[u8], bytes: &[u8], zeros: usize) -> bool {
    match file.split_at_checked(bytes.len()) {
        Some((front, rest)) => {
            front == bytes && rest.len() == zeros && rest.iter().all(|byte| *byte == 0)
        }
        None => false,
    }
}

/// Returns whether a file has such a layout after the calls.
fn is_laid_out(
    alloc: Global,
    calls: &[Call],
    bytes: &[u8],
    zeros: usize,
) -> Result<bool, DeviceFault> {
    let file = file_after(alloc, 0, calls)?;
    Ok(has_layout(file.bytes(), bytes, zeros))
}

#[test]
fn logs_have_these_bytes(rt: HostRuntime) -> Result<(), Fail> {
    for (i, &(calls, bytes, zeros)) in LAYOUTS.iter().enumerate() {
        let is_laid_out = is_laid_out(rt.alloc(), calls, bytes, zeros)?;
        expect_at(is_laid_out, "these bytes", i as u64)?;
    }
    Ok(())
}

/// Calls, and the writes and syncs of the file: a block that passes the end is followed by zeros, as many as the file has bytes, but
/// not less than 4,096.
static GROWTHS: [(&[Call], &str); 4] = [
    // The last gate of the second frame is the last byte of the file.
    (
        &[Call::Push("ab"), Call::Long(4091), Call::Settle],
        "0+1 sync 1+4 5+2 7+1 8+4096 sync 0+1 8+4 12+4091 4103+1 sync 7+1 sync ",
    ),
    // It passes the end by a byte.
    (
        &[Call::Push("ab"), Call::Long(4092), Call::Push("c")],
        "0+1 sync 1+4 5+2 7+1 8+4096 sync 0+1 8+4 12+4092 4104+1 4105+4105 sync 7+1 4105+4 4109+1 4110+1 sync ",
    ),
    // One write has 65,536 zeros at most.
    (
        &[Call::Long(100_000)],
        "0+1 sync 1+4 5+100000 100005+1 100006+65536 165542+34470 sync ",
    ),
    (
        &[Call::Push(""), Call::Push("")],
        "0+1 sync 1+4 5+0 5+1 6+4096 sync 0+1 6+4 10+0 10+1 sync ",
    ),
];

/// Makes the calls with a file of which the call with this number fails. Returns the answers and the calls of the file as text.
fn said_of(alloc: Global, failing: u64, calls: &[Call]) -> Result<(String, String), DeviceFault> {
    let (file, answers) = after_calls(alloc, failing, calls)?;
    let changes = changes_text(alloc, &file)?;
    Ok((answers, changes))
}

/// Fails unless the calls give these writes and syncs.
fn expect_changes(alloc: Global, calls: &[Call], want: &str, place: u64) -> Result<(), Fail> {
    let (_answers, changes) = said_of(alloc, 0, calls)?;
    expect_text_at(changes.as_str(), want, place)
}

#[test]
fn a_file_grows_ahead_of_its_blocks(rt: HostRuntime) -> Result<(), Fail> {
    for (i, &(calls, changes)) in GROWTHS.iter().enumerate() {
        expect_changes(rt.alloc(), calls, changes, i as u64)?;
    }
    Ok(())
}

/// Three frames, which are settled.
static THREE: [Call; 4] = [
    Call::Push("ab"),
    Call::Push(""),
    Call::Push("xyz"),
    Call::Settle,
];

/// The number of the call of the file that fails, or 0; the answers; the calls of the file.
type Stop = (u64, &'static str, &'static str);

/// Fails unless three frames give these answers and calls of the file.
fn expect_stop(alloc: Global, stop: &Stop) -> Result<(), Fail> {
    let (answers, changes) = said_of(alloc, stop.0, &THREE)?;
    expect_text_at(answers.as_str(), stop.1, stop.0)?;
    expect_text_at(changes.as_str(), stop.2, stop.0)
}

/// No call fails.
static NO_STOP: Stop = (
    0,
    "ok ok ok ok ",
    "0+1 sync 1+4 5+2 7+1 8+4096 sync 0+1 8+4 12+0 12+1 sync 7+1 13+4 17+3 20+1 sync 12+1 sync ",
);

#[test]
fn each_frame_is_synced_once(rt: HostRuntime) -> Result<(), Fail> {
    expect_stop(rt.alloc(), &NO_STOP)
}

/// No call of the file is made after the one that fails.
static STOPS: [Stop; 10] = [
    (1, "Failed", "0+1 "),
    (2, "Failed", "0+1 "),
    (
        3,
        "Stopped(Failed) Stopped(Failed) Stopped(Failed) Stopped(Failed) ",
        "0+1 sync 1+4 ",
    ),
    (
        4,
        "Stopped(Failed) Stopped(Failed) Stopped(Failed) Stopped(Failed) ",
        "0+1 sync 1+4 5+2 ",
    ),
    (
        5,
        "Stopped(Failed) Stopped(Failed) Stopped(Failed) Stopped(Failed) ",
        "0+1 sync 1+4 5+2 7+1 ",
    ),
    (
        6,
        "Stopped(Failed) Stopped(Failed) Stopped(Failed) Stopped(Failed) ",
        "0+1 sync 1+4 5+2 7+1 8+4096 ",
    ),
    (
        7,
        "Stopped(Failed) Stopped(Failed) Stopped(Failed) Stopped(Failed) ",
        "0+1 sync 1+4 5+2 7+1 8+4096 ",
    ),
    (
        8,
        "ok Stopped(Failed) Stopped(Failed) Stopped(Failed) ",
        "0+1 sync 1+4 5+2 7+1 8+4096 sync 0+1 ",
    ),
    (
        12,
        "ok Stopped(Failed) Stopped(Failed) Stopped(Failed) ",
        "0+1 sync 1+4 5+2 7+1 8+4096 sync 0+1 8+4 12+0 12+1 ",
    ),
    (
        19,
        "ok ok ok Stopped(Failed) ",
        "0+1 sync 1+4 5+2 7+1 8+4096 sync 0+1 8+4 12+0 12+1 sync 7+1 13+4 17+3 20+1 sync 12+1 ",
    ),
];

#[test]
fn logs_stop_at_the_first_fault(rt: HostRuntime) -> Result<(), Fail> {
    for stop in &STOPS {
        expect_stop(rt.alloc(), stop)?;
    }
    Ok(())
}
