//! A log with counts: its calls of the file, its bytes, and what is read after a crash that leaves each byte old or new.
ghost use Rattle.cq_log.specs.Log.{IsSound};

use crate::MemoryFile;
use cq_fixtures::{expect, expect_answer, expect_row};
use cq_log::{Damage, Device, Log, read_frames};
use cq_log_file::{LogFileOf, OpenFault};
use std::alloc::{AllocError, Global};
use std::test::Fail;

/// A call of a log.
#[derive(Clone, Copy)]
enum Step {
    /// Puts a frame of these bytes.
    Push(&'static [u8]),
    /// Stores the frame that waits.
    Settle,
}

/// Calls, and what is read at each moment of them.
struct Run {
    steps: &'static [Step],
    /// The number of the call of the file that fails, or 0 after all; the number of frames that are read then without a crash; the
    /// least and the greatest number of frames that a crash leaves then. The first four calls open the file.
    ///
    /// Between the last write of a block and its sync a crash leaves the frame or does not.
    moments: &'static [(u64, usize, usize, usize)],
}

/// Frames that are put one after another, and frames that are settled one by one. The last ones have zeros, which no crash changes.
static RUNS: [Run; 3] = [
    Run {
        steps: &[
            Step::Push(b"ab"),
            Step::Push(b""),
            Step::Push(b"xyz"),
            Step::Settle,
        ],
        moments: &[
            // The mark, and its sync.
            (5, 0, 0, 0),
            (6, 0, 0, 0),
            // The head of the first block, its frame, the zeros.
            (7, 0, 0, 0),
            (8, 0, 0, 0),
            (9, 1, 0, 1),
            // Its sync, the second block in two writes.
            (10, 1, 0, 1),
            (11, 1, 1, 1),
            (12, 2, 1, 2),
            // Its sync, the third block in two writes.
            (13, 2, 1, 2),
            (14, 2, 2, 2),
            (15, 2, 2, 2),
            // Its sync.
            (16, 3, 2, 3),
            (0, 3, 3, 3),
        ],
    },
    Run {
        steps: &[
            Step::Push(b"ab"),
            Step::Settle,
            Step::Push(b"xyz"),
            Step::Settle,
        ],
        moments: &[
            // The sync of the first block.
            (10, 1, 0, 1),
            // The second block, its sync.
            (11, 1, 1, 1),
            (12, 1, 1, 1),
            (13, 2, 1, 2),
            (0, 2, 2, 2),
        ],
    },
    Run {
        steps: &[
            Step::Push(b"\0\0a\0\0\0b\0"),
            Step::Push(b"\0\0\0"),
            Step::Settle,
        ],
        // The frame of the second block is there before its write, as all of it is 0.
        moments: &[(10, 1, 0, 1), (12, 2, 1, 2), (13, 2, 1, 2), (0, 2, 2, 2)],
    },
];

/// Makes the calls up to the first fault.
fn make<D: Device>(log: &mut Log<D>, steps: &[Step])
    requires { IsSound D.seen D.may_leave D.fault D.supposed log.old }
{
    for step in steps {
        let is_done = match step {
            Step::Push(frame) => log.push(frame).is_ok(),
            Step::Settle => log.settle().is_ok(),
        };
        if !is_done {
            return;
        }
    }
}

/// Makes a log in a file of which the call with this number fails, and makes the calls. Returns the file.
fn after_steps(
    alloc: Global,
    failing: u64,
    steps: &[Step],
) -> Result<LogFileOf<MemoryFile>, OpenFault> {
    let file = LogFileOf::begin_empty(MemoryFile::new(alloc, failing), alloc)?;
    match Log::create(file.supposing(Damage::OldOrNew)) {
        Ok(log) => {
            let mut log = log;
            make(&mut log, steps);
            Ok(log.into_device())
        }
        Err(error) => Ok(error.device),
    }
}

/// Returns the number of frames in these bytes; `None` if they are not the first of those that were put.
fn count_in(alloc: Global, bytes: &[u8], steps: &[Step]) -> Result<Option<usize>, AllocError> {
    let frames = read_frames(alloc, bytes)?.frames;
    let mut steps = steps.iter().filter(|step| matches!(step, Step::Push(_)));
    for frame in &frames {
        match steps.next() {
            Some(Step::Push(put)) if frame.as_slice() == *put => {}
            _ => return Ok(None),
        }
    }
    Ok(Some(frames.len()))
}

/// How many kinds of crash are tried at each moment.
const CRASHES: u64 = 400;

/// Returns the bits of the crash with this number: none, all, one, all but one, and others that look random.
fn bits_of(number: u64) -> u64 {
    match number {
        0 => 0,
        1 => u64::MAX,
        2..66 => 1u64.rotate_left((number % 64) as u32),
        66..130 => !1u64.rotate_left((number % 64) as u32),
        _ => scrambled(number),
    }
}

/// Returns a number that looks random, by the steps of SplitMix64.
fn scrambled(number: u64) -> u64 {
    let mut bits = number.wrapping_mul(0x9E37_79B9_7F4A_7C15);
    bits = (bits ^ (bits >> 30)).wrapping_mul(0xBF58_476D_1CE4_E5B9);
    bits = (bits ^ (bits >> 27)).wrapping_mul(0x94D0_49BB_1331_11EB);
    bits ^ (bits >> 31)
}

/// Returns the least and the greatest number of frames that a crash leaves; `None` if it leaves others.
fn counts_left(
    alloc: Global,
    file: &MemoryFile,
    steps: &[Step],
) -> Result<Option<(usize, usize)>, AllocError> {
    let mut least = usize::MAX;
    let mut greatest = 0;
    for number in 0..CRASHES {
        let left = file.left(alloc, bits_of(number))?;
        let Some(count) = count_in(alloc, &left, steps)? else {
            return Ok(None);
        };
        least = least.min(count);
        greatest = greatest.max(count);
    }
    Ok(Some((least, greatest)))
}

/// Fails unless this number of frames is read of a file without a crash, and crashes leave these numbers.
fn expect_left(
    alloc: Global,
    file: &MemoryFile,
    steps: &[Step],
    moment: &(u64, usize, usize, usize),
) -> Result<(), Fail> {
    let &(failing, read, least, greatest) = moment;
    let seen = file.left(alloc, u64::MAX)?;
    expect_row(count_in(alloc, &seen, steps)? == Some(read), failing)?;
    let counts = counts_left(alloc, file, steps)?;
    expect_row(counts == Some((least, greatest)), failing)
}

/// Makes the calls of a run up to a moment.
fn expect_moment(
    alloc: Global,
    steps: &[Step],
    moment: &(u64, usize, usize, usize),
) -> Result<(), Fail> {
    let file = after_steps(alloc, moment.0, steps)?;
    expect_left(alloc, file.calls(), steps, moment)
}

#[test]
fn a_crash_leaves_whole_frames_of_a_log_with_counts(rt: HostRuntime) -> Result<(), Fail> {
    for run in &RUNS {
        for moment in run.moments {
            expect_moment(rt.alloc(), run.steps, moment)?;
        }
    }
    Ok(())
}

/// Calls of a log, and the calls that it makes of its file. The first sync is that of the opening.
static CALLS: [(&[Step], &str); 3] = [
    (
        &[
            Step::Push(b"ab"),
            Step::Push(b""),
            Step::Push(b"xyz"),
            Step::Settle,
        ],
        "sync 0+5 sync 5+12 17+2 19+4096 sync 19+12 31+0 sync 31+12 43+3 sync ",
    ),
    (&[Step::Settle], "sync 0+5 sync "),
    (
        &[
            Step::Push(b"ab"),
            Step::Settle,
            Step::Settle,
            Step::Push(b"c"),
        ],
        "sync 0+5 sync 5+12 17+2 19+4096 sync 19+12 31+1 ",
    ),
];

/// Fails unless the calls of a log make these calls of its file.
fn expect_calls(alloc: Global, number: usize, steps: &[Step], want: &str) -> Result<(), Fail> {
    let file = after_steps(alloc, 0, steps)?;
    expect_answer("calls", number, file.calls().text(), want)
}

#[test]
fn a_frame_costs_one_sync_in_a_log_with_counts(rt: HostRuntime) -> Result<(), Fail> {
    for (i, &(steps, calls)) in CALLS.iter().enumerate() {
        expect_calls(rt.alloc(), i, steps, calls)?;
    }
    Ok(())
}

/// The mark, and the blocks of `ab` and of `a` and a zero: each has its length, and its count. That is 2 * (2^32 - 2), and 1 more for
/// the zero.
static BYTES: [u8; 33] = [
    2, 255, 255, 255, 255, 2, 0, 0, 0, 252, 255, 255, 255, 1, 0, 0, 0, 97, 98, 2, 0, 0, 0, 253,
    255, 255, 255, 1, 0, 0, 0, 97, 0,
];

/// Returns whether these bytes are those, and then zeros.
fn has_front(bytes: &[u8]) -> bool {
    match bytes.split_at_checked(BYTES.len()) {
        Some((front, rest)) => front == BYTES.as_slice() && rest.iter().all(|byte| *byte == 0),
        None => false,
    }
}

/// The calls that give such a log.
static STEPS: [Step; 2] = [Step::Push(b"ab"), Step::Push(b"a\0")];

/// Returns the bytes of that log.
fn log_bytes(alloc: Global) -> Result<Vec<u8>, Fail> {
    let file = after_steps(alloc, 0, &STEPS)?;
    Ok(file.calls().left(alloc, u64::MAX)?)
}

#[test]
fn logs_with_counts_have_these_bytes(rt: HostRuntime) -> Result<(), Fail> {
    let bytes = log_bytes(rt.alloc())?;
    expect(bytes.len() == 19 + 4096, "the log is as long")?;
    expect(has_front(&bytes), "the log begins so")
}

/// Where one byte of these is another, and how many frames are read then.
static SPOILT: [(usize, u8, usize); 8] = [
    // The mark, lengths, counts, frames.
    (0, 1, 0),
    (4, 254, 0),
    (5, 1, 0),
    (9, 0, 0),
    (17, 0, 0),
    (19, 1, 1),
    (23, 252, 1),
    (31, 0, 1),
];

/// Returns the number of frames of that log, and where they end.
fn frames_and_end(alloc: Global) -> Result<(usize, usize), AllocError> {
    let found = read_frames(alloc, &BYTES)?;
    Ok((found.frames.len(), found.end))
}

/// Returns those bytes with another one at a place.
fn spoilt(alloc: Global, place: usize, byte: u8) -> Result<Vec<u8>, AllocError> {
    let mut bytes = BYTES.to_vec(alloc)?;
    if let Some(old) = bytes.get_mut(place) {
        *old = byte;
    }
    Ok(bytes)
}

/// Returns the number of frames that are read then.
fn frames_of_spoilt(alloc: Global, place: usize, byte: u8) -> Result<usize, AllocError> {
    let bytes = spoilt(alloc, place, byte)?;
    Ok(read_frames(alloc, &bytes)?.frames.len())
}

#[test]
fn a_block_is_read_only_with_its_count(rt: HostRuntime) -> Result<(), Fail> {
    let alloc = rt.alloc();
    expect(frames_and_end(alloc)? == (2, 33), "all blocks are read")?;
    for &(place, byte, want) in &SPOILT {
        expect_row(frames_of_spoilt(alloc, place, byte)? == want, place as u64)?;
    }
    Ok(())
}
