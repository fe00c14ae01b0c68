//! What is read after a crash at each moment, whatever it made of what was not synced.
use crate::calls::{Call, file_after};
use crate::expecting::{expect_at, expect_frames};
use crate::{Ruin, TornFile};
use cq_log::read_frames;
use std::alloc::{AllocError, Global};
use std::test::Fail;

/// Calls, and what is read at each moment of them.
struct Run {
    calls: &'static [Call],
    /// Where single bytes are spoilt: in the blocks and at the ends of the growths, from the first place to before the second.
    places: &'static [(usize, usize)],
    /// The number of the call of the file that fails, or 0 after all; the number of frames that are read then without a crash;
    /// the least and the greatest number of frames that a crash in that call leaves.
    ///
    /// The gate of a frame is written in one call and synced in a later one: between them a crash leaves the frame or does not.
    /// The write of a gate that fails leaves it closed.
    moments: &'static [(u64, usize, usize, usize)],
}

/// Frames that are put one after another, frames that are settled one by one, and a frame for which the file grows once more.
static RUNS: [Run; 3] = [
    Run {
        calls: &[
            Call::Push("ab"),
            Call::Push(""),
            Call::Push("xyz"),
            Call::Settle,
        ],
        places: &[(0, 24), (4100, 4104)],
        moments: &[
            // The first gate, and its sync.
            (1, 0, 0, 0),
            (2, 0, 0, 0),
            // The first frame, which waits: its length, its bytes, the next gate, the zeros, the sync.
            (3, 0, 0, 0),
            (4, 0, 0, 0),
            (5, 0, 0, 0),
            (6, 0, 0, 0),
            (7, 0, 0, 0),
            // Its gate, the second frame in three writes, the sync.
            (8, 0, 0, 1),
            (9, 1, 0, 1),
            (10, 1, 0, 1),
            (11, 1, 0, 1),
            (12, 1, 0, 1),
            // The gate of the second frame, the third one, the sync.
            (13, 1, 1, 2),
            (14, 2, 1, 2),
            (15, 2, 1, 2),
            (16, 2, 1, 2),
            (17, 2, 1, 2),
            // The gate of the third frame, the sync.
            (18, 2, 2, 3),
            (19, 3, 2, 3),
            // After all.
            (0, 3, 3, 3),
        ],
    },
    Run {
        calls: &[
            Call::Push("ab"),
            Call::Settle,
            Call::Push("xyz"),
            Call::Settle,
        ],
        places: &[(0, 20)],
        moments: &[
            // The gate of the first frame, the sync.
            (8, 0, 0, 1),
            (9, 1, 0, 1),
            // The second frame in three writes, the sync: no gate is opened.
            (10, 1, 1, 1),
            (11, 1, 1, 1),
            (12, 1, 1, 1),
            (13, 1, 1, 1),
            // Its gate, the sync.
            (14, 1, 1, 2),
            (15, 2, 1, 2),
            // After all.
            (0, 2, 2, 2),
        ],
    },
    Run {
        calls: &[Call::Push("ab"), Call::Long(4092), Call::Settle],
        places: &[(6, 14), (4102, 4107), (8206, 8210)],
        moments: &[
            // The gate of the first frame; the second one in three writes, of which the third is past the end; the zeros; the sync.
            (8, 0, 0, 1),
            (9, 1, 0, 1),
            (10, 1, 0, 1),
            (11, 1, 0, 1),
            (12, 1, 0, 1),
            (13, 1, 0, 1),
            // Its gate, the sync.
            (14, 1, 1, 2),
            (15, 2, 1, 2),
            // After all.
            (0, 2, 2, 2),
        ],
    },
];

/// Returns the number of frames in these bytes; `None` if they are not the first of those that the calls put.
fn count_in(alloc: Global, bytes: &[u8], calls: &[Call]) -> Result<Option<usize>, AllocError> {
    let frames = read_frames(alloc, bytes)?.frames;
    let mut puts = calls.iter().filter(|call| call.is_put());
    let are_first = frames.iter().all(|frame| match puts.next() {
        Some(call) => call.puts(frame),
        None => false,
    });
    Ok(are_first.then_some(frames.len()))
}

/// The least and the greatest number of frames that were left; `None` if other frames were left.
#[derive(Clone, Copy, Debug, PartialEq, Eq)]
struct Counts {
    least: usize,
    greatest: usize,
}

impl Counts {
    /// Counts one more crash. Returns whether the frames that it left are the first ones.
    fn add(&mut self, count: Option<usize>) -> bool {
        let Some(count) = count else {
            return false;
        };
        self.least = self.least.min(count);
        self.greatest = self.greatest.max(count);
        true
    }
}

/// What a crash may make of writes, but for single bytes.
static RUINS: [Ruin; 12] = [
    Ruin::Kept,
    Ruin::Lost,
    Ruin::Front(1),
    Ruin::Front(2),
    Ruin::Front(5),
    Ruin::Front(7),
    Ruin::Filled(0),
    Ruin::Filled(1),
    Ruin::Filled(255),
    Ruin::Mixed(0x5555_5555_5555_5555),
    Ruin::Mixed(0xAAAA_AAAA_AAAA_AAAA),
    Ruin::Mixed(0x0F0F_3C3C_9696_A5A5),
];

/// Bytes that a crash may leave at a place: closed and open gates, and others.
static BYTES: [u8; 4] = [0, 1, 2, 255];

/// Counts the crashes that spoil this byte. Returns whether the frames that they leave are the first ones.
fn add_spoilt(
    alloc: Global,
    counts: &mut Counts,
    file: &TornFile,
    run: &Run,
    place: usize,
) -> Result<bool, AllocError> {
    let mut are_first = true;
    for &byte in &BYTES {
        let left = file.after_crash(alloc, Ruin::Spoilt { place, byte })?;
        are_first &= counts.add(count_in(alloc, &left, run.calls)?);
    }
    Ok(are_first)
}

/// Returns the least and the greatest number of frames that are left of a file by a crash; `None` if it leaves others.
fn counts_left(alloc: Global, file: &TornFile, run: &Run) -> Result<Option<Counts>, AllocError> {
    let mut counts = Counts {
        least: run.calls.len(),
        greatest: 0,
    };
    let mut are_first = true;
    for &ruin in &RUINS {
        let left = file.after_crash(alloc, ruin)?;
        are_first &= counts.add(count_in(alloc, &left, run.calls)?);
    }
    for &(first, end) in run.places {
        for place in first..end {
            are_first &= add_spoilt(alloc, &mut counts, file, run, place)?;
        }
    }
    Ok(are_first.then_some(counts))
}

/// Fails unless a run leaves these numbers of frames at this moment, and gives what it leaves.
fn expect_counts(counts: Option<Counts>, want: Counts, failing: u64) -> Result<(), Fail> {
    if counts == Some(want) {
        return Ok(());
    }
    Err(Fail::new(format_args!("at {failing}: {counts:?}")))
}

/// Fails unless this number of frames is read of a file without a crash, and crashes leave these numbers.
fn expect_left(
    alloc: Global,
    run: &Run,
    file: &TornFile,
    moment: &(u64, usize, usize, usize),
) -> Result<(), Fail> {
    let &(failing, read, least, greatest) = moment;
    let count = count_in(alloc, file.bytes(), run.calls)?;
    expect_frames(count, read, failing)?;
    let counts = counts_left(alloc, file, run)?;
    expect_counts(counts, Counts { least, greatest }, failing)
}

/// Makes the calls of a run up to a moment.
fn expect_moment(
    alloc: Global,
    run: &Run,
    moment: &(u64, usize, usize, usize),
) -> Result<(), Fail> {
    let file = file_after(alloc, moment.0, run.calls)?;
    expect_left(alloc, run, &file, moment)
}

#[test]
fn a_crash_leaves_whole_frames(rt: HostRuntime) -> Result<(), Fail> {
    for run in &RUNS {
        for moment in run.moments {
            expect_moment(rt.alloc(), run, moment)?;
        }
    }
    Ok(())
}

/// What may be where a file has grown: nothing, open gates, and blocks that are open and whole.
static GARBAGE: [&[u8]; 5] = [&[0], &[1], &[255], &[1, 1, 0, 0, 0, 97], &[1, 0, 0, 0, 0]];

/// Returns the number of frames of a log that is cut to this length; `None` if they are not the first of those that the calls put.
fn count_of(
    alloc: Global,
    bytes: &[u8],
    length: usize,
    calls: &[Call],
) -> Result<Option<usize>, AllocError> {
    match bytes.get(..length) {
        Some(bytes) => count_in(alloc, bytes, calls),
        None => Ok(None),
    }
}

/// A log whose file has grown twice: the second frame passed the end of the first growth, and waits. The gates are at 0, 7 and
/// 4,104, and the second growth is from 4,105 on.
static TWICE: [Call; 2] = [Call::Push("ab"), Call::Long(4092)];

/// Returns the bytes of that log up to the second growth, and then garbage in place of it.
fn with_garbage(alloc: Global, bytes: &[u8], garbage: &[u8]) -> Result<Vec<u8>, AllocError> {
    let mut left = bytes.to_vec(alloc)?;
    left.truncate(4105);
    for _ in 0..4105usize {
        left.extend_from_slice(garbage)?;
    }
    left.truncate(8210);
    Ok(left)
}

/// Fails unless one frame is read of that log, wherever it is cut past the first gate.
fn expect_one_of_cut(alloc: Global, bytes: &[u8]) -> Result<(), Fail> {
    for end in 7..=8210usize {
        expect_frames(count_of(alloc, bytes, end, &TWICE)?, 1, end as u64)?;
    }
    Ok(())
}

/// Returns the number of frames of that log with garbage in it; `None` if its length or its frames are others.
fn count_with(alloc: Global, bytes: &[u8], garbage: &[u8]) -> Result<Option<usize>, AllocError> {
    let left = with_garbage(alloc, bytes, garbage)?;
    if left.len() != 8210 {
        return Ok(None);
    }
    count_in(alloc, &left, &TWICE)
}

/// Fails unless one frame is read of that log, whatever is in the second growth.
fn expect_one_with_garbage(alloc: Global, bytes: &[u8]) -> Result<(), Fail> {
    for (i, garbage) in GARBAGE.iter().enumerate() {
        expect_frames(count_with(alloc, bytes, garbage)?, 1, i as u64)?;
    }
    Ok(())
}

#[test]
fn what_a_growth_leaves_is_not_read(rt: HostRuntime) -> Result<(), Fail> {
    let alloc = rt.alloc();
    let file = file_after(alloc, 0, &TWICE)?;
    expect_at(file.bytes().len() == 8210, "8,210 bytes long", 0)?;
    expect_one_of_cut(alloc, file.bytes())?;
    expect_one_with_garbage(alloc, file.bytes())
}
