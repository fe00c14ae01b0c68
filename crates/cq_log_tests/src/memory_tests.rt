//! Frames that are read although memory is refused: the call that is refused for it is made again.
use crate::expecting::expect_at;
use cq_log::{Frames, read_frames};
use std::alloc::{AllocError, Global};
use std::test::Fail;

/// How often a call is made that is out of memory.
const TRIES: u32 = 8;

/// The frames `ab`, none and `c`.
static LOG: [u8; 19] = [1, 2, 0, 0, 0, 97, 98, 1, 0, 0, 0, 0, 1, 1, 0, 0, 0, 99, 0];

/// Reads frames, with another try where memory is refused.
fn read_again(alloc: Global, bytes: &[u8]) -> Result<Frames, AllocError> {
    for _ in 0..TRIES {
        if let Ok(frames) = read_frames(alloc, bytes) {
            return Ok(frames);
        }
    }
    read_frames(alloc, bytes)
}

/// Returns whether frames are those of that log.
fn are_those(frames: &[Vec<u8>]) -> bool {
    match frames {
        [first, second, third] => {
            first.as_slice() == b"ab".as_slice()
                && second.is_empty()
                && third.as_slice() == b"c".as_slice()
        }
        _ => false,
    }
}

#[test]
fn frames_are_all_read_or_none(rt: HostRuntime) -> Result<(), Fail> {
    let Frames { frames, end } = read_again(rt.alloc(), &LOG)?;
    expect_at(are_those(&frames), "all frames", 0)?;
    expect_at(end == 18, "the end of the blocks", end as u64)
}
