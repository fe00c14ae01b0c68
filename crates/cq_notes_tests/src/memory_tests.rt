//! Notes that are written and read although memory is refused: the call that is refused for it is made again.
use cq_notes::{NoteFault, decode, encode};
use std::alloc::Global;
use std::test::Fail;

/// How often a call is made that is out of memory.
const TRIES: u32 = 8;

/// A frame of a cycle, two messages, a name and a floor.
static FRAME: [u8; 36] = [
    1, 1, 0, 0, 0, 2, 2, 0, 0, 0, 104, 105, 2, 1, 0, 0, 0, 106, 3, 0, 0, 0, 0, 1, 0, 0, 0, 0, 0, 0,
    0, 4, 1, 0, 0, 0,
];

/// Reads the notes of a frame, and writes them again.
fn written_again(alloc: Global, frame: &[u8]) -> Result<Vec<u8>, NoteFault> {
    let notes = decode(alloc, frame)?;
    Ok(encode(alloc, &notes)?)
}

/// Does so, with another try where memory is refused.
fn written_at_last(alloc: Global, frame: &[u8]) -> Result<Vec<u8>, NoteFault> {
    for _ in 0..TRIES {
        match written_again(alloc, frame) {
            Err(NoteFault::OutOfMemory) => {}
            answer => return answer,
        }
    }
    Err(NoteFault::OutOfMemory)
}

#[test]
fn notes_are_all_written_or_none(rt: HostRuntime) -> Result<(), Fail> {
    let frame = written_at_last(rt.alloc(), &FRAME)?;
    assert_eq!(rt; frame.as_slice(), FRAME.as_slice());
    Ok(())
}
