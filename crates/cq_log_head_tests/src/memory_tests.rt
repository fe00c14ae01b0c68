//! Heads that are made, written and read although memory is refused: what is refused for it is done again.
use cq_log_head::{HeadFault, decode, encode};
use std::alloc::Global;
use std::test::Fail;

/// How often a call is made that is out of memory.
const TRIES: u32 = 16;

/// The head of a log that goes on from a queue in which no cycle has begun.
static WHOLE: &[u8] =
    b"Linnetshelf queue.log\n\x01\0\0\0\x01\0\0\0\0\0\0\0\0\0\0\0\0\x4A\0\0\0\0\0\0\0cq 2\nroll daily\nepoch 0\ncells 64\ncount 8\nspacing 1\ncycles 4\nname reader 0\n";

/// Reads the head of a frame, and writes it again.
fn written_again(alloc: Global, frame: &[u8]) -> Result<Vec<u8>, HeadFault> {
    let head = decode(alloc, frame)?;
    Ok(encode(alloc, &head)?)
}

#[test]
fn a_head_is_written_as_a_whole_or_not_at_all(rt: HostRuntime) -> Result<(), Fail> {
    for _ in 0..TRIES {
        match written_again(rt.alloc(), WHOLE) {
            Err(HeadFault::OutOfMemory) => {}
            Err(fault) => return Err(Fail::from(fault)),
            Ok(frame) => {
                assert_eq!(rt; frame.as_slice(), WHOLE);
                return Ok(());
            }
        }
    }
    Err(Fail::from(HeadFault::OutOfMemory))
}
