//! Logs whose end is torn: what they give is what a beginning of their turns gives.
use crate::images::EMPTY;
use crate::logs::{Frame, Line, waiting_log};
use crate::played::played_text;
use std::alloc::Global;
use std::test::Fail;

/// A head and three turns, of which the last one waits. The blocks end at 126, 143 and 154, and the last one would at 165.
static FRAMES: [Frame; 4] = [
    Frame::Head(EMPTY),
    Frame::Turn(&[Line::Cycle(7), Line::Message("ab")]),
    Frame::Turn(&[Line::Message("c")]),
    Frame::Turn(&[Line::Message("d")]),
];

/// Where the gate of the turn is that waits.
const GATE: usize = 154;

/// Where the blocks end, and the gate after them. Zeros follow.
const END: usize = 166;

/// What is given of the stored turns.
const STORED: &str = "7[ab;c;] at [0], 2 turns, to 154";

/// What is given once the gate of the last turn is open.
const WHOLE: &str = "7[ab;c;d;] at [0], 3 turns, to 165";

/// Returns what the first bytes of the log give.
fn given_by(end: usize) -> &'static str {
    match end {
        0..126 => "at [0], 0 turns, to 0",
        126..143 => "at [0], 0 turns, to 126",
        143..154 => "7[ab;] at [0], 1 turns, to 143",
        _ => STORED,
    }
}

#[test]
fn a_log_that_is_cut_anywhere_gives_a_beginning(rt: HostRuntime) -> Result<(), Fail> {
    let alloc = rt.alloc();
    let log = waiting_log(alloc, &FRAMES)?;
    assert!(rt; log.len() > END);
    for end in 0..=END {
        assert_eq!(rt;
            played_text(alloc, EMPTY, &log[..end])?.as_str(),
            given_by(end),
            "at {end}"
        );
    }
    assert_eq!(rt; played_text(alloc, EMPTY, &log)?.as_str(), STORED);
    Ok(())
}

/// Returns what the log gives if this byte is at this place.
fn changed_text(alloc: Global, log: &[u8], place: usize, byte: u8) -> Result<String, Fail> {
    let mut changed = log.to_vec(alloc)?;
    if let Some(old) = changed.get_mut(place) {
        *old = byte;
    }
    played_text(alloc, EMPTY, &changed)
}

#[test]
fn only_a_gate_of_1_opens_a_turn(rt: HostRuntime) -> Result<(), Fail> {
    let alloc = rt.alloc();
    let log = waiting_log(alloc, &FRAMES)?;
    for byte in 0..=255u8 {
        let wanted = if byte == 1 { WHOLE } else { STORED };
        assert_eq!(rt;
            changed_text(alloc, &log, GATE, byte)?.as_str(),
            wanted,
            "of {byte}"
        );
    }
    Ok(())
}

/// Bytes that a crash may leave after a closed gate.
static BYTES: [u8; 4] = [0, 1, 2, 255];

#[test]
fn what_comes_after_a_closed_gate_is_not_looked_at(rt: HostRuntime) -> Result<(), Fail> {
    let alloc = rt.alloc();
    let log = waiting_log(alloc, &FRAMES)?;
    for place in GATE + 1..END + 8 {
        for &byte in &BYTES {
            assert_eq!(rt;
                changed_text(alloc, &log, place, byte)?.as_str(),
                STORED,
                "{byte} at {place}"
            );
        }
    }
    Ok(())
}
