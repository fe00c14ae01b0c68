//! The frames that are read out of bytes, and where reading stops.
use crate::expecting::expect_text_at;
use cq_log::{Frames, read_frames};
use std::alloc::{AllocError, Global};
use std::test::Fail;

/// Returns the frames of these bytes as text, a `|` after each, and then the offset at which reading stopped.
fn frames_text(alloc: Global, bytes: &[u8]) -> Result<String, AllocError> {
    let Frames { frames, end } = read_frames(alloc, bytes)?;
    let mut text = String::new(alloc);
    for frame in &frames {
        for &byte in frame {
            text.push(char::from(byte))?;
        }
        text.push('|')?;
    }
    write!(text, "{end}")?;
    Ok(text)
}

/// Fails unless these bytes have these frames.
fn expect_read(alloc: Global, bytes: &[u8], want: &str, place: u64) -> Result<(), Fail> {
    let text = frames_text(alloc, bytes)?;
    expect_text_at(text.as_str(), want, place)
}

/// Bytes, and their frames.
static FRAMES: [(&[u8], &str); 11] = [
    (&[], "0"),
    (&[0], "0"),
    (&[1, 2, 0, 0, 0, 97, 98], "ab|7"),
    (&[1, 2, 0, 0, 0, 97, 98, 0, 1, 0, 0, 0, 99, 0], "ab|7"),
    (&[1, 2, 0, 0, 0, 97, 98, 2, 1, 0, 0, 0, 99, 0], "ab|7"),
    (&[1, 2, 0, 0, 0, 97, 98, 1, 1, 0, 0, 0, 99, 0], "ab|c|13"),
    (&[1, 0, 0, 0, 0, 1, 1, 0, 0, 0, 99], "|c|11"),
    (&[1, 1, 0, 0, 0, 97, 1, 3, 0, 0, 0, 98, 99], "a|6"),
    (&[1, 3, 0, 0, 0, 97, 98], "0"),
    (&[1, 1, 1, 0, 0, 97, 98], "0"),
    (&[1, 1, 0, 0, 1, 97, 98], "0"),
];

#[test]
fn bytes_have_these_frames(rt: HostRuntime) -> Result<(), Fail> {
    for (i, (bytes, frames)) in FRAMES.iter().enumerate() {
        expect_read(rt.alloc(), bytes, frames, i as u64)?;
    }
    Ok(())
}

/// The frames `ab`, none and `xyz`, and a closed gate.
static LOG: [u8; 21] = [
    1, 2, 0, 0, 0, 97, 98, 1, 0, 0, 0, 0, 1, 3, 0, 0, 0, 120, 121, 122, 0,
];

/// Returns the frames of the first bytes of that log, and where their blocks end.
fn frames_before(end: usize) -> &'static str {
    match end {
        0..7 => "0",
        7..12 => "ab|7",
        12..20 => "ab||12",
        _ => "ab||xyz|20",
    }
}

#[test]
fn logs_are_read_that_are_cut_anywhere(rt: HostRuntime) -> Result<(), Fail> {
    for end in 0..=LOG.len() {
        expect_read(rt.alloc(), &LOG[..end], frames_before(end), end as u64)?;
    }
    Ok(())
}

#[test]
fn a_gate_is_open_only_as_1(rt: HostRuntime) -> Result<(), Fail> {
    for gate in 0..=255u8 {
        let want = if gate == 1 { "a|6" } else { "0" };
        expect_read(rt.alloc(), &[gate, 1, 0, 0, 0, 97], want, gate.into())?;
    }
    Ok(())
}
