//! Frames, their notes, and what is at fault in them.
use cq_notes::{Note, NoteFault, decode, encode};
use std::alloc::{AllocError, Global};
use std::test::Fail;

/// Returns notes as text.
fn notes_text(alloc: Global, notes: &[Note]) -> Result<String, AllocError> {
    let mut text = String::new(alloc);
    for note in notes {
        match note {
            Note::CycleBegan(cycle) => write!(text, "cycle {cycle}, ")?,
            Note::MessageCame(message) => {
                for &byte in message.as_slice() {
                    text.push(char::from(byte))?;
                }
                text.push_str(", ")?;
            }
            Note::NameMoved { name, position } => write!(text, "name {name} at {position}, ")?,
            Note::FloorMoved(floor) => write!(text, "floor {floor}, ")?,
        }
    }
    Ok(text)
}

/// Frames, and their notes.
static FRAMES: [(&[u8], &str); 7] = [
    (&[], ""),
    (&[1, 0x67, 0x4E, 0, 0], "cycle 20071, "),
    (&[1, 1, 0, 0, 0, 1, 2, 0, 0, 0], "cycle 1, cycle 2, "),
    (&[2, 1, 0, 0, 0, 97], "a, "),
    (
        &[3, 2, 0, 0, 0, 5, 0, 0, 0, 1, 0, 0, 0],
        "name 2 at 4294967301, ",
    ),
    (&[4, 255, 255, 255, 127], "floor 2147483647, "),
    (
        &[
            1, 0x67, 0x4E, 0, 0, 2, 2, 0, 0, 0, 104, 105, 3, 0, 0, 0, 0, 1, 0, 0, 0, 0x67, 0x4E, 0,
            0, 4, 0x67, 0x4E, 0, 0,
        ],
        "cycle 20071, hi, name 0 at 86204288598017, floor 20071, ",
    ),
];

#[test]
fn frames_have_these_notes(rt: HostRuntime) -> Result<(), Fail> {
    let alloc = rt.alloc();
    for (i, (frame, wanted)) in FRAMES.iter().enumerate() {
        let notes = decode(alloc, frame)?;
        assert_eq!(rt; notes_text(alloc, &notes)?.as_str(), *wanted, "at {i}");
        assert_eq!(rt; encode(alloc, &notes)?.as_slice(), *frame, "at {i}");
    }
    Ok(())
}

/// Frames, and what is at fault in them.
static FAULTS: [(&[u8], NoteFault); 12] = [
    (&[0], NoteFault::UnknownKind),
    (&[5, 0, 0, 0, 0], NoteFault::UnknownKind),
    (&[255], NoteFault::UnknownKind),
    (&[1, 0, 0, 0], NoteFault::CutShort),
    (&[1, 0, 0, 0, 0, 0], NoteFault::UnknownKind),
    (&[1, 0, 0, 0, 0, 4], NoteFault::CutShort),
    (&[2, 0, 0, 0], NoteFault::CutShort),
    (&[2, 0, 0, 0, 0], NoteFault::BadLength),
    (&[2, 0, 0, 0, 64, 97], NoteFault::BadLength),
    (&[2, 255, 255, 255, 63, 97], NoteFault::CutShort),
    (&[2, 2, 0, 0, 0, 97], NoteFault::CutShort),
    (&[3, 0, 0, 0, 0, 0, 0, 0, 0, 0, 0, 0], NoteFault::CutShort),
];

#[test]
fn frames_have_these_faults(rt: HostRuntime) -> Result<(), Fail> {
    let alloc = rt.alloc();
    for (i, (frame, wanted)) in FAULTS.iter().enumerate() {
        match decode(alloc, frame) {
            Err(NoteFault::OutOfMemory) => return Err(Fail::from(NoteFault::OutOfMemory)),
            Err(fault) => assert_eq!(rt; fault, *wanted, "at {i}"),
            Ok(notes) => assert_eq!(rt; notes_text(alloc, &notes)?.as_str(), "a fault", "at {i}"),
        }
    }
    Ok(())
}

/// A frame of a cycle, a message of two bytes, a name and a floor.
static WHOLE: [u8; 30] = [
    1, 1, 0, 0, 0, 2, 2, 0, 0, 0, 104, 105, 3, 0, 0, 0, 0, 1, 0, 0, 0, 0, 0, 0, 0, 4, 1, 0, 0, 0,
];

#[test]
fn a_frame_that_is_cut_ends_between_notes_or_is_at_fault(rt: HostRuntime) -> Result<(), Fail> {
    let alloc = rt.alloc();
    for end in 0..=WHOLE.len() {
        let wanted = match end {
            0 => "",
            5 => "cycle 1, ",
            12 => "cycle 1, hi, ",
            25 => "cycle 1, hi, name 0 at 1, ",
            30 => "cycle 1, hi, name 0 at 1, floor 1, ",
            _ => "CutShort",
        };
        let found = match decode(alloc, &WHOLE[..end]) {
            Err(NoteFault::OutOfMemory) => return Err(Fail::from(NoteFault::OutOfMemory)),
            Err(fault) => format!(in alloc; "{fault:?}")?,
            Ok(notes) => notes_text(alloc, &notes)?,
        };
        assert_eq!(rt; found.as_str(), wanted, "at {end}");
    }
    Ok(())
}
