//! Notes that are played, and those that cannot be.
use cq_model::{Contents, Items};
use cq_notes::{Note, PlayFault, play};
use std::alloc::{AllocError, Global};
use std::test::Fail;

/// A note, as the rows have it.
#[derive(Clone, Copy)]
enum Line {
    Cycle(u32),
    Message(&'static str),
    Name(u32, u64),
    Floor(u32),
}

/// Returns a note.
fn note_of(alloc: Global, line: Line) -> Result<Note, AllocError> {
    Ok(match line {
        Line::Cycle(cycle) => Note::CycleBegan(cycle),
        Line::Message(text) => Note::MessageCame(Items::new(text.as_bytes().to_vec(alloc)?)),
        Line::Name(name, position) => Note::NameMoved { name, position },
        Line::Floor(floor) => Note::FloorMoved(floor),
    })
}

/// Returns these notes.
fn notes_of(alloc: Global, lines: &[Line]) -> Result<Vec<Note>, AllocError> {
    let mut notes = Vec::new(alloc);
    for &line in lines {
        notes.push(note_of(alloc, line)?)?;
    }
    Ok(notes)
}

/// Returns what a queue holds with two names, in which no cycle has begun.
fn unread(alloc: Global) -> Result<Contents, AllocError> {
    let mut positions = Vec::new(alloc);
    positions.push(0)?;
    positions.push(0)?;
    Ok(Contents {
        lists: Items::new(Vec::new(alloc)),
        positions: Items::new(positions),
        floor: 0,
    })
}

/// Returns contents as text.
fn contents_text(alloc: Global, contents: &Contents) -> Result<String, AllocError> {
    let mut text = String::new(alloc);
    for list in contents.lists.as_slice() {
        write!(text, "{}:", list.cycle)?;
        for message in list.messages.as_slice() {
            text.push(' ')?;
            for &byte in message.as_slice() {
                text.push(char::from(byte))?;
            }
        }
        text.push_str("; ")?;
    }
    for position in contents.positions.as_slice() {
        write!(text, "at {position:x}, ")?;
    }
    write!(text, "floor {}", contents.floor)?;
    Ok(text)
}

/// Frames of notes, and what a queue with two names holds after them, or what is at fault.
static ROWS: [(&[&[Line]], &str); 26] = [
    (&[], "at 0, at 0, floor 0"),
    (&[&[], &[]], "at 0, at 0, floor 0"),
    (&[&[Line::Cycle(7)]], "7:; at 0, at 0, floor 0"),
    (&[&[Line::Cycle(0)]], "0:; at 0, at 0, floor 0"),
    (
        &[&[Line::Cycle(7), Line::Cycle(9)]],
        "7:; 9:; at 0, at 0, floor 0",
    ),
    (
        &[&[
            Line::Cycle(7),
            Line::Message("ab"),
            Line::Message("c"),
            Line::Cycle(9),
            Line::Message("ab"),
        ]],
        "7: ab c; 9: ab; at 0, at 0, floor 0",
    ),
    (
        &[
            &[Line::Cycle(7), Line::Message("ab")],
            &[Line::Message("c")],
            &[Line::Message("ab"), Line::Cycle(8)],
        ],
        "7: ab c ab; 8:; at 0, at 0, floor 0",
    ),
    // A name moves up to the end, and back.
    (
        &[&[
            Line::Cycle(7),
            Line::Message("ab"),
            Line::Name(1, 0x7_0000_0001),
            Line::Name(0, 0x5_FFFF_FFFF),
        ]],
        "7: ab; at 5ffffffff, at 700000001, floor 0",
    ),
    (
        &[
            &[Line::Cycle(7), Line::Name(1, 0x7_0000_0000)],
            &[Line::Name(1, 3)],
        ],
        "7:; at 0, at 3, floor 0",
    ),
    (
        &[&[Line::Cycle(u32::MAX), Line::Name(0, 0xFFFF_FFFF_0000_0000)]],
        "4294967295:; at ffffffff00000000, at 0, floor 0",
    ),
    (
        &[&[Line::Name(0, 0), Line::Floor(0)]],
        "at 0, at 0, floor 0",
    ),
    // The floor rises up to the last cycle.
    (
        &[&[
            Line::Cycle(7),
            Line::Floor(3),
            Line::Floor(7),
            Line::Floor(7),
        ]],
        "7:; at 0, at 0, floor 7",
    ),
    (
        &[&[Line::Cycle(7), Line::Cycle(9), Line::Floor(9)]],
        "7:; 9:; at 0, at 0, floor 9",
    ),
    // What cannot be played.
    (
        &[&[Line::Message("ab")]],
        "note 0 has a message before the first cycle",
    ),
    (
        &[&[Line::Cycle(7), Line::Cycle(7)]],
        "note 1 has a cycle that is not above the last one",
    ),
    (
        &[&[Line::Cycle(7), Line::Cycle(9), Line::Cycle(8)]],
        "note 2 has a cycle that is not above the last one",
    ),
    // The same frame twice.
    (
        &[
            &[Line::Cycle(7), Line::Message("ab")],
            &[Line::Cycle(7), Line::Message("ab")],
        ],
        "note 0 has a cycle that is not above the last one",
    ),
    (
        &[&[Line::Cycle(7), Line::Name(2, 0)]],
        "note 1 has a name that is not declared",
    ),
    // The name is tested before the position.
    (
        &[&[Line::Name(u32::MAX, u64::MAX)]],
        "note 0 has a name that is not declared",
    ),
    (
        &[&[Line::Name(0, 1)]],
        "note 0 has a position past the end of the queue",
    ),
    (
        &[&[
            Line::Cycle(7),
            Line::Message("ab"),
            Line::Name(0, 0x7_0000_0002),
        ]],
        "note 2 has a position past the end of the queue",
    ),
    (
        &[&[Line::Cycle(u32::MAX), Line::Name(1, u64::MAX)]],
        "note 1 has a position past the end of the queue",
    ),
    (
        &[&[Line::Cycle(7), Line::Floor(7), Line::Floor(6)]],
        "note 2 has a floor below the floor before",
    ),
    (
        &[&[Line::Cycle(7), Line::Floor(8)]],
        "note 1 has a floor above the last cycle",
    ),
    (
        &[&[Line::Floor(1)]],
        "note 0 has a floor above the last cycle",
    ),
    // The first fault counts.
    (
        &[&[Line::Cycle(7), Line::Floor(8), Line::Cycle(7)]],
        "note 1 has a floor above the last cycle",
    ),
];

/// Plays these frames, one after another.
fn after_frames(alloc: Global, frames: &[&[Line]]) -> Result<Contents, PlayFault> {
    let mut held = unread(alloc)?;
    for lines in frames {
        held = play(alloc, held, notes_of(alloc, lines)?)?;
    }
    Ok(held)
}

/// Returns what a queue holds after these frames, or what is at fault, as text.
fn played_text(alloc: Global, frames: &[&[Line]]) -> Result<String, PlayFault> {
    Ok(match after_frames(alloc, frames) {
        Ok(held) => contents_text(alloc, &held)?,
        Err(PlayFault::OutOfMemory) => return Err(PlayFault::OutOfMemory),
        Err(fault) => format!(in alloc; "{fault}")?,
    })
}

#[test]
fn frames_are_played(rt: HostRuntime) -> Result<(), Fail> {
    let alloc = rt.alloc();
    for (i, (frames, wanted)) in ROWS.iter().enumerate() {
        assert_eq!(rt; played_text(alloc, frames)?.as_str(), *wanted, "at {i}");
    }
    Ok(())
}

/// How often frames are played where memory is refused.
const TRIES: u32 = 8;

#[test]
fn frames_are_played_as_a_whole_or_not_at_all(rt: HostRuntime) -> Result<(), Fail> {
    let alloc = rt.alloc();
    let (frames, wanted) = ROWS[6];
    for _ in 0..TRIES {
        match played_text(alloc, frames) {
            Err(PlayFault::OutOfMemory) => {}
            Err(fault) => return Err(Fail::from(fault)),
            Ok(text) => {
                assert_eq!(rt; text.as_str(), wanted);
                return Ok(());
            }
        }
    }
    Err(Fail::from(PlayFault::OutOfMemory))
}
