//! Logs that are played.
use crate::images::{EMPTY, Images, USED, held_in};
use crate::logs::{Frame, Line, settled_log};
use crate::played::{answer_text, played_on, played_text};
use std::test::Fail;

/// Images, the frames of a log, and what it gives. A block has 5 bytes before its frame.
static ROWS: [(Images, &[Frame], &str); 11] = [
    // The making of the log was cut short.
    (EMPTY, &[], "at [0], 0 turns, to 0"),
    (
        USED,
        &[],
        "5[ab;c;] 7[d;] at [21474836481] floor 5, 0 turns, to 0",
    ),
    (EMPTY, &[Frame::Head(EMPTY)], "at [0], 0 turns, to 126"),
    (
        USED,
        &[Frame::Head(USED)],
        "5[ab;c;] 7[d;] at [21474836481] floor 5, 0 turns, to 144",
    ),
    // A turn without notes is a turn.
    (
        EMPTY,
        &[Frame::Head(EMPTY), Frame::Turn(&[]), Frame::Turn(&[])],
        "at [0], 2 turns, to 136",
    ),
    (
        EMPTY,
        &[
            Frame::Head(EMPTY),
            Frame::Turn(&[Line::Cycle(7), Line::Message("ab")]),
        ],
        "7[ab;] at [0], 1 turns, to 143",
    ),
    (
        EMPTY,
        &[
            Frame::Head(EMPTY),
            Frame::Turn(&[Line::Cycle(7), Line::Message("ab")]),
            Frame::Turn(&[
                Line::Message("c"),
                Line::Name(0, 0x7_0000_0001),
                Line::Floor(7),
            ]),
        ],
        "7[ab;c;] at [30064771073] floor 7, 2 turns, to 172",
    ),
    (
        USED,
        &[
            Frame::Head(USED),
            Frame::Turn(&[Line::Message("e")]),
            Frame::Turn(&[Line::Cycle(9), Line::Message("f")]),
            Frame::Turn(&[Line::Floor(7)]),
        ],
        "5[ab;c;] 7[d;e;] 9[f;] at [21474836481] floor 7, 3 turns, to 181",
    ),
    // The same notes twice are two turns.
    (
        USED,
        &[
            Frame::Head(USED),
            Frame::Turn(&[Line::Message("e")]),
            Frame::Turn(&[Line::Message("e")]),
        ],
        "5[ab;c;] 7[d;e;e;] at [21474836481] floor 5, 2 turns, to 166",
    ),
    // The last move of a name counts.
    (
        USED,
        &[
            Frame::Head(USED),
            Frame::Turn(&[Line::Name(0, 0x7_0000_0001)]),
            Frame::Turn(&[Line::Name(0, 0x7_0000_0000)]),
        ],
        "5[ab;c;] 7[d;] at [30064771072] floor 5, 2 turns, to 180",
    ),
    // Of two queues with equal settings, ends, floors and positions each takes the log of the other.
    (
        Images {
            cycles: &[(5, &["x"]), (7, &["y"])],
            ..USED
        },
        &[Frame::Head(USED), Frame::Turn(&[Line::Message("e")])],
        "5[x;] 7[y;e;] at [21474836481] floor 5, 1 turns, to 155",
    ),
];

#[test]
fn logs_give_what_was_kept(rt: HostRuntime) -> Result<(), Fail> {
    let alloc = rt.alloc();
    for (i, (images, frames, wanted)) in ROWS.iter().enumerate() {
        let log = settled_log(alloc, frames)?;
        assert_eq!(rt;
            played_text(alloc, *images, &log)?.as_str(),
            *wanted,
            "at {i}"
        );
    }
    Ok(())
}

/// Images, the turns of a log that goes on from them, and why the log does not fit what it gave.
static TWICE: [(Images, &[Line], &str); 5] = [
    (
        EMPTY,
        &[Line::Cycle(7)],
        "the log goes on from more or fewer cycles",
    ),
    (
        USED,
        &[Line::Cycle(8), Line::Message("e")],
        "the log goes on from more or fewer cycles",
    ),
    (
        USED,
        &[Line::Message("e")],
        "the log goes on from another end",
    ),
    (
        USED,
        &[Line::Floor(7)],
        "the log goes on from another floor",
    ),
    (
        USED,
        &[Line::Name(0, 0x7_0000_0001)],
        "the log goes on from other positions",
    ),
];

#[test]
fn a_log_is_not_played_twice(rt: HostRuntime) -> Result<(), Fail> {
    let alloc = rt.alloc();
    for (i, (images, lines, wanted)) in TWICE.iter().enumerate() {
        let log = settled_log(alloc, &[Frame::Head(*images), Frame::Turn(lines)])?;
        let once = played_on(alloc, held_in(alloc, *images)?, &log)??;
        assert_eq!(rt; once.turns, 1, "at {i}");
        let twice = answer_text(alloc, &played_on(alloc, once.contents, &log)?)?;
        assert!(rt; twice.starts_with(wanted), "at {i}: {twice}");
    }
    Ok(())
}

/// The block of a turn with the message `m`.
static BLOCK: &[u8] = b"\x01\x06\0\0\0\x02\x01\0\0\0m";

#[test]
fn a_thousand_turns_are_played(rt: HostRuntime) -> Result<(), Fail> {
    let alloc = rt.alloc();
    let first = [Frame::Head(EMPTY), Frame::Turn(&[Line::Cycle(7)])];
    let mut log = settled_log(alloc, &first)?;
    // The closed gate after the blocks, and the zeros after it.
    log.truncate(126 + 10);
    for _ in 1..1000 {
        log.extend_from_slice(BLOCK)?;
    }
    let found = played_on(alloc, held_in(alloc, EMPTY)?, &log)??;
    assert_eq!(rt; (found.turns, found.end), (1000, 126 + 10 + 999 * 11));
    let lists = found.contents.lists.as_slice();
    assert_eq!(rt; lists.len(), 1);
    for list in lists {
        assert_eq!(rt; list.messages.as_slice().len(), 999);
    }
    Ok(())
}
