//! Logs that are not played, and why.
use crate::images::{EMPTY, Images, USED};
use crate::logs::{Frame, Line, settled_log};
use crate::played::played_text;
use std::test::Fail;

/// A turn that begins cycle 9 with a message.
const TURN: Frame = Frame::Turn(&[Line::Cycle(9), Line::Message("e")]);

/// Images, the frames of a log, and why it is not played.
static FAULTS: [(Images, &[Frame], &str); 22] = [
    // The first frame is no head.
    (
        EMPTY,
        &[Frame::Bytes(b"")],
        "the file is no log of a queue: read the log with the version that wrote it, or move it away to open the images alone",
    ),
    (
        EMPTY,
        &[TURN, Frame::Head(EMPTY)],
        "the file is no log of a queue: read the log with the version that wrote it, or move it away to open the images alone",
    ),
    (
        EMPTY,
        &[Frame::Bytes(b"Linnetshelf queue.log\n\x02\0\0\0")],
        "a log of version 2: read the log with the version that wrote it, or move it away to open the images alone",
    ),
    (
        EMPTY,
        &[Frame::Bytes(b"Linnetshelf queue.log\n\x01\0\0\0\x03")],
        "a log that is written in way 3: read the log with the version that wrote it, or move it away to open the images alone",
    ),
    (
        EMPTY,
        &[
            Frame::Bytes(b"Linnetshelf queue.log\n\x01\0\0\0\x01\0"),
            TURN,
        ],
        "the head of the log is cut short: read the log with the version that wrote it, or move it away to open the images alone",
    ),
    // The log goes on from something else. That is tested before the turns.
    (
        EMPTY,
        &[Frame::Bytes(
            b"Linnetshelf queue.log\n\x01\0\0\0\x01\0\0\0\0\0\0\0\0\0\0\0\0\x4A\0\0\0\0\0\0\0cq 2\nroll daily\nepoch 0\ncells 64\ncount 8\nspacing 1\ncycles 5\nname reader 0\n",
        )],
        "the log is of a queue with other settings: put back the images that the log goes on from, or move the log away if the images have its turns already",
    ),
    (
        EMPTY,
        &[Frame::Head(USED), TURN],
        "the log goes on from more or fewer cycles: put back the images that the log goes on from, or move the log away if the images have its turns already",
    ),
    (
        USED,
        &[Frame::Head(EMPTY), Frame::Bytes(b"\x05")],
        "the log goes on from more or fewer cycles: put back the images that the log goes on from, or move the log away if the images have its turns already",
    ),
    (
        Images {
            cycles: &[(5, &["ab", "c"]), (7, &["d", "e"])],
            ..USED
        },
        &[Frame::Head(USED), Frame::Turn(&[Line::Message("e")])],
        "the log goes on from another end: put back the images that the log goes on from, or move the log away if the images have its turns already",
    ),
    (
        Images { floor: 6, ..USED },
        &[Frame::Head(USED)],
        "the log goes on from another floor: put back the images that the log goes on from, or move the log away if the images have its turns already",
    ),
    (
        Images {
            position: 21_474_836_480,
            ..USED
        },
        &[Frame::Head(USED)],
        "the log goes on from other positions: put back the images that the log goes on from, or move the log away if the images have its turns already",
    ),
    // A later frame is not one of notes.
    (
        USED,
        &[Frame::Head(USED), Frame::Bytes(b"\x05")],
        "frame 1 of the log: a note of an unknown kind: keep the log, and move it away to open the images alone",
    ),
    (
        USED,
        &[Frame::Head(USED), Frame::Head(USED)],
        "frame 1 of the log: a note of an unknown kind: keep the log, and move it away to open the images alone",
    ),
    (
        USED,
        &[Frame::Head(USED), TURN, Frame::Bytes(b"\x01\x0A\0\0")],
        "frame 2 of the log: the frame ends in the middle of a note: keep the log, and move it away to open the images alone",
    ),
    (
        USED,
        &[
            Frame::Head(USED),
            TURN,
            Frame::Turn(&[]),
            Frame::Bytes(b"\x01\x0A\0\0\0\x02\0\0\0\0"),
            Frame::Turn(&[Line::Message("f")]),
        ],
        "frame 3 of the log: the length of a message is 0 or above 2^30 - 1: keep the log, and move it away to open the images alone",
    ),
    // A note cannot be played.
    (
        USED,
        &[Frame::Head(USED), Frame::Turn(&[Line::Cycle(7)])],
        "frame 1 of the log: note 0 has a cycle that is not above the last one: keep the log, and move it away to open the images alone",
    ),
    (
        USED,
        &[Frame::Head(USED), TURN, TURN],
        "frame 2 of the log: note 0 has a cycle that is not above the last one: keep the log, and move it away to open the images alone",
    ),
    (
        EMPTY,
        &[Frame::Head(EMPTY), Frame::Turn(&[Line::Message("e")]), TURN],
        "frame 1 of the log: note 0 has a message before the first cycle: keep the log, and move it away to open the images alone",
    ),
    (
        EMPTY,
        &[
            Frame::Head(EMPTY),
            TURN,
            Frame::Turn(&[Line::Floor(9), Line::Name(1, 0)]),
        ],
        "frame 2 of the log: note 1 has a name that is not declared: keep the log, and move it away to open the images alone",
    ),
    (
        USED,
        &[
            Frame::Head(USED),
            Frame::Turn(&[Line::Floor(7), Line::Floor(6)]),
        ],
        "frame 1 of the log: note 1 has a floor below the floor before: keep the log, and move it away to open the images alone",
    ),
    // The first frame that is at fault counts, and in one frame the bytes count before what they say.
    (
        USED,
        &[
            Frame::Head(USED),
            Frame::Turn(&[Line::Floor(8)]),
            Frame::Bytes(b"\x05"),
        ],
        "frame 1 of the log: note 0 has a floor above the last cycle: keep the log, and move it away to open the images alone",
    ),
    (
        USED,
        &[Frame::Head(USED), Frame::Bytes(b"\x04\x08\0\0\0\x05")],
        "frame 1 of the log: a note of an unknown kind: keep the log, and move it away to open the images alone",
    ),
];

#[test]
fn logs_at_fault_are_not_played(rt: HostRuntime) -> Result<(), Fail> {
    let alloc = rt.alloc();
    for (i, (images, frames, wanted)) in FAULTS.iter().enumerate() {
        let log = settled_log(alloc, frames)?;
        assert_eq!(rt;
            played_text(alloc, *images, &log)?.as_str(),
            *wanted,
            "at {i}"
        );
    }
    Ok(())
}
