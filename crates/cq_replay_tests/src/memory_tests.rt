//! Logs that are played although memory is refused: the call that is refused for it is made again, with the same log.
use crate::images::{USED, can_begin, config, held_in};
use crate::logs::{Frame, Line, settled_log};
use crate::played::answer_text;
use cq_replay::{ReplayFault, Replayed, replay};
use std::alloc::Global;
use std::test::Fail;

/// How often a log is played where memory is refused.
const TRIES: u32 = 16;

/// Plays a log on the images of a queue, whatever memory is refused to it.
fn played_at_last(alloc: Global, log: &[u8]) -> Result<Result<Replayed, ReplayFault>, Fail> {
    let config = config(alloc)?;
    for _ in 0..TRIES {
        let contents = held_in(alloc, USED)?;
        if !can_begin(&config, &contents) {
            return Err(Fail::new(format_args!("no images")));
        }
        match replay(alloc, &config, contents, log) {
            Err(ReplayFault::OutOfMemory) => {}
            answer => return Ok(answer),
        }
    }
    Err(Fail::from(ReplayFault::OutOfMemory))
}

/// Frames of a log, and what it gives.
static ROWS: [(&[Frame], &str); 2] = [
    (
        &[
            Frame::Head(USED),
            Frame::Turn(&[Line::Message("e"), Line::Cycle(8)]),
            Frame::Turn(&[Line::Message("f"), Line::Floor(8)]),
        ],
        "5[ab;c;] 7[d;e;] 8[f;] at [21474836481] floor 8, 2 turns, to 176",
    ),
    (
        &[
            Frame::Head(USED),
            Frame::Turn(&[Line::Message("e")]),
            Frame::Turn(&[Line::Floor(8)]),
        ],
        "frame 2 of the log: note 0 has a floor above the last cycle: keep the log, and move it away to open the images alone",
    ),
];

#[test]
fn a_log_is_played_as_a_whole_or_not_at_all(rt: HostRuntime) -> Result<(), Fail> {
    let alloc = rt.alloc();
    for (i, (frames, wanted)) in ROWS.iter().enumerate() {
        let log = settled_log(alloc, frames)?;
        let answer = played_at_last(alloc, &log)?;
        assert_eq!(rt; answer_text(alloc, &answer)?.as_str(), *wanted, "at {i}");
    }
    Ok(())
}
