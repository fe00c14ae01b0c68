//! What is read of the file of a log.
use cq_fixtures::{contents_of, contents_text};
use cq_log::read_frames;
use cq_notes::{decode, play};
use std::alloc::Global;
use std::test::Fail;

/// Returns what the frames in these bytes give, one after another, as text, and their number.
pub fn read_text(alloc: Global, bytes: &[u8]) -> Result<(String, usize), Fail> {
    let frames = read_frames(alloc, bytes)?.frames;
    let count = frames.len();
    let mut held = contents_of(alloc, &[], &[0])?;
    for frame in &frames {
        held = play(alloc, held, decode(alloc, frame)?)?;
    }
    Ok((contents_text(alloc, &held)?, count))
}
