//! What a log gives, as text.
use crate::images::{Images, can_begin, config, held_in};
use cq_fixtures::contents_text;
use cq_model::Contents;
use cq_replay::{ReplayFault, Replayed, replay};
use std::alloc::Global;
use std::test::Fail;

/// Plays a log on what images hold. What is at fault in the log is inside; other errors are outside.
pub fn played_on(
    alloc: Global,
    contents: Contents,
    log: &[u8],
) -> Result<Result<Replayed, ReplayFault>, Fail> {
    let config = config(alloc)?;
    if !can_begin(&config, &contents) {
        return Err(Fail::new(format_args!("no images")));
    }
    match replay(alloc, &config, contents, log) {
        Err(ReplayFault::OutOfMemory) => Err(Fail::from(ReplayFault::OutOfMemory)),
        answer => Ok(answer),
    }
}

/// Returns what a log gives as text: the contents, the number of turns and where reading stopped; or why it is not played.
pub fn answer_text(alloc: Global, answer: &Result<Replayed, ReplayFault>) -> Result<String, Fail> {
    match answer {
        Ok(found) => {
            let mut text = contents_text(alloc, &found.contents)?;
            write!(text, ", {} turns, to {}", found.turns, found.end)?;
            Ok(text)
        }
        Err(fault) => Ok(format!(in alloc; "{fault}")?),
    }
}

/// Plays a log on images, and returns what it gives as text.
pub fn played_text(alloc: Global, images: Images, log: &[u8]) -> Result<String, Fail> {
    answer_text(alloc, &played_on(alloc, held_in(alloc, images)?, log)?)
}
