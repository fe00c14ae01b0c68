//! Queues with a log in a file in memory, and what a crash leaves of it.
ghost use Rattle.std.specs.Prelude.{IsTrue};
ghost use Rattle.cq_log_head.specs.Heads.{CanBegin};

use cq_cycle::LAST_CYCLE;
use cq_fixtures::{config_of, contents_of};
use cq_kept::{KeptQueue, Opened};
use cq_layout::Shape;
use cq_log_tests::{Change, Ruin, TornFile};
use cq_model::{Config, Contents};
use cq_replay::replay;
use cq_shown::are_lawful;
use cq_stored::StoredQueue;
use std::alloc::{AllocError, Global};
use std::test::Fail;

/// The settings of a queue with one cycle, which has room for a thousand small messages.
fn config(alloc: Global) -> Result<Config, Fail> {
    config_of(alloc, Shape::new(16_384, 64, 1)?, 1)
}

/// What it holds at first: cycle 0, without a message.
fn beginning(alloc: Global) -> Result<Contents, AllocError> {
    contents_of(alloc, &[(0, &[])], &[0])
}

/// Opens a queue with a log in a file in memory, of whose writes and syncs the one with this number fails.
pub(crate) fn opened(alloc: Global, failing: u64) -> Result<Opened<TornFile>, Fail> {
    let config = config(alloc)?;
    let contents = beginning(alloc)?;
    let device = TornFile::new(alloc, failing);
    match KeptQueue::open(alloc, config, &contents, device) {
        Ok(opened) => Ok(opened),
        Err(error) => Err(Fail::from(error.fault)),
    }
}

/// Returns whether a log can go on from this.
fn can_begin(config: &Config, contents: &Contents) -> bool
    ensures { IsTrue result → CanBegin config.now contents.now }
{
    contents.floor <= LAST_CYCLE && are_lawful(config, contents)
}

/// What a log gives.
fn replayed(alloc: Global, log: &[u8]) -> Result<Contents, Fail> {
    let config = config(alloc)?;
    let contents = beginning(alloc)?;
    if !can_begin(&config, &contents) {
        return Err(Fail::new("no log goes on from this"));
    }
    Ok(replay(alloc, &config, contents, log)?.contents)
}

/// What a crash leaves that loses all that was not synced.
pub(crate) fn left(alloc: Global, kept: &KeptQueue<TornFile>) -> Result<Contents, Fail> {
    let bytes = kept.keeper().log().device().after_crash(alloc, Ruin::Lost)?;
    replayed(alloc, &bytes)
}

/// Gives back the kept queue of one that has not ended.
pub(crate) fn kept_of(stored: StoredQueue<TornFile>) -> Result<KeptQueue<TornFile>, Fail> {
    match stored.into_kept() {
        Some(kept) => Ok(kept),
        None => Err(Fail::new("the queue has ended")),
    }
}

/// How often the log of a queue was synced.
pub(crate) fn syncs(kept: &KeptQueue<TornFile>) -> usize {
    let mut count = 0usize;
    for change in kept.keeper().log().device().changes() {
        if matches!(change, Change::Sync(_)) {
            count = count.wrapping_add(1);
        }
    }
    count
}
