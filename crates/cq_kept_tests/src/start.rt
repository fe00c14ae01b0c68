//! What a queue is opened with, and what its log gives. It has four cycles of a day each and 64 cells, and the name "reader".
ghost use Rattle.std.specs.Prelude.{IsTrue};
ghost use Rattle.cq_log_head.specs.Heads.{CanBegin};

use cq_cycle::LAST_CYCLE;
use cq_fixtures::{contents_of, contents_text, small_config};
use cq_model::{Config, Contents};
use cq_replay::replay;
use cq_shown::are_lawful;
use std::alloc::{AllocError, Global};
use std::test::Fail;

/// Returns the configuration of the queue.
pub fn config(alloc: Global) -> Result<Config, Fail> {
    small_config(alloc, 4)
}

/// Returns what the images hold: cycle 5 with two messages, of which "reader" has taken the first.
pub fn images(alloc: Global) -> Result<Contents, AllocError> {
    contents_of(alloc, &[(5, &["ab", "c"])], &[21_474_836_481])
}

/// Returns whether a log can go on from this.
fn can_begin(config: &Config, contents: &Contents) -> bool
    ensures { IsTrue result → CanBegin config.now contents.now }
{
    contents.floor <= LAST_CYCLE && are_lawful(config, contents)
}

/// Plays a log on the images, and returns what they hold then.
pub(crate) fn replayed(alloc: Global, log: &[u8]) -> Result<Contents, Fail> {
    let config = config(alloc)?;
    let contents = images(alloc)?;
    if !can_begin(&config, &contents) {
        return Err(Fail::new(format_args!("no images")));
    }
    Ok(replay(alloc, &config, contents, log)?.contents)
}

/// Plays a log on the images, and returns what they hold then as text.
pub fn replayed_text(alloc: Global, log: &[u8]) -> Result<String, Fail> {
    contents_text(alloc, &replayed(alloc, log)?)
}
