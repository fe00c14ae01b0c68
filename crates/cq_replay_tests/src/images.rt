//! What images of a queue hold. All queues here have four cycles of a day each and 64 cells, and the name "reader".
ghost use Rattle.std.specs.Prelude.{IsTrue};
ghost use Rattle.cq_log_head.specs.Heads.{CanBegin};

use cq_cycle::LAST_CYCLE;
use cq_fixtures::{Cycles, contents_of, small_config};
use cq_model::{Config, Contents};
use cq_shown::are_lawful;
use std::alloc::{AllocError, Global};
use std::test::Fail;

/// What images hold.
#[derive(Clone, Copy)]
pub struct Images {
    pub cycles: Cycles,
    pub position: u64,
    pub floor: u32,
}

/// Images of a queue in which no cycle has begun.
pub const EMPTY: Images = Images {
    cycles: &[],
    position: 0,
    floor: 0,
};

/// Images of a queue with two cycles.
pub const USED: Images = Images {
    cycles: &[(5, &["ab", "c"]), (7, &["d"])],
    position: 21_474_836_481,
    floor: 5,
};

/// Returns the configuration of the queues.
pub fn config(alloc: Global) -> Result<Config, Fail> {
    small_config(alloc, 4)
}

/// Returns what these images hold.
pub fn held_in(alloc: Global, images: Images) -> Result<Contents, AllocError> {
    let mut contents = contents_of(alloc, images.cycles, &[images.position])?;
    contents.floor = images.floor;
    Ok(contents)
}

/// Returns whether a log can go on from this.
pub fn can_begin(config: &Config, contents: &Contents) -> bool
    ensures { IsTrue result → CanBegin config.now contents.now }
{
    if contents.floor > LAST_CYCLE {
        return false;
    }
    if contents.lists.as_slice().is_empty() {
        return contents.positions.as_slice().len() == config.names().len();
    }
    are_lawful(config, contents)
}
