//! Queues, and what their images hold.
ghost use Rattle.std.specs.Prelude.{IsTrue};
ghost use Rattle.cq_log_head.specs.Heads.{CanBegin};

use cq_cycle::{LAST_CYCLE, Roll};
use cq_fixtures::{Cycles, contents_of};
use cq_layout::Shape;
use cq_model::{Config, Contents};
use cq_shown::are_lawful;
use std::alloc::{AllocError, Global};
use std::test::Fail;

/// Settings with one name.
#[derive(Clone, Copy)]
pub struct Settings {
    pub cells: u32,
    pub count: u32,
    pub spacing: u32,
    pub cycles: u32,
    pub roll: Roll,
    pub epoch: u64,
    pub name: &'static str,
}

/// Four cycles of a day each and 64 cells, and the name "reader".
pub const SMALL: Settings = Settings {
    cells: 64,
    count: 8,
    spacing: 1,
    cycles: 4,
    roll: Roll::Daily,
    epoch: 0,
    name: "reader",
};

/// What images hold.
#[derive(Clone, Copy)]
pub struct Images {
    pub cycles: Cycles,
    pub position: u64,
    pub floor: u32,
}

/// Returns the configuration with these settings.
pub fn config_of(alloc: Global, settings: Settings) -> Result<Config, Fail> {
    let names = vec![in alloc; String::from_str(alloc, settings.name)?]?;
    let shape = Shape::new(settings.cells, settings.count, settings.spacing)?;
    Ok(Config::new(shape, settings.cycles, settings.roll, settings.epoch, names)?)
}

/// Returns what these images hold.
pub fn held_in(alloc: Global, images: Images) -> Result<Contents, AllocError> {
    let mut contents = contents_of(alloc, images.cycles, &[images.position])?;
    contents.floor = images.floor;
    Ok(contents)
}

/// Returns whether a log can go on from these images.
pub fn can_begin(config: &Config, contents: &Contents) -> bool
    ensures { IsTrue result → CanBegin config.now contents.now }
{
    if contents.floor > LAST_CYCLE {
        return false;
    }
    if contents.lists.as_slice().is_empty() {
        return contents.positions.as_slice().len() == config.names().len();
    }
    are_lawful(config, contents)
}
