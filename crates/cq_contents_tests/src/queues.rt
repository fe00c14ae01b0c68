//! Queues with the lists that a test wants.
use cq_contents::QueueContents;
use cq_cycle::has_cycle;
use cq_fixtures::{Cycles, config_of, contents_of};
use cq_layout::Shape;
use cq_model::{Config, Contents};
use cq_shown::are_lawful;
use std::alloc::Global;
use std::test::Fail;

/// A queue with cycles of a day and the name "reader": how many cells a cycle has, with index tables of 8 entries; the
/// spacing of the index; how many cycles there may be; and those that there are. If there are none, cycle 0 begins.
#[derive(Clone, Copy)]
pub(crate) struct Queue {
    pub cells: u32,
    pub spacing: u32,
    pub cycles: u32,
    pub lists: Cycles,
}

impl Queue {
    /// Its settings.
    pub(crate) fn config(&self, alloc: Global) -> Result<Config, Fail> {
        config_of(alloc, Shape::new(self.cells, 8, self.spacing)?, self.cycles)
    }

    /// What it holds, if it holds cycles.
    pub(crate) fn contents(&self, alloc: Global) -> Result<Contents, Fail> {
        Ok(contents_of(alloc, self.lists, &[0])?)
    }

    /// The queue.
    pub(crate) fn made(&self, alloc: Global) -> Result<QueueContents, Fail> {
        let config = self.config(alloc)?;
        if self.lists.is_empty() {
            if !has_cycle(config.roll(), config.epoch(), 0) {
                return Err(Fail::new("no cycle 0"));
            }
            return Ok(QueueContents::create(alloc, config, 0)?);
        }
        let contents = self.contents(alloc)?;
        if !are_lawful(&config, &contents) {
            return Err(Fail::new("bad contents"));
        }
        Ok(QueueContents::new(config, contents))
    }
}
