//! The queues that are measured: each in a log of its own.
use crate::counted_file::CountedFile;
use crate::fault::BenchFault;
use cq_cycle::Roll;
use cq_kept::{KeptQueue, Opened};
use cq_layout::{MAX_CELLS, Shape};
use cq_log::Damage;
use cq_log_file::{LogFileOf, SystemFile};
use cq_model::{Config, Contents, CycleList, Items};
use std::alloc::{AllocError, Global};
use std::fs::{self, File};
use std::rt::Files;

/// The device of such a queue.
pub type CountedLog = LogFileOf<CountedFile>;

/// How many cycles a queue has, of a day each. All of them together have as many cells as a queue may have.
pub const CYCLES: u64 = 4;

/// A queue with these cycles, and no name.
fn config(alloc: Global) -> Result<Config, BenchFault> {
    let Ok(shape) = Shape::new(MAX_CELLS, 256, 16) else {
        return Err(BenchFault::NoQueue);
    };
    match Config::new(shape, CYCLES as u32, Roll::Daily, 0, Vec::new(alloc)) {
        Ok(config) => Ok(config),
        Err(_) => Err(BenchFault::NoQueue),
    }
}

/// Cycle 0, without a message.
fn beginning(alloc: Global) -> Result<Contents, AllocError> {
    let list = CycleList {
        cycle: 0,
        messages: Items::new(Vec::new(alloc)),
    };
    Ok(Contents {
        lists: Items::new(vec![in alloc; list]?),
        positions: Items::new(Vec::new(alloc)),
        floor: 0,
    })
}

/// Opens an empty queue with a new log at this path, which survives this damage.
pub fn opened<R: AllocGlobal + Files<File = File>>(
    rt: &R,
    path: &str,
    damage: Damage,
) -> Result<Opened<CountedLog>, BenchFault> {
    let alloc = rt.alloc();
    let config = config(alloc)?;
    let contents = beginning(alloc)?;
    let Ok(file) = SystemFile::create(rt, path) else {
        return Err(BenchFault::NoLog);
    };
    let Ok(log) = LogFileOf::begin_empty(CountedFile::new(file), alloc) else {
        return Err(BenchFault::NoLog);
    };
    match KeptQueue::open(alloc, config, &contents, log.supposing(damage)) {
        Ok(opened) => Ok(opened),
        Err(_) => Err(BenchFault::NoQueue),
    }
}

/// How often the log of a queue was synced.
pub fn syncs(kept: &KeptQueue<CountedLog>) -> u64 {
    kept.keeper().log().device().calls().syncs()
}

/// Removes a log.
pub fn remove<R: Files<File = File>>(rt: &R, path: &str) -> Result<(), BenchFault> {
    match fs::remove_file(rt, path) {
        Ok(()) => Ok(()),
        Err(_) => Err(BenchFault::NoLog),
    }
}
