//! What is said of a queue, by its settings and what it holds.

ghost use Rattle.std.specs.Prelude.{◌≡◌, IfOk, length};
ghost use Rattle.cq_files.specs.Queue.{CanBeOpened};
ghost use Rattle.cq_stat.specs.Facts.{IsStat};

use crate::QueueStat;
use crate::cycles::cycle_stats;
use crate::names::{first_index, name_stats};
use cq_cycle::Index;
use cq_model::{Config, Contents};
use cq_shown::end_of;
use std::alloc::{AllocError, Global};

/// Returns what is said of a queue with these settings that holds these contents (ours; Chronicle Queue has no rule for
/// it).
///
/// Errors:
/// - `AllocError`: out of memory.
///
/// It takes time for the messages, once each, and for the cycles once for each name.
pub fn stat_of(alloc: Global, config: Config, contents: &Contents) -> Result<QueueStat, AllocError>
    requires openable { CanBeOpened config contents.now }
    requires paired { length contents.now.positions ≡ length config.names }
    ensures { IfOk result (IsStat config contents.now) }
{
    let lists = contents.lists.as_slice();
    let cycles = cycle_stats(alloc, &config, contents)?;
    let names = name_stats(alloc, config.names(), contents)?;
    let end = Index::of_value(end_of(&config, lists));
    let more_cycles = config.cycles() - lists.len() as u32;
    Ok(QueueStat {
        config,
        cycles,
        first: first_index(contents),
        floor: contents.floor,
        end,
        more_cycles,
        names,
    })
}
