//! The settings of a new queue.

ghost use Rattle.std.specs.Prelude.{◌≡◌, IfOk, codes, option_map, string_bytes};
ghost use Rattle.cq_new.specs.Made.{IsMadeOf, count_for, cycles_for, given_or};

use cq_model::{MAX_CYCLES, MAX_QUEUE_CELLS, copied_names};
use cq_orders::{InitSettings, NewSettings};
use std::alloc::{AllocError, Global};

/// The cells of a cycle, unless they are given.
pub const CELLS: u64 = 65_536;

/// One message in this many has an entry in the index.
pub const SPACING: u64 = 16;

/// Returns the settings of a new queue: those that were given, and for the others these (ours; Chronicle Queue has no rule for
/// it).
///
/// - The roll is `daily`, and the epoch 0.
/// - A cycle has 65,536 cells.
/// - The index has the least count of entries, from 8 to 256, with which it has room for as many messages as the cells. One message
///   in 16 has an entry.
/// - As many cycles may begin as the limits allow: at most 64, with 4,194,304 cells in all.
///
/// Nothing is checked: `init` does that. What was not given is no reason for it to refuse them (see `laws`).
///
/// - `AllocError`: out of memory.
pub fn settings_of(alloc: Global, given: &NewSettings) -> Result<InitSettings, AllocError>
    ensures { IfOk result (IsMadeOf given.now) }
{
    let cells = given.cells.unwrap_or(CELLS);
    Ok(InitSettings {
        roll: roll_or_daily(alloc, &given.roll)?,
        epoch: 0,
        cells,
        index_count: count_for(cells),
        index_spacing: SPACING,
        cycles: given.cycles.unwrap_or(cycles_for(cells)),
        names: copied_names(alloc, given.names.as_slice())?,
    })
}

/// Returns the word for the roll that was given, or else `daily`.
fn roll_or_daily(alloc: Global, given: &Option<String>) -> Result<String, AllocError>
    ensures { IfOk result (λ roll. string_bytes roll ≡ given_or (codes "daily") (option_map string_bytes given.now)) }
{
    match given {
        Some(roll) => String::from_str(alloc, roll.as_str()),
        None => String::from_str(alloc, "daily"),
    }
}

/// Returns the least count of entries with which the index has room for as many messages as this many cells. A message takes two
/// cells or more.
fn count_for(cells: u64) -> u64
    ensures { result ≡ count_for cells }
{
    match cells {
        0..=2_048 => 8,
        2_049..=8_192 => 16,
        8_193..=32_768 => 32,
        32_769..=131_072 => 64,
        131_073..=524_288 => 128,
        _ => 256,
    }
}

/// Returns how many cycles of this many cells a queue may have, and 1 if that is none.
fn cycles_for(cells: u64) -> u64
    ensures { result ≡ cycles_for cells }
{
    (u64::from(MAX_QUEUE_CELLS) / cells.max(1))
        .max(1)
        .min(u64::from(MAX_CYCLES))
}
