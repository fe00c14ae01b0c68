//! Cycles of moments and of names.
ghost use Rattle.std.specs.Prelude.{◌≡◌, IfErr, IfOk};
ghost use Rattle.cq_foreign.specs.Cycles.{CopiesName, FindsCycle, NamesCycle};
ghost use Rattle.cq_foreign.specs.Rolls.{HasNoRoll, roll_number};

use crate::copying::{Copied, copy_into};
use crate::rolls::roll_of;
use cq_cycle::{Roll, cycle_named, cycle_of, has_cycle, name_of};
use std::alloc::Global;

/// Why there is no such cycle, or why its name was not copied.
#[derive(Clone, Copy, Debug, PartialEq, Eq, thiserror::Error)]
pub enum CycleFault {
    /// No roll has this number.
    #[error("NoSuchRoll")]
    NoSuchRoll,
    /// No cycle that a queue may have is at this moment, or has this name or this number.
    #[error("NoSuchCycle")]
    NoSuchCycle,
    /// Out of memory.
    #[error("OutOfMemory")]
    OutOfMemory,
}

/// Returns the cycle of a moment, by the number of the roll. The epoch and the moment are in milliseconds of Unix time.
///
/// Errors:
/// - `NoSuchRoll`: no roll has this number.
/// - `NoSuchCycle`: the moment is in no cycle, as `cycle_of` says.
pub fn cycle_at(roll: u32, epoch: u64, moment: u64) -> Result<u32, CycleFault>
    ensures { FindsCycle roll epoch moment result }
{
    let roll = known_roll(roll)?;
    match cycle_of(roll, epoch, moment) {
        Ok(cycle) => Ok(cycle),
        Err(_) => Err(CycleFault::NoSuchCycle),
    }
}

/// Returns the cycle that a name names, by the number of the roll. The epoch is in milliseconds of Unix time.
///
/// Errors:
/// - `NoSuchRoll`: no roll has this number.
/// - `NoSuchCycle`: no cycle that a queue may have has this name.
pub fn cycle_with_name(roll: u32, epoch: u64, name: &[u8]) -> Result<u32, CycleFault>
    ensures { NamesCycle roll epoch name.now result }
{
    let roll = known_roll(roll)?;
    let Ok(name) = str::from_utf8(name) else {
        return Err(CycleFault::NoSuchCycle);
    };
    match cycle_named(roll, epoch, name) {
        Ok(cycle) => Ok(cycle),
        Err(_) => Err(CycleFault::NoSuchCycle),
    }
}

/// Copies the name of a cycle to the front of a buffer, by the number of the roll. `name_of` says what the name is. The epoch
/// is in milliseconds of Unix time.
///
/// Errors, after each of which the buffer is as it was:
/// - `NoSuchRoll`: no roll has this number.
/// - `NoSuchCycle`: no queue may have this cycle.
/// - `OutOfMemory`: out of memory, for the name.
pub fn name_into(
    alloc: Global,
    roll: u32,
    epoch: u64,
    cycle: u32,
    room: &mut [u8],
) -> Result<Copied, CycleFault>
    ensures { CopiesName roll epoch cycle room.old room.new result }
{
    let roll = known_roll(roll)?;
    if !has_cycle(roll, epoch, cycle) {
        return Err(CycleFault::NoSuchCycle);
    }
    match name_of(alloc, roll, epoch, cycle) {
        Ok(name) => Ok(copy_into(name.as_bytes(), room)),
        Err(_) => Err(CycleFault::OutOfMemory),
    }
}

/// Returns the roll that has this number.
///
/// Errors:
/// - `NoSuchRoll`: no roll has it.
fn known_roll(number: u32) -> Result<Roll, CycleFault>
    ensures found { IfOk result (λ roll. roll_number roll ≡ number) }
    ensures fault { IfErr result (λ fault. (fault ≡ CycleFault.NoSuchRoll) × HasNoRoll number) }
{
    match roll_of(number) {
        Some(roll) => Ok(roll),
        None => Err(CycleFault::NoSuchRoll),
    }
}
