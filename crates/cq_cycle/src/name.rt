//! The names of cycles.

ghost use Rattle.std.specs.Prelude.{◌≡◌, IfErr, IfOk, IfSome, Ok, Some, string_bytes, ℕ};
ghost use Rattle.cq_cycle.specs.Cycle.{HasCycle};
ghost use Rattle.cq_cycle.specs.Name.{IsName, NamesNoCycle};

use crate::date::WrittenDate;
use crate::roll::MILLIS_PER_DAY;
use crate::time::{first_time, push_time};
use crate::{Roll, cycle_of};
use std::alloc::{AllocError, Global};

/// Why a name gives no cycle.
#[derive(Clone, Copy, Debug, PartialEq, Eq, Hash, thiserror::Error)]
pub enum NameFault {
    /// No cycle has the name.
    #[error("BadName")]
    BadName,
    /// Memory ran out.
    #[error("want of memory")]
    OutOfMemory,
}

/// Returns the name of a cycle: the civil date and time in UTC of its start, which is `epoch + cycle * length`. The name
/// is cut to the day, the hour or the minute (Chronicle Queue's documentation; that it is UTC is ours). `jiff`'s
/// calendar defines which civil date a day number has.
///
/// `epoch` is in milliseconds of Unix time, and the cycle is one that a queue may have by `has_cycle`.
///
/// Returns `AllocError` when out of memory for the name.
pub fn name_of(alloc: Global, roll: Roll, epoch: u64, cycle: u32) -> Result<String, AllocError>
    requires { HasCycle roll epoch cycle }
    ensures { IfOk result (λ name. IsName roll epoch cycle (string_bytes name)) }
{
    let start = epoch + u64::from(cycle) * roll.millis();
    let mut name = String::new(alloc);
    WrittenDate::of_day(start / MILLIS_PER_DAY).push_to(&mut name)?;
    push_time(&mut name, roll, start % MILLIS_PER_DAY)?;
    Ok(name)
}

/// Returns the one cycle with this name. `epoch` is in milliseconds of Unix time.
///
/// Returns `BadName` if no cycle that a queue may have has the name. It allocates nothing, and so never returns
/// `OutOfMemory`.
pub fn cycle_named(roll: Roll, epoch: u64, name: &str) -> Result<u32, NameFault>
    ensures found { IfOk result (λ cycle. HasCycle roll epoch cycle × IsName roll epoch cycle name.now) }
    ensures only { (cycle : ℕ) → HasCycle roll epoch cycle → IsName roll epoch cycle name.now → result ≡ Ok cycle }
    ensures refused { IfErr result (λ fault. (fault ≡ NameFault.BadName) × NamesNoCycle roll epoch name.now) }
{
    find_cycle(roll, epoch, name.as_bytes()).ok_or(NameFault::BadName)
}

/// Returns the cycle with this name, if there is one.
///
/// A cycle is as long as the time that a name covers. So at most one cycle begins in that time: the one in which its
/// last millisecond lies.
fn find_cycle(roll: Roll, epoch: u64, name: &[u8]) -> Option<u32>
    ensures found { IfSome result (λ cycle. HasCycle roll epoch cycle × IsName roll epoch cycle name.now) }
    ensures only { (cycle : ℕ) → HasCycle roll epoch cycle → IsName roll epoch cycle name.now → result ≡ Some cycle }
{
    let (date, rest) = WrittenDate::take_from(name)?;
    let day = date.day_number()?;
    let time = first_time(roll, rest)?;
    let last = day * MILLIS_PER_DAY + time + (roll.millis() - 1);
    cycle_of(roll, epoch, last).ok()
}
