//! The names of cycles.

ghost use Rattle.std.specs.Prelude.{◌≡◌, All, IfOk, string_bytes};
ghost use Rattle.cq_cycle.specs.Cycle.{HasCycle};
ghost use Rattle.cq_forms.specs.Names.{AreNames, name_in};

use cq_cycle::{Roll, name_of};
use cq_model::CycleList;
use std::alloc::{AllocError, Global};

/// A cycle with its name.
#[derive(Drop)]
pub struct CycleName {
    /// The number of the cycle.
    pub cycle: u32,
    /// The name.
    pub name: String,
}

/// Returns the names of these cycles, in a queue of cycles with this roll and this epoch, in milliseconds of Unix time.
///
/// - `AllocError`: out of memory.
pub fn cycle_names(
    alloc: Global,
    roll: Roll,
    epoch: u64,
    lists: &[CycleList],
) -> Result<Vec<CycleName>, AllocError>
    requires { All (λ list. HasCycle roll epoch list.cycle) lists.now }
    ensures { IfOk result (λ names. AreNames roll epoch (name_in names.items) lists.now) }
{
    let mut names = Vec::new(alloc);
    for list in lists {
        let name = name_of(alloc, roll, epoch, list.cycle)?;
        names.push(CycleName {
            cycle: list.cycle,
            name,
        })?;
    }
    Ok(names)
}

/// Returns the name of a cycle among these, and no text if it is none of them.
pub(crate) fn name_in(names: &[CycleName], cycle: u32) -> &str
    ensures { result.now ≡ name_in names.now cycle }
{
    for named in names {
        if named.cycle == cycle {
            return named.name.as_str();
        }
    }
    ""
}
