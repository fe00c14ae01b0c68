//! Cycles of moments and of names, by the roll and the epoch of a queue.
ghost use Rattle.std.specs.Prelude.{◌≡◌};
ghost use Rattle.cq_foreign.specs.Cycles.{CopiesName, FindsCycle, NamesCycle};
ghost use Rattle.linnetshelf.specs.Answers.{Tells};
ghost use Rattle.linnetshelf.specs.Cycles.{cycle_status, moment_answer, name_answer, named_answer};

use crate::answer::{Answer, done, plain};
use crate::copying::copied_answer;
use crate::status::Status;
use cq_foreign::{Copied, CycleFault, cycle_at, cycle_with_name, name_into};
use std::alloc::Global;

/// Returns the cycle in which a moment lies, in a queue of this roll and this epoch. The epoch and the moment are in milliseconds
/// of Unix time.
///
/// - `BadSettings`: no roll has this number.
/// - `BadMoment`: the moment is in no cycle.
#[unsafe(no_mangle)]
pub extern "C" fn linnetshelf_cycle_of(roll: u32, epoch: u64, moment: u64) -> Answer
    ensures { Tells (FindsCycle roll epoch moment) moment_answer result }
{
    moment_answer(cycle_at(roll, epoch, moment))
}

/// Copies the name of a cycle to the front of a buffer, in a queue of this roll and this epoch. Returns its length.
///
/// - `BadSettings`: no roll has this number.
/// - `NoSuchPlace`: no queue has this cycle.
/// - `NoRoom`: the buffer is smaller. The answer has the length, and nothing is copied.
/// - `OutOfMemory`: out of memory. Nothing is copied.
#[unsafe(no_mangle)]
pub extern "C" fn linnetshelf_cycle_name(
    alloc: Global,
    roll: u32,
    epoch: u64,
    cycle: u32,
    room: &mut [u8],
) -> Answer
    ensures { Tells (CopiesName roll epoch cycle room.old room.new) name_answer result }
{
    name_answer(name_into(alloc, roll, epoch, cycle, room))
}

/// Returns the cycle that a name names, in a queue of this roll and this epoch.
///
/// - `BadSettings`: no roll has this number.
/// - `NoSuchPlace`: no cycle has this name.
#[unsafe(no_mangle)]
pub extern "C" fn linnetshelf_cycle_named(roll: u32, epoch: u64, name: &[u8]) -> Answer
    ensures { Tells (NamesCycle roll epoch name.now) named_answer result }
{
    named_answer(cycle_with_name(roll, epoch, name))
}

/// Says why there is no such cycle. `none` is the status that no queue has one.
fn cycle_status(none: Status, fault: CycleFault) -> Status
    ensures { result ≡ cycle_status none fault }
{
    match fault {
        CycleFault::NoSuchRoll => Status::BadSettings,
        CycleFault::NoSuchCycle => none,
        CycleFault::OutOfMemory => Status::OutOfMemory,
    }
}

/// Makes the answer of `cycle_of`.
fn moment_answer(said: Result<u32, CycleFault>) -> Answer
    ensures { result ≡ moment_answer said }
{
    match said {
        Ok(cycle) => done(u64::from(cycle)),
        Err(fault) => plain(cycle_status(Status::BadMoment, fault)),
    }
}

/// Makes the answer of `cycle_named`.
fn named_answer(said: Result<u32, CycleFault>) -> Answer
    ensures { result ≡ named_answer said }
{
    match said {
        Ok(cycle) => done(u64::from(cycle)),
        Err(fault) => plain(cycle_status(Status::NoSuchPlace, fault)),
    }
}

/// Makes the answer of `cycle_name`.
fn name_answer(said: Result<Copied, CycleFault>) -> Answer
    ensures { result ≡ name_answer said }
{
    match said {
        Ok(came) => copied_answer(came),
        Err(fault) => plain(cycle_status(Status::NoSuchPlace, fault)),
    }
}
