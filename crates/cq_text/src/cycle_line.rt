ghost use Rattle.std.specs.Prelude.{◌≡◌, ◌≢◌, ◌⊎◌, ◌++◌, ℕ, List, IfErr, IfOk, OnOk, codes, string_bytes};
ghost use Rattle.std.specs.Fmt.{decimal};
ghost use Rattle.std.specs.Io.KnownBytes.{Appends, Keeps};
ghost use Rattle.cq_cycle.specs.Cycle.{IsMoment};
ghost use Rattle.cq_cycle.specs.Index.{index_text};
ghost use Rattle.cq_text.specs.CycleLine.{HasCause, IsCycleLine, IsLineOf};
ghost use Rattle.cq_text.specs.Output.{AppendsBeginning};

use crate::fault::ToolFault;
use crate::output::print;
use cq_cycle::{Index, Roll, cycle_of, name_of, roll_named};
use std::alloc::{AllocError, Global};
use std::io::Write;

/// The command `cycle`: writes `CYCLE NAME INDEX`, the number of the cycle in which a moment lies, its name and the
/// index of its first message. `epoch` and `moment` are in milliseconds of Unix time.
///
/// Errors, in this order:
/// - `BadConfig`: the word names no roll.
/// - `BadMoment`: the moment lies in no cycle.
/// - `WriteFault`: the writer failed. A beginning of the line was written.
///
/// `OutOfMemory` can come at any growth. Nothing is written before an error other than `WriteFault`.
pub fn cycle<W: Write>(
    alloc: Global,
    roll: &str,
    epoch: u64,
    moment: u64,
    output: &mut W,
) -> Result<(), ToolFault>
    ensures written { OnOk result ((text : List ℕ) × IsCycleLine roll.now epoch moment text
        × Appends (W.contents output.old) (W.contents output.new) text) }
    ensures fault { IfErr result (HasCause roll.now epoch moment) }
    ensures silent { IfErr result (λ fault. fault ≢ ToolFault.WriteFault
        → Keeps (W.contents output.old) (W.contents output.new)) }
    ensures broken { IfErr result (λ fault. fault ≡ ToolFault.WriteFault → (text : List ℕ)
        × IsCycleLine roll.now epoch moment text × AppendsBeginning (W.contents output.old) (W.contents output.new) text) }
{
    let Some(roll) = roll_named(roll) else {
        return Err(ToolFault::BadConfig);
    };
    let line = line_of(alloc, roll, epoch, moment)?;
    print(output, line.as_bytes())
}

/// Returns the line of the cycle in which a moment lies.
fn line_of(alloc: Global, roll: Roll, epoch: u64, moment: u64) -> Result<String, ToolFault>
    ensures line { IfOk result (λ line. IsMoment roll epoch moment × IsLineOf roll epoch moment (string_bytes line)) }
    ensures fault { IfErr result (λ fault. (fault ≡ ToolFault.OutOfMemory)
        ⊎ ((fault ≡ ToolFault.BadMoment) × ¬ IsMoment roll epoch moment)) }
{
    let Ok(cycle) = cycle_of(roll, epoch, moment) else {
        return Err(ToolFault::BadMoment);
    };
    let name = name_of(alloc, roll, epoch, cycle)?;
    Ok(spelled(alloc, cycle, name.as_str(), Index::new(cycle, 0))?)
}

/// Returns a number, a name and an index, with a space between, and a line feed.
fn spelled(alloc: Global, cycle: u32, name: &str, index: Index) -> Result<String, AllocError>
    ensures { IfOk result (λ text. string_bytes text
        ≡ decimal cycle ++ (codes " " ++ (name.now ++ (codes " " ++ (index_text index ++ codes "\n"))))) }
{
    format!(in alloc; "{cycle} {name} {index}\n")
}
