//! The command `trim`.

ghost use Rattle.std.specs.Prelude.{◌≡◌, IfErr, IfSome};
ghost use Rattle.cq_files.specs.Counted.{CountsFaults};
ghost use Rattle.cq_files.specs.FolderFaults.{MindsVersion};
ghost use Rattle.cq_trim.specs.Trims.{IsTrimFault, Trims, outcome_of};

use crate::TrimFault;
use crate::planning::{Decision, decide};
use crate::saving::carry_out;
use cq_files::print_outside;
use cq_folder::Folder;
use cq_orders::TrimSettings;
use std::alloc::Global;
use std::io::Write;

/// The command `trim`: raises the floor, if `keep` or `before` asks for that, removes the images of all cycles below it,
/// and writes their names, each on a line, in order. As many cycles may then begin again. `queue.cqc` gets the floor at
/// the same moment. All else that the queue holds stays. If there is nothing to do no file changes (ours; Chronicle Queue
/// has no rule for it).
///
/// With `keep` at most that many of the last cycles that have begun are kept, and one at least. With `before` no cycle
/// before the one that its word means is kept, see `cycle_meant`. The floor is then the higher one of both, but never
/// above the last cycle, and it never falls. In a dry run no file changes.
///
/// Errors, in this order:
/// - `Tool` with those of opening the queue, with `OldVersion` and `BadContents` among them;
/// - `Tool` with those of `cycle_meant`;
/// - `MessagesLeft`, unless it is forced: fewer messages would be left for this name, and it is the first such name;
/// - `Tool` with `FileFault`: all is saved, or every file is as it was. It names `queue.cqc` if the floor was to rise,
///   else the first image that was to be removed;
/// - `Tool` with `WriteFault`: all is saved, and a beginning of the names was written.
///
/// `OutOfMemory` can come at any growth. Before an error other than the last two every file is as it was. Nothing is
/// written to the writer before an error other than `WriteFault`.
pub fn trim<F: Folder, W: Write>(
    alloc: Global,
    folder: &mut F,
    settings: &TrimSettings,
    output: &mut W,
) -> Result<(), TrimFault>
    ensures trims { Trims settings.now (F.files folder.old) (F.files folder.new) (W.contents output.old) (W.contents output.new)
        (outcome_of result) }
    ensures cause { IfErr (outcome_of result) (λ fault. IfSome (F.files folder.old) (λ files.
        IsTrimFault settings.now files fault)) }
    ensures version { IfSome (F.files folder.old) (λ files. MindsVersion files (outcome_of result)) }
    ensures counted { CountsFaults (F.failed folder.old) (F.failed folder.new) (outcome_of result) }
{
    match decide(alloc, folder, settings)? {
        Decision::Refuse(name) => Err(TrimFault::MessagesLeft(name)),
        Decision::Trim(plan) => {
            carry_out(alloc, folder, &plan, settings.dry_run)?;
            folder.end();
            print_outside(folder, output, plan.text.as_slice())?;
            Ok(())
        }
    }
}
