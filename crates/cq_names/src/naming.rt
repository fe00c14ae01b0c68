//! The command `name`.

ghost use Rattle.std.specs.Prelude.{IfErr, IfSome};
ghost use Rattle.cq_files.specs.Counted.{CountsFaults};
ghost use Rattle.cq_files.specs.FolderFaults.{MindsVersion};
ghost use Rattle.cq_names.specs.Edits.{IsChange};
ghost use Rattle.cq_names.specs.Names.{Ends, IsNamesFault, KeepsOrBlames, MayBeOld, all_done, outcome_of};
ghost use Rattle.cq_orders.specs.declared.settings.NameChange.TheVariants as change;

use crate::deciding::{Decision, decide};
use crate::lines::lines_of;
use crate::{NameFault, NameRefusal};
use cq_files::{open_whole_queue, print_outside, write_file};
use cq_folder::{Access, CONFIG_FILE, Folder};
use cq_orders::NameChange;
use cq_text::ToolFault;
use std::alloc::Global;
use std::io::Write;

/// The command `name`: writes the names of a queue with their positions, or changes them (ours; Chronicle Queue has no
/// rule for it). A line is `NAME INDEX`.
///
/// - `List` writes the line of each name, in the order of `queue.cqc`. No file changes.
/// - `Add` puts a name at the end of the list, at the position that a word means, and without one at the end of the queue.
/// - `Remove` takes a name out of the list, and its position with it.
/// - `Move` gives a name the position that a word means.
///
/// A change writes the line of the name: with its new position, or with the one that is gone. Of all files `queue.cqc`
/// alone changes, and in it nothing but that name and its position. See `point_meant` of `cq_points` for the words.
///
/// Errors, in this order:
/// - `Tool` with those of opening the queue, with `OldVersion`, if names are to be changed, and `BadContents` among them;
/// - `Refused` with `BadName`, `ThereAlready` and `TooManyNames` of `Add`, or `NoSuchName` of `Remove` and `Move`;
/// - `Tool` with those of `point_meant`;
/// - `Refused` with `PastEnd`: the position is past the end of the queue;
/// - `Tool` with `FileFault` of `queue.cqc`: the change is saved, or every file is as it was;
/// - `Tool` with `WriteFault`: the change is saved, and a beginning of the lines was written.
///
/// `OutOfMemory` can come at any growth. Before an error other than the last two every file is as it was. Nothing is
/// written to the writer before an error other than `WriteFault`.
pub fn names<F: Folder, W: Write>(
    alloc: Global,
    folder: &mut F,
    change: &NameChange,
    output: &mut W,
) -> Result<(), NameFault>
    ensures ends { Ends change.now (F.files folder.old) (F.files folder.new) (W.contents output.old) (W.contents output.new)
        (outcome_of result) }
    ensures cause { IfErr (outcome_of result) (λ fault. IfSome (F.files folder.old) (λ files.
        IsNamesFault change.now files fault)) }
    ensures told { IfErr (outcome_of result) (KeepsOrBlames (F.files folder.old) (F.files folder.new)) }
    ensures version { MayBeOld change.now (F.files folder.old) (outcome_of result) }
    ensures counted { CountsFaults (F.failed folder.old) (F.failed folder.new) (outcome_of result) }
{
    match done_or_refused(alloc, folder, change, output)? {
        None => Ok(()),
        Some(refusal) => Err(NameFault::Refused(refusal)),
    }
}

/// Writes the names of a queue or changes them; or returns why they are not changed.
fn done_or_refused<F: Folder, W: Write>(
    alloc: Global,
    folder: &mut F,
    change: &NameChange,
    output: &mut W,
) -> Result<Option<NameRefusal>, ToolFault>
    ensures ends { Ends change.now (F.files folder.old) (F.files folder.new) (W.contents output.old) (W.contents output.new) result }
    ensures cause { IfErr result (λ fault. IfSome (F.files folder.old) (λ files. IsNamesFault change.now files fault)) }
    ensures told { IfErr result (KeepsOrBlames (F.files folder.old) (F.files folder.new)) }
    ensures version { MayBeOld change.now (F.files folder.old) result }
    ensures counted { CountsFaults (F.failed folder.old) (F.failed folder.new) result }
{
    match change {
        NameChange::List => {
            list(alloc, folder, output)?;
            Ok(None)
        }
        NameChange::Add { .. } | NameChange::Remove { .. } | NameChange::Move { .. } => {
            change_or_refuse(alloc, folder, change, output)
        }
    }
}

/// Writes the line of each name.
fn list<F: Folder, W: Write>(alloc: Global, folder: &mut F, output: &mut W) -> Result<(), ToolFault>
    ensures ends { Ends change.List (F.files folder.old) (F.files folder.new) (W.contents output.old) (W.contents output.new)
        (all_done result) }
    ensures cause { IfErr result (λ fault. IfSome (F.files folder.old) (λ files. IsNamesFault change.List files fault)) }
    ensures told { IfErr result (KeepsOrBlames (F.files folder.old) (F.files folder.new)) }
    ensures version { MayBeOld change.List (F.files folder.old) (all_done result) }
    ensures counted { CountsFaults (F.failed folder.old) (F.failed folder.new) result }
{
    let queue = open_whole_queue(alloc, folder, Access::Shared)?;
    folder.end();
    let positions = queue.contents.positions.as_slice();
    let text = lines_of(alloc, queue.config.names(), positions)?;
    print_outside(folder, output, text.as_slice())
}

/// Changes the names of a queue; or returns why they are not changed.
fn change_or_refuse<F: Folder, W: Write>(
    alloc: Global,
    folder: &mut F,
    change: &NameChange,
    output: &mut W,
) -> Result<Option<NameRefusal>, ToolFault>
    requires { IsChange change.now }
    ensures ends { Ends change.now (F.files folder.old) (F.files folder.new) (W.contents output.old) (W.contents output.new) result }
    ensures cause { IfErr result (λ fault. IfSome (F.files folder.old) (λ files. IsNamesFault change.now files fault)) }
    ensures told { IfErr result (KeepsOrBlames (F.files folder.old) (F.files folder.new)) }
    ensures version { IfSome (F.files folder.old) (λ files. MindsVersion files result) }
    ensures counted { CountsFaults (F.failed folder.old) (F.failed folder.new) result }
{
    match decide(alloc, folder, change)? {
        Decision::Refuse(refusal) => Ok(Some(refusal)),
        Decision::Change(plan) => {
            write_file(alloc, folder, CONFIG_FILE, plan.config.as_slice())?;
            folder.end();
            print_outside(folder, output, plan.line.as_slice())?;
            Ok(None)
        }
    }
}
