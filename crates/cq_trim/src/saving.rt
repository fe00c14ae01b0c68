//! Carries out what was decided.

ghost use Rattle.std.specs.Prelude.{◌≡◌, ◌≢◌, ◌↔◌, [], IfErr, IfOk, IsTrue, OnErr, OnOk, Some, false, map, string_bytes};
ghost use Rattle.cq_folder.specs.Folder.{KeepsFiles, named_file};
ghost use Rattle.cq_files.specs.Counted.{CountsFaults};
ghost use Rattle.cq_files.specs.FolderFaults.{IsSaveFault, TellsFile};
ghost use Rattle.cq_model.specs.Settings.{texts};
ghost use Rattle.cq_trim.specs.Trimmed.{KeepsOrLeaves, Leaves, first_touched};

use crate::planning::Plan;
use cq_files::save_fault;
use cq_folder::{Access, Folder};
use cq_text::ToolFault;
use std::alloc::{AllocError, Global};

/// Writes and removes the files of a plan, all at once, or none of them in a dry run.
///
/// Errors:
/// - `FileFault` with the name of the first file that was to be written, or else removed: the folder could not do it.
///   All of it is done, or nothing.
/// - `OutOfMemory`: out of memory. Nothing is done.
pub(crate) fn carry_out<F: Folder>(
    alloc: Global,
    folder: &mut F,
    plan: &Plan,
    dry_run: bool,
) -> Result<(), ToolFault>
    requires { F.entered folder.old ≡ Some Access.Alone }
    ensures left { OnOk result (Leaves dry_run (map named_file plan.now.changes.items) (texts plan.now.removed.items)
        (F.files folder.old) (F.files folder.new)) }
    ensures whole { OnErr result (KeepsOrLeaves dry_run (map named_file plan.now.changes.items) (texts plan.now.removed.items)
        (F.files folder.old) (F.files folder.new)) }
    ensures scarce { IfErr result (λ fault. fault ≡ ToolFault.OutOfMemory
        → KeepsFiles (F.files folder.old) (F.files folder.new)) }
    ensures save { IfErr result IsSaveFault }
    ensures saves { OnErr result (dry_run ≡ false) }
    ensures told { IfErr result (TellsFile (λ name. name
        ≡ first_touched (map named_file plan.now.changes.items) (texts plan.now.removed.items))) }
    ensures unprinted { IfErr result (λ fault. fault ≢ ToolFault.WriteFault) }
    ensures counted { CountsFaults (F.failed folder.old) (F.failed folder.new) result }
    ensures inside { F.entered folder.new ≡ F.entered folder.old }
{
    if dry_run || changes_nothing(plan) {
        return Ok(());
    }
    let first = first_touched(alloc, plan)?;
    match folder.save_and_remove(plan.changes.as_slice(), plan.removed.as_slice()) {
        Ok(()) => Ok(()),
        Err(fault) => Err(save_fault(fault, first)),
    }
}

/// Returns whether no file is written and none removed.
fn changes_nothing(plan: &Plan) -> bool
    ensures { IsTrue result ↔ ((map named_file plan.now.changes.items ≡ []) × (texts plan.now.removed.items ≡ [])) }
{
    plan.changes.is_empty() && plan.removed.is_empty()
}

/// Returns the name of the first file that is written, or else of the first one that is removed.
fn first_touched(alloc: Global, plan: &Plan) -> Result<String, AllocError>
    ensures { IfOk result (λ name. string_bytes name
        ≡ first_touched (map named_file plan.now.changes.items) (texts plan.now.removed.items)) }
{
    match (plan.changes.first(), plan.removed.first()) {
        (Some(file), _) => String::from_str(alloc, file.name.as_str()),
        (None, Some(name)) => String::from_str(alloc, name.as_str()),
        (None, None) => Ok(String::new(alloc)),
    }
}
