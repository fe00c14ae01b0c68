//! Decides whether an image is repaired.

ghost use Rattle.std.specs.Prelude.{◌≡◌, ◌≢◌, ◌↔◌, ◌⊎◌, IfErr, IfOk, IfSome, IsSome, IsSomeAnd, IsTrue, OnErr, OnOk, Some};
ghost use Rattle.cq_folder.specs.Folder.{KeepsFiles, named_file};
ghost use Rattle.cq_files.specs.Counted.{CountsFaults};
ghost use Rattle.cq_files.specs.Looking.{Stays};
ghost use Rattle.cq_repair.specs.Plans.{Decides, IsUndecided, IsUnlessTaken, IsUnread, access_for};

use crate::RepairRefusal;
use crate::finding::find;
use crate::planning::{Plan, plan_for};
use cq_folder::{Access, Folder, FolderFault, NewFile};
use cq_text::ToolFault;
use std::alloc::Global;

/// Whether an image is repaired.
#[derive(Drop)]
pub(crate) enum Decision {
    /// It is: this is done and printed.
    Repair(Plan),
    /// It is not.
    Refuse(RepairRefusal),
}

/// Finds the image whose file has this name, and decides what is done.
///
/// Errors, in this order: those of `find`; `FileFault` of the old file's new name.
pub(crate) fn decide<F: Folder>(
    alloc: Global,
    folder: &mut F,
    file: &str,
    dry_run: bool,
) -> Result<Decision, ToolFault>
    ensures decides { IfOk result (Decides dry_run file.now (F.files folder.old)) }
    ensures cause { IfErr result (λ fault. IfSome (F.files folder.old) (λ files. IsUndecided file.now files fault)) }
    ensures unprinted { IfErr result (λ fault. fault ≢ ToolFault.WriteFault) }
    ensures kept { KeepsFiles (F.files folder.old) (F.files folder.new) }
    ensures counted { CountsFaults (F.failed folder.old) (F.failed folder.new) result }
    ensures inside { OnOk result (F.entered folder.new ≡ Some (access_for dry_run)) }
{
    let found = find(alloc, folder, access_for(dry_run), file)?;
    match plan_for(alloc, found, file, dry_run)? {
        None => Ok(Decision::Refuse(RepairRefusal::NoFault(String::from_str(alloc, file)?))),
        Some(plan) => unless_taken(alloc, folder, plan),
    }
}

/// Returns how the folder is entered: a dry run changes nothing, so it shares the folder.
fn access_for(dry_run: bool) -> Access
    ensures { result ≡ access_for dry_run }
{
    if dry_run {
        Access::Shared
    } else {
        Access::Alone
    }
}

/// Decides for a plan, unless a file with other bytes has the name that the old file would get.
fn unless_taken<F: Folder>(alloc: Global, folder: &mut F, plan: Plan) -> Result<Decision, ToolFault>
    requires { IsSome (F.entered folder.old) }
    ensures decides { IfOk result (IsUnlessTaken plan (F.files folder.old)) }
    ensures fault { IfErr result (λ fault. (fault ≡ ToolFault.OutOfMemory) ⊎ IsUnread (named_file plan.old).0 fault) }
    ensures taken { OnErr result (IsTrue plan.is_taken) }
    ensures stays { Stays F.files F.failed F.entered folder.old folder.new result }
{
    if plan.is_taken && !holds(alloc, folder, &plan.old)? {
        return Ok(Decision::Refuse(RepairRefusal::ThereAlready(plan.old.name)));
    }
    Ok(Decision::Repair(plan))
}

/// Returns whether the file of this name, which was listed, has these bytes.
fn holds<F: Folder>(alloc: Global, folder: &mut F, file: &NewFile) -> Result<bool, ToolFault>
    requires { IsSome (F.entered folder.old) }
    ensures held { IfOk result (λ same. IfSome (F.files folder.old) (λ files.
        IsSomeAnd (files (named_file file.now).0) (λ held. IsTrue same ↔ (held ≡ (named_file file.now).1)))) }
    ensures fault { IfErr result (λ fault. (fault ≡ ToolFault.OutOfMemory) ⊎ IsUnread (named_file file.now).0 fault) }
    ensures stays { Stays F.files F.failed F.entered folder.old folder.new result }
{
    let name = file.name.as_str();
    let bytes = file.bytes.as_slice();
    match folder.read(alloc, name, bytes.len()) {
        Ok(held) => Ok(held.as_slice() == bytes),
        Err(FolderFault::TooLarge) => Ok(false),
        Err(FolderFault::Device) => Err(ToolFault::FileFault(String::from_str(alloc, name)?)),
        Err(FolderFault::OutOfMemory) => Err(ToolFault::OutOfMemory),
    }
}
