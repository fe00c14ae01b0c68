//! Carries out what was decided.

ghost use Rattle.std.specs.Prelude.{◌≡◌, IfErr, OnErr, OnOk, Some, false};
ghost use Rattle.cq_files.specs.Counted.{CountsFaults};
ghost use Rattle.cq_repair.specs.Plans.{IsPlanCutShort, Leaves, writes_of};

use crate::planning::Plan;
use cq_files::{save_files, write_file};
use cq_folder::{Access, Folder};
use cq_text::ToolFault;
use std::alloc::Global;

/// Writes the old file under its new name, and then what changes, all at once. In a dry run it writes nothing.
///
/// Errors:
/// - `FileFault` with the new name of the old file: that file is written, or none is;
/// - `FileFault` with the name of the image: the old file is written, and the rest is too, or not;
/// - `OutOfMemory`: out of memory. The old file is written, or none is.
pub(crate) fn carry_out<F: Folder>(
    alloc: Global,
    folder: &mut F,
    plan: &Plan,
    dry_run: bool,
) -> Result<(), ToolFault>
    requires { dry_run ≡ false → F.entered folder.old ≡ Some Access.Alone }
    ensures left { OnOk result (Leaves dry_run (writes_of plan.now) (F.files folder.old) (F.files folder.new)) }
    ensures cut_short { IfErr result (IsPlanCutShort plan.now (F.files folder.old) (F.files folder.new)) }
    ensures saves { OnErr result (dry_run ≡ false) }
    ensures counted { CountsFaults (F.failed folder.old) (F.failed folder.new) result }
    ensures inside { F.entered folder.new ≡ F.entered folder.old }
{
    if dry_run {
        return Ok(());
    }
    write_file(
        alloc,
        folder,
        plan.old.name.as_str(),
        plan.old.bytes.as_slice(),
    )?;
    save_files(alloc, folder, plan.changes.as_slice())
}
