//! The command `repair`.

ghost use Rattle.std.specs.Prelude.{IfErr, IfSome};
ghost use Rattle.cq_files.specs.Counted.{CountsFaults};
ghost use Rattle.cq_repair.specs.Repairs.{IsRepairFault, Repairs, outcome_of};

use crate::RepairFault;
use crate::deciding::{Decision, decide};
use crate::keeping::carry_out;
use cq_files::print_outside;
use cq_folder::Folder;
use std::alloc::Global;
use std::io::Write;

/// The command `repair`: makes the messages before the fault of an image, as `salvage` finds them, the image of its cycle. The
/// old file is kept, with `.bad` at the end of its name (ours; Chronicle Queue has no rule for it).
///
/// The cycle is ended if an image of a later cycle is in the folder, and open if not. Other images are not read: each may have
/// a fault, and is repaired in its turn. A name moves down to the end of what is kept if its position is above that, and in the
/// cycle or above all cycles. Nothing else changes: no other name, not the floor, and no other file.
///
/// It writes a line such as `20241004.cqi: 12 messages kept, the old file is 20241004.cqi.bad`, and one for each name that
/// moves. In a dry run the lines say what would be done, and no file changes.
///
/// The old file is saved first. Then the image and, if a name moves, `queue.cqc` are saved together. If that is cut short, the
/// queue is as it was, and a later call goes on.
///
/// Errors, in this order:
/// - `Tool` with `FolderFault`, `NoQueueHere`, and those of `queue.cqc`;
/// - `Tool` with `NoSuchFile`: the folder has no file of that name that ends with `.cqi`;
/// - `Tool` with `BadCycleName`;
/// - `Tool` with `OldVersion`: the folder is of version 1;
/// - `Tool` with `FileFault` and `FileTooLarge` of the image;
/// - `Refused` with `NoFault`: the image has no fault;
/// - `Refused` with `ThereAlready`: the old file's new name is taken by a file with other bytes;
/// - `Tool` with `FileFault`: it has that new name, and at most the old file is saved; or it has the name of the image, the old
///   file is saved, and the rest is too, or not;
/// - `Tool` with `WriteFault`: all is saved, and a beginning of the lines was written.
///
/// `OutOfMemory` can come at any growth. At most the old file is saved then. Nothing is written to the writer before an error
/// other than `WriteFault`.
pub fn repair<F: Folder, W: Write>(
    alloc: Global,
    folder: &mut F,
    file: &str,
    dry_run: bool,
    output: &mut W,
) -> Result<(), RepairFault>
    ensures repairs { Repairs dry_run file.now (F.files folder.old) (F.files folder.new) (W.contents output.old)
        (W.contents output.new) (outcome_of result) }
    ensures cause { IfErr (outcome_of result) (λ fault. IfSome (F.files folder.old) (λ files.
        IsRepairFault dry_run file.now files (F.files folder.new) fault)) }
    ensures counted { CountsFaults (F.failed folder.old) (F.failed folder.new) (outcome_of result) }
{
    match decide(alloc, folder, file, dry_run)? {
        Decision::Refuse(refusal) => Err(RepairFault::Refused(refusal)),
        Decision::Repair(plan) => {
            carry_out(alloc, folder, &plan, dry_run)?;
            folder.end();
            print_outside(folder, output, plan.text.as_slice())?;
            Ok(())
        }
    }
}
