ghost use Rattle.std.specs.Prelude.{◌≡◌, ◌≢◌, IfErr, OnOk};
ghost use Rattle.std.specs.Io.KnownBytes.{Keeps};
ghost use Rattle.cq_running.specs.Orders.{Ends, streams};
ghost use Rattle.cq_files.specs.Counted.{CountsFaults};
ghost use Rattle.cq_orders.specs.OrderFolder.{IsPlain};

use cq_commands::{drop_before, read, take};
use cq_file_commands::{check, dump, init, migrate, salvage};
use cq_folder::Folder;
use cq_orders::Order;
use cq_stat::stat;
use cq_text::{ToolFault, cycle, echo};
use cq_writing::write;
use std::alloc::Global;
use std::io::{Read, Write};

/// Runs a plain order over its folder, a reader and a writer. The path of the folder in the order is not used.
///
/// These orders are not plain: `race` and `log`; `follow`, which goes on; `trim`, `name` and `repair`, which have errors of their own;
/// `new`, which makes the folder too; `explain`; and a `write` or `take` with options. `take_by` also says whether there was something.
///
/// It returns the error of the command, and leaves what that command leaves: see `echo`, `cycle`, `init`, `write`,
/// `read`, `take`, `drop_before`, `check`, `stat`, `dump`, `salvage` and `migrate`. `FolderFault` and `FileFault` come only if
/// a call on the folder returned `Device`, or its count of those is at its end.
///
/// An order that only prints changes no file, whatever it returns. The others change none before they begin to save.
/// `init` and `migrate` print nothing, and have no error of the writer. If images are faulty, their lines were written.
/// If the writer fails, all else of the order is done, its files are saved, and a beginning of its text was written and
/// nothing else.
pub fn run<F: Folder, R: Read, W: Write>(
    alloc: Global,
    order: &Order,
    folder: &mut F,
    input: &mut R,
    output: &mut W,
) -> Result<(), ToolFault>
    requires { IsPlain order.now }
    ensures ended { Ends order.now (streams (F.files folder.old) (F.files folder.new)
        (R.remaining input.old) (R.remaining input.new) (W.contents output.old) (W.contents output.new)) result }
    ensures counted { CountsFaults (F.failed folder.old) (F.failed folder.new) result }
{
    match order {
        Order::Echo => {
            echo(alloc, input, output)?;
            Ok(())
        }
        Order::Cycle {
            roll,
            epoch,
            moment,
        } => cycle(alloc, roll.as_str(), *epoch, *moment, output),
        Order::Init {
            folder: _,
            settings,
        } => init(alloc, folder, settings),
        Order::Write { folder: _, moment } => write(alloc, folder, *moment, input, output),
        Order::Read {
            folder: _,
            settings,
        } => read(alloc, folder, settings, output),
        Order::Take { folder: _, name } => take(alloc, folder, name.as_str(), output),
        Order::DropBefore { folder: _, cycle } => drop_before(alloc, folder, *cycle, output),
        Order::Check { folder: _ } => check(alloc, folder, output),
        Order::Stat { folder: _, json } => stat(alloc, folder, *json, output),
        Order::Dump { folder: _, file } => dump(alloc, folder, file.as_str(), output),
        Order::Salvage { folder: _, file } => salvage(alloc, folder, file.as_str(), output),
        Order::Migrate { folder: _ } => migrate(alloc, folder),
        Order::WriteBy { .. }
        | Order::Log { .. }
        | Order::Follow { .. }
        | Order::TakeBy { .. }
        | Order::Trim { .. }
        | Order::Race { .. }
        | Order::Names { .. }
        | Order::New { .. }
        | Order::Repair { .. }
        | Order::Explain { .. } => unreachable!(),
    }
}
