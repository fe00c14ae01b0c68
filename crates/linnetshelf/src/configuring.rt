//! The text of the file `queue.cqc`, which keeps the settings of a queue, the positions of its names, and its floor.
ghost use Rattle.std.specs.Prelude.{◌≡◌};
ghost use Rattle.linnetshelf.specs.Answers.{Tells, plain};
ghost use Rattle.linnetshelf.specs.Configs.{ReadsConfig, WritesConfig, config_answer};
ghost use Rattle.linnetshelf.specs.Handles.{OnSaved};
ghost use Rattle.linnetshelf.specs.Told.{copy_answer};
ghost use Rattle.linnetshelf.specs.declared.status.Status.TheVariants.{WrongKind};

use crate::answer::{Answer, answer_of, plain};
use crate::calling::on_held;
use crate::copying::copy_answer;
use crate::making::hand_out;
use crate::status::Status;
use cq_config_text::ConfigFault;
use cq_foreign::{Copied, copy_into};
use cq_handle::{Handle, Held};
use cq_saved::{Saved, TextFault};
use std::alloc::Global;

/// Reads the text of `queue.cqc`, and hands out a queue without cycles that has its settings, positions and floor. What was
/// saved is added to it.
///
/// - `BadSettings`: a line is not one of the format in its place, and the answer has its number, counted from 1. If the number
///   is 0, a setting, a name or the floor is outside its limits.
/// - `OutOfMemory`: out of memory.
#[unsafe(no_mangle)]
pub extern "C" fn linnetshelf_config_read(alloc: Global, text: &[u8], out: &mut Handle) -> Answer
    ensures { Tells (ReadsConfig text.now out.old.held out.new.held) config_answer result }
{
    config_answer(config_read(alloc, text, out))
}

fn config_read(alloc: Global, text: &[u8], out: &mut Handle) -> Result<Status, ConfigFault>
    ensures { ReadsConfig text.now out.old.held out.new.held result }
{
    match Saved::read_config(alloc, text) {
        Ok(saved) => Ok(hand_out(alloc, Held::Saved(saved), out)),
        Err(fault) => Err(fault),
    }
}

/// Makes the answer of `config_read`.
fn config_answer(said: Result<Status, ConfigFault>) -> Answer
    ensures { result ≡ config_answer said }
{
    match said {
        Ok(status) => plain(status),
        Err(ConfigFault::Line(line)) => answer_of(line, 0, Status::BadSettings),
        Err(ConfigFault::BadShape) | Err(ConfigFault::BadConfig) => plain(Status::BadSettings),
        Err(ConfigFault::OutOfMemory) => plain(Status::OutOfMemory),
    }
}

/// Copies the text of `queue.cqc` with the settings, the positions and the floor of what is saved to the front of a buffer.
/// Returns its length.
///
/// - `BadContents`: the floor is above the last cycle that a queue may have.
/// - `NoRoom`: the buffer is smaller. The answer has the length, and nothing is copied.
/// - `OutOfMemory`: out of memory. Nothing is copied.
#[unsafe(no_mangle)]
pub extern "C" fn linnetshelf_config_write(
    alloc: Global,
    handle: &mut Handle,
    room: &mut [u8],
) -> Answer
    ensures { OnSaved handle.old.held handle.new.held ((result ≡ plain WrongKind) × (room.new ≡ room.old)) (λ old new.
        Tells (WritesConfig old room.old room.new) copy_answer result × (new ≡ old)) }
{
    on_held!(handle, Held::Saved(saved) => copy_answer(config_into(alloc, saved, room)), else plain)
}

fn config_into(alloc: Global, saved: &Saved, room: &mut [u8]) -> Result<Copied, Status>
    ensures { WritesConfig saved.now room.old room.new result }
{
    match saved.config_text(alloc) {
        Ok(text) => Ok(copy_into(text.as_slice(), room)),
        Err(TextFault::BadContents) => Err(Status::BadContents),
        Err(TextFault::OutOfMemory) => Err(Status::OutOfMemory),
    }
}
