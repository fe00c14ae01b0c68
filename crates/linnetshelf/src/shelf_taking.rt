//! Taking messages of a shelf by a name.
ghost use Rattle.std.specs.Prelude.{◌≡◌};
ghost use Rattle.cq_shelf.specs.Reads.{TakenIntoOn};
ghost use Rattle.linnetshelf.specs.Answers.{Tells};
ghost use Rattle.linnetshelf.specs.Handles.{OnShelfTaker};
ghost use Rattle.linnetshelf.specs.ShelfAnswers.{shelf_plain, take_answer};
ghost use Rattle.linnetshelf.specs.declared.status.Status.TheVariants.{WrongKind};

use crate::calling::on_held;
use crate::shelf_answer::{ShelfAnswer, shelf_plain, take_answer};
use cq_handle::{Handle, Held, ShelfUser};

/// Takes the next message of the taker's name into a buffer. Returns the number of its queue, its index there and its
/// length. At the end of a closed queue the name goes on to the next one.
///
/// - `NotYet`: no message has come for it.
/// - `Finished`: no message comes for it any more.
/// - `NoRoom`: the buffer has fewer bytes. The answer has the length, and nothing is taken.
/// - `Moved`: another taker has moved the name meanwhile. The answer has the position that was found, and nothing is
///   taken.
/// - `Missed`: queues were dropped before the name had taken all of them. The answer has how many.
/// - `Busy`, `OutOfMemory`: it did not go on to the next queue, and nothing is taken.
#[unsafe(no_mangle)]
pub extern "C" fn linnetshelf_shelf_take(handle: &mut Handle, room: &mut [u8]) -> ShelfAnswer
    ensures { OnShelfTaker handle.old.held handle.new.held ((result ≡ shelf_plain WrongKind) × (room.new ≡ room.old)) (λ old new.
        Tells (TakenIntoOn old room.old new room.new) take_answer result) }
{
    on_held!(handle, Held::Shelf(ShelfUser::Taker(taker)) => {
        take_answer(taker.take_into(room))
    }, else shelf_plain)
}
