//! Appending messages to a shelf, whole or in parts, and closing it.
ghost use Rattle.std.specs.Prelude.{◌≡◌};
ghost use Rattle.cq_shelf.specs.Writes.{AdvancesOn, AppendsOn, BeginsOn, CompletesOn, GivesUpOn, PutsOn};
ghost use Rattle.linnetshelf.specs.Answers.{Tells, plain, put_answer, roll_back_answer};
ghost use Rattle.linnetshelf.specs.Handles.{OnShelfWriter};
ghost use Rattle.linnetshelf.specs.ShelfAnswers.{complete_answer, cycle_answer, done_answer, place_answer, shelf_plain};
ghost use Rattle.linnetshelf.specs.Shelves.{ClosesOn, FollowsOn};
ghost use Rattle.linnetshelf.specs.Statuses.{number};
ghost use Rattle.linnetshelf.specs.declared.status.Status.TheVariants.{WrongKind};

use crate::answer::{Answer, plain, put_answer, roll_back_answer};
use crate::calling::on_held;
use crate::shelf_answer::{
    ShelfAnswer, complete_answer, cycle_answer, done_answer, place_answer, shelf_plain,
};
use crate::status::Status;
use cq_handle::{Handle, Held, ShelfUser};
use std::alloc::Global;

/// Appends a message in the cycle of `moment`, in milliseconds of Unix time, or in the current cycle if that is later.
/// Returns the number of its queue and its index there. `ShelfWriter::append` says what is refused.
#[unsafe(no_mangle)]
pub extern "C" fn linnetshelf_shelf_append(
    alloc: Global,
    handle: &mut Handle,
    moment: u64,
    bytes: &[u8],
) -> ShelfAnswer
    ensures { OnShelfWriter handle.old.held handle.new.held (result ≡ shelf_plain WrongKind) (λ old new.
        Tells (AppendsOn moment bytes.now old.place new.place) place_answer result) }
{
    on_held!(handle, Held::Shelf(ShelfUser::Writer(writer)) => {
        place_answer(writer.append(alloc, moment, bytes))
    }, else shelf_plain)
}

/// Begins a message of at most `room` bytes in the cycle of `moment`. No other writer begins a message before this one
/// is completed or given up.
#[unsafe(no_mangle)]
pub extern "C" fn linnetshelf_shelf_begin(
    alloc: Global,
    handle: &mut Handle,
    moment: u64,
    room: u32,
) -> u32
    ensures { OnShelfWriter handle.old.held handle.new.held (result ≡ number WrongKind) (λ old new.
        Tells (BeginsOn moment room old.place new.place) done_answer result) }
{
    on_held!(handle, Held::Shelf(ShelfUser::Writer(writer)) => {
        done_answer(writer.begin(alloc, moment, room))
    }, else Status::number)
}

/// Puts bytes after those that were put into the message that is begun.
#[unsafe(no_mangle)]
pub extern "C" fn linnetshelf_shelf_put(handle: &mut Handle, bytes: &[u8]) -> u32
    ensures { OnShelfWriter handle.old.held handle.new.held (result ≡ number WrongKind) (λ old new.
        Tells (PutsOn bytes.now old.place new.place) put_answer result) }
{
    on_held!(handle, Held::Shelf(ShelfUser::Writer(writer)) => {
        put_answer(writer.put(bytes))
    }, else Status::number)
}

/// Appends the message that is begun, and returns the number of its queue and its index there.
#[unsafe(no_mangle)]
pub extern "C" fn linnetshelf_shelf_complete(handle: &mut Handle) -> ShelfAnswer
    ensures { OnShelfWriter handle.old.held handle.new.held (result ≡ shelf_plain WrongKind) (λ old new.
        Tells (CompletesOn old.place new.place) complete_answer result) }
{
    on_held!(handle, Held::Shelf(ShelfUser::Writer(writer)) => {
        complete_answer(writer.complete())
    }, else shelf_plain)
}

/// Gives up the message that is begun.
#[unsafe(no_mangle)]
pub extern "C" fn linnetshelf_shelf_roll_back(handle: &mut Handle) -> u32
    ensures { OnShelfWriter handle.old.held handle.new.held (result ≡ number WrongKind) (λ old new.
        Tells (GivesUpOn old.place new.place) roll_back_answer result) }
{
    on_held!(handle, Held::Shelf(ShelfUser::Writer(writer)) => {
        roll_back_answer(writer.roll_back())
    }, else Status::number)
}

/// Begins the cycle of `moment` if it is above the current one, in its queue or in the next one. Returns the current
/// cycle, which is at least the one of the moment.
#[unsafe(no_mangle)]
pub extern "C" fn linnetshelf_shelf_advance(
    alloc: Global,
    handle: &mut Handle,
    moment: u64,
) -> Answer
    ensures { OnShelfWriter handle.old.held handle.new.held (result ≡ plain WrongKind) (λ old new.
        Tells (AdvancesOn moment old.place new.place) cycle_answer result) }
{
    on_held!(handle, Held::Shelf(ShelfUser::Writer(writer)) => {
        cycle_answer(writer.advance(alloc, moment))
    }, else plain)
}

/// Goes on to the last queue that has begun, and appends nothing. `ShelfWriter::follow` says what is refused.
#[unsafe(no_mangle)]
pub extern "C" fn linnetshelf_shelf_follow(handle: &mut Handle) -> u32
    ensures { OnShelfWriter handle.old.held handle.new.held (result ≡ number WrongKind) (λ old new.
        Tells (FollowsOn old.place new.place) done_answer result) }
{
    on_held!(handle, Held::Shelf(ShelfUser::Writer(writer)) => {
        done_answer(writer.follow())
    }, else Status::number)
}

/// Closes the shelf for all its writers: from then on nothing is appended or begun. `ShelfWriter::close` says what is
/// refused.
#[unsafe(no_mangle)]
pub extern "C" fn linnetshelf_shelf_close(handle: &mut Handle) -> u32
    ensures { OnShelfWriter handle.old.held handle.new.held (result ≡ number WrongKind) (λ old new.
        Tells (ClosesOn old.place new.place) done_answer result) }
{
    on_held!(handle, Held::Shelf(ShelfUser::Writer(writer)) => {
        done_answer(writer.close())
    }, else Status::number)
}
