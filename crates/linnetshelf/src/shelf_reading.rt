//! Reading messages of a shelf into buffers, and moving readers.
ghost use Rattle.std.specs.Prelude.{◌≡◌};
ghost use Rattle.cq_shelf.specs.Reads.{NextIntoOn};
ghost use Rattle.linnetshelf.specs.Answers.{Tells, direction_answer, plain};
ghost use Rattle.linnetshelf.specs.Handles.{OnShelfReader};
ghost use Rattle.linnetshelf.specs.ShelfAnswers.{done_answer, move_answer, next_answer, read_at_answer, shelf_plain};
ghost use Rattle.linnetshelf.specs.Shelves.{EndsOn, MovesTo, ReadsOn, StartsOn, TurnsReader};
ghost use Rattle.linnetshelf.specs.Statuses.{number};
ghost use Rattle.linnetshelf.specs.declared.status.Status.TheVariants.{WrongKind};

use crate::answer::{Answer, direction_answer, plain};
use crate::calling::on_held;
use crate::reading::direction_of;
use crate::shelf_answer::{
    ShelfAnswer, done_answer, move_answer, next_answer, read_at_answer, shelf_plain,
};
use crate::status::Status;
use cq_cycle::Index;
use cq_endpoint::Direction;
use cq_handle::{Handle, Held, ShelfUser};
use cq_shelf::{Position, ShelfReader};

/// Reads the next message in the reader's direction into a buffer. Returns the number of its queue, its index there and
/// its length. At the end of a closed queue it goes on to the next one; backwards, at the start of a queue, to the one
/// before.
///
/// - `NotYet`, `Finished`, `BeforeStart`: there is no such message.
/// - `NoRoom`: the buffer has fewer bytes. The answer has the length, and nothing is read.
/// - `Missed`: queues were dropped before they were read. The answer has how many.
/// - `Busy`, `OutOfMemory`: it did not go on to the next queue, and nothing is read.
#[unsafe(no_mangle)]
pub extern "C" fn linnetshelf_shelf_next(handle: &mut Handle, room: &mut [u8]) -> ShelfAnswer
    ensures { OnShelfReader handle.old.held handle.new.held ((result ≡ shelf_plain WrongKind) × (room.new ≡ room.old)) (λ old new.
        Tells (NextIntoOn old.place room.old new.place room.new) next_answer result) }
{
    on_held!(handle, Held::Shelf(ShelfUser::Reader(reader)) => {
        next_answer(reader.next_into(room))
    }, else shelf_plain)
}

/// Reads the message with this index in this queue into a buffer. Returns its length, and the reader stays where it is.
///
/// - `NotYet`, `Never`, `Gone`: no message is there that reads return.
/// - `NoRoom`: the buffer has fewer bytes. The answer has the length, and nothing is read.
/// - `Busy`, `OutOfMemory`: it did not come to that queue, and nothing is read.
#[unsafe(no_mangle)]
pub extern "C" fn linnetshelf_shelf_read_at(
    handle: &mut Handle,
    queue: u64,
    index: u64,
    room: &mut [u8],
) -> Answer
    ensures { OnShelfReader handle.old.held handle.new.held ((result ≡ plain WrongKind) × (room.new ≡ room.old)) (λ old new.
        Tells (ReadsOn queue index old.place room.old new.place room.new) read_at_answer result) }
{
    on_held!(handle, Held::Shelf(ShelfUser::Reader(reader)) => {
        read_at_answer(reader.read_at_into(position_of(queue, index), room))
    }, else plain)
}

/// The position of a queue and an index.
fn position_of(queue: u64, index: u64) -> Position
    ensures { result ≡ record { queue = queue; index = index } }
{
    Position {
        queue,
        index: Index::of_value(index),
    }
}

/// Sets the direction of the reader: 0 forwards, 1 backwards. Returns `BadDirection` if no direction has this number.
#[unsafe(no_mangle)]
pub extern "C" fn linnetshelf_shelf_direction(handle: &mut Handle, way: u32) -> u32
    ensures { OnShelfReader handle.old.held handle.new.held (result ≡ number WrongKind) (λ old new.
        Tells (TurnsReader old new way) direction_answer result) }
{
    on_held!(handle, Held::Shelf(ShelfUser::Reader(reader)) => {
        direction_answer(turn(reader, way))
    }, else Status::number)
}

/// Sets the direction of a reader to the one that has this number, and returns it.
fn turn(reader: &mut ShelfReader, way: u32) -> Option<Direction>
    ensures { TurnsReader reader.old reader.new way result }
{
    let way = direction_of(way)?;
    reader.direction(way);
    Some(way)
}

/// Moves to the message with this index in this queue, if one is there that is kept. If none is there it returns
/// `NoMessage`, and the reader stays where it is.
#[unsafe(no_mangle)]
pub extern "C" fn linnetshelf_shelf_move_to(handle: &mut Handle, queue: u64, index: u64) -> u32
    ensures { OnShelfReader handle.old.held handle.new.held (result ≡ number WrongKind) (λ old new.
        Tells (MovesTo queue index old.place new.place) move_answer result) }
{
    on_held!(handle, Held::Shelf(ShelfUser::Reader(reader)) => {
        move_answer(reader.move_to(position_of(queue, index)))
    }, else Status::number)
}

/// Moves before the first message of the oldest queue that is kept, and reads forwards then.
#[unsafe(no_mangle)]
pub extern "C" fn linnetshelf_shelf_to_start(handle: &mut Handle) -> u32
    ensures { OnShelfReader handle.old.held handle.new.held (result ≡ number WrongKind) (λ old new.
        Tells (StartsOn old.place new.place) done_answer result) }
{
    on_held!(handle, Held::Shelf(ShelfUser::Reader(reader)) => {
        done_answer(reader.to_start())
    }, else Status::number)
}

/// Moves to the end of the last queue that has begun, and reads forwards then.
#[unsafe(no_mangle)]
pub extern "C" fn linnetshelf_shelf_to_end(handle: &mut Handle) -> u32
    ensures { OnShelfReader handle.old.held handle.new.held (result ≡ number WrongKind) (λ old new.
        Tells (EndsOn old.place new.place) done_answer result) }
{
    on_held!(handle, Held::Shelf(ShelfUser::Reader(reader)) => {
        done_answer(reader.to_end())
    }, else Status::number)
}
