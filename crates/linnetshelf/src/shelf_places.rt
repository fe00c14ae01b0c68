//! Where writers, readers and takers of a shelf are, and how many of its queues live.
ghost use Rattle.std.specs.Arc.{arc_value};
ghost use Rattle.std.specs.Prelude.{◌≡◌, ◌≤◌, vec_len};
ghost use Rattle.linnetshelf.specs.Answers.{Tells, done, plain};
ghost use Rattle.linnetshelf.specs.Handles.{OnShelf, OnShelfWriter};
ghost use Rattle.linnetshelf.specs.ShelfAnswers.{shelf_plain};
ghost use Rattle.linnetshelf.specs.Shelves.{TellsPlace, TellsQueue};
ghost use Rattle.linnetshelf.specs.declared.status.Status.TheVariants.{WrongKind};

use crate::answer::{Answer, done, plain};
use crate::calling::on_held;
use crate::shelf_answer::{ShelfAnswer, place_answer, shelf_plain};
use crate::status::Status;
use cq_handle::{Handle, Held, ShelfUser};

/// Returns where a reader is, or where the name of a taker is, as that sees it. The next message that is read forwards or
/// taken has this position or a later one.
#[unsafe(no_mangle)]
pub extern "C" fn linnetshelf_shelf_position(handle: &mut Handle) -> ShelfAnswer
    ensures { OnShelf handle.old.held handle.new.held (result ≡ shelf_plain WrongKind) (λ old new.
        TellsPlace old new result) }
{
    on_held!(handle, Held::Shelf(user) => position(user), else shelf_plain)
}

fn position(user: &mut ShelfUser) -> ShelfAnswer
    ensures { TellsPlace user.old user.new result }
{
    match user {
        ShelfUser::Writer(_) => shelf_plain(Status::WrongKind),
        ShelfUser::Reader(reader) => place_answer(Ok(reader.position())),
        ShelfUser::Taker(taker) => place_answer(taker.position()),
    }
}

/// Returns the number of the queue to which a writer appends, or which a reader reads, from 0.
#[unsafe(no_mangle)]
pub extern "C" fn linnetshelf_shelf_queue(handle: &mut Handle) -> Answer
    ensures { OnShelf handle.old.held handle.new.held (result ≡ plain WrongKind) (λ old new.
        TellsQueue old result × (new ≡ old)) }
{
    on_held!(handle, Held::Shelf(user) => queue(user), else plain)
}

fn queue(user: &ShelfUser) -> Answer
    ensures { TellsQueue user.now result }
{
    match user {
        ShelfUser::Writer(writer) => done(writer.queue()),
        ShelfUser::Reader(reader) => done(reader.queue()),
        ShelfUser::Taker(_) => plain(Status::WrongKind),
    }
}

/// Returns in how many places of a writer's shelf there is a queue, at most as many as it was made for. It may miss one that
/// another begins or leaves at that moment. A dropped queue that somebody still reads has no place.
#[unsafe(no_mangle)]
pub extern "C" fn linnetshelf_shelf_living(handle: &mut Handle) -> Answer
    ensures { OnShelfWriter handle.old.held handle.new.held (result ≡ plain WrongKind) (λ old new.
        Tells (λ said. said ≤ vec_len (arc_value old.place.row).spots) done result × (new ≡ old)) }
{
    on_held!(handle, Held::Shelf(ShelfUser::Writer(writer)) => done(writer.living()), else plain)
}
