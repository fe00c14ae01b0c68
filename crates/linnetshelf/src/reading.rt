//! Moving an endpoint to where it reads, and dropping old cycles.
ghost use Rattle.std.specs.Prelude.{◌≡◌, IfNone, IfSome};
ghost use Rattle.cq_endpoint.specs.Endpoints.{ChangesTailer};
ghost use Rattle.cq_model.specs.declared.history.Answer.TheVariants.{Ends};
ghost use Rattle.cq_model.specs.declared.history.Event.TheVariants.{End};
ghost use Rattle.cq_tail.specs.Tailers.{Answered, MovesTo};
ghost use Rattle.linnetshelf.specs.Answers.{Tells, direction_answer, done, drop_answer, end_answer, move_answer, plain};
ghost use Rattle.linnetshelf.specs.Handles.{OnEndpoint};
ghost use Rattle.linnetshelf.specs.Reads.{Drops, HasNoDirection, SeesEnd, Turns, direction_number};
ghost use Rattle.linnetshelf.specs.Statuses.{number};
ghost use Rattle.linnetshelf.specs.declared.status.Status.TheVariants.{Done, WrongKind};

use crate::answer::{Answer, direction_answer, done, drop_answer, end_answer, move_answer, plain};
use crate::calling::on_held;
use crate::status::Status;
use cq_cycle::Index;
use cq_endpoint::{Direction, Endpoint};
use cq_handle::{Handle, Held};

/// Returns the gap between messages at which the endpoint reads: the next message forwards has this index or
/// a later one.
#[unsafe(no_mangle)]
pub extern "C" fn linnetshelf_cursor(handle: &mut Handle) -> Answer
    ensures { OnEndpoint handle.old.held handle.new.held (result ≡ plain WrongKind) (λ old new.
        (result ≡ done old.tailer.cursor) × (new ≡ old)) }
{
    on_held!(handle, Held::Endpoint(endpoint) => done(endpoint.cursor()), else plain)
}

/// Sets the direction of the endpoint: 0 forwards, 1 backwards. Returns `BadDirection` if no direction has this
/// number.
#[unsafe(no_mangle)]
pub extern "C" fn linnetshelf_direction(handle: &mut Handle, way: u32) -> u32
    ensures { OnEndpoint handle.old.held handle.new.held (result ≡ number WrongKind) (λ old new.
        Tells (Turns old new way) direction_answer result) }
{
    on_held!(handle, Held::Endpoint(endpoint) => {
        direction_answer(turn(endpoint, way))
    }, else Status::number)
}

/// Sets the direction of an endpoint to the one that has this number, and returns it.
fn turn(endpoint: &mut Endpoint, way: u32) -> Option<Direction>
    ensures { Turns endpoint.old endpoint.new way result }
{
    let way = direction_of(way)?;
    endpoint.direction(way);
    Some(way)
}

/// Returns the direction that has this number for C.
pub(crate) fn direction_of(number: u32) -> Option<Direction>
    ensures found { IfSome result (λ way. direction_number way ≡ number) }
    ensures none { IfNone result (HasNoDirection number) }
{
    match number {
        0 => Some(Direction::Forwards),
        1 => Some(Direction::Backwards),
        _ => None,
    }
}

/// Moves before the first message.
#[unsafe(no_mangle)]
pub extern "C" fn linnetshelf_to_start(handle: &mut Handle) -> u32
    ensures { OnEndpoint handle.old.held handle.new.held (result ≡ number WrongKind) (λ old new.
        (result ≡ number Done) × (new ≡ record old { tailer = record old.tailer { cursor = 0 } })) }
{
    on_held!(handle, Held::Endpoint(endpoint) => {
        endpoint.to_start();
        Status::Done.number()
    }, else Status::number)
}

/// Moves to the end of the queue, and returns it: the index that the next message of the current cycle gets.
#[unsafe(no_mangle)]
pub extern "C" fn linnetshelf_to_end(handle: &mut Handle) -> Answer
    ensures { OnEndpoint handle.old.held handle.new.held (result ≡ plain WrongKind) (λ old new.
        Tells (λ end. Answered old.queue old.tailer new.tailer End (Ends end) end) done result × ChangesTailer old new) }
{
    on_held!(handle, Held::Endpoint(endpoint) => done(endpoint.to_end()), else plain)
}

/// Returns the end of the queue: the index that the next message of the current cycle gets. The endpoint stays where it
/// is, and has seen this end.
///
/// - `OutOfMemory`: the queue has as many endpoints as it may have, and the end is looked up by one more.
#[unsafe(no_mangle)]
pub extern "C" fn linnetshelf_end(handle: &mut Handle) -> Answer
    ensures { OnEndpoint handle.old.held handle.new.held (result ≡ plain WrongKind) (λ old new.
        Tells (SeesEnd old new) end_answer result) }
{
    on_held!(handle, Held::Endpoint(endpoint) => end_answer(see_end(endpoint)), else plain)
}

/// Returns the end, which another endpoint moves to that is split off and meets this one. Returns `None` if none can be
/// split off.
fn see_end(endpoint: &mut Endpoint) -> Option<u64>
    ensures { SeesEnd endpoint.old endpoint.new result }
{
    match endpoint.split() {
        Ok(mut other) => {
            let end = other.to_end();
            endpoint.meet(&mut other);
            Some(end)
        }
        Err(_) => None,
    }
}

/// Moves to an index if a message is there, in a cycle that is not dropped. If none is there it returns `NoMessage`,
/// and the endpoint stays where it is.
#[unsafe(no_mangle)]
pub extern "C" fn linnetshelf_move_to(handle: &mut Handle, index: u64) -> u32
    ensures { OnEndpoint handle.old.held handle.new.held (result ≡ number WrongKind) (λ old new.
        Tells (MovesTo old.queue old.tailer new.tailer index) move_answer result × ChangesTailer old new) }
{
    on_held!(handle, Held::Endpoint(endpoint) => {
        move_answer(endpoint.move_to(Index::of_value(index)))
    }, else Status::number)
}

/// Drops the cycles below this one: reads and takes of all callers skip them from then on. Returns the floor,
/// below which all cycles are skipped.
///
/// - `NotSeen`: the cycle is above that of the end that the endpoint has seen.
#[unsafe(no_mangle)]
pub extern "C" fn linnetshelf_drop_before(handle: &mut Handle, cycle: u32) -> Answer
    ensures { OnEndpoint handle.old.held handle.new.held (result ≡ plain WrongKind) (λ old new.
        Tells (Drops old new cycle) drop_answer result × ChangesTailer old new) }
{
    on_held!(handle, Held::Endpoint(endpoint) => {
        drop_answer(endpoint.drop_before(cycle))
    }, else plain)
}
