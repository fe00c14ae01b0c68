//! Names, their positions, and takes. A name is the UTF-8 bytes of a text. Other bytes are no name of a queue, and
//! nothing changes then.
ghost use Rattle.std.specs.Prelude.{◌≡◌};
ghost use Rattle.cq_endpoint.specs.Endpoints.{ChangesTailer};
ghost use Rattle.linnetshelf.specs.Answers.{Tells, plain, position_answer, seek_answer};
ghost use Rattle.linnetshelf.specs.Handles.{OnEndpoint};
ghost use Rattle.linnetshelf.specs.Reads.{SeeksName, TellsName};
ghost use Rattle.linnetshelf.specs.declared.status.Status.TheVariants.{WrongKind};

use crate::answer::{Answer, plain, position_answer, seek_answer};
use crate::calling::on_held;
use cq_endpoint::{Endpoint, NoSuchName, SeekFault, Sought};
use cq_handle::{Handle, Held};

/// Returns the position of a name: the next message that is taken by it has this index or a later one.
#[unsafe(no_mangle)]
pub extern "C" fn linnetshelf_position(handle: &mut Handle, name: &[u8]) -> Answer
    ensures { OnEndpoint handle.old.held handle.new.held (result ≡ plain WrongKind) (λ old new.
        Tells (TellsName old new name.now) position_answer result × ChangesTailer old new) }
{
    on_held!(handle, Held::Endpoint(endpoint) => {
        position_answer(position(endpoint, name))
    }, else plain)
}

fn position(endpoint: &mut Endpoint, name: &[u8]) -> Result<u64, NoSuchName>
    ensures says { TellsName endpoint.old endpoint.new name.now result }
    ensures rest { ChangesTailer endpoint.old endpoint.new }
{
    match str::from_utf8(name) {
        Ok(name) => endpoint.position(name),
        Err(_) => Err(NoSuchName),
    }
}

/// Moves a name from position `from` to position `to`.
///
/// - `Moved`: the name is elsewhere and was not moved; the answer has its position.
/// - `NotSeen`: `to` is after the end that the endpoint has seen.
/// - `NoSuchName`: the queue declares no such name.
#[unsafe(no_mangle)]
pub extern "C" fn linnetshelf_seek(handle: &mut Handle, name: &[u8], from: u64, to: u64) -> Answer
    ensures { OnEndpoint handle.old.held handle.new.held (result ≡ plain WrongKind) (λ old new.
        Tells (SeeksName old new name.now from to) seek_answer result × ChangesTailer old new) }
{
    on_held!(handle, Held::Endpoint(endpoint) => {
        seek_answer(seek(endpoint, name, from, to))
    }, else plain)
}

fn seek(endpoint: &mut Endpoint, name: &[u8], from: u64, to: u64) -> Result<Sought, SeekFault>
    ensures says { SeeksName endpoint.old endpoint.new name.now from to result }
    ensures rest { ChangesTailer endpoint.old endpoint.new }
{
    match str::from_utf8(name) {
        Ok(name) => endpoint.seek(name, from, to),
        Err(_) => Err(SeekFault::NoSuchName),
    }
}
