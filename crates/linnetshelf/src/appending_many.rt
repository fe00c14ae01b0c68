//! Appending many messages by one call.
ghost use Rattle.std.specs.Prelude.{◌≡◌, ◌≤◌, IfErr, IfOk, Ok, length, take};
ghost use Rattle.cq_endpoint.specs.Endpoints.{ChangesWork};
ghost use Rattle.cq_endpoint.specs.Works.{Appends};
ghost use Rattle.linnetshelf.specs.Answers.{Tells};
ghost use Rattle.linnetshelf.specs.Handles.{OnEndpoint};
ghost use Rattle.linnetshelf.specs.Many.{AppendsMany, StopsAppending, appended_answer, many_plain};
ghost use Rattle.linnetshelf.specs.declared.status.Status.TheVariants.{WrongKind};

use crate::calling::on_held;
use crate::many::{AppendStop, Appended, Many, appended_answer, many_plain};
use cq_endpoint::Endpoint;
use cq_handle::{Handle, Held};

/// Appends messages, one after the other, as many calls of `linnetshelf_append` with this moment do, and stops at the
/// first that is refused. Their bytes follow each other in `bytes`; `lengths` are their lengths, in bytes. Returns how
/// many were appended, the index of the last of them, and why the next one was not.
///
/// - `NoRoom`: fewer bytes are left than the next message has. The answer has its length.
/// - Anything else: as `linnetshelf_append`.
#[unsafe(no_mangle)]
pub extern "C" fn linnetshelf_append_many(
    handle: &mut Handle,
    moment: u64,
    bytes: &[u8],
    lengths: &[u32],
) -> Many
    ensures { OnEndpoint handle.old.held handle.new.held (result ≡ many_plain WrongKind) (λ old new.
        Tells (AppendsMany old.queue old.work moment bytes.now lengths.now new.work) appended_answer result
        × ChangesWork old new) }
{
    on_held!(handle, Held::Endpoint(endpoint) => {
        appended_answer(append_many(endpoint, moment, bytes, lengths))
    }, else many_plain)
}

fn append_many(endpoint: &mut Endpoint, moment: u64, bytes: &[u8], lengths: &[u32]) -> Appended
    ensures says { AppendsMany endpoint.old.queue endpoint.old.work moment bytes.now lengths.now endpoint.new.work result }
    ensures rest { ChangesWork endpoint.old endpoint.new }
{
    let mut rest = bytes;
    let mut last = 0;
    for (count, &length) in lengths.iter().enumerate() {
        match append_front(endpoint, moment, rest, length) {
            Ok(index) => {
                last = index;
                rest = &rest[length as usize..];
            }
            Err(stop) => return Appended::new(count, last, Some(stop)),
        }
    }
    Appended::new(lengths.len(), last, None)
}

/// Appends the first bytes, of this length, as a message, and returns its index.
fn append_front(
    endpoint: &mut Endpoint,
    moment: u64,
    bytes: &[u8],
    len: u32,
) -> Result<u64, AppendStop>
    ensures within { IfOk result (λ index. len ≤ length bytes.now) }
    ensures ok { IfOk result (λ index.
        Appends endpoint.old.queue endpoint.old.work moment (take len bytes.now) endpoint.new.work (Ok index)) }
    ensures err { IfErr result (λ stop.
        StopsAppending endpoint.old.queue moment endpoint.old.work bytes.now len endpoint.new.work stop) }
    ensures rest { ChangesWork endpoint.old endpoint.new }
{
    if (len as usize) > bytes.len() {
        return Err(AppendStop::Short(len));
    }
    match endpoint.append(moment, &bytes[..len as usize]) {
        Ok(index) => Ok(index.value()),
        Err(fault) => Err(AppendStop::Refused(fault)),
    }
}
