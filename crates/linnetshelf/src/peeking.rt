//! Looking up the next message. It copies nothing, and allocates nothing.
ghost use Rattle.std.specs.Prelude.{◌≡◌};
ghost use Rattle.cq_endpoint.specs.Endpoints.{ChangesTailer};
ghost use Rattle.cq_endpoint.specs.Reads.{PeekSays};
ghost use Rattle.linnetshelf.specs.Answers.{Tells, peek_answer, plain};
ghost use Rattle.linnetshelf.specs.Handles.{OnEndpoint};
ghost use Rattle.linnetshelf.specs.declared.status.Status.TheVariants.{WrongKind};

use crate::answer::{Answer, plain};
use crate::calling::on_held;
use crate::rooms::read;
use crate::status::Status;
use cq_endpoint::NextPeeked;
use cq_handle::{Handle, Held};

/// Returns the index and the length of the next message in the endpoint's direction, which is the one that the next read
/// finds. The message is not read, and the endpoint stays where it is.
///
/// - `NotYet`, `Finished`, `BeforeStart`: there is no such message.
#[unsafe(no_mangle)]
pub extern "C" fn linnetshelf_peek(handle: &mut Handle) -> Answer
    ensures { OnEndpoint handle.old.held handle.new.held (result ≡ plain WrongKind) (λ old new.
        Tells (PeekSays old.queue old.tailer new.tailer) peek_answer result × ChangesTailer old new) }
{
    on_held!(handle, Held::Endpoint(endpoint) => peek_answer(endpoint.peek()), else plain)
}

/// Makes the answer of `peek`.
fn peek_answer(said: NextPeeked) -> Answer
    ensures { result ≡ peek_answer said }
{
    match said {
        NextPeeked::Message(index, len) => read(index.value(), len),
        NextPeeked::NotYet => plain(Status::NotYet),
        NextPeeked::Finished => plain(Status::Finished),
        NextPeeked::BeforeStart => plain(Status::BeforeStart),
    }
}
