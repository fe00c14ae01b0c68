//! Reading many messages by one call. It allocates nothing.
ghost use Rattle.std.specs.Prelude.{◌≡◌};
ghost use Rattle.cq_endpoint.specs.Endpoints.{ChangesTailer};
ghost use Rattle.linnetshelf.specs.Answers.{Tells};
ghost use Rattle.linnetshelf.specs.Handles.{OnEndpoint};
ghost use Rattle.linnetshelf.specs.Many.{ReadsMany, many_plain, read_answer};
ghost use Rattle.linnetshelf.specs.declared.status.Status.TheVariants.{WrongKind};

use crate::answer::Answer;
use crate::calling::on_held;
use crate::many::{Many, ManyRead, many_plain, read_answer};
use crate::rooms::read;
use cq_endpoint::{Endpoint, NextInto};
use cq_handle::{Handle, Held};

/// Reads the next messages in the endpoint's direction, as many as there are places in `answers`, one after the other
/// into a buffer. In `answers` each gets what `linnetshelf_next` returns for it. Returns how many were read, the index
/// of the last of them, and why there are no more.
///
/// - `NotYet`, `Finished`, `BeforeStart`: there is no next message.
/// - `NoRoom`: the next message is longer than what is left of the buffer. The answer has its length, and it is not
///   read.
#[unsafe(no_mangle)]
pub extern "C" fn linnetshelf_next_many(
    handle: &mut Handle,
    room: &mut [u8],
    answers: &mut [Answer],
) -> Many
    ensures { OnEndpoint handle.old.held handle.new.held
        ((result ≡ many_plain WrongKind) × (room.new ≡ room.old) × (answers.new ≡ answers.old)) (λ old new.
        Tells (ReadsMany old.queue old.tailer new.tailer room.old room.new answers.old answers.new) read_answer result
        × ChangesTailer old new) }
{
    on_held!(handle, Held::Endpoint(endpoint) => {
        read_answer(next_many(endpoint, room, answers))
    }, else many_plain)
}

fn next_many(endpoint: &mut Endpoint, room: &mut [u8], answers: &mut [Answer]) -> ManyRead
    ensures says { ReadsMany endpoint.old.queue endpoint.old.tailer endpoint.new.tailer room.old room.new answers.old
        answers.new result }
    ensures rest { ChangesTailer endpoint.old endpoint.new }
{
    let mut end = 0;
    let mut last = 0;
    for count in 0..answers.len() {
        match endpoint.next_into(&mut room[end..]) {
            NextInto::Message(index, length) => {
                last = index.value();
                answers[count] = read(last, length);
                end += length as usize;
            }
            stop => return ManyRead::new(count, last, Some(stop)),
        }
    }
    ManyRead::new(answers.len(), last, None)
}
