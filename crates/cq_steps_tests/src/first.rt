//! Steps at the first header of a queue that has no message.

ghost use Rattle.std.specs.Prelude.{◌≡◌, None, Some};
ghost use Rattle.cq_layout.specs.Room.{IsMessageLength};
ghost use Rattle.cq_words.specs.Rule.{first_mark};
ghost use Rattle.cq_words.specs.Values.{IsOf};
ghost use Rattle.cq_steps_tests.specs.First.{AfterClaim};

use crate::claiming::has_place;
use cq_chain::Walker;
use cq_words::{Caller, Queue};

/// Claims the first header of the first slot for a message of at most this many bytes, if one fits an empty cycle.
/// Returns the header that was found.
pub fn claim_first(queue: &Queue, caller: &mut Caller, room: u32) -> Option<u32>
    requires of { IsOf queue.now caller.old }
    requires idle { caller.old.view.claim ≡ None }
    requires mark { caller.old.view.mark ≡ first_mark }
    requires length { IsMessageLength room }
    ensures of { IsOf queue.now caller.new }
    ensures claim { AfterClaim caller.old.view caller.new.view result }
{
    let walker = Walker::new(queue.config().shape());
    if !has_place(queue.config().layout(), walker, room) {
        return None;
    }
    let word = queue.cell_word(0, walker.position());
    Some(queue.claim(caller, 0, walker, word, 0, room))
}
