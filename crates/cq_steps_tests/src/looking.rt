//! Loads of the header where a walk is.
ghost use Rattle.std.specs.Prelude.{◌≡◌};
ghost use Rattle.cq_shown.specs.Plans.{settings_in};
ghost use Rattle.cq_walks.specs.Trails.{IsTrail};
ghost use Rattle.cq_words.specs.Values.{IsOf};

use cq_walks::Trail;
use cq_words::{Ask, Caller, Queue};

/// Loads the header at which a trail is, which adds no event. Returns its 32 bits. One atomic load.
pub fn look(queue: &Queue, caller: &mut Caller, trail: &Trail) -> u32
    requires of { IsOf queue.now caller.old }
    requires trail { IsTrail (settings_in queue.now.plan) caller.old.view trail.now }
    ensures of { IsOf queue.now caller.new }
    ensures trail { IsTrail (settings_in queue.now.plan) caller.new.view trail.now }
    ensures claim { caller.new.view.claim ≡ caller.old.view.claim }
{
    let _seen_end = caller.seen_end();
    queue.look(caller, trail.slot, trail.walker, &Ask::Nothing)
}
