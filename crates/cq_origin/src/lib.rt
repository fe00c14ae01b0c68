//! When the cycles of a queue begin and how long they are, as store records say from version 2 on.
//!
//! | item | what it is for |
//! |---|---|
//! | `layout_of` | the layout of cycles with such a store record |
//! | `origin_of` | what such a store record says of its queue |
#![tactic(auto)]

ghost use Rattle.std.specs.Prelude.{◌≡◌};
ghost use Rattle.cq_origin.specs.Origins.{layout_of, origin_of};

use cq_cycle::Roll;
use cq_layout::{CURRENT_VERSION, Layout, Origin, Shape};

/// Returns the origin that a store record has in a queue with this roll and this epoch. The epoch is in milliseconds of
/// Unix time.
pub fn origin_of(roll: Roll, epoch: u64) -> Origin
    ensures { result ≡ origin_of roll epoch }
{
    Origin {
        epoch,
        roll_length: roll.millis() as u32,
    }
}

/// Returns the layout of a cycle of this shape with a store record of the current version, in a queue with this roll and
/// this epoch. The epoch is in milliseconds of Unix time.
pub fn layout_of(shape: Shape, roll: Roll, epoch: u64) -> Layout
    ensures { result ≡ layout_of shape roll epoch }
{
    Layout::new(shape, CURRENT_VERSION.store(origin_of(roll, epoch)))
}
