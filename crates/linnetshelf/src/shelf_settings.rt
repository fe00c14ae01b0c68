//! The settings of a shelf, as C gives them.
ghost use Rattle.std.specs.Prelude.{IfNone, IfSome, ◌≡◌};
ghost use Rattle.linnetshelf.specs.Shelves.{HasNoLimit, limit_number};

use crate::settings::Settings;
use cq_shelf::AtLimit;

/// How a shelf is made. The names of the tailers of its queues are a text next to it, with a line for each.
#[repr(C)]
#[derive(Clone, Copy)]
pub struct ShelfSettings {
    /// How each of its queues is made.
    pub queue: Settings,
    /// How many of its queues may live at once: at least 2.
    pub most: u32,
    /// What happens where a new queue would be one more: 0 appends are refused, 1 the oldest queue is dropped.
    pub at_limit: u32,
}

/// Returns what happens at the limit, by its number for C.
pub(crate) fn limit_of(number: u32) -> Option<AtLimit>
    ensures found { IfSome result (λ limit. limit_number limit ≡ number) }
    ensures none { IfNone result (HasNoLimit number) }
{
    match number {
        0 => Some(AtLimit::Refuse),
        1 => Some(AtLimit::DropOldest),
        _ => None,
    }
}
