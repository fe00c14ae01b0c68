//! The sizes of what crosses between C and the library.
use crate::answer::Answer;
use crate::log_calls::LogAnswer;
use crate::many::Many;
use crate::settings::Settings;
use crate::shelf_answer::ShelfAnswer;
use crate::shelf_settings::ShelfSettings;
use cq_handle::Handle;

/// Returns the size in bytes of a handle (0), of settings (1), of an answer (2), of an answer of a shelf (3), of the
/// settings of a shelf (4), of a call of a log (5) and of what a call returns that appends or reads many messages (6), for callers
/// that declare them by hand. For any other number it returns 0.
#[unsafe(no_mangle)]
pub extern "C" fn linnetshelf_size(which: u32) -> usize {
    match which {
        0 => size_of::<Handle>(),
        1 => size_of::<Settings>(),
        2 => size_of::<Answer>(),
        3 => size_of::<ShelfAnswer>(),
        4 => size_of::<ShelfSettings>(),
        5 => size_of::<LogAnswer>(),
        6 => size_of::<Many>(),
        _ => 0,
    }
}
