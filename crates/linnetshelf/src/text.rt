//! The texts of statuses.
ghost use Rattle.std.specs.Prelude.{◌≡◌, length};

use crate::status::Status;

/// Copies the text of a status to the front of a buffer, with a zero byte after it, if the buffer has the bytes for
/// both. Otherwise nothing is copied. Returns the length of the text in bytes. A number that no status has gets a text too.
#[unsafe(no_mangle)]
pub extern "C" fn linnetshelf_text(status: u32, room: &mut [u8]) -> usize
    ensures { length room.new ≡ length room.old }
{
    let text = match Status::of_number(status) {
        Some(status) => status.text().as_bytes(),
        None => b"no status has this number",
    };
    let length = text.len();
    if length < room.len() {
        room[..length].copy_from_slice(text);
        room[length] = 0;
    }
    length
}
