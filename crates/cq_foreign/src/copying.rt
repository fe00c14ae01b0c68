//! Copies of bytes into buffers.
ghost use Rattle.std.specs.Prelude.{◌<◌, ◌^◌, length};
ghost use Rattle.cq_foreign.specs.Copies.{CopiesBytes};

/// How a copy of bytes into a buffer went.
#[derive(Clone, Copy, Debug, PartialEq, Eq)]
pub enum Copied {
    /// That many bytes were copied: they are the first of the buffer.
    Whole(u32),
    /// That many bytes are to be copied, which is more than the buffer has. Nothing was.
    NoRoom(u32),
}

/// Copies bytes to the front of a buffer that is large enough. The bytes after them stay as they were.
pub fn copy_into(bytes: &[u8], room: &mut [u8]) -> Copied
    requires { length bytes.now < 2 ^ 32 }
    ensures { CopiesBytes bytes.now room.old room.new result }
{
    let length = bytes.len();
    if length > room.len() {
        return Copied::NoRoom(length as u32);
    }
    room[..length].copy_from_slice(bytes);
    Copied::Whole(length as u32)
}
