ghost use Rattle.std.specs.Prelude.{◌≤◌, length, IfOk, IfErr};
ghost use Rattle.std.specs.Io.KnownBytes.{Consumes, IsAtEnd};
ghost use Rattle.cq_text.specs.Input.{IsInputFault};

use crate::fault::ToolFault;
use std::alloc::Global;
use std::io::{ErrorKind, Read};

/// The number of reads after which a reader counts as one that does not end.
const MOST_READS: u32 = 16_777_216;

/// The size of one read, in bytes.
const BUFFER_BYTES: usize = 4096;

/// Returns all that the reader has left, at most `most` bytes. The reader is read to its end also if it has more; the
/// bytes past the limit are not stored.
///
/// Errors:
/// - `ReadFault`: a read failed, other than by an interruption, or the reader was read `MOST_READS` times without an
///   end.
/// - `InputTooLong`: the reader had more than `most` bytes.
/// - `OutOfMemory`: out of memory.
///
/// Contracts speak of bytes if the reader is in memory. It is at its end if its bytes are returned, and `InputTooLong`
/// comes only if it had more than `most` bytes.
pub fn read_input<R: Read>(alloc: Global, input: &mut R, most: usize) -> Result<Vec<u8>, ToolFault>
    ensures bytes { IfOk result (λ bytes. Consumes (R.remaining input.old) (R.remaining input.new) bytes.items) }
    ensures whole { IfOk result (λ _. IsAtEnd (R.remaining input.new)) }
    ensures small { IfOk result (λ bytes. length bytes.items ≤ most) }
    ensures fault { IfErr result (IsInputFault most (R.remaining input.old)) }
{
    let mut bytes = Vec::new(alloc);
    let mut is_too_long = false;
    let mut buffer = [0u8; BUFFER_BYTES];
    for _ in 0..MOST_READS {
        match input.read(&mut buffer) {
            Ok(0) if is_too_long => return Err(ToolFault::InputTooLong),
            Ok(0) => return Ok(bytes),
            Ok(count) if count > most - bytes.len() => is_too_long = true,
            Ok(count) => bytes.extend_from_slice(&buffer[..count])?,
            Err(error) if error.kind() == ErrorKind::Interrupted => {}
            Err(_) => return Err(ToolFault::ReadFault),
        }
    }
    Err(ToolFault::ReadFault)
}
