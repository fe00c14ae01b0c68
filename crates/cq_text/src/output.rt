ghost use Rattle.std.specs.Prelude.{◌≡◌, IfErr, OnErr, OnOk};
ghost use Rattle.std.specs.Io.KnownBytes.{Appends};
ghost use Rattle.cq_text.specs.Output.{AppendsBeginning};

use crate::fault::ToolFault;
use std::io::{ErrorKind, Write};

/// The number of interruptions of a write after which the writer counts as one that does not write.
const MOST_INTERRUPTIONS: usize = 16_777_216;

/// Writes a text, and flushes the writer. After an error a beginning of the text was written, and nothing else.
pub fn print<W: Write>(output: &mut W, text: &[u8]) -> Result<(), ToolFault>
    ensures written { OnOk result (Appends (W.contents output.old) (W.contents output.new) text.now) }
    ensures fault { IfErr result (λ fault. fault ≡ ToolFault.WriteFault) }
    ensures begun { OnErr result (AppendsBeginning (W.contents output.old) (W.contents output.new) text.now) }
{
    write_whole(output, text)?;
    output.flush().map_err(|_| ToolFault::WriteFault)
}

/// Writes a text. It has its own loop since `write_all` of `std` does not say what was written before its error.
fn write_whole<W: Write>(output: &mut W, text: &[u8]) -> Result<(), ToolFault>
    ensures written { OnOk result (Appends (W.contents output.old) (W.contents output.new) text.now) }
    ensures fault { IfErr result (λ fault. fault ≡ ToolFault.WriteFault) }
    ensures begun { OnErr result (AppendsBeginning (W.contents output.old) (W.contents output.new) text.now) }
{
    let mut rest = text;
    for _ in 0..text.len().saturating_add(MOST_INTERRUPTIONS) {
        if rest.is_empty() {
            return Ok(());
        }
        match output.write(rest) {
            Ok(0) => return Err(ToolFault::WriteFault),
            Ok(count) => rest = &rest[count..],
            Err(error) if error.kind() == ErrorKind::Interrupted => {}
            Err(_) => return Err(ToolFault::WriteFault),
        }
    }
    Err(ToolFault::WriteFault)
}
