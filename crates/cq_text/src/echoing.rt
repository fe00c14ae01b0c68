ghost use Rattle.std.specs.Prelude.{◌≡◌, ◌≢◌, ℕ, List, length, IfOk, IfErr, IfSome, OnOk, None};
ghost use Rattle.std.specs.Io.KnownBytes.{Appends, Consumes, IsAtEnd, Keeps};
ghost use Rattle.cq_text.specs.Echo.{IsEchoFault, echo_fault, echo_text};
ghost use Rattle.cq_text.specs.Faults.{IsDeviceFault};
ghost use Rattle.cq_text.specs.Lines.{input_lines};
ghost use Rattle.cq_text.specs.Output.{AppendsBeginning};

use crate::fault::ToolFault;
use crate::input::read_input;
use crate::output::print;
use crate::text::echo_lines;
use std::alloc::Global;
use std::io::{Read, Write};

/// The most bytes that `echo` takes.
const MOST_BYTES: usize = 129_000;

/// The command `echo`: stores each line of the input as a data record, writes `NUMBER TEXT` for each record, numbered
/// from 0, and returns how many there are. A line ends with a line feed, and a last line without one counts. The whole
/// input is read first.
///
/// Errors, in this order:
/// - `ReadFault`: the reader failed, or was read 16,777,216 times without an end.
/// - `InputTooLong`: the input has more than 129,000 bytes.
/// - for the lines in order, counted from 1: `TooMany` from the 1,001st on, `Refused` as `BadRoom` if a line is empty,
///   `TooLong` above 128 bytes.
/// - `WriteFault`: the writer failed. A beginning of the text was written.
///
/// `OutOfMemory` can come at any growth. Nothing is written before an error other than `WriteFault`.
///
/// Which line or length is refused, and how, is a function of the input. `WriteFault` comes only for an input that is
/// accepted. Contracts speak of bytes if the reader and the writer are in memory.
pub fn echo<R: Read, W: Write>(
    alloc: Global,
    input: &mut R,
    output: &mut W,
) -> Result<u64, ToolFault>
    ensures consumed { OnOk result ((bytes : List ℕ) × Consumes (R.remaining input.old) (R.remaining input.new) bytes) }
    ensures ended { OnOk result (IsAtEnd (R.remaining input.new)) }
    ensures count { IfOk result (λ count. IfSome (R.remaining input.old) (λ bytes. count ≡ length (input_lines bytes))) }
    ensures accepted { OnOk result (IfSome (R.remaining input.old) (λ bytes. echo_fault bytes ≡ None)) }
    ensures written { OnOk result (IfSome (R.remaining input.old) (λ bytes.
        Appends (W.contents output.old) (W.contents output.new) (echo_text (input_lines bytes)))) }

    // A fault of the input is the one that the input has, and the output is tried only for an accepted input.
    ensures fault { IfErr result (λ fault. IfSome (R.remaining input.old) (λ bytes. IsEchoFault bytes fault)) }
    ensures silent { IfErr result (λ fault. fault ≢ ToolFault.WriteFault
        → Keeps (W.contents output.old) (W.contents output.new)) }
    ensures broken { IfErr result (λ fault. fault ≡ ToolFault.WriteFault → IfSome (R.remaining input.old) (λ bytes.
        AppendsBeginning (W.contents output.old) (W.contents output.new) (echo_text (input_lines bytes)))) }
    ensures device { IfErr result (λ fault. ¬ IsDeviceFault fault) }
{
    let bytes = read_input(alloc, input, MOST_BYTES)?;
    let (count, text) = echo_lines(alloc, bytes.as_slice())?;
    print(output, text.as_slice())?;
    Ok(count)
}
