//! The command `explain`.

ghost use Rattle.std.specs.Prelude.{◌≡◌, ◌↔◌, ◌⊎◌, [], IfErr, IfOk, OnOk, string_bytes};
ghost use Rattle.std.specs.Io.KnownBytes.{Appends, Keeps};
ghost use Rattle.cq_advice.specs.Advice.{advice, faults_for, joined};
ghost use Rattle.cq_model.specs.Settings.{texts};
ghost use Rattle.cq_text.specs.Output.{AppendsBeginning};

use crate::faults::advice_for;
use crate::table::TABLE;
use cq_text::{ToolFault, print};
use std::alloc::{AllocError, Global};
use std::io::Write;

/// What `explain` found.
#[derive(Clone, Copy, Debug, Drop, PartialEq, Eq)]
pub enum Explained {
    /// One fault or more, which were printed.
    Known,
    /// No fault. Nothing was printed.
    Unknown,
}

/// The command `explain`: writes what the faults mean that are about these words, and what to do (ours; Chronicle Queue has no
/// rule for it). Without a word it writes this of all faults.
///
/// The words are joined by spaces. A fault is about them if they are in its text, as `folder` is in `folder fault`. It is also if
/// they have the part of its text in them that is the same in each message. So a message can be given as it was printed.
///
/// A fault is written as its text, its causes and what to do, and an empty line.
///
/// Errors:
/// - `WriteFault`: a beginning of the text was written;
/// - `OutOfMemory`: out of memory. Nothing was written.
pub fn explain<W: Write>(
    alloc: Global,
    words: &[String],
    output: &mut W,
) -> Result<Explained, ToolFault>
    ensures printed { OnOk result (Appends (W.contents output.old) (W.contents output.new)
        (advice (faults_for (joined (texts words.now)) TABLE.now))) }
    ensures found { IfOk result (λ explained. (explained ≡ Explained.Unknown)
        ↔ (faults_for (joined (texts words.now)) TABLE.now ≡ [])) }
    ensures silent { IfErr result (λ fault. fault ≡ ToolFault.OutOfMemory → Keeps (W.contents output.old) (W.contents output.new)) }
    ensures broken { IfErr result (λ fault. fault ≡ ToolFault.WriteFault → AppendsBeginning (W.contents output.old)
        (W.contents output.new) (advice (faults_for (joined (texts words.now)) TABLE.now))) }
    ensures fault { IfErr result (λ fault. (fault ≡ ToolFault.OutOfMemory) ⊎ (fault ≡ ToolFault.WriteFault)) }
{
    let given = joined(alloc, words)?;
    let text = advice_for(alloc, TABLE.as_bytes(), given.as_bytes())?;
    print(output, text.as_slice())?;
    Ok(explained_by(text.as_slice()))
}

/// Returns the words with a space between them.
fn joined(alloc: Global, words: &[String]) -> Result<String, AllocError>
    ensures { IfOk result (λ given. string_bytes given ≡ joined (texts words.now)) }
{
    let Some((first, more)) = words.split_first() else {
        return Ok(String::new(alloc));
    };
    let mut given = String::from_str(alloc, first.as_str())?;
    for word in more {
        given.push(' ')?;
        given.push_str(word.as_str())?;
    }
    Ok(given)
}

/// Returns what was found, by the text of it.
fn explained_by(text: &[u8]) -> Explained
    ensures { (result ≡ Explained.Unknown) ↔ (text.now ≡ []) }
{
    if text.is_empty() {
        Explained::Unknown
    } else {
        Explained::Known
    }
}
