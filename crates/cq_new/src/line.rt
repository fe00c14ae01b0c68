//! The line of `init` that makes the same queue.

ghost use Rattle.std.specs.Prelude.{◌≡◌, ◌++◌, IfOk, OnOk, string_bytes};
ghost use Rattle.std.specs.List.{list_all};
ghost use Rattle.cq_new.specs.Line.{dashes_for, has_option, have_option, init_line, is_option, is_plain, is_word, numbers_of, quoted, word_of};

use cq_orders::InitSettings;
use std::alloc::{AllocError, Global};
use std::fmt::Write;

/// Returns the command line that makes a queue with these settings in a folder that is there: `cq init DIR daily 0 65536 64 16 64
/// reader`. It has no line feed at its end.
///
/// The folder, the roll and the names are words as a POSIX shell reads them: in single quotes, unless each byte is one of
/// `A-Z`, `a-z`, `0-9`, `_`, `-`, `.` and `/`. If one of them begins with `-`, `--` is before the folder, so that `init` reads
/// none as an option.
///
/// - `AllocError`: out of memory.
pub fn init_line(alloc: Global, folder: &str, settings: &InitSettings) -> Result<String, AllocError>
    ensures { IfOk result (λ line. string_bytes line ≡ init_line folder.now settings.now) }
{
    let mut line = String::from_str(alloc, "cq init ")?;
    line.push_str(dashes_for(folder, settings))?;
    push_word(&mut line, folder)?;
    line.push(' ')?;
    push_word(&mut line, settings.roll.as_str())?;
    push_numbers(&mut line, settings)?;
    for name in &settings.names {
        line.push(' ')?;
        push_word(&mut line, name.as_str())?;
    }
    Ok(line)
}

/// Returns `--` and a space if `init` would read one of the words as an option, and nothing if not.
fn dashes_for(folder: &str, settings: &InitSettings) -> &'static str
    ensures { result.now ≡ dashes_for folder.now settings.now }
{
    if has_option(folder, settings) {
        "-- "
    } else {
        ""
    }
}

/// Returns whether a command would read the folder, the roll or a name as an option.
fn has_option(folder: &str, settings: &InitSettings) -> bool
    ensures { result ≡ has_option folder.now settings.now }
{
    if is_option(folder) || is_option(settings.roll.as_str()) {
        return true;
    }
    have_option(settings.names.as_slice())
}

/// Returns whether a command would read one of these words as an option.
fn have_option(words: &[String]) -> bool
    ensures { result ≡ have_option words.now }
{
    words.iter().any(|word| is_option(word.as_str()))
}

/// Returns whether a command would read a text as an option: it begins with `-`.
fn is_option(text: &str) -> bool
    ensures { result ≡ is_option text.now }
{
    match text.as_bytes().first() {
        Some(byte) => *byte == b'-',
        None => false,
    }
}

/// Adds the numbers of the settings, each after a space.
fn push_numbers(line: &mut String, settings: &InitSettings) -> Result<(), AllocError>
    ensures { OnOk result (string_bytes line.new ≡ string_bytes line.old ++ numbers_of settings.now) }
{
    let epoch = settings.epoch;
    let cells = settings.cells;
    let index_count = settings.index_count;
    let index_spacing = settings.index_spacing;
    let cycles = settings.cycles;
    write!(
        line,
        " {epoch} {cells} {index_count} {index_spacing} {cycles}"
    )
}

/// Adds a text as one word of a shell.
fn push_word(line: &mut String, text: &str) -> Result<(), AllocError>
    ensures { OnOk result (string_bytes line.new ≡ string_bytes line.old ++ word_of text.now) }
{
    if is_word(text.as_bytes()) {
        return line.push_str(text);
    }
    line.push('\'')?;
    push_quoted(line, text)?;
    line.push('\'')
}

/// Returns whether a shell reads these bytes as one word and as they are.
fn is_word(bytes: &[u8]) -> bool
    ensures { result ≡ is_word bytes.now }
{
    !bytes.is_empty() && are_plain(bytes)
}

/// Returns whether each byte is a letter, a digit, or one of `_`, `-`, `.` and `/`.
fn are_plain(bytes: &[u8]) -> bool
    ensures { result ≡ list_all is_plain bytes.now }
{
    bytes.iter().all(|byte| is_plain(*byte))
}

/// Adds a text as it is inside single quotes.
fn push_quoted(line: &mut String, text: &str) -> Result<(), AllocError>
    ensures { OnOk result (string_bytes line.new ≡ string_bytes line.old ++ quoted text.now) }
{
    let mut rest = text;
    while let Some((front, back)) = rest.split_once('\'') {
        line.push_str(front)?;
        line.push_str("'\\''")?;
        rest = back;
    }
    line.push_str(rest)
}

/// Returns whether a byte is a letter, a digit, or one of `_`, `-`, `.` and `/`.
fn is_plain(byte: u8) -> bool
    ensures { result ≡ is_plain byte }
{
    matches!(byte, b'A'..=b'Z' | b'a'..=b'z' | b'-'..=b'9' | b'_')
}
