//! The faults of a table.

ghost use Rattle.std.specs.Prelude.{◌≡◌, ◌++◌, IfOk, OnOk, IsTrue};
ghost use Rattle.cq_advice.specs.Advice.{advice, fault_text, faults_for, faults_in, holds, is_about};
ghost use Rattle.cq_advice.specs.Seen.{fault_seen};
ghost use Rattle.cq_text.specs.Lines.{input_lines};

use cq_text::InputLines;
use std::alloc::{AllocError, Global};

/// A fault of a table.
#[derive(Clone, Copy, Drop)]
struct Fault<'a> {
    /// The part of its text that is the same in each message.
    fixed: &'a [u8],
    /// Its text.
    text: &'a [u8],
    /// What is printed below it, with tabs in place of line feeds.
    below: &'a [u8],
}

/// The faults of a table, in order. Each is three lines of it.
#[derive(Drop)]
struct Faults<'a> {
    lines: InputLines<'a>,
}

impl<'a> Iterator for Faults<'a> {
    ghost use Rattle.std.specs.Iterator.{YieldsFirstBy, item_count};
    ghost use Rattle.cq_advice.specs.Advice.{faults_in};
    ghost use Rattle.cq_advice.specs.Seen.{fault_seen};

    type Item = Fault<'a>;

    ghost next_gives = { YieldsFirstBy fault_seen (λ faults. faults_in (input_lines faults.lines.rest.now)) };

    ghost remaining = { item_count (λ faults. faults_in (input_lines faults.lines.rest.now)) };

    fn next(&mut self) -> Option<Fault<'a>> {
        let fixed = self.lines.next()?;
        let text = self.lines.next()?;
        let below = self.lines.next()?;
        Some(Fault { fixed, text, below })
    }
}

/// Returns the text of the faults of a table that are about what was given.
pub(crate) fn advice_for(alloc: Global, table: &[u8], given: &[u8]) -> Result<Vec<u8>, AllocError>
    ensures { IfOk result (λ text. text.items ≡ advice (faults_for given.now table.now)) }
{
    let mut text = Vec::new(alloc);
    let faults = Faults {
        lines: InputLines::of(table),
    };
    for fault in faults {
        if is_about(&fault, given) {
            push_fault(&mut text, &fault)?;
        }
    }
    Ok(text)
}

/// Returns whether what was given is in the fault's text, or a message with this fault is in what was given.
fn is_about(fault: &Fault, given: &[u8]) -> bool
    ensures { result ≡ is_about given.now (fault_seen fault.now) }
{
    holds(fault.text, given) || holds(given, fault.fixed)
}

/// Returns whether the part is somewhere in the text.
fn holds(text: &[u8], part: &[u8]) -> bool
    ensures { result ≡ holds text.now part.now }
{
    let mut rest = text;
    while !rest.starts_with(part) {
        match rest.split_first() {
            None => return false,
            Some((_, more)) => rest = more,
        }
    }
    true
}

/// Adds a fault as it is printed.
fn push_fault(text: &mut Vec<u8>, fault: &Fault) -> Result<(), AllocError>
    ensures { OnOk result (text.new.items ≡ text.old.items ++ fault_text (fault_seen fault.now)) }
{
    text.extend_from_slice(fault.text)?;
    for byte in fault.below {
        text.push(if *byte == b'\t' { b'\n' } else { *byte })?;
    }
    text.extend_from_slice(b"\n\n")
}
