//! The lines of what is done.

ghost use Rattle.std.specs.Prelude.{◌≡◌, ◌++◌, IfOk, OnOk, length, string_bytes};
ghost use Rattle.cq_model.specs.Settings.{texts};
ghost use Rattle.cq_repair.specs.Kept.{file_line, kept_words, moved_words, name_line, name_lines, repair_text};
ghost use Rattle.cq_repair.specs.Plans.{IsKept};

use crate::finding::Found;
use crate::planning::{Kept, lowered};
use cq_cycle::Index;
use std::alloc::{AllocError, Global};
use std::fmt::Write;

/// Returns the line of the file, and a line for each name that moves.
pub(crate) fn text_for(
    alloc: Global,
    found: &Found,
    file: &str,
    kept: &Kept,
    dry_run: bool,
) -> Result<Vec<u8>, AllocError>
    requires { IsKept found.now kept.now }
    ensures { IfOk result (λ text. text.items ≡ repair_text dry_run file.now kept.now.ended found.now) }
{
    let mut text = String::new(alloc);
    push_file(&mut text, file, kept.messages.as_slice().len(), dry_run)?;
    let names = found.saved.config.names();
    let positions = found.saved.positions.as_slice();
    for (name, position) in names.iter().zip(positions) {
        push_name(&mut text, name.as_str(), *position, kept, dry_run)?;
    }
    Ok(text.into_bytes())
}

/// Adds the line of the file.
fn push_file(text: &mut String, file: &str, count: usize, dry_run: bool) -> Result<(), AllocError>
    ensures { OnOk result (string_bytes text.new ≡ string_bytes text.old ++ file_line dry_run file.now count) }
{
    let kept = kept_words(dry_run);
    writeln!(text, "{file}: {count}{kept}{file}.bad")
}

/// Adds the line of a name, if it moves.
fn push_name(
    text: &mut String,
    name: &str,
    position: u64,
    kept: &Kept,
    dry_run: bool,
) -> Result<(), AllocError>
    ensures { OnOk result (string_bytes text.new
        ≡ string_bytes text.old ++ name_line dry_run kept.now.ended kept.now.end name.now position) }
{
    let after = lowered(kept.ended, kept.end, position);
    if after == position {
        return Ok(());
    }
    let moved = moved_words(dry_run);
    let from = Index::of_value(position);
    let to = Index::of_value(after);
    writeln!(text, "{name}{moved}{from} to {to}")
}

/// Returns the words between the number of messages and the new name of the old file.
fn kept_words(dry_run: bool) -> &'static str
    ensures { result.now ≡ kept_words dry_run }
{
    if dry_run {
        " messages would be kept, the old file would be "
    } else {
        " messages kept, the old file is "
    }
}

/// Returns the words between a name and its old position.
fn moved_words(dry_run: bool) -> &'static str
    ensures { result.now ≡ moved_words dry_run }
{
    if dry_run {
        " would move from "
    } else {
        " moved from "
    }
}
