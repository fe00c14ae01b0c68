//! The lines of names with their positions.

ghost use Rattle.std.specs.Prelude.{◌≡◌, ◌++◌, IfOk, OnOk, string_bytes};
ghost use Rattle.cq_model.specs.Settings.{texts};
ghost use Rattle.cq_names.specs.Edits.{name_line, name_lines};

use cq_cycle::Index;
use std::alloc::{AllocError, Global};
use std::fmt::Write;

/// Returns a line for each name, with its position.
pub(crate) fn lines_of(
    alloc: Global,
    names: &[String],
    positions: &[u64],
) -> Result<Vec<u8>, AllocError>
    ensures { IfOk result (λ text. text.items ≡ name_lines (texts names.now) positions.now) }
{
    let mut text = String::new(alloc);
    for (name, position) in names.iter().zip(positions) {
        push_line(&mut text, name.as_str(), *position)?;
    }
    Ok(text.into_bytes())
}

/// Returns the line of a name at this position.
pub(crate) fn line_of(alloc: Global, name: &str, position: u64) -> Result<Vec<u8>, AllocError>
    ensures { IfOk result (λ line. line.items ≡ name_line name.now position) }
{
    let mut text = String::new(alloc);
    push_line(&mut text, name, position)?;
    Ok(text.into_bytes())
}

/// Adds the line of a name at this position to a text.
fn push_line(text: &mut String, name: &str, position: u64) -> Result<(), AllocError>
    ensures { OnOk result (string_bytes text.new ≡ string_bytes text.old ++ name_line name.now position) }
{
    let index = Index::of_value(position);
    writeln!(text, "{name} {index}")
}
