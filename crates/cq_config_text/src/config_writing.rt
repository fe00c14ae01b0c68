//! Writes the text of the file `queue.cqc`.

ghost use Rattle.std.specs.Prelude.{◌≡◌, ◌≤◌, ◌++◌, ◌∷◌, [], codes, length, IfOk, OnOk, string_bytes};
ghost use Rattle.std.specs.Fmt.{decimal};
ghost use Rattle.cq_cycle.specs.RollWord.{roll_word};
ghost use Rattle.cq_config_text.specs.ConfigText.{IsTextOf, floor_lines, head_lines, line_of, lines_text, name_words};
ghost use Rattle.cq_layout.specs.Version.{version_word};

use cq_cycle::{LAST_CYCLE, Roll};
use cq_layout::FolderVersion;
use cq_model::Config;
use std::alloc::{AllocError, Global};
use std::fmt::Write;

/// Returns the text of `queue.cqc` with these settings, a position for each name in the order of the names, and this
/// floor (ours; Chronicle Queue has no rule for it). `read_config` reads these settings, positions and floor from it
/// again.
///
/// Errors:
/// - `AllocError`: out of memory, for the text.
pub fn write_config(
    alloc: Global,
    config: &Config,
    positions: &[u64],
    floor: u32,
) -> Result<Vec<u8>, AllocError>
    requires paired { length positions.now ≡ length config.now.names }
    requires low { floor ≤ LAST_CYCLE }
    ensures { IfOk result (λ text. IsTextOf config.now positions.now floor text.items) }
{
    let mut text = head_text(alloc, config)?;
    push_floor(&mut text, floor)?;
    for (name, position) in config.names().iter().zip(positions) {
        push_name(&mut text, name.as_str(), *position)?;
    }
    Ok(text.into_bytes())
}

/// Returns the lines that each text has.
fn head_text(alloc: Global, config: &Config) -> Result<String, AllocError>
    ensures { IfOk result (λ text. string_bytes text ≡ lines_text (head_lines config.now)) }
{
    let layout = config.layout();
    let mut text = first_lines(
        alloc,
        FolderVersion::of(layout.store()),
        config.roll(),
        config.epoch(),
    )?;
    push_shape(
        &mut text,
        layout.cells(),
        layout.index_count(),
        layout.index_spacing(),
    )?;
    writeln!(text, "cycles {}", config.cycles())?;
    Ok(text)
}

/// Returns the lines of the version, the roll and the epoch.
fn first_lines(
    alloc: Global,
    version: FolderVersion,
    roll: Roll,
    epoch: u64,
) -> Result<String, AllocError>
    ensures { IfOk result (λ text. string_bytes text
        ≡ codes "cq " ++ (version_word version ++ (codes "\nroll " ++ (roll_word roll
        ++ (codes "\nepoch " ++ (decimal epoch ++ codes "\n")))))) }
{
    format!(in alloc; "cq {version}\nroll {roll}\nepoch {epoch}\n")
}

/// Adds the lines of the three measures to the text.
fn push_shape(text: &mut String, cells: u32, count: u32, spacing: u32) -> Result<(), AllocError>
    ensures { OnOk result (string_bytes text.new ≡ string_bytes text.old
        ++ (codes "cells " ++ (decimal cells ++ (codes "\ncount " ++ (decimal count
        ++ (codes "\nspacing " ++ (decimal spacing ++ codes "\n"))))))) }
{
    writeln!(text, "cells {cells}\ncount {count}\nspacing {spacing}")
}

/// Adds the line of the floor to the text, if the floor is not 0.
fn push_floor(text: &mut String, floor: u32) -> Result<(), AllocError>
    ensures { OnOk result (string_bytes text.new ≡ string_bytes text.old ++ lines_text (floor_lines floor)) }
{
    if floor == 0 {
        return Ok(());
    }
    writeln!(text, "floor {floor}")
}

/// Adds the line of a name and its position to the text.
fn push_name(text: &mut String, name: &str, position: u64) -> Result<(), AllocError>
    ensures { OnOk result (string_bytes text.new
        ≡ string_bytes text.old ++ (line_of (name_words (name.now, position)) ++ 10 ∷ [])) }
{
    writeln!(text, "name {name} {position}")
}
