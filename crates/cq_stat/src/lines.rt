//! What is said of a queue, as lines.

ghost use Rattle.std.specs.Prelude.{◌≡◌, ◌++◌, IfOk, OnOk, codes, string_bytes};
ghost use Rattle.std.specs.Fmt.{decimal};
ghost use Rattle.std.specs.List.{flat_map};
ghost use Rattle.cq_layout.specs.Version.{version_of, version_word};
ghost use Rattle.cq_cycle.specs.Index.{index_text};
ghost use Rattle.cq_cycle.specs.RollWord.{roll_word};
ghost use Rattle.cq_stat.specs.StatText.{cycle_line, end_lines, first_line, lines_of, name_line, settings_lines, shape_lines, state_word};

use crate::{CycleStat, NameStat, QueueStat};
use cq_cycle::Index;
use cq_layout::FolderVersion;
use cq_model::Config;
use std::alloc::{AllocError, Global};
use std::fmt::Write;

/// Returns what is said of a queue, as lines.
pub(crate) fn lines_of(alloc: Global, stat: &QueueStat) -> Result<String, AllocError>
    ensures { IfOk result (λ text. string_bytes text ≡ lines_of stat.now) }
{
    let mut text = String::new(alloc);
    push_settings(&mut text, &stat.config)?;
    push_shape(&mut text, &stat.config)?;
    push_cycles(&mut text, stat.cycles.as_slice())?;
    push_first(&mut text, stat.first)?;
    push_ends(&mut text, stat.floor, stat.end, stat.more_cycles)?;
    push_names(&mut text, stat.names.as_slice())?;
    Ok(text)
}

/// Adds the lines of the version, the roll and the epoch.
fn push_settings(text: &mut String, config: &Config) -> Result<(), AllocError>
    ensures { OnOk result (string_bytes text.new ≡ string_bytes text.old ++ settings_lines config.now) }
{
    let version = FolderVersion::of(config.layout().store());
    let roll = config.roll();
    let epoch = config.epoch();
    writeln!(text, "version {version}\nroll {roll}\nepoch {epoch}")
}

/// Adds the lines of the measures, and of how many cycles may begin.
fn push_shape(text: &mut String, config: &Config) -> Result<(), AllocError>
    ensures { OnOk result (string_bytes text.new ≡ string_bytes text.old ++ shape_lines config.now) }
{
    let cells = config.layout().cells();
    let count = config.layout().index_count();
    let spacing = config.layout().index_spacing();
    let cycles = config.cycles();
    writeln!(
        text,
        "cells {cells}\ncount {count}\nspacing {spacing}\ncycles {cycles}"
    )
}

/// Adds a line for each cycle.
fn push_cycles(text: &mut String, cycles: &[CycleStat]) -> Result<(), AllocError>
    ensures { OnOk result (string_bytes text.new ≡ string_bytes text.old ++ flat_map cycle_line cycles.now) }
{
    for cycle in cycles {
        push_cycle(text, cycle)?;
    }
    Ok(())
}

/// Adds the line of a cycle.
fn push_cycle(text: &mut String, cycle: &CycleStat) -> Result<(), AllocError>
    ensures { OnOk result (string_bytes text.new ≡ string_bytes text.old ++ cycle_line cycle.now) }
{
    let name = cycle.name.as_str();
    let facts = cycle.facts;
    write!(text, "cycle {name} {} {} ", facts.number, facts.messages)?;
    write!(
        text,
        "{} {} {} ",
        facts.bytes, facts.cells_used, facts.cells_left
    )?;
    writeln!(text, "{}", facts.state)
}

/// Adds the line of the first index that is left.
fn push_first(text: &mut String, first: Option<Index>) -> Result<(), AllocError>
    ensures { OnOk result (string_bytes text.new ≡ string_bytes text.old ++ first_line first) }
{
    match first {
        None => text.push_str("first none\n"),
        Some(index) => writeln!(text, "first {index}"),
    }
}

/// Adds the lines of the floor, of the end, and of how many cycles may still begin.
fn push_ends(text: &mut String, floor: u32, end: Index, more_cycles: u32) -> Result<(), AllocError>
    ensures { OnOk result (string_bytes text.new ≡ string_bytes text.old ++ end_lines floor end more_cycles) }
{
    writeln!(text, "floor {floor}\nend {end}\nmore_cycles {more_cycles}")
}

/// Adds a line for each name.
fn push_names(text: &mut String, names: &[NameStat]) -> Result<(), AllocError>
    ensures { OnOk result (string_bytes text.new ≡ string_bytes text.old ++ flat_map name_line names.now) }
{
    for name in names {
        push_name(text, name)?;
    }
    Ok(())
}

/// Adds the line of a name.
fn push_name(text: &mut String, stat: &NameStat) -> Result<(), AllocError>
    ensures { OnOk result (string_bytes text.new ≡ string_bytes text.old ++ name_line stat.now) }
{
    let name = stat.name.as_str();
    writeln!(text, "name {name} {} {}", stat.position, stat.messages_left)
}
