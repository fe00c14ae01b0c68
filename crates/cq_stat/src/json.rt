//! What is said of a queue, as an object of JSON on one line.

ghost use Rattle.std.specs.Prelude.{◌≡◌, ◌++◌, IfOk, OnOk, string_bytes};
ghost use Rattle.std.specs.List.{flat_map};
ghost use Rattle.cq_stat.specs.StatJson.{cycle_cells, cycle_end, cycle_front, cycle_json, cycles_json, end_json, first_json, json_of, more_cycles_json, more_names_json, name_end, name_front, name_json, names_json, settings_json, shape_json};

use crate::{CycleStat, CycleState, NameStat, QueueStat};
use cq_cycle::{Index, Roll};
use cq_layout::{FolderVersion, Layout};
use std::alloc::{AllocError, Global};
use std::fmt::Write;

/// Returns what is said of a queue, as an object of JSON on one line. Names have only letters, digits, `_`, `-` and `.`,
/// so nothing in it has to be escaped.
pub(crate) fn json_of(alloc: Global, stat: &QueueStat) -> Result<String, AllocError>
    ensures { IfOk result (λ text. string_bytes text ≡ json_of stat.now) }
{
    let layout = stat.config.layout();
    let mut text = String::new(alloc);
    push_settings(
        &mut text,
        FolderVersion::of(layout.store()),
        stat.config.roll(),
        stat.config.epoch(),
    )?;
    push_shape(&mut text, layout, stat.config.cycles())?;
    push_cycles(&mut text, stat.cycles.as_slice())?;
    push_first(&mut text, stat.first)?;
    push_ends(&mut text, stat.floor, stat.end, stat.more_cycles)?;
    push_names(&mut text, stat.names.as_slice())?;
    text.push_str("]}\n")?;
    Ok(text)
}

/// Adds the beginning of the object: the version, the roll and the epoch.
#[tactic(auto, unfolding(crate::specs::StatJson::settings_json))]
fn push_settings(
    text: &mut String,
    version: FolderVersion,
    roll: Roll,
    epoch: u64,
) -> Result<(), AllocError>
    ensures { OnOk result (string_bytes text.new ≡ string_bytes text.old ++ settings_json version roll epoch) }
{
    write!(
        text,
        "{{\"version\":{version},\"roll\":\"{roll}\",\"epoch\":{epoch}"
    )
}

/// Adds the measures, and how many cycles may begin.
#[tactic(auto, unfolding(crate::specs::StatJson::shape_json))]
fn push_shape(text: &mut String, layout: Layout, cycles: u32) -> Result<(), AllocError>
    ensures { OnOk result (string_bytes text.new
        ≡ string_bytes text.old ++ shape_json layout.cells layout.index_count layout.index_spacing cycles) }
{
    let cells = layout.cells();
    let count = layout.index_count();
    let spacing = layout.index_spacing();
    write!(
        text,
        ",\"cells\":{cells},\"count\":{count},\"spacing\":{spacing},\"cycles\":{cycles},\"begun\":["
    )
}

/// Adds the cycles, with a comma between them.
fn push_cycles(text: &mut String, cycles: &[CycleStat]) -> Result<(), AllocError>
    ensures { OnOk result (string_bytes text.new ≡ string_bytes text.old ++ cycles_json cycles.now) }
{
    let Some((first, rest)) = cycles.split_first() else {
        return Ok(());
    };
    push_cycle(text, first)?;
    push_more_cycles(text, rest)
}

/// Adds cycles, each after a comma.
fn push_more_cycles(text: &mut String, cycles: &[CycleStat]) -> Result<(), AllocError>
    ensures { OnOk result (string_bytes text.new ≡ string_bytes text.old ++ flat_map more_cycles_json cycles.now) }
{
    for cycle in cycles {
        push_next_cycle(text, cycle)?;
    }
    Ok(())
}

/// Adds a cycle after a comma.
fn push_next_cycle(text: &mut String, cycle: &CycleStat) -> Result<(), AllocError>
    ensures { OnOk result (string_bytes text.new ≡ string_bytes text.old ++ more_cycles_json cycle.now) }
{
    text.push_str(",")?;
    push_cycle(text, cycle)
}

/// Adds a cycle.
fn push_cycle(text: &mut String, cycle: &CycleStat) -> Result<(), AllocError>
    ensures { OnOk result (string_bytes text.new ≡ string_bytes text.old ++ cycle_json cycle.now) }
{
    let facts = cycle.facts;
    push_cycle_front(text, cycle.name.as_str(), facts.number, facts.messages)?;
    push_cycle_cells(text, facts.bytes, facts.cells_used, facts.cells_left)?;
    push_cycle_end(text, facts.state)
}

/// Adds the beginning of a cycle: its name, its number and its messages.
#[tactic(auto, unfolding(crate::specs::StatJson::cycle_front))]
fn push_cycle_front(
    text: &mut String,
    name: &str,
    number: u32,
    messages: usize,
) -> Result<(), AllocError>
    ensures { OnOk result (string_bytes text.new ≡ string_bytes text.old ++ cycle_front name.now number messages) }
{
    write!(
        text,
        "{{\"name\":\"{name}\",\"number\":{number},\"messages\":{messages}"
    )
}

/// Adds the bytes of the messages of a cycle, its used and its left cells.
#[tactic(auto, unfolding(crate::specs::StatJson::cycle_cells))]
fn push_cycle_cells(text: &mut String, bytes: u64, used: u64, left: u64) -> Result<(), AllocError>
    ensures { OnOk result (string_bytes text.new ≡ string_bytes text.old ++ cycle_cells bytes used left) }
{
    write!(
        text,
        ",\"bytes\":{bytes},\"cells_used\":{used},\"cells_left\":{left}"
    )
}

/// Adds the end of a cycle: what becomes of it.
#[tactic(auto, unfolding(crate::specs::StatJson::cycle_end))]
fn push_cycle_end(text: &mut String, state: CycleState) -> Result<(), AllocError>
    ensures { OnOk result (string_bytes text.new ≡ string_bytes text.old ++ cycle_end state) }
{
    write!(text, ",\"state\":\"{state}\"}}")
}

/// Adds the end of the cycles, and the first index that is left.
#[tactic(auto, unfolding(crate::specs::StatJson::first_json))]
fn push_first(text: &mut String, first: Option<Index>) -> Result<(), AllocError>
    ensures { OnOk result (string_bytes text.new ≡ string_bytes text.old ++ first_json first) }
{
    match first {
        None => text.push_str("],\"first\":null"),
        Some(index) => write!(text, "],\"first\":\"{index}\""),
    }
}

/// Adds the floor, the end, how many cycles may still begin, and the beginning of the names.
#[tactic(auto, unfolding(crate::specs::StatJson::end_json))]
fn push_ends(text: &mut String, floor: u32, end: Index, more_cycles: u32) -> Result<(), AllocError>
    ensures { OnOk result (string_bytes text.new ≡ string_bytes text.old ++ end_json floor end more_cycles) }
{
    write!(
        text,
        ",\"floor\":{floor},\"end\":\"{end}\",\"more_cycles\":{more_cycles},\"names\":["
    )
}

/// Adds the names, with a comma between them.
fn push_names(text: &mut String, names: &[NameStat]) -> Result<(), AllocError>
    ensures { OnOk result (string_bytes text.new ≡ string_bytes text.old ++ names_json names.now) }
{
    let Some((first, rest)) = names.split_first() else {
        return Ok(());
    };
    push_name(text, first)?;
    push_more_names(text, rest)
}

/// Adds names, each after a comma.
fn push_more_names(text: &mut String, names: &[NameStat]) -> Result<(), AllocError>
    ensures { OnOk result (string_bytes text.new ≡ string_bytes text.old ++ flat_map more_names_json names.now) }
{
    for name in names {
        push_next_name(text, name)?;
    }
    Ok(())
}

/// Adds a name after a comma.
fn push_next_name(text: &mut String, name: &NameStat) -> Result<(), AllocError>
    ensures { OnOk result (string_bytes text.new ≡ string_bytes text.old ++ more_names_json name.now) }
{
    text.push_str(",")?;
    push_name(text, name)
}

/// Adds a name.
fn push_name(text: &mut String, stat: &NameStat) -> Result<(), AllocError>
    ensures { OnOk result (string_bytes text.new ≡ string_bytes text.old ++ name_json stat.now) }
{
    push_name_front(text, stat.name.as_str(), stat.position)?;
    push_name_end(text, stat.messages_left)
}

/// Adds the beginning of a name: itself and its position.
#[tactic(auto, unfolding(crate::specs::StatJson::name_front))]
fn push_name_front(text: &mut String, name: &str, position: Index) -> Result<(), AllocError>
    ensures { OnOk result (string_bytes text.new ≡ string_bytes text.old ++ name_front name.now position) }
{
    write!(text, "{{\"name\":\"{name}\",\"position\":\"{position}\"")
}

/// Adds the end of a name: how many messages are left for it.
#[tactic(auto, unfolding(crate::specs::StatJson::name_end))]
fn push_name_end(text: &mut String, left: u64) -> Result<(), AllocError>
    ensures { OnOk result (string_bytes text.new ≡ string_bytes text.old ++ name_end left) }
{
    write!(text, ",\"messages_left\":{left}}}")
}
