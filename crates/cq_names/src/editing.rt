//! What is saved and printed of a change.

ghost use Rattle.std.specs.Prelude.{◌≡◌, ◌<◌, IfOk, length};
ghost use Rattle.cq_model.specs.Settings.{AreLawfulNames, texts};
ghost use Rattle.cq_names.specs.Edits.{CanBeEdited, IsNewName, IsPlanFor, added, moved, removed, with_names};

use crate::lines::line_of;
use cq_config_text::write_config;
use cq_files::SavedQueue;
use cq_model::{Config, copied_names};
use std::alloc::{AllocError, Global};

/// What is saved and printed of a change.
#[derive(Drop)]
pub(crate) struct Plan {
    /// The text of `queue.cqc` after it.
    pub config: Vec<u8>,
    /// The line of the name.
    pub line: Vec<u8>,
}

/// Returns what is saved and printed where a name is added at a position.
pub(crate) fn plan_to_add(
    alloc: Global,
    queue: &SavedQueue,
    name: &str,
    position: u64,
) -> Result<Plan, AllocError>
    requires editable { CanBeEdited queue.now }
    requires new { IsNewName queue.now.config name.now }
    ensures { IfOk result (IsPlanFor queue.now.config queue.now.contents (added queue.now.config queue.now.contents name.now position)) }
{
    let mut names = copied_names(alloc, queue.config.names())?;
    names.push(String::from_str(alloc, name)?)?;
    let mut positions = Vec::from_slice(alloc, queue.contents.positions.as_slice())?;
    positions.push(position)?;
    let changed = with_names(&queue.config, names);
    Ok(Plan {
        config: write_config(alloc, &changed, positions.as_slice(), queue.contents.floor)?,
        line: line_of(alloc, name, position)?,
    })
}

/// Returns what is saved and printed where the name at this place is removed.
pub(crate) fn plan_to_remove(
    alloc: Global,
    queue: &SavedQueue,
    place: usize,
) -> Result<Plan, AllocError>
    requires editable { CanBeEdited queue.now }
    requires there { place < length queue.now.config.names }
    ensures { IfOk result (IsPlanFor queue.now.config queue.now.contents (removed queue.now.config queue.now.contents place)) }
{
    let mut names = copied_names(alloc, queue.config.names())?;
    let name = names.remove(place);
    let mut positions = Vec::from_slice(alloc, queue.contents.positions.as_slice())?;
    let position = positions.remove(place);
    let changed = with_names(&queue.config, names);
    Ok(Plan {
        config: write_config(alloc, &changed, positions.as_slice(), queue.contents.floor)?,
        line: line_of(alloc, name.as_str(), position)?,
    })
}

/// Returns what is saved and printed where the name at this place gets a position.
pub(crate) fn plan_to_move(
    alloc: Global,
    queue: &SavedQueue,
    place: usize,
    position: u64,
) -> Result<Plan, AllocError>
    requires editable { CanBeEdited queue.now }
    requires there { place < length queue.now.config.names }
    ensures { IfOk result (IsPlanFor queue.now.config queue.now.contents (moved queue.now.config queue.now.contents place position)) }
{
    let mut positions = Vec::from_slice(alloc, queue.contents.positions.as_slice())?;
    positions[place] = position;
    let floor = queue.contents.floor;
    Ok(Plan {
        config: write_config(alloc, &queue.config, positions.as_slice(), floor)?,
        line: line_of(alloc, queue.config.names()[place].as_str(), position)?,
    })
}

/// Returns the settings with these names in place of their own.
fn with_names(config: &Config, names: Vec<String>) -> Config
    requires { AreLawfulNames (texts names.items) }
    ensures { result ≡ with_names config.now (texts names.items) }
{
    match Config::of_layout(
        config.layout(),
        config.cycles(),
        config.roll(),
        config.epoch(),
        names,
    ) {
        Ok(changed) => changed,
        Err(_) => unreachable!(),
    }
}
