//! What is done to the folder of a queue.

ghost use Rattle.std.specs.Prelude.{◌≡◌, ◌≢◌, ◌↔◌, ◌<◌, ◌≤◌, ◌^◌, ◌++◌, IfOk, IsTrue, MatchOption, None, length, map, string_bytes};
ghost use Rattle.cq_cycle.specs.Index.{index_of};
ghost use Rattle.cq_folder.specs.Folder.{named_file};
ghost use Rattle.cq_image.specs.Salvage.{salvage_of};
ghost use Rattle.cq_model.specs.Settings.{IsLawfulSettings, texts};
ghost use Rattle.cq_repair.specs.Found.{HasLater};
ghost use Rattle.cq_repair.specs.Kept.{AreChanges, bad_name, end_of_kept, image_after, lowered, positions_after, salvaged};
ghost use Rattle.cq_repair.specs.Plans.{AreBeforeFault, IsConfigFile, IsKept, IsPlanned};

use crate::finding::{Found, has_later};
use crate::telling::text_for;
use cq_config_text::write_config;
use cq_cycle::{Index, LAST_CYCLE};
use cq_folder::{CONFIG_FILE, NewFile, has_name};
use cq_image::{Salvaged, image_by_layout, salvage_by_layout};
use cq_layout::{Items, Layout, Message};
use std::alloc::{AllocError, Global};

/// What the name of the old file ends with.
pub const BAD_ENDING: &str = ".bad";

/// What is kept of an image that has a fault.
#[derive(Drop)]
pub(crate) struct Kept {
    /// The messages before the fault.
    pub messages: Items<Message>,
    /// Whether the cycle ended: a later one has an image.
    pub ended: bool,
    /// The index after the messages.
    pub end: u64,
}

/// What is done to a folder, and what is printed.
#[derive(Drop)]
pub(crate) struct Plan {
    /// The old file under its new name.
    pub old: NewFile,
    /// Whether a file has that name.
    pub is_taken: bool,
    /// The new image, and `queue.cqc` if a name moves.
    pub changes: Vec<NewFile>,
    /// What is printed.
    pub text: Vec<u8>,
}

/// Plans what is done to a queue, of which this image was found; `None` if it has no fault.
pub(crate) fn plan_for(
    alloc: Global,
    found: Found,
    file: &str,
    dry_run: bool,
) -> Result<Option<Plan>, AllocError>
    requires lawful { IsLawfulSettings found.saved.config }
    requires paired { length found.saved.positions.items ≡ length found.saved.config.names }
    requires low { found.saved.floor ≤ LAST_CYCLE }
    ensures { IfOk result (λ plan. MatchOption plan ((salvaged found).fault ≡ None) (IsPlanned dry_run file.now found)) }
{
    let Some(kept) = kept_of(alloc, &found)? else {
        return Ok(None);
    };
    let changes = changes_for(alloc, &found, file, &kept)?;
    let text = text_for(alloc, &found, file, &kept, dry_run)?;
    let name = bad_name(alloc, file)?;
    let is_taken = has_name(found.names.as_slice(), name.as_str());
    Ok(Some(Plan {
        old: NewFile {
            name,
            bytes: found.bytes,
        },
        is_taken,
        changes,
        text,
    }))
}

/// Returns what is kept of the image, as `salvage` finds it; `None` if it has no fault.
fn kept_of(alloc: Global, found: &Found) -> Result<Option<Kept>, AllocError>
    requires { IsLawfulSettings found.now.saved.config }
    ensures { IfOk result (λ kept. MatchOption kept ((salvaged found.now).fault ≡ None) (IsKept found.now)) }
{
    let layout = found.saved.config.layout();
    let bytes = found.bytes.as_slice();
    let Some(messages) = messages_before_fault(alloc, found.cycle, layout, bytes)? else {
        return Ok(None);
    };
    let ended = has_later(&found.saved.config, found.names.as_slice(), found.cycle);
    let end = Index::new(found.cycle, messages.as_slice().len() as u32).value();
    Ok(Some(Kept {
        messages,
        ended,
        end,
    }))
}

/// Returns the messages before the fault of these bytes; `None` if they have none.
fn messages_before_fault(
    alloc: Global,
    cycle: u32,
    layout: Layout,
    bytes: &[u8],
) -> Result<Option<Items<Message>>, AllocError>
    ensures { IfOk result (λ kept. MatchOption kept ((salvage_of layout cycle bytes.now).fault ≡ None)
        (AreBeforeFault layout (salvage_of layout cycle bytes.now))) }
{
    let Salvaged { messages, fault } = salvage_by_layout(alloc, cycle, layout, bytes)?;
    if fault.is_none() {
        return Ok(None);
    }
    Ok(Some(messages.messages().copied(alloc)?))
}

/// Returns the new image, and `queue.cqc` if a name moves.
fn changes_for(
    alloc: Global,
    found: &Found,
    file: &str,
    kept: &Kept,
) -> Result<Vec<NewFile>, AllocError>
    requires paired { length found.now.saved.positions.items ≡ length found.now.saved.config.names }
    requires low { found.now.saved.floor ≤ LAST_CYCLE }
    requires kept { IsKept found.now kept.now }
    ensures { IfOk result (λ changes. AreChanges file.now kept.now.ended found.now (map named_file changes.items)) }
{
    let mut changes = Vec::new(alloc);
    changes.push(image_file(alloc, found, file, kept)?)?;
    let positions = lowered_positions(alloc, found.saved.positions.as_slice(), kept)?;
    if positions.as_slice() != found.saved.positions.as_slice() {
        changes.push(config_file(alloc, found, positions.as_slice())?)?;
    }
    Ok(changes)
}

/// Returns the new image.
fn image_file(alloc: Global, found: &Found, file: &str, kept: &Kept) -> Result<NewFile, AllocError>
    requires { IsKept found.now kept.now }
    ensures { IfOk result (λ made. named_file made ≡ (file.now, image_after kept.now.ended found.now)) }
{
    let layout = found.saved.config.layout();
    let messages = kept.messages.as_slice();
    Ok(NewFile {
        name: String::from_str(alloc, file)?,
        bytes: image_by_layout(alloc, found.cycle, layout, messages, kept.ended)?,
    })
}

/// Returns `queue.cqc` with these positions.
fn config_file(alloc: Global, found: &Found, positions: &[u64]) -> Result<NewFile, AllocError>
    requires paired { length positions.now ≡ length found.now.saved.config.names }
    requires low { found.now.saved.floor ≤ LAST_CYCLE }
    ensures { IfOk result (λ made. IsConfigFile found.now positions.now (named_file made)) }
{
    Ok(NewFile {
        name: String::from_str(alloc, CONFIG_FILE)?,
        bytes: write_config(alloc, &found.saved.config, positions, found.saved.floor)?,
    })
}

/// Returns the positions after the repair.
fn lowered_positions(alloc: Global, positions: &[u64], kept: &Kept) -> Result<Vec<u64>, AllocError>
    ensures { IfOk result (λ after. after.items ≡ map (lowered kept.now.ended kept.now.end) positions.now) }
{
    let mut after = Vec::new(alloc);
    for position in positions {
        after.push(lowered(kept.ended, kept.end, *position))?;
    }
    Ok(after)
}

/// Returns where a name at this position is after the repair, if what is kept ends at this index. A position in another cycle
/// stays if this one has ended.
pub(crate) fn lowered(ended: bool, end: u64, position: u64) -> u64
    ensures { result ≡ lowered ended end position }
{
    if position <= end {
        return position;
    }
    if ended && Index::of_value(position).cycle() != Index::of_value(end).cycle() {
        return position;
    }
    end
}

/// Returns the new name of the old file.
fn bad_name(alloc: Global, file: &str) -> Result<String, AllocError>
    ensures { IfOk result (λ name. string_bytes name ≡ bad_name file.now) }
{
    let mut name = String::from_str(alloc, file)?;
    name.push_str(BAD_ENDING)?;
    Ok(name)
}
