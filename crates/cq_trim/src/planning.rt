//! What is done to the folder of a queue.

ghost use Rattle.std.specs.Prelude.{◌≡◌, ◌≢◌, ◌≤◌, ◌+◌, ◌↔◌, IfErr, IfOk, IfSome, IsTrue, None, length, map, option_map, slice_get, string_bytes, take};
ghost use Rattle.std.specs.List.{AllByRecursion};
ghost use Rattle.cq_config_text.specs.ConfigText.{IsTextOf};
ghost use Rattle.cq_folder.specs.Folder.{named_file};
ghost use Rattle.cq_files.specs.FolderFaults.{MindsVersion};
ghost use Rattle.cq_files.specs.Looking.{Enters};
ghost use Rattle.cq_files.specs.Queue.{CanBeOpened};
ghost use Rattle.cq_model.specs.Settings.{texts};
ghost use Rattle.cq_trim.specs.Plans.{Decides, IsDecision, IsDecisionFault, IsNameAtLoss, IsPlan, IsUndecided};
ghost use Rattle.cq_trim.specs.Trimmed.{AreChanges, IsFirstLoser, Loses, name_lines, removed_files};

use crate::floors::floor_for;
use cq_config_text::write_config;
use cq_cycle::LAST_CYCLE;
use cq_files::{CycleImage, SavedQueue, open_whole_queue};
use cq_folder::{Access, CONFIG_FILE, Folder, NewFile};
use cq_model::Items;
use cq_orders::TrimSettings;
use cq_stat::messages_left;
use cq_text::ToolFault;
use std::alloc::{AllocError, Global};

/// What is done to a folder, and what is printed.
#[derive(Drop)]
pub(crate) struct Plan {
    /// The file `queue.cqc` with the floor, if the floor rises.
    pub changes: Vec<NewFile>,
    /// The names of the images of the cycles below the floor, in order.
    pub removed: Vec<String>,
    /// The lines of these names.
    pub text: Vec<u8>,
}

/// Whether a queue is trimmed.
#[derive(Drop)]
pub(crate) enum Decision {
    /// It is trimmed so.
    Trim(Plan),
    /// It is not: this name would lose messages.
    Refuse(String),
}

/// Opens the queue of a folder, and decides what is done to it.
///
/// Errors, in this order:
/// - those of `open_whole_queue`;
/// - those of `cycle_meant`.
pub(crate) fn decide<F: Folder>(
    alloc: Global,
    folder: &mut F,
    settings: &TrimSettings,
) -> Result<Decision, ToolFault>
    ensures decides { IfOk result (Decides settings.now (F.files folder.old)) }
    ensures cause { IfErr result (λ fault. IfSome (F.files folder.old) (λ files. IsUndecided settings.now files fault)) }
    ensures unprinted { IfErr result (λ fault. fault ≢ ToolFault.WriteFault) }
    ensures version { IfSome (F.files folder.old) (λ files. MindsVersion files result) }
    ensures enters { Enters F.files F.failed F.entered Access.Alone folder.old folder.new result }
{
    let queue = open_whole_queue(alloc, folder, Access::Alone)?;
    decision_for(alloc, queue, settings)
}

/// Decides what is done to a queue.
fn decision_for(
    alloc: Global,
    queue: SavedQueue,
    settings: &TrimSettings,
) -> Result<Decision, ToolFault>
    requires openable { CanBeOpened queue.config queue.contents }
    requires paired { length queue.contents.positions ≡ length queue.config.names }
    ensures decides { IfOk result (IsDecision settings.now queue.config queue.contents queue.images.items) }
    ensures fault { IfErr result (IsDecisionFault settings.now queue.config) }
{
    let floor = floor_for(&queue.config, &queue.contents, settings)?;
    match name_at_loss(alloc, &queue, floor, settings.force)? {
        Some(name) => Ok(Decision::Refuse(name)),
        None => Ok(Decision::Trim(plan_for(alloc, queue, floor)?)),
    }
}

/// Returns the first name that loses messages with this floor, unless it is forced.
fn name_at_loss(
    alloc: Global,
    queue: &SavedQueue,
    floor: u32,
    force: bool,
) -> Result<Option<String>, AllocError>
    requires openable { CanBeOpened queue.now.config queue.now.contents }
    requires paired { length queue.now.contents.positions ≡ length queue.now.config.names }
    ensures { IfOk result (λ name. IsNameAtLoss force queue.now.config queue.now.contents floor (option_map string_bytes name)) }
{
    if force {
        return Ok(None);
    }
    match first_loser(queue, floor) {
        None => Ok(None),
        Some(place) => Ok(Some(String::from_str(alloc, queue.config.names()[place].as_str())?)),
    }
}

/// Returns the place of the first position whose name loses messages with this floor.
fn first_loser(queue: &SavedQueue, floor: u32) -> Option<usize>
    requires { CanBeOpened queue.now.config queue.now.contents }
    ensures found { IfSome result (λ place. IfSome (slice_get queue.now.contents.positions place) (Loses queue.now.contents floor)) }
    ensures there { IfSome result (λ place. place + 1 ≤ length queue.now.contents.positions) }
    ensures before { IfSome result (λ place.
        AllByRecursion (λ other. ¬ Loses queue.now.contents floor other) (take place queue.now.contents.positions)) }
    ensures none { result ≡ None → AllByRecursion (λ other. ¬ Loses queue.now.contents floor other) queue.now.contents.positions }
{
    let positions = queue.contents.positions.as_slice();
    for place in 0..positions.len() {
        if loses(queue, floor, positions[place]) {
            return Some(place);
        }
    }
    None
}

/// Returns whether a name at this position loses messages with this floor.
fn loses(queue: &SavedQueue, floor: u32, position: u64) -> bool
    requires { CanBeOpened queue.now.config queue.now.contents }
    ensures { IsTrue result ↔ Loses queue.now.contents floor position }
{
    let _cycles = queue.config.cycles();
    let contents = &queue.contents;
    messages_left(contents, floor, position) < messages_left(contents, contents.floor, position)
}

/// Plans what is done to a queue that gets this floor.
fn plan_for(alloc: Global, queue: SavedQueue, floor: u32) -> Result<Plan, AllocError>
    requires paired { length queue.contents.positions ≡ length queue.config.names }
    requires low { floor ≤ LAST_CYCLE }
    ensures { IfOk result (IsPlan queue.config queue.contents queue.images.items floor) }
{
    let changes = changes_for(alloc, &queue, floor)?;
    let removed = names_below(alloc, queue.images, floor)?;
    let text = lines_of(alloc, removed.as_slice())?;
    Ok(Plan {
        changes,
        removed,
        text,
    })
}

/// Returns the file `queue.cqc` with this floor, if the queue has another one.
fn changes_for(alloc: Global, queue: &SavedQueue, floor: u32) -> Result<Vec<NewFile>, AllocError>
    requires paired { length queue.now.contents.positions ≡ length queue.now.config.names }
    requires low { floor ≤ LAST_CYCLE }
    ensures { IfOk result (λ changes. AreChanges queue.now.config queue.now.contents floor (map named_file changes.items)) }
{
    let mut changes = Vec::new(alloc);
    if floor != queue.contents.floor {
        let positions = queue.contents.positions.as_slice();
        changes.push(NewFile {
            name: String::from_str(alloc, CONFIG_FILE)?,
            bytes: write_config(alloc, &queue.config, positions, floor)?,
        })?;
    }
    Ok(changes)
}

/// Returns the names of the images of cycles below the floor.
fn names_below(
    alloc: Global,
    images: Vec<CycleImage>,
    floor: u32,
) -> Result<Vec<String>, AllocError>
    ensures { IfOk result (λ names. texts names.items ≡ removed_files floor images.items) }
{
    let mut names = Vec::new(alloc);
    for image in images {
        if image.file.cycle < floor {
            names.push(image.file.name)?;
        }
    }
    Ok(names)
}

/// Returns each name on a line.
fn lines_of(alloc: Global, names: &[String]) -> Result<Vec<u8>, AllocError>
    ensures { IfOk result (λ text. text.items ≡ name_lines (texts names.now)) }
{
    let mut text = Vec::new(alloc);
    for name in names {
        text.extend_from_slice(name.as_bytes())?;
        text.push(b'\n')?;
    }
    Ok(text)
}
