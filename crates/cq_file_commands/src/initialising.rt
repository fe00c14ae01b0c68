ghost use Rattle.std.specs.Prelude.{◌≡◌, ℕ, List, IfErr, IfOk, IfSome, OnOk};
ghost use Rattle.cq_model.specs.Settings.{IsLawfulSettings};
ghost use Rattle.cq_folder.specs.Folder.{KeepsFiles, WritesFile};
ghost use Rattle.cq_files.specs.FolderFaults.{HoldsConfig, IsLimitFault};
ghost use Rattle.cq_file_commands.specs.Initialised.{IsInitFault, IsInitialText, IsListingFault, IsNew, IsTextFor, wanted_settings};
ghost use Rattle.cq_files.specs.Saving.{KeepsOrSaves};
ghost use Rattle.cq_files.specs.Counted.{CountsFaults};
ghost use Rattle.cq_files.specs.Looking.{Enters};

use cq_config_text::{WantedConfig, write_config};
use cq_cycle::{Roll, roll_named};
use cq_files::{listed, write_file};
use cq_folder::{Access, CONFIG_FILE, Folder, has_name};
use cq_layout::CURRENT_VERSION;
use cq_model::{Config, copied_names};
use cq_settings::InitSettings;
use cq_text::ToolFault;
use std::alloc::Global;

/// The command `init`: makes a queue in a folder that is there already. It writes `queue.cqc`, of version 2 and with
/// each name at 0. The queue's first cycle begins with the first `write`.
///
/// Errors, in this order:
/// - `BadConfig`: the word names no roll;
/// - `FolderFault`;
/// - `QueueThereAlready`;
/// - `BadShape`;
/// - `BadConfig`;
/// - `FileFault`: the queue is made as a whole, or every file is as it was.
///
/// `OutOfMemory` can come at any growth. Every file is then as it was.
///
/// If it succeeds, the folder had no queue, and no other file has changed. If the folder has a queue, nothing changes.
pub fn init<F: Folder>(
    alloc: Global,
    folder: &mut F,
    settings: &InitSettings,
) -> Result<(), ToolFault>
    ensures written { OnOk result ((text : List ℕ) × IsInitialText settings.now text
        × WritesFile (F.files folder.old) (F.files folder.new) CONFIG_FILE.now text) }
    ensures new { OnOk result (IsNew (F.files folder.old)) }
    ensures fault { IfErr result (IsInitFault settings.now (F.files folder.old)) }
    ensures left { IfErr result (KeepsOrSaves (F.files folder.old) (F.files folder.new) ((text : List ℕ)
        × IsInitialText settings.now text
        × WritesFile (F.files folder.old) (F.files folder.new) CONFIG_FILE.now text)) }
    ensures safe { IfErr result (λ _. IfSome (F.files folder.old) (λ files. HoldsConfig files
        → KeepsFiles (F.files folder.old) (F.files folder.new))) }
    ensures counted { CountsFaults (F.failed folder.old) (F.failed folder.new) result }
{
    let roll = roll_named(settings.roll.as_str()).ok_or(ToolFault::BadConfig)?;
    check_new(alloc, folder)?;
    let text = initial_text(alloc, roll, settings)?;
    write_file(alloc, folder, CONFIG_FILE, text.as_slice())
}

/// Refuses a folder that has a queue.
fn check_new<F: Folder>(alloc: Global, folder: &mut F) -> Result<(), ToolFault>
    ensures new { OnOk result (IsNew (F.files folder.old)) }
    ensures fault { IfErr result (IsListingFault (F.files folder.old)) }
    ensures enters { Enters F.files F.failed F.entered Access.Alone folder.old folder.new result }
{
    let files = listed(alloc, folder, Access::Alone)?;
    if has_name(files.as_slice(), CONFIG_FILE) {
        return Err(ToolFault::QueueThereAlready);
    }
    Ok(())
}

/// Returns the text of `queue.cqc` with these settings.
fn initial_text(alloc: Global, roll: Roll, settings: &InitSettings) -> Result<Vec<u8>, ToolFault>
    ensures text { IfOk result (λ text. IsTextFor settings.now roll text.items) }
    ensures fault { IfErr result (IsLimitFault (wanted_settings settings.now roll)) }
{
    let config = config_for(alloc, roll, settings)?;
    let positions = vec![in alloc; 0; config.names().len()]?;
    Ok(write_config(alloc, &config, positions.as_slice(), 0)?)
}

/// Returns the configuration with these settings, if it is within the limits.
fn config_for(alloc: Global, roll: Roll, settings: &InitSettings) -> Result<Config, ToolFault>
    ensures config { IfOk result (λ config. (config ≡ wanted_settings settings.now roll)
        × IsLawfulSettings (wanted_settings settings.now roll)) }
    ensures fault { IfErr result (IsLimitFault (wanted_settings settings.now roll)) }
{
    let wanted = WantedConfig {
        version: CURRENT_VERSION,
        roll,
        epoch: settings.epoch,
        cells: settings.cells,
        index_count: settings.index_count,
        index_spacing: settings.index_spacing,
        cycles: settings.cycles,
    };
    let names = copied_names(alloc, settings.names.as_slice())?;
    Ok(wanted.config(names)?)
}
