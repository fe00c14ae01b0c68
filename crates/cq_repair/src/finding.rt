//! Finds the image that is to be repaired.

ghost use Rattle.std.specs.Prelude.{◌≡◌, ◌≢◌, ◌↔◌, Contains, IfErr, IfOk, IsTrue, OnOk, Some};
ghost use Rattle.cq_files.specs.FolderFaults.{IsShowFault};
ghost use Rattle.cq_files.specs.Looking.{Looks};
ghost use Rattle.cq_files.specs.Queue.{ends_as_image};
ghost use Rattle.cq_model.specs.Settings.{texts};
ghost use Rattle.cq_repair.specs.Found.{HasLater, IsFound, IsLater, IsOldOrUnread, IsPlaced, IsUnplaced};

use cq_config_text::SavedConfig;
use cq_files::{cycle_of_file, is_image_name, listed, read_file, read_saved};
use cq_folder::{Access, CONFIG_FILE, Folder, has_name};
use cq_model::Config;
use cq_text::ToolFault;
use std::alloc::Global;

/// The image that is to be repaired, and what the queue has besides its images.
#[derive(Drop)]
pub(crate) struct Found {
    /// The settings, the position of each name, and the floor.
    pub saved: SavedConfig,
    /// The names of all files of the folder.
    pub names: Vec<String>,
    /// The cycle that the file's name names.
    pub cycle: u32,
    /// The bytes of the file.
    pub bytes: Vec<u8>,
}

/// Enters a folder with this access, and reads the image whose file has this name.
///
/// Errors, in this order:
/// - `FolderFault`, `NoQueueHere`, and those of `queue.cqc`;
/// - `NoSuchFile`: the folder has no file of that name that ends with `.cqi`;
/// - `BadCycleName`;
/// - `OldVersion`: the folder is of version 1;
/// - those of the file.
///
/// `OutOfMemory` can come at any growth.
pub(crate) fn find<F: Folder>(
    alloc: Global,
    folder: &mut F,
    access: Access,
    file: &str,
) -> Result<Found, ToolFault>
    ensures found { IfOk result (IsFound file.now (F.files folder.old)) }
    ensures looks { Looks (λ fault. fault ≢ ToolFault.WriteFault) (IsShowFault (IsOldOrUnread file.now) file.now)
        (F.files folder.old) (F.files folder.new) (F.failed folder.old) (F.failed folder.new) result }
    ensures inside { OnOk result (F.entered folder.new ≡ Some access) }
{
    let names = listed(alloc, folder, access)?;
    if !has_name(names.as_slice(), CONFIG_FILE) {
        return Err(ToolFault::NoQueueHere);
    }
    let saved = read_saved(alloc, folder)?;
    let cycle = placed(alloc, &saved.config, names.as_slice(), file)?;
    let bytes = read_file(alloc, folder, file)?;
    Ok(Found {
        saved,
        names,
        cycle,
        bytes,
    })
}

/// Returns the cycle whose image has this name, if it is in the folder and that is of the current version.
fn placed(alloc: Global, config: &Config, names: &[String], file: &str) -> Result<u32, ToolFault>
    ensures placed { IfOk result (IsPlaced config.now (texts names.now) file.now) }
    ensures fault { IfErr result (IsUnplaced config.now (texts names.now) file.now) }
{
    let name = String::from_str(alloc, file)?;
    if !is_image(names, file) {
        return Err(ToolFault::NoSuchFile(name));
    }
    let Some(cycle) = cycle_of_file(config, file) else {
        return Err(ToolFault::BadCycleName(name));
    };
    if config.layout().store().is_current() {
        Ok(cycle)
    } else {
        Err(ToolFault::OldVersion)
    }
}

/// Returns whether a file is one of these, and its name ends as those of images do.
fn is_image(names: &[String], file: &str) -> bool
    ensures { IsTrue result ↔ (IsTrue (ends_as_image file.now) × Contains (texts names.now) file.now) }
{
    if !is_image_name(file) {
        return false;
    }
    has_name(names, file)
}

/// Returns whether one of these files is named as the image of a later cycle.
pub(crate) fn has_later(config: &Config, names: &[String], cycle: u32) -> bool
    ensures { IsTrue result ↔ HasLater config.now (texts names.now) cycle }
{
    for name in names {
        if is_later(config, name.as_str(), cycle) {
            return true;
        }
    }
    false
}

/// Returns whether a file is named as the image of a later cycle.
fn is_later(config: &Config, name: &str, cycle: u32) -> bool
    ensures { IsTrue result ↔ IsLater config.now cycle name.now }
{
    match cycle_of_file(config, name) {
        None => false,
        Some(other) => cycle < other,
    }
}
