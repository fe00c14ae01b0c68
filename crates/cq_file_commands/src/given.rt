//! Reads the image that a command is given by the name of its file.

ghost use Rattle.std.specs.Prelude.{◌≡◌, ◌≢◌, IfErr, IfOk, OnOk, Some};
ghost use Rattle.cq_model.specs.Settings.{texts};
ghost use Rattle.cq_files.specs.FolderFaults.{IsGivingFault, IsShowFault, IsUnreadFault};
ghost use Rattle.cq_files.specs.Looking.{Looks};
ghost use Rattle.cq_file_commands.specs.Shown.{IsGiven, IsGivenFile};

use cq_config_text::SavedConfig;
use cq_files::{ImageFile, QueueFolder, image_file, open_folder, read_file};
use cq_folder::{Access, Folder, has_name};
use cq_model::Config;
use cq_text::ToolFault;
use std::alloc::Global;

/// An image of a folder that was opened, and the bytes of its file.
#[derive(Drop)]
pub(crate) struct GivenImage {
    /// The settings, and the position of each tailer.
    pub saved: SavedConfig,
    /// The file, and its cycle.
    pub image: ImageFile,
    /// The bytes of the file.
    pub bytes: Vec<u8>,
}

/// Opens a folder, and reads the image whose file has this name.
///
/// Errors, in this order:
/// - those of opening the folder;
/// - `NoSuchFile`: the folder has no file of that name that ends with `.cqi`;
/// - `BadCycleName`;
/// - those of the file.
///
/// `OutOfMemory` can come at any growth.
pub(crate) fn read_given<F: Folder>(
    alloc: Global,
    folder: &mut F,
    file: &str,
) -> Result<GivenImage, ToolFault>
    ensures given { IfOk result (IsGiven file.now (F.files folder.old)) }
    ensures looks { Looks (λ fault. fault ≢ ToolFault.WriteFault) (IsShowFault (IsUnreadFault file.now) file.now)
        (F.files folder.old) (F.files folder.new) (F.failed folder.old) (F.failed folder.new) result }
    ensures inside { OnOk result (F.entered folder.new ≡ Some Access.Shared) }
{
    let QueueFolder { saved, image_names } = open_folder(alloc, folder, Access::Shared)?;
    let image = given_file(alloc, &saved.config, image_names.as_slice(), file)?;
    let bytes = read_file(alloc, folder, file)?;
    Ok(GivenImage {
        saved,
        image,
        bytes,
    })
}

/// Returns the image file of this name, with the cycle that it names.
///
/// Errors, in this order:
/// - `NoSuchFile`: no image has this name;
/// - `BadCycleName`.
fn given_file(
    alloc: Global,
    config: &Config,
    image_names: &[String],
    file: &str,
) -> Result<ImageFile, ToolFault>
    ensures given { IfOk result (IsGivenFile config.now (texts image_names.now) file.now) }
    ensures fault { IfErr result (IsGivingFault config.now (texts image_names.now) file.now) }
{
    let name = String::from_str(alloc, file)?;
    if !has_name(image_names, file) {
        return Err(ToolFault::NoSuchFile(name));
    }
    image_file(config, name)
}
