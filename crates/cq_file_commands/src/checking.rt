ghost use Rattle.std.specs.Prelude.{◌≡◌, ◌≢◌, ◌++◌, Bool, List, ℕ, Result, false, true, string_bytes, Err, IfErr, IfOk, IfSome, OnOk, IsSome, Some};
ghost use Rattle.std.specs.Io.KnownBytes.{Appends, Keeps};
ghost use Rattle.std.specs.List.{AllByRecursion};
ghost use Rattle.cq_folder.specs.Folder.{KeepsFiles};
ghost use Rattle.cq_text.specs.Output.{AppendsBeginning};
ghost use Rattle.cq_image.specs.Answers.{IsStateOf};
ghost use Rattle.cq_image.specs.Reading.{read_of};
ghost use Rattle.cq_image.specs.declared.fault.ImageFault.{ImageFault};
ghost use Rattle.cq_image.specs.declared.found.ImageRead.{ImageRead};
ghost use Rattle.cq_files.specs.FolderFaults.{HasCause, HasSettings, IsFileFault, IsFirstFault, IsFirstFaultOf, IsLookingFault, IsSmall};
ghost use Rattle.cq_file_commands.specs.FileFaults.{IsCheckFault};
ghost use Rattle.cq_file_commands.specs.CheckText.{IsChecked, check_text, has_fault, is_fault, is_faulty, line_of, state_line};
ghost use Rattle.cq_files.specs.Counted.{CountsFaults};
ghost use Rattle.cq_files.specs.Looking.{Looks, Stays};

use cq_files::{ImageFile, QueueFolder, image_files, open_folder, print_outside, read_file};
use cq_folder::{Access, Folder};
use cq_image::{ImageFault, ImageState, ReadFault};
use cq_layout::Layout;
use cq_model::Config;
use cq_text::ToolFault;
use std::alloc::{AllocError, Global};
use std::fmt::Write as _;
use std::io::Write;

/// The command `check`: writes a line for each image, in the order of the files' names. It is `FILE: N messages,
/// ended`, `FILE: N messages, open`, or the fault of the image, as `FILE: FAULT at P`. Whether the right images are
/// ended is not checked.
///
/// Errors, in this order:
/// - those of opening the folder;
/// - `BadCycleName`;
/// - for each image those of its file;
/// - `WriteFault`: a beginning of the lines was written;
/// - `ImagesAtFault`: an image is faulty. The lines were written.
///
/// `OutOfMemory` can come at any growth. Nothing is written before an error other than the last two. No file changes.
///
/// A line says what the strict reader returns for the image's bytes. What an image holds causes no other error. An
/// error of the name or the file of an image is the first one. Nothing is written if an image has more than 8,388,608
/// bytes.
pub fn check<F: Folder, W: Write>(
    alloc: Global,
    folder: &mut F,
    output: &mut W,
) -> Result<(), ToolFault>
    ensures printed { OnOk result ((text : List ℕ) × IsChecked (F.files folder.old) text false
        × Appends (W.contents output.old) (W.contents output.new) text) }
    ensures at_fault { IfErr result (λ fault. fault ≡ ToolFault.ImagesAtFault → (text : List ℕ)
        × IsChecked (F.files folder.old) text true × Appends (W.contents output.old) (W.contents output.new) text) }
    ensures cause { IfErr result (λ fault. IfSome (F.files folder.old) (λ files. IsCheckFault files fault)) }
    ensures kept { KeepsFiles (F.files folder.old) (F.files folder.new) }
    ensures silent { IfErr result (λ fault. fault ≢ ToolFault.WriteFault → fault ≢ ToolFault.ImagesAtFault
        → Keeps (W.contents output.old) (W.contents output.new)) }
    ensures broken { IfErr result (λ fault. fault ≡ ToolFault.WriteFault → (text : List ℕ) × (faulty : Bool)
        × IsChecked (F.files folder.old) text faulty × AppendsBeginning (W.contents output.old) (W.contents output.new) text) }
    ensures counted { CountsFaults (F.failed folder.old) (F.failed folder.new) result }
{
    let checked = checked_images(alloc, folder)?;
    folder.end();
    print_outside(folder, output, checked.text.as_bytes())?;
    if checked.is_faulty {
        return Err(ToolFault::ImagesAtFault);
    }
    Ok(())
}

/// The lines of some images.
#[derive(Drop)]
struct Checked {
    /// The lines.
    text: String,
    /// Whether one of the images is faulty.
    is_faulty: bool,
}

/// Returns the lines of all images of a folder.
fn checked_images<F: Folder>(alloc: Global, folder: &mut F) -> Result<Checked, ToolFault>
    ensures checked { IfOk result (λ checked. IsChecked (F.files folder.old) (string_bytes checked.text) checked.is_faulty) }
    ensures looks { Looks IsLookingFault (λ files fault. HasCause files fault × IsFirstFault IsSmall files fault)
        (F.files folder.old) (F.files folder.new) (F.failed folder.old) (F.failed folder.new) result }
    ensures inside { OnOk result (F.entered folder.new ≡ Some Access.Shared) }
{
    let QueueFolder { saved, image_names } = open_folder(alloc, folder, Access::Shared)?;
    let files = image_files(alloc, &saved.config, image_names)?;
    check_files(alloc, folder, &saved.config, files.as_slice())
}

/// Returns the lines of the images in these files.
fn check_files<F: Folder>(
    alloc: Global,
    folder: &mut F,
    config: &Config,
    files: &[ImageFile],
) -> Result<Checked, ToolFault>
    requires { IsSome (F.entered folder.old) }
    ensures text { IfOk result (λ checked. IfSome (F.files folder.old) (λ held.
        string_bytes checked.text ≡ check_text config.now files.now held)) }
    ensures faulty { IfOk result (λ checked. IfSome (F.files folder.old) (λ held.
        checked.is_faulty ≡ has_fault config.now files.now held)) }
    ensures small { IfOk result (λ _. IfSome (F.files folder.old) (λ held.
        AllByRecursion (λ file. IsSmall held config.now (string_bytes file.name)) files.now)) }
    ensures looks { Looks IsLookingFault (IsFirstFaultOf IsSmall config.now files.now) (F.files folder.old) (F.files folder.new)
        (F.failed folder.old) (F.failed folder.new) result }
    ensures inside { F.entered folder.new ≡ F.entered folder.old }
{
    let mut text = String::new(alloc);
    let mut is_faulty = false;
    for i in 0..files.len() {
        is_faulty |= check_file(alloc, folder, config, &files[i], &mut text)?;
    }
    Ok(Checked { text, is_faulty })
}

/// Adds the line of the image in a file to the text, and returns whether the image is faulty.
fn check_file<F: Folder>(
    alloc: Global,
    folder: &mut F,
    config: &Config,
    file: &ImageFile,
    text: &mut String,
) -> Result<bool, ToolFault>
    requires { IsSome (F.entered folder.old) }
    ensures text { IfOk result (λ _. IfSome (F.files folder.old) (λ held. string_bytes text.new
        ≡ string_bytes text.old ++ line_of config.now file.now (held (string_bytes file.now.name)))) }
    ensures faulty { IfOk result (λ faulty. IfSome (F.files folder.old) (λ held.
        faulty ≡ is_faulty config.now file.now (held (string_bytes file.now.name)))) }
    ensures small { IfOk result (λ _. IfSome (F.files folder.old) (λ held. IsSmall held config.now (string_bytes file.now.name))) }
    ensures fault { IfErr result (IsFileFault (string_bytes file.now.name)) }
    ensures cause { IfErr result (λ fault. IfSome (F.files folder.old) (λ files. HasSettings files config.now → HasCause files fault)) }
    ensures stays { Stays F.files F.failed F.entered folder.old folder.new result }
{
    let bytes = read_file(alloc, folder, file.name.as_str())?;
    Ok(push_line(alloc, config.layout(), file, bytes.as_slice(), text)?)
}

/// Adds the line of the image in a file with these bytes to the text, and returns whether the image is faulty.
fn push_line(
    alloc: Global,
    layout: Layout,
    file: &ImageFile,
    bytes: &[u8],
    text: &mut String,
) -> Result<bool, AllocError>
    ensures text { OnOk result (string_bytes text.new
        ≡ string_bytes text.old ++ state_line (string_bytes file.now.name) (read_of layout file.now.cycle bytes.now)) }
    ensures faulty { IfOk result (λ faulty. faulty ≡ is_fault (read_of layout file.now.cycle bytes.now)) }
{
    let name = file.name.as_str();
    match cq_image::state(alloc, file.cycle, layout, bytes) {
        Ok(state) => {
            push_state(text, name, state)?;
            Ok(false)
        }
        Err(ReadFault::Fault(fault)) => {
            push_fault(text, name, fault)?;
            Ok(true)
        }
        Err(ReadFault::OutOfMemory) => Err(AllocError),
    }
}

/// Adds the line of an image without a fault to the text.
fn push_state(text: &mut String, name: &str, state: ImageState) -> Result<(), AllocError>
    ensures { (answer : Result ImageRead ImageFault) → IsStateOf answer state
        → OnOk result (string_bytes text.new ≡ string_bytes text.old ++ state_line name.now answer) }
{
    let count = state.count;
    let mark = if state.ended { "ended" } else { "open" };
    writeln!(text, "{name}: {count} messages, {mark}")
}

/// Adds the line of a faulty image to the text.
fn push_fault(text: &mut String, name: &str, fault: ImageFault) -> Result<(), AllocError>
    ensures { OnOk result (string_bytes text.new ≡ string_bytes text.old ++ state_line name.now (Err fault)) }
{
    writeln!(text, "{name}: {fault}")
}
