//! Prints what can be read of a damaged image in a folder.

ghost use Rattle.std.specs.Prelude.{◌≡◌, ◌≢◌, IfErr, IfOk, IfSome, List, OnOk, ℕ};
ghost use Rattle.std.specs.Io.KnownBytes.{Appends, Keeps};
ghost use Rattle.cq_folder.specs.Folder.{KeepsFiles};
ghost use Rattle.cq_image.specs.Salvage.{salvage_of};
ghost use Rattle.cq_text.specs.Output.{AppendsBeginning};
ghost use Rattle.cq_text.specs.SalvageText.{saved_text};
ghost use Rattle.cq_file_commands.specs.FileFaults.{IsSalvageFault};
ghost use Rattle.cq_files.specs.Counted.{CountsFaults};
ghost use Rattle.cq_file_commands.specs.Salvaged.{IsSalvagedQueue};

use crate::given::{GivenImage, read_given};
use cq_files::print_outside;
use cq_folder::Folder;
use cq_text::{ToolFault, salvage_text};
use std::alloc::{AllocError, Global};
use std::io::Write;

/// The command `salvage`: writes a line for each message before the fault of an image, and a last line with the fault,
/// as `salvage_text` spells them. A fault of the image is no error of the command.
///
/// Errors, in this order:
/// - those of opening the folder;
/// - `NoSuchFile`: the folder has no file of that name that ends with `.cqi`;
/// - `BadCycleName`;
/// - those of the file;
/// - `WriteFault`: a beginning of the lines was written.
///
/// `OutOfMemory` can come at any growth. Nothing is written before an error other than `WriteFault`, and nothing if the
/// file has more than 8,388,608 bytes. No file changes.
pub fn salvage<F: Folder, W: Write>(
    alloc: Global,
    folder: &mut F,
    file: &str,
    output: &mut W,
) -> Result<(), ToolFault>
    ensures printed { OnOk result ((text : List ℕ) × IsSalvagedQueue file.now (F.files folder.old) text
        × Appends (W.contents output.old) (W.contents output.new) text) }
    ensures cause { IfErr result (λ fault. IfSome (F.files folder.old) (λ files. IsSalvageFault file.now files fault)) }
    ensures kept { KeepsFiles (F.files folder.old) (F.files folder.new) }
    ensures silent { IfErr result (λ fault. fault ≢ ToolFault.WriteFault
        → Keeps (W.contents output.old) (W.contents output.new)) }
    ensures broken { IfErr result (λ fault. fault ≡ ToolFault.WriteFault → (text : List ℕ)
        × IsSalvagedQueue file.now (F.files folder.old) text
        × AppendsBeginning (W.contents output.old) (W.contents output.new) text) }
    ensures counted { CountsFaults (F.failed folder.old) (F.failed folder.new) result }
{
    let given = read_given(alloc, folder, file)?;
    folder.end();
    let text = salvage_lines(alloc, given)?;
    print_outside(folder, output, text.as_slice())
}

/// Returns the lines of what can be read of an image, whose bytes it drops.
fn salvage_lines(alloc: Global, given: GivenImage) -> Result<Vec<u8>, AllocError>
    ensures { IfOk result (λ text. text.items
        ≡ saved_text (salvage_of given.saved.config.layout given.image.cycle given.bytes.items)) }
{
    let layout = given.saved.config.layout();
    salvage_text(alloc, given.image.cycle, layout, given.bytes.as_slice())
}
