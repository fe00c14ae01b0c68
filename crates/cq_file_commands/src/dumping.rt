//! Prints the records of an image in a folder.

ghost use Rattle.std.specs.Prelude.{◌≡◌, ◌≢◌, Bool, IfErr, IfOk, IfSome, List, OnOk, [], ℕ};
ghost use Rattle.std.specs.Io.KnownBytes.{Appends, Keeps};
ghost use Rattle.cq_folder.specs.Folder.{KeepsFiles};
ghost use Rattle.cq_image.specs.Image.{AreNext, image_of};
ghost use Rattle.cq_text.specs.DumpText.{dump_of};
ghost use Rattle.cq_text.specs.Output.{AppendsBeginning};
ghost use Rattle.cq_file_commands.specs.Dumped.{IsDumpedQueue};
ghost use Rattle.cq_files.specs.FolderFaults.{IsReadingFault};
ghost use Rattle.cq_file_commands.specs.FileFaults.{IsDumpFault};
ghost use Rattle.cq_files.specs.Counted.{CountsFaults};

use crate::given::{GivenImage, read_given};
use cq_files::print_outside;
use cq_folder::Folder;
use cq_image::ReadFault;
use cq_text::{ToolFault, dump_text_by_layout};
use std::alloc::Global;
use std::io::Write;

/// The command `dump`: writes a line for each record of an image, as `dump_text` spells them. The image is read by the
/// layout and the cycle that the folder's configuration gives.
///
/// Errors, in this order:
/// - those of opening the folder;
/// - `NoSuchFile`: the folder has no file of that name that ends with `.cqi`;
/// - `BadCycleName`;
/// - those of the file;
/// - `FaultyImage`;
/// - `WriteFault`: a beginning of the lines was written.
///
/// `OutOfMemory` can come at any growth. Nothing is written before an error other than `WriteFault`. No file changes.
pub fn dump<F: Folder, W: Write>(
    alloc: Global,
    folder: &mut F,
    file: &str,
    output: &mut W,
) -> Result<(), ToolFault>
    ensures printed { OnOk result ((text : List ℕ) × IsDumpedQueue file.now (F.files folder.old) text
        × Appends (W.contents output.old) (W.contents output.new) text) }
    ensures cause { IfErr result (λ fault. IfSome (F.files folder.old) (λ files. IsDumpFault file.now files fault)) }
    ensures kept { KeepsFiles (F.files folder.old) (F.files folder.new) }
    ensures silent { IfErr result (λ fault. fault ≢ ToolFault.WriteFault
        → Keeps (W.contents output.old) (W.contents output.new)) }
    ensures broken { IfErr result (λ fault. fault ≡ ToolFault.WriteFault → (text : List ℕ)
        × IsDumpedQueue file.now (F.files folder.old) text
        × AppendsBeginning (W.contents output.old) (W.contents output.new) text) }
    ensures counted { CountsFaults (F.failed folder.old) (F.failed folder.new) result }
{
    let given = read_given(alloc, folder, file)?;
    folder.end();
    let text = dump_lines(alloc, given)?;
    print_outside(folder, output, text.as_slice())
}

/// Returns a line for each record of an image, whose bytes it drops. It refuses bytes that are no image.
fn dump_lines(alloc: Global, given: GivenImage) -> Result<Vec<u8>, ToolFault>
    ensures dumped { IfOk result (λ text. (messages : List (List ℕ)) × (ended : Bool) × AreNext given.saved.config.layout [] messages
        × (given.bytes.items ≡ image_of given.saved.config.layout given.image.cycle messages ended)
        × (text.items ≡ dump_of given.saved.config.layout given.image.cycle messages ended)) }
    ensures fault { IfErr result (IsReadingFault given.saved.config.layout given.image given.bytes.items) }
{
    let layout = given.saved.config.layout();
    match dump_text_by_layout(alloc, given.image.cycle, layout, given.bytes.as_slice()) {
        Ok(text) => Ok(text),
        Err(ReadFault::Fault(fault)) => Err(ToolFault::FaultyImage(given.image.name, fault)),
        Err(ReadFault::OutOfMemory) => Err(ToolFault::OutOfMemory),
    }
}
