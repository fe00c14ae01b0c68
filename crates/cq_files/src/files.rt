//! The files of a queue's folder.

ghost use Rattle.std.specs.Prelude.{◌≡◌, ◌≢◌, ◌≤◌, ◌∷◌, [], length, map, string_bytes, IfOk, IfErr, IfSome, OnOk, OnErr, Some, IsSome, None};
ghost use Rattle.cq_model.specs.Settings.{texts};
ghost use Rattle.cq_folder.specs.Folder.{KeepsFiles, KeepsOrWrites, ListsFiles, WritesFile, WritesFiles, named_file};
ghost use Rattle.cq_files.specs.FolderFaults.{HasCause, HoldsConfig, IsFileFault, IsListFault, IsSaveFault, TellsFile};
ghost use Rattle.cq_files.specs.Saved.{first_file};
ghost use Rattle.std.specs.Io.KnownBytes.{Appends};
ghost use Rattle.cq_text.specs.Faults.{IsDeviceFault};
ghost use Rattle.cq_text.specs.Output.{AppendsBeginning};
ghost use Rattle.cq_files.specs.Counted.{CountsFaults};
ghost use Rattle.cq_files.specs.Looking.{Enters, Stays};

use cq_folder::{Access, Folder, FolderFault, NewFile};
use cq_text::{ToolFault, print};
use std::alloc::{AllocError, Global};
use std::io::Write;

/// The most bytes of a file that a command reads, and of the input that `write` takes.
pub const MOST_FILE_BYTES: usize = 8_388_608;

/// Begins a command with this access, and returns the names of the folder's files.
///
/// Errors:
/// - `FolderFault`: the folder could not be entered or listed.
/// - `OutOfMemory`: out of memory.
pub fn listed<F: Folder>(
    alloc: Global,
    folder: &mut F,
    access: Access,
) -> Result<Vec<String>, ToolFault>
    ensures listed { IfOk result (λ names. IfSome (F.files folder.old) (ListsFiles (texts names.items))) }
    ensures fault { IfErr result IsListFault }
    ensures cause { IfErr result (λ fault. IfSome (F.files folder.old) (λ files. HasCause files fault)) }
    ensures enters { Enters F.files F.failed F.entered access folder.old folder.new result }
{
    if let Err(fault) = folder.begin(alloc, access) {
        return Err(list_fault(fault));
    }
    match folder.names(alloc) {
        Ok(names) => Ok(names),
        Err(fault) => Err(list_fault(fault)),
    }
}

/// Returns the error for a folder that could not be listed.
fn list_fault(fault: FolderFault) -> ToolFault
    ensures fault { IsListFault result }
    ensures device { IsDeviceFault result → fault ≢ FolderFault.OutOfMemory }
{
    match fault {
        FolderFault::OutOfMemory => ToolFault::OutOfMemory,
        FolderFault::Device | FolderFault::TooLarge => ToolFault::FolderFault,
    }
}

/// Returns the bytes of a file that was listed.
///
/// Errors:
/// - `FileFault` with that name: the file could not be read, also if it is gone since.
/// - `FileTooLarge` with that name: it has more than 8,388,608 bytes.
/// - `OutOfMemory`: out of memory.
pub fn read_file<F: Folder>(alloc: Global, folder: &mut F, name: &str) -> Result<Vec<u8>, ToolFault>
    requires { IsSome (F.entered folder.old) }
    ensures held { IfOk result (λ bytes. IfSome (F.files folder.old) (λ files. files name.now ≡ Some bytes.items)) }
    ensures small { IfOk result (λ bytes. length bytes.items ≤ MOST_FILE_BYTES) }
    ensures fault { IfErr result (IsFileFault name.now) }
    ensures cause { IfErr result (λ fault. IfSome (F.files folder.old) (λ files. HoldsConfig files → HasCause files fault)) }
    ensures stays { Stays F.files F.failed F.entered folder.old folder.new result }
{
    match folder.read(alloc, name, MOST_FILE_BYTES) {
        Ok(bytes) => Ok(bytes),
        Err(FolderFault::Device) => Err(ToolFault::FileFault(String::from_str(alloc, name)?)),
        Err(FolderFault::TooLarge) => {
            Err(ToolFault::FileTooLarge(String::from_str(alloc, name)?))
        }
        Err(FolderFault::OutOfMemory) => Err(ToolFault::OutOfMemory),
    }
}

/// Writes a whole file: its bytes are then these. No other file changes.
///
/// Errors:
/// - `FileFault` with that name: the folder could not write it. The file has all of these bytes, or is as it was.
/// - `OutOfMemory`: out of memory. The file is as it was.
pub fn write_file<F: Folder>(
    alloc: Global,
    folder: &mut F,
    name: &str,
    bytes: &[u8],
) -> Result<(), ToolFault>
    requires { F.entered folder.old ≡ Some Access.Alone }
    ensures written { OnOk result (WritesFile (F.files folder.old) (F.files folder.new) name.now bytes.now) }
    ensures fault { IfErr result (IsFileFault name.now) }
    ensures save { IfErr result IsSaveFault }
    ensures whole { OnErr result (KeepsOrWrites (F.files folder.old) (F.files folder.new) ((name.now, bytes.now) ∷ [])) }
    ensures scarce { IfErr result (λ fault. fault ≡ ToolFault.OutOfMemory
        → KeepsFiles (F.files folder.old) (F.files folder.new)) }
    ensures counted { CountsFaults (F.failed folder.old) (F.failed folder.new) result }
    ensures inside { F.entered folder.new ≡ F.entered folder.old }
{
    // Copied before the file is written, so that after `OutOfMemory` it is as it was.
    let file = String::from_str(alloc, name)?;
    match folder.write(name, bytes) {
        Ok(()) => Ok(()),
        Err(fault) => Err(save_fault(fault, file)),
    }
}

/// Writes these whole files together. No other file changes.
///
/// Errors:
/// - `FileFault` with the name of the first: the folder could not write them. All of them are written, or none.
/// - `OutOfMemory`: out of memory. None is written.
pub fn save_files<F: Folder>(
    alloc: Global,
    folder: &mut F,
    changes: &[NewFile],
) -> Result<(), ToolFault>
    requires { F.entered folder.old ≡ Some Access.Alone }
    ensures written { OnOk result (WritesFiles (F.files folder.old) (F.files folder.new) (map named_file changes.now)) }
    ensures save { IfErr result IsSaveFault }
    ensures first { IfErr result (TellsFile (λ name. name ≡ first_file [] (map named_file changes.now))) }
    ensures unprinted { IfErr result (λ fault. fault ≢ ToolFault.WriteFault) }
    ensures whole { OnErr result (KeepsOrWrites (F.files folder.old) (F.files folder.new) (map named_file changes.now)) }
    ensures scarce { IfErr result (λ fault. fault ≡ ToolFault.OutOfMemory
        → KeepsFiles (F.files folder.old) (F.files folder.new)) }
    ensures counted { CountsFaults (F.failed folder.old) (F.failed folder.new) result }
    ensures inside { F.entered folder.new ≡ F.entered folder.old }
{
    let first = first_name(alloc, changes)?;
    match folder.save(changes) {
        Ok(()) => Ok(()),
        Err(fault) => Err(save_fault(fault, first)),
    }
}

/// Writes a text as `print` does, for a command that has left the folder. So no other command waits while the text is
/// read.
pub fn print_outside<F: Folder, W: Write>(
    _folder: &F,
    output: &mut W,
    text: &[u8],
) -> Result<(), ToolFault>
    requires { F.entered _folder.now ≡ None }
    ensures written { OnOk result (Appends (W.contents output.old) (W.contents output.new) text.now) }
    ensures fault { IfErr result (λ fault. fault ≡ ToolFault.WriteFault) }
    ensures begun { OnErr result (AppendsBeginning (W.contents output.old) (W.contents output.new) text.now) }
{
    print(output, text)
}

/// Returns the name of the first of these files.
fn first_name(alloc: Global, changes: &[NewFile]) -> Result<String, AllocError>
    ensures { IfOk result (λ name. string_bytes name ≡ first_file [] (map named_file changes.now)) }
{
    match changes.first() {
        Some(file) => String::from_str(alloc, file.name.as_str()),
        None => Ok(String::new(alloc)),
    }
}

/// Returns the error for a file that could not be written.
pub fn save_fault(fault: FolderFault, file: String) -> ToolFault
    ensures fault { IsFileFault (string_bytes file) result }
    ensures save { IsSaveFault result }
    ensures scarce { result ≡ ToolFault.OutOfMemory → fault ≡ FolderFault.OutOfMemory }
    ensures device { IsDeviceFault result → fault ≢ FolderFault.OutOfMemory }
{
    match fault {
        FolderFault::OutOfMemory => ToolFault::OutOfMemory,
        FolderFault::Device | FolderFault::TooLarge => ToolFault::FileFault(file),
    }
}
