//! A folder of files, as the commands of a queue see it.

ghost use Rattle.std.specs.Prelude.{◌≡◌, ◌↔◌, ◌≢◌, ◌<◌, ◌≤◌, ◌+◌, ◌-◌, ◌^◌, ◌⊎◌};
ghost use Rattle.std.specs.IoError.{error_kind};

use std::alloc::{AllocError, AllocFailed, Global};
use std::io::{self, ErrorKind};

/// Why a call on a folder failed (ours; Chronicle Queue has no rule for it).
#[derive(Clone, Copy, Debug, PartialEq, Eq)]
pub enum FolderFault {
    /// The folder could not be entered or listed, or a file could not be read or written. Reading a file that is not
    /// there fails so too.
    Device,
    /// The file has more bytes than the limit of the read.
    TooLarge,
    /// Out of memory: a growth was refused.
    OutOfMemory,
}

impl From<AllocError> for FolderFault {
    ghost use Rattle.cq_folder.specs.declared.storage.FolderFault.TheVariants.{OutOfMemory};

    ghost from_gives = { λ _ fault. fault ≡ OutOfMemory };

    fn from(_error: AllocError) -> FolderFault {
        FolderFault::OutOfMemory
    }
}

impl<T: Drop> From<AllocFailed<T>> for FolderFault {
    ghost use Rattle.cq_folder.specs.declared.storage.FolderFault.TheVariants.{OutOfMemory};

    ghost from_gives = { λ _ fault. fault ≡ OutOfMemory };

    fn from(_error: AllocFailed<T>) -> FolderFault {
        FolderFault::OutOfMemory
    }
}

/// Returns the fault for this error of the system: `OutOfMemory` if a growth was refused, else `Device`. It is never
/// `TooLarge`.
///
/// `failures` counts the calls that returned `Device`, this one included, up to 2^64 - 1, where the count stays.
/// Nothing else is counted.
pub fn fault_of(failures: &mut u64, error: &io::Error) -> FolderFault
    ensures fits { result ≢ FolderFault.TooLarge }
    ensures memory { (result ≡ FolderFault.OutOfMemory) ↔ (error_kind error.now ≡ ErrorKind.OutOfMemory) }
    ensures later { failures.old ≤ failures.new }
    ensures once { failures.new ≤ failures.old + 1 }
    ensures device { result ≡ FolderFault.Device → (failures.old < failures.new) ⊎ (failures.old ≡ 2 ^ 64 - 1) }
    ensures others { result ≢ FolderFault.Device → failures.new ≡ failures.old }
{
    if error.kind() == ErrorKind::OutOfMemory {
        return FolderFault::OutOfMemory;
    }
    *failures = failures.saturating_add(1);
    FolderFault::Device
}

/// How a command enters a folder.
#[derive(Clone, Copy, Debug, PartialEq, Eq)]
pub enum Access {
    /// It only reads, concurrently with others that do.
    Shared,
    /// It may write, and is alone.
    Alone,
}

/// A file that is to be saved.
#[derive(Drop)]
pub struct NewFile {
    /// Its name.
    pub name: String,
    /// All of its bytes.
    pub bytes: Vec<u8>,
}

/// A folder of files (ours; Chronicle Queue has no rule for it). No call makes the folder itself.
///
/// A command begins, lists and reads, writes or saves at most once, and ends. Only a command that has begun lists and
/// reads, and only one that is alone writes, saves and removes. Contracts see what the files of a folder in memory hold, but not
/// those of a real one.
///
/// Errors of every call but `end`, `access` and `failures`:
/// - `Device`: the folder failed. `failures` counts these.
/// - `TooLarge`: only of `read`.
/// - `OutOfMemory`: out of memory.
pub trait Folder {
    ghost use Rattle.std.specs.Prelude.{◌≡◌, ◌≢◌, ◌∷◌, ℕ, ◌<◌, ◌≤◌, Option, Some, [], Err, IfOk, OnErr, OnOk, IfSome, IsSome, IsSomeAnd, None, length, map};
    ghost use Rattle.cq_model.specs.Settings.{texts};
    ghost use Rattle.cq_folder.specs.Folder.{Entered, Files, IsCounted, KeepsFiles, KeepsOrSavesAndRemoves, KeepsOrWrites, ListsFiles, SavesAndRemoves, WritesFile, WritesFiles, named_file};

    ghost files: { Self → Option Files } = { λ _. None };

    ghost failed: { Self → ℕ };

    ghost entered: { Self → Entered };

    /// Begins a command with this access: waits until it may enter. It is in the folder until `end`, or until the
    /// folder is dropped or begins again. A save that was cut short counts as done; a command that is alone does what
    /// is left of it.
    ///
    /// After an error no command is in the folder.
    fn begin(&mut self, alloc: Global, access: Access) -> Result<(), FolderFault>
        ensures inside { OnOk result (entered self.new ≡ Some access) }
        ensures outside { OnErr result (entered self.new ≡ None) }
        ensures kept { KeepsFiles (files self.old) (files self.new) }
        ensures fits { result ≢ Err FolderFault.TooLarge }
        ensures counted { IsCounted (failed self.old) (failed self.new) result };

    /// Ends a command. Others may enter.
    fn end(&mut self)
        ensures outside { entered self.new ≡ None }
        ensures kept { files self.new ≡ files self.old }
        ensures counted { failed self.new ≡ failed self.old };

    /// Returns the names of the files, each once and in no promised order.
    fn names(&mut self, alloc: Global) -> Result<Vec<String>, FolderFault>
        requires { IsSome (entered self.old) }
        ensures inside { entered self.new ≡ entered self.old }
        ensures listed { IfOk result (λ names. IfSome (files self.old) (ListsFiles (texts names.items))) }
        ensures kept { KeepsFiles (files self.old) (files self.new) }
        ensures fits { result ≢ Err FolderFault.TooLarge }
        ensures counted { IsCounted (failed self.old) (failed self.new) result };

    /// Returns the bytes of a file.
    ///
    /// Errors:
    /// - `TooLarge`: the file has more than `limit` bytes.
    /// - `Device`: there is no file of that name, or it could not be read.
    /// - `OutOfMemory`: out of memory.
    fn read(&mut self, alloc: Global, name: &str, limit: usize) -> Result<Vec<u8>, FolderFault>
        requires { IsSome (entered self.old) }
        ensures inside { entered self.new ≡ entered self.old }
        ensures found { IfOk result (λ bytes. IfSome (files self.old) (λ held. held name.now ≡ Some bytes.items)) }
        ensures small { IfOk result (λ bytes. length bytes.items ≤ limit) }
        ensures large { result ≡ Err FolderFault.TooLarge → IfSome (files self.old) (λ held.
            IsSomeAnd (held name.now) (λ bytes. limit < length bytes)) }
        ensures kept { KeepsFiles (files self.old) (files self.new) }
        ensures counted { IsCounted (failed self.old) (failed self.new) result };

    /// Writes a whole file: its bytes are then these, whether it was there before or not.
    ///
    /// After an error that is so, or no file has changed. After `OutOfMemory` none has.
    fn write(&mut self, name: &str, bytes: &[u8]) -> Result<(), FolderFault>
        requires { entered self.old ≡ Some Access.Alone }
        ensures inside { entered self.new ≡ entered self.old }
        ensures written { OnOk result (WritesFile (files self.old) (files self.new) name.now bytes.now) }
        ensures whole { OnErr result (KeepsOrWrites (files self.old) (files self.new) ((name.now, bytes.now) ∷ [])) }
        ensures scarce { result ≡ Err FolderFault.OutOfMemory → KeepsFiles (files self.old) (files self.new) }
        ensures fits { result ≢ Err FolderFault.TooLarge }
        ensures counted { IsCounted (failed self.old) (failed self.new) result };

    /// Writes several whole files at once. After an error all of them are written, or none. After `OutOfMemory` none
    /// is.
    fn save(&mut self, changes: &[NewFile]) -> Result<(), FolderFault>
        requires { entered self.old ≡ Some Access.Alone }
        ensures inside { entered self.new ≡ entered self.old }
        ensures written { OnOk result (WritesFiles (files self.old) (files self.new) (map named_file changes.now)) }
        ensures whole { OnErr result (KeepsOrWrites (files self.old) (files self.new) (map named_file changes.now)) }
        ensures scarce { result ≡ Err FolderFault.OutOfMemory → KeepsFiles (files self.old) (files self.new) }
        ensures fits { result ≢ Err FolderFault.TooLarge }
        ensures counted { IsCounted (failed self.old) (failed self.new) result };

    /// Writes several whole files and removes others, all at once. What is written is written first, so a removed file is
    /// gone even if it is also written. A file that is not there counts as removed.
    ///
    /// After an error all of that is done, or nothing. After `OutOfMemory` nothing is.
    fn save_and_remove(
        &mut self,
        changes: &[NewFile],
        removed: &[String],
    ) -> Result<(), FolderFault>
        requires { entered self.old ≡ Some Access.Alone }
        ensures inside { entered self.new ≡ entered self.old }
        ensures written { OnOk result (SavesAndRemoves (files self.old) (files self.new) (map named_file changes.now) (texts removed.now)) }
        ensures whole { OnErr result (KeepsOrSavesAndRemoves (files self.old) (files self.new) (map named_file changes.now) (texts removed.now)) }
        ensures scarce { result ≡ Err FolderFault.OutOfMemory → KeepsFiles (files self.old) (files self.new) }
        ensures fits { result ≢ Err FolderFault.TooLarge }
        ensures counted { IsCounted (failed self.old) (failed self.new) result };

    /// Returns the access of the command that is in the folder; `None` if no command is.
    fn access(&self) -> Option<Access>
        ensures { result ≡ entered self.now };

    /// Returns the number of calls that returned `Device`, up to 2^64 - 1, where the count stays.
    fn failures(&self) -> u64
        ensures { result ≡ failed self.now };
}
