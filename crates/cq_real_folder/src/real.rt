ghost use Rattle.std.specs.Prelude.{◌≡◌, ◌≢◌, ◌↔◌, ◌≤◌, ◌+◌, ◌++◌, Err, IfErr, IfOk, None, Ok, codes, option_map, string_bytes};
ghost use Rattle.std.specs.IoError.{error_kind};
ghost use Rattle.cq_folder.specs.Folder.{IsCounted};
ghost use Rattle.cq_real_folder.specs.Record.{part_name};

mod entering;
mod locking;
mod reading;
mod replacing;

use crate::real::locking::Lock;
use crate::record::{Record, part_name};
use cq_folder::{Access, Folder, FolderFault, NewFile, fault_of};
use std::alloc::{AllocError, Global};
use std::fs::{File, OpenFile};
use std::io::{self, ErrorKind};
use std::rt::Files;

/// A folder of the system. No contract knows what its files hold.
///
/// A command is in it, shared or alone, exactly as long as it keeps open the folder that it entered with that access.
/// Which lock the system was asked for, and what that does, is tested.
///
/// It is locked as a whole, if the system has locks on folders. A command that is alone waits for all others. The
/// system frees the lock of a process that ends.
///
/// The new bytes of a file are written and synced to a new file next to it, its part. The name of the part is that of
/// the file, then a dot, the number of the process and `.part`. Then the part is renamed to the file. If several files
/// are saved, or some are removed, the record `queue.save` is there while their parts are renamed and those files are removed.
/// From the moment that the record is there, all of that is done.
///
/// A command that enters alone under a lock removes the parts that are left. It takes a file for a part exactly if its
/// name is `FILE.NUMBER.part`. FILE is `queue.save` or a file that a record can name. NUMBER is below 2^32, in decimal
/// without leading zeros. That it removes these and no others is tested.
#[derive(Drop)]
pub struct RealFolder<'a, R: Files<File = File> + AllocGlobal + Clone + Drop> {
    /// Its files.
    files: Directory<'a, R>,
    /// The lock of the folder; `None` if no command is in it.
    lock: Option<Lock>,
    /// The number of calls that returned `Device`, up to 2^64 - 1.
    pub failures: u64,
}

impl<'a, R: Files<File = File> + AllocGlobal + Clone + Drop> RealFolder<'a, R> {
    /// Makes a folder of this path, for the process with this number. It does not look at the path yet.
    pub fn new(rt: &'a R, path: String, process: u32) -> Self
        ensures path { result.files.path ≡ path }
        ensures process { result.files.process ≡ process }
        ensures unlocked { result.lock ≡ None }
        ensures none { result.failures ≡ 0 }
    {
        RealFolder {
            files: Directory {
                rt,
                path,
                process,
                record: None,
                may_come_back: false,
            },
            lock: None,
            failures: 0,
        }
    }
}

/// The files of a folder, and what is left of the saves of this process and of earlier ones.
#[derive(Drop)]
struct Directory<'a, R: Files<File = File> + AllocGlobal + Clone + Drop> {
    rt: &'a R,
    path: String,
    /// The number of this process.
    process: u32,
    /// The record that is there, through which files are listed and read.
    record: Option<Record>,
    /// Whether a record was removed, and that may not be on the device yet.
    may_come_back: bool,
}

impl<'a, R: Files<File = File> + AllocGlobal + Clone + Drop> Directory<'a, R> {
    /// Returns the path of the file of this name.
    fn path_of(&self, name: &str) -> Result<String, AllocError>
        ensures { IfOk result (λ path. string_bytes path ≡ string_bytes self.now.path ++ (codes "/" ++ name.now)) }
    {
        format!(in self.rt.alloc(); "{}/{name}", self.path)
    }

    /// Returns the path of the part of the file of this name that the process with this number writes.
    fn part_of(&self, name: &str, process: u32) -> Result<String, AllocError>
        ensures { IfOk result (λ path. string_bytes path
            ≡ string_bytes self.now.path ++ (codes "/" ++ part_name name.now process)) }
    {
        let part = part_name(self.rt.alloc(), name, process)?;
        self.path_of(part.as_str())
    }

    /// Syncs what the folder lists to the device. Of that no call of std promises anything.
    fn sync(&self) -> io::Result<()> {
        File::open(self.rt, self.path.as_str())?.sync_all()
    }
}

/// Ignores the error that there is no such file.
fn unless_missing(done: io::Result<()>) -> io::Result<()>
    ensures done { IfOk done (λ _. result ≡ done) }
    ensures missing { IfErr done (λ error. error_kind error ≡ ErrorKind.NotFound → result ≡ Ok tt) }
    ensures others { IfErr done (λ error. error_kind error ≢ ErrorKind.NotFound → result ≡ Err error) }
{
    match done {
        Err(error) if error.kind() == ErrorKind::NotFound => Ok(()),
        done => done,
    }
}

/// Returns what a call did, or the fault for its error. A fault of the device is counted.
fn counted<T>(failures: &mut u64, done: io::Result<T>) -> Result<T, FolderFault>
    ensures passed { IfOk done (λ value. result ≡ Ok value) }
    ensures same { IfOk result (λ value. done ≡ Ok value) }
    ensures memory { IfErr done (λ error. (result ≡ Err FolderFault.OutOfMemory) ↔ (error_kind error ≡ ErrorKind.OutOfMemory)) }
    ensures fits { result ≢ Err FolderFault.TooLarge }
    ensures counted { IsCounted failures.old failures.new result }
    ensures once { failures.new ≤ failures.old + 1 }
{
    match done {
        Ok(value) => Ok(value),
        Err(error) => Err(fault_of(failures, &error)),
    }
}

impl<'a, R: Files<File = File> + AllocGlobal + Clone + Drop> Folder for RealFolder<'a, R> {
    ghost failed = { λ folder. folder.failures };

    ghost entered = { λ folder. option_map (λ lock. lock.access) folder.lock };

    fn begin(&mut self, alloc: Global, access: Access) -> Result<(), FolderFault> {
        match self.enter(alloc, access) {
            Ok(()) => Ok(()),
            Err(error) => {
                self.leave();
                Err(fault_of(&mut self.failures, &error))
            }
        }
    }

    fn end(&mut self) {
        self.leave();
    }

    fn names(&mut self, alloc: Global) -> Result<Vec<String>, FolderFault> {
        let done = self.files.list_through(alloc);
        counted(&mut self.failures, done)
    }

    fn read(&mut self, alloc: Global, name: &str, limit: usize) -> Result<Vec<u8>, FolderFault> {
        match self.files.read_through(alloc, name, limit) {
            Ok(bytes) if bytes.len() > limit => Err(FolderFault::TooLarge),
            read => counted(&mut self.failures, read),
        }
    }

    fn write(&mut self, name: &str, bytes: &[u8]) -> Result<(), FolderFault> {
        let done = self.files.replace(name, bytes);
        counted(&mut self.failures, done)
    }

    fn save(&mut self, changes: &[NewFile]) -> Result<(), FolderFault> {
        let done = self.files.replace_and_remove(changes, &[]);
        counted(&mut self.failures, done)
    }

    fn save_and_remove(
        &mut self,
        changes: &[NewFile],
        removed: &[String],
    ) -> Result<(), FolderFault> {
        let done = self.files.replace_and_remove(changes, removed);
        counted(&mut self.failures, done)
    }

    fn access(&self) -> Option<Access> {
        match &self.lock {
            Some(lock) => Some(lock.access()),
            None => None,
        }
    }

    fn failures(&self) -> u64 {
        self.failures
    }
}
