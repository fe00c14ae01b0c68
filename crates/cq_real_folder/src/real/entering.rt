//! Enters a folder: takes the lock, and looks for what is left of a save that was cut short.

ghost use Rattle.std.specs.Prelude.{◌≡◌, ◌≢◌, ◌≤◌, ◌<◌, ◌+◌, IfErr, IfOk, IfSome, None, OnErr, OnOk, Some, false, length, option_map, vec_len};
ghost use Rattle.std.specs.IoError.{error_kind};
ghost use Rattle.cq_real_folder.specs.Place.{IsSamePlace};
ghost use Rattle.cq_real_folder.specs.Record.{AreFileNames, IsReadingError, record_text};

use super::locking::Lock;
use super::{Directory, RealFolder, unless_missing};
use crate::record::{Record, is_part_name};
use cq_folder::{Access, RECORD_FILE};
use std::alloc::Global;
use std::fs::{self, File};
use std::io::{self, ErrorKind};
use std::rt::Files;

/// The most bytes of a record.
pub(super) const MOST_RECORD_BYTES: usize = 1_048_576;

impl<'a, R: Files<File = File> + AllocGlobal + Clone + Drop> RealFolder<'a, R> {
    /// Waits for the lock, and looks for a save that was cut short.
    pub(super) fn enter(&mut self, alloc: Global, access: Access) -> io::Result<()>
        ensures failures { self.new.failures ≡ self.old.failures }
        ensures place { IsSamePlace self.old.files self.new.files }
        ensures done { access ≡ Access.Alone → OnOk result (self.new.files.record ≡ None) }
        ensures inside { OnOk result (option_map (λ lock. lock.access) self.new.lock ≡ Some access) }
    {
        self.leave();
        let lock = self.files.locked(access)?;
        let is_held = lock.is_held;
        self.lock = Some(lock);
        self.files.resume(alloc, access, is_held)
    }

    /// Releases the lock.
    pub(super) fn leave(&mut self)
        ensures failures { self.new.failures ≡ self.old.failures }
        ensures outside { self.new.lock ≡ None }
        ensures record { self.new.files.record ≡ None }
        ensures place { IsSamePlace self.old.files self.new.files }
        ensures again { self.new.files.may_come_back ≡ self.old.files.may_come_back }
    {
        self.lock = None;
        self.files.record = None;
    }
}

impl<'a, R: Files<File = File> + AllocGlobal + Clone + Drop> Directory<'a, R> {
    /// Returns the folder, opened and locked. std promises nothing of what the system opens and locks.
    fn locked(&self, access: Access) -> io::Result<Lock>
        ensures { IfOk result (λ lock. lock.access ≡ access) }
    {
        // Opening a FIFO would wait.
        if !fs::metadata(self.rt, self.path.as_str())?.is_dir() {
            return Err(io::Error::from(ErrorKind::NotADirectory));
        }
        Lock::of(File::open(self.rt, self.path.as_str())?, access)
    }

    /// Looks for a save that was cut short. A command that is alone does what is left of it, and removes the parts that are left
    /// if the lock is held: without locks, a part may be that of a process that is running.
    fn resume(&mut self, alloc: Global, access: Access, is_held: bool) -> io::Result<()>
        ensures done { access ≡ Access.Alone → OnOk result (self.new.record ≡ None) }
        ensures place { IsSamePlace self.old self.new }
    {
        self.record = self.record_there(alloc)?;
        if access == Access::Alone {
            self.finish_earlier()?;
            if is_held {
                self.sweep(alloc)?;
            }
        }
        Ok(())
    }

    /// Returns the record that is there. A file of that name that is no record, or too long for one, is an error.
    fn record_there(&self, alloc: Global) -> io::Result<Option<Record>>
        ensures names { IfOk result (λ there. IfSome there (λ found. AreFileNames found.names.items)) }
        ensures removed { IfOk result (λ there. IfSome there (λ found. AreFileNames found.removed.items)) }
        ensures missing { IfErr result (λ error. error_kind error ≢ ErrorKind.NotFound) }
    {
        let path = self.path_of(RECORD_FILE)?;
        match self.read_plain(alloc, path.as_str(), MOST_RECORD_BYTES) {
            Ok(text) => Ok(Some(record_in(alloc, text.as_slice())?)),
            Err(error) if error.kind() == ErrorKind::NotFound => Ok(None),
            Err(error) => Err(error),
        }
    }

    /// Finishes the save whose record is there, if one is, and syncs that earlier records were removed. An earlier command was stopped,
    /// or an error kept this one from it.
    ///
    /// The record may not be on the device yet: without it, a crash could keep some of the renames and lose the others.
    pub(super) fn finish_earlier(&mut self) -> io::Result<()>
        ensures done { OnOk result (self.new.record ≡ None) }
        ensures synced { OnOk result (self.new.may_come_back ≡ false) }
        ensures place { IsSamePlace self.old self.new }
    {
        if self.record.is_some() {
            self.confirm()?;
            self.settle()?;
        }
        self.confirm_removal()
    }

    /// Does what is left of the save whose record is there, and on the device.
    pub(super) fn settle(&mut self) -> io::Result<()>
        ensures done { OnOk result (self.new.record ≡ None) }
        ensures left { OnErr result (self.new.record ≡ self.old.record) }
        ensures place { IsSamePlace self.old self.new }
    {
        if let Some(record) = &self.record {
            self.finish(record)?;
        }
        self.remove_record()?;
        self.record = None;
        Ok(())
    }

    /// Renames the parts that are left, removes the files that are to go, and syncs that. A part that is gone has been renamed, and a
    /// file that is gone has been removed. std promises nothing of that.
    fn finish(&self, record: &Record) -> io::Result<()> {
        for name in &record.names {
            unless_missing(self.place(name.as_str(), record.process))?;
        }
        for name in &record.removed {
            self.remove(name.as_str())?;
        }
        self.sync()
    }

    /// Removes the parts of saves that were cut short before their record was there. std promises nothing of that.
    fn sweep(&self, alloc: Global) -> io::Result<()> {
        let names = self.list(alloc)?;
        for name in &names {
            if is_part_name(alloc, name.as_str())? {
                let _ = fs::remove_file(self.rt, self.path_of(name.as_str())?.as_str());
            }
        }
        Ok(())
    }
}

/// Returns the record with this text. The error is `InvalidData` for a text that is no record, or too long for one.
fn record_in(alloc: Global, text: &[u8]) -> io::Result<Record>
    ensures form { IfOk result (λ found. text.now ≡ record_text found.process found.names.items found.removed.items) }
    ensures small { IfOk result (λ _. length text.now ≤ MOST_RECORD_BYTES) }
    ensures some { IfOk result (λ found. 0 < vec_len found.names + vec_len found.removed) }
    ensures names { IfOk result (λ found. AreFileNames found.names.items) }
    ensures removed { IfOk result (λ found. AreFileNames found.removed.items) }
    ensures error { IfErr result (IsReadingError MOST_RECORD_BYTES text.now) }
{
    if text.len() <= MOST_RECORD_BYTES
        && let Some(record) = Record::read(alloc, text)?
    {
        return Ok(record);
    }
    Err(io::Error::from(ErrorKind::InvalidData))
}
