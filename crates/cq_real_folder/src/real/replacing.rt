//! Replaces files, each as a whole, and removes files: all of a save or nothing of it.

ghost use Rattle.std.specs.Prelude.{◌≡◌, ◌≢◌, [], Err, IfErr, IfOk, IsErrAnd, IsOk, IsOkAnd, IsSomeAnd, None, Ok, OnErr, OnOk, false, true};
ghost use Rattle.std.specs.Fs.{IsFile, file_type, metadata_mode, permissions_mode};
ghost use Rattle.std.specs.IoError.{error_kind};
ghost use Rattle.cq_real_folder.specs.Place.{IsSamePlace};

use super::entering::MOST_RECORD_BYTES;
use super::{Directory, unless_missing};
use crate::record::Record;
use crate::saving::record_of;
use cq_folder::{NewFile, RECORD_FILE};
use std::fs::{self, File, Metadata, OpenFile, Permissions};
use std::io::{self, ErrorKind, Write};
use std::rt::Files;

impl<'a, R: Files<File = File> + AllocGlobal + Clone + Drop> Directory<'a, R> {
    /// Writes a file. It then holds all of the bytes or what it held, also if the system stops in between. std promises
    /// nothing of that.
    pub(super) fn replace(&mut self, name: &str, bytes: &[u8]) -> io::Result<()>
        ensures done { OnOk result (self.new.record ≡ None) }
        ensures place { IsSamePlace self.old self.new }
    {
        self.finish_earlier()?;
        let placed = match self.prepare(name, bytes) {
            Ok(()) => self.place(name, self.process),
            Err(error) => Err(error),
        };
        if let Err(error) = placed {
            self.discard(name);
            return Err(error);
        }
        self.confirm()
    }

    /// Writes files and removes others, together. A single file is replaced by one rename, and so needs no record. A removal
    /// always has a record.
    pub(super) fn replace_and_remove(
        &mut self,
        changes: &[NewFile],
        removed: &[String],
    ) -> io::Result<()>
        ensures nothing { changes.now ≡ [] → removed.now ≡ [] → result ≡ Ok tt }
        ensures unchanged { changes.now ≡ [] → removed.now ≡ [] → self.new ≡ self.old }
        ensures place { IsSamePlace self.old self.new }
    {
        match (changes, removed) {
            ([], []) => Ok(()),
            ([file], []) => self.replace(file.name.as_str(), file.bytes.as_slice()),
            _ => self.replace_all(changes, removed),
        }
    }

    /// Writes files and removes others, together. Either all of that is done, or all files hold what they held. Once the
    /// record is on the device the files are saved. An error after that is not returned while the record is there: the next
    /// save, or the next command that is alone, does what is left.
    fn replace_all(&mut self, changes: &[NewFile], removed: &[String]) -> io::Result<()>
        ensures place { IsSamePlace self.old self.new }
    {
        self.finish_earlier()?;
        let record = record_of(self.rt.alloc(), self.process, changes, removed)?;
        if let Err(error) = self.promise(&record, changes) {
            self.give_up(changes);
            return Err(error);
        }
        let promised = self.confirm();
        self.record = Some(record);
        promised?;
        if self.settle().is_err() {
            return Ok(());
        }
        self.confirm_removal()
    }

    /// Writes the parts of files, and then their record. It returns an error if what is to be removed is no plain file. std
    /// promises nothing of what the system does.
    fn promise(&self, record: &Record, changes: &[NewFile]) -> io::Result<()> {
        for name in &record.removed {
            self.permissions(name.as_str())?;
        }
        for file in changes {
            self.prepare(file.name.as_str(), file.bytes.as_slice())?;
        }
        let text = record.text(self.rt.alloc())?;
        // Nobody could read a longer one.
        if text.len() > MOST_RECORD_BYTES {
            return Err(io::Error::from(ErrorKind::InvalidInput));
        }
        self.prepare(RECORD_FILE, text.as_bytes())?;
        self.place(RECORD_FILE, self.process)
    }

    /// Removes what a save wrote whose record is not there. A rename may return an error and be done nevertheless, so
    /// the record is removed first. If it cannot be, or may come back after a crash, the parts stay.
    fn give_up(&mut self, changes: &[NewFile])
        ensures record { self.new.record ≡ self.old.record }
        ensures place { IsSamePlace self.old self.new }
    {
        if self.remove_record().is_err() || self.confirm_removal().is_err() {
            return;
        }
        self.discard(RECORD_FILE);
        for file in changes {
            self.discard(file.name.as_str());
        }
    }

    /// Removes the record, if there is one. After an error it may be gone too.
    pub(super) fn remove_record(&mut self) -> io::Result<()>
        ensures missing { IfErr result (λ error. error_kind error ≢ ErrorKind.NotFound) }
        ensures later { self.old.may_come_back ≡ true → self.new.may_come_back ≡ true }
        ensures record { self.new.record ≡ self.old.record }
        ensures place { IsSamePlace self.old self.new }
    {
        match fs::remove_file(self.rt, self.path_of(RECORD_FILE)?.as_str()) {
            Err(error) if error.kind() == ErrorKind::NotFound => Ok(()),
            removed => {
                self.may_come_back = true;
                removed
            }
        }
    }

    /// Removes a file, if there is one.
    pub(super) fn remove(&self, name: &str) -> io::Result<()>
        ensures { IfErr result (λ error. error_kind error ≢ ErrorKind.NotFound) }
    {
        unless_missing(fs::remove_file(self.rt, self.path_of(name)?.as_str()))
    }

    /// Removes the part of a file, if there is one. std promises nothing of that.
    fn discard(&self, name: &str) {
        if let Ok(part) = self.part_of(name, self.process) {
            let _ = fs::remove_file(self.rt, part.as_str());
        }
    }

    /// Writes the part of a file, anew. Anything that has its name is removed first, a link or a FIFO too. std promises
    /// nothing of that.
    fn prepare(&self, name: &str, bytes: &[u8]) -> io::Result<()> {
        let permissions = self.permissions(name)?;
        let part = self.part_of(name, self.process)?;
        unless_missing(fs::remove_file(self.rt, part.as_str()))?;
        fill(
            File::create_new(self.rt, part.as_str())?,
            permissions,
            bytes,
        )
    }

    /// Returns the permissions of the file, if it is there already. It returns an error if that is no plain file.
    fn permissions(&self, name: &str) -> io::Result<Option<Permissions>>
        ensures { IfErr result (λ error. error_kind error ≢ ErrorKind.NotFound) }
    {
        permissions_in(fs::symlink_metadata(self.rt, self.path_of(name)?.as_str()))
    }

    /// Syncs what the folder lists to the device, after a rename from which on the new bytes are seen. So its error
    /// never says out of memory, after which no file has changed.
    pub(super) fn confirm(&self) -> io::Result<()>
        ensures { IfErr result (λ error. error_kind error ≢ ErrorKind.OutOfMemory) }
    {
        match self.sync() {
            Err(error) if error.kind() == ErrorKind::OutOfMemory => {
                Err(io::Error::from(ErrorKind::Other))
            }
            synced => synced,
        }
    }

    /// Syncs that the record of a save was removed. Else the record could come back after the machine stops, when a later save of
    /// this process has written parts of the same names. If the sync fails, the next save tries it again first.
    pub(super) fn confirm_removal(&mut self) -> io::Result<()>
        ensures none { self.old.may_come_back ≡ false → IsOk result }
        ensures done { OnOk result (self.new.may_come_back ≡ false) }
        ensures again { OnErr result (self.new.may_come_back ≡ self.old.may_come_back) }
        ensures memory { IfErr result (λ error. error_kind error ≢ ErrorKind.OutOfMemory) }
        ensures record { self.new.record ≡ self.old.record }
        ensures place { IsSamePlace self.old self.new }
    {
        if self.may_come_back {
            self.confirm()?;
            self.may_come_back = false;
        }
        Ok(())
    }

    /// Renames the part of a file that the process with this number wrote to the file. std promises nothing of that.
    pub(super) fn place(&self, name: &str, process: u32) -> io::Result<()> {
        let part = self.part_of(name, process)?;
        fs::rename(self.rt, part.as_str(), self.path_of(name)?.as_str())
    }
}

/// Returns the permissions of a file of which this was found; `None` if it is not there.
fn permissions_in(found: io::Result<Metadata>) -> io::Result<Option<Permissions>>
    ensures file { IfOk found (λ seen. IsFile (file_type seen) → IsOkAnd result (λ there.
        IsSomeAnd there (λ permissions. permissions_mode permissions ≡ metadata_mode seen))) }
    ensures other { IfOk found (λ seen. ¬ IsFile (file_type seen) → IsErrAnd result (λ error.
        error_kind error ≡ ErrorKind.InvalidInput)) }
    ensures missing { IfErr found (λ error. error_kind error ≡ ErrorKind.NotFound → result ≡ Ok None) }
    ensures unseen { IfErr found (λ error. error_kind error ≢ ErrorKind.NotFound → result ≡ Err error) }
{
    match found {
        Ok(data) if data.is_file() => Ok(Some(data.permissions())),
        Ok(_) => Err(io::Error::from(ErrorKind::InvalidInput)),
        Err(error) if error.kind() == ErrorKind::NotFound => Ok(None),
        Err(error) => Err(error),
    }
}

/// Writes a new file to the device. std promises nothing of that.
fn fill(mut file: File, permissions: Option<Permissions>, bytes: &[u8]) -> io::Result<()> {
    if let Some(permissions) = permissions {
        file.set_permissions(permissions)?;
    }
    file.write_all(bytes)?;
    file.sync_all()
}
