//! Lists a folder and reads its files, through the record of a save that was cut short.

ghost use Rattle.std.specs.Prelude.{◌≡◌, ◌≢◌, ◌++◌, ◌∷◌, [], IfErr, IfSome, IsErrAnd, IsTrue, Ok, OnErr, OnOk, map, string_bytes};
ghost use Rattle.std.specs.Str.Lossy.{utf8_lossy};
ghost use Rattle.std.specs.IoError.{error_kind};
ghost use Rattle.cq_folder.specs.Folder.{is_named};
ghost use Rattle.cq_real_folder.specs.Record.{IsFolderName};

use super::Directory;
use cq_folder::has_name;
use std::alloc::{AllocError, Global};
use std::fs::{self, File};
use std::io::{self, BufRead, BufReader, ErrorKind, Read};
use std::rt::Files;

impl<'a, R: Files<File = File> + AllocGlobal + Clone + Drop> Directory<'a, R> {
    /// Returns the names in the folder, with those of the record that is there, and without those that it removes. std
    /// promises nothing of what the system lists.
    pub(super) fn list_through(&self, alloc: Global) -> io::Result<Vec<String>> {
        let mut names = self.list(alloc)?;
        if let Some(record) = &self.record {
            record.apply(alloc, &mut names)?;
        }
        Ok(names)
    }

    /// Returns the names in the folder. In a name that is not UTF-8, U+FFFD replaces what is no text; no file can be
    /// read by that name. std promises nothing of what the system lists.
    pub(super) fn list(&self, alloc: Global) -> io::Result<Vec<String>> {
        names_in(alloc, self.rt.open_dir(self.path_of("")?.as_str())?)
    }

    /// Reads the bytes of a file, at most `limit + 1` of them. If the record that is there replaces the file, they are
    /// those of its part, unless the part has been renamed. If it removes the file, there is none.
    pub(super) fn read_through(
        &self,
        alloc: Global,
        name: &str,
        limit: usize,
    ) -> io::Result<Vec<u8>>
        ensures { IfSome self.now.record (λ there. IsTrue (is_named there.removed.items name.now)
            → IsErrAnd result (λ error. error_kind error ≡ ErrorKind.NotFound)) }
    {
        match &self.record {
            Some(record) if has_name(record.removed.as_slice(), name) => {
                Err(io::Error::from(ErrorKind::NotFound))
            }
            Some(record) if has_name(record.names.as_slice(), name) => {
                self.read_replaced(alloc, name, record.process, limit)
            }
            _ => self.read_named(alloc, name, limit),
        }
    }

    /// Reads the part of a file that the process with this number wrote, and the file itself if the part has been renamed. std
    /// promises nothing of what the system reads.
    fn read_replaced(
        &self,
        alloc: Global,
        name: &str,
        process: u32,
        limit: usize,
    ) -> io::Result<Vec<u8>> {
        let part = self.part_of(name, process)?;
        match self.read_plain(alloc, part.as_str(), limit) {
            Err(error) if error.kind() == ErrorKind::NotFound => {
                self.read_named(alloc, name, limit)
            }
            read => read,
        }
    }

    /// Reads the file of this name. std promises nothing of what the system reads.
    fn read_named(&self, alloc: Global, name: &str, limit: usize) -> io::Result<Vec<u8>> {
        self.read_plain(alloc, self.path_of(name)?.as_str(), limit)
    }

    /// Reads the file at a path, in the same way. A link is not followed, and only a plain file is opened. std promises
    /// nothing of what the system reads.
    pub(super) fn read_plain(
        &self,
        alloc: Global,
        path: &str,
        limit: usize,
    ) -> io::Result<Vec<u8>> {
        if !fs::symlink_metadata(self.rt, path)?.is_file() {
            return Err(io::Error::from(ErrorKind::InvalidInput));
        }
        bytes_in(alloc, File::open(self.rt, path)?, limit)
    }
}

/// Reads the bytes of an open file, at most `limit + 1` of them. It goes on after an interruption. Which bytes a file
/// gives std does not promise.
fn bytes_in(alloc: Global, file: File, limit: usize) -> io::Result<Vec<u8>>
    ensures { IfErr result (λ error. error_kind error ≢ ErrorKind.Interrupted) }
{
    let mut bytes = Vec::new(alloc);
    file.take((limit as u64).saturating_add(1))
        .read_to_end(&mut bytes)?;
    Ok(bytes)
}

/// Returns the names that an open folder lists.
fn names_in<D: Read + Drop>(alloc: Global, folder: D) -> io::Result<Vec<String>> {
    let mut names = Vec::new(alloc);
    // Each name ends with a zero byte, and no read ends inside a name: a small buffer would be refused.
    for name in BufReader::new(alloc, folder)?.split(alloc, 0) {
        push_name(alloc, &mut names, name?.as_slice())?;
    }
    Ok(names)
}

/// Adds a name that a folder lists, unless it is that of the folder itself or of its parent.
fn push_name(alloc: Global, names: &mut Vec<String>, name: &[u8]) -> Result<(), AllocError>
    ensures own { IsFolderName name.now → result ≡ Ok tt }
    ensures passed { IsFolderName name.now → names.new.items ≡ names.old.items }
    ensures added { ¬ IsFolderName name.now → OnOk result (map string_bytes names.new.items
        ≡ map string_bytes names.old.items ++ utf8_lossy name.now ∷ []) }
    ensures kept { OnErr result (names.new.items ≡ names.old.items) }
{
    if matches!(name, b"." | b"..") {
        return Ok(());
    }
    names.push(String::from_utf8_lossy(alloc, name)?)?;
    Ok(())
}
