//! A folder that lists its names in falling order and shows whether a command is in it, and an input and an output that
//! fail while one is.

use cq_folder::{Access, Folder, FolderFault, MemoryFolder, NewFile};
use std::alloc::Global;
use std::cell::Cell;
use std::io::{self, ErrorKind, Read, Write};

/// A folder in memory that shows whether a command is in it. Its names are listed from the last one to the first.
#[derive(Drop)]
pub struct WatchedFolder<'a> {
    /// The folder within.
    folder: MemoryFolder,
    /// Whether a command is in it.
    is_entered: &'a Cell<bool>,
}

impl<'a> WatchedFolder<'a> {
    /// A folder with no file, in which no command is.
    pub fn new(alloc: Global, is_entered: &'a Cell<bool>) -> Self {
        is_entered.set(false);
        WatchedFolder {
            folder: MemoryFolder::new(alloc),
            is_entered,
        }
    }
}

impl Folder for WatchedFolder<'_> {
    ghost use Rattle.std.specs.Prelude.{Some};
    ghost use Rattle.cq_folder.specs.MemoryFolder.{files_in};

    ghost files = { λ watched. Some (files_in watched.folder) };

    ghost failed = { λ watched. watched.folder.failures };

    ghost entered = { λ watched. watched.folder.entered };

    fn begin(&mut self, alloc: Global, access: Access) -> Result<(), FolderFault> {
        self.is_entered.set(true);
        self.folder.begin(alloc, access)
    }

    fn end(&mut self) {
        self.is_entered.set(false);
        self.folder.end();
    }

    fn names(&mut self, alloc: Global) -> Result<Vec<String>, FolderFault> {
        let mut names = self.folder.names(alloc)?;
        names.reverse();
        Ok(names)
    }

    fn read(&mut self, alloc: Global, name: &str, limit: usize) -> Result<Vec<u8>, FolderFault> {
        self.folder.read(alloc, name, limit)
    }

    fn write(&mut self, name: &str, bytes: &[u8]) -> Result<(), FolderFault> {
        self.folder.write(name, bytes)
    }

    fn save(&mut self, changes: &[NewFile]) -> Result<(), FolderFault> {
        self.folder.save(changes)
    }

    fn save_and_remove(
        &mut self,
        changes: &[NewFile],
        removed: &[String],
    ) -> Result<(), FolderFault> {
        self.folder.save_and_remove(changes, removed)
    }

    fn access(&self) -> Option<Access> {
        self.folder.access()
    }

    fn failures(&self) -> u64 {
        self.folder.failures()
    }
}

/// Returns an error if a command is in the folder.
fn check_outside(is_entered: &Cell<bool>) -> io::Result<()> {
    if is_entered.get() {
        return Err(io::Error::from(ErrorKind::Other));
    }
    Ok(())
}

/// An input that fails while a command is in the folder.
#[derive(Drop)]
pub struct WatchedInput<'a> {
    /// What is left to be read.
    pub left: &'a [u8],
    /// Whether a command is in the folder.
    pub is_entered: &'a Cell<bool>,
}

impl Read for WatchedInput<'_> {
    fn read(&mut self, buf: &mut [u8]) -> io::Result<usize> {
        check_outside(self.is_entered)?;
        self.left.read(buf)
    }
}

/// An output that fails while a command is in the folder.
#[derive(Drop)]
pub struct WatchedOutput<'a> {
    /// What was written.
    pub text: Vec<u8>,
    /// Whether a command is in the folder.
    pub is_entered: &'a Cell<bool>,
}

impl Write for WatchedOutput<'_> {
    fn write(&mut self, buf: &[u8]) -> io::Result<usize> {
        check_outside(self.is_entered)?;
        self.text.extend_from_slice(buf)?;
        Ok(buf.len())
    }

    fn flush(&mut self) -> io::Result<()> {
        check_outside(self.is_entered)
    }
}
