//! A folder in memory that notes how its files are written.

use cq_folder::{Access, Folder, FolderFault, MemoryFolder, NewFile};
use std::alloc::Global;

/// A folder in memory that notes the fault of a write or a save. The folder around it may return another one.
#[derive(Drop)]
pub struct NotedFolder {
    /// The folder within.
    folder: MemoryFolder,
    /// The fault of the last write or save that was not done, if there was one.
    pub written: Result<(), FolderFault>,
}

impl NotedFolder {
    /// This folder, with no fault.
    pub fn new(folder: MemoryFolder) -> Self {
        NotedFolder {
            folder,
            written: Ok(()),
        }
    }
}

impl Folder for NotedFolder {
    ghost use Rattle.std.specs.Prelude.{Some};
    ghost use Rattle.cq_folder.specs.MemoryFolder.{files_in};

    ghost files = { λ noted. Some (files_in noted.folder) };

    ghost failed = { λ noted. noted.folder.failures };

    ghost entered = { λ noted. noted.folder.entered };

    fn begin(&mut self, alloc: Global, access: Access) -> Result<(), FolderFault> {
        self.folder.begin(alloc, access)
    }

    fn end(&mut self) {
        self.folder.end();
    }

    fn names(&mut self, alloc: Global) -> Result<Vec<String>, FolderFault> {
        self.folder.names(alloc)
    }

    fn read(&mut self, alloc: Global, name: &str, limit: usize) -> Result<Vec<u8>, FolderFault> {
        self.folder.read(alloc, name, limit)
    }

    fn write(&mut self, name: &str, bytes: &[u8]) -> Result<(), FolderFault> {
        let answer = self.folder.write(name, bytes);
        self.written = self.written.and(answer);
        answer
    }

    fn save(&mut self, changes: &[NewFile]) -> Result<(), FolderFault> {
        let answer = self.folder.save(changes);
        self.written = self.written.and(answer);
        answer
    }

    fn save_and_remove(
        &mut self,
        changes: &[NewFile],
        removed: &[String],
    ) -> Result<(), FolderFault> {
        let answer = self.folder.save_and_remove(changes, removed);
        self.written = self.written.and(answer);
        answer
    }

    fn access(&self) -> Option<Access> {
        self.folder.access()
    }

    fn failures(&self) -> u64 {
        self.folder.failures()
    }
}
