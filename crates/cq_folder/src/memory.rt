ghost use Rattle.std.specs.Prelude.{◌≡◌, ◌∷◌, ℕ, [], IfOk, List, None, OnErr, OnOk, Some, map};

use crate::storage::{Access, Folder, FolderFault, NewFile};
use std::alloc::{AllocError, Global};
use std::collections::BTreeMap;

/// A folder in memory. Contracts see its files. A call fails when out of memory, if a file is read that the folder does
/// not hold, and if a file is read that has more bytes than the limit.
#[derive(Drop)]
pub struct MemoryFolder {
    alloc: Global,
    files: BTreeMap<String, Vec<u8>>,
    /// The number of calls that returned `Device`, up to 2^64 - 1.
    failures: u64,
    /// The access of the command that is in it; `None` if no command is.
    entered: Option<Access>,
}

impl MemoryFolder {
    ghost use Rattle.cq_folder.specs.Folder.{KeepsFiles, SavesAndRemoves, WritesFile, WritesFiles, named_file};
    ghost use Rattle.cq_folder.specs.MemoryFolder.{files_in};

    /// A folder with no file.
    pub fn new(alloc: Global) -> Self
        ensures empty { (name : List ℕ) → files_in result name ≡ None }
        ensures none { result.failures ≡ 0 }
        ensures outside { result.entered ≡ None }
    {
        MemoryFolder {
            alloc,
            files: BTreeMap::new(alloc),
            failures: 0,
            entered: None,
        }
    }

    /// Returns a copy of the folder.
    fn copied(&self) -> Result<MemoryFolder, AllocError>
        ensures files { IfOk result (λ copy. (name : List ℕ) → files_in copy name ≡ files_in self.now name) }
        ensures failures { IfOk result (λ copy. copy.failures ≡ self.now.failures) }
        ensures inside { IfOk result (λ copy. copy.entered ≡ self.now.entered) }
    {
        Ok(MemoryFolder {
            alloc: self.alloc,
            files: self.files.clone()?,
            failures: self.failures,
            entered: self.entered,
        })
    }

    /// Makes these bytes the whole file of that name.
    fn put(&mut self, name: &str, bytes: &[u8]) -> Result<(), AllocError>
        ensures written { OnOk result (WritesFile (Some (files_in self.old)) (Some (files_in self.new)) name.now bytes.now) }
        ensures kept { OnErr result (KeepsFiles (Some (files_in self.old)) (Some (files_in self.new))) }
        ensures failures { self.new.failures ≡ self.old.failures }
        ensures inside { self.new.entered ≡ self.old.entered }
    {
        let name = String::from_str(self.alloc, name)?;
        let bytes = Vec::from_slice(self.alloc, bytes)?;
        self.files.insert(name, bytes)?;
        Ok(())
    }

    /// Makes each of these bytes the whole file of its name, in turn.
    fn put_all(&mut self, changes: &[NewFile]) -> Result<(), AllocError>
        ensures written { OnOk result (WritesFiles (Some (files_in self.old)) (Some (files_in self.new)) (map named_file changes.now)) }
        ensures kept { OnErr result (KeepsFiles (Some (files_in self.old)) (Some (files_in self.new))) }
        ensures failures { self.new.failures ≡ self.old.failures }
        ensures inside { self.new.entered ≡ self.old.entered }
    {
        // All is written to a copy, which then replaces what was held.
        let mut copy = self.copied()?;
        for file in changes {
            copy.put(file.name.as_str(), file.bytes.as_slice())?;
        }
        *self = copy;
        Ok(())
    }

    /// Removes the file of that name, if there is one.
    fn remove(&mut self, name: &str)
        ensures removed { SavesAndRemoves (Some (files_in self.old)) (Some (files_in self.new)) [] (name.now ∷ []) }
        ensures failures { self.new.failures ≡ self.old.failures }
        ensures inside { self.new.entered ≡ self.old.entered }
    {
        self.files.remove(name);
    }
}

impl Folder for MemoryFolder {
    ghost use Rattle.std.specs.Prelude.{Some};
    ghost use Rattle.cq_folder.specs.MemoryFolder.{files_in};

    ghost files = { λ folder. Some (files_in folder) };

    ghost failed = { λ folder. folder.failures };

    ghost entered = { λ folder. folder.entered };

    fn begin(&mut self, _alloc: Global, access: Access) -> Result<(), FolderFault> {
        self.entered = Some(access);
        Ok(())
    }

    fn end(&mut self) {
        self.entered = None;
    }

    fn names(&mut self, alloc: Global) -> Result<Vec<String>, FolderFault> {
        let mut names = Vec::new(alloc);
        for name in self.files.keys() {
            names.push(String::from_str(alloc, name.as_str())?)?;
        }
        Ok(names)
    }

    fn read(&mut self, alloc: Global, name: &str, limit: usize) -> Result<Vec<u8>, FolderFault> {
        match self.files.get(name) {
            None => {
                self.failures = self.failures.saturating_add(1);
                Err(FolderFault::Device)
            }
            Some(bytes) if bytes.len() > limit => Err(FolderFault::TooLarge),
            Some(bytes) => Ok(Vec::from_slice(alloc, bytes.as_slice())?),
        }
    }

    fn write(&mut self, name: &str, bytes: &[u8]) -> Result<(), FolderFault> {
        Ok(self.put(name, bytes)?)
    }

    fn save(&mut self, changes: &[NewFile]) -> Result<(), FolderFault> {
        Ok(self.put_all(changes)?)
    }

    // No removal fails, so all is done once the files are written.
    fn save_and_remove(
        &mut self,
        changes: &[NewFile],
        removed: &[String],
    ) -> Result<(), FolderFault> {
        self.put_all(changes)?;
        for name in removed {
            self.remove(name.as_str());
        }
        Ok(())
    }

    fn access(&self) -> Option<Access> {
        self.entered
    }

    fn failures(&self) -> u64 {
        self.failures
    }
}
