ghost use Rattle.std.specs.Prelude.{◌≡◌, ◌≢◌, ◌+◌, ◌-◌, ◌^◌, ◌↔◌, Err, IsTrue, None, OnErr, OnOk, Some, false, min, true};
ghost use Rattle.cq_folder.specs.Folder.{IsCounted, KeepsFiles};

use crate::storage::{Access, Folder, FolderFault, NewFile};
use std::alloc::Global;

/// A folder of which one call fails with `Device`, for tests of code that uses a folder.
///
/// The calls of `begin`, `names`, `read`, `write`, `save` and `save_and_remove` are counted together, from 1. All others
/// are those of the inner folder. After a `begin` that fails no command is in the folder. A `write`, a `save` or a
/// `save_and_remove` that fails may have been done.
#[derive(Drop)]
pub struct FailingFolder<F: Folder> {
    /// The inner folder.
    pub folder: F,
    /// The call that fails.
    pub failing: FailingCall,
}

/// Which call fails, and how often one did.
#[derive(Clone, Copy, Debug, PartialEq, Eq)]
pub struct FailingCall {
    /// The number of calls up to the next failing one, this one included; 0 if no further call fails.
    pub calls_left: u64,
    /// Whether the failing call writes its bytes, and removes its files.
    pub writes: bool,
    /// The number of calls that failed.
    pub failures: u64,
}

impl<F: Folder> FailingFolder<F> {
    /// Makes a folder whose call with this number fails and does nothing, except that a `begin` that fails ends the
    /// command that was in the folder. With number 0 none fails.
    pub fn new(folder: F, number: u64) -> Self
        ensures folder { result.folder ≡ folder }
        ensures call { result.failing.calls_left ≡ number }
        ensures not_done { result.failing.writes ≡ false }
        ensures none { result.failing.failures ≡ 0 }
    {
        FailingFolder {
            folder,
            failing: FailingCall::new(number, false),
        }
    }

    /// Makes a folder whose call with this number fails, and writes and removes what it is to.
    pub fn written(folder: F, number: u64) -> Self
        ensures folder { result.folder ≡ folder }
        ensures call { result.failing.calls_left ≡ number }
        ensures done { result.failing.writes ≡ true }
        ensures none { result.failing.failures ≡ 0 }
    {
        FailingFolder {
            folder,
            failing: FailingCall::new(number, true),
        }
    }

    /// Gives back the inner folder.
    pub fn into_inner(self) -> F
        ensures { result ≡ self.folder }
    {
        let FailingFolder { folder, failing: _ } = self;
        folder
    }
}

impl FailingCall {
    /// Makes the state for the call with this number, before any call.
    fn new(number: u64, writes: bool) -> Self
        ensures { result ≡ record { calls_left = number; writes = writes; failures = 0 } }
    {
        FailingCall {
            calls_left: number,
            writes,
            failures: 0,
        }
    }

    /// Counts a call, and returns whether it fails.
    fn is_next(&mut self) -> bool
        ensures due { IsTrue result ↔ (self.old.calls_left ≡ 1) }
        ensures counted { self.new.calls_left ≡ self.old.calls_left - 1 }
        ensures same { self.new.writes ≡ self.old.writes }
        ensures failed { IsTrue result → self.new.failures ≡ min (self.old.failures + 1) (2 ^ 64 - 1) }
        ensures passed { result ≡ false → self.new.failures ≡ self.old.failures }
    {
        let is_due = self.calls_left == 1;
        self.calls_left = self.calls_left.saturating_sub(1);
        if is_due {
            self.failures = self.failures.saturating_add(1);
        }
        is_due
    }
}

impl<F: Folder> Folder for FailingFolder<F> {
    ghost files = { λ failing. F.files failing.folder };

    ghost failed = { λ failing. min (F.failed failing.folder + failing.failing.failures) (2 ^ 64 - 1) };

    ghost entered = { λ failing. F.entered failing.folder };

    // The trait's clauses, and that the call is counted.
    fn begin(&mut self, alloc: Global, access: Access) -> Result<(), FolderFault>
        ensures inside { OnOk result (F.entered self.new.folder ≡ Some access) }
        ensures outside { OnErr result (F.entered self.new.folder ≡ None) }
        ensures kept { KeepsFiles (F.files self.old.folder) (F.files self.new.folder) }
        ensures fits { result ≢ Err FolderFault.TooLarge }
        ensures counted { IsCounted (min (F.failed self.old.folder + self.old.failing.failures) (2 ^ 64 - 1))
            (min (F.failed self.new.folder + self.new.failing.failures) (2 ^ 64 - 1)) result }
        ensures due { self.old.failing.calls_left ≡ 1 → result ≡ Err FolderFault.Device }
        ensures next { self.new.failing.calls_left ≡ self.old.failing.calls_left - 1 }
    {
        if self.failing.is_next() {
            self.folder.end();
            return Err(FolderFault::Device);
        }
        self.folder.begin(alloc, access)
    }

    fn end(&mut self) {
        self.folder.end();
    }

    fn names(&mut self, alloc: Global) -> Result<Vec<String>, FolderFault> {
        if self.failing.is_next() {
            return Err(FolderFault::Device);
        }
        self.folder.names(alloc)
    }

    fn read(&mut self, alloc: Global, name: &str, limit: usize) -> Result<Vec<u8>, FolderFault> {
        if self.failing.is_next() {
            return Err(FolderFault::Device);
        }
        self.folder.read(alloc, name, limit)
    }

    fn write(&mut self, name: &str, bytes: &[u8]) -> Result<(), FolderFault> {
        if !self.failing.is_next() {
            return self.folder.write(name, bytes);
        }
        if self.failing.writes {
            let _ = self.folder.write(name, bytes);
        }
        Err(FolderFault::Device)
    }

    fn save(&mut self, changes: &[NewFile]) -> Result<(), FolderFault> {
        if !self.failing.is_next() {
            return self.folder.save(changes);
        }
        if self.failing.writes {
            let _ = self.folder.save(changes);
        }
        Err(FolderFault::Device)
    }

    fn save_and_remove(
        &mut self,
        changes: &[NewFile],
        removed: &[String],
    ) -> Result<(), FolderFault> {
        if !self.failing.is_next() {
            return self.folder.save_and_remove(changes, removed);
        }
        if self.failing.writes {
            let _ = self.folder.save_and_remove(changes, removed);
        }
        Err(FolderFault::Device)
    }

    fn access(&self) -> Option<Access> {
        self.folder.access()
    }

    fn failures(&self) -> u64 {
        self.folder.failures().saturating_add(self.failing.failures)
    }
}
