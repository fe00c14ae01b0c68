//! The lock of a folder.

ghost use Rattle.std.specs.Prelude.{◌≡◌, ◌↔◌, IfErr, IfOk, IsTrue};
ghost use Rattle.cq_real_folder.specs.Record.{SaysNoLocks};

use cq_folder::Access;
use std::fs::File;
use std::io;

/// An open folder that is locked, if the system has locks on folders. Dropping it releases the lock.
#[derive(Drop)]
pub(super) struct Lock {
    /// The open folder.
    folder: File,
    /// How it is locked.
    access: Access,
    /// Whether the system has locks on it.
    pub is_held: bool,
}

impl Lock {
    /// Waits for the lock of an open folder. If the system, or the file system, has no locks on folders, it is used
    /// without.
    pub fn of(folder: File, access: Access) -> io::Result<Lock>
        ensures access { IfOk result (λ lock. lock.access ≡ access) }
        ensures folder { IfOk result (λ lock. lock.folder ≡ folder) }
        ensures refused { IfErr result (λ error. ¬ SaysNoLocks error) }
    {
        let locked = match access {
            Access::Alone => folder.lock(),
            Access::Shared => folder.lock_shared(),
        };
        let is_held = match locked {
            Ok(()) => true,
            Err(error) if has_no_locks(&error) => false,
            Err(error) => return Err(error),
        };
        Ok(Lock {
            folder,
            access,
            is_held,
        })
    }

    /// Returns how it is locked.
    pub fn access(&self) -> Access
        ensures { result ≡ self.now.access }
    {
        self.access
    }
}

/// Returns whether the error means that the system, or this file system, has no locks on folders: a bad descriptor, an
/// invalid argument, no locks, no such call, not supported.
fn has_no_locks(error: &io::Error) -> bool
    ensures { IsTrue result ↔ SaysNoLocks error.now }
{
    matches!(error.raw_os_error(), Some(9 | 22 | 37 | 38 | 95))
}
