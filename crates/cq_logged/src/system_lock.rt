//! The lock of a log in a folder of the system.
use crate::{LogLock, LogUse};
use cq_log_file::OpenFault;
use std::fs::{self, File};
use std::io::ErrorKind;
use std::rt::Files;

/// The lock of a log in a folder of the system (ours).
#[derive(Drop)]
pub struct SystemLock<'a, R: Files<File = File>> {
    rt: &'a R,
    /// The path of the log.
    path: String,
    found: LogUse,
}

impl<'a, R: Files<File = File>> SystemLock<'a, R> {
    /// Makes the lock of the log at this path, which is that of `queue.log` in the folder of the queue.
    pub fn new(rt: &'a R, path: String) -> SystemLock<'a, R> {
        SystemLock {
            rt,
            path,
            found: LogUse::Free,
        }
    }

    /// Locks the log together with others that look, if there is one, and lets it go. It need not be allowed to write the log.
    fn try_lock(&self) -> Result<(), OpenFault> {
        let path = self.path.as_str();
        match fs::symlink_metadata(self.rt, path) {
            Ok(found) if found.is_file() => {}
            Ok(_) => return Err(OpenFault::NotAFile),
            Err(error) if error.kind() == ErrorKind::NotFound => return Ok(()),
            Err(error) => return Err(OpenFault::from(error)),
        }
        File::open(self.rt, path)?.try_lock_shared()?;
        Ok(())
    }
}

impl<R: Files<File = File>> LogLock for SystemLock<'_, R> {
    ghost found = { λ lock. lock.found };

    fn look(&mut self) -> LogUse {
        self.found = match self.try_lock() {
            Ok(()) => LogUse::Free,
            Err(OpenFault::Locked) => LogUse::InUse,
            Err(fault) => LogUse::Failed(fault),
        };
        self.found
    }
}
