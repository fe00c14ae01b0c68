//! A place that looks at the locks while a queue goes from one log to the next.
use cq_live::{FoundLog, LogPlace, SystemPlace};
use cq_log_file::{FileCalls, LogFile, OpenFault, SystemFile};
use std::alloc::Global;

/// The place of a log in a folder of the system, which looks at the locks when the new log is opened.
#[derive(Drop)]
pub(crate) struct WatchedPlace<'a> {
    inner: SystemPlace<'a, HostRuntime>,
    rt: &'a HostRuntime,
    /// The path of the log.
    path: String,
    /// The log that was there first.
    old: SystemFile,
    /// Whether both logs were locked when the new one was opened.
    pub both_locked: bool,
}

impl<'a> WatchedPlace<'a> {
    /// Makes the place of the log at this path, where one is.
    pub fn new(
        rt: &'a HostRuntime,
        path: String,
        inner: SystemPlace<'a, HostRuntime>,
    ) -> Result<WatchedPlace<'a>, OpenFault> {
        let old = SystemFile::open(rt, path.as_str())?;
        Ok(WatchedPlace {
            inner,
            rt,
            path,
            old,
            both_locked: false,
        })
    }

    /// Whether nobody has the log that was there first.
    pub fn is_old_free(&mut self) -> bool {
        is_free(&mut self.old)
    }

    /// Whether another has the log that is there now.
    fn is_new_locked(&self) -> bool {
        match SystemFile::open(self.rt, self.path.as_str()) {
            Ok(mut file) => file.lock().is_err(),
            Err(_) => false,
        }
    }
}

impl<'a> LogPlace<LogFile> for WatchedPlace<'a> {
    ghost state = { λ place. ⟦<SystemPlace<'a, HostRuntime> as LogPlace<LogFile>>⟧.state place.inner };

    fn guard(&mut self) -> Result<(), OpenFault> {
        self.inner.guard()
    }

    fn open(&mut self, alloc: Global) -> Result<FoundLog<LogFile>, OpenFault> {
        let is_old_free = is_free(&mut self.old);
        let is_new_locked = self.is_new_locked();
        self.both_locked = !is_old_free & is_new_locked;
        self.inner.open(alloc)
    }
}

/// Whether nobody has a log.
fn is_free(log: &mut SystemFile) -> bool {
    log.lock().is_ok()
}
