//! The lock that a live queue has on the log of its folder, and what a command that only reads finds of the log.
use cq_log_file::OpenFault;

/// What a look at the lock of a log found (ours).
#[derive(Clone, Copy, Debug)]
pub enum LogUse {
    /// No live queue has the log, or there is no log.
    Free,
    /// A live queue has the log.
    InUse,
    /// The lock could not be tried.
    Failed(OpenFault),
}

/// What a command that only reads finds of the log of its folder (ours).
#[derive(Clone, Copy, Debug)]
pub struct LogNews {
    /// How many messages the log has that the images lack.
    pub messages: u64,
    /// Whether a live queue has the log.
    pub log_use: LogUse,
}

/// The lock that a live queue has on the log of its folder (ours).
///
/// No contract says of which log it is. It has to be that of the folder with which the lock is passed.
pub trait LogLock {
    ghost use Rattle.std.specs.Prelude.{◌≡◌};
    ghost use Rattle.cq_logged.specs.declared.lock.LogUse.{LogUse};

    /// What the last look found.
    ghost found: { Self → LogUse };

    /// Looks whether a live queue has the log, and leaves the lock as it is.
    fn look(&mut self) -> LogUse
        ensures { found self.new ≡ result };
}
