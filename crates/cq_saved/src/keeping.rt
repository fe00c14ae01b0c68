//! Opening a queue again with a keeper.
ghost use Rattle.std.specs.Prelude.{IfErr, IfOk, IsErr};
ghost use Rattle.cq_kept_calls.specs.Openings.{OpensCalled};
ghost use Rattle.cq_saved.specs.Keeps.{IsKeepFault};
ghost use Rattle.cq_saved.specs.Saved.{CanOpen};

use crate::saved::Saved;
use cq_kept::OpenFault;
use cq_kept_calls::{CallKeeper, Called};
use std::alloc::Global;

impl Saved {
    /// Opens a queue with these contents, with a keeper of it (ours). The first calls of a new log are left to make, which goes on from
    /// them. So they have to be saved elsewhere before an older log is given up. Errors:
    ///
    /// - `BadContents`: the last cycle is not open, or no queue can hold these contents.
    /// - `LongHead`: the settings make a first frame of 2^32 - 1 bytes or more.
    /// - `OutOfMemory`: out of memory. It can come before each other error.
    ///
    /// It never returns `Failed`.
    pub fn keep(&self, alloc: Global) -> Result<Called, OpenFault>
        ensures opened { IfOk result (OpensCalled self.now.settings self.now.contents) }
        ensures fault { IfErr result (IsKeepFault self.now) }
        ensures only { ¬ CanOpen self.now → IsErr result }
    {
        if !self.is_open {
            return Err(OpenFault::BadContents);
        }
        let config = self.config.copied(alloc)?;
        CallKeeper::open(alloc, config, &self.contents)
    }
}
