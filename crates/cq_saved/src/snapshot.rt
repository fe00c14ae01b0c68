//! A copy of a queue while its endpoints go on.
ghost use Rattle.std.specs.Prelude.{◌≡◌, ◌⊎◌, IfOk, OnErr};
ghost use Rattle.cq_endpoint.specs.Endpoints.{ChangesTailer};
ghost use Rattle.cq_saved.specs.Snapshots.{IsSnapshot};
ghost use Rattle.cq_tail.specs.Tailers.{MadeNoCall};

use crate::laws::a_snapshot_can_be_opened;
use crate::saved::Saved;
use cq_endpoint::Endpoint;
use cq_model::{Contents, Items};
use std::alloc::{AllocError, Global};

impl Saved {
    /// Copies all messages that a queue holds at one moment of this call, while its endpoints go on. A message that somebody
    /// has begun and not completed is not copied. Cycles that were dropped are. Each name is at 0, and the floor is 0. The
    /// last cycle is open, and the copy can be opened. The endpoint stays where it is.
    ///
    /// Errors:
    /// - `AllocError`: out of memory, for the copy of every message. The endpoint has recorded nothing.
    pub fn snapshot(alloc: Global, endpoint: &mut Endpoint) -> Result<Saved, AllocError>
        ensures ok { IfOk result (IsSnapshot endpoint.old endpoint.new) }
        ensures memory { OnErr result ((endpoint.new ≡ endpoint.old)
            ⊎ MadeNoCall endpoint.old.queue endpoint.old.tailer endpoint.new.tailer) }
        ensures rest { ChangesTailer endpoint.old endpoint.new }
    {
        let config = endpoint.config().copied(alloc)?;
        let positions = Vec::from_elem(alloc, 0u64, config.names().len())?;
        let lists = endpoint.snapshot(alloc)?;
        a_snapshot_can_be_opened();
        Ok(Saved {
            config,
            contents: Contents {
                lists: Items::new(lists),
                positions: Items::new(positions),
                floor: 0,
            },
            is_open: true,
        })
    }
}
