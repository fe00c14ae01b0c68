//! Splits endpoints off.
ghost use Rattle.std.specs.Prelude.{◌≡◌, IfOk, OnErr, OnOk};
ghost use Rattle.cq_endpoint.specs.Endpoints.{child, endpoint_of, split_once};

use crate::endpoint::Endpoint;
use std::alloc::AllocError;
use std::sync::Arc;

impl Endpoint {
    /// Makes another endpoint of the same queue, which may go to another thread. It has begun no message, and reads
    /// forwards from the start. Each of its callers has a name of its own.
    ///
    /// It has seen the state in which the queue was created or opened, and nothing that this endpoint has seen since: it
    /// is split off a caller that makes no call and meets nobody. `meet` lets the two share what they have seen.
    ///
    /// Errors:
    /// - `AllocError`: the queue has as many endpoints as it may have. Nothing changed.
    pub fn split(&mut self) -> Result<Endpoint, AllocError>
        ensures made { IfOk result (λ e. e ≡ endpoint_of self.old.queue (child self.old.parent)) }
        ensures parent { OnOk result (self.new ≡ record self.old { parent = split_once self.old.parent }) }
        ensures err { OnErr result (self.new ≡ self.old) }
    {
        let queue = Arc::try_clone(&self.queue)?;
        let caller = self.queue.split(&mut self.parent);
        Ok(Endpoint::of(queue, caller))
    }
}
