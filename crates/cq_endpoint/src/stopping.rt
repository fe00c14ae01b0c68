//! The last endpoint stops its queue.
ghost use Rattle.std.specs.Prelude.{◌≡◌, MatchResult};
ghost use Rattle.cq_endpoint.specs.Stops.{StopsQueue};

use crate::endpoint::Endpoint;
use cq_shown::Stopped;
use std::sync::Arc;

impl Endpoint {
    /// Stops the queue, and returns its words, from which `cq_shown::recover` makes its contents. They show the state of
    /// a legal history that begins with what the appender and the tailer of this endpoint had seen, after which a message
    /// that is begun is given up.
    ///
    /// If other endpoints of the queue are alive, the error is this endpoint, unchanged.
    pub fn stop(self) -> Result<Stopped, Endpoint>
        ensures { MatchResult result (λ stopped. StopsQueue self stopped) (λ e. e ≡ self) }
    {
        let Endpoint {
            queue,
            work,
            tailer,
            parent,
        } = self;
        match Arc::try_unwrap(queue) {
            Ok(queue) => {
                let mut writer = work.into_caller(&queue);
                let mut reader = tailer.into_caller();
                queue.meet(&mut writer, &mut reader);
                Ok(queue.stop(writer))
            }
            Err(queue) => Err(Endpoint {
                queue,
                work,
                tailer,
                parent,
            }),
        }
    }
}
