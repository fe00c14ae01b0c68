//! A queue that is closed, as a channel is.
use cq_endpoint::{Endpoint, Next};
use std::alloc::{AllocError, Global};
use std::thread::yield_now;

/// Reads what other threads append, until one of them closes the queue. Returns how many messages there were.
pub fn count_to_end(alloc: Global, endpoint: &mut Endpoint) -> Result<u64, AllocError> {
    let mut count = 0u64;
    for _ in 0..u64::MAX {
        match endpoint.next(alloc)? {
            Next::Message(_index, _message) => count = count.saturating_add(1),
            Next::NotYet => yield_now(),
            Next::Finished | Next::BeforeStart => break,
        }
    }
    Ok(count)
}
