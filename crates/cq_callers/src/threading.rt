//! Endpoints in threads.
use cq_endpoint::{AppendFault, Endpoint, Next};
use cq_model::Refusal;
use std::alloc::Global;
use std::thread::{Threads, join, yield_now};

/// How often a thread tries to append before it gives up.
const TRIES: u32 = 100_000_000;

/// Appends a message and reads one, by an endpoint in each of two threads. Answers whether each did both.
pub fn work_in_threads<R: Threads + Sync>(
    rt: &R,
    alloc: Global,
    one: Endpoint,
    two: Endpoint,
    moment: u64,
) -> (bool, bool) {
    join(
        rt,
        move || -> bool { append_and_read(alloc, one, moment) },
        move || -> bool { append_and_read(alloc, two, moment) },
    )
}

/// Appends a message as soon as the other thread does not write, and reads what comes first.
fn append_and_read(alloc: Global, mut endpoint: Endpoint, moment: u64) -> bool {
    for _ in 0..TRIES {
        match endpoint.append(moment, b"hello") {
            Ok(_index) => return matches!(endpoint.next(alloc), Ok(Next::Message(_, _))),
            Err(AppendFault::Refused(Refusal::Busy)) => yield_now(),
            Err(_) => return false,
        }
    }
    false
}
