//! Endpoints in threads: no closure asks for anything.
use crate::new_queues::two_of;
use cq_endpoint::{AppendFault, Endpoint, Next};
use cq_fixtures::{config_of, expect};
use cq_layout::{Refusal, Shape};
use std::alloc::Global;
use std::test::Fail;
use std::thread::{Threads, map_vec, yield_now};

/// How many messages each thread appends.
const EACH: u32 = 200;

/// How often a thread tries before it gives up.
const TURNS: u32 = 100_000_000;

/// Appends a message as soon as no other thread writes. Returns whether it was appended.
fn append_one(endpoint: &mut Endpoint, bytes: &[u8]) -> bool {
    for _ in 0..TURNS {
        match endpoint.append(0, bytes) {
            Ok(_index) => return true,
            Err(AppendFault::Refused(Refusal::Busy)) => yield_now(),
            Err(_) => return false,
        }
    }
    false
}

/// Reads the next message as soon as it is there. Returns whether one was read.
fn read_one(alloc: Global, endpoint: &mut Endpoint) -> bool {
    for _ in 0..TURNS {
        let Ok(found) = endpoint.next(alloc) else {
            return false;
        };
        match found {
            Next::Message(_, _) => return true,
            Next::NotYet => yield_now(),
            Next::BeforeStart | Next::Finished => return false,
        }
    }
    false
}

/// Appends all messages of a thread, and reads those of both. Returns how many reads and appends were done.
fn work(alloc: Global, mut endpoint: Endpoint) -> u32 {
    let mut done = 0u32;
    for _ in 0..EACH {
        if append_one(&mut endpoint, b"hello") {
            done = done.saturating_add(1);
        }
    }
    for _ in 0..2 * EACH {
        if read_one(alloc, &mut endpoint) {
            done = done.saturating_add(1);
        }
    }
    done
}

/// Two endpoints of a new queue, which has room for all messages.
fn endpoints(alloc: Global) -> Result<Vec<Endpoint>, Fail> {
    let config = config_of(alloc, Shape::new(16384, 64, 1)?, 1)?;
    let (first, second) = two_of(alloc, config)?;
    Ok(vec![in alloc; first, second]?)
}

/// What two threads did with an endpoint each.
fn worked<R: Threads + Sync>(rt: &R, alloc: Global) -> Result<Vec<u32>, Fail> {
    let endpoints = endpoints(alloc)?;
    Ok(map_vec(
        rt,
        endpoints,
        &|endpoint: Endpoint| -> u32 { work(alloc, endpoint) },
    )?)
}

#[test]
fn threads_share_a_queue(rt: HostRuntime) -> Result<(), Fail> {
    let done = worked(&rt, rt.alloc())?;
    expect(
        done.as_slice() == [3 * EACH, 3 * EACH].as_slice(),
        "all reads and appends are done",
    )
}
