//! A queue that is closed while threads append, read and take: every message that was appended is read by each reader and
//! taken once, and all of them come to their end.
use cq_endpoint::{AppendFault, CloseFault, Endpoint, Next, Taken};
use cq_fixtures::{config_of, expect_text};
use cq_layout::{Refusal, Shape};
use std::alloc::Global;
use std::test::Fail;
use std::thread::{Threads, map_vec, yield_now};

/// How often a thread tries before it gives up.
const TURNS: u32 = 100_000_000;

/// What a thread does with its endpoint, until the queue is closed.
#[derive(Clone, Copy)]
enum Role {
    /// Appends messages.
    Append,
    /// Reads them.
    Read,
    /// Takes them by the name "reader".
    Take,
    /// Reads this many messages and then closes the queue.
    CloseAfter(u32),
}

/// The roles of a round: four that append, two that read, and two that take. One more closes the queue.
const ROLES: [Role; 8] = [
    Role::Append,
    Role::Append,
    Role::Append,
    Role::Append,
    Role::Read,
    Role::Read,
    Role::Take,
    Role::Take,
];

/// A thread of a round.
#[derive(Drop)]
struct Worker {
    role: Role,
    endpoint: Endpoint,
}

/// The indexes of the messages that are appended until the queue is closed.
fn append_all(alloc: Global, endpoint: &mut Endpoint) -> Option<Vec<u64>> {
    let mut indexes = Vec::new(alloc);
    for _ in 0..TURNS {
        match endpoint.append(0, b"hello") {
            Ok(index) => indexes.push(index.value()).ok()?,
            Err(AppendFault::Closed) => return Some(indexes),
            Err(AppendFault::Refused(Refusal::Busy | Refusal::CycleFull)) => yield_now(),
            Err(_) => return None,
        }
    }
    None
}

/// The indexes of the messages that are read until there are no more.
fn read_all(alloc: Global, endpoint: &mut Endpoint) -> Option<Vec<u64>> {
    let mut indexes = Vec::new(alloc);
    for _ in 0..TURNS {
        match endpoint.next(alloc).ok()? {
            Next::Message(index, _message) => indexes.push(index.value()).ok()?,
            Next::NotYet => yield_now(),
            Next::Finished => return Some(indexes),
            Next::BeforeStart => return None,
        }
    }
    None
}

/// The indexes of the messages that are taken until there are no more.
fn take_all(alloc: Global, endpoint: &mut Endpoint) -> Option<Vec<u64>> {
    let mut indexes = Vec::new(alloc);
    for _ in 0..TURNS {
        match endpoint.take(alloc, "reader").ok()? {
            Taken::Taken(index, _message) => indexes.push(index.value()).ok()?,
            Taken::NotYet | Taken::Moved(_) => yield_now(),
            Taken::Finished => return Some(indexes),
        }
    }
    None
}

/// Reads this many messages. Returns whether they came.
fn read_some(alloc: Global, endpoint: &mut Endpoint, count: u32) -> bool {
    let mut left = count;
    for _ in 0..TURNS {
        if left == 0 {
            return true;
        }
        match endpoint.next(alloc) {
            Ok(Next::Message(_, _)) => left = left.saturating_sub(1),
            Ok(Next::NotYet) => yield_now(),
            Ok(Next::Finished | Next::BeforeStart) | Err(_) => return false,
        }
    }
    false
}

/// Closes the queue as soon as nobody appends. Returns no index once it did.
fn close_after(alloc: Global, endpoint: &mut Endpoint, count: u32) -> Option<Vec<u64>> {
    if !read_some(alloc, endpoint, count) {
        return None;
    }
    for _ in 0..TURNS {
        match endpoint.close() {
            Ok(()) => return Some(Vec::new(alloc)),
            Err(CloseFault::Refused(Refusal::Busy)) => yield_now(),
            Err(_) => return None,
        }
    }
    None
}

impl Worker {
    /// The indexes of the messages that this thread appended, read or took.
    fn work(self, alloc: Global) -> Option<Vec<u64>> {
        let Worker { role, mut endpoint } = self;
        match role {
            Role::Append => append_all(alloc, &mut endpoint),
            Role::Read => read_all(alloc, &mut endpoint),
            Role::Take => take_all(alloc, &mut endpoint),
            Role::CloseAfter(count) => close_after(alloc, &mut endpoint, count),
        }
    }
}

/// The threads of a round. The queue is closed after this many messages.
fn workers(alloc: Global, count: u32) -> Result<Vec<Worker>, Fail> {
    let config = config_of(alloc, Shape::new(65_536, 64, 16)?, 1)?;
    let mut first = Endpoint::create(alloc, config, 0)?;
    let mut workers = Vec::new(alloc);
    push_split(&mut first, &mut workers)?;
    let role = Role::CloseAfter(count);
    workers.push(Worker {
        role,
        endpoint: first,
    })?;
    Ok(workers)
}

/// Adds a thread for each role, with an endpoint that is split off another one.
fn push_split(first: &mut Endpoint, workers: &mut Vec<Worker>) -> Result<(), Fail> {
    for &role in &ROLES {
        let endpoint = first.split()?;
        workers.push(Worker { role, endpoint })?;
    }
    Ok(())
}

/// What the threads of a round did.
fn worked<R: Threads + Sync>(
    rt: &R,
    alloc: Global,
    count: u32,
) -> Result<Vec<Option<Vec<u64>>>, Fail> {
    let workers = workers(alloc, count)?;
    Ok(map_vec(
        rt,
        workers,
        &|worker: Worker| -> Option<Vec<u64>> { worker.work(alloc) },
    )?)
}

/// How many messages these are, if their indexes are all from 0 on, each once.
fn count_of(alloc: Global, parts: &[Option<Vec<u64>>]) -> Result<Option<u64>, Fail> {
    let mut all = Vec::new(alloc);
    for part in parts {
        let Some(indexes) = part else {
            return Ok(None);
        };
        for &index in indexes.as_slice() {
            all.push(index)?;
        }
    }
    all.sort()?;
    for (number, &index) in all.as_slice().iter().enumerate() {
        if index != number as u64 {
            return Ok(None);
        }
    }
    Ok(Some(all.len() as u64))
}

/// Whether the indexes of each of these threads rise.
fn rise(parts: &[Option<Vec<u64>>]) -> bool {
    for part in parts {
        match part {
            Some(indexes) if indexes.as_slice().is_sorted() => {}
            _ => return false,
        }
    }
    true
}

/// Whether enough was appended in a round to close the queue, whether each reader read all of it in order, and whether each
/// message was taken once.
fn round_text(alloc: Global, worked: &[Option<Vec<u64>>], count: u32) -> Result<String, Fail> {
    let (Some(appended), Some(one), Some(two), Some(taken)) = (
        worked.get(0..4),
        worked.get(4..5),
        worked.get(5..6),
        worked.get(6..8),
    ) else {
        return Err(Fail::new("a thread is missing"));
    };
    let all = count_of(alloc, appended)?;
    let is_enough = all.is_some_and(|all| all >= u64::from(count));
    let are_read = count_of(alloc, one)? == all && count_of(alloc, two)? == all;
    let in_order = rise(one) && rise(two);
    let are_taken = count_of(alloc, taken)? == all;
    Ok(format!(in alloc; "{is_enough} {are_read} {in_order} {are_taken}")?)
}

#[test]
fn threads_come_to_the_end_of_a_closed_queue(rt: HostRuntime) -> Result<(), Fail> {
    for round in 0..40u32 {
        let count = round.wrapping_mul(7);
        let worked = worked(&rt, rt.alloc(), count)?;
        expect_text(
            round_text(rt.alloc(), worked.as_slice(), count)?,
            "true true true true",
        )?;
    }
    Ok(())
}
