//! A thread that appends batches to one queue, for a time.
use crate::fault::BenchFault;
use crate::queues::{CYCLES, CountedLog};
use crate::settings::Waiting;
use cq_cycle::Index;
use cq_endpoint::{AppendFault, Endpoint};
use cq_layout::Refusal;
use cq_stored::{AppendStoredFault, StoredQueue};
use std::alloc::Global;
use std::rt::Clock;
use std::sync::Wait;
use std::thread::yield_now;
use std::time::Instant;

/// The bytes of a message.
const MESSAGE: [u8; 64] = [b'x'; 64];

/// The milliseconds of a cycle.
const DAY: u64 = 86_400_000;

/// What the threads of a round do.
#[derive(Clone, Copy)]
pub struct Task {
    pub waiting: Waiting,
    /// How many messages a thread appends in a batch.
    pub batch: u32,
    /// When they end.
    pub end: Instant,
}

/// What an append came to.
enum Tried {
    /// The message has an index, which is this number.
    Done(u64),
    /// It is made again.
    Again,
    /// The queue is full.
    Full,
}

/// A thread that appends.
#[derive(Drop)]
pub struct Worker {
    endpoint: Endpoint,
    /// The cycle in which it appends. The queue is full once it is `CYCLES`.
    cycle: u64,
}

/// What the clock shows.
pub fn now<R: Clock>(rt: &R) -> Result<Instant, BenchFault> {
    match Instant::now(rt) {
        Ok(instant) => Ok(instant),
        Err(_) => Err(BenchFault::NoClock),
    }
}

impl Worker {
    /// A thread that appends by this endpoint.
    pub fn new(endpoint: Endpoint) -> Worker {
        Worker { endpoint, cycle: 0 }
    }

    /// Its moment.
    fn moment(&self) -> u64 {
        self.cycle.saturating_mul(DAY)
    }

    /// What an append that was refused comes to: another thread was writing, or the next cycle begins.
    fn refused(&mut self, fault: AppendFault) -> Result<Tried, BenchFault> {
        match fault {
            AppendFault::Refused(Refusal::Busy) => {
                yield_now();
                Ok(Tried::Again)
            }
            AppendFault::Refused(Refusal::CycleFull) => {
                self.cycle = self.cycle.saturating_add(1);
                Ok(Tried::Again)
            }
            fault => Err(BenchFault::Refused(fault)),
        }
    }

    /// Tries to append a message.
    fn try_append(&mut self) -> Result<Tried, BenchFault> {
        if self.cycle >= CYCLES {
            return Ok(Tried::Full);
        }
        let moment = self.moment();
        match self.endpoint.append(moment, &MESSAGE) {
            Ok(index) => Ok(Tried::Done(index.value())),
            Err(fault) => self.refused(fault),
        }
    }

    /// Tries to append a message, and waits until it is stored.
    fn try_store<R: Wait + AllocGlobal>(
        &mut self,
        rt: &R,
        stored: &StoredQueue<CountedLog>,
    ) -> Result<Tried, BenchFault> {
        if self.cycle >= CYCLES {
            return Ok(Tried::Full);
        }
        let moment = self.moment();
        match stored.append_stored(rt, &mut self.endpoint, moment, &MESSAGE) {
            Ok(index) => Ok(Tried::Done(index.value())),
            Err(AppendStoredFault::Refused(fault)) => self.refused(fault),
            Err(AppendStoredFault::Unstored(_, fault)) => Err(BenchFault::Unstored(fault)),
        }
    }

    /// Appends a message. Returns its index as a number, and none if the queue is full.
    fn append_one(&mut self) -> Result<Option<u64>, BenchFault> {
        for _ in 0..u64::MAX {
            match self.try_append()? {
                Tried::Done(index) => return Ok(Some(index)),
                Tried::Again => {}
                Tried::Full => return Ok(None),
            }
        }
        Ok(None)
    }

    /// Stores a message. Returns whether it is stored: it is not if the queue is full.
    fn store_one<R: Wait + AllocGlobal>(
        &mut self,
        rt: &R,
        stored: &StoredQueue<CountedLog>,
    ) -> Result<bool, BenchFault> {
        for _ in 0..u64::MAX {
            match self.try_store(rt, stored)? {
                Tried::Done(_) => return Ok(true),
                Tried::Again => {}
                Tried::Full => return Ok(false),
            }
        }
        Ok(false)
    }

    /// Appends a batch. Returns the index of its last message as a number, and none if the queue is full.
    fn append_batch(&mut self, batch: u32) -> Result<Option<u64>, BenchFault> {
        let mut last = None;
        for _ in 0..batch {
            last = self.append_one()?;
        }
        Ok(last)
    }

    /// Stores a batch. Returns whether all of it is stored: it is not if the queue is full.
    fn store_batch<R: Wait + AllocGlobal>(
        &mut self,
        rt: &R,
        stored: &StoredQueue<CountedLog>,
        batch: u32,
    ) -> Result<bool, BenchFault> {
        if batch == 1 {
            return self.store_one(rt, stored);
        }
        let Some(index) = self.append_batch(batch)? else {
            return Ok(false);
        };
        match stored.wait_stored(rt, Index::of_value(index)) {
            Ok(()) => Ok(true),
            Err(fault) => Err(BenchFault::Unstored(fault)),
        }
    }

    /// Does a batch. Returns whether it did all of it.
    fn do_batch<R: Wait + AllocGlobal>(
        &mut self,
        rt: &R,
        stored: &StoredQueue<CountedLog>,
        task: Task,
    ) -> Result<bool, BenchFault> {
        match task.waiting {
            Waiting::Stored | Waiting::StoredByOneSync => self.store_batch(rt, stored, task.batch),
            Waiting::Kept | Waiting::Alone => Ok(self.append_batch(task.batch)?.is_some()),
        }
    }

    /// Does batches until the end, or until the queue is full. Adds how long each of them took, in nanoseconds.
    fn do_all<R: Wait + Clock + AllocGlobal>(
        &mut self,
        rt: &R,
        stored: &StoredQueue<CountedLog>,
        task: Task,
        waits: &mut Vec<u64>,
    ) -> Result<(), BenchFault> {
        let mut start = now(rt)?;
        for _ in 0..u64::MAX {
            if task.end <= start || !self.do_batch(rt, stored, task)? {
                break;
            }
            let end = now(rt)?;
            waits.push(nanos_between(start, end))?;
            start = end;
        }
        Ok(())
    }

    /// Does the same, and returns how long each batch took, in nanoseconds.
    pub fn work<R: Wait + Clock + AllocGlobal>(
        mut self,
        rt: &R,
        stored: &StoredQueue<CountedLog>,
        task: Task,
    ) -> Result<Vec<u64>, BenchFault> {
        let mut waits = Vec::new(rt.alloc());
        self.do_all(rt, stored, task, &mut waits)?;
        Ok(waits)
    }
}

/// A thread for each of this many endpoints.
pub fn workers(
    alloc: Global,
    mut first: Endpoint,
    threads: u32,
) -> Result<Vec<Worker>, BenchFault> {
    let mut workers = Vec::new(alloc);
    for _ in 0..threads {
        workers.push(Worker::new(first.split()?))?;
    }
    Ok(workers)
}

/// The nanoseconds from one moment to another.
fn nanos_between(start: Instant, end: Instant) -> u64 {
    end.duration_since(start)
        .as_nanos()
        .min(u128::from(u64::MAX)) as u64
}
