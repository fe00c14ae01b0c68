//! Threads that append to one queue after another, for a time.
use crate::fault::BenchFault;
use crate::queues::{CountedLog, opened, remove, syncs};
use crate::settings::{Settings, Waiting};
use crate::worker::{Task, Worker, now, workers};
use cq_kept::Opened;
use cq_stored::{StopSignal, StoreFault, StoredQueue};
use std::alloc::AllocError;
use std::fs::File;
use std::rt::{Clock, Files};
use std::sync::Wait;
use std::thread::{Threads, join, map_vec};
use std::time::Duration;

/// What was measured.
#[derive(Drop)]
pub struct Measured {
    /// How many syncs were made.
    pub syncs: u64,
    /// For how long the threads worked.
    pub time: Duration,
    /// How long each batch took, in nanoseconds.
    pub waits: Vec<u64>,
}

/// What each thread of a round did: how long each of its batches took.
type Done = Vec<Result<Vec<u64>, BenchFault>>;

impl Measured {
    /// Adds what the threads of a round did.
    fn add(&mut self, all: Done) -> Result<(), BenchFault> {
        for waits in all {
            self.waits.extend_from_slice(waits?.as_slice())?;
        }
        Ok(())
    }
}

/// Lets each thread work until the end. Returns what each did.
fn work_all<R: Threads + Wait + Clock + AllocGlobal + Sync>(
    rt: &R,
    stored: &StoredQueue<CountedLog>,
    workers: Vec<Worker>,
    task: Task,
) -> Result<Done, AllocError> {
    map_vec(
        rt,
        workers,
        &|worker: Worker| -> Result<Vec<u64>, BenchFault> { worker.work(rt, stored, task) },
    )
}

/// The same, while another thread stores what came once a millisecond. Returns what the last store answers as well.
fn work_kept<R: Threads + Wait + Clock + AllocGlobal + Sync>(
    rt: &R,
    stored: &StoredQueue<CountedLog>,
    workers: Vec<Worker>,
    task: Task,
) -> (Result<Done, AllocError>, Result<u64, StoreFault>) {
    let signal = StopSignal::new();
    let stop = &signal;
    join(
        rt,
        move || -> Result<Done, AllocError> {
            let done = work_all(rt, stored, workers, task);
            stop.give(rt);
            done
        },
        move || -> Result<u64, StoreFault> {
            stored.store_every(rt, Duration::from_millis(1), stop)
        },
    )
}

/// Lets each thread do its task. Returns what each did.
fn done<R: Threads + Wait + Clock + AllocGlobal + Sync>(
    rt: &R,
    stored: &StoredQueue<CountedLog>,
    workers: Vec<Worker>,
    task: Task,
) -> Result<Done, BenchFault> {
    match task.waiting {
        Waiting::Stored | Waiting::StoredByOneSync | Waiting::Alone => Ok(work_all(
            rt, stored, workers, task,
        )?),
        Waiting::Kept => {
            let (done, kept) = work_kept(rt, stored, workers, task);
            match kept {
                Ok(_) => Ok(done?),
                Err(fault) => Err(BenchFault::Unstored(fault)),
            }
        }
    }
}

/// Lets threads append to a queue, for this time or until it is full. Adds what they did.
fn add_round<R: Threads + Wait + Clock + AllocGlobal + Sync>(
    rt: &R,
    settings: &Settings,
    queue: Opened<CountedLog>,
    time: Duration,
    measured: &mut Measured,
) -> Result<(), BenchFault> {
    let Opened { kept, endpoint } = queue;
    let before = syncs(&kept);
    let workers = workers(rt.alloc(), endpoint, settings.threads)?;
    let stored = StoredQueue::new(kept);
    let start = now(rt)?;
    let task = Task {
        waiting: settings.waiting,
        batch: settings.batch,
        end: start.checked_add(time).unwrap_or(start),
    };
    let all = done(rt, &stored, workers, task)?;
    let spent = now(rt)?.duration_since(start);
    measured.time = measured.time.saturating_add(spent);
    if let Some(kept) = stored.into_kept() {
        let synced = syncs(&kept).saturating_sub(before);
        measured.syncs = measured.syncs.saturating_add(synced);
    }
    measured.add(all)
}

/// Lets threads append to a new queue, whose log is made at this path and removed, for this time or until it is full. Adds what they did.
fn add_queue<R>(
    rt: &R,
    settings: &Settings,
    path: &str,
    time: Duration,
    measured: &mut Measured,
) -> Result<(), BenchFault>
where
    R: Threads + Wait + Clock + AllocGlobal + Files<File = File> + Sync,
{
    let queue = opened(rt, path, settings.waiting.damage())?;
    let done = add_round(rt, settings, queue, time, measured);
    remove(rt, path)?;
    done
}

/// Lets threads append for a time, to as many queues as it takes. Their logs are made in this folder, and removed.
pub fn measure<R>(rt: &R, settings: &Settings, folder: &str) -> Result<Measured, BenchFault>
where
    R: Threads + Wait + Clock + AllocGlobal + Files<File = File> + Sync,
{
    let path = format!(in rt.alloc(); "{folder}/cq_store_bench.log")?;
    let mut measured = Measured {
        syncs: 0,
        time: Duration::ZERO,
        waits: Vec::new(rt.alloc()),
    };
    for _ in 0..u64::MAX {
        let left = settings.time.saturating_sub(measured.time);
        if left == Duration::ZERO {
            break;
        }
        add_queue(rt, settings, path.as_str(), left, &mut measured)?;
    }
    Ok(measured)
}
