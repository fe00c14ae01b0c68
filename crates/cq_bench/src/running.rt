//! Callers on threads that share a queue, and the time that they take together.
use crate::appending::Appending;
use crate::fault::BenchFault;
use crate::queues::{SharedAppender, SharedTailer};
use crate::reading::Target;
use std::hint::spin_loop;
use std::rt::Clock;
use std::sync::atomic::{AtomicU64, Ordering};
use std::thread::{Threads, map_vec};
use std::time::{Duration, Instant};

/// The most times that a thread checks whether another has come.
const MOST_LOOKS: u32 = 1 << 30;

/// For how many milliseconds all threads spin before they start. Two that were made at once may be on one processor, and the
/// system needs some milliseconds to move one to a processor that is idle.
const SPREAD: u64 = 20;

/// How many threads have come so far.
#[derive(Drop)]
pub struct Gate {
    come: AtomicU64,
}

impl Gate {
    /// Makes a gate to which no thread has come.
    pub fn new() -> Gate {
        Gate {
            come: AtomicU64::new(0),
        }
    }

    /// Counts one more thread that has come.
    pub fn come(&self) {
        self.come.fetch_add(1, Ordering::SeqCst);
    }

    /// Waits until this many have come, and returns whether they have: it does not wait forever.
    pub fn wait(&self, all: u64) -> bool {
        for _ in 0..MOST_LOOKS {
            if self.come.load(Ordering::SeqCst) >= all {
                return true;
            }
            spin_loop();
        }
        false
    }
}

/// What one thread does.
#[derive(Drop)]
pub enum Job {
    /// Appends this many messages, in this way.
    Append(SharedAppender, Appending, u32),
    /// Reads this many messages to a target, with this many tries for each.
    Read(SharedTailer, Target, u32, u32),
}

/// From when to when a thread was at work.
#[derive(Clone, Copy)]
struct Span {
    start: Instant,
    end: Instant,
}

/// Returns what the clock shows.
pub fn now(clock: &impl Clock) -> Result<Instant, BenchFault> {
    match Instant::now(clock) {
        Ok(instant) => Ok(instant),
        Err(_) => Err(BenchFault::NoClock),
    }
}

/// Does a job, with messages of these bytes.
fn run(job: Job, bytes: &[u8]) -> Result<(), BenchFault> {
    match job {
        Job::Append(mut shared, appending, count) => shared.append_so(appending, bytes, count),
        Job::Read(mut shared, mut target, count, looks) => shared.read_all(
            &mut target,
            count,
            looks,
        ),
    }
}

/// Spins for this time, or as long as the clock can be read.
fn spin_for(clock: &impl Clock, time: Duration) -> Result<(), BenchFault> {
    let start = now(clock)?;
    for _ in 0..MOST_LOOKS {
        if now(clock)?.duration_since(start) >= time {
            break;
        }
        spin_loop();
    }
    Ok(())
}

/// Does a job, once all threads have come and are spread over the processors.
fn span_of<R: Clock>(
    rt: &R,
    gate: &Gate,
    all: u64,
    job: Job,
    bytes: &[u8],
) -> Result<Span, BenchFault> {
    gate.come();
    let _ = gate.wait(all);
    if all > 1 {
        let _ = spin_for(rt, Duration::from_millis(SPREAD));
        gate.come();
        let _ = gate.wait(all.saturating_mul(2));
    }
    let start = now(rt);
    run(job, bytes)?;
    let end = now(rt)?;
    Ok(Span { start: start?, end })
}

/// Does each job on a thread of its own, with messages of these bytes. Returns the time from the first start to the
/// last end, or the fault that one of them met.
pub fn time_of<R: AllocGlobal + Clock + Threads + Sync>(
    rt: &R,
    jobs: Vec<Job>,
    bytes: &[u8],
) -> Result<Duration, BenchFault> {
    let gate = Gate::new();
    let all = jobs.len() as u64;
    let spans = map_vec(
        rt,
        jobs,
        &|job: Job| -> Result<Span, BenchFault> { span_of(rt, &gate, all, job, bytes) },
    )?;
    whole(spans)
}

/// Returns the time from the first start to the last end.
fn whole(spans: Vec<Result<Span, BenchFault>>) -> Result<Duration, BenchFault> {
    let mut together: Option<Span> = None;
    for span in spans {
        let span = span?;
        together = Some(match together {
            None => span,
            Some(Span { start, end }) => Span {
                start: start.min(span.start),
                end: end.max(span.end),
            },
        });
    }
    match together {
        Some(Span { start, end }) => Ok(end.duration_since(start)),
        None => Err(BenchFault::Missing),
    }
}
