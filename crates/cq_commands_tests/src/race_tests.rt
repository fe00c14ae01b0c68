//! Races with several gates: what is printed, which calls a gate is asked for, and that the workers run concurrently.
use crate::streams::{Broken, said};
use cq_fixtures::expect_text;
use cq_race::{Gate, OpenGate, race};
use std::alloc::{AllocError, Global};
use std::hint::spin_loop;
use std::sync::atomic::{AtomicU64, Ordering};
use std::test::Fail;
use std::thread::Threads;

/// What a race with this gate writes, and after it the text of its fault.
fn raced<R: AllocGlobal + Threads + Sync, G: Gate + Sync>(
    rt: &R,
    messages: u32,
    gate: &G,
) -> Result<String, Fail> {
    let alloc = rt.alloc();
    let mut output = Vec::new(alloc);
    let done = race(rt, messages, gate, &mut output);
    Ok(said(alloc, done, &output)?)
}

/// How many messages each appender appends, and what is printed then.
static TALLIES: [(u32, &str); 3] = [
    (
        1,
        "writer 0: 1 in order\nwriter 1: 1 in order\nreader 0: 2 read\nreader 1: 2 read\n",
    ),
    (10, TEN),
    (
        1000,
        "writer 0: 1000 in order\nwriter 1: 1000 in order\nreader 0: 2000 read\nreader 1: 2000 read\n",
    ),
];

/// What a race with ten messages of each appender prints.
const TEN: &str =
    "writer 0: 10 in order\nwriter 1: 10 in order\nreader 0: 20 read\nreader 1: 20 read\n";

#[test]
fn all_messages_are_read_in_order(rt: HostRuntime) -> Result<(), Fail> {
    for &(messages, want) in &TALLIES {
        expect_text(raced(&rt, messages, &OpenGate)?, want)?;
    }
    Ok(())
}

/// A gate that lets a worker in up to a number of its calls.
#[derive(Drop)]
struct LimitedGate {
    worker: usize,
    calls: u64,
}

impl Gate for LimitedGate {
    fn enter(&self, worker: usize, call: u64) -> bool {
        worker != self.worker || call < self.calls
    }

    fn answered(&self, _worker: usize, _call: u64) {}
}

/// A gate that lets no worker in.
#[derive(Drop)]
struct ClosedGate;

impl Gate for ClosedGate {
    fn enter(&self, _worker: usize, _call: u64) -> bool {
        false
    }

    fn answered(&self, _worker: usize, _call: u64) {}
}

/// A worker, and the number of its first call that is not let in. Each makes that many calls at least.
static LIMITS: [(usize, u64); 8] = [
    (0, 0),
    (0, 9),
    (1, 0),
    (1, 9),
    (2, 0),
    (2, 19),
    (3, 0),
    (3, 19),
];

#[test]
fn a_worker_that_is_not_let_in_gives_up(rt: HostRuntime) -> Result<(), Fail> {
    expect_text(raced(&rt, 10, &ClosedGate)?, "cq: gave up")?;
    for &(worker, calls) in &LIMITS {
        let gate = LimitedGate { worker, calls };
        expect_text(raced(&rt, 10, &gate)?, "cq: gave up")?;
    }
    Ok(())
}

/// A gate that counts for each worker how many calls it has entered, and how many of them have returned. It also
/// counts what comes out of turn.
#[derive(Drop)]
struct CountingGate {
    entered: [AtomicU64; 4],
    answered: [AtomicU64; 4],
    strays: AtomicU64,
}

/// Four counts of nothing.
fn counts() -> [AtomicU64; 4] {
    [
        AtomicU64::new(0),
        AtomicU64::new(0),
        AtomicU64::new(0),
        AtomicU64::new(0),
    ]
}

/// How much was counted of a worker, of which there are four.
fn count_of(counts: &[AtomicU64], worker: usize) -> Option<u64> {
    match counts.get(worker) {
        Some(count) => Some(count.load(Ordering::SeqCst)),
        None => None,
    }
}

/// Counts one more of a worker.
fn count(counts: &[AtomicU64], worker: usize) {
    if let Some(count) = counts.get(worker) {
        count.fetch_add(1, Ordering::SeqCst);
    }
}

impl CountingGate {
    fn new() -> CountingGate {
        CountingGate {
            entered: counts(),
            answered: counts(),
            strays: AtomicU64::new(0),
        }
    }

    /// Counts a stray, unless a worker has entered this many calls so far and this many of them have returned.
    fn expect(&self, worker: usize, entered: Option<u64>, answered: u64) {
        let is_in_turn = count_of(&self.entered, worker) == entered
            && count_of(&self.answered, worker) == Some(answered);
        if !is_in_turn {
            self.strays.fetch_add(1, Ordering::SeqCst);
        }
    }

    /// Returns the lower count of the calls of two workers that have returned.
    fn least_answered(&self, one: usize, two: usize) -> u64 {
        self.answered_by(one).min(self.answered_by(two))
    }

    fn answered_by(&self, worker: usize) -> u64 {
        count_of(&self.answered, worker).unwrap_or(0)
    }
}

impl Gate for CountingGate {
    fn enter(&self, worker: usize, call: u64) -> bool {
        self.expect(worker, Some(call), call);
        count(&self.entered, worker);
        true
    }

    fn answered(&self, worker: usize, call: u64) {
        self.expect(worker, call.checked_add(1), call);
        count(&self.answered, worker);
    }
}

/// Gives what a counting gate has counted. It says how many calls came out of turn, whether calls of each appender
/// returned for at least each of its messages, and whether those of each tailer did for the messages of both.
fn counted_text(alloc: Global, gate: &CountingGate) -> Result<String, AllocError> {
    let strays = gate.strays.load(Ordering::SeqCst);
    let appended = gate.least_answered(0, 1) >= 10;
    let read = gate.least_answered(2, 3) >= 20;
    format!(in alloc; "{strays} {appended} {read}")
}

#[test]
fn each_call_is_entered_and_answered_in_turn(rt: HostRuntime) -> Result<(), Fail> {
    let gate = CountingGate::new();
    expect_text(raced(&rt, 10, &gate)?, TEN)?;
    expect_text(counted_text(rt.alloc(), &gate)?, "0 true true")
}

/// How often an appender looks for the other one before it gives up.
const TURNS: u32 = 10_000_000;

/// A gate at which each appender's first call waits for the other's: it raises its own flag, and looks for the other one.
#[derive(Drop)]
struct MeetingGate {
    zero: AtomicU64,
    one: AtomicU64,
}

/// Raises a flag, and looks for another one. Returns whether it came.
fn meets(own: &AtomicU64, other: &AtomicU64) -> bool {
    own.store(1, Ordering::SeqCst);
    for _ in 0..TURNS {
        if other.load(Ordering::SeqCst) == 1 {
            return true;
        }
        spin_loop();
    }
    false
}

impl Gate for MeetingGate {
    fn enter(&self, worker: usize, call: u64) -> bool {
        match (worker, call) {
            (0, 0) => meets(&self.zero, &self.one),
            (1, 0) => meets(&self.one, &self.zero),
            _ => true,
        }
    }

    fn answered(&self, _worker: usize, _call: u64) {}
}

#[test]
fn race_overlaps(rt: HostRuntime) -> Result<(), Fail> {
    let gate = MeetingGate {
        zero: AtomicU64::new(0),
        one: AtomicU64::new(0),
    };
    expect_text(raced(&rt, 10, &gate)?, TEN)
}

/// What is said of a race whose writer takes this many bytes and then fails.
fn said_broken<R: AllocGlobal + Threads + Sync>(rt: &R, left: usize) -> Result<String, Fail> {
    let done = race(rt, 1, &OpenGate, &mut Broken { left });
    Ok(said(rt.alloc(), done, &[])?)
}

#[test]
fn a_writer_that_fails_is_a_fault(rt: HostRuntime) -> Result<(), Fail> {
    for &left in &[0, 7] {
        expect_text(said_broken(&rt, left)?, "cq: write fault")?;
    }
    Ok(())
}
