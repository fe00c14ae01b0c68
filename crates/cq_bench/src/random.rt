//! Reading messages by index, in pseudo-random order over a full cycle.
ghost use Rattle.std.specs.Prelude.{◌≡◌, ◌+◌, ◌<◌, ◌≤◌, IfOk, None, OnOk};
ghost use Rattle.cq_bench.specs.Counts.{messages_read};
ghost use Rattle.cq_words.specs.Values.{IsOf};

use crate::appending::append_all;
use crate::fault::BenchFault;
use crate::figures::{Figure, Label, print_line};
use crate::queues::{message_count, new_queue};
use crate::running::now;
use crate::settings::Settings;
use cq_append::Appender;
use cq_cycle::Index;
use cq_tail::{At, Tailer};
use cq_words::{Caller, Queue};
use std::alloc::Global;
use std::rt::Clock;
use std::time::Duration;

/// The bytes of a message.
const LENGTH: u32 = 64;

/// How many messages are read between two readings of the clock.
const BATCH: u32 = 64;

/// The most batches.
const MOST_BATCHES: u32 = 1 << 24;

/// Pseudo-random numbers, the same in each run.
#[derive(Drop)]
struct Numbers {
    state: u64,
}

impl Numbers {
    /// Returns the next one below this.
    fn below(&mut self, end: u32) -> u32
        requires { 0 < end }
        ensures { result < end }
    {
        self.state = self
            .state
            .wrapping_mul(6_364_136_223_846_793_005)
            .wrapping_add(1_442_695_040_888_963_407);
        ((self.state >> 33) % u64::from(end)) as u32
    }
}

/// Reads a batch of messages of the first cycle, which has at least that many.
fn read_batch(
    alloc: Global,
    queue: &Queue,
    tailer: &mut Tailer,
    numbers: &mut Numbers,
    count: u32,
) -> Result<(), BenchFault>
    requires of { IsOf queue.now tailer.old.caller }
    requires some { 0 < count }
    ensures of { IsOf queue.now tailer.new.caller }
    ensures read { OnOk result (messages_read tailer.old.caller + BATCH ≤ messages_read tailer.new.caller) }
{
    for _ in 0..BATCH {
        let index = Index::new(0, numbers.below(count));
        match tailer.read_at(alloc, queue, index)? {
            At::Message(_message) => {}
            At::NotYet | At::Never | At::Gone => return Err(BenchFault::Missing),
        }
    }
    Ok(())
}

/// Reads batch after batch for at least this time, and returns messages per second.
fn read_for<R: AllocGlobal + Clock>(
    rt: &R,
    queue: &Queue,
    tailer: &mut Tailer,
    count: u32,
    time: Duration,
) -> Result<Figure, BenchFault>
    requires of { IsOf queue.now tailer.old.caller }
    requires some { 0 < count }
    ensures { IsOf queue.now tailer.new.caller }
{
    let mut numbers = Numbers { state: 1 };
    let start = now(rt)?;
    for batches in 1..MOST_BATCHES {
        read_batch(rt.alloc(), queue, tailer, &mut numbers, count)?;
        let spent = now(rt)?.duration_since(start);
        if spent >= time {
            return Ok(Figure::rate(u64::from(batches) * u64::from(BATCH), spent));
        }
    }
    Err(BenchFault::Missing)
}

/// Returns the best of all repetitions, in messages per second.
fn best_reads<R: AllocGlobal + Clock>(
    rt: &R,
    settings: &Settings,
    queue: &Queue,
    tailer: &mut Tailer,
    count: u32,
) -> Result<Figure, BenchFault>
    requires of { IsOf queue.now tailer.old.caller }
    requires some { 0 < count }
{
    let mut best = Figure::ZERO;
    for _ in 0..settings.repetitions {
        best = best.max(read_for(rt, queue, tailer, count, settings.reading_time)?);
    }
    Ok(best)
}

/// Appends this many messages, by a caller that ends then.
fn fill(queue: &Queue, caller: Caller, count: u32) -> Result<(), BenchFault>
    requires of { IsOf queue.now caller }
    requires idle { caller.view.claim ≡ None }
{
    let mut appender = Appender::new(caller);
    append_all(queue, &mut appender, &[b'x'; LENGTH as usize], count)
}

/// Appends this many messages, and returns a tailer that starts at the first one.
fn filled(queue: &Queue, mut caller: Caller, count: u32) -> Result<Tailer, BenchFault>
    requires of { IsOf queue.now caller }
    requires idle { caller.view.claim ≡ None }
    ensures { IfOk result (λ tailer. IsOf queue.now tailer.caller) }
{
    let tailer = Tailer::new(queue.split(&mut caller));
    fill(queue, caller, count)?;
    Ok(tailer)
}

/// Returns the best of all repetitions over a new queue of this many messages.
fn best_reads_of_new<R: AllocGlobal + Clock>(
    rt: &R,
    settings: &Settings,
    count: u32,
) -> Result<Figure, BenchFault>
    requires some { 0 < count }
{
    let (queue, caller) = new_queue(rt.alloc(), settings.shape)?;
    let mut tailer = filled(&queue, caller, count)?;
    best_reads(rt, settings, &queue, &mut tailer, count)
}

/// Measures reads by index.
pub fn print_random_reads<R: AllocGlobal + Clock + Print>(
    rt: &R,
    settings: &Settings,
) -> Result<(), BenchFault> {
    let count = message_count(settings.shape, LENGTH);
    if count == 0 {
        return Err(BenchFault::NoRoom);
    }
    let best = best_reads_of_new(rt, settings, count)?;
    let label = Label {
        case: "read_at",
        payload: LENGTH,
        threads: "1",
    };
    print_line(rt, settings, label, best, "msg/s")
}
