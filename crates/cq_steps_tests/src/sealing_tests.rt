//! A queue is sealed while a cycle is reserved, by a caller that was lost before it began that cycle.
ghost use Rattle.std.specs.Prelude.{◌≡◌, None};
ghost use Rattle.cq_words.specs.Values.{IsOf};

use crate::queues::{Call, Loss, Measures, append_first, left_text, lose, new_queue};
use cq_append::Appender;
use cq_fixtures::{DAY, expect_text, index_text, number_text, push_missed};
use cq_shown::Stopped;
use cq_words::{Caller, Queue};
use std::alloc::Global;
use std::test::Fail;

const MEASURES: Measures = (64, 8, 1);

/// After how many steps of the advance to cycle 5 its caller is lost. Then the cycle of the next slot, what others are answered
/// that append to the cycles 0, 5 and 9 and advance once the queue is sealed, and what is left of it.
static ROWS: [(u32, &str); 3] = [
    // The tail was loaded.
    (1, "None, sealed, Busy, Busy, Busy, Busy; 0[] at [0], 0"),
    // The cycle of the next slot was loaded.
    (2, "None, sealed, Busy, Busy, Busy, Busy; 0[] at [0], 0"),
    // The cycle is reserved.
    (3, "Some(5), sealed, Busy, Busy, Busy, Busy; 0[] at [0], 0"),
];

/// A caller begins cycle 5 in a queue without messages, and is lost after this many steps.
fn lose_advance(queue: &Queue, caller: &mut Caller, steps: u32)
    requires of { IsOf queue.now caller.old }
    requires idle { caller.old.view.claim ≡ None }
    ensures of { IsOf queue.now caller.new }
{
    if let Some(trail) = append_first(queue, caller, 0) {
        let call = Call::Advance(5 * DAY);
        let _outcome = lose(queue, caller, &Loss { call, steps, trail });
    }
}

/// The cycle of the second slot, if it has one.
fn next_cycle(queue: &Queue, other: &mut Caller) -> Option<u32>
    requires of { IsOf queue.now other.old }
    ensures of { IsOf queue.now other.new }
{
    if queue.config().cycles() < 2 {
        return None;
    }
    queue.load_cycle(other, 1)
}

/// Seals the queue by a new caller. Returns whether it did.
fn seal(queue: &Queue, other: &mut Caller) -> bool
    requires of { IsOf queue.now other.old }
    ensures of { IsOf queue.now other.new }
{
    let appender = Appender::new(queue.split(other));
    match appender.begin(queue, 0, 1) {
        Ok(writing) => {
            writing.seal(queue, other);
            true
        }
        Err(_) => false,
    }
}

/// Adds what an append of "x" at a moment returns.
fn push_append(
    alloc: Global,
    queue: &Queue,
    appender: &mut Appender,
    moment: u64,
    out: &mut String,
) -> Result<(), Fail>
    requires of { IsOf queue.now appender.old }
    ensures of { IsOf queue.now appender.new }
{
    let answer = index_text(alloc, &appender.append(queue, moment, b"x"))?;
    Ok(write!(out, ", {answer}")?)
}

/// Adds what an advance to cycle 5 returns.
fn push_advance(
    alloc: Global,
    queue: &Queue,
    appender: &mut Appender,
    out: &mut String,
) -> Result<(), Fail>
    requires of { IsOf queue.now appender.old }
{
    let advanced = appender.advance(queue, 5 * DAY).map(u64::from);
    let answer = number_text(alloc, "cycle ", &advanced)?;
    Ok(write!(out, ", {answer}")?)
}

/// Adds what an appender is answered that appends to the cycles 0, 5 and 9, and then advances.
fn push_answers(
    alloc: Global,
    queue: &Queue,
    appender: &mut Appender,
    out: &mut String,
) -> Result<(), Fail>
    requires of { IsOf queue.now appender.old }
{
    push_append(alloc, queue, appender, 0, out)?;
    push_append(alloc, queue, appender, 5 * DAY, out)?;
    push_append(alloc, queue, appender, 9 * DAY, out)?;
    push_advance(alloc, queue, appender, out)
}

/// Adds the cycle of the second slot, whether the queue is sealed, and what a new caller is answered then.
fn push_sealed(
    alloc: Global,
    queue: &Queue,
    other: &mut Caller,
    out: &mut String,
) -> Result<(), Fail>
    requires of { IsOf queue.now other.old }
    ensures of { IsOf queue.now other.new }
{
    let next = next_cycle(queue, other);
    let sealed = if seal(queue, other) { "sealed" } else { "open" };
    write!(out, "{next:?}, {sealed}")?;
    let mut appender = Appender::new(queue.split(other));
    push_answers(alloc, queue, &mut appender, out)
}

/// Adds what others are answered in a new queue, which is then stopped.
fn stopped_sealed(alloc: Global, steps: u32, out: &mut String) -> Result<Stopped, Fail> {
    let (queue, mut lost) = new_queue(alloc, MEASURES)?;
    let mut other = queue.split(&mut lost);
    lose_advance(&queue, &mut lost, steps);
    push_sealed(alloc, &queue, &mut other, out)?;
    Ok(queue.stop(other))
}

/// What others are answered, and what is left.
fn row_text(alloc: Global, steps: u32) -> Result<String, Fail> {
    let mut text = String::new(alloc);
    let stopped = stopped_sealed(alloc, steps, &mut text)?;
    write!(text, "; {}", left_text(alloc, MEASURES, &stopped)?)?;
    Ok(text)
}

/// Returns the rows that differ from what is wanted.
fn missed_rows(alloc: Global) -> Result<String, Fail> {
    let mut missed = String::new(alloc);
    for (row, (steps, want)) in ROWS.iter().enumerate() {
        let text = row_text(alloc, *steps)?;
        push_missed(alloc, &mut missed, row, text.as_str(), want)?;
    }
    Ok(missed)
}

#[test]
fn a_queue_with_a_reservation_is_sealed(rt: HostRuntime) -> Result<(), Fail> {
    expect_text(missed_rows(rt.alloc())?, "")
}
