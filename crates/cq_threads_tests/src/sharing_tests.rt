//! Five callers of one queue over 16 cycles, each in a thread of its own: two append, one takes messages, one drops
//! old cycles, and one takes snapshots without end.

ghost use Rattle.std.specs.Prelude.{◌≡◌, None};
ghost use Rattle.cq_words.specs.Values.{IsOf};

use crate::beginnings::is_some_beginning;
use crate::growing_tests::next_snapshot;
use crate::many_tests::take_next;
use crate::thread_tests::both_append;
use cq_append::Appender;
use cq_cycle::Index;
use cq_fixtures::{Cycles, config_of, contents_of, expect_row, expect_text};
use cq_layout::Shape;
use cq_model::{Contents, CycleList};
use cq_shown::recover;
use cq_tail::Tailer;
use cq_words::{Caller, Queue};
use std::alloc::Global;
use std::sync::Wait;
use std::sync::atomic::{AtomicU64, Ordering};
use std::test::Fail;
use std::thread::{Threads, join, yield_now};

/// How many days the writers append over, each day a cycle.
const DAYS: u32 = 16;

/// How often a thread checks whether the writers are done, before it gives up.
const TURNS: u32 = 100_000_000;

/// Whether each of two writers appended all its messages. Says that they are done.
fn append_two<R: Threads + Wait + Sync>(
    rt: &R,
    queue: &Queue,
    one: Appender,
    two: Appender,
    done: &AtomicU64,
) -> (bool, bool)
    requires one { IsOf queue.now one }
    requires two { IsOf queue.now two }
{
    let appended = both_append(rt, queue, one, two, DAYS);
    done.store(1, Ordering::SeqCst);
    appended
}

/// The indexes of the messages that one takes until the writers are done and none is left.
fn take_all(alloc: Global, queue: &Queue, mut tailer: Tailer, done: &AtomicU64) -> Vec<u64>
    requires { IsOf queue.now tailer.caller }
{
    let mut taken = Vec::new(alloc);
    for _ in 0..TURNS {
        let last = done.load(Ordering::SeqCst) == 1;
        if !take_next(alloc, queue, &mut tailer, &mut taken) {
            if last {
                return taken;
            }
            yield_now();
        }
    }
    taken
}

/// Drops all cycles but the last three until the writers are done. Returns whether the floor never fell.
fn drop_all(queue: &Queue, mut tailer: Tailer, done: &AtomicU64) -> bool
    requires { IsOf queue.now tailer.caller }
{
    let mut least = 0u32;
    for _ in 0..TURNS {
        let last = done.load(Ordering::SeqCst) == 1;
        tailer.to_end(queue);
        let cycle = Index::of_value(tailer.seen_end()).cycle();
        let floor = tailer.drop_before(queue, cycle.saturating_sub(2));
        if floor < least {
            return false;
        }
        least = floor;
        if last {
            return true;
        }
        yield_now();
    }
    false
}

/// Takes snapshots until the writers are done, as long as each one begins the next. Returns the last one that was
/// taken meanwhile, or `None` if one does not begin the next.
fn copy_all(
    alloc: Global,
    queue: &Queue,
    mut tailer: Tailer,
    done: &AtomicU64,
) -> Option<Vec<CycleList>>
    requires { IsOf queue.now tailer.caller }
{
    let mut last = Vec::new(alloc);
    for _ in 0..TURNS {
        match next_snapshot(alloc, queue, &mut tailer, last.as_slice()) {
            Some(lists) => last = lists,
            None => return None,
        }
        if done.load(Ordering::SeqCst) == 1 {
            return Some(last);
        }
    }
    None
}

/// Returns what one took concurrently with one that dropped, and whether the floor never fell.
fn take_and_drop<R: Threads + Sync>(
    rt: &R,
    alloc: Global,
    queue: &Queue,
    taker: Tailer,
    dropper: Tailer,
    done: &AtomicU64,
) -> (Vec<u64>, bool)
    requires taker { IsOf queue.now taker.caller }
    requires dropper { IsOf queue.now dropper.caller }
{
    join(
        rt,
        move || -> Vec<u64>
            requires { IsOf queue.now taker.caller }
        { take_all(alloc, queue, taker, done) },
        move || -> bool
            requires { IsOf queue.now dropper.caller }
        { drop_all(queue, dropper, done) },
    )
}

/// Returns the results of the writers, and the last snapshot that was taken meanwhile.
fn append_and_copy<R: Threads + Wait + Sync>(
    rt: &R,
    alloc: Global,
    queue: &Queue,
    writers: (Appender, Appender),
    copier: Tailer,
    done: &AtomicU64,
) -> ((bool, bool), Option<Vec<CycleList>>)
    requires writers { IsOf queue.now writers.0 × IsOf queue.now writers.1 }
    requires copier { IsOf queue.now copier.caller }
{
    join(
        rt,
        move || -> (bool, bool)
            requires { IsOf queue.now writers.0 × IsOf queue.now writers.1 }
        {
            let (one, two) = writers;
            append_two(rt, queue, one, two, done)
        },
        move || -> Option<Vec<CycleList>>
            requires { IsOf queue.now copier.caller }
        { copy_all(alloc, queue, copier, done) },
    )
}

/// What five callers of a queue saw.
#[derive(Drop)]
struct Shared {
    /// Whether each of the writers appended all its messages.
    appended: (bool, bool),
    /// The last snapshot, or `None` if one did not begin the next.
    last: Option<Vec<CycleList>>,
    /// The indexes of the messages that were taken, in turn.
    taken: Vec<u64>,
    /// Whether the floor never fell.
    rises: bool,
}

/// Runs the writers and the one that takes snapshots, concurrently with the one that takes and the one that drops.
fn run<R: Threads + Wait + Sync>(
    rt: &R,
    alloc: Global,
    queue: &Queue,
    writers: (Appender, Appender),
    tailers: (Tailer, Tailer, Tailer),
    done: &AtomicU64,
) -> Shared
    requires writers { IsOf queue.now writers.0 × IsOf queue.now writers.1 }
    requires tailers { IsOf queue.now tailers.0.caller × IsOf queue.now tailers.1.caller × IsOf queue.now tailers.2.caller }
{
    let (copier, taker, dropper) = tailers;
    let ((appended, last), (taken, rises)) = join(
        rt,
        move || -> ((bool, bool), Option<Vec<CycleList>>)
            requires writers { IsOf queue.now writers.0 × IsOf queue.now writers.1 }
            requires copier { IsOf queue.now copier.caller }
        { append_and_copy(rt, alloc, queue, writers, copier, done) },
        move || -> (Vec<u64>, bool)
            requires taker { IsOf queue.now taker.caller }
            requires dropper { IsOf queue.now dropper.caller }
        { take_and_drop(rt, alloc, queue, taker, dropper, done) },
    );
    Shared {
        appended,
        last,
        taken,
        rises,
    }
}

/// Whether these are the indexes of all messages, each once and in order, except those that were dropped before: some
/// that are the last ones of a cycle below the floor.
fn are_all(contents: &Contents, taken: &[u64]) -> bool {
    let mut next = 0usize;
    for list in contents.lists.as_slice() {
        let mut is_gone = false;
        for sequence in 0..list.messages.as_slice().len() {
            let index = Index::new(list.cycle, 0)
                .value()
                .wrapping_add(sequence as u64);
            if taken.get(next).copied() == Some(index) {
                if is_gone {
                    return false;
                }
                next = next.wrapping_add(1);
            } else if list.cycle >= contents.floor {
                return false;
            } else {
                is_gone = true;
            }
        }
    }
    next == taken.len()
}

/// Compares what five callers saw with what the stopped queue held. It says:
///
/// - whether each of the writers appended all its messages;
/// - whether the floor never fell, and what it was;
/// - whether all that was not dropped was taken once;
/// - whether each snapshot began the next one, and the last one what the queue held.
fn shared_text(alloc: Global, shared: &Shared, contents: &Contents) -> Result<String, Fail> {
    let all = are_all(contents, shared.taken.as_slice());
    let begins = is_some_beginning(&shared.last, contents.lists.as_slice());
    let cycles = contents.lists.as_slice().len();
    Ok(format!(in alloc;
        "{:?}; {} {}; {all}; {begins}; {cycles}",
        shared.appended, shared.rises, contents.floor
    )?)
}

/// The same callers, split off another one.
fn share<R: Threads + Wait + Sync>(
    rt: &R,
    alloc: Global,
    queue: &Queue,
    caller: &mut Caller,
) -> Shared
    requires { IsOf queue.now caller.old }
    ensures { IsOf queue.now caller.new }
{
    let one = Appender::new(queue.split(caller));
    let two = Appender::new(queue.split(caller));
    let copier = Tailer::new(queue.split(caller));
    let taker = Tailer::new(queue.split(caller));
    let dropper = Tailer::new(queue.split(caller));
    let done = AtomicU64::new(0);
    run(
        rt,
        alloc,
        queue,
        (one, two),
        (copier, taker, dropper),
        &done,
    )
}

/// Compares what five callers of a new queue saw with what the stopped queue held.
fn new_queue_text<R: Threads + Wait + Sync>(rt: &R, alloc: Global) -> Result<String, Fail> {
    let config = config_of(alloc, Shape::new(4_096, 64, 1)?, DAYS)?;
    let (queue, mut caller) = Queue::create(alloc, config, 0)?;
    let shared = share(rt, alloc, &queue, &mut caller);
    let contents = recover(alloc, &queue.stop(caller))?;
    shared_text(alloc, &shared, &contents)
}

#[test]
fn five_callers_share_a_queue(rt: HostRuntime) -> Result<(), Fail> {
    for _ in 0..10u32 {
        expect_text(
            new_queue_text(&rt, rt.alloc())?,
            "(true, true); true 13; true; true; 16",
        )?;
    }
    Ok(())
}

/// Cycles, the floor, indexes that were taken, and whether these are all except those that were dropped before.
static TAKEN: [(Cycles, u32, &[u64], bool); 8] = [
    (&[(0, &["a", "b"])], 0, &[0, 1], true),
    (
        &[(0, &["a", "b"]), (1, &["c"])],
        1,
        &[0, 4_294_967_296],
        true,
    ),
    (&[(0, &["a", "b"]), (1, &["c"])], 1, &[4_294_967_296], true),
    // One that was not dropped is missing, one was taken twice, one is no index of a message, and one comes after one
    // that was dropped.
    (&[(0, &["a", "b"])], 0, &[0], false),
    (&[(0, &["a", "b"])], 0, &[0, 0, 1], false),
    (&[(0, &["a"])], 0, &[0, 1], false),
    (
        &[(0, &["a", "b"]), (1, &["c"])],
        1,
        &[1, 4_294_967_296],
        false,
    ),
    (&[(0, &["a"]), (1, &["b"])], 1, &[4_294_967_296, 0], false),
];

/// Whether these are the indexes of all messages of these cycles except those that were dropped before.
fn are_all_of(alloc: Global, cycles: Cycles, floor: u32, taken: &[u64]) -> Result<bool, Fail> {
    let mut contents = contents_of(alloc, cycles, &[])?;
    contents.floor = floor;
    Ok(are_all(&contents, taken))
}

#[test]
fn messages_that_were_not_taken_are_told(rt: HostRuntime) -> Result<(), Fail> {
    for (row, &(cycles, floor, taken, want)) in TAKEN.iter().enumerate() {
        let told = are_all_of(rt.alloc(), cycles, floor, taken)?;
        expect_row(told == want, row as u64)?;
    }
    Ok(())
}
