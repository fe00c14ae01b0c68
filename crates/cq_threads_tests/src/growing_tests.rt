//! Snapshots concurrently with two threads that append over several cycles.

ghost use Rattle.cq_words.specs.Values.{IsOf};

use crate::beginnings::{is_beginning, is_some_beginning};
use crate::thread_tests::both_append;
use cq_append::Appender;
use cq_fixtures::{Cycles, config_of, contents_of, expect_row, expect_text};
use cq_layout::Shape;
use cq_model::CycleList;
use cq_shown::{Stopped, recover};
use cq_tail::Tailer;
use cq_words::{Caller, Queue};
use std::alloc::Global;
use std::sync::Wait;
use std::test::Fail;
use std::thread::{Threads, join};

/// How many days the threads append over.
const DAYS: u32 = 4;

/// How many snapshots are taken meanwhile.
const SNAPSHOTS: u32 = 40;

/// Takes a snapshot. Returns it, or `None` if it does not begin with the one before it.
pub(crate) fn next_snapshot(
    alloc: Global,
    queue: &Queue,
    tailer: &mut Tailer,
    before: &[CycleList],
) -> Option<Vec<CycleList>>
    requires { IsOf queue.now tailer.old.caller }
    ensures { IsOf queue.now tailer.new.caller }
{
    match tailer.snapshot(alloc, queue) {
        Ok(lists) => {
            if is_beginning(before, lists.as_slice()) {
                return Some(lists);
            }
            None
        }
        Err(_) => None,
    }
}

/// Takes snapshots, as long as each one begins the next. Returns the last one, or `None` if one does not.
fn take_snapshots(alloc: Global, queue: &Queue, mut tailer: Tailer) -> Option<Vec<CycleList>>
    requires { IsOf queue.now tailer.caller }
{
    let mut last = Vec::new(alloc);
    for _ in 0..SNAPSHOTS {
        match next_snapshot(alloc, queue, &mut tailer, last.as_slice()) {
            Some(lists) => last = lists,
            None => return None,
        }
    }
    Some(last)
}

/// Whether each writer appended all its messages, and the last snapshot that was taken concurrently with them.
fn snapshots_beside<R: Threads + Wait + Sync>(
    rt: &R,
    alloc: Global,
    queue: &Queue,
    caller: &mut Caller,
) -> ((bool, bool), Option<Vec<CycleList>>)
    requires { IsOf queue.now caller.old }
    ensures { IsOf queue.now caller.new }
{
    let one = Appender::new(queue.split(caller));
    let two = Appender::new(queue.split(caller));
    let tailer = Tailer::new(queue.split(caller));
    join(
        rt,
        move || -> (bool, bool)
            requires { IsOf queue.now one × IsOf queue.now two }
        { both_append(rt, queue, one, two, DAYS) },
        move || -> Option<Vec<CycleList>>
            requires { IsOf queue.now tailer.caller }
        { take_snapshots(alloc, queue, tailer) },
    )
}

/// How many messages these cycles have.
fn count_of(lists: &[CycleList]) -> usize {
    let mut count: usize = 0;
    for list in lists {
        count = count.saturating_add(list.messages.as_slice().len());
    }
    count
}

/// Whether each writer appended all its messages, whether the last snapshot began what the queue held once it was
/// stopped, and how many cycles and messages that had.
fn held_text(
    alloc: Global,
    all: (bool, bool),
    last: &Option<Vec<CycleList>>,
    stopped: &Stopped,
) -> Result<String, Fail> {
    let contents = recover(alloc, stopped)?;
    let lists = contents.lists.as_slice();
    let begins = is_some_beginning(last, lists);
    let cycles = lists.len();
    let count = count_of(lists);
    Ok(format!(in alloc; "{all:?}; {begins}; {cycles} {count}")?)
}

/// The same of a new queue, and whether each snapshot began the next one.
fn grown_text<R: Threads + Wait + Sync>(rt: &R, alloc: Global) -> Result<String, Fail> {
    let config = config_of(alloc, Shape::new(4096, 64, 1)?, DAYS)?;
    let (queue, mut caller) = Queue::create(alloc, config, 0)?;
    let (all, last) = snapshots_beside(rt, alloc, &queue, &mut caller);
    held_text(alloc, all, &last, &queue.stop(caller))
}

#[test]
fn each_snapshot_begins_the_next(rt: HostRuntime) -> Result<(), Fail> {
    for _ in 0..50u32 {
        expect_text(grown_text(&rt, rt.alloc())?, "(true, true); true; 4 200")?;
    }
    Ok(())
}

/// Cycles, later ones, and whether the first are how these begin.
static BEGINNINGS: [(Cycles, Cycles, bool); 8] = [
    (&[], &[(0, &[])], true),
    (&[(0, &["a"])], &[(0, &["a", "b"]), (5, &["c"])], true),
    (&[(0, &["a"]), (5, &[])], &[(0, &["a"]), (5, &["b"])], true),
    (&[(0, &["a"])], &[(0, &["b", "a"])], false),
    (&[(0, &["a", "b"])], &[(0, &["a"])], false),
    (
        &[(0, &["a"]), (5, &[])],
        &[(0, &["a", "b"]), (5, &[])],
        false,
    ),
    (&[(0, &["a"]), (5, &[])], &[(0, &["a"])], false),
    (&[(0, &["a"])], &[(1, &["a"])], false),
];

/// Whether cycles are how later ones begin.
fn are_beginning(alloc: Global, cycles: Cycles, later: Cycles) -> Result<bool, Fail> {
    let early = contents_of(alloc, cycles, &[])?;
    let late = contents_of(alloc, later, &[])?;
    Ok(is_beginning(early.lists.as_slice(), late.lists.as_slice()))
}

#[test]
fn beginnings_are_told_from_others(rt: HostRuntime) -> Result<(), Fail> {
    for (row, &(cycles, later, want)) in BEGINNINGS.iter().enumerate() {
        let told = are_beginning(rt.alloc(), cycles, later)?;
        expect_row(told == want, row as u64)?;
    }
    Ok(())
}
