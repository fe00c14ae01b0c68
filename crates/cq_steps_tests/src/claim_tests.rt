//! Claims at one header, by two callers in turn and by two threads at once.

ghost use Rattle.std.specs.Prelude.{◌≡◌, None};
ghost use Rattle.cq_words.specs.Rule.{first_mark};
ghost use Rattle.cq_words.specs.Values.{IsOf};

use crate::first::claim_first;
use cq_fixtures::{contents_text, expect, expect_text, small_config};
use cq_shown::recover;
use cq_words::{Caller, Queue};
use std::alloc::Global;
use std::test::Fail;
use std::thread::{Threads, join};

/// The header of a message that a caller has begun.
const WORKING: u32 = 0x8000_0000;

/// Claims by two threads at one header: what each found there.
fn found_by_two<R: Threads + Sync>(
    rt: &R,
    queue: &Queue,
    mut one: Caller,
    mut two: Caller,
) -> (Option<u32>, Option<u32>)
    requires one { IsOf queue.now one }
    requires two { IsOf queue.now two }
    requires idle { (one.view.claim ≡ None) × (two.view.claim ≡ None) }
    requires marks { (one.view.mark ≡ first_mark) × (two.view.mark ≡ first_mark) }
{
    join(
        rt,
        move || -> Option<u32>
            requires of { IsOf queue.now one }
            requires idle { one.view.claim ≡ None }
            requires mark { one.view.mark ≡ first_mark }
        { claim_first(queue, &mut one, 5) },
        move || -> Option<u32>
            requires of { IsOf queue.now two }
            requires idle { two.view.claim ≡ None }
            requires mark { two.view.mark ≡ first_mark }
        { claim_first(queue, &mut two, 5) },
    )
}

/// The same in a new queue.
fn found_in_new<R: Threads + Sync>(
    rt: &R,
    alloc: Global,
) -> Result<(Option<u32>, Option<u32>), Fail> {
    let (queue, mut caller) = Queue::create(alloc, small_config(alloc, 1)?, 0)?;
    let one = queue.split(&mut caller);
    let two = queue.split(&mut caller);
    Ok(found_by_two(rt, &queue, one, two))
}

/// Whether just one of two threads won the header, and the other one found it working.
fn is_won_once(found: (Option<u32>, Option<u32>)) -> bool {
    found == (Some(0), Some(WORKING)) || found == (Some(WORKING), Some(0))
}

/// Whether that holds for this many new queues.
fn are_won_once<R: Threads + Sync>(rt: &R, alloc: Global, count: u32) -> Result<bool, Fail> {
    for _ in 0..count {
        if !is_won_once(found_in_new(rt, alloc)?) {
            return Ok(false);
        }
    }
    Ok(true)
}

#[test]
fn one_of_two_threads_wins_a_header(rt: HostRuntime) -> Result<(), Fail> {
    expect(
        are_won_once(&rt, rt.alloc(), 200)?,
        "each header is won once",
    )
}

/// What a child finds that is split off in a claim of its parent, and what the parent finds once it has given that up.
fn found_in_a_claim(queue: &Queue, parent: &mut Caller) -> (Option<u32>, Option<u32>)
    requires of { IsOf queue.now parent.old }
    requires idle { parent.old.view.claim ≡ None }
    requires mark { parent.old.view.mark ≡ first_mark }
{
    if claim_first(queue, parent, 5) != Some(0) {
        return (None, None);
    }
    let mut child = queue.split(parent);
    let found = claim_first(queue, &mut child, 5);
    queue.give_up(parent, 0, 0);
    (found, claim_first(queue, parent, 5))
}

/// The same in a new queue.
fn split_in_a_claim(alloc: Global) -> Result<(Option<u32>, Option<u32>), Fail> {
    let (queue, mut parent) = Queue::create(alloc, small_config(alloc, 1)?, 0)?;
    Ok(found_in_a_claim(&queue, &mut parent))
}

#[test]
fn a_child_split_in_a_claim_has_none(rt: HostRuntime) -> Result<(), Fail> {
    expect(
        split_in_a_claim(rt.alloc())? == (Some(WORKING), Some(0)),
        "a child finds the header working, and its parent finds 0",
    )
}

/// The contents of a queue of which a caller was dropped in a claim, as another one stopped it that had made no step.
fn stopped_in_a_claim(alloc: Global) -> Result<String, Fail> {
    let (queue, mut writer) = Queue::create(alloc, small_config(alloc, 1)?, 0)?;
    let other = queue.split(&mut writer);
    let _found = claim_first(&queue, &mut writer, 5);
    let contents = recover(alloc, &queue.stop(other))?;
    contents_text(alloc, &contents)
}

#[test]
fn a_message_that_was_begun_is_in_no_list(rt: HostRuntime) -> Result<(), Fail> {
    expect_text(stopped_in_a_claim(rt.alloc())?, "0[] at [0]")
}
