//! Shelves that threads share: writers, readers and takers come and go over many queues, and the shelf is closed.
use crate::rounds::{Course, round_text};
use cq_fixtures::expect_text;
use cq_layout::Shape;
use cq_shelf::AtLimit;
use std::alloc::Global;
use std::test::Fail;
use std::thread::Threads;

/// Queues of 64 cells, each of which takes 13 messages of four bytes.
fn smallest(most: u32, each: u32) -> Result<Course, Fail> {
    Ok(Course {
        shape: Shape::new(64, 8, 1)?,
        most,
        at_limit: AtLimit::Refuse,
        each,
        len: 4,
        every: 16,
        seed: 0,
    })
}

/// Queues of 65,536 cells, each of which takes some 640 messages of 400 bytes.
fn large(most: u32, each: u32) -> Result<Course, Fail> {
    Ok(Course {
        shape: Shape::new(65_536, 64, 16)?,
        most,
        at_limit: AtLimit::Refuse,
        each,
        len: 400,
        every: 2000,
        seed: 0,
    })
}

#[test]
fn threads_go_over_many_small_queues(rt: HostRuntime) -> Result<(), Fail> {
    let alloc = rt.alloc();
    for most in [2, 3, 16] {
        let text = round_text(&rt, alloc, &smallest(most, 3250)?)?;
        expect_text(text, "13000 appended, all read: true, all taken: true")?;
    }
    Ok(())
}

/// Runs a round of large queues, with places for this many. Fails if not all messages were read and taken.
fn expect_large<R: Threads + Sync>(rt: &R, alloc: Global, most: u32) -> Result<(), Fail> {
    let text = round_text(rt, alloc, &large(most, 8000)?)?;
    expect_text(text, "32000 appended, all read: true, all taken: true")
}

#[test]
fn threads_go_over_large_queues_of_two_places(rt: HostRuntime) -> Result<(), Fail> {
    expect_large(&rt, rt.alloc(), 2)
}

#[test]
fn threads_go_over_large_queues_of_three_places(rt: HostRuntime) -> Result<(), Fail> {
    expect_large(&rt, rt.alloc(), 3)
}

#[test]
fn threads_go_over_large_queues_of_sixteen_places(rt: HostRuntime) -> Result<(), Fail> {
    expect_large(&rt, rt.alloc(), 16)
}

#[test]
fn threads_run_many_rounds(rt: HostRuntime) -> Result<(), Fail> {
    let alloc = rt.alloc();
    for seed in 0..100u32 {
        let mut course = smallest(seed % 4 + 2, 60)?;
        course.seed = u64::from(seed);
        let text = round_text(&rt, alloc, &course)?;
        expect_text(text, "240 appended, all read: true, all taken: true")?;
    }
    Ok(())
}

#[test]
fn threads_miss_what_was_dropped(rt: HostRuntime) -> Result<(), Fail> {
    let alloc = rt.alloc();
    for seed in 0..10u32 {
        let mut course = smallest(seed % 4 + 2, 250)?;
        course.at_limit = AtLimit::DropOldest;
        course.seed = u64::from(seed);
        let text = round_text(&rt, alloc, &course)?;
        expect_text(text, "1000 appended, no more taken: true")?;
    }
    Ok(())
}
