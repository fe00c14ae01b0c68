//! Threads that append while a queue is saved.
use cq_endpoint::Endpoint;
use cq_folder::Folder;
use cq_live::LogPlace;
use cq_log_file::LogFile;
use cq_stored::StoredQueue;
use cq_stored_threads_tests::{Answers, crew, work};
use std::sync::Wait;
use std::thread::{Threads, join};

/// How many threads append, and how many messages each of them.
pub(crate) const THREADS: u8 = 3;

pub(crate) const EACH: u8 = 30;

/// How many checkpoints are made meanwhile.
const SAVES: u32 = 4;

/// Saves a queue several times. Returns how many times it was saved.
fn saves<R: Wait + AllocGlobal, F: Folder, P: LogPlace<LogFile>>(
    rt: &R,
    stored: &StoredQueue<LogFile>,
    folder: &mut F,
    place: &mut P,
) -> u32 {
    let mut count = 0u32;
    for _ in 0..SAVES {
        if stored.checkpoint(rt, folder, place).is_ok() {
            count = count.wrapping_add(1);
        }
    }
    count
}

/// How many threads have all of their messages stored, as their calls said.
fn count_whole(all: &[Option<Answers>]) -> u32 {
    let mut count = 0u32;
    for answers in all {
        match answers {
            Some(answers) if answers.faults.is_empty() => count = count.wrapping_add(1),
            _ => {}
        }
    }
    count
}

/// Lets threads append. Returns how many have all of their messages stored, unless memory is refused.
fn appended<R: Threads + Wait + AllocGlobal + Sync>(
    rt: &R,
    stored: &StoredQueue<LogFile>,
    first: Endpoint,
) -> Option<u32> {
    let members = crew(rt.alloc(), first, THREADS, EACH).ok()?;
    Some(count_whole(work(rt, stored, members).ok()?.as_slice()))
}

/// Lets threads append while this one saves the queue. Returns how many of them have all of their messages stored, and how
/// many times it was saved.
pub(crate) fn both<R, F, P>(
    rt: &R,
    stored: &StoredQueue<LogFile>,
    first: Endpoint,
    folder: &mut F,
    place: &mut P,
) -> (Option<u32>, u32)
where
    R: Threads + Wait + AllocGlobal + Sync,
    F: Folder,
    P: LogPlace<LogFile>,
{
    join(
        rt,
        move || -> Option<u32> { appended(rt, stored, first) },
        || -> u32 { saves(rt, stored, folder, place) },
    )
}
