//! Threads whose messages are stored by one another.
use crate::crews::{Answers, Member, crew, work};
use crate::found::{count_of, messages};
use crate::queues::{kept_of, left, opened, syncs};
use cq_cycle::Index;
use cq_fixtures::{expect_answer, expect_text};
use cq_kept::{KeptQueue, Opened};
use cq_log_tests::TornFile;
use cq_model::Message;
use cq_stored::{StoreFault, StoredQueue};
use std::alloc::Global;
use std::sync::Wait;
use std::test::Fail;
use std::thread::{Threads, map_vec};

/// How many messages each thread appends.
const EACH: u8 = 25;

/// Whether all messages of a thread are stored, in its order, where its calls said.
fn is_stored(found: &[Message], answers: &Option<Answers>) -> bool {
    match answers {
        Some(answers) => {
            answers.faults.is_empty()
                && count_of(found, answers.letter) == Some(EACH)
                && answers.is_true_of(found)
        }
        None => false,
    }
}

/// How many threads have all messages stored where their calls said.
fn stored_threads(found: &[Message], all: &[Option<Answers>]) -> u32 {
    let mut count = 0u32;
    for answers in all {
        if is_stored(found, answers) {
            count = count.wrapping_add(1);
        }
    }
    count
}

/// How many messages a crash leaves, and of how many threads all are stored where their calls said.
fn stored_text(
    alloc: Global,
    kept: &KeptQueue<TornFile>,
    all: &[Option<Answers>],
) -> Result<String, Fail> {
    let contents = left(alloc, kept)?;
    let found = messages(&contents);
    let threads = stored_threads(found, all);
    Ok(format!(in alloc; "{} messages of {threads} threads", found.len())?)
}

/// Lets this many threads append. Returns what a crash leaves, and whether each message cost two syncs at most.
fn said<R: Threads + Wait + AllocGlobal + Sync>(rt: &R, threads: u8) -> Result<String, Fail> {
    let alloc = rt.alloc();
    let Opened { kept, endpoint } = opened(alloc, 0)?;
    let before = syncs(&kept);
    let stored = StoredQueue::new(kept);
    let all = work(rt, &stored, crew(alloc, endpoint, threads, EACH)?)?;
    let kept = kept_of(stored)?;
    let most = 2 * usize::from(threads) * usize::from(EACH);
    let are_few = syncs(&kept).saturating_sub(before) <= most;
    Ok(format!(in alloc; "{}, {are_few}", stored_text(alloc, &kept, all.as_slice())?)?)
}

/// Threads append, and each waits until its message is stored. Each message is stored once, in the order of its thread, where the answer
/// says.
#[test]
fn what_was_answered_is_stored(rt: HostRuntime) -> Result<(), Fail> {
    for (threads, want) in [
        (1, "25 messages of 1 threads, true"),
        (4, "100 messages of 4 threads, true"),
        (16, "400 messages of 16 threads, true"),
    ] {
        expect_text(said(&rt, threads)?, want)?;
    }
    Ok(())
}

/// Appends the first message of each thread, without a wait. Returns their indexes.
fn appended(alloc: Global, members: &mut Vec<Member>) -> Result<Vec<Index>, Fail> {
    let mut indexes = Vec::new(alloc);
    for member in members.as_mut_slice() {
        let bytes = [member.letter, 0];
        indexes.push(member.endpoint.append(0, &bytes)?)?;
    }
    Ok(indexes)
}

/// Lets a thread for each of these messages wait until it is stored. Returns what each call returns.
fn all_wait<R: Threads + Wait + AllocGlobal + Sync>(
    rt: &R,
    stored: &StoredQueue<TornFile>,
    indexes: Vec<Index>,
) -> Result<Vec<Result<(), StoreFault>>, Fail> {
    Ok(map_vec(
        rt,
        indexes,
        &|index: Index| -> Result<(), StoreFault> { stored.wait_stored(rt, index) },
    )?)
}

/// How many of these are stored.
fn count_stored(answers: &[Result<(), StoreFault>]) -> u32 {
    let mut count = 0u32;
    for answer in answers {
        if answer.is_ok() {
            count = count.wrapping_add(1);
        }
    }
    count
}

/// Appends a message by each of eight threads, and then lets all of them wait, while the call of the device with this number fails. Returns
/// how many calls say that theirs is stored, how many a crash leaves, and the syncs.
fn waited<R: Threads + Wait + AllocGlobal + Sync>(rt: &R, failing: u64) -> Result<String, Fail> {
    let alloc = rt.alloc();
    let Opened { kept, endpoint } = opened(alloc, failing)?;
    let before = syncs(&kept);
    let mut members = crew(alloc, endpoint, 8, 1)?;
    let indexes = appended(alloc, &mut members)?;
    let stored = StoredQueue::new(kept);
    let stored_count = count_stored(all_wait(rt, &stored, indexes)?.as_slice());
    let kept = kept_of(stored)?;
    let synced = syncs(&kept).saturating_sub(before);
    let found = messages(&left(alloc, &kept)?).len();
    Ok(format!(in alloc; "{stored_count} stored, {found} left, {synced} syncs")?)
}

/// The number of the write or sync that fails, or 0 if none does, and what is said then. An opening makes nine of them. The first turn makes
/// three writes and a sync, and the second one a write and a sync.
static WAITS: [(u64, &str); 7] = [
    (0, "8 stored, 8 left, 2 syncs"),
    (10, "0 stored, 0 left, 0 syncs"),
    (11, "0 stored, 0 left, 0 syncs"),
    (12, "0 stored, 0 left, 0 syncs"),
    (13, "0 stored, 0 left, 0 syncs"),
    (14, "0 stored, 0 left, 1 syncs"),
    (15, "0 stored, 0 left, 1 syncs"),
];

/// Messages that were appended before any thread waits are stored with two syncs, however many threads wait. If one fails, no call
/// says that its message is stored, and none waits forever.
#[test]
fn threads_that_wait_share_a_store(rt: HostRuntime) -> Result<(), Fail> {
    for (i, &(failing, want)) in WAITS.iter().enumerate() {
        expect_answer("waits", i, waited(&rt, failing)?.as_str(), want)?;
    }
    Ok(())
}
