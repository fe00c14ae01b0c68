//! A device that fails at one of its calls, while threads append.
use crate::crews::{Answers, crew, work};
use crate::found::{count_of, messages};
use crate::queues::{kept_of, left, opened};
use cq_fixtures::expect_row;
use cq_keeper::KeepFault;
use cq_kept::Opened;
use cq_log::DeviceFault;
use cq_model::Message;
use cq_stored::{AppendStoredFault, StoreFault, StoredQueue};
use std::sync::Wait;
use std::test::Fail;
use std::thread::Threads;

/// The calls of the device in an opening.
const OPENING: u64 = 9;

/// How many calls of the device the two turns make that store a message, if no other one comes: three writes of a frame and its sync, and
/// then a gate and its sync.
const CALLS: u64 = 6;

/// How many threads append, and how many messages each of them.
const THREADS: u8 = 3;

const EACH: u8 = 3;

/// Whether a message was appended, and is not known to be stored since the log has stopped.
fn has_stopped(fault: &AppendStoredFault) -> bool {
    matches!(
        fault,
        AppendStoredFault::Unstored(
            _,
            StoreFault::Keep(KeepFault::Stopped(DeviceFault::Failed)),
        )
    )
}

/// Whether each message is stored, up to a first one from which on none is, since the log has stopped.
fn are_right(found: &[Message], answers: &Answers) -> bool {
    let stored = answers.stored.len();
    let Some(count) = count_of(found, answers.letter) else {
        return false;
    };
    stored.saturating_add(answers.faults.len()) == usize::from(EACH)
        && stored <= usize::from(count)
        && answers.is_true_of(found)
        && answers.faults.iter().all(has_stopped)
}

/// How many threads met the fault. There is no number if a call of one says that a message is stored which a crash loses.
fn faulted(found: &[Message], all: &[Option<Answers>]) -> Option<u32> {
    let mut count = 0u32;
    for answers in all {
        let answers = answers.as_ref()?;
        if !are_right(found, answers) {
            return None;
        }
        if !answers.faults.is_empty() {
            count = count.wrapping_add(1);
        }
    }
    Some(count)
}

/// Lets threads append while the call of the device with this number fails. Returns how many met the fault, or none if a call of
/// one says that a message is stored which a crash loses.
fn faulted_at<R: Threads + Wait + AllocGlobal + Sync>(
    rt: &R,
    failing: u64,
) -> Result<Option<u32>, Fail> {
    let alloc = rt.alloc();
    let Opened { kept, endpoint } = opened(alloc, failing)?;
    let stored = StoredQueue::new(kept);
    let all = work(rt, &stored, crew(alloc, endpoint, THREADS, EACH)?)?;
    let contents = left(alloc, &kept_of(stored)?)?;
    Ok(faulted(messages(&contents), all.as_slice()))
}

/// Whether this many threads may meet a fault of the call with this number. At least one is where the fault comes in the calls of the
/// messages of one thread, which each schedule has.
fn may_meet(failing: u64, faulted: Option<u32>) -> bool {
    match faulted {
        Some(count) => count > 0 || failing > OPENING + CALLS * u64::from(EACH),
        None => false,
    }
}

/// No call says that a message is stored which a crash loses. It returns the fault in place of that, as all later calls do, and none waits
/// forever.
#[test]
fn no_call_says_what_is_not_stored(rt: HostRuntime) -> Result<(), Fail> {
    let all = OPENING + CALLS * u64::from(THREADS) * u64::from(EACH);
    for failing in OPENING + 1..=all {
        expect_row(may_meet(failing, faulted_at(&rt, failing)?), failing)?;
    }
    Ok(())
}
