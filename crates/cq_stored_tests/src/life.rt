//! A queue with a log that threads share, and its endpoint: calls of them by one thread, and what they return, as text.
//!
//! Each call is a function that borrows what it needs: a proof of one has no other's facts.
use cq_cycle::Index;
use cq_endpoint::Endpoint;
use cq_fixtures::{done_text, index_text, number_text};
use cq_keeper::KeepFault;
use cq_kept::{KeptQueue, NotOpened, Opened};
use cq_kept_tests::{config, images, replayed_text};
use cq_log_tests::{Change, Ruin, TornFile};
use cq_stored::{AppendStoredFault, StopSignal, StoreFault, StoredQueue};
use std::alloc::Global;
use std::sync::Wait;
use std::test::Fail;
use std::time::{Clock, Duration};

/// The cycle of the messages.
const CYCLE: u32 = 5;

/// How often a call is made again that was out of memory.
const WAITS: u32 = 8;

/// A call.
#[derive(Clone, Copy)]
pub(crate) enum Call {
    /// Appends this text, and waits until it is stored.
    AppendStored(&'static str),
    /// Appends this text without a wait.
    Append(&'static str),
    /// Waits until the message with this number in its cycle is stored.
    WaitStored(u32),
    /// Stores all that came.
    Store,
    /// Stores in periods of an hour, with a signal that was given before.
    StoreLast,
    /// Stores in periods of a millisecond, with a signal that is never given.
    StoreEvery,
    /// Asks for the end below which all messages are stored.
    StoredEnd,
}

/// A queue with a log that threads share, and its endpoint.
#[derive(Drop)]
pub(crate) struct Life {
    stored: StoredQueue<TornFile>,
    endpoint: Endpoint,
}

/// A life of what was opened.
fn life_of(opened: Opened<TornFile>) -> Life {
    let Opened { kept, endpoint } = opened;
    Life {
        stored: StoredQueue::new(kept),
        endpoint,
    }
}

/// Begins a life with what was opened.
fn begun(opened: Result<Opened<TornFile>, NotOpened<TornFile>>) -> Result<Life, Fail> {
    match opened {
        Ok(opened) => Ok(life_of(opened)),
        Err(error) => Err(Fail::from(error.fault)),
    }
}

/// Opens a queue with a log in a file in memory, of whose writes and syncs the one with this number fails.
pub(crate) fn opened(alloc: Global, failing: u64) -> Result<Life, Fail> {
    let config = config(alloc)?;
    let contents = images(alloc)?;
    let device = TornFile::new(alloc, failing);
    begun(KeptQueue::open(alloc, config, &contents, device))
}

/// Appends a text, and waits until it is stored.
fn append_stored<R: Wait + AllocGlobal>(
    rt: &R,
    life: &mut Life,
    text: &str,
) -> Result<String, Fail> {
    let answer = life
        .stored
        .append_stored(rt, &mut life.endpoint, 0, text.as_bytes());
    index_text(rt.alloc(), &answer)
}

/// Waits until a message is stored that was appended, again where memory is refused.
fn wait_patiently<R: Wait + AllocGlobal>(
    rt: &R,
    life: &Life,
    index: Index,
) -> Result<(), StoreFault> {
    for _ in 0..WAITS {
        match life.stored.wait_stored(rt, index) {
            Err(StoreFault::Keep(KeepFault::OutOfMemory)) => {}
            answer => return answer,
        }
    }
    Err(StoreFault::Keep(KeepFault::OutOfMemory))
}

/// The index of a message that was appended and is not known to be stored, since memory was refused.
fn unstored(answer: &Result<Index, AppendStoredFault>) -> Option<Index> {
    match answer {
        Err(AppendStoredFault::Unstored(index, StoreFault::Keep(KeepFault::OutOfMemory))) => {
            Some(*index)
        }
        _ => None,
    }
}

/// Gives an index after a wait for its message, or why that is not stored.
fn waited_text(
    alloc: Global,
    index: Index,
    answer: &Result<(), StoreFault>,
) -> Result<String, Fail> {
    match answer {
        Ok(()) => Ok(format!(in alloc; "{}", index.value())?),
        Err(fault) => Ok(format!(in alloc; "{fault:?}")?),
    }
}

/// Appends a text once, and waits until it is stored, again where memory is refused. Returns the answer.
pub(crate) fn append_patiently<R: Wait + AllocGlobal>(
    rt: &R,
    life: &mut Life,
    text: &str,
) -> Result<String, Fail> {
    let answer = life
        .stored
        .append_stored(rt, &mut life.endpoint, 0, text.as_bytes());
    match unstored(&answer) {
        Some(index) => waited_text(rt.alloc(), index, &wait_patiently(rt, life, index)),
        None => index_text(rt.alloc(), &answer),
    }
}

/// Appends a text without a wait.
fn append(alloc: Global, life: &mut Life, text: &str) -> Result<String, Fail> {
    index_text(alloc, &life.endpoint.append(0, text.as_bytes()))
}

/// Waits until a message is stored.
fn wait_stored<R: Wait + AllocGlobal>(rt: &R, life: &Life, number: u32) -> Result<String, Fail> {
    let answer = life.stored.wait_stored(rt, Index::new(CYCLE, number));
    done_text(rt.alloc(), "ok", &answer)
}

/// Stores all that came.
fn store<R: Wait + AllocGlobal>(rt: &R, life: &Life) -> Result<String, Fail> {
    number_text(rt.alloc(), "end ", &life.stored.store(rt))
}

/// Stores in periods of this many milliseconds. The signal was given before, or is never given.
fn store_every<R: Wait + Clock + AllocGlobal>(
    rt: &R,
    life: &Life,
    period: u64,
    is_given: bool,
) -> Result<String, Fail> {
    let stop = StopSignal::new();
    if is_given {
        stop.give(rt);
    }
    let answer = life
        .stored
        .store_every(rt, Duration::from_millis(period), &stop);
    number_text(rt.alloc(), "end ", &answer)
}

/// Asks for the end below which all messages are stored.
fn stored_end<R: Wait + AllocGlobal>(rt: &R, life: &Life) -> Result<String, Fail> {
    let end = life.stored.stored_end(rt);
    Ok(format!(in rt.alloc(); "end {end}")?)
}

/// Makes a call, and returns its answer as text.
pub(crate) fn answer<R: Wait + Clock + AllocGlobal>(
    rt: &R,
    life: &mut Life,
    call: Call,
) -> Result<String, Fail> {
    match call {
        Call::AppendStored(text) => append_stored(rt, life, text),
        Call::Append(text) => append(rt.alloc(), life, text),
        Call::WaitStored(number) => wait_stored(rt, life, number),
        Call::Store => store(rt, life),
        Call::StoreLast => store_every(rt, life, 3_600_000, true),
        Call::StoreEvery => store_every(rt, life, 1, false),
        Call::StoredEnd => stored_end(rt, life),
    }
}

/// How often a file was synced.
fn syncs(device: &TornFile) -> usize {
    let mut count = 0usize;
    for change in device.changes() {
        if matches!(change, Change::Sync(_)) {
            count = count.wrapping_add(1);
        }
    }
    count
}

/// What a crash leaves of a queue that loses all that was not synced, after the number of its syncs.
fn left_of(alloc: Global, kept: &KeptQueue<TornFile>) -> Result<String, Fail> {
    let device = kept.keeper().log().device();
    let bytes = device.after_crash(alloc, Ruin::Lost)?;
    let read = replayed_text(alloc, &bytes)?;
    Ok(format!(in alloc; "{} syncs, {read}", syncs(device))?)
}

/// Ends a life. Returns what a crash leaves that loses all that was not synced, after the number of syncs.
pub(crate) fn left(alloc: Global, life: Life) -> Result<String, Fail> {
    let Life {
        stored,
        endpoint: _,
    } = life;
    match stored.into_kept() {
        Some(kept) => left_of(alloc, &kept),
        None => Ok(String::from_str(alloc, "the queue has ended")?),
    }
}
