//! What calls say of a queue that a checkpoint did not save.
use crate::folders::{expect_found, folder_at, new_queue, opened, place_at};
use cq_endpoint::Endpoint;
use cq_fixtures::{done_text, expect, expect_answer, index_text, number_text};
use cq_folder::Folder;
use cq_live::{Live, LogPlace};
use cq_log_file::LogFile;
use cq_stored::{StopSignal, StoredQueue};
use std::sync::Wait;
use std::test::Fail;
use std::time::{Clock, Duration};

/// A call.
#[derive(Clone, Copy)]
enum Call {
    /// Appends this text, and waits until it is stored.
    Append(&'static str),
    /// Stores all that came.
    Store,
    /// Stores in periods of a millisecond, with a signal that was given before.
    StoreLast,
    /// Asks for the end below which all messages are stored.
    StoredEnd,
    /// Makes a checkpoint.
    Save,
}

/// A queue with a log that threads share, and its endpoint.
#[derive(Drop)]
struct Life {
    stored: StoredQueue<LogFile>,
    endpoint: Endpoint,
}

/// A life of what was opened.
fn life_of(live: Live<LogFile>) -> Life {
    let Live {
        kept,
        endpoint,
        turns: _,
    } = live;
    Life {
        stored: StoredQueue::new(kept),
        endpoint,
    }
}

/// Appends a text, and waits until it is stored.
fn append<R: Wait + AllocGlobal>(rt: &R, life: &mut Life, text: &str) -> Result<String, Fail> {
    let answer = life
        .stored
        .append_stored(rt, &mut life.endpoint, 0, text.as_bytes());
    index_text(rt.alloc(), &answer)
}

/// Stores in periods, with a signal that was given before.
fn store_last<R: Wait + Clock + AllocGlobal>(rt: &R, life: &Life) -> Result<String, Fail> {
    let stop = StopSignal::new();
    stop.give(rt);
    let answer = life.stored.store_every(rt, Duration::from_millis(1), &stop);
    number_text(rt.alloc(), "end ", &answer)
}

/// Asks for the end below which all messages are stored.
fn stored_end<R: Wait + AllocGlobal>(rt: &R, life: &Life) -> Result<String, Fail> {
    let end = life.stored.stored_end(rt);
    Ok(format!(in rt.alloc(); "end {end}")?)
}

/// Makes a checkpoint.
fn save<R: Wait + AllocGlobal, F: Folder, P: LogPlace<LogFile>>(
    rt: &R,
    life: &Life,
    folder: &mut F,
    place: &mut P,
) -> Result<String, Fail> {
    done_text(
        rt.alloc(),
        "saved",
        &life.stored.checkpoint(rt, folder, place),
    )
}

/// Makes a call, and returns its answer as text.
fn answer<R: Wait + Clock + AllocGlobal, F: Folder, P: LogPlace<LogFile>>(
    rt: &R,
    life: &mut Life,
    folder: &mut F,
    place: &mut P,
    call: Call,
) -> Result<String, Fail> {
    match call {
        Call::Append(text) => append(rt, life, text),
        Call::Store => number_text(rt.alloc(), "end ", &life.stored.store(rt)),
        Call::StoreLast => store_last(rt, life),
        Call::StoredEnd => stored_end(rt, life),
        Call::Save => save(rt, life, folder, place),
    }
}

/// Makes calls. Fails if one of them does not answer what is wanted.
fn expect_calls<R: Wait + Clock + AllocGlobal, F: Folder, P: LogPlace<LogFile>>(
    rt: &R,
    life: &mut Life,
    folder: &mut F,
    place: &mut P,
    calls: &[(Call, &str)],
) -> Result<(), Fail> {
    for (i, &(call, want)) in calls.iter().enumerate() {
        let said = answer(rt, life, folder, place, call)?;
        expect_answer("calls", i, said.as_str(), want)?;
    }
    Ok(())
}

/// Whether there is no kept queue.
fn has_ended(life: Life) -> bool {
    let Life {
        stored,
        endpoint: _,
    } = life;
    stored.into_kept().is_none()
}

/// Calls of a queue whose log is not found by a checkpoint.
static ENDED: [(Call, &str); 7] = [
    (Call::Append("a"), "0"),
    (Call::Save, "Ended(Place(Missing))"),
    (Call::Append("b"), "Unstored(Index { value: 1 }, Ended)"),
    (Call::Store, "Ended"),
    (Call::StoreLast, "Ended"),
    (Call::StoredEnd, "end 1"),
    (Call::Save, "HadEnded"),
];

/// A checkpoint whose new log is not opened ends the queue: each call says so, and what was stored is in the folder.
#[test]
fn an_ended_queue_says_so(rt: HostRuntime) -> Result<(), Fail> {
    let path = new_queue(&rt, "end")?;
    let mut life = life_of(opened(&rt, path.as_str())?);
    let mut folder = folder_at(&rt, path.as_str())?;
    let mut missing = place_at(&rt, path.as_str(), "missing.log")?;
    expect_calls(&rt, &mut life, &mut folder, &mut missing, &ENDED)?;
    expect(has_ended(life), "there is no kept queue")?;
    expect_found(&rt, path.as_str(), "0[a;] at [0]")
}

/// Calls of a queue that is saved into a folder that holds something else.
static REFUSED: [(Call, &str); 5] = [
    (Call::Append("a"), "0"),
    (Call::Save, "OtherQueue"),
    (Call::Append("b"), "1"),
    (Call::Store, "end 2"),
    (Call::StoreLast, "end 2"),
];

/// A folder that holds something else is left as it is, and the queue goes on.
#[test]
fn another_folder_is_refused(rt: HostRuntime) -> Result<(), Fail> {
    let path = new_queue(&rt, "one")?;
    let other = new_queue(&rt, "other")?;
    let mut life = life_of(opened(&rt, path.as_str())?);
    let mut folder = folder_at(&rt, other.as_str())?;
    let mut place = place_at(&rt, other.as_str(), "queue.log")?;
    expect_calls(&rt, &mut life, &mut folder, &mut place, &REFUSED)?;
    drop(life);
    expect_found(&rt, path.as_str(), "0[a;b;] at [0]")?;
    expect_found(&rt, other.as_str(), "0[] at [0]")
}
