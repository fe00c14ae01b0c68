//! A thread that stores what came once in each period, while another one appends.
use crate::found::messages;
use crate::queues::{kept_of, left, opened};
use cq_endpoint::Endpoint;
use cq_fixtures::expect_answer;
use cq_kept::Opened;
use cq_log_tests::TornFile;
use cq_stored::{StopSignal, StoreFault, StoredQueue};
use std::sync::Wait;
use std::test::Fail;
use std::thread::{self, Threads, join};
use std::time::{Clock, Duration};

/// How often a thread looks whether a message is stored, with a millisecond in between.
const LOOKS: u32 = 20_000;

/// A time that no test lasts, in milliseconds.
const AN_HOUR: u64 = 3_600_000;

/// What the other thread does with its two messages, before it gives the signal.
#[derive(Clone, Copy)]
enum Meanwhile {
    /// It appends each one, and looks until it is stored.
    Waits,
    /// It appends both.
    Leaves,
}

/// Looks until all messages below this end are stored. Returns whether they are.
fn sees_stored<R: Wait + Clock>(rt: &R, stored: &StoredQueue<TornFile>, end: u64) -> bool {
    for _ in 0..LOOKS {
        if stored.stored_end(rt) == end {
            return true;
        }
        thread::sleep(rt, Duration::from_millis(1));
    }
    false
}

/// Appends a message, which is the last one below this end. Returns whether it was appended, and seen to be stored if that is waited for.
fn append_one<R: Wait + Clock>(
    rt: &R,
    stored: &StoredQueue<TornFile>,
    endpoint: &mut Endpoint,
    meanwhile: Meanwhile,
    end: u64,
) -> bool {
    if endpoint.append(0, b"m").is_err() {
        return false;
    }
    match meanwhile {
        Meanwhile::Waits => sees_stored(rt, stored, end),
        Meanwhile::Leaves => true,
    }
}

/// Appends two messages. Returns whether all was as it should be.
fn append_two<R: Wait + Clock>(
    rt: &R,
    stored: &StoredQueue<TornFile>,
    mut endpoint: Endpoint,
    meanwhile: Meanwhile,
) -> bool {
    let is_first_well = append_one(rt, stored, &mut endpoint, meanwhile, 1);
    let is_second_well = append_one(rt, stored, &mut endpoint, meanwhile, 2);
    is_first_well && is_second_well
}

/// Appends two messages in one thread, while another stores in periods until the signal. Returns what both say.
fn both<R: Threads + Wait + Clock + AllocGlobal + Sync>(
    rt: &R,
    stored: &StoredQueue<TornFile>,
    endpoint: Endpoint,
    period: u64,
    meanwhile: Meanwhile,
) -> (bool, Result<u64, StoreFault>) {
    let signal = StopSignal::new();
    let stop = &signal;
    join(
        rt,
        move || -> bool {
            let done = append_two(rt, stored, endpoint, meanwhile);
            stop.give(rt);
            done
        },
        move || -> Result<u64, StoreFault> {
            stored.store_every(rt, Duration::from_millis(period), stop)
        },
    )
}

/// Opens a queue and does that. Returns what both say, and how many messages a crash leaves.
fn said<R: Threads + Wait + Clock + AllocGlobal + Sync>(
    rt: &R,
    period: u64,
    meanwhile: Meanwhile,
) -> Result<String, Fail> {
    let alloc = rt.alloc();
    let Opened { kept, endpoint } = opened(alloc, 0)?;
    let stored = StoredQueue::new(kept);
    let (done, end) = both(rt, &stored, endpoint, period, meanwhile);
    let kept = kept_of(stored)?;
    let found = messages(&left(alloc, &kept)?).len();
    Ok(format!(in alloc; "{done}, {end:?}, {found} left")?)
}

/// Periods in milliseconds, and what the other thread does.
static ROWS: [(u64, Meanwhile); 3] = [
    (2, Meanwhile::Waits),
    (2, Meanwhile::Leaves),
    // The signal ends the wait at once, and the last store has all.
    (AN_HOUR, Meanwhile::Leaves),
];

#[test]
fn what_came_is_stored_in_each_period(rt: HostRuntime) -> Result<(), Fail> {
    for (i, &(period, meanwhile)) in ROWS.iter().enumerate() {
        let said = said(&rt, period, meanwhile)?;
        expect_answer("periods", i, said.as_str(), "true, Ok(2), 2 left")?;
    }
    Ok(())
}
