//! What each call answers, and what a crash leaves then.
use crate::life::{Call, Life, answer, left, opened};
use cq_fixtures::{expect_answer, expect_end};
use std::sync::Wait;
use std::test::Fail;
use std::time::Clock;

/// Calls of a queue that holds "ab" and "c" at first.
#[derive(Clone, Copy)]
struct Row {
    /// What it shows.
    name: &'static str,
    /// The number of the write or sync that fails, or 0 if none does. An opening makes nine of them.
    failing: u64,
    /// The calls and their answers.
    calls: &'static [(Call, &'static str)],
    /// The syncs, those of the opening included, and what a crash leaves.
    left: &'static str,
}

/// The answer to an append whose message is not known to be stored, since the log has stopped, and that to the next one.
const NOT_STORED: &str = "Unstored(Index { value: 21474836482 }, Keep(Stopped(Failed)))";

const NEXT_NOT_STORED: &str = "Unstored(Index { value: 21474836483 }, Keep(Stopped(Failed)))";

/// The answer of other calls then.
const STOPPED: &str = "Keep(Stopped(Failed))";

/// Calls of which the first one meets the fault. The log stays as it stopped, and nothing more is stored.
static STOPPED_AT_FIRST: [(Call, &str); 6] = [
    (Call::AppendStored("d"), NOT_STORED),
    (Call::AppendStored("e"), NEXT_NOT_STORED),
    (Call::WaitStored(2), STOPPED),
    (Call::Store, STOPPED),
    (Call::StoreEvery, STOPPED),
    (Call::StoredEnd, "end 21474836482"),
];

/// Rows of a device that does not fail: two syncs store what came, and a message that is stored costs none.
static WHOLE: [Row; 5] = [
    Row {
        name: "an append at a time",
        failing: 0,
        calls: &[
            (Call::AppendStored("d"), "21474836482"),
            (Call::StoredEnd, "end 21474836483"),
            (Call::AppendStored("e"), "21474836483"),
            (Call::StoredEnd, "end 21474836484"),
        ],
        left: "7 syncs, 5[ab;c;d;e;] at [21474836481]",
    },
    Row {
        name: "a wait for the last one",
        failing: 0,
        calls: &[
            (Call::Append("d"), "21474836482"),
            (Call::Append("e"), "21474836483"),
            (Call::StoredEnd, "end 21474836482"),
            (Call::WaitStored(3), "ok"),
            (Call::WaitStored(2), "ok"),
            (Call::WaitStored(0), "ok"),
            (Call::StoredEnd, "end 21474836484"),
            (Call::Append("f"), "21474836484"),
        ],
        left: "5 syncs, 5[ab;c;d;e;] at [21474836481]",
    },
    Row {
        name: "an index of another queue",
        failing: 0,
        calls: &[
            (Call::AppendStored("d"), "21474836482"),
            (Call::WaitStored(3), "OtherQueue"),
            (Call::Append("e"), "21474836483"),
            (Call::WaitStored(3), "ok"),
        ],
        left: "7 syncs, 5[ab;c;d;e;] at [21474836481]",
    },
    Row {
        name: "a store",
        failing: 0,
        calls: &[
            (Call::Append("d"), "21474836482"),
            (Call::Append("e"), "21474836483"),
            (Call::Store, "end 21474836484"),
            (Call::WaitStored(3), "ok"),
            (Call::Append("f"), "21474836484"),
        ],
        left: "5 syncs, 5[ab;c;d;e;] at [21474836481]",
    },
    Row {
        name: "a last store",
        failing: 0,
        calls: &[
            (Call::Append("d"), "21474836482"),
            (Call::StoreLast, "end 21474836483"),
            (Call::Append("e"), "21474836483"),
            (Call::StoreLast, "end 21474836484"),
        ],
        left: "7 syncs, 5[ab;c;d;e;] at [21474836481]",
    },
];

/// What a crash leaves where the frame of the first turn, or its gate, is not stored.
const WITHOUT_FRAME: &str = "3 syncs, 5[ab;c;] at [21474836481]";

const WITHOUT_GATE: &str = "4 syncs, 5[ab;c;] at [21474836481]";

/// The number of the write or sync that fails, and what a crash leaves then. After the opening come the frame of the first turn, in three
/// writes, and its sync. The second turn writes its gate, and syncs that.
static FAILING: [(u64, &str); 6] = [
    (10, WITHOUT_FRAME),
    (11, WITHOUT_FRAME),
    (12, WITHOUT_FRAME),
    (13, WITHOUT_FRAME),
    (14, WITHOUT_GATE),
    (15, WITHOUT_GATE),
];

/// Makes the calls of a row. Fails if one of them does not answer what is wanted.
fn expect_calls<R: Wait + Clock + AllocGlobal>(
    rt: &R,
    life: &mut Life,
    row: &Row,
) -> Result<(), Fail> {
    for (i, &(call, want)) in row.calls.iter().enumerate() {
        let said = answer(rt, life, call)?;
        expect_answer(row.name, i, said.as_str(), want)?;
    }
    Ok(())
}

/// The same with a new queue. Fails as well if a crash does not leave what is wanted.
fn expect_row<R: Wait + Clock + AllocGlobal>(rt: &R, row: &Row) -> Result<(), Fail> {
    let mut life = opened(rt.alloc(), row.failing)?;
    expect_calls(rt, &mut life, row)?;
    let left = left(rt.alloc(), life)?;
    expect_end(row.name, left.as_str(), row.left)
}

/// What was answered is stored, and nothing that came after the last turn.
#[test]
fn a_crash_leaves_what_was_answered(rt: HostRuntime) -> Result<(), Fail> {
    for row in &WHOLE {
        expect_row(&rt, row)?;
    }
    Ok(())
}

/// A device that fails stops the log: no call says that a message is stored which is not, then or later.
#[test]
fn no_call_says_what_is_not_stored(rt: HostRuntime) -> Result<(), Fail> {
    for &(failing, left) in &FAILING {
        let row = Row {
            name: "a fault",
            failing,
            calls: &STOPPED_AT_FIRST,
            left,
        };
        expect_row(&rt, &row)?;
    }
    Ok(())
}

/// A message is stored before the fault.
static STOPPED_LATER: [(Call, &str); 4] = [
    (Call::AppendStored("d"), "21474836482"),
    (Call::AppendStored("e"), NEXT_NOT_STORED),
    (Call::WaitStored(2), "ok"),
    (Call::StoredEnd, "end 21474836483"),
];

/// What was stored before a fault stays.
#[test]
fn a_fault_loses_nothing_stored(rt: HostRuntime) -> Result<(), Fail> {
    let row = Row {
        name: "a later fault",
        failing: 16,
        calls: &STOPPED_LATER,
        left: "5 syncs, 5[ab;c;d;] at [21474836481]",
    };
    expect_row(&rt, &row)
}
