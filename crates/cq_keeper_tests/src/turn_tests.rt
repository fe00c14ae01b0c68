//! What turns keep, and what a read of the file finds after each.
use crate::fixture::{Call, failing_at, make_calls};
use crate::lives::{Life, expect_lives};
use crate::reading::read_text;
use cq_fixtures::{DAY, expect_text};
use cq_keeper::{Keeper, Parts};
use cq_log_tests::TornFile;
use std::alloc::Global;
use std::test::Fail;

/// Calls of queues, each with a keeper.
static LIVES: [Life; 5] = [
    // What came in a turn waits, and is stored by the next one. A turn to which nothing came settles.
    &[
        (Call::Turn, "ok", "at [0]", 0),
        (Call::Turn, "ok", "0[] at [0]", 0),
        (Call::Append(0, "a"), "0", "0[] at [0]", 0),
        (Call::Append(0, "b"), "1", "0[] at [0]", 0),
        (Call::Turn, "ok", "0[] at [0]", 0),
        (Call::Append(0, "c"), "2", "0[] at [0]", 0),
        (Call::Turn, "ok", "0[a;b;] at [0]", 2),
        (Call::Turn, "ok", "0[a;b;c;] at [0]", 3),
        (Call::Turn, "ok", "0[a;b;c;] at [0]", 3),
    ],
    // So does a call of settle. It puts nothing that came since the last turn.
    &[
        (Call::Append(0, "a"), "0", "at [0]", 0),
        (Call::Settle, "ok", "at [0]", 0),
        (Call::Turn, "ok", "at [0]", 0),
        (Call::Append(0, "b"), "1", "at [0]", 0),
        (Call::Settle, "ok", "0[a;] at [0]", 1),
        (Call::Settle, "ok", "0[a;] at [0]", 1),
        (Call::Turn, "ok", "0[a;] at [0]", 1),
        (Call::Settle, "ok", "0[a;b;] at [0]", 2),
    ],
    // Cycles are kept, those without messages too.
    &[
        (Call::Append(0, "a"), "0", "at [0]", 0),
        (Call::Advance(DAY), "cycle 1", "at [0]", 0),
        (Call::Append(5 * DAY, "b"), "21474836480", "at [0]", 0),
        (Call::Turn, "ok", "at [0]", 0),
        (Call::Advance(9 * DAY), "cycle 9", "at [0]", 0),
        (Call::Turn, "ok", "0[a;] 1[] 5[b;] at [0]", 21474836481),
        (
            Call::Settle,
            "ok",
            "0[a;] 1[] 5[b;] 9[] at [0]",
            38654705664,
        ),
    ],
    // A name that took messages is kept, and the end is the same one.
    &[
        (Call::Append(0, "a"), "0", "at [0]", 0),
        (Call::Append(0, "b"), "1", "at [0]", 0),
        (Call::Turn, "ok", "at [0]", 0),
        (Call::Take("reader"), "0 a", "at [0]", 0),
        (Call::Turn, "ok", "0[a;b;] at [0]", 2),
        (Call::Take("reader"), "1 b", "0[a;b;] at [0]", 2),
        (Call::Take("reader"), "none", "0[a;b;] at [0]", 2),
        (Call::Turn, "ok", "0[a;b;] at [1]", 2),
        (Call::Settle, "ok", "0[a;b;] at [2]", 2),
    ],
    // The floor is kept, and the cycles that were dropped.
    &[
        (Call::Append(0, "a"), "0", "at [0]", 0),
        (Call::Append(5 * DAY, "b"), "21474836480", "at [0]", 0),
        (Call::Turn, "ok", "at [0]", 0),
        (Call::DropBefore(5), "floor 5", "at [0]", 0),
        (Call::Turn, "ok", "0[a;] 5[b;] at [0]", 21474836481),
        (
            Call::Settle,
            "ok",
            "0[a;] 5[b;] at [0] floor 5",
            21474836481,
        ),
    ],
];

#[test]
fn what_came_waits_and_is_stored(rt: HostRuntime) -> Result<(), Fail> {
    expect_lives(rt.alloc(), &LIVES)
}

/// Returns a keeper that has put a message and then one more, each in a turn.
fn keeper_of_two(alloc: Global) -> Result<Keeper<TornFile>, Fail> {
    let mut fixture = failing_at(alloc, 0)?;
    let calls = [
        Call::Append(0, "a"),
        Call::Turn,
        Call::Append(0, "b"),
        Call::Turn,
    ];
    make_calls(alloc, &mut fixture, &calls)?;
    Ok(fixture.into_keeper())
}

/// Takes a keeper apart. Returns its ends, whether no frame waits in its log, and what is read of the file.
fn parts_text(alloc: Global, keeper: Keeper<TornFile>) -> Result<String, Fail> {
    let ends = (keeper.stored_end(), keeper.end());
    let Parts { collector: _, log } = keeper.into_parts();
    let is_settled = log.is_settled();
    let file = log.into_device();
    let (text, count) = read_text(alloc, file.bytes())?;
    Ok(format!(in alloc; "{ends:?}, {is_settled}, {text}, {count}")?)
}

#[test]
fn a_frame_waits_in_the_log_that_is_given_back(rt: HostRuntime) -> Result<(), Fail> {
    let alloc = rt.alloc();
    expect_text(
        parts_text(alloc, keeper_of_two(alloc)?)?,
        "(1, 2), false, 0[a;] at [0], 1",
    )
}
