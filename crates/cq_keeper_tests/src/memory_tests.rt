//! Turns to which memory is refused: the next one keeps all, and nothing twice.
use crate::fixture::Call;
use crate::lives::{Life, expect_lives};
use cq_fixtures::DAY;
use std::test::Fail;

/// Each turn is made again if memory was refused to it.
static REFUSED: [Life; 1] = [&[
    (Call::Append(0, "a"), "0", "at [0]", 0),
    (Call::TurnAgain, "ok", "at [0]", 0),
    (Call::Append(5 * DAY, "b"), "21474836480", "at [0]", 0),
    (Call::DropBefore(5), "floor 5", "at [0]", 0),
    (Call::TurnAgain, "ok", "0[a;] at [0]", 1),
    (
        Call::TurnAgain,
        "ok",
        "0[a;] 5[b;] at [0] floor 5",
        21474836481,
    ),
]];

#[test]
fn a_turn_after_a_refused_one_keeps_all(rt: HostRuntime) -> Result<(), Fail> {
    expect_lives(rt.alloc(), &REFUSED)
}
