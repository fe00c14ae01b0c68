//! Turns to which memory is refused: the next one notes all, and nothing twice.
use crate::fixture::{Beginning, Call};
use crate::lives::{Life, expect_lives};
use cq_fixtures::DAY;
use std::test::Fail;

/// Each turn is made again if memory was refused to it.
static REFUSED: [Life; 1] = [(
    Beginning::New(0),
    &[
        (Call::Append(0, "a"), "0"),
        (Call::Append(0, "b"), "1"),
        (Call::Append(5 * DAY, "c"), "21474836480"),
        (
            Call::TurnAgain,
            "cycle 0, a, b, cycle 5, c, end 21474836481",
        ),
        (Call::TurnAgain, "end 21474836481"),
        (Call::Append(5 * DAY, "d"), "21474836481"),
        (Call::Seek("one", 0, 1), "Done"),
        (Call::DropBefore(5), "floor 5"),
        (Call::TurnAgain, "d, name 0 at 1, floor 5, end 21474836482"),
        (Call::Played, "0[a;b;] 5[c;d;] at [1, 0] floor 5"),
    ],
    "0[a;b;] 5[c;d;] at [1, 0] floor 5",
)];

#[test]
fn a_turn_after_a_refused_one_notes_all(rt: HostRuntime) -> Result<(), Fail> {
    expect_lives(rt.alloc(), &REFUSED)
}
