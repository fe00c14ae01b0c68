//! What turns note.
use crate::fixture::{Beginning, Call};
use crate::lives::{Life, expect_lives};
use cq_fixtures::DAY;
use std::test::Fail;

/// Messages, cycles and what writers leave.
static MESSAGES: [Life; 5] = [
    // A new queue has one cycle, and each message is noted once.
    (
        Beginning::New(0),
        &[
            (Call::Turn, "cycle 0, end 0"),
            (Call::Turn, "end 0"),
            (Call::Append(0, "a"), "0"),
            (Call::Append(0, "b"), "1"),
            (Call::Turn, "a, b, end 2"),
            (Call::Append(0, "c"), "2"),
            (Call::Turn, "c, end 3"),
            (Call::Turn, "end 3"),
            (Call::Played, "0[a;b;c;] at [0, 0]"),
            (Call::Snapshot, "0[a;b;c;] "),
        ],
        "0[a;b;c;] at [0, 0]",
    ),
    // The first turn may come late. Cycles without messages are noted, the last one too.
    (
        Beginning::New(0),
        &[
            (Call::Append(0, "a"), "0"),
            (Call::Advance(DAY), "cycle 1"),
            (Call::Append(5 * DAY, "b"), "21474836480"),
            (
                Call::Turn,
                "cycle 0, a, cycle 1, cycle 5, b, end 21474836481",
            ),
            (Call::Advance(9 * DAY), "cycle 9"),
            (Call::Turn, "cycle 9, end 38654705664"),
            (Call::Played, "0[a;] 1[] 5[b;] 9[] at [0, 0]"),
        ],
        "0[a;] 1[] 5[b;] 9[] at [0, 0]",
    ),
    // A turn goes on in the cycle where the last one ended, and then in those after it.
    (
        Beginning::New(0),
        &[
            (Call::Append(0, "a"), "0"),
            (Call::Turn, "cycle 0, a, end 1"),
            (Call::Append(0, "b"), "1"),
            (Call::Append(5 * DAY, "c"), "21474836480"),
            (Call::Turn, "b, cycle 5, c, end 21474836481"),
            (Call::Append(5 * DAY, "d"), "21474836481"),
            (Call::Turn, "d, end 21474836482"),
            (Call::Played, "0[a;b;] 5[c;d;] at [0, 0]"),
        ],
        "0[a;b;] 5[c;d;] at [0, 0]",
    ),
    // A message that is being written is in no note, nor one that was given up.
    (
        Beginning::New(0),
        &[
            (Call::Append(0, "a"), "0"),
            (Call::Begin(0, 4), "begun"),
            (Call::Put("bb"), "put"),
            (Call::Turn, "cycle 0, a, end 1"),
            (Call::Complete, "1"),
            (Call::Turn, "bb, end 2"),
            (Call::Begin(0, 4), "begun"),
            (Call::Put("cc"), "put"),
            (Call::Turn, "end 2"),
            (Call::GiveUp, "given up"),
            (Call::Turn, "end 2"),
            (Call::Append(0, "d"), "2"),
            (Call::Turn, "d, end 3"),
        ],
        "0[a;bb;d;] at [0, 0]",
    ),
    // A queue that was opened again is collected from its first cycle on, and by a new collector once more.
    (
        Beginning::Held(&[(0, &["hello", "ab"]), (5, &[]), (9, &["z"])], &[1, 0]),
        &[
            (
                Call::Turn,
                "cycle 0, hello, ab, cycle 5, cycle 9, z, name 0 at 1, end 38654705665",
            ),
            (Call::Append(9 * DAY, "y"), "38654705665"),
            (Call::Turn, "y, end 38654705666"),
            (Call::Renew, "new"),
            (
                Call::Turn,
                "cycle 0, hello, ab, cycle 5, cycle 9, z, y, name 0 at 1, end 38654705666",
            ),
            (Call::Turn, "end 38654705666"),
            (Call::Played, "0[hello;ab;] 5[] 9[z;y;] at [1, 0]"),
        ],
        "0[hello;ab;] 5[] 9[z;y;] at [1, 0]",
    ),
];

/// Names that move, and the floor.
static MOVES: [Life; 3] = [
    // Names are noted in their order, after the messages, and only where they moved.
    (
        Beginning::New(0),
        &[
            (Call::Append(0, "a"), "0"),
            (Call::Append(0, "b"), "1"),
            (Call::Turn, "cycle 0, a, b, end 2"),
            (Call::Seek("two", 0, 2), "Done"),
            (Call::Turn, "name 1 at 2, end 2"),
            (Call::Turn, "end 2"),
            (Call::Append(0, "c"), "2"),
            (Call::Seek("two", 2, 3), "Done"),
            (Call::Seek("one", 0, 1), "Done"),
            (Call::Turn, "c, name 0 at 1, name 1 at 3, end 3"),
            (Call::Seek("one", 1, 3), "Done"),
            (Call::Seek("one", 3, 0), "Done"),
            (Call::Turn, "name 0 at 0, end 3"),
            (Call::Played, "0[a;b;c;] at [0, 3]"),
        ],
        "0[a;b;c;] at [0, 3]",
    ),
    // The floor is noted last. Cycles that were dropped are collected like others.
    (
        Beginning::New(0),
        &[
            (Call::Append(0, "a"), "0"),
            (Call::Append(5 * DAY, "b"), "21474836480"),
            (Call::DropBefore(5), "floor 5"),
            (
                Call::Turn,
                "cycle 0, a, cycle 5, b, floor 5, end 21474836481",
            ),
            (Call::DropBefore(5), "floor 5"),
            (Call::Turn, "end 21474836481"),
            (Call::Append(9 * DAY, "c"), "38654705664"),
            (Call::Seek("one", 0, 38654705665), "Done"),
            (Call::DropBefore(9), "floor 9"),
            (
                Call::Turn,
                "cycle 9, c, name 0 at 38654705665, floor 9, end 38654705665",
            ),
            (
                Call::Played,
                "0[a;] 5[b;] 9[c;] at [38654705665, 0] floor 9",
            ),
            (Call::Snapshot, "0[a;] 5[b;] 9[c;] "),
        ],
        "0[a;] 5[b;] 9[c;] at [38654705665, 0] floor 9",
    ),
    // A name that moved away and back since the last turn is where it was.
    (
        Beginning::Held(&[(3, &["a"])], &[0, 12884901889]),
        &[
            (
                Call::Turn,
                "cycle 3, a, name 1 at 12884901889, end 12884901889",
            ),
            (Call::Seek("two", 12884901889, 0), "Done"),
            (Call::Seek("two", 0, 12884901889), "Done"),
            (Call::Turn, "end 12884901889"),
        ],
        "3[a;] at [0, 12884901889]",
    ),
];

/// Looks, which are not held: a later look or turn notes it all again.
static LOOKS: [Life; 1] = [(
    Beginning::New(0),
    &[
        (Call::Append(0, "a"), "0"),
        (Call::Look, "cycle 0, a, end 1"),
        (Call::Look, "cycle 0, a, end 1"),
        (Call::Append(5 * DAY, "b"), "21474836480"),
        (Call::Look, "cycle 0, a, cycle 5, b, end 21474836481"),
        (Call::Played, "at [0, 0]"),
        (Call::Turn, "cycle 0, a, cycle 5, b, end 21474836481"),
        (Call::Look, "end 21474836481"),
        (Call::Seek("two", 0, 1), "Done"),
        (Call::DropBefore(5), "floor 5"),
        (Call::Look, "name 1 at 1, floor 5, end 21474836481"),
        (Call::Append(5 * DAY, "c"), "21474836481"),
        (Call::Turn, "c, name 1 at 1, floor 5, end 21474836482"),
    ],
    "0[a;] 5[b;c;] at [0, 1] floor 5",
)];

#[test]
fn messages_and_cycles_are_noted_once(rt: HostRuntime) -> Result<(), Fail> {
    expect_lives(rt.alloc(), &MESSAGES)
}

#[test]
fn names_and_the_floor_are_noted_where_they_moved(rt: HostRuntime) -> Result<(), Fail> {
    expect_lives(rt.alloc(), &MOVES)
}

#[test]
fn what_is_not_held_is_noted_again(rt: HostRuntime) -> Result<(), Fail> {
    expect_lives(rt.alloc(), &LOOKS)
}
