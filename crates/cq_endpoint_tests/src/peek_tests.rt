//! Looks at the next message, which read nothing.
use crate::calls::{Call, Calls};
use crate::room_tests::expect_rows;
use cq_endpoint::Direction;
use cq_fixtures::DAY;
use std::test::Fail;

/// Calls of an endpoint of a new queue.
static PEEKS: [Calls; 4] = [
    // The next message either way, in the same cycle and in the next one. The endpoint stays, and sees no later end.
    &[
        (Call::Peek, "NotYet"),
        (Call::Append(0, "hello"), "0"),
        (Call::Append(0, "ab"), "1"),
        (Call::Append(DAY, "c"), "4294967296"),
        (Call::Peek, "0 5"),
        (Call::Peek, "0 5"),
        (Call::Cursor, "at 0"),
        (Call::SeenEnd, "end 0"),
        (Call::Next, "0 hello"),
        (Call::Peek, "1 2"),
        (Call::Cursor, "at 1"),
        (Call::SeenEnd, "end 1"),
        (Call::Next, "1 ab"),
        (Call::Peek, "4294967296 1"),
        (Call::Cursor, "at 2"),
        (Call::Next, "4294967296 c"),
        (Call::Peek, "NotYet"),
        (Call::Cursor, "at 4294967297"),
        (Call::Turn(Direction::Backwards), "turned"),
        (Call::Peek, "4294967296 1"),
        (Call::Peek, "4294967296 1"),
        (Call::Cursor, "at 4294967297"),
        (Call::Next, "4294967296 c"),
        (Call::Peek, "1 2"),
        (Call::NextInto(2), "1 2 [ab]"),
        (Call::Peek, "0 5"),
        (Call::Next, "0 hello"),
        (Call::Peek, "BeforeStart"),
        (Call::Cursor, "at 0"),
        (Call::Turn(Direction::Forwards), "turned"),
        (Call::Peek, "0 5"),
    ],
    // It passes over cycles that were dropped, also since it looked last.
    &[
        (Call::Append(0, "hello"), "0"),
        (Call::Append(DAY, "c"), "4294967296"),
        (Call::Peek, "0 5"),
        (Call::ToEnd, "end 4294967297"),
        (Call::DropBefore(1), "floor 1"),
        (Call::ToStart, "start"),
        (Call::Peek, "4294967296 1"),
        (Call::Cursor, "at 0"),
        (Call::Next, "4294967296 c"),
        (Call::Turn(Direction::Backwards), "turned"),
        (Call::Peek, "4294967296 1"),
        (Call::Next, "4294967296 c"),
        (Call::Peek, "BeforeStart"),
        (Call::Cursor, "at 4294967296"),
    ],
    // What was looked up has not been seen: no cycle before it can be dropped yet.
    &[
        (Call::Append(DAY, "c"), "4294967296"),
        (Call::Peek, "4294967296 1"),
        (Call::DropBefore(1), "NotSeen"),
        (Call::Next, "4294967296 c"),
        (Call::DropBefore(1), "floor 1"),
    ],
    // A message that was begun does not come next before it is complete.
    &[
        (Call::Begin(0, 5), "begun"),
        (Call::Put("ab"), "put"),
        (Call::Peek, "NotYet"),
        (Call::Complete, "0"),
        (Call::Peek, "0 2"),
    ],
];

#[test]
fn endpoints_look_up_the_next_message(rt: HostRuntime) -> Result<(), Fail> {
    expect_rows(rt.alloc(), &PEEKS)
}
