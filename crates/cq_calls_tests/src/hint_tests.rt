//! Messages with and without entries in the index and a write position: reads find them all.
use crate::lives::expect_lives;
use crate::queues::{Call, Calls};
use cq_fixtures::DAY;
use cq_tail::Direction;
use std::test::Fail;

/// The index of the second message of cycle 1.
const LAST: u64 = 4_294_967_297;

/// Reads of every kind, from the start of a queue.
const READS: Calls = &[
    (Call::ReadAt(1), "1 b"),
    (Call::ReadAt(LAST), "4294967297 e"),
    (Call::ReadAt(0), "0 a"),
    (Call::ReadAt(3), "Never"),
    (Call::ReadAt(LAST + 1), "NotYet"),
    (Call::MoveTo(2), "moved"),
    (Call::Next, "2 c"),
    (Call::Next, "4294967296 d"),
    (Call::ToEnd, "end 4294967298"),
    (Call::Next, "NotYet"),
    (Call::Turn(Direction::Backwards), "turned"),
    (Call::Next, "4294967297 e"),
    (Call::Next, "4294967296 d"),
    (Call::Next, "2 c"),
    (Call::MoveTo(1), "moved"),
    (Call::Next, "0 a"),
    (Call::Next, "BeforeStart"),
];

/// A queue that is opened again has neither entries nor write positions.
const REOPENED: Calls = &[
    (Call::New(4, 0), "open"),
    (Call::Append(0, "a"), "0"),
    (Call::Append(0, "b"), "1"),
    (Call::Append(0, "c"), "2"),
    (Call::Append(DAY, "d"), "4294967296"),
    (Call::Append(DAY, "e"), "4294967297"),
    (Call::ReadAt(LAST), "4294967297 e"),
    (Call::ReadAt(1), "1 b"),
    (Call::ReadAt(2), "2 c"),
    (Call::Reopen, "open"),
];

/// The same messages in a queue that is opened with them.
const HELD: Calls = &[(
    Call::Held(4, &[(0, &["a", "b", "c"]), (1, &["d", "e"])], 0),
    "open",
)];

/// Messages with entries come after some without.
const PARTLY_WITH: Calls = &[
    (Call::Held(4, &[(0, &["a", "b", "c"])], 0), "open"),
    (Call::Append(0, "d"), "3"),
    (Call::Append(0, "e"), "4"),
    (Call::ReadAt(3), "3 d"),
    (Call::ReadAt(1), "1 b"),
    (Call::ReadAt(4), "4 e"),
    (Call::ReadAt(5), "NotYet"),
    (Call::ReadAt(0), "0 a"),
    (Call::MoveTo(2), "moved"),
    (Call::Next, "2 c"),
    (Call::ToEnd, "end 5"),
    (Call::Turn(Direction::Backwards), "turned"),
    (Call::Next, "4 e"),
];

#[test]
fn messages_without_hints_are_read(rt: HostRuntime) -> Result<(), Fail> {
    expect_lives(rt.alloc(), &[REOPENED, READS, HELD, READS, PARTLY_WITH])
}
