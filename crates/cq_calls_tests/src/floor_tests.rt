//! Cycles that were dropped: what reads, takes and moves return then, and what is kept.
use crate::lives::expect_lives;
use crate::queues::{Call, Calls};
use cq_fixtures::DAY;
use cq_tail::Direction;
use std::test::Fail;

const DROPPED: Calls = &[
    // Reads pass over them, also once the queue was stopped and opened again.
    (Call::New(4, 0), "open"),
    (Call::Append(0, "a"), "0"),
    (Call::Append(5 * DAY, "b"), "21474836480"),
    (Call::ReadAt(21474836480), "21474836480 b"),
    (Call::DropBefore(5), "floor 5"),
    (Call::DropBefore(0), "floor 5"),
    (Call::ReadAt(0), "Gone"),
    (Call::Next, "21474836480 b"),
    (Call::Turn(Direction::Backwards), "turned"),
    (Call::Next, "21474836480 b"),
    (Call::Next, "BeforeStart"),
    (Call::Stop, "0[a;] 5[b;] at [0] floor 5"),
    (Call::Reopen, "open"),
    (Call::ReadAt(0), "Gone"),
    (Call::Next, "21474836480 b"),
    (Call::DropBefore(0), "floor 5"),
    (Call::Take("reader"), "21474836480 b"),
    // The same queue without a drop.
    (Call::New(4, 0), "open"),
    (Call::Append(0, "a"), "0"),
    (Call::Append(5 * DAY, "b"), "21474836480"),
    (Call::ReadAt(21474836480), "21474836480 b"),
    (Call::Stop, "0[a;] 5[b;] at [0]"),
    // So do moves and takes.
    (Call::New(4, 0), "open"),
    (Call::Append(0, "a"), "0"),
    (Call::Append(5 * DAY, "b"), "21474836480"),
    (Call::MoveTo(0), "moved"),
    (Call::DropBefore(5), "NotSeen"),
    (Call::ToEnd, "end 21474836481"),
    (Call::DropBefore(5), "floor 5"),
    (Call::MoveTo(0), "stays"),
    (Call::Cursor, "at 21474836481"),
    (Call::ReadAt(4294967296), "Gone"),
    (Call::ReadAt(21474836481), "NotYet"),
    (Call::ReadAt(12884901888), "Gone"),
    (Call::Position("reader"), "at 0"),
    (Call::Take("reader"), "21474836480 b"),
    (Call::Take("reader"), "NotYet"),
    (Call::Position("reader"), "at 21474836481"),
    // A message that is begun before a cycle is dropped and completed after it, with snapshots around that.
    (Call::New(4, 0), "open"),
    (Call::Append(0, "a"), "0"),
    (Call::Append(5 * DAY, "b"), "21474836480"),
    (Call::Begin(0, 1), "begun"),
    (Call::ReadAt(21474836480), "21474836480 b"),
    (Call::DropBefore(5), "floor 5"),
    (Call::Snapshot, "0[a;] 5[b;] "),
    (Call::Put("c"), "put"),
    (Call::Snapshot, "0[a;] 5[b;] "),
    (Call::Complete, "21474836481"),
    (Call::Snapshot, "0[a;] 5[b;c;] "),
    (Call::ReadAt(0), "Gone"),
    (Call::Next, "21474836480 b"),
    (Call::Stop, "0[a;] 5[b;c;] at [0] floor 5"),
];

#[test]
fn calls_pass_over_cycles_that_were_dropped(rt: HostRuntime) -> Result<(), Fail> {
    expect_lives(rt.alloc(), &[DROPPED])
}
