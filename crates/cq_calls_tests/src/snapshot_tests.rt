//! What snapshots give.
use crate::lives::expect_lives;
use crate::queues::{Call, Calls, THREE_CYCLES};
use cq_fixtures::DAY;
use std::test::Fail;

const SNAPSHOTS: Calls = &[
    // No message yet.
    (Call::New(4, 5 * DAY), "open"),
    (Call::Snapshot, "5[] "),
    // A message that is begun is in none, and is there once it is completed.
    (Call::New(4, 0), "open"),
    (Call::Append(0, "a"), "0"),
    (Call::Append(5 * DAY, "b"), "21474836480"),
    (Call::Begin(0, 1), "begun"),
    (Call::Snapshot, "0[a;] 5[b;] "),
    (Call::Put("c"), "put"),
    (Call::Snapshot, "0[a;] 5[b;] "),
    (Call::Complete, "21474836481"),
    (Call::Snapshot, "0[a;] 5[b;c;] "),
    (Call::Stop, "0[a;] 5[b;c;] at [0]"),
    // Cycles without messages are there too, the last one among them.
    (Call::Held(4, THREE_CYCLES, 1), "open"),
    (Call::Snapshot, "0[hello;ab;] 5[] 9[z;] "),
    (Call::Advance(11 * DAY), "cycle 11"),
    (Call::Snapshot, "0[hello;ab;] 5[] 9[z;] 11[] "),
    // The tailer stays where it is.
    (Call::Held(4, &[(0, &["a", "b"])], 0), "open"),
    (Call::Next, "0 a"),
    (Call::Snapshot, "0[a;b;] "),
    (Call::Cursor, "at 1"),
    (Call::Next, "1 b"),
    (Call::Next, "NotYet"),
    // A snapshot that memory was refused to leaves all as it was: the next one gives the same, and the message is
    // completed.
    (Call::New(4, 0), "open"),
    (Call::Append(0, "a"), "0"),
    (Call::Append(5 * DAY, "b"), "21474836480"),
    (Call::Begin(0, 1), "begun"),
    (Call::SnapshotAgain, "0[a;] 5[b;] "),
    (Call::Put("c"), "put"),
    (Call::Complete, "21474836481"),
    (Call::SnapshotAgain, "0[a;] 5[b;c;] "),
];

#[test]
fn snapshots_give_all_complete_messages(rt: HostRuntime) -> Result<(), Fail> {
    expect_lives(rt.alloc(), &[SNAPSHOTS])
}
