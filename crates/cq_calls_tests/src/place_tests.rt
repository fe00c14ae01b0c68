//! Where messages that are begun go, and when none is begun.
use crate::lives::expect_lives;
use crate::queues::{Call, Calls};
use cq_fixtures::DAY;
use std::test::Fail;

/// A moment in no cycle.
const NEVER: u64 = 18_446_744_073_709_551_615;

const PLACES: Calls = &[
    // The maximum length is checked first, and then the moment.
    (Call::New(1, 0), "open"),
    (Call::Begin(0, 0), "BadRoom"),
    (Call::Begin(NEVER, 0), "BadRoom"),
    (Call::Begin(0, 1_073_741_824), "BadRoom"),
    (Call::Begin(NEVER, 1_073_741_823), "BadMoment"),
    (Call::Begin(0, 1_073_741_823), "CycleFull"),
    (Call::Append(0, "a"), "0"),
    (Call::StopByOther, "0[a;] at [0]"),
    // The longest message that fits has 136 bytes.
    (Call::New(1, 0), "open"),
    (Call::Begin(0, 137), "CycleFull"),
    (Call::Begin(0, 136), "begun"),
    (Call::StopByOther, "0[] at [0]"),
    // No cycle is left.
    (Call::New(2, 0), "open"),
    (Call::Begin(5 * DAY, 1), "begun"),
    (Call::GiveUp, "given up"),
    (Call::Begin(9 * DAY, 1), "NoCycleLeft"),
    (Call::Begin(5 * DAY, 1), "begun"),
    (Call::Put("a"), "put"),
    (Call::Complete, "21474836480"),
    (Call::StopByOther, "0[] 5[a;] at [0]"),
    // A message goes into the current cycle if its moment's is past.
    (Call::New(4, 0), "open"),
    (Call::Append(0, "a"), "0"),
    (Call::Advance(5 * DAY), "cycle 5"),
    (Call::Begin(0, 2), "begun"),
    (Call::Put("b"), "put"),
    (Call::Complete, "21474836480"),
    (Call::Append(9 * DAY, "c"), "38654705664"),
    (Call::StopByOther, "0[a;] 5[b;] 9[c;] at [0]"),
    // An appender goes on from where it was, after what others appended since.
    (Call::New(4, 0), "open"),
    (Call::Append(0, "a"), "0"),
    (Call::AppendByNew("b"), "1"),
    (Call::AppendByNew("c"), "2"),
    (Call::Begin(0, 1), "begun"),
    (Call::Put("d"), "put"),
    (Call::Complete, "3"),
    (Call::AppendByNew("e"), "4"),
    (Call::Append(5 * DAY, "f"), "21474836480"),
    (Call::StopByOther, "0[a;b;c;d;e;] 5[f;] at [0]"),
];

#[test]
fn messages_go_to_their_places(rt: HostRuntime) -> Result<(), Fail> {
    expect_lives(rt.alloc(), &[PLACES])
}
