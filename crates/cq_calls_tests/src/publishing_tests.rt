//! What appenders publish: the index of a cycle and its write position, once the queue was stopped.
use crate::lives::expect_lives;
use crate::queues::{Call, Calls};
use std::test::Fail;

const HELLO: Call = Call::Append(0, "hello");

/// A queue that is opened with nine messages of one byte. No entry of theirs is filled in, so that a table is found by a
/// walk.
const HELD: Call = Call::Held(1, &[(0, &["a", "a", "a", "a", "a", "a", "a", "a", "a"])], 0);

const PUBLISHED: Calls = &[
    // Each message is published.
    (Call::New(1, 0), "open"),
    (HELLO, "0"),
    (HELLO, "1"),
    (
        Call::Published(&[11, 12, 20, 21, 22]),
        "76 0 112 124 0 at 532575944705",
    ),
    // The ninth message is the first one of the second table.
    (Call::New(1, 0), "open"),
    (HELLO, "0"),
    (HELLO, "1"),
    (HELLO, "2"),
    (HELLO, "3"),
    (HELLO, "4"),
    (HELLO, "5"),
    (HELLO, "6"),
    (HELLO, "7"),
    (Call::Append(0, "abcd"), "8"),
    (Call::Published(&[12, 53]), "208 244 at 1047972020232"),
    (Call::New(1, 0), "open"),
    (HELLO, "0"),
    (Call::AppendByNew("hello"), "1"),
    (Call::Published(&[11, 20, 21]), "76 112 124 at 532575944705"),
    (Call::New(1, 0), "open"),
    (Call::Begin(0, 5), "begun"),
    (Call::Put("hello"), "put"),
    (Call::Complete, "0"),
    (Call::Published(&[11, 20]), "76 112 at 481036337152"),
    // A message that is not completed is not.
    (Call::New(1, 0), "open"),
    (Call::Begin(0, 5), "begun"),
    (Call::Put("hello"), "put"),
    (Call::Published(&[11, 20]), "0 0 at 0"),
    (Call::New(1, 0), "open"),
    (Call::Begin(0, 5), "begun"),
    (Call::Put("hello"), "put"),
    (Call::GiveUp, "given up"),
    (Call::Published(&[11, 20]), "0 0 at 0"),
    // A table without entries is found.
    (HELD, "open"),
    (Call::Published(&[11, 12, 20, 45, 46]), "0 0 0 0 0 at 0"),
    (HELD, "open"),
    (Call::Append(0, "x"), "9"),
    (
        Call::Published(&[11, 12, 20, 45, 46]),
        "0 176 0 0 220 at 944892805129",
    ),
];

#[test]
fn each_complete_message_is_published(rt: HostRuntime) -> Result<(), Fail> {
    expect_lives(rt.alloc(), &[PUBLISHED])
}
