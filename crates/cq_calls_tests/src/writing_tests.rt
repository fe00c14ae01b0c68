//! Messages that are begun, filled, and completed or given up.
use crate::lives::expect_lives;
use crate::queues::{Call, Calls};
use std::test::Fail;

const WRITTEN: Calls = &[
    // Bytes are put in pieces that end within cells and at their ends.
    (Call::New(4, 0), "open"),
    (Call::Begin(0, 20), "begun"),
    (Call::Put("h"), "put"),
    (Call::Put("el"), "put"),
    (Call::Put("lo, w"), "put"),
    (Call::Put(""), "put"),
    (Call::Put("orld"), "put"),
    (Call::Put("!!!!"), "put"),
    (Call::Complete, "0"),
    (Call::Append(0, "x"), "1"),
    (Call::StopByOther, "0[hello, world!!!!;x;] at [0]"),
    // No more bytes go in than fit.
    (Call::New(4, 0), "open"),
    (Call::Begin(0, 5), "begun"),
    (Call::Put("hello!"), "NoRoom"),
    (Call::Put("hello"), "put"),
    (Call::Put("!"), "NoRoom"),
    (Call::Put(""), "put"),
    (Call::Complete, "0"),
    (Call::StopByOther, "0[hello;] at [0]"),
    // One of which nothing was put is not completed, and can be filled then.
    (Call::New(4, 0), "open"),
    (Call::Begin(0, 5), "begun"),
    (Call::Complete, "EmptyMessage"),
    (Call::Put("a"), "put"),
    (Call::Complete, "0"),
    (Call::StopByOther, "0[a;] at [0]"),
    // The next message is whole in the place of one that was longer.
    (Call::New(4, 0), "open"),
    (Call::Begin(0, 20), "begun"),
    (Call::Put("12345678901234567890"), "put"),
    (Call::GiveUp, "given up"),
    (Call::Append(0, "a"), "0"),
    (Call::Append(0, "b"), "1"),
    (Call::StopByOther, "0[a;b;] at [0]"),
    // So is one that another caller appends there.
    (Call::New(4, 0), "open"),
    (Call::Append(0, "a"), "0"),
    (Call::Begin(0, 20), "begun"),
    (Call::Put("12345678901234567890"), "put"),
    (Call::GiveUp, "given up"),
    (Call::AppendByNew("b"), "1"),
    (Call::Append(0, "c"), "2"),
    (Call::StopByOther, "0[a;b;c;] at [0]"),
    // One of which nothing was put is given up too.
    (Call::New(4, 0), "open"),
    (Call::Begin(0, 1), "begun"),
    (Call::GiveUp, "given up"),
    (Call::Begin(0, 1), "begun"),
    (Call::Put("a"), "put"),
    (Call::Complete, "0"),
    (Call::StopByOther, "0[a;] at [0]"),
    // No other caller appends before a message that was begun is completed.
    (Call::New(4, 0), "open"),
    (Call::Begin(0, 5), "begun"),
    (Call::AppendByNew("b"), "Busy"),
    (Call::Put("hello"), "put"),
    (Call::AppendByNew("b"), "Busy"),
    (Call::Complete, "0"),
    (Call::AppendByNew("b"), "1"),
    (Call::Append(0, "c"), "2"),
    (Call::StopByOther, "0[hello;b;c;] at [0]"),
    // One that was dropped is in no list, nor is any after it.
    (Call::New(4, 0), "open"),
    (Call::Append(0, "hello"), "0"),
    (Call::Begin(0, 12), "begun"),
    (Call::Put("1234567"), "put"),
    (Call::AppendByNew("x"), "Busy"),
    (Call::StopByOther, "0[hello;] at [0]"),
];

#[test]
fn messages_are_filled_and_completed_or_given_up(rt: HostRuntime) -> Result<(), Fail> {
    expect_lives(rt.alloc(), &[WRITTEN])
}
