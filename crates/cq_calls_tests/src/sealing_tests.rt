//! Queues that are sealed: no message comes any more, whoever tries, and all that was there is still read.
use crate::lives::expect_lives;
use crate::queues::{Call, Calls, THREE_CYCLES};
use cq_fixtures::{Cycles, DAY};
use cq_tail::Direction;
use std::test::Fail;

/// What each call answers on a sealed queue.
const SEALED: Calls = &[
    (Call::New(4, 0), "open"),
    (Call::Append(0, "hello"), "0"),
    (Call::Append(0, "ab"), "1"),
    (Call::IsSealed, "open"),
    (Call::IsSealedForAppender, "open"),
    (Call::Begin(0, 5), "begun"),
    (Call::Put("abc"), "put"),
    (Call::IsSealed, "open"),
    (Call::Seal, "sealed"),
    (Call::IsSealed, "sealed"),
    (Call::IsSealed, "sealed"),
    // Nobody appends, however late the moment is, and no cycle begins.
    (Call::AppendByNew("x"), "Busy"),
    (Call::Renew, "new"),
    (Call::IsSealedForAppender, "sealed"),
    (Call::Append(0, "x"), "Busy"),
    (Call::Append(9 * DAY, "x"), "Busy"),
    (Call::Append(0, ""), "BadRoom"),
    (Call::Begin(0, 1), "Busy"),
    (Call::Begin(0, 0), "BadRoom"),
    (Call::Begin(0, 1_000_000), "Busy"),
    (Call::Advance(0), "cycle 0"),
    (Call::Advance(DAY), "Busy"),
    // Reads, takes and moves go on up to the end.
    (Call::Next, "0 hello"),
    (Call::Next, "1 ab"),
    (Call::Next, "NotYet"),
    (Call::Next, "NotYet"),
    (Call::ReadAt(0), "0 hello"),
    (Call::ReadAt(2), "NotYet"),
    (Call::Take("reader"), "0 hello"),
    (Call::Take("reader"), "1 ab"),
    (Call::Take("reader"), "NotYet"),
    (Call::Position("reader"), "at 2"),
    (Call::Seek("reader", 2, 1), "Done"),
    (Call::ToEnd, "end 2"),
    (Call::Turn(Direction::Backwards), "turned"),
    (Call::Next, "1 ab"),
    (Call::DropBefore(0), "floor 0"),
    (Call::Snapshot, "0[hello;ab;] "),
    // What was begun is in no list. What is opened again is not sealed.
    (Call::StopByOther, "0[hello;ab;] at [1]"),
    (Call::Reopen, "open"),
    (Call::IsSealed, "open"),
    (Call::Append(0, "x"), "2"),
    (Call::StopByOther, "0[hello;ab;x;] at [1]"),
    // A queue that was opened is sealed as a new one is, in its last cycle.
    (Call::Held(4, THREE_CYCLES, 1), "open"),
    (Call::Begin(0, 1), "begun"),
    (Call::Seal, "sealed"),
    (Call::AppendByNew("x"), "Busy"),
    (Call::Count, "3 read"),
    (Call::DropBefore(5), "floor 5"),
    (Call::Count, "0 read"),
    (Call::StopByOther, "0[hello;ab;] 5[] 9[z;] at [1] floor 5"),
    // So is one without a message, and one whose last cycle has just begun.
    (Call::New(2, 0), "open"),
    (Call::Begin(0, 1), "begun"),
    (Call::Seal, "sealed"),
    (Call::Next, "NotYet"),
    (Call::StopByOther, "0[] at [0]"),
    (Call::New(2, 0), "open"),
    (Call::Append(0, "a"), "0"),
    (Call::Begin(3 * DAY, 1), "begun"),
    (Call::Seal, "sealed"),
    (Call::AppendByNew("x"), "Busy"),
    (Call::Count, "1 read"),
    (Call::StopByOther, "0[a;] 3[] at [0]"),
    // A message that was begun and dropped seals nothing.
    (Call::New(4, 0), "open"),
    (Call::Begin(0, 5), "begun"),
    (Call::DropWriting, "dropped"),
    (Call::AppendByNew("x"), "Busy"),
    (Call::IsSealed, "open"),
];

/// A cycle in which one more message fits, of at most four bytes.
const ONE_FITS: Cycles = &[(
    3,
    &["a", "b", "c", "d", "e", "f", "g", "h", "i", "j", "k", "l"],
)];

/// Queues that are sealed without a message, since none can come. An append is refused there as before the seal, and never
/// `Busy`.
const SEALED_FULL: Calls = &[
    // All cycles have begun. Four bytes fit and five do not: the queue is not sealed, and the byte is appended.
    (Call::Held(1, ONE_FITS, 0), "open"),
    (Call::Append(0, "hello"), "CycleFull"),
    (Call::SealFull(9 * DAY), "12884901900"),
    (Call::IsSealed, "open"),
    // Now not one byte fits.
    (Call::SealFull(9 * DAY), "sealed"),
    (Call::IsSealed, "sealed"),
    (Call::IsSealedForAppender, "sealed"),
    (Call::Append(0, "x"), "CycleFull"),
    (Call::Append(3 * DAY, "x"), "CycleFull"),
    (Call::Append(9 * DAY, "x"), "NoCycleLeft"),
    (Call::Append(0, ""), "BadRoom"),
    (Call::Append(u64::MAX, "x"), "BadMoment"),
    (Call::Begin(0, 1), "CycleFull"),
    (Call::Begin(9 * DAY, 1), "NoCycleLeft"),
    (Call::Advance(0), "cycle 3"),
    (Call::Advance(9 * DAY), "NoCycleLeft"),
    (Call::AppendByNew("x"), "CycleFull"),
    (Call::Renew, "new"),
    (Call::IsSealedForAppender, "sealed"),
    // It is sealed once more.
    (Call::SealFull(4 * DAY), "sealed"),
    (Call::IsSealed, "sealed"),
    // Reads, takes and moves go on up to the end.
    (Call::Next, "12884901888 a"),
    (Call::Count, "12 read"),
    (Call::Next, "NotYet"),
    (Call::ReadAt(12884901900), "12884901900 a"),
    (Call::ReadAt(12884901901), "NotYet"),
    (Call::Take("reader"), "12884901888 a"),
    (Call::Take("reader"), "12884901889 b"),
    (Call::Seek("reader", 12884901890, 12884901900), "Done"),
    (Call::Take("reader"), "12884901900 a"),
    (Call::Take("reader"), "NotYet"),
    (Call::ToEnd, "end 12884901901"),
    (Call::Turn(Direction::Backwards), "turned"),
    (Call::Next, "12884901900 a"),
    (Call::DropBefore(3), "floor 3"),
    (Call::Snapshot, "3[a;b;c;d;e;f;g;h;i;j;k;l;a;] "),
    // What is opened again is full, and not sealed.
    (
        Call::Stop,
        "3[a;b;c;d;e;f;g;h;i;j;k;l;a;] at [12884901901] floor 3",
    ),
    (Call::Reopen, "open"),
    (Call::IsSealed, "open"),
    (Call::IsSealedForAppender, "open"),
    (Call::Append(0, "x"), "CycleFull"),
    (Call::Append(9 * DAY, "x"), "NoCycleLeft"),
    (Call::SealFull(9 * DAY), "sealed"),
    (Call::IsSealed, "sealed"),
    (Call::Next, "12884901888 a"),
    (
        Call::StopByOther,
        "3[a;b;c;d;e;f;g;h;i;j;k;l;a;] at [12884901901] floor 3",
    ),
    // Not one byte fits, but a cycle is left: the queue is not sealed, and the byte goes to that cycle.
    (Call::New(2, 0), "open"),
    (Call::AppendAll, "13 appended, CycleFull"),
    (Call::SealFull(0), "CycleFull"),
    (Call::IsSealed, "open"),
    (Call::SealFull(DAY), "4294967296"),
    (Call::IsSealed, "open"),
    // Neither is it where all cycles have begun and the last one has room.
    (Call::SealFull(9 * DAY), "4294967297"),
    (Call::IsSealed, "open"),
    (Call::AppendAll, "11 appended, CycleFull"),
    (Call::IsSealed, "open"),
    (Call::SealFull(9 * DAY), "sealed"),
    (Call::IsSealed, "sealed"),
    (Call::Count, "26 read"),
    (
        Call::StopByOther,
        "0[a;a;a;a;a;a;a;a;a;a;a;a;a;] 1[a;a;a;a;a;a;a;a;a;a;a;a;a;] at [0]",
    ),
    // Another caller writes the last message that fits, and gives it up. Then it writes that again, and completes it.
    (Call::Held(1, ONE_FITS, 0), "open"),
    (Call::Begin(0, 4), "begun"),
    (Call::Renew, "new"),
    (Call::SealFull(9 * DAY), "Busy"),
    (Call::SealFull(0), "Busy"),
    (Call::IsSealed, "open"),
    (Call::GiveUp, "given up"),
    (Call::Begin(0, 4), "begun"),
    (Call::Put("last"), "put"),
    (Call::Renew, "new"),
    (Call::SealFull(9 * DAY), "Busy"),
    (Call::Complete, "12884901900"),
    (Call::IsSealed, "open"),
    (Call::Renew, "new"),
    (Call::SealFull(9 * DAY), "sealed"),
    (Call::IsSealed, "sealed"),
    (Call::Count, "13 read"),
    (Call::StopByOther, "3[a;b;c;d;e;f;g;h;i;j;k;l;last;] at [0]"),
    // One that was sealed by a message is `Busy` for ever, although none fits after that message.
    (Call::Held(1, ONE_FITS, 0), "open"),
    (Call::Begin(0, 1), "begun"),
    (Call::Seal, "sealed"),
    (Call::Renew, "new"),
    (Call::SealFull(9 * DAY), "Busy"),
    (Call::IsSealed, "sealed"),
    (Call::Count, "12 read"),
    (Call::StopByOther, "3[a;b;c;d;e;f;g;h;i;j;k;l;] at [0]"),
];

#[test]
fn no_message_comes_to_a_sealed_queue(rt: HostRuntime) -> Result<(), Fail> {
    expect_lives(rt.alloc(), &[SEALED, SEALED_FULL])
}
