//! Reads into buffers.
use crate::calls::{Call, Calls, expect_calls};
use crate::new_queues::new_endpoint;
use cq_endpoint::Direction;
use cq_fixtures::DAY;
use std::alloc::Global;
use std::test::Fail;

/// Calls of an endpoint of a new queue with four cycles of 64 cells, each of a day, and the name "reader".
static BUFFERS: [Calls; 7] = [
    // Buffers that are too small, of the very length, and longer, both ways. If the buffer was too small, it reads
    // the same again.
    &[
        (Call::Append(0, "hello"), "0"),
        (Call::Append(0, "ab"), "1"),
        (Call::Append(0, "four"), "2"),
        (Call::NextInto(4), "NoRoom(5) [....]"),
        (Call::NextInto(0), "NoRoom(5) []"),
        (Call::NextInto(5), "0 5 [hello]"),
        (Call::NextInto(6), "1 2 [ab....]"),
        (Call::NextInto(4), "2 4 [four]"),
        (Call::NextInto(3), "NotYet [...]"),
        (Call::Turn(Direction::Backwards), "turned"),
        (Call::NextInto(3), "NoRoom(4) [...]"),
        (Call::NextInto(7), "2 4 [four...]"),
        (Call::NextInto(1), "NoRoom(2) [.]"),
        (Call::Cursor, "at 2"),
        (Call::SeenEnd, "end 3"),
        (Call::NextInto(2), "1 2 [ab]"),
        (Call::NextInto(9), "0 5 [hello....]"),
        (Call::NextInto(2), "BeforeStart [..]"),
    ],
    // What is at an index.
    &[
        (Call::Append(0, "hello"), "0"),
        (Call::ReadAtInto(0, 4), "NoRoom(5) [....]"),
        (Call::ReadAtInto(0, 5), "5 [hello]"),
        (Call::ReadAtInto(0, 8), "5 [hello...]"),
        (Call::ReadAtInto(1, 2), "NotYet [..]"),
        (Call::Advance(DAY), "cycle 1"),
        (Call::ReadAtInto(1, 2), "Never [..]"),
        (Call::ToEnd, "end 4294967296"),
        (Call::DropBefore(1), "floor 1"),
        (Call::ReadAtInto(0, 5), "Gone [hello]"),
        (Call::ReadAtInto(1, 2), "Gone [..]"),
    ],
    // If the message that comes first was dropped, the buffer may have bytes of it after those of the one that is
    // read.
    &[
        (Call::Append(0, "hello"), "0"),
        (Call::Append(DAY, "c"), "4294967296"),
        (Call::ToEnd, "end 4294967297"),
        (Call::DropBefore(1), "floor 1"),
        (Call::ToStart, "start"),
        (Call::NextInto(7), "4294967296 1 [cello..]"),
        (Call::NextInto(7), "NotYet [.......]"),
        (Call::Turn(Direction::Backwards), "turned"),
        (Call::NextInto(1), "4294967296 1 [c]"),
        (Call::NextInto(6), "BeforeStart [hello.]"),
    ],
    // A buffer that is too small for a message whose cycle was dropped: reads go on, or return that nothing is there.
    &[
        (Call::Append(0, "hello"), "0"),
        (Call::Append(DAY, "c"), "4294967296"),
        (Call::ReadAtInto(0, 1), "NoRoom(5) [.]"),
        (Call::NextInto(1), "NoRoom(5) [.]"),
        (Call::TakeInto("reader", 1), "NoRoom(5) [.]"),
        (Call::ToEnd, "end 4294967297"),
        (Call::DropBefore(1), "floor 1"),
        (Call::ToStart, "start"),
        (Call::NextInto(0), "NoRoom(1) []"),
        (Call::NextInto(1), "4294967296 1 [c]"),
        (Call::TakeInto("reader", 0), "NoRoom(1) []"),
        (Call::Position("reader"), "at 0"),
        (Call::TakeInto("reader", 1), "4294967296 1 [c]"),
        (Call::Position("reader"), "at 4294967297"),
        (Call::ReadAtInto(0, 1), "Gone [.]"),
        (Call::ReadAtInto(4294967296, 0), "NoRoom(1) []"),
        (Call::Turn(Direction::Backwards), "turned"),
        (Call::NextInto(0), "NoRoom(1) []"),
        (Call::NextInto(1), "4294967296 1 [c]"),
        (Call::NextInto(1), "BeforeStart [.]"),
        (Call::Cursor, "at 4294967296"),
        (Call::SeenEnd, "end 4294967297"),
    ],
    // Backwards into buffers after a read backwards that takes memory, on into a cycle over which no read has walked yet.
    &[
        (Call::Append(0, "a"), "0"),
        (Call::Append(0, "ab"), "1"),
        (Call::Append(DAY, "c"), "4294967296"),
        (Call::Append(DAY, "cd"), "4294967297"),
        (Call::ToEnd, "end 4294967298"),
        (Call::Turn(Direction::Backwards), "turned"),
        (Call::Next, "4294967297 cd"),
        (Call::NextInto(2), "4294967296 1 [c.]"),
        (Call::NextInto(2), "1 2 [ab]"),
        (Call::NextInto(2), "0 1 [a.]"),
        (Call::NextInto(2), "BeforeStart [..]"),
    ],
    // As many messages as a cycle holds, the next one always a byte longer, backwards into one length, with places that
    // are kept and that are not.
    &[
        (Call::Append(0, "a"), "0"),
        (Call::Append(0, "ab"), "1"),
        (Call::Append(0, "abc"), "2"),
        (Call::Append(0, "abcd"), "3"),
        (Call::Append(0, "abcde"), "4"),
        (Call::Append(0, "abcdef"), "5"),
        (Call::ToEnd, "end 6"),
        (Call::Turn(Direction::Backwards), "turned"),
        (Call::NextInto(6), "5 6 [abcdef]"),
        (Call::Cursor, "at 5"),
        (Call::SeenEnd, "end 6"),
        (Call::NextInto(6), "4 5 [abcde.]"),
        (Call::Cursor, "at 4"),
        (Call::SeenEnd, "end 6"),
        (Call::NextInto(6), "3 4 [abcd..]"),
        (Call::Cursor, "at 3"),
        (Call::SeenEnd, "end 6"),
        (Call::NextInto(6), "2 3 [abc...]"),
        (Call::Cursor, "at 2"),
        (Call::SeenEnd, "end 6"),
        (Call::NextInto(6), "1 2 [ab....]"),
        (Call::Cursor, "at 1"),
        (Call::SeenEnd, "end 6"),
        (Call::NextInto(6), "0 1 [a.....]"),
        (Call::Cursor, "at 0"),
        (Call::SeenEnd, "end 6"),
        (Call::NextInto(6), "BeforeStart [......]"),
        (Call::Cursor, "at 0"),
        (Call::SeenEnd, "end 6"),
    ],
    // If the buffer is too small, the name stays.
    &[
        (Call::TakeInto("reader", 4), "NotYet [....]"),
        (Call::Append(0, "hello"), "0"),
        (Call::TakeInto("reader", 4), "NoRoom(5) [....]"),
        (Call::Position("reader"), "at 0"),
        (Call::TakeInto("reader", 6), "0 5 [hello.]"),
        (Call::Position("reader"), "at 1"),
        (Call::TakeInto("reader", 6), "NotYet [......]"),
        (Call::TakeInto("other", 6), "NoSuchName [......]"),
    ],
];

/// Makes the calls of the endpoint of `new_endpoint`. Fails if one of them does not return what is wanted.
fn expect_new(alloc: Global, row: &str, calls: Calls) -> Result<(), Fail> {
    let mut endpoint = new_endpoint(alloc)?;
    expect_calls(alloc, row, &mut endpoint, calls)
}

/// Makes the calls of each row. Fails if one of them does not return what is wanted.
pub fn expect_rows(alloc: Global, rows: &[Calls]) -> Result<(), Fail> {
    for (number, calls) in rows.iter().enumerate() {
        let row = format!(in alloc; "row {number}")?;
        expect_new(alloc, row.as_str(), calls)?;
    }
    Ok(())
}

#[test]
fn endpoints_read_into_rooms(rt: HostRuntime) -> Result<(), Fail> {
    expect_rows(rt.alloc(), &BUFFERS)
}
