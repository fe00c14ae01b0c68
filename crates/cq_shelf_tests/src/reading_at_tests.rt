//! Messages of a shelf that are read by their positions.
use crate::calls::Call;
use crate::lives::{Life, Who, expect_lives};
use cq_fixtures::DAY;
use cq_shelf::AtLimit;
use std::test::Fail;

static LIVES: [Life; 2] = [
    // In its own queue, in later ones, in earlier ones that are kept, and in queues that are freed.
    Life {
        cycles: 1,
        most: 3,
        at_limit: AtLimit::Refuse,
        calls: &[
            (Who::First, Call::NewReader, "made"),
            (Who::Second, Call::ReadAt(0, 0, 0), "NotYet"),
            (Who::Second, Call::ReadAtInto(0, 0, 0, 1), "NotYet [.]"),
            (Who::First, Call::AppendMany(0, 13), "0: 0.12"),
            (Who::First, Call::Append(0, "b"), "1: 0.0"),
            (Who::First, Call::AppendMany(0, 12), "1: 0.12"),
            (Who::First, Call::Append(0, "c"), "2: 0.0"),
            (Who::Second, Call::ReadAt(0, 0, 3), "0: 0.3 a"),
            (Who::Second, Call::ReadAt(1, 0, 0), "1: 0.0 b"),
            (Who::Second, Call::ReadAt(2, 0, 0), "2: 0.0 c"),
            (Who::Second, Call::ReadAt(2, 0, 1), "NotYet"),
            (Who::Second, Call::ReadAt(3, 0, 0), "NotYet"),
            (Who::Second, Call::ReadAt(0, 0, 13), "Never"),
            (Who::Second, Call::ReadAt(1, 0, 13), "Never"),
            (Who::Second, Call::ReadAt(1, 1, 0), "Never"),
            (Who::Second, Call::ReadAtInto(0, 0, 3, 1), "0: 0.3 1 [a]"),
            (Who::Second, Call::ReadAtInto(0, 0, 3, 0), "NoRoom(1) []"),
            (Who::Second, Call::ReadAtInto(1, 0, 0, 3), "1: 0.0 1 [b..]"),
            (Who::Second, Call::ReadAtInto(1, 0, 0, 0), "NoRoom(1) []"),
            (Who::Second, Call::ReadAtInto(2, 0, 1, 1), "NotYet [.]"),
            (Who::Second, Call::ReadAtInto(3, 0, 0, 1), "NotYet [.]"),
            (Who::Second, Call::ReadAtInto(0, 0, 13, 1), "Never [.]"),
            (Who::Second, Call::ReadAtInto(1, 0, 13, 1), "Never [.]"),
            (Who::Second, Call::ReaderPosition, "0: 0.0"),
            // The name keeps the first queue.
            (Who::Second, Call::ToEnd, "end"),
            (Who::Second, Call::ReadAt(0, 0, 0), "0: 0.0 a"),
            (Who::Second, Call::ReadAtInto(0, 0, 0, 2), "0: 0.0 1 [a.]"),
            (Who::First, Call::NewTaker("reader"), "made"),
            (Who::Second, Call::CountTaken, "27 taken, NotYet"),
            (Who::First, Call::Living, "1 live"),
            (Who::Second, Call::ReadAt(0, 0, 0), "Gone"),
            (Who::Second, Call::ReadAt(1, 0, 0), "Gone"),
            (Who::Second, Call::ReadAt(1, 0, 13), "Gone"),
            (Who::Second, Call::ReadAtInto(1, 0, 0, 1), "Gone [.]"),
            (Who::Second, Call::ReadAt(2, 0, 0), "2: 0.0 c"),
            (Who::Second, Call::ReadAt(2, 0, 1), "NotYet"),
            (Who::First, Call::Close, "closed"),
            (Who::Second, Call::ReadAt(0, 0, 0), "Gone"),
            (Who::Second, Call::ReadAtInto(0, 0, 0, 1), "Gone [.]"),
            (Who::Second, Call::ReadAt(2, 0, 0), "2: 0.0 c"),
            (Who::Second, Call::ReadAt(2, 0, 1), "Never"),
            (Who::Second, Call::ReadAt(3, 0, 0), "Never"),
            (Who::Second, Call::ReadAtInto(2, 0, 1, 1), "Never [.]"),
            (Who::Second, Call::ReadAtInto(3, 0, 0, 1), "Never [.]"),
            (Who::Second, Call::ReaderPosition, "2: 0.1"),
        ],
    },
    // In cycles that are over, in the current one, and in later ones.
    Life {
        cycles: 2,
        most: 3,
        at_limit: AtLimit::Refuse,
        calls: &[
            (Who::First, Call::NewReader, "made"),
            (Who::First, Call::Append(0, "a"), "0: 0.0"),
            (Who::Second, Call::ReadAt(0, 3, 0), "NotYet"),
            (Who::First, Call::Append(3 * DAY, "b"), "0: 3.0"),
            (Who::Second, Call::ReadAt(0, 0, 1), "Never"),
            (Who::Second, Call::ReadAt(0, 1, 0), "Never"),
            (Who::Second, Call::ReadAt(0, 3, 1), "NotYet"),
            (Who::Second, Call::ReadAt(0, 4, 0), "NotYet"),
            (Who::First, Call::Append(5 * DAY, "c"), "1: 5.0"),
            (Who::Second, Call::ReadAt(0, 3, 0), "0: 3.0 b"),
            (Who::Second, Call::ReadAt(0, 3, 1), "Never"),
            (Who::Second, Call::ReadAt(0, 4, 0), "Never"),
            (Who::Second, Call::ReadAt(1, 5, 0), "1: 5.0 c"),
            (Who::Second, Call::ReadAt(1, 4, 0), "Never"),
            (Who::Second, Call::ReadAt(1, 5, 1), "NotYet"),
            (Who::Second, Call::ReadAt(1, 8, 0), "NotYet"),
            (Who::Second, Call::ToEnd, "end"),
            (Who::Second, Call::ReadAt(0, 0, 0), "0: 0.0 a"),
            (Who::Second, Call::ReadAt(0, 1, 0), "Never"),
            (Who::Second, Call::ReadAt(0, 4, 0), "Never"),
            (Who::Second, Call::ReadAt(1, 8, 0), "NotYet"),
        ],
    },
];

#[test]
fn messages_are_read_by_their_positions(rt: HostRuntime) -> Result<(), Fail> {
    expect_lives(rt.alloc(), &LIVES)
}
