//! Takers of a shelf, and the name that they take by.
use crate::calls::Call;
use crate::lives::{Life, Who, expect_lives};
use cq_shelf::AtLimit;
use std::test::Fail;

static LIVES: [Life; 4] = [
    // A name keeps its queue although no taker is there, and a new taker goes on from where it is.
    Life {
        cycles: 1,
        most: 2,
        at_limit: AtLimit::Refuse,
        calls: &[
            (Who::First, Call::NewTaker("other"), "NoSuchName"),
            (Who::First, Call::NewTaker(""), "NoSuchName"),
            (Who::First, Call::AppendMany(0, 26), "1: 0.12"),
            (Who::First, Call::Append(0, "b"), "Full"),
            (Who::First, Call::Living, "2 live"),
            (Who::First, Call::NewTaker("reader"), "made"),
            (Who::Second, Call::TakerPosition, "0: 0.0"),
            (Who::Second, Call::Take, "0: 0.0 a"),
            (Who::Second, Call::Take, "0: 0.1 a"),
            (Who::Second, Call::TakerPosition, "0: 0.2"),
            (Who::Second, Call::DropTaker, "dropped"),
            (Who::First, Call::Living, "2 live"),
            (Who::First, Call::Append(0, "b"), "Full"),
            (Who::First, Call::NewTaker("reader"), "made"),
            (Who::Second, Call::TakerPosition, "0: 0.2"),
            (Who::Second, Call::TakeInto(0), "NoRoom(1) []"),
            (Who::Second, Call::TakerPosition, "0: 0.2"),
            (Who::Second, Call::TakeInto(2), "0: 0.2 1 [a.]"),
            (Who::Second, Call::CountTaken, "23 taken, NotYet"),
            (Who::Second, Call::TakeInto(1), "NotYet [.]"),
            (Who::Second, Call::TakerPosition, "1: 0.13"),
            (Who::First, Call::Living, "1 live"),
            (Who::First, Call::Append(0, "b"), "2: 0.0"),
            (Who::Second, Call::DropTaker, "dropped"),
            (Who::First, Call::Living, "2 live"),
            (Who::First, Call::NewTaker("reader"), "made"),
            (Who::Second, Call::TakerPosition, "1: 0.13"),
            (Who::Second, Call::Take, "2: 0.0 b"),
            (Who::Second, Call::TakerPosition, "2: 0.1"),
            (Who::Second, Call::Take, "NotYet"),
            (Who::First, Call::Living, "1 live"),
        ],
    },
    // Two takers of one name take in turn. Each message is taken once.
    Life {
        cycles: 1,
        most: 3,
        at_limit: AtLimit::Refuse,
        calls: &[
            (Who::First, Call::NewTaker("reader"), "made"),
            (Who::Second, Call::SplitTaker, "made"),
            (Who::First, Call::AppendMany(0, 13), "0: 0.12"),
            (Who::First, Call::Append(0, "b"), "1: 0.0"),
            (Who::First, Call::Take, "0: 0.0 a"),
            (Who::Second, Call::Take, "0: 0.1 a"),
            (Who::Second, Call::TakeInto(1), "0: 0.2 1 [a]"),
            (Who::First, Call::Take, "0: 0.3 a"),
            (Who::Second, Call::CountTaken, "10 taken, NotYet"),
            (Who::Second, Call::TakerPosition, "1: 0.1"),
            // The first one is at the first queue yet, and keeps it.
            (Who::First, Call::TakerPosition, "0: 0.13"),
            (Who::First, Call::Living, "2 live"),
            (Who::First, Call::Take, "NotYet"),
            (Who::First, Call::TakerPosition, "1: 0.1"),
            (Who::First, Call::Living, "1 live"),
            (Who::First, Call::Append(0, "c"), "1: 0.1"),
            (Who::First, Call::Append(0, "d"), "1: 0.2"),
            (Who::First, Call::Take, "1: 0.1 c"),
            (Who::Second, Call::TakeInto(1), "1: 0.2 1 [d]"),
            (Who::Second, Call::Take, "NotYet"),
            (Who::First, Call::TakeInto(0), "NotYet []"),
        ],
    },
    // A taker that is late is split off. The other one begins where the name is.
    Life {
        cycles: 1,
        most: 3,
        at_limit: AtLimit::Refuse,
        calls: &[
            (Who::First, Call::NewTaker("reader"), "made"),
            (Who::Second, Call::SplitTaker, "made"),
            (Who::First, Call::AppendMany(0, 14), "1: 0.0"),
            (Who::Second, Call::CountTaken, "14 taken, NotYet"),
            (Who::First, Call::AppendMany(0, 2), "1: 0.2"),
            (Who::First, Call::SplitTaker, "made"),
            (Who::Second, Call::TakerPosition, "1: 0.1"),
            (Who::Second, Call::Take, "1: 0.1 a"),
            (Who::First, Call::Living, "2 live"),
            (Who::First, Call::DropTaker, "dropped"),
            (Who::First, Call::Living, "1 live"),
            (Who::Second, Call::Take, "1: 0.2 a"),
        ],
    },
    // Readers do not move a name, and takers move no reader.
    Life {
        cycles: 1,
        most: 2,
        at_limit: AtLimit::Refuse,
        calls: &[
            (Who::First, Call::NewReader, "made"),
            (Who::First, Call::NewTaker("reader"), "made"),
            (Who::First, Call::AppendMany(0, 2), "0: 0.1"),
            (Who::Second, Call::Count, "2 read, NotYet"),
            (Who::Second, Call::TakerPosition, "0: 0.0"),
            (Who::Second, Call::CountTaken, "2 taken, NotYet"),
            (Who::Second, Call::ToStart, "start"),
            (Who::Second, Call::Count, "2 read, NotYet"),
            (Who::Second, Call::TakerPosition, "0: 0.2"),
        ],
    },
];

#[test]
fn takers_share_a_name(rt: HostRuntime) -> Result<(), Fail> {
    expect_lives(rt.alloc(), &LIVES)
}
