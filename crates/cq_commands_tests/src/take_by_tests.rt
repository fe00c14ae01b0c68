//! What `take` with options does and prints.
use crate::images::ENDED;
use crate::steps::Step::{
    self, Bytes, Config, Drop, Init, OldQueue, Peek, Put, Queue, Take, TakeUpTo, UnprintedPeek,
    UnprintedTakeTwo, Write,
};
use crate::steps::{AT_START, Failing, TWO_CYCLES, expect, expect_failing};
use cq_fixtures::DAY;
use std::test::Fail;

/// A queue of four cycles whose name is at position 1.
const AT_1: &str =
    "cq 2\nroll daily\nepoch 0\ncells 64\ncount 8\nspacing 1\ncycles 4\nname reader 1\n";

/// The same at position 3.
const AT_3: &str =
    "cq 2\nroll daily\nepoch 0\ncells 64\ncount 8\nspacing 1\ncycles 4\nname reader 3\n";

/// The same at position 4.
const AT_4: &str =
    "cq 2\nroll daily\nepoch 0\ncells 64\ncount 8\nspacing 1\ncycles 4\nname reader 4\n";

/// Limits of 0, 1 and 2, what is left of a limit, and one that is more than there is.
static LIMITS: [(Step, &str); 17] = [
    (Queue(4), ""),
    (TakeUpTo("reader", 2), "nothing"),
    (TakeUpTo("nobody", 2), "cq: NoSuchName"),
    (Config, AT_START),
    (
        Write(0, b"a\nb\nc\n"),
        "0000000000000000\n0000000000000001\n0000000000000002\n",
    ),
    (TakeUpTo("reader", 0), "nothing"),
    (TakeUpTo("nobody", 0), "cq: NoSuchName"),
    (Config, AT_START),
    (TakeUpTo("reader", 1), "0000000000000000 a\n"),
    (Config, AT_1),
    (
        TakeUpTo("reader", 2),
        "0000000000000001 b\n0000000000000002 c\n",
    ),
    (Config, AT_3),
    (TakeUpTo("reader", u64::MAX), "nothing"),
    (Write(0, b"d\n"), "0000000000000003\n"),
    (TakeUpTo("reader", u64::MAX), "0000000000000003 d\n"),
    (Config, AT_4),
    (TakeUpTo("nobody", 1), "cq: NoSuchName"),
];

/// What is looked at stays, and is what is taken next.
static LOOKS: [(Step, &str); 15] = [
    (Queue(4), ""),
    (Peek("reader", None), "nothing"),
    (Peek("nobody", None), "cq: NoSuchName"),
    (
        Write(0, b"a\nb\nc\n"),
        "0000000000000000\n0000000000000001\n0000000000000002\n",
    ),
    (Peek("reader", None), "0000000000000000 a\n"),
    (Peek("reader", Some(0)), "nothing"),
    (
        Peek("reader", Some(2)),
        "0000000000000000 a\n0000000000000001 b\n",
    ),
    (
        Peek("reader", Some(u64::MAX)),
        "0000000000000000 a\n0000000000000001 b\n0000000000000002 c\n",
    ),
    (Config, AT_START),
    (Take("reader"), "0000000000000000 a\n"),
    (Peek("reader", None), "0000000000000001 b\n"),
    (Config, AT_1),
    (
        TakeUpTo("reader", 3),
        "0000000000000001 b\n0000000000000002 c\n",
    ),
    (Peek("reader", Some(1)), "nothing"),
    (Config, AT_3),
];

/// Over rolls and a dropped cycle, and each name apart: a take of three is three takes.
static TWO_NAMES: [(Step, &str); 18] = [
    (Init("daily", 0, 64, 4, &["one", "other"]), ""),
    (Write(DAY, b"a\n"), "0000000100000000\n"),
    (
        Write(3 * DAY, b"b\nc\n"),
        "0000000300000000\n0000000300000001\n",
    ),
    (Write(7 * DAY, b"d\n"), "0000000700000000\n"),
    (
        TakeUpTo("one", 3),
        "0000000100000000 a\n0000000300000000 b\n0000000300000001 c\n",
    ),
    (
        Config,
        "cq 2\nroll daily\nepoch 0\ncells 64\ncount 8\nspacing 1\ncycles 4\nname one 12884901890\nname other 0\n",
    ),
    (Take("other"), "0000000100000000 a\n"),
    (Take("other"), "0000000300000000 b\n"),
    (Take("other"), "0000000300000001 c\n"),
    (
        Config,
        "cq 2\nroll daily\nepoch 0\ncells 64\ncount 8\nspacing 1\ncycles 4\nname one 12884901890\nname other 12884901890\n",
    ),
    (Write(8 * DAY, b"e\n"), "0000000800000000\n"),
    (Drop(8), "8\n"),
    (Peek("one", Some(9)), "0000000800000000 e\n"),
    (TakeUpTo("one", 9), "0000000800000000 e\n"),
    (
        Config,
        "cq 2\nroll daily\nepoch 0\ncells 64\ncount 8\nspacing 1\ncycles 4\nfloor 8\nname one 34359738369\nname other 12884901890\n",
    ),
    (Take("one"), "not yet\n"),
    (Peek("one", None), "nothing"),
    (Peek("other", None), "0000000800000000 e\n"),
];

/// What cannot be written is taken all the same, and looked at as before.
static UNPRINTED: [(Step, &str); 7] = [
    (Queue(4), ""),
    (
        Write(0, b"a\nb\nc\n"),
        "0000000000000000\n0000000000000001\n0000000000000002\n",
    ),
    (UnprintedPeek, "cq: write fault"),
    (Config, AT_START),
    (UnprintedTakeTwo, "cq: write fault"),
    (TakeUpTo("reader", 2), "0000000000000002 c\n"),
    (UnprintedTakeTwo, ""),
];

/// A folder of version 1 is looked at, and not taken from.
static OLD: [(Step, &str); 5] = [
    (OldQueue(4), ""),
    (TakeUpTo("reader", 1), "cq: OldVersion"),
    (Peek("reader", None), "nothing"),
    (Put("19700101.cqi", ENDED), ""),
    (Peek("reader", None), "cq: 19700101.cqi: wrong end"),
];

#[test]
fn takes_as_many_as_the_limit_says(rt: HostRuntime) -> Result<(), Fail> {
    expect(rt.alloc(), &LIMITS)?;
    expect(rt.alloc(), &TWO_NAMES)
}

#[test]
fn looks_and_takes_nothing(rt: HostRuntime) -> Result<(), Fail> {
    expect(rt.alloc(), &LOOKS)?;
    expect(rt.alloc(), &OLD)
}

#[test]
fn a_take_is_saved_before_it_is_printed(rt: HostRuntime) -> Result<(), Fail> {
    expect(rt.alloc(), &UNPRINTED)
}

/// The name after both messages.
const AFTER_BOTH: &str =
    "cq 2\nroll daily\nepoch 0\ncells 64\ncount 8\nspacing 1\ncycles 4\nname reader 4294967297\n";

/// After `queue.cqc` it reads both images, and then writes `queue.cqc` once.
static FAILING: Failing = Failing {
    before: TWO_CYCLES,
    step: TakeUpTo("reader", 3),
    after: &[Config],
    files: &["queue.cqc", "19700101.cqi", "19700102.cqi", "queue.cqc"],
    kept: AT_START,
    done: "0000000000000000 hello\n0000000100000000 a\n",
    left: AFTER_BOTH,
};

#[test]
fn a_take_of_many_passes_each_folder_fault_on(rt: HostRuntime) -> Result<(), Fail> {
    expect_failing(rt.alloc(), &FAILING)
}

/// It reads `queue.cqc` and both images, and writes nothing.
static LOOK_FAILING: Failing = Failing {
    before: TWO_CYCLES,
    step: Peek("reader", Some(3)),
    after: &[Config],
    files: &["queue.cqc", "19700101.cqi", "19700102.cqi"],
    kept: AT_START,
    done: "0000000000000000 hello\n0000000100000000 a\n",
    left: AT_START,
};

#[test]
fn a_look_passes_each_folder_fault_on(rt: HostRuntime) -> Result<(), Fail> {
    expect_failing(rt.alloc(), &LOOK_FAILING)
}
