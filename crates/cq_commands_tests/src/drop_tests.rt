//! What `drop` does and prints, and what reads and takes return after it.
use crate::steps::Step::{
    self, Back, BackFrom, Check, Config, Drop, Length, PutConfig, Queue, Read, ReadFrom, Take,
    Write,
};
use crate::steps::{
    AT_START, Failing, Steps, TWO_CYCLES, WRITES_HELLO_WORLD, expect, expect_each, expect_failing,
};
use cq_fixtures::DAY;
use std::test::Fail;

/// A floor above the last cycle, which is 20005.
const FLOOR_20006: &str =
    "cq 2\nroll daily\nepoch 0\ncells 64\ncount 8\nspacing 1\ncycles 4\nfloor 20006\n\
name reader 85920820756481\n";

static RETAINED: [(Step, &str); 12] = [
    (Queue(4), ""),
    WRITES_HELLO_WORLD,
    (Take("reader"), "00004e2000000000 hello\n"),
    (Write(1_728_432_000_000, b"new\n"), "00004e2500000000\n"),
    (Drop(20_009), "20005\n"),
    (
        Config,
        "cq 2\nroll daily\nepoch 0\ncells 64\ncount 8\nspacing 1\ncycles 4\nfloor 20005\nname reader 85899345920001\n",
    ),
    (Read, "00004e2500000000 new\n"),
    (Take("reader"), "00004e2500000000 new\n"),
    (
        Config,
        "cq 2\nroll daily\nepoch 0\ncells 64\ncount 8\nspacing 1\ncycles 4\nfloor 20005\nname reader 85920820756481\n",
    ),
    (
        Check,
        "20241004.cqi: 2 messages, ended\n20241009.cqi: 1 messages, open\n",
    ),
    (PutConfig(FLOOR_20006), ""),
    (Read, "cq: BadContents"),
];

/// With "a" in cycle 0, "b" in cycle 5, and "c" in cycle 7.
static RAISED: [(Step, &str); 21] = [
    (Queue(4), ""),
    (Write(0, b"a\n"), "0000000000000000\n"),
    (Write(5 * DAY, b"b\n"), "0000000500000000\n"),
    (Write(7 * DAY, b"c\n"), "0000000700000000\n"),
    (Drop(0), "0\n"),
    (Config, AT_START),
    // No cycle 3 has begun.
    (Drop(3), "3\n"),
    (Read, "0000000500000000 b\n0000000700000000 c\n"),
    (Drop(5), "5\n"),
    (Back, "0000000700000000 c\n0000000500000000 b\n"),
    (Drop(6), "6\n"),
    // It never sinks.
    (Drop(5), "6\n"),
    (Drop(0), "6\n"),
    (ReadFrom("0000000000000001"), "0000000700000000 c\n"),
    (Back, "0000000700000000 c\n"),
    (BackFrom("0000000700000000"), ""),
    // It is kept along with what is written and taken.
    (Write(7 * DAY, b"d\n"), "0000000700000001\n"),
    (Take("reader"), "0000000700000000 c\n"),
    (Drop(u64::MAX), "7\n"),
    (
        Config,
        "cq 2\nroll daily\nepoch 0\ncells 64\ncount 8\nspacing 1\ncycles 4\nfloor 7\nname reader 30064771073\n",
    ),
    (
        Check,
        "19700101.cqi: 1 messages, ended\n19700106.cqi: 1 messages, ended\n19700108.cqi: 2 messages, open\n",
    ),
];

static NOTHING: [(Step, &str); 4] = [
    (Queue(4), ""),
    (Drop(0), "0\n"),
    (Drop(20_009), "0\n"),
    (Config, AT_START),
];

#[test]
fn raises_the_floor_and_never_lowers_it(rt: HostRuntime) -> Result<(), Fail> {
    expect(rt.alloc(), &RETAINED)?;
    expect(rt.alloc(), &RAISED)?;
    expect(rt.alloc(), &NOTHING)
}

/// A floor at cycle 1.
const FLOOR_1: &str =
    "cq 2\nroll daily\nepoch 0\ncells 64\ncount 8\nspacing 1\ncycles 4\nfloor 1\nname reader 0\n";

/// A floor without an image, and one above the last cycle: all commands that open a queue refuse them and leave all
/// files as they were. The last cycle itself can be the floor, and `check` does not check floors.
static HELD: [Steps; 3] = [
    &[
        (Queue(4), ""),
        (PutConfig(FLOOR_1), ""),
        (Write(u64::MAX, b"\n"), "cq: BadContents"),
        (Read, "cq: BadContents"),
        (Take("nobody"), "cq: BadContents"),
        (Drop(1), "cq: BadContents"),
        (Config, FLOOR_1),
        (Length("19700101.cqi"), "0"),
    ],
    &[
        (Queue(4), ""),
        (Write(0, b"a\n"), "0000000000000000\n"),
        (PutConfig(FLOOR_1), ""),
        (Write(u64::MAX, b"\n"), "cq: BadContents"),
        (Read, "cq: BadContents"),
        (Take("nobody"), "cq: BadContents"),
        (Drop(1), "cq: BadContents"),
        (Config, FLOOR_1),
        (Check, "19700101.cqi: 1 messages, open\n"),
    ],
    &[
        (Queue(4), ""),
        (Write(DAY, b"a\n"), "0000000100000000\n"),
        (PutConfig(FLOOR_1), ""),
        (Read, "0000000100000000 a\n"),
        (Take("reader"), "0000000100000000 a\n"),
        (Drop(0), "1\n"),
    ],
];

#[test]
fn opens_no_floor_that_a_queue_cannot_have(rt: HostRuntime) -> Result<(), Fail> {
    expect_each(rt.alloc(), &HELD)
}

/// After `queue.cqc` it reads both images, and then writes `queue.cqc`.
static FAILING: Failing = Failing {
    before: TWO_CYCLES,
    step: Drop(1),
    after: &[Config],
    files: &["queue.cqc", "19700101.cqi", "19700102.cqi", "queue.cqc"],
    kept: AT_START,
    done: "1\n",
    left: FLOOR_1,
};

#[test]
fn drop_passes_each_folder_fault_on(rt: HostRuntime) -> Result<(), Fail> {
    expect_failing(rt.alloc(), &FAILING)
}
