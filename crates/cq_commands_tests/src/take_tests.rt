//! What `take` does and prints, and which contents are opened.
use crate::steps::Step::{
    self, Back, Check, Config, Dump, Init, Length, PutConfig, Queue, Read, Take, Write,
};
use crate::steps::{
    AFTER_HELLO, AT_START, Failing, Steps, TWO_CYCLES, WRITES_HELLO_WORLD, expect, expect_each,
    expect_failing,
};
use cq_fixtures::DAY;
use std::test::Fail;

static ONCE: [(Step, &str); 8] = [
    (Queue(4), ""),
    WRITES_HELLO_WORLD,
    (Take("reader"), "00004e2000000000 hello\n"),
    (Config, AFTER_HELLO),
    (Take("reader"), "00004e2000000001 world\n"),
    (Take("reader"), "not yet\n"),
    (
        Config,
        "cq 2\nroll daily\nepoch 0\ncells 64\ncount 8\nspacing 1\ncycles 4\nname reader 85899345920002\n",
    ),
    (Take("nobody"), "cq: NoSuchName"),
];

static NOTHING: [(Step, &str); 4] = [
    (Queue(4), ""),
    (Take("reader"), "not yet\n"),
    (Take("nobody"), "cq: NoSuchName"),
    (Config, AT_START),
];

/// A queue of four cycles whose name is at position 1.
const AT_1: &str =
    "cq 2\nroll daily\nepoch 0\ncells 64\ncount 8\nspacing 1\ncycles 4\nname reader 1\n";

/// The same at position 2.
const AT_2: &str =
    "cq 2\nroll daily\nepoch 0\ncells 64\ncount 8\nspacing 1\ncycles 4\nname reader 2\n";

/// A queue of one cycle.
const OF_1: &str =
    "cq 2\nroll daily\nepoch 0\ncells 64\ncount 8\nspacing 1\ncycles 1\nname reader 0\n";

/// A position without an image, one above the end, and more images than cycles. `write`, `read` and `take` all refuse
/// them before they check what they were given, and leave all files as they were. The end itself is a position.
static HELD: [Steps; 4] = [
    &[
        (Queue(4), ""),
        (PutConfig(AT_1), ""),
        (Write(u64::MAX, b"\n"), "cq: BadContents"),
        (Read, "cq: BadContents"),
        (Take("nobody"), "cq: BadContents"),
        (Config, AT_1),
        (Length("19700101.cqi"), "0"),
    ],
    &[
        (Queue(4), ""),
        (Write(0, b"a\n"), "0000000000000000\n"),
        (PutConfig(AT_2), ""),
        (Write(u64::MAX, b"\n"), "cq: BadContents"),
        (Read, "cq: BadContents"),
        (Take("nobody"), "cq: BadContents"),
        (Config, AT_2),
        (
            Dump("19700101.cqi"),
            "00000000 40000024 store 2 0 8 1 64 0 86400000\n00000028 40000020 top 76 0 0 0 0 0 0 0\n\
0000004c 40000020 table 0 112 0 0 0 0 0 0 0\n00000070 00000001 data 0 61\n",
        ),
    ],
    &[
        (Queue(4), ""),
        (Write(0, b"a\n"), "0000000000000000\n"),
        (Write(DAY, b"b\n"), "0000000100000000\n"),
        (PutConfig(OF_1), ""),
        (Write(u64::MAX, b"\n"), "cq: BadContents"),
        (Read, "cq: BadContents"),
        (Take("nobody"), "cq: BadContents"),
        (Config, OF_1),
        (
            Dump("19700101.cqi"),
            "00000000 40000024 store 2 0 8 1 64 0 86400000\n00000028 40000020 top 76 0 0 0 0 0 0 0\n\
0000004c 40000020 table 0 112 0 0 0 0 0 0 0\n00000070 00000001 data 0 61\n00000078 c0000000 end\n",
        ),
    ],
    &[
        (Queue(4), ""),
        (Write(0, b"a\n"), "0000000000000000\n"),
        (PutConfig(AT_1), ""),
        (Take("reader"), "not yet\n"),
    ],
];

#[test]
fn opens_no_contents_that_a_queue_cannot_hold(rt: HostRuntime) -> Result<(), Fail> {
    expect_each(rt.alloc(), &HELD)
}

static TWO_NAMES: [(Step, &str); 18] = [
    (Init("daily", 0, 64, 4, &["one", "other"]), ""),
    (Write(DAY, b"a\n"), "0000000100000000\n"),
    (Write(3 * DAY, b"b\n"), "0000000300000000\n"),
    (Write(DAY, b"c\n"), "0000000300000001\n"),
    (Write(7 * DAY, b"d\n"), "0000000700000000\n"),
    (Write(2 * DAY, b"e\n"), "0000000700000001\n"),
    (Take("one"), "0000000100000000 a\n"),
    (Take("other"), "0000000100000000 a\n"),
    (Take("one"), "0000000300000000 b\n"),
    (Take("one"), "0000000300000001 c\n"),
    (Take("one"), "0000000700000000 d\n"),
    (Take("other"), "0000000300000000 b\n"),
    (Take("one"), "0000000700000001 e\n"),
    (Take("one"), "not yet\n"),
    (Take("other"), "0000000300000001 c\n"),
    (
        Read,
        "0000000100000000 a\n0000000300000000 b\n0000000300000001 c\n0000000700000000 d\n0000000700000001 e\n",
    ),
    (
        Back,
        "0000000700000001 e\n0000000700000000 d\n0000000300000001 c\n0000000300000000 b\n0000000100000000 a\n",
    ),
    (
        Check,
        "19700102.cqi: 1 messages, ended\n19700104.cqi: 2 messages, ended\n19700108.cqi: 2 messages, open\n",
    ),
];

#[test]
fn takes_each_message_once_by_a_name(rt: HostRuntime) -> Result<(), Fail> {
    expect(rt.alloc(), &ONCE)?;
    expect(rt.alloc(), &NOTHING)?;
    expect(rt.alloc(), &TWO_NAMES)
}

/// After `queue.cqc` it reads both images, and then writes `queue.cqc`.
static FAILING: Failing = Failing {
    before: TWO_CYCLES,
    step: Take("reader"),
    after: &[Config],
    files: &["queue.cqc", "19700101.cqi", "19700102.cqi", "queue.cqc"],
    kept: AT_START,
    done: "0000000000000000 hello\n",
    left: AT_1,
};

#[test]
fn take_passes_each_folder_fault_on(rt: HostRuntime) -> Result<(), Fail> {
    expect_failing(rt.alloc(), &FAILING)
}
