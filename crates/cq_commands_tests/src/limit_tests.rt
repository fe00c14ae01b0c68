//! Limits of queues, of the input and of files.
use crate::steps::Step::{self, Check, Fill, Init, Queue, Read, Write, WriteDays, WriteEmpty};
use crate::steps::{MOST_BYTES, OVER, Steps, WRITES_EIGHT, expect, expect_each, said_anew};
use cq_fixtures::{DAY, expect_answer};
use std::test::Fail;

static FILLED: [(Step, &str); 6] = [
    (Queue(4), ""),
    // Eight times "hello" fit, and then one more line of four bytes.
    WRITES_EIGHT,
    (Write(0, b"hello\n"), "cq: line 1: CycleFull"),
    (Write(0, b"abcd\nz\n"), "cq: line 2: CycleFull"),
    (Check, "19700101.cqi: 8 messages, open\n"),
    (Write(0, b"abcd\n"), "0000000000000008\n"),
];

#[test]
fn a_cycle_takes_what_fits(rt: HostRuntime) -> Result<(), Fail> {
    expect(rt.alloc(), &FILLED)
}

/// A line on each of 64 days, one more day, and one more line on the last of the 64.
static DAYS: [(Step, &str); 4] = [
    (Queue(64), ""),
    (WriteDays(64), ""),
    (Write(64 * DAY, b"a\n"), "cq: line 1: NoCycleLeft"),
    (Write(0, b"b\n"), "0000003f00000001\n"),
];

#[test]
fn a_queue_has_at_most_64_cycles(rt: HostRuntime) -> Result<(), Fail> {
    expect(rt.alloc(), &DAYS)
}

/// Names of a queue, and what is said of them.
static NAMES: [(&[&str], &str); 4] = [
    (
        &[
            "aaaaaaaaaaaaaaaaaaaaaaaaaaaaaaaa",
            "aaaaaaaaaaaaaaaaaaaaaaaaaaaaaaab",
            "aaaaaaaaaaaaaaaaaaaaaaaaaaaaaaac",
            "aaaaaaaaaaaaaaaaaaaaaaaaaaaaaaad",
            "aaaaaaaaaaaaaaaaaaaaaaaaaaaaaaae",
            "aaaaaaaaaaaaaaaaaaaaaaaaaaaaaaaf",
            "aaaaaaaaaaaaaaaaaaaaaaaaaaaaaaag",
            "aaaaaaaaaaaaaaaaaaaaaaaaaaaaaaah",
            "aaaaaaaaaaaaaaaaaaaaaaaaaaaaaaai",
            "aaaaaaaaaaaaaaaaaaaaaaaaaaaaaaaj",
            "aaaaaaaaaaaaaaaaaaaaaaaaaaaaaaak",
            "aaaaaaaaaaaaaaaaaaaaaaaaaaaaaaal",
            "aaaaaaaaaaaaaaaaaaaaaaaaaaaaaaam",
            "aaaaaaaaaaaaaaaaaaaaaaaaaaaaaaan",
            "aaaaaaaaaaaaaaaaaaaaaaaaaaaaaaao",
            "aaaaaaaaaaaaaaaaaaaaaaaaaaaaaaap",
        ],
        "",
    ),
    (
        &[
            "a", "b", "c", "d", "e", "f", "g", "h", "i", "j", "k", "l", "m", "n", "o", "p", "q",
        ],
        "cq: BadConfig",
    ),
    (&["aaaaaaaaaaaaaaaaaaaaaaaaaaaaaaaaa"], "cq: BadConfig"),
    (&[""], "cq: BadConfig"),
];

#[test]
fn a_queue_has_at_most_16_names_of_32_bytes(rt: HostRuntime) -> Result<(), Fail> {
    for (place, &(names, want)) in NAMES.iter().enumerate() {
        let said = said_anew(rt.alloc(), &[Init("daily", 0, 64, 1, names)])?;
        expect_answer("names", place, said.as_str(), want)?;
    }
    Ok(())
}

static INPUTS: [Steps; 2] = [
    &[
        (Queue(1), ""),
        (WriteEmpty(0, MOST_BYTES), "cq: line 1: BadRoom"),
    ],
    &[(Queue(1), ""), (WriteEmpty(0, OVER), "cq: input too long")],
];

#[test]
fn bounds_the_input(rt: HostRuntime) -> Result<(), Fail> {
    expect_each(rt.alloc(), &INPUTS)
}

static FILES: [Steps; 3] = [
    &[
        (Queue(1), ""),
        (Fill("queue.cqc", b'x', MOST_BYTES), ""),
        (Read, "cq: queue.cqc: line 1"),
    ],
    &[
        (Queue(1), ""),
        (Fill("queue.cqc", b'x', OVER), ""),
        (Read, "cq: file too large: queue.cqc"),
    ],
    &[
        (Queue(1), ""),
        (Fill("19700101.cqi", 0, OVER), ""),
        (Check, "cq: file too large: 19700101.cqi"),
    ],
];

#[test]
fn bounds_files(rt: HostRuntime) -> Result<(), Fail> {
    expect_each(rt.alloc(), &FILES)
}
