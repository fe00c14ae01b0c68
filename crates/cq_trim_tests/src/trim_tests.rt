//! What `trim` removes, leaves and says.
use crate::steps::Step::{
    Before, Check, Config, Drop, Init, Last, Names, Put, Read, Rest, Take, Trim, Unprinted, Write,
};
use crate::steps::{Steps, expect_steps};
use cq_fixtures::DAY;
use std::test::Fail;

/// The first moment of the hour 13 of 2024-10-04.
const HOUR_13: u64 = 1_728_046_800_000;

/// One hour in milliseconds.
const HOUR: u64 = 3_600_000;

/// With "a" in cycle 0, "b" in cycle 5, and "c" in cycle 7: dropped cycles alone go, and another `trim` does nothing.
static DROPPED: Steps = &[
    (Init("daily", 0, 4, &["reader"]), ""),
    (Write(0, b"a\n"), "0000000000000000\n"),
    (Write(5 * DAY, b"b\n"), "0000000500000000\n"),
    (Write(7 * DAY, b"c\n"), "0000000700000000\n"),
    (Rest, ""),
    (Drop(6), "6\n"),
    (
        Trim((None, None, false, true)),
        "19700101.cqi\n19700106.cqi\n",
    ),
    (Names, "19700101.cqi 19700106.cqi 19700108.cqi queue.cqc "),
    (Rest, "19700101.cqi\n19700106.cqi\n"),
    (Rest, ""),
    (Names, "19700108.cqi queue.cqc "),
    (
        Config,
        "cq 2\nroll daily\nepoch 0\ncells 64\ncount 8\nspacing 1\ncycles 4\nfloor 6\nname reader 0\n",
    ),
    (Check, "19700108.cqi: 1 messages, open\n"),
    (Read, "0000000700000000 c\n"),
    (Take("reader"), "0000000700000000 c\n"),
    // Three more may begin.
    (Write(8 * DAY, b"d\n"), "0000000800000000\n"),
    (Write(9 * DAY, b"e\n"), "0000000900000000\n"),
    (Write(10 * DAY, b"f\n"), "0000000a00000000\n"),
    (Write(11 * DAY, b"g\n"), "cq: line 1: NoCycleLeft"),
];

/// A name that has not read the first cycle keeps it, unless the command is forced. The other name is at the end.
static REFUSED: Steps = &[
    (Init("daily", 0, 4, &["done", "slow", "slower"]), ""),
    (Write(0, b"a\n"), "0000000000000000\n"),
    (Take("done"), "0000000000000000 a\n"),
    (Write(DAY, b"b\n"), "0000000100000000\n"),
    (Write(2 * DAY, b"c\n"), "0000000200000000\n"),
    (Last(2), "cq: messages left: slow"),
    (
        Trim((Some(2), None, false, true)),
        "cq: messages left: slow",
    ),
    (Take("slow"), "0000000000000000 a\n"),
    (Before("0000000100000000"), "cq: messages left: slower"),
    (Names, "19700101.cqi 19700102.cqi 19700103.cqi queue.cqc "),
    (Trim((Some(2), None, true, true)), "19700101.cqi\n"),
    (Names, "19700101.cqi 19700102.cqi 19700103.cqi queue.cqc "),
    (Trim((Some(2), None, true, false)), "19700101.cqi\n"),
    (
        Config,
        "cq 2\nroll daily\nepoch 0\ncells 64\ncount 8\nspacing 1\ncycles 4\nfloor 1\nname done 1\nname slow 1\nname slower 0\n",
    ),
    // What was lost before is lost: only messages that would newly be dropped count.
    (Take("slower"), "0000000100000000 b\n"),
    (Last(1), "cq: messages left: done"),
    (Take("done"), "0000000100000000 b\n"),
    (Take("slow"), "0000000100000000 b\n"),
    (Last(1), "19700102.cqi\n"),
    (Last(1), ""),
    (Read, "0000000200000000 c\n"),
    (Take("done"), "0000000200000000 c\n"),
    (Take("slow"), "0000000200000000 c\n"),
    (Take("slower"), "0000000200000000 c\n"),
    (Take("slower"), "not yet\n"),
];

/// Each form of the word, and words that are none. No name is declared, so nothing is refused for one.
static WORDS: Steps = &[
    (Init("hourly", 0, 8, &[]), ""),
    (Write(HOUR_13, b"a\n"), "0007530d00000000\n"),
    (Write(HOUR_13 + HOUR, b"b\n"), "0007530e00000000\n"),
    (Write(HOUR_13 + 2 * HOUR, b"c\n"), "0007530f00000000\n"),
    (Write(HOUR_13 + 3 * HOUR, b"d\n"), "0007531000000000\n"),
    (Before(""), "cq: BadIndex"),
    (Before("@"), "cq: BadIndex"),
    (Before("@x"), "cq: BadIndex"),
    (Before("20241004"), "cq: BadIndex"),
    (Before("20241004-24"), "cq: BadIndex"),
    (Before("20241004-13.cqi"), "cq: BadIndex"),
    (Before("0007530D00000000"), "cq: BadIndex"),
    (Before("@253402300800000"), "cq: BadMoment"),
    (Before("20241004-13"), ""),
    (Before("0007530dffffffff"), ""),
    (Before("@0"), ""),
    (
        Names,
        "20241004-13.cqi 20241004-14.cqi 20241004-15.cqi 20241004-16.cqi queue.cqc ",
    ),
    (Before("20241004-14"), "20241004-13.cqi\n"),
    (Before("0007530fffffffff"), "20241004-14.cqi\n"),
    // The last millisecond of the hour before is in that hour.
    (Before("@1728057599999"), ""),
    (Before("@1728057600000"), "20241004-15.cqi\n"),
    // Never above the last cycle.
    (Before("ffffffffffffffff"), ""),
    (Names, "20241004-16.cqi queue.cqc "),
    (
        Config,
        "cq 2\nroll hourly\nepoch 0\ncells 64\ncount 8\nspacing 1\ncycles 8\nfloor 480016\n",
    ),
];

/// With both words the higher floor counts.
static BOTH: Steps = &[
    (Init("daily", 0, 4, &[]), ""),
    (Write(0, b"a\n"), "0000000000000000\n"),
    (Write(DAY, b"b\n"), "0000000100000000\n"),
    (Write(2 * DAY, b"c\n"), "0000000200000000\n"),
    (Write(3 * DAY, b"d\n"), "0000000300000000\n"),
    (
        Trim((Some(3), Some("19700101"), false, false)),
        "19700101.cqi\n",
    ),
    (
        Trim((Some(4), Some("19700104"), false, false)),
        "19700102.cqi\n19700103.cqi\n",
    ),
    (Last(u64::MAX), ""),
    (Last(0), ""),
    (Names, "19700104.cqi queue.cqc "),
];

/// A queue of which no cycle has begun, and folders that are no queue or are of version 1.
static NOTHING: Steps = &[
    (Rest, "cq: no queue here"),
    (Init("daily", 0, 4, &["reader"]), ""),
    (Last(1), ""),
    (Before("ffffffffffffffff"), ""),
    (Before("nothing"), "cq: BadIndex"),
    (
        Config,
        "cq 2\nroll daily\nepoch 0\ncells 64\ncount 8\nspacing 1\ncycles 4\nname reader 0\n",
    ),
    (
        Put(
            "queue.cqc",
            b"cq 2\nroll daily\nepoch 0\ncells 64\ncount 8\nspacing 1\ncycles 4\nfloor 1\nname reader 0\n",
        ),
        "",
    ),
    (Last(1), "cq: BadContents"),
    (
        Put(
            "queue.cqc",
            b"cq 1\nroll daily\nepoch 0\ncells 64\ncount 8\nspacing 1\ncycles 4\nname reader 0\n",
        ),
        "",
    ),
    (Last(1), "cq: OldVersion"),
];

/// What a writer that fails leaves: all is saved.
static UNPRINTED: Steps = &[
    (Init("daily", 0, 4, &[]), ""),
    (Write(0, b"a\n"), "0000000000000000\n"),
    (Write(DAY, b"b\n"), "0000000100000000\n"),
    (Put("notes.txt", b"not one of the queue's"), ""),
    (Unprinted(3), "cq: write fault"),
    (Names, "19700102.cqi notes.txt queue.cqc "),
    (
        Config,
        "cq 2\nroll daily\nepoch 0\ncells 64\ncount 8\nspacing 1\ncycles 4\nfloor 1\n",
    ),
    // Without a line nothing is written.
    (Unprinted(0), ""),
];

#[test]
fn removes_the_images_of_dropped_cycles(rt: HostRuntime) -> Result<(), Fail> {
    expect_steps(rt.alloc(), DROPPED)?;
    expect_steps(rt.alloc(), BOTH)?;
    expect_steps(rt.alloc(), NOTHING)
}

#[test]
fn refuses_to_drop_messages_that_are_left(rt: HostRuntime) -> Result<(), Fail> {
    expect_steps(rt.alloc(), REFUSED)
}

#[test]
fn drops_before_what_a_word_means(rt: HostRuntime) -> Result<(), Fail> {
    expect_steps(rt.alloc(), WORDS)
}

#[test]
fn a_writer_may_fail(rt: HostRuntime) -> Result<(), Fail> {
    expect_steps(rt.alloc(), UNPRINTED)
}
