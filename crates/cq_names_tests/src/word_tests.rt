//! Each form of the word for a position.
use crate::steps::Step::{Add, Config, Move, Put};
use crate::steps::{ENDED, OPEN, Steps, expect_steps};
use std::test::Fail;

/// With the hours 13 and 14 of 2024-10-04 begun.
static WORDS: Steps = &[
    (
        Put(
            "queue.cqc",
            b"cq 2\nroll hourly\nepoch 0\ncells 64\ncount 8\nspacing 1\ncycles 4\nname reader 0\n",
        ),
        "",
    ),
    (Put("20241004-13.cqi", ENDED), ""),
    (Put("20241004-14.cqi", OPEN), ""),
    (Move("reader", ""), "cq: BadIndex"),
    (Move("reader", "@"), "cq: BadIndex"),
    (Move("reader", "@x"), "cq: BadIndex"),
    (Move("reader", "20241004"), "cq: BadIndex"),
    (Move("reader", "20241004-24"), "cq: BadIndex"),
    (Move("reader", "0007530D00000000"), "cq: BadIndex"),
    (Move("reader", "7530d00000000"), "cq: BadIndex"),
    (Move("reader", "@253402300800000"), "cq: BadMoment"),
    (Add("other", Some("@x")), "cq: BadIndex"),
    (Add("other", Some("@253402300800000")), "cq: BadMoment"),
    (
        Config,
        "cq 2\nroll hourly\nepoch 0\ncells 64\ncount 8\nspacing 1\ncycles 4\nname reader 0\n",
    ),
    (Move("reader", "20241004-13"), "reader 0007530d00000000\n"),
    (
        Move("reader", "@1728050400000"),
        "reader 0007530e00000000\n",
    ),
    (
        Move("reader", "@1728050399999"),
        "reader 0007530d00000000\n",
    ),
    (
        Move("reader", "0007530dffffffff"),
        "reader 0007530dffffffff\n",
    ),
    (
        Move("reader", "@1728054000000"),
        "cq: past the end, which is 0007530e00000000",
    ),
    (
        Move("reader", "20241004-15"),
        "cq: past the end, which is 0007530e00000000",
    ),
    (Add("last", Some("20241004-14")), "last 0007530e00000000\n"),
    (Add("first", Some("@0")), "first 0000000000000000\n"),
    (
        Config,
        "cq 2\nroll hourly\nepoch 0\ncells 64\ncount 8\nspacing 1\ncycles 4\nname reader 2061644431622143\nname last 2061644431622144\nname first 0\n",
    ),
];

#[test]
fn a_position_is_what_a_word_means(rt: HostRuntime) -> Result<(), Fail> {
    expect_steps(rt.alloc(), WORDS)
}
