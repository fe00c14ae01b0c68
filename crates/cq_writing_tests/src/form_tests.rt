//! The forms of a message, and the cycles that begin.
use crate::steps::Step::{Append, Fill, Messages, Put};
use crate::steps::{QUEUE, Steps, expect_steps};
use cq_writing::InputForm::{Lines, Null, Whole};
use std::test::Fail;

/// The milliseconds of a day.
const DAY: u64 = 86_400_000;

/// The bytes of an input that is taken.
const MOST: usize = 8_388_608;

/// Messages with line feeds and bytes 0, and last ones without their end.
static FORMS: Steps = &[
    (Put("queue.cqc", QUEUE), ""),
    (
        Append(Null, 0, b"a\nb\0c\0"),
        "0000000000000000\n0000000000000001\nbegan 0 19700101\n",
    ),
    (
        Append(Null, 0, b"\n\0last"),
        "0000000000000002\n0000000000000003\n",
    ),
    (Append(Whole, 0, b"one\ntwo\0three\n"), "0000000000000004\n"),
    (
        Append(Lines, 0, b"x\0y\nz"),
        "0000000000000005\n0000000000000006\n",
    ),
    (
        Messages("19700101.cqi"),
        "0 a\nb\n1 c\n2 \n\n3 last\n4 one\ntwo\0three\n\n5 x\0y\n6 z\nwhole\n",
    ),
];

/// Empty messages, which are refused, and empty inputs, which have no message.
static EMPTY: Steps = &[
    (Put("queue.cqc", QUEUE), ""),
    (Append(Null, 0, b"a\0\0b"), "cq: line 2: BadRoom"),
    (Append(Null, 0, b"\0"), "cq: line 1: BadRoom"),
    (Append(Lines, 0, b"a\nb\n\n"), "cq: line 3: BadRoom"),
    (Messages("19700101.cqi"), "cq: no such file: 19700101.cqi"),
    (
        Append(Whole, 0, b"\0"),
        "0000000000000000\nbegan 0 19700101\n",
    ),
    (Append(Whole, 0, b"\n"), "0000000000000001\n"),
    (Append(Whole, 0, b""), ""),
    (Append(Null, 0, b""), ""),
    (Append(Lines, 0, b""), ""),
    (Messages("19700101.cqi"), "0 \0\n1 \n\nwhole\n"),
];

/// Cycles that begin, and calls that begin none.
static BEGUN: Steps = &[
    (Put("queue.cqc", QUEUE), ""),
    // The first cycle begins without a message too.
    (Append(Whole, DAY, b""), "began 1 19700102\n"),
    (Append(Whole, DAY, b"a"), "0000000100000000\n"),
    // An earlier moment.
    (Append(Null, 0, b"b"), "0000000100000001\n"),
    // A later one, without a message.
    (Append(Null, 3 * DAY, b""), ""),
    (
        Append(Null, 3 * DAY, b"c"),
        "0000000300000000\nbegan 3 19700104\n",
    ),
    (Append(Lines, 4 * DAY - 1, b"d"), "0000000300000001\n"),
    // Seconds where milliseconds are meant: 2024-10-04 is taken for a day of January 1970.
    (
        Append(Lines, 1_728_000_000, b"e\nf\n"),
        "0000001400000000\n0000001400000001\nbegan 20 19700121\n",
    ),
    (
        Append(Whole, 1_728_000_000_000, b"g"),
        "00004e2000000000\nbegan 20000 20241004\n",
    ),
    (
        Append(Whole, 1_728_086_400_000, b"h"),
        "cq: line 1: NoCycleLeft",
    ),
    (
        Append(Null, 1_728_086_400_000, b"\0"),
        "cq: line 1: BadRoom",
    ),
];

/// Inputs as long as they may be, and longer ones.
static LIMITS: Steps = &[
    (Put("queue.cqc", QUEUE), ""),
    (Fill(Whole, b'a', MOST), "cq: line 1: CycleFull"),
    (Fill(Null, 0, MOST), "cq: line 1: BadRoom"),
    (Fill(Lines, b'a', MOST), "cq: line 1: CycleFull"),
    (Fill(Whole, b'a', MOST + 1), "cq: input too long"),
    (Fill(Null, 0, MOST + 1), "cq: input too long"),
    (Messages("19700101.cqi"), "cq: no such file: 19700101.cqi"),
];

#[test]
fn a_form_says_what_a_message_is(rt: HostRuntime) -> Result<(), Fail> {
    expect_steps(rt.alloc(), FORMS)
}

#[test]
fn an_empty_message_is_refused(rt: HostRuntime) -> Result<(), Fail> {
    expect_steps(rt.alloc(), EMPTY)
}

#[test]
fn the_cycle_that_begins_is_returned(rt: HostRuntime) -> Result<(), Fail> {
    expect_steps(rt.alloc(), BEGUN)
}

#[test]
fn an_input_has_a_limit(rt: HostRuntime) -> Result<(), Fail> {
    expect_steps(rt.alloc(), LIMITS)
}
