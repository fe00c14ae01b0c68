//! What a folder holds after its log was folded.
use crate::logs::Frame::{Bytes, Head, Turn};
use crate::logs::Line::{Cycle, Floor, Message, Name};
use crate::steps::Step::{Check, Cut, Drop, Fold, Log, Names, Put, Queue, Read, Take, Text, Write};
use crate::steps::{Steps, expect_each};
use cq_fixtures::DAY;
use std::test::Fail;

/// The first positions of cycles 1 and 7.
const FIRST_OF_1: u64 = 4_294_967_296;

const FIRST_OF_7: u64 = 30_064_771_072;

/// Without a turn only the log is written.
static UNPLAYED: [Steps; 6] = [
    // There is no log.
    &[
        (Queue, ""),
        (Fold, "at [0], 0 turns, 4 cycles"),
        (Names, "queue.cqc queue.log "),
        (Text("queue.log"), ""),
        (Fold, "at [0], 0 turns, 4 cycles"),
    ],
    &[
        (Queue, ""),
        (Write(0, b"a\n"), "0000000000000000\n"),
        (Fold, "0[a;] at [0], 0 turns, 4 cycles"),
        (Names, "19700101.cqi queue.cqc queue.log "),
        (Check, "19700101.cqi: 1 messages, open\n"),
    ],
    // The log has no byte.
    &[
        (Queue, ""),
        (Put("queue.log", b""), ""),
        (Fold, "at [0], 0 turns, 4 cycles"),
        (Text("queue.log"), ""),
    ],
    // It has a closed gate alone, or a head alone.
    &[
        (Queue, ""),
        (Log(&[]), ""),
        (Fold, "at [0], 0 turns, 4 cycles"),
        (Text("queue.log"), ""),
    ],
    &[
        (Queue, ""),
        (Write(0, b"a\n"), "0000000000000000\n"),
        (Log(&[Head]), ""),
        (Fold, "0[a;] at [0], 0 turns, 4 cycles"),
        (Text("queue.log"), ""),
        (Read, "0000000000000000 a\n"),
    ],
    // The turn of the second frame was not stored as a whole.
    &[
        (Queue, ""),
        (Log(&[Bytes(b"no head")]), ""),
        (Cut(11), ""),
        (Fold, "at [0], 0 turns, 4 cycles"),
        (Text("queue.log"), ""),
    ],
];

#[test]
fn a_log_without_turns_is_emptied(rt: HostRuntime) -> Result<(), Fail> {
    expect_each(rt.alloc(), &UNPLAYED)
}

/// Turns are saved into the images and the configuration, and a second fold plays nothing.
static PLAYED: [Steps; 6] = [
    // The first cycles begin.
    &[
        (Queue, ""),
        (
            Log(&[
                Head,
                Turn(&[Cycle(0), Message("a"), Message("b")]),
                Turn(&[Cycle(1), Name(0, 1)]),
                Turn(&[Message("c")]),
            ]),
            "",
        ),
        (Fold, "0[a;b;] 1[c;] at [1], 3 turns, 4 cycles"),
        (Names, "19700101.cqi 19700102.cqi queue.cqc queue.log "),
        (Text("queue.log"), ""),
        (
            Check,
            "19700101.cqi: 2 messages, ended\n19700102.cqi: 1 messages, open\n",
        ),
        (Fold, "0[a;b;] 1[c;] at [1], 0 turns, 4 cycles"),
        (Take, "0000000000000001 b\n"),
        (Take, "0000000100000000 c\n"),
        (Write(DAY, b"d\n"), "0000000100000001\n"),
        (Fold, "0[a;b;] 1[c;d;] at [4294967297], 0 turns, 4 cycles"),
    ],
    // The last cycle goes on, and others begin after it. The image of the cycle before it stays.
    &[
        (Queue, ""),
        (Write(0, b"a\n"), "0000000000000000\n"),
        (Write(DAY, b"b\n"), "0000000100000000\n"),
        (
            Log(&[
                Head,
                Turn(&[Message("c"), Cycle(3), Message("d")]),
                Turn(&[Cycle(7), Message("e"), Floor(3), Name(0, FIRST_OF_7)]),
            ]),
            "",
        ),
        (
            Fold,
            "0[a;] 1[b;c;] 3[d;] 7[e;] at [30064771072] floor 3, 2 turns, 4 cycles",
        ),
        (
            Check,
            "19700101.cqi: 1 messages, ended\n19700102.cqi: 2 messages, ended\n\
19700104.cqi: 1 messages, ended\n19700108.cqi: 1 messages, open\n",
        ),
        (
            Text("queue.cqc"),
            "cq 2\nroll daily\nepoch 0\ncells 64\ncount 8\nspacing 1\ncycles 4\nfloor 3\nname reader 30064771072\n",
        ),
        (Read, "0000000300000000 d\n0000000700000000 e\n"),
        (Take, "0000000700000000 e\n"),
        (Drop(9), "7\n"),
        (
            Fold,
            "0[a;] 1[b;c;] 3[d;] 7[e;] at [30064771073] floor 7, 0 turns, 4 cycles",
        ),
    ],
    // A position alone, a floor alone, and a turn without notes.
    &[
        (Queue, ""),
        (Write(0, b"a\nb\n"), "0000000000000000\n0000000000000001\n"),
        (Log(&[Head, Turn(&[Name(0, 2)])]), ""),
        (Fold, "0[a;b;] at [2], 1 turns, 4 cycles"),
        (Take, "not yet\n"),
        (Log(&[Head, Turn(&[Name(0, 1)])]), ""),
        (Fold, "0[a;b;] at [1], 1 turns, 4 cycles"),
        (Take, "0000000000000001 b\n"),
    ],
    &[
        (Queue, ""),
        (Write(DAY, b"a\n"), "0000000100000000\n"),
        (Log(&[Head, Turn(&[Floor(1)])]), ""),
        (Fold, "1[a;] at [0] floor 1, 1 turns, 4 cycles"),
        (Log(&[Head, Turn(&[]), Turn(&[Name(0, FIRST_OF_1)])]), ""),
        (Fold, "1[a;] at [4294967296] floor 1, 2 turns, 4 cycles"),
    ],
    // What comes after a closed gate is not looked at.
    &[
        (Queue, ""),
        (Write(0, b"a\n"), "0000000000000000\n"),
        (
            Log(&[Head, Turn(&[Message("b")]), Turn(&[Message("c")])]),
            "",
        ),
        // The head has 121 bytes, and a turn 6, each after a gate and its length.
        (Cut(143), ""),
        (Fold, "0[a;b;] at [0], 1 turns, 4 cycles"),
        (Text("queue.log"), ""),
        (Read, "0000000000000000 a\n0000000000000001 b\n"),
    ],
    // A log that was folded cannot be played again on what it gave.
    &[
        (Queue, ""),
        (Log(&[Head, Turn(&[Cycle(0), Message("a")])]), ""),
        (Fold, "0[a;] at [0], 1 turns, 4 cycles"),
        (Log(&[Head, Turn(&[Message("b")])]), ""),
        (Fold, "0[a;b;] at [0], 1 turns, 4 cycles"),
        (Log(&[Head, Turn(&[Cycle(1)])]), ""),
        (Fold, "0[a;b;] 1[] at [0], 1 turns, 4 cycles"),
        (
            Check,
            "19700101.cqi: 2 messages, ended\n19700102.cqi: 0 messages, open\n",
        ),
    ],
];

#[test]
fn turns_are_folded_into_the_images(rt: HostRuntime) -> Result<(), Fail> {
    expect_each(rt.alloc(), &PLAYED)
}
