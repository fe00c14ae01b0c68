//! What `migrate` makes of a folder of version 1, and which fault it reports.
use crate::images::{A, ENDED, HELLO, HELLO_WORLD, NINE};
use crate::steps::Step::{
    self, Bytes, Check, Config, Dump, Images, Init, Length, Migrate, OldCells, OldQueue, Patch,
    Put, PutConfig, Queue, Read, ReadFrom, Take, Text, Write,
};
use crate::steps::{
    BOTH, BOTH_EMPTY, Failing, OLD_AFTER_HELLO, OLD_AT_10, OLD_AT_START, Steps, expect,
    expect_each, expect_failing, said_anew,
};
use crate::streams::Said;
use cq_fixtures::{DAY, expect_answer};
use std::alloc::Global;
use std::test::Fail;

/// `queue.cqc` of version 2 after "hello" of cycle 20000 was taken, with three cells more.
const NEW_AFTER_HELLO: &str =
    "cq 2\nroll daily\nepoch 0\ncells 67\ncount 8\nspacing 1\ncycles 4\nname reader 85899345920001\n";

/// The same before anything was taken.
const NEW_AT_START: &str =
    "cq 2\nroll daily\nepoch 0\ncells 67\ncount 8\nspacing 1\ncycles 4\nname reader 0\n";

/// The image of cycle 20000 with "hello" and "world" in version 2, in cycles of 67 cells.
const NEW_HELLO_WORLD: &str =
    "240000404351494602000000204e00000800000001000000430000000000000000000000005c2605\
200000404c00000000000000000000000000000000000000000000000000000000000000\
20000040700000007c000000000000000000000000000000000000000000000000000000\
0500000068656c6c6f000000\
05000000776f726c64000000";

static ROW: [(Step, &str); 18] = [
    (PutConfig(OLD_AFTER_HELLO), ""),
    (Put("20241004.cqi", HELLO_WORLD), ""),
    (Migrate, ""),
    (Config, NEW_AFTER_HELLO),
    (Length("20241004.cqi"), "136"),
    (Bytes("20241004.cqi"), NEW_HELLO_WORLD),
    (Read, "00004e2000000000 hello\n00004e2000000001 world\n"),
    (
        Dump("20241004.cqi"),
        "00000000 40000024 store 2 20000 8 1 67 0 86400000\n00000028 40000020 top 76 0 0 0 0 0 0 0\n\
0000004c 40000020 table 0 112 124 0 0 0 0 0 0\n00000070 00000005 data 0 68656c6c6f\n\
0000007c 00000005 data 1 776f726c64\n",
    ),
    // Once more, and if the image was written before and `queue.cqc` was not.
    (Migrate, ""),
    (Config, NEW_AFTER_HELLO),
    (Bytes("20241004.cqi"), NEW_HELLO_WORLD),
    (PutConfig(OLD_AFTER_HELLO), ""),
    (Read, "cq: 20241004.cqi: WrongStore at 0"),
    (Migrate, ""),
    (Config, NEW_AFTER_HELLO),
    (Bytes("20241004.cqi"), NEW_HELLO_WORLD),
    (Write(1_728_000_000_000, b"more\n"), "00004e2000000002\n"),
    (Take("reader"), "00004e2000000001 world\n"),
];

#[test]
fn makes_a_folder_of_version_2(rt: HostRuntime) -> Result<(), Fail> {
    expect(rt.alloc(), &ROW)
}

/// `queue.cqc` of version 1 with hours from an epoch on, a floor, and two positions.
const OF_HOURS: &str =
    "cq 1\nroll hourly\nepoch 3600000\ncells 64\ncount 8\nspacing 1\ncycles 4\nfloor 1\nname one 9\nname two 4294967297\n";

static STAYS: [Steps; 9] = [
    // What stays: the floor and the positions, also one that no queue can have, messages that fill a cycle of 64
    // cells, images without messages, and files that are none of the queue's.
    &[
        (PutConfig(OF_HOURS), ""),
        (Put("19700101-01.cqi", HELLO), ""),
        (Put("19700101-02.cqi", A), ""),
        (Migrate, ""),
        (
            Config,
            "cq 2\nroll hourly\nepoch 3600000\ncells 67\ncount 8\nspacing 1\ncycles 4\nfloor 1\nname one 9\n\
name two 4294967297\n",
        ),
        (
            Dump("19700101-02.cqi"),
            "00000000 40000024 store 2 1 8 1 67 3600000 3600000\n00000028 40000020 top 76 0 0 0 0 0 0 0\n\
0000004c 40000020 table 0 112 0 0 0 0 0 0 0\n00000070 00000001 data 0 61\n",
        ),
        (
            Check,
            "19700101-01.cqi: 1 messages, ended\n19700101-02.cqi: 1 messages, open\n",
        ),
        (Read, "0000000100000000 a\n"),
    ],
    &[
        (PutConfig(OLD_AT_10), ""),
        (Put("19700101.cqi", NINE), ""),
        (Migrate, ""),
        (
            Config,
            "cq 2\nroll daily\nepoch 0\ncells 67\ncount 8\nspacing 1\ncycles 4\nname reader 10\n",
        ),
        (Read, "cq: BadContents"),
    ],
    // Nine times "hello" and "abcd".
    &[
        (OldQueue(4), ""),
        (Put("19700101.cqi", NINE), ""),
        (Patch("19700101.cqi", 204, &[0xf4]), ""),
        (Patch("19700101.cqi", 244, b"\x04\0\0\0abcd"), ""),
        (Check, "19700101.cqi: 10 messages, open\n"),
        (Migrate, ""),
        (Length("19700101.cqi"), "264"),
        (Check, "19700101.cqi: 10 messages, open\n"),
        (
            ReadFrom("0000000000000008"),
            "0000000000000008 hello\n0000000000000009 abcd\n",
        ),
        (Write(0, b"z\n"), "cq: line 1: CycleFull"),
    ],
    &[
        (OldQueue(4), ""),
        (Images(&[ENDED, b""]), ""),
        (Put("notes", b"kept"), ""),
        (Migrate, ""),
        (Bytes("19700101.cqi"), "000000c0"),
        (Bytes("19700102.cqi"), ""),
        (Text("notes"), "kept"),
        (Check, BOTH_EMPTY),
    ],
    // In a folder without an image, and in one of version 2.
    &[
        (OldQueue(4), ""),
        (Migrate, ""),
        (Config, NEW_AT_START),
        (Put("19700101.cqi", b"x"), ""),
        (Put("zzz.cqi", b""), ""),
        (Migrate, ""),
        (Config, NEW_AT_START),
        (Text("19700101.cqi"), "x"),
    ],
    // An image of version 2 in a folder of version 1: with three cells more it is accepted, and otherwise its
    // first fault is reported.
    &[
        (Init("daily", 0, 67, 4, &["reader"]), ""),
        (Write(0, b"hello\n"), "0000000000000000\n"),
        (Write(DAY, b"b\n"), "0000000100000000\n"),
        (OldQueue(4), ""),
        (Put("19700102.cqi", A), ""),
        (Migrate, ""),
        (Check, BOTH),
        (Read, "0000000000000000 hello\n0000000100000000 a\n"),
    ],
    &[
        (Queue(4), ""),
        (Write(0, b"hello\n"), "0000000000000000\n"),
        (OldQueue(4), ""),
        (Migrate, "cq: 19700101.cqi: WrongStore at 24"),
        (Config, OLD_AT_START),
    ],
    &[
        (OldQueue(4), ""),
        (Put("19700101.cqi", b"\x24\0\0@"), ""),
        (Migrate, "cq: 19700101.cqi: Cut at 0"),
        (Config, OLD_AT_START),
    ],
    &[
        (OldQueue(4), ""),
        (Put("19700101.cqi", b"\x20\0\0@"), ""),
        (Migrate, "cq: 19700101.cqi: WrongStore at 0"),
        (Config, OLD_AT_START),
    ],
];

#[test]
fn keeps_what_a_queue_holds(rt: HostRuntime) -> Result<(), Fail> {
    expect_each(rt.alloc(), &STAYS)
}

/// A cycle has at most 1,048,576 cells, and all cycles have at most 4,194,304. If three cells more are too many, no file
/// changes and the folder is read as before.
static FULL: [Steps; 2] = [
    &[
        (OldCells(1_048_576, 1), ""),
        (Put("19700102.cqi", A), ""),
        (Patch("19700102.cqi", 24, &[0x00, 0x00, 0x10]), ""),
        (Migrate, "cq: BadShape"),
        (Read, "0000000100000000 a\n"),
    ],
    &[
        (OldCells(65_536, 64), ""),
        (Put("19700102.cqi", A), ""),
        (Patch("19700102.cqi", 24, &[0x00, 0x00, 0x01]), ""),
        (Migrate, "cq: BadConfig"),
        (Read, "0000000100000000 a\n"),
    ],
];

/// The cells and cycles of a folder of version 1, what `migrate` says, and the version and cells after it.
static LIMITS: [(u64, u64, &str, u64, u64); 4] = [
    (1_048_574, 4, "cq: BadShape", 1, 1_048_574),
    (1_048_573, 4, "", 2, 1_048_576),
    (65_534, 64, "cq: BadConfig", 1, 65_534),
    (65_533, 64, "", 2, 65_536),
];

/// What `migrate` says, and `queue.cqc` after it.
fn migrated(alloc: Global, cells: u64, cycles: u64) -> Said {
    said_anew(alloc, &[OldCells(cells, cycles), Migrate, Config])
}

#[test]
fn needs_room_for_three_cells_more(rt: HostRuntime) -> Result<(), Fail> {
    expect_each(rt.alloc(), &FULL)?;
    for (place, &(old, cycles, said, version, new)) in LIMITS.iter().enumerate() {
        let want = format!(in rt.alloc();
            "{said}cq {version}\nroll daily\nepoch 0\ncells {new}\ncount 8\nspacing 1\ncycles {cycles}\nname reader 0\n"
        )?;
        let said = migrated(rt.alloc(), old, cycles)?;
        expect_answer("limits", place, said.as_str(), want.as_str())?;
    }
    Ok(())
}

/// A folder of version 1 with "hello" in cycle 0, which ended, and "a" in cycle 1.
const OLD_CYCLES: &[Step] = &[OldQueue(4), Images(&[HELLO, A])];

/// What it holds.
const FILES: &[Step] = &[Bytes("19700101.cqi"), Bytes("19700102.cqi"), Config];

/// That of version 1.
const OLD: &str = "18000040435149460100000000000000080000000100000040000000\
200000404000000000000000000000000000000000000000000000000000000000000000\
200000406400000000000000000000000000000000000000000000000000000000000000\
0500000068656c6c6f000000\
000000c0\
18000040435149460100000001000000080000000100000040000000\
200000404000000000000000000000000000000000000000000000000000000000000000\
200000406400000000000000000000000000000000000000000000000000000000000000\
0100000061000000\
cq 1\nroll daily\nepoch 0\ncells 64\ncount 8\nspacing 1\ncycles 4\nname reader 0\n";

/// That of version 2.
const NEW: &str = "240000404351494602000000000000000800000001000000430000000000000000000000005c2605\
200000404c00000000000000000000000000000000000000000000000000000000000000\
200000407000000000000000000000000000000000000000000000000000000000000000\
0500000068656c6c6f000000\
000000c0\
240000404351494602000000010000000800000001000000430000000000000000000000005c2605\
200000404c00000000000000000000000000000000000000000000000000000000000000\
200000407000000000000000000000000000000000000000000000000000000000000000\
0100000061000000\
cq 2\nroll daily\nepoch 0\ncells 67\ncount 8\nspacing 1\ncycles 4\nname reader 0\n";

/// The calls of a migration: after `queue.cqc` it reads the images, and writes all files at once.
static FAILING: Failing = Failing {
    before: OLD_CYCLES,
    step: Migrate,
    after: FILES,
    files: &["queue.cqc", "19700101.cqi", "19700102.cqi", "19700101.cqi"],
    kept: OLD,
    done: "",
    left: NEW,
};

#[test]
fn saves_all_or_nothing(rt: HostRuntime) -> Result<(), Fail> {
    expect_failing(rt.alloc(), &FAILING)
}

/// A migration that is run again after one that failed.
static FAILING_ONCE: Failing = Failing {
    before: OLD_CYCLES,
    step: Migrate,
    after: &[
        Migrate,
        Bytes("19700101.cqi"),
        Bytes("19700102.cqi"),
        Config,
    ],
    files: &["queue.cqc", "19700101.cqi", "19700102.cqi", "19700101.cqi"],
    kept: NEW,
    done: "",
    left: NEW,
};

#[test]
fn ends_with_the_same_files_when_it_is_run_again(rt: HostRuntime) -> Result<(), Fail> {
    expect_failing(rt.alloc(), &FAILING_ONCE)
}

/// `queue.cqc` alone is written if there is no image.
static ALONE: Failing = Failing {
    before: &[OldQueue(4)],
    step: Migrate,
    after: &[Config, Migrate, Config],
    files: &["queue.cqc", "queue.cqc"],
    kept: "cq 1\nroll daily\nepoch 0\ncells 64\ncount 8\nspacing 1\ncycles 4\nname reader 0\n\
cq 2\nroll daily\nepoch 0\ncells 67\ncount 8\nspacing 1\ncycles 4\nname reader 0\n",
    done: "",
    left: "cq 2\nroll daily\nepoch 0\ncells 67\ncount 8\nspacing 1\ncycles 4\nname reader 0\n\
cq 2\nroll daily\nepoch 0\ncells 67\ncount 8\nspacing 1\ncycles 4\nname reader 0\n",
};

/// A folder of version 2 is at fault if it is not opened.
static UNMOVED: Failing = Failing {
    before: &[Queue(4)],
    step: Migrate,
    after: &[],
    files: &["queue.cqc"],
    kept: "",
    done: "",
    left: "",
};

#[test]
fn passes_each_folder_fault_on(rt: HostRuntime) -> Result<(), Fail> {
    expect_failing(rt.alloc(), &ALONE)?;
    expect_failing(rt.alloc(), &UNMOVED)
}
