//! Which fault is reported, and what the folder holds then.
use crate::images::{ENDED, HELLO, NINE};
use crate::steps::Step::{
    self, Bar, Check, Config, Cut, Dump, Images, Init, Length, OldQueue, Patch, Put, PutConfig,
    Queue, Read, ReadFrom, Text, UnprintedWrite, Write, WriteBroken, WriteEmpty,
};
use crate::steps::{
    BAD_CELLS_AND_CYCLES, BAD_CYCLES, BOTH, Failing, OVER, Steps, TWO_CYCLES, WRITES_EIGHT, expect,
    expect_each, expect_failing, push_said, said_anew, said_by,
};
use crate::streams::Said;
use cq_fixtures::{DAY, expect_answer, expect_text};
use cq_folder::MemoryFolder;
use std::alloc::{AllocError, Global};
use std::test::Fail;

static GOOD: [(Step, &str); 5] = [
    (OldQueue(4), ""),
    (Put("19700101.cqi", HELLO), ""),
    (Length("19700101.cqi"), "116"),
    (Check, "19700101.cqi: 1 messages, ended\n"),
    (
        Dump("19700101.cqi"),
        "00000000 40000018 store 1 0 8 1 64\n0000001c 40000020 top 64 0 0 0 0 0 0 0\n\
00000040 40000020 table 0 100 0 0 0 0 0 0 0\n00000064 00000005 data 0 68656c6c6f\n00000070 c0000000 end\n",
    ),
];

/// Bytes of the image that are replaced from a place on, and what is wrong then.
static WRONG: [(usize, &[u8], &str); 10] = [
    (109, &[1], "BadPadding at 109"),
    (116, &[0, 0, 0, 0], "AfterEnd at 116"),
    (68, &[0, 0, 0, 0], "WrongTable at 68"),
    (32, &[0, 0, 0, 0], "WrongTable at 32"),
    (36, &[4], "WrongTable at 36"),
    (100, &[1, 0, 0, 0x80], "BadHeader at 100"),
    (100, &[0, 0, 0, 0x80], "Unfinished at 100"),
    (100, &[0, 0, 0, 0xc0], "Unfinished at 100"),
    (112, &[0, 0, 0, 0], "Unfinished at 112"),
    (12, &[1], "WrongStore at 12"),
];

/// What `check`, `dump` and `read` say if the image has these bytes.
fn faults_of(alloc: Global, at: usize, bytes: &'static [u8]) -> Said {
    let steps = [
        OldQueue(4),
        Put("19700101.cqi", HELLO),
        Patch("19700101.cqi", at, bytes),
        Check,
        Dump("19700101.cqi"),
        Read,
    ];
    said_anew(alloc, &steps)
}

/// What they say if this is wrong.
fn wanted_of(alloc: Global, want: &str) -> Result<String, AllocError> {
    format!(in alloc;
        "19700101.cqi: {want}\ncq: images at faultcq: 19700101.cqi: {want}cq: 19700101.cqi: {want}"
    )
}

#[test]
fn reports_each_image_fault(rt: HostRuntime) -> Result<(), Fail> {
    for &(at, bytes, want) in &WRONG {
        let wanted = wanted_of(rt.alloc(), want)?;
        expect_text(faults_of(rt.alloc(), at, bytes)?, wanted.as_str())?;
    }
    Ok(())
}

static CUT: [Steps; 6] = [
    &[
        (OldQueue(4), ""),
        (Put("19700101.cqi", HELLO), ""),
        (Cut("19700101.cqi", 110), ""),
        (Check, "19700101.cqi: Cut at 100\ncq: images at fault"),
    ],
    &[
        (OldQueue(4), ""),
        (Put("19700101.cqi", HELLO), ""),
        (Cut("19700101.cqi", 100), ""),
        (Check, "19700101.cqi: Cut at 100\ncq: images at fault"),
    ],
    &[
        (OldQueue(4), ""),
        (Put("19700101.cqi", HELLO), ""),
        (Cut("19700101.cqi", 112), ""),
        (Check, "19700101.cqi: 1 messages, open\n"),
    ],
    // Two faulty images, a bad name along with a faulty image, and a faulty image along with a wrong end. The
    // images come before what the command itself was given, except an index that is none.
    &[
        (Queue(4), ""),
        (Put("19700102.cqi", b"x"), ""),
        (Put("19700101.cqi", b"yy"), ""),
        (Read, "cq: 19700101.cqi: Cut at 0"),
        (Write(u64::MAX, b"\n"), "cq: 19700101.cqi: Cut at 0"),
        (ReadFrom("x"), "cq: BadIndex"),
    ],
    &[
        (Queue(4), ""),
        (Put("19700101.cqi", b"x"), ""),
        (Put("zzz.cqi", b""), ""),
        (Read, "cq: zzz.cqi: bad cycle name"),
        (Write(u64::MAX, b"\n"), "cq: zzz.cqi: bad cycle name"),
        (ReadFrom("x"), "cq: BadIndex"),
    ],
    &[
        (Queue(4), ""),
        (Images(&[b"", b"x"]), ""),
        (Read, "cq: 19700102.cqi: Cut at 0"),
        (Write(u64::MAX, b"\n"), "cq: 19700102.cqi: Cut at 0"),
        (ReadFrom("x"), "cq: BadIndex"),
    ],
];

#[test]
fn an_image_is_cut_or_has_two_faults(rt: HostRuntime) -> Result<(), Fail> {
    expect_each(rt.alloc(), &CUT)
}

static OVER_SHAPE: [(Step, &str); 7] = [
    (OldQueue(4), ""),
    (Put("19700101.cqi", NINE), ""),
    (Length("19700101.cqi"), "244"),
    (Check, "19700101.cqi: 9 messages, open\n"),
    // One more "hello".
    (Patch("19700101.cqi", 244, b"\x05\0\0\0hello\0\0\0"), ""),
    (Check, "19700101.cqi: OverShape at 244\ncq: images at fault"),
    (Dump("19700101.cqi"), "cq: 19700101.cqi: OverShape at 244"),
];

/// Of version 2, with a second index table before the ninth "hello".
static OVER_SHAPE_2: [(Step, &str); 5] = [
    (Queue(4), ""),
    WRITES_EIGHT,
    (Length("19700101.cqi"), "208"),
    (
        Patch(
            "19700101.cqi",
            208,
            b"\x20\0\0@\0\0\0\0\0\0\0\0\0\0\0\0\0\0\0\0\0\0\0\0\0\0\0\0\0\0\0\0\0\0\0\0\x05\0\0\0hello\0\0\0",
        ),
        "",
    ),
    (Check, "19700101.cqi: OverShape at 244\ncq: images at fault"),
];

#[test]
fn checks_and_dumps_what_fits_the_shape(rt: HostRuntime) -> Result<(), Fail> {
    expect(rt.alloc(), &GOOD)?;
    expect(rt.alloc(), &OVER_SHAPE)?;
    expect(rt.alloc(), &OVER_SHAPE_2)
}

/// A configuration that is none comes before a faulty image, and an index that is none before that.
static NO_CONFIG: [(Step, &str); 6] = [
    (Queue(4), ""),
    (Put("19700101.cqi", b"x"), ""),
    (PutConfig(""), ""),
    (Read, "cq: queue.cqc: line 1"),
    (ReadFrom("x"), "cq: BadIndex"),
    (Dump("none"), "cq: queue.cqc: line 1"),
];

/// A file that is none comes before its name, and its name before what it holds.
static NO_FILE: [(Step, &str); 4] = [
    (Queue(4), ""),
    (Put("zzz.cqi", b"x"), ""),
    (Dump("yyy.cqi"), "cq: no such file: yyy.cqi"),
    (Dump("zzz.cqi"), "cq: zzz.cqi: bad cycle name"),
];

static STREAMS: [(Step, &str); 5] = [
    (Queue(1), ""),
    // The input comes before the moment, and its end before its lines.
    (WriteBroken(u64::MAX, 0), "cq: read fault"),
    (WriteEmpty(u64::MAX, OVER), "cq: input too long"),
    // An end that is wrong comes before the input.
    (Put("19700101.cqi", ENDED), ""),
    (WriteBroken(0, 0), "cq: 19700101.cqi: wrong end"),
];

#[test]
fn reports_the_first_fault_of_streams(rt: HostRuntime) -> Result<(), Fail> {
    expect(rt.alloc(), &STREAMS)
}

static UNPRINTED: Failing = Failing {
    before: &[Queue(1)],
    step: UnprintedWrite,
    after: &[Check],
    files: &["queue.cqc", "19700101.cqi"],
    kept: "",
    done: "cq: write fault",
    left: "19700101.cqi: 1 messages, open\n",
};

#[test]
fn writes_files_before_the_output(rt: HostRuntime) -> Result<(), Fail> {
    expect_failing(rt.alloc(), &UNPRINTED)
}

/// Settings that are refused whether or not a queue is there.
const WEEKLY: Step = Init("weekly", u64::MAX, 0, u64::MAX, &[]);

/// Settings that are refused once it is known that no queue is there.
const NO_CELLS: Step = Init("daily", u64::MAX, 0, u64::MAX, &[]);

/// Good settings.
const GOOD_SETTINGS: Step = Init("daily", 0, 64, 4, &[]);

static THERE: [Steps; 3] = [
    &[(Queue(1), ""), (WEEKLY, "cq: BadConfig")],
    &[(Queue(1), ""), (NO_CELLS, "cq: queue there already")],
    &[(Queue(4), ""), (GOOD_SETTINGS, "cq: queue there already")],
];

/// The roll, the epoch, the cells and the cycles of a new queue, and why they are refused.
static SETTINGS: [(&str, u64, u64, u64, &str); 10] = [
    ("daily", u64::MAX, u64::MAX, u64::MAX, "cq: BadShape"),
    ("daily", u64::MAX, 64, u64::MAX, "cq: BadConfig"),
    ("weekly", 0, 64, 4, "cq: BadConfig"),
    ("daily", 0, 30, 4, "cq: BadShape"),
    ("daily", 0, 4_294_967_360, 4, "cq: BadShape"),
    ("daily", 0, 30, 0, "cq: BadShape"),
    ("daily", 0, 64, 0, "cq: BadConfig"),
    ("daily", 0, 64, 65, "cq: BadConfig"),
    ("daily", 0, 64, 4_294_967_297, "cq: BadConfig"),
    ("daily", 253_402_300_800_000, 64, 4, "cq: BadConfig"),
];

/// What `init` says of settings, and what `check` says then.
fn init_said(alloc: Global, roll: &'static str, epoch: u64, cells: u64, cycles: u64) -> Said {
    said_anew(alloc, &[Init(roll, epoch, cells, cycles, &[]), Check])
}

#[test]
fn refuses_settings(rt: HostRuntime) -> Result<(), Fail> {
    expect_each(rt.alloc(), &THERE)?;
    for (place, &(roll, epoch, cells, cycles, fault)) in SETTINGS.iter().enumerate() {
        let said = init_said(rt.alloc(), roll, epoch, cells, cycles)?;
        let want = format!(in rt.alloc(); "{fault}cq: no queue here")?;
        expect_answer("settings", place, said.as_str(), want.as_str())?;
    }
    Ok(())
}

static NOWHERE: [(Step, &str); 1] = [(Check, "cq: no queue here")];

static FAILING_READ: Failing = Failing {
    before: TWO_CYCLES,
    step: Read,
    after: &[Check],
    files: &["queue.cqc", "19700101.cqi", "19700102.cqi"],
    kept: BOTH,
    done: "0000000000000000 hello\n0000000100000000 a\n",
    left: BOTH,
};

static FAILING_CHECK: Failing = Failing {
    before: TWO_CYCLES,
    step: Check,
    after: &[Check],
    files: &["queue.cqc", "19700101.cqi", "19700102.cqi"],
    kept: BOTH,
    done: BOTH,
    left: BOTH,
};

static FAILING_DUMP: Failing = Failing {
    before: TWO_CYCLES,
    step: Dump("19700102.cqi"),
    after: &[Check],
    files: &["queue.cqc", "19700102.cqi"],
    kept: BOTH,
    done: "00000000 40000024 store 2 1 8 1 64 0 86400000\n00000028 40000020 top 76 0 0 0 0 0 0 0\n\
0000004c 40000020 table 0 112 0 0 0 0 0 0 0\n00000070 00000001 data 0 61\n",
    left: BOTH,
};

#[test]
fn readers_pass_each_folder_fault_on(rt: HostRuntime) -> Result<(), Fail> {
    expect_failing(rt.alloc(), &FAILING_READ)?;
    expect_failing(rt.alloc(), &FAILING_CHECK)?;
    expect_failing(rt.alloc(), &FAILING_DUMP)
}

static FAILING_INIT: Failing = Failing {
    before: &[Put("notes", b"kept")],
    step: Queue(4),
    after: &[Text("notes"), Check],
    files: &["queue.cqc"],
    kept: "keptcq: no queue here",
    done: "",
    left: "kept",
};

#[test]
fn init_passes_each_folder_fault_on(rt: HostRuntime) -> Result<(), Fail> {
    expect_failing(rt.alloc(), &FAILING_INIT)
}

/// A write that begins a cycle: after `queue.cqc` it reads the image, and writes both images at once.
static FAILING_WRITE: Failing = Failing {
    before: &[Queue(4), Put("notes", b"kept"), Write(0, b"hello\n")],
    step: Write(DAY, b"a\n"),
    after: &[Check, Text("notes"), Config],
    files: &["queue.cqc", "19700101.cqi", "19700101.cqi"],
    kept: OPEN,
    done: "0000000100000000\n",
    left: ROLLED,
};

/// What is left of the folder as long as no image is written.
const OPEN: &str = "19700101.cqi: 1 messages, open\n\
keptcq 2\nroll daily\nepoch 0\ncells 64\ncount 8\nspacing 1\ncycles 4\nname reader 0\n";

/// What is left of it if both are.
const ROLLED: &str = "19700101.cqi: 1 messages, ended\n19700102.cqi: 1 messages, open\n\
keptcq 2\nroll daily\nepoch 0\ncells 64\ncount 8\nspacing 1\ncycles 4\nname reader 0\n";

#[test]
fn write_saves_all_or_nothing(rt: HostRuntime) -> Result<(), Fail> {
    expect_failing(rt.alloc(), &FAILING_WRITE)
}

static REFUSED: [(Step, &str); 9] = [
    (Queue(4), ""),
    (Write(0, b"a\n\n"), "cq: line 2: BadRoom"),
    (Check, ""),
    (Write(253_402_300_800_000, b"a\n"), "cq: BadMoment"),
    (Check, ""),
    (Write(253_402_300_800_000, b""), "cq: BadMoment"),
    (Check, ""),
    (Write(253_402_300_800_000, b"\n"), "cq: BadMoment"),
    (Check, ""),
];

#[test]
fn the_first_fault_of_commands_is_said(rt: HostRuntime) -> Result<(), Fail> {
    expect(rt.alloc(), &NO_CONFIG)?;
    expect(rt.alloc(), &NO_FILE)?;
    expect(rt.alloc(), &NOWHERE)?;
    expect(rt.alloc(), &REFUSED)
}

/// A file that is put into a folder with "hello" in cycle 0, and the fault that `check`, `read` and `write` report then.
static PUT: [(Step, &str); 4] = [
    (PutConfig("cq 1\nroll weekly\n"), "cq: queue.cqc: line 2"),
    (BAD_CELLS_AND_CYCLES, "cq: BadShape"),
    (BAD_CYCLES, "cq: BadConfig"),
    (Put("0.cqi", b""), "cq: 0.cqi: bad cycle name"),
];

/// An image that is put there, what `check` says of it, and the fault that `read` and `write` report.
static PUT_IMAGE: [(&[u8], &str, &str); 3] = [
    (
        b"x",
        "Cut at 0\ncq: images at fault",
        "cq: 19700102.cqi: Cut at 0",
    ),
    (b"", "0 messages, open\n", "cq: 19700101.cqi: wrong end"),
    (ENDED, "0 messages, ended\n", "cq: 19700101.cqi: wrong end"),
];

/// The commands that report that fault.
static COMMANDS: [Step; 6] = [Bar, Check, Bar, Read, Bar, Write(0, b"")];

/// What `write` says of "hello", and then `check`, `read` and `write` if this file was put, with a bar between.
fn said_with(alloc: Global, file: Step) -> Said {
    let before = [Queue(4), Write(0, b"hello\n"), file];
    let mut folder = MemoryFolder::new(alloc);
    let mut said = said_by(alloc, &mut folder, &before)?;
    push_said(alloc, &mut folder, &COMMANDS, &mut said)?;
    Ok(said)
}

#[test]
fn reports_the_first_fault(rt: HostRuntime) -> Result<(), Fail> {
    let alloc = rt.alloc();
    for (place, &(file, fault)) in PUT.iter().enumerate() {
        let want = format!(in alloc; "0000000000000000\n|{fault}|{fault}|{fault}")?;
        let said = said_with(alloc, file)?;
        expect_answer("file", place, said.as_str(), want.as_str())?;
    }
    for (place, &(image, said, fault)) in PUT_IMAGE.iter().enumerate() {
        let want = format!(in alloc;
            "0000000000000000\n|19700101.cqi: 1 messages, open\n19700102.cqi: {said}|{fault}|{fault}"
        )?;
        let said = said_with(alloc, Put("19700102.cqi", image))?;
        expect_answer("image", place, said.as_str(), want.as_str())?;
    }
    expect_text(
        said_with(alloc, Put("notes.txt", b"x"))?,
        "0000000000000000\n|19700101.cqi: 1 messages, open\n|0000000000000000 hello\n|",
    )
}
