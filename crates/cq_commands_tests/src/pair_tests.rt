//! Two faults that compete, over a folder that lists its names in falling order: the first one of the command's order
//! is reported.
use crate::images::ENDED;
use crate::steps::Step::{
    self, BackFrom, Drop, Fill, Images, Init, Migrate, OldCells, OldQueue, Patch, Peek, Put,
    PutConfig, Queue, Read, ReadFrom, Take, TakeUpTo, UnprintedCheck, UnprintedDump, UnprintedPeek,
    UnprintedRead, UnprintedTake, UnprintedTakeTwo, UnprintedWrite, Write, WriteBroken, WriteEmpty,
};
use crate::steps::{BAD_CELLS_AND_CYCLES, BAD_CYCLES, OVER, said_at, said_by};
use crate::streams::Said;
use crate::watched::WatchedFolder;
use cq_fixtures::{DAY, expect_text, push_missed};
use cq_folder::FailingFolder;
use std::alloc::Global;
use std::cell::Cell;
use std::test::Fail;

/// What is done before, the call on the folder that fails at a step, or 0 if none does, the step, and the fault that is
/// reported.
type Pair = (&'static [Step], u64, Step, &'static str);

/// The same for one command: the step that makes a queue, its files, the failing call, and the fault.
type InFolder = (Step, &'static [Step], u64, &'static str);

/// What a step says after others and these files, in a folder of which a call fails.
fn said_failing(alloc: Global, before: &[Step], files: &[Step], failing: u64, step: &Step) -> Said {
    let is_entered = Cell::new(false);
    let mut folder = WatchedFolder::new(alloc, &is_entered);
    said_by(alloc, &mut folder, before)?;
    said_by(alloc, &mut folder, files)?;
    said_at(alloc, &mut FailingFolder::new(folder, failing), step)
}

/// Fails if a step does not report the first of its two faults.
fn expect_first(alloc: Global, pairs: &[Pair]) -> Result<(), Fail> {
    let mut missed = String::new(alloc);
    for (place, (before, failing, step, want)) in pairs.iter().enumerate() {
        let said = said_failing(alloc, before, &[], *failing, step)?;
        push_missed(alloc, &mut missed, place, said.as_str(), want)?;
    }
    expect_text(missed, "")
}

/// Fails if a command does not report the first of two faults.
fn expect_first_of(alloc: Global, command: Step, rows: &[InFolder]) -> Result<(), Fail> {
    let mut missed = String::new(alloc);
    for (place, (queue, files, failing, want)) in rows.iter().enumerate() {
        let said = said_failing(alloc, &[*queue], files, *failing, &command)?;
        push_missed(alloc, &mut missed, place, said.as_str(), want)?;
    }
    expect_text(missed, "")
}

/// A queue in a folder of version 2.
const NEW: Step = Queue(4);

/// A queue in a folder of version 1.
const OLD: Step = OldQueue(4);

/// A file that is named as no image is.
const NO_IMAGE: Step = Put("zzz.cqi", b"");

/// A fault in line 2 of `queue.cqc`.
const BAD_LINE: Step = Patch("queue.cqc", 5, b"x");

// The images of cycles 0 and 1: open with no message, ended with none, faulty, or larger than what is read.
const FAULTY_FIRST: Step = Put("19700101.cqi", b"x");

const ENDED_FIRST: Step = Put("19700101.cqi", ENDED);

const FAULTY: &[Step] = &[FAULTY_FIRST];

const FAULTY_NO_IMAGE: &[Step] = &[FAULTY_FIRST, NO_IMAGE];

const FAULTY_OPEN: &[Step] = &[Images(&[b"x", b""])];

const FAULTY_LARGE: &[Step] = &[FAULTY_FIRST, Fill("19700102.cqi", 0, OVER)];

const LARGE: &[Step] = &[Fill("19700101.cqi", 0, OVER)];

const LARGE_FAULTY: &[Step] = &[Fill("19700101.cqi", 0, OVER), Put("19700102.cqi", b"x")];

const OPEN_FAULTY: &[Step] = &[Images(&[b"", b"x"])];

const OPEN_ENDED: &[Step] = &[Images(&[b"", ENDED])];

const ENDED_OPEN: &[Step] = &[Images(&[ENDED, b""])];

const ENDED_FAULTY: &[Step] = &[Images(&[ENDED, b"x"])];

const ENDED_ENDED: &[Step] = &[Images(&[ENDED, ENDED])];

/// Of `read`.
static OPENING: [InFolder; 17] = [
    // Of the folder, of `queue.cqc` and of the names of images.
    (NO_IMAGE, &[], 1, "cq: folder fault"),
    (NO_IMAGE, &[], 2, "cq: folder fault"),
    (NO_IMAGE, &[], 0, "cq: no queue here"),
    (NEW, LARGE_CONFIG, 3, "cq: file fault: queue.cqc"),
    (NEW, LARGE_CONFIG, 0, "cq: file too large: queue.cqc"),
    (BAD_CELLS_AND_NAME, &[], 0, "cq: queue.cqc: line 8"),
    (BAD_CELLS_AND_CYCLES, &[NO_IMAGE], 0, "cq: BadShape"),
    (BAD_CYCLES, &[NO_IMAGE], 0, "cq: BadConfig"),
    (NEW, FAULTY_NO_IMAGE, 4, "cq: zzz.cqi: bad cycle name"),
    // Of images, their ends, and what they hold together.
    (NEW, LARGE, 4, "cq: file fault: 19700101.cqi"),
    (NEW, ENDED_FAULTY, 4, "cq: file fault: 19700101.cqi"),
    (NEW, FAULTY_OPEN, 5, "cq: 19700101.cqi: Cut at 0"),
    (NEW, LARGE_FAULTY, 0, "cq: file too large: 19700101.cqi"),
    (NEW, FAULTY_LARGE, 0, "cq: 19700101.cqi: Cut at 0"),
    (NEW, OPEN_FAULTY, 0, "cq: 19700102.cqi: Cut at 0"),
    (Queue(1), OPEN_ENDED, 0, "cq: 19700101.cqi: wrong end"),
    (Queue(1), ENDED_ENDED, 0, "cq: 19700102.cqi: wrong end"),
];

/// A `queue.cqc` that is larger than what is read.
const LARGE_CONFIG: &[Step] = &[Fill("queue.cqc", 0, OVER)];

/// A `queue.cqc` with too few cells, and a name without a position.
const BAD_CELLS_AND_NAME: Step = PutConfig(
    "cq 1\nroll daily\nepoch 0\ncells 30\ncount 8\nspacing 1\ncycles 4\nname a\n",
);

#[test]
fn the_configuration_comes_before_the_images(rt: HostRuntime) -> Result<(), Fail> {
    expect_first_of(rt.alloc(), Read, &OPENING)
}

/// Of `init`.
static INIT: [Pair; 7] = [
    (&[NEW], 1, Init("weekly", 0, 64, 4, &[]), "cq: BadConfig"),
    (&[NEW], 1, FEW_CELLS, "cq: folder fault"),
    (&[NEW], 2, FEW_CELLS, "cq: folder fault"),
    (&[NEW], 0, FEW_CELLS, "cq: queue there already"),
    (&[], 0, Init("daily", 0, 30, 0, &[]), "cq: BadShape"),
    (&[], 3, FEW_CELLS, "cq: BadShape"),
    (&[], 3, Init("daily", 0, 64, 0, &[]), "cq: BadConfig"),
];

/// `init` with too few cells.
const FEW_CELLS: Step = Init("daily", 0, 30, 4, &[]);

/// Of `check`: of the files of all images before what one holds.
static CHECK: [InFolder; 6] = [
    (NO_IMAGE, &[], 0, "cq: no queue here"),
    (NEW, FAULTY_NO_IMAGE, 4, "cq: zzz.cqi: bad cycle name"),
    (NEW, LARGE_FAULTY, 4, "cq: file fault: 19700101.cqi"),
    (NEW, FAULTY_OPEN, 5, "cq: file fault: 19700102.cqi"),
    (NEW, FAULTY_LARGE, 0, "cq: file too large: 19700102.cqi"),
    (NEW, FAULTY_OPEN, 0, "cq: write fault"),
];

/// Of `dump` of a file that is named as no image is.
static DUMP_NO_IMAGE: [InFolder; 3] = [
    (PutConfig(""), &[], 0, "cq: queue.cqc: line 1"),
    (NEW, &[], 0, "cq: no such file: zzz.cqi"),
    (
        NEW,
        &[Put("zzz.cqi", b"x")],
        4,
        "cq: zzz.cqi: bad cycle name",
    ),
];

/// Of `dump` of an image.
static DUMP: [InFolder; 3] = [
    (NEW, LARGE, 4, "cq: file fault: 19700101.cqi"),
    (NEW, LARGE, 0, "cq: file too large: 19700101.cqi"),
    (NEW, FAULTY, 0, "cq: 19700101.cqi: Cut at 0"),
];

#[test]
fn init_check_and_dump_say_the_first(rt: HostRuntime) -> Result<(), Fail> {
    expect_first(rt.alloc(), &INIT)?;
    expect_first_of(rt.alloc(), UnprintedCheck, &CHECK)?;
    expect_first_of(rt.alloc(), UnprintedDump("zzz.cqi"), &DUMP_NO_IMAGE)?;
    expect_first_of(rt.alloc(), UnprintedDump("19700101.cqi"), &DUMP)
}

/// A queue with "a" in cycle 0.
const BEGUN: &[Step] = &[Queue(4), Write(0, b"a\n")];

/// More cycles than the settings allow.
const TOO_MANY: &[Step] = &[Queue(1), Images(&[ENDED, b""])];

/// The same in a folder of version 1.
const OLD_TOO_MANY: &[Step] = &[OldQueue(1), Images(&[ENDED, b""])];

/// Of `read` and `take`.
static READ: [Pair; 12] = [
    (&[], 1, ReadFrom("x"), "cq: BadIndex"),
    (TOO_MANY, 0, BackFrom("x"), "cq: BadIndex"),
    (TOO_MANY, 0, UnprintedRead, "cq: BadContents"),
    (TOO_MANY, 0, Take("none"), "cq: BadContents"),
    (BEGUN, 5, Take("none"), "cq: NoSuchName"),
    (BEGUN, 5, UnprintedTake, "cq: file fault: queue.cqc"),
    (TOO_MANY, 0, TakeUpTo("none", 0), "cq: BadContents"),
    (BEGUN, 5, TakeUpTo("none", 0), "cq: NoSuchName"),
    (BEGUN, 5, UnprintedTakeTwo, "cq: file fault: queue.cqc"),
    (TOO_MANY, 0, Peek("none", None), "cq: BadContents"),
    (BEGUN, 5, Peek("none", Some(0)), "cq: NoSuchName"),
    (BEGUN, 5, UnprintedPeek, "cq: write fault"),
];

/// Of a folder of version 1 that is to be changed: of `queue.cqc` before its version, and of all else after it.
static CHANGE: [Pair; 10] = [
    (&[OLD], 2, Write(0, b"a\n"), "cq: folder fault"),
    (&[OLD], 3, Take("reader"), "cq: file fault: queue.cqc"),
    (&[OLD, BAD_LINE], 0, Drop(0), "cq: queue.cqc: line 2"),
    (&[OldQueue(0)], 0, Write(0, b"a\n"), "cq: BadConfig"),
    (
        &[OLD, NO_IMAGE],
        0,
        Write(u64::MAX, b"\n"),
        "cq: OldVersion",
    ),
    (&[OLD, FAULTY_FIRST], 4, Take("none"), "cq: OldVersion"),
    (
        &[OLD, FAULTY_FIRST],
        4,
        TakeUpTo("none", 0),
        "cq: OldVersion",
    ),
    (&[OLD, ENDED_FIRST], 0, Drop(0), "cq: OldVersion"),
    (OLD_TOO_MANY, 0, WriteBroken(u64::MAX, 0), "cq: OldVersion"),
    (&[OLD], 0, WriteEmpty(0, OVER), "cq: OldVersion"),
];

#[test]
fn read_and_take_say_the_first(rt: HostRuntime) -> Result<(), Fail> {
    expect_first(rt.alloc(), &READ)?;
    expect_first(rt.alloc(), &CHANGE)
}

/// Of `migrate`, which minds no contents that a queue cannot hold.
static MIGRATE: [InFolder; 12] = [
    (NO_IMAGE, &[], 1, "cq: folder fault"),
    (NO_IMAGE, &[], 0, "cq: no queue here"),
    (OLD, &[BAD_LINE], 0, "cq: queue.cqc: line 2"),
    (OldQueue(0), &[NO_IMAGE], 0, "cq: BadConfig"),
    (OldCells(1_048_574, 4), &[NO_IMAGE], 0, "cq: BadShape"),
    (OldCells(65_534, 64), &[NO_IMAGE], 0, "cq: BadConfig"),
    (OLD, FAULTY_NO_IMAGE, 4, "cq: zzz.cqi: bad cycle name"),
    (OLD, FAULTY_LARGE, 0, "cq: 19700101.cqi: Cut at 0"),
    (OLD, LARGE_FAULTY, 0, "cq: file too large: 19700101.cqi"),
    (OLD, OPEN_FAULTY, 0, "cq: 19700102.cqi: Cut at 0"),
    (OLD, OPEN_ENDED, 6, "cq: 19700101.cqi: wrong end"),
    (OldQueue(1), ENDED_OPEN, 6, "cq: file fault: 19700101.cqi"),
];

#[test]
fn migrate_reports_the_first(rt: HostRuntime) -> Result<(), Fail> {
    expect_first_of(rt.alloc(), Migrate, &MIGRATE)
}

/// A line that fits into no cycle of 64 cells, after an empty one.
const EMPTY_LONG: &[u8] =
    b"\naaaaaaaaaaaaaaaaaaaaaaaaaaaaaaaaaaaaaaaaaaaaaaaaaaaaaaaaaaaaaaaaaaaaaaaaaaaaaaaaaaaaaaaaaaaaaaaaaaaaaaaaaaaaaaaaaaaaaaaaaaaaaaaaaaaaaaaaaaaaaaaaaaaaaaaaaaaaaaaaaaaaaaaaaaaaaaaaaaaaaaaaaaaaaaaaaaaaaaaa\n";

/// The same line before an empty one.
const LONG_EMPTY: &[u8] =
    b"aaaaaaaaaaaaaaaaaaaaaaaaaaaaaaaaaaaaaaaaaaaaaaaaaaaaaaaaaaaaaaaaaaaaaaaaaaaaaaaaaaaaaaaaaaaaaaaaaaaaaaaaaaaaaaaaaaaaaaaaaaaaaaaaaaaaaaaaaaaaaaaaaaaaaaaaaaaaaaaaaaaaaaaaaaaaaaaaaaaaaaaaaaaaaaaaaaaaaaaa\n\n";

/// A queue with "a" in its only cycle.
const FULL: &[Step] = &[Queue(1), Write(0, b"a\n")];

/// Of `write`.
static WRITE: [Pair; 10] = [
    (TOO_MANY, 0, WriteBroken(u64::MAX, 0), "cq: BadContents"),
    (&[NEW], 0, WriteBroken(u64::MAX, OVER), "cq: read fault"),
    (&[NEW], 0, WriteEmpty(u64::MAX, OVER), "cq: input too long"),
    (&[NEW], 0, Write(u64::MAX, b"\n"), "cq: BadMoment"),
    (FULL, 0, Write(DAY, EMPTY_LONG), "cq: line 1: BadRoom"),
    (FULL, 0, Write(DAY, LONG_EMPTY), "cq: line 1: NoCycleLeft"),
    (&[NEW], 0, Write(0, EMPTY_LONG), "cq: line 1: BadRoom"),
    (&[NEW], 0, Write(0, LONG_EMPTY), "cq: line 1: CycleFull"),
    (BEGUN, 5, Write(DAY, LONG_EMPTY), "cq: line 1: CycleFull"),
    (BEGUN, 5, UnprintedWrite, "cq: file fault: 19700101.cqi"),
];

#[test]
fn write_reports_the_first(rt: HostRuntime) -> Result<(), Fail> {
    expect_first(rt.alloc(), &WRITE)
}
