//! A folder of which one call fails: the old file is kept or not, and the queue is as it was or repaired.
use crate::steps::Step::{self, Names, Put, Repair, Same};
use crate::steps::{ONE, TORN, said_at};
use cq_fixtures::expect_text;
use cq_folder::{FailingFolder, MemoryFolder};
use std::alloc::Global;
use std::test::Fail;

/// The number of the call that fails, and whether it is done all the same; what is said, the names of the files after it, and
/// whether the image is the new one.
type Row = (u64, bool, &'static str, &'static str, &'static str);

/// The names before, and those with the old file.
const BEFORE: &str = "19700101.cqi queue.cqc ";

const KEPT: &str = "19700101.cqi 19700101.cqi.bad queue.cqc ";

/// The files of the queue, and the old file under its new name.
const CONFIG: Step = Put(
    "queue.cqc",
    b"cq 2\nroll daily\nepoch 0\ncells 64\ncount 8\nspacing 1\ncycles 4\n",
);

const IMAGE: Step = Put("19700101.cqi", TORN);

const OLD: Step = Put("19700101.cqi.bad", TORN);

static ROWS: &[Row] = &[
    (1, false, "cq: folder fault", BEFORE, "other"),
    (2, false, "cq: folder fault", BEFORE, "other"),
    (3, false, "cq: file fault: queue.cqc", BEFORE, "other"),
    (4, false, "cq: file fault: 19700101.cqi", BEFORE, "other"),
    (
        5,
        false,
        "cq: file fault: 19700101.cqi.bad",
        BEFORE,
        "other",
    ),
    (5, true, "cq: file fault: 19700101.cqi.bad", KEPT, "other"),
    (6, false, "cq: file fault: 19700101.cqi", KEPT, "other"),
    (6, true, "cq: file fault: 19700101.cqi", KEPT, "same"),
    (
        7,
        false,
        "19700101.cqi: 1 messages kept, the old file is 19700101.cqi.bad\n",
        KEPT,
        "same",
    ),
];

/// The same where the old file is there already: the fifth call compares it.
static AGAIN: &[Row] = &[
    (4, false, "cq: file fault: 19700101.cqi", KEPT, "other"),
    (5, false, "cq: file fault: 19700101.cqi.bad", KEPT, "other"),
    (6, false, "cq: file fault: 19700101.cqi.bad", KEPT, "other"),
    (6, true, "cq: file fault: 19700101.cqi.bad", KEPT, "other"),
    (7, false, "cq: file fault: 19700101.cqi", KEPT, "other"),
    (7, true, "cq: file fault: 19700101.cqi", KEPT, "same"),
    (
        8,
        false,
        "19700101.cqi: 1 messages kept, the old file is 19700101.cqi.bad\n",
        KEPT,
        "same",
    ),
];

/// Puts these files, repairs the image over a folder that fails so, compares what is said and what is left, and repairs it again.
fn expect_row(alloc: Global, files: &[Step], row: &Row) -> Result<(), Fail> {
    let (number, writes, want, names, image) = *row;
    let mut folder = MemoryFolder::new(alloc);
    for step in files {
        let _put = said_at(alloc, &mut folder, step)?;
    }
    let mut failing = if writes {
        FailingFolder::written(folder, number)
    } else {
        FailingFolder::new(folder, number)
    };
    expect_text(said_at(alloc, &mut failing, &Repair("19700101.cqi"))?, want)?;
    let mut left = failing.into_inner();
    expect_text(said_at(alloc, &mut left, &Names)?, names)?;
    expect_text(
        said_at(alloc, &mut left, &Same("19700101.cqi", ONE))?,
        image,
    )?;
    let _again = said_at(alloc, &mut left, &Repair("19700101.cqi"))?;
    expect_text(
        said_at(alloc, &mut left, &Same("19700101.cqi", ONE))?,
        "same",
    )
}

#[test]
fn a_later_call_goes_on(rt: HostRuntime) -> Result<(), Fail> {
    for row in ROWS {
        expect_row(rt.alloc(), &[CONFIG, IMAGE], row)?;
    }
    Ok(())
}

#[test]
fn a_file_that_is_there_is_compared(rt: HostRuntime) -> Result<(), Fail> {
    for row in AGAIN {
        expect_row(rt.alloc(), &[CONFIG, IMAGE, OLD], row)?;
    }
    Ok(())
}
