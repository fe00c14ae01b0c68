//! A folder of 4 cycles lives through 40: each day is written, read and trimmed.
use crate::steps::Step::{Check, Init, Last, Read, Take, Write};
use crate::steps::said_at;
use cq_cycle::{Index, Roll, has_cycle, name_of};
use cq_fixtures::{DAY, expect_text};
use cq_folder::{FailingFolder, Folder, MemoryFolder};
use std::alloc::Global;
use std::test::Fail;

/// How many days are written.
const DAYS: u32 = 40;

#[test]
fn a_folder_of_four_cycles_lives_through_forty(rt: HostRuntime) -> Result<(), Fail> {
    let alloc = rt.alloc();
    let mut folder = MemoryFolder::new(alloc);
    expect_text(
        said_at(alloc, &mut folder, &Init("daily", 0, 4, &["reader"]))?,
        "",
    )?;
    for day in 0..DAYS {
        expect_day(alloc, &mut folder, day)?;
    }
    let left = "19700208.cqi: 1 messages, ended\n19700209.cqi: 1 messages, open\n";
    expect_text(said_at(alloc, &mut folder, &Check)?, left)?;
    expect_text(
        said_at(alloc, &mut folder, &Read)?,
        "0000002600000000 hello\n0000002700000000 hello\n",
    )
}

/// A day: its message is written and taken, and then all days but the last two are removed.
fn expect_day(alloc: Global, folder: &mut MemoryFolder, day: u32) -> Result<(), Fail> {
    let index = Index::new(day, 0);
    let written = said_at(alloc, folder, &Write(u64::from(day) * DAY, b"hello\n"))?;
    expect_text(written, format!(in alloc; "{index}\n")?.as_str())?;
    let taken = said_at(alloc, folder, &Take("reader"))?;
    expect_text(taken, format!(in alloc; "{index} hello\n")?.as_str())?;
    let trimmed = said_at(alloc, folder, &Last(2))?;
    if day < 2 {
        return expect_text(trimmed, "");
    }
    let removed = day - 2;
    if !has_cycle(Roll::Daily, 0, removed) {
        return Err(Fail::new(format_args!("day {removed} has no name")));
    }
    let name = name_of(alloc, Roll::Daily, 0, removed)?;
    expect_text(trimmed, format!(in alloc; "{name}.cqi\n")?.as_str())
}

/// What the command says if a call on the folder fails: the listing, the read of `queue.cqc` or of an image, or the save.
static FAILURES: [&str; 6] = [
    "cq: folder fault",
    "cq: folder fault",
    "cq: file fault: queue.cqc",
    "cq: file fault: 19700101.cqi",
    "cq: file fault: 19700102.cqi",
    "cq: file fault: queue.cqc",
];

/// A folder with a message in each of two cycles.
fn two_days(alloc: Global) -> Result<MemoryFolder, Fail> {
    let mut folder = MemoryFolder::new(alloc);
    for step in [
        Init("daily", 0, 4, &[]),
        Write(0, b"a\n"),
        Write(DAY, b"b\n"),
    ] {
        let _said = said_at(alloc, &mut folder, &step)?;
    }
    Ok(folder)
}

#[test]
fn a_folder_may_fail(rt: HostRuntime) -> Result<(), Fail> {
    let alloc = rt.alloc();
    for (number, want) in FAILURES.iter().enumerate() {
        let mut folder = FailingFolder::new(two_days(alloc)?, number as u64 + 1);
        expect_text(said_at(alloc, &mut folder, &Last(1))?, want)?;
    }
    let mut folder = FailingFolder::new(two_days(alloc)?, FAILURES.len() as u64 + 1);
    expect_text(said_at(alloc, &mut folder, &Last(1))?, "19700101.cqi\n")
}
