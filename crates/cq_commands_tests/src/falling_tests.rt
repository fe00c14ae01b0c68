//! A folder may list its names in any order: commands return the same.
use crate::images::{A, ENDED, HELLO};
use crate::steps::Step::{
    self, Back, Check, Dump, Images, Length, Migrate, OldQueue, Put, PutConfig, Queue, Read, Take,
    Write,
};
use crate::steps::{BOTH, Steps, expect_each, expect_steps, said_by};
use crate::streams::Said;
use crate::watched::WatchedFolder;
use cq_fixtures::{DAY, expect_text};
use cq_folder::{Access, Folder};
use std::alloc::Global;
use std::cell::Cell;
use std::test::Fail;

/// Fails if a step says something else than its row wants, over a folder that lists its names in rising
/// order, or over one that lists them in falling order.
fn expect_in_any_order(alloc: Global, table: &[Steps]) -> Result<(), Fail> {
    expect_each(alloc, table)?;
    for (number, steps) in table.iter().enumerate() {
        let row = format!(in alloc; "row {number}, in falling order")?;
        expect_falling(alloc, row.as_str(), steps)?;
    }
    Ok(())
}

/// Fails if one of these steps says something else than wanted over a new folder that lists its names in falling order.
fn expect_falling(alloc: Global, row: &str, steps: Steps) -> Result<(), Fail> {
    let is_entered = Cell::new(false);
    let mut folder = WatchedFolder::new(alloc, &is_entered);
    expect_steps(alloc, row, &mut folder, steps)
}

static THREE_FILES: [Step; 3] = [Put("b", b""), Put("c", b""), Put("a", b"")];

/// The names that a folder lists when those three files were put into it, as text.
fn three_names(alloc: Global, folder: &mut WatchedFolder<'_>) -> Said {
    said_by(alloc, folder, &THREE_FILES)?;
    folder.begin(alloc, Access::Shared)?;
    let names = folder.names(alloc)?;
    Ok(format!(in alloc; "{:?}", names.as_slice())?)
}

#[test]
fn lists_its_names_in_falling_order(rt: HostRuntime) -> Result<(), Fail> {
    let is_entered = Cell::new(false);
    let mut folder = WatchedFolder::new(rt.alloc(), &is_entered);
    expect_text(
        three_names(rt.alloc(), &mut folder)?,
        "[\"c\", \"b\", \"a\"]",
    )
}

static SAME: [Steps; 2] = [
    // A queue of three cycles, each with one message, and what is done with it.
    &[
        (Queue(4), ""),
        (Write(0, b"a\n"), "0000000000000000\n"),
        (Write(DAY, b"b\n"), "0000000100000000\n"),
        (Write(2 * DAY, b"c\n"), "0000000200000000\n"),
        (
            Check,
            "19700101.cqi: 1 messages, ended\n19700102.cqi: 1 messages, ended\n19700103.cqi: 1 messages, open\n",
        ),
        (
            Read,
            "0000000000000000 a\n0000000100000000 b\n0000000200000000 c\n",
        ),
        (
            Back,
            "0000000200000000 c\n0000000100000000 b\n0000000000000000 a\n",
        ),
        (
            Dump("19700102.cqi"),
            "00000000 40000024 store 2 1 8 1 64 0 86400000\n00000028 40000020 top 76 0 0 0 0 0 0 0\n\
0000004c 40000020 table 0 112 0 0 0 0 0 0 0\n00000070 00000001 data 0 62\n00000078 c0000000 end\n",
        ),
        (Write(2 * DAY, b"d\n"), "0000000200000001\n"),
        (Take("reader"), "0000000000000000 a\n"),
        (
            Check,
            "19700101.cqi: 1 messages, ended\n19700102.cqi: 1 messages, ended\n19700103.cqi: 2 messages, open\n",
        ),
    ],
    // A folder of version 1 with two images becomes one of version 2.
    &[
        (OldQueue(4), ""),
        (Images(&[HELLO, A]), ""),
        (Migrate, ""),
        (Length("19700101.cqi"), "128"),
        (Check, BOTH),
        (Read, "0000000000000000 hello\n0000000100000000 a\n"),
    ],
];

#[test]
fn answers_the_same_in_any_order(rt: HostRuntime) -> Result<(), Fail> {
    expect_in_any_order(rt.alloc(), &SAME)
}

/// Two faults, of which the first is reported: by the order of names, and by what comes first of the configuration,
/// names, images, ends and contents.
static TWO: [Steps; 8] = [
    &[
        (Queue(4), ""),
        (PutConfig(""), ""),
        (Put("zzz.cqi", b""), ""),
        (Check, "cq: queue.cqc: line 1"),
        (Read, "cq: queue.cqc: line 1"),
        (Dump("zzz.cqi"), "cq: queue.cqc: line 1"),
        (Write(0, b"a\n"), "cq: queue.cqc: line 1"),
    ],
    &[
        (Queue(4), ""),
        (Put("aaa.cqi", b""), ""),
        (Put("zzz.cqi", b""), ""),
        (Check, "cq: aaa.cqi: bad cycle name"),
        (Read, "cq: aaa.cqi: bad cycle name"),
        (Dump("zzz.cqi"), "cq: zzz.cqi: bad cycle name"),
        (Write(0, b"a\n"), "cq: aaa.cqi: bad cycle name"),
    ],
    &[
        (Queue(4), ""),
        (Put("19700101.cqi", b"x"), ""),
        (Put("zzz.cqi", b""), ""),
        (Check, "cq: zzz.cqi: bad cycle name"),
        (Read, "cq: zzz.cqi: bad cycle name"),
        (Dump("19700101.cqi"), "cq: 19700101.cqi: Cut at 0"),
        (Write(0, b"a\n"), "cq: zzz.cqi: bad cycle name"),
    ],
    &[
        (Queue(4), ""),
        (Images(&[b"x", b"yy"]), ""),
        (
            Check,
            "19700101.cqi: Cut at 0\n19700102.cqi: Cut at 0\ncq: images at fault",
        ),
        (Read, "cq: 19700101.cqi: Cut at 0"),
        (Dump("19700102.cqi"), "cq: 19700102.cqi: Cut at 0"),
        (Write(0, b"a\n"), "cq: 19700101.cqi: Cut at 0"),
    ],
    // The first image is open, and not the last.
    &[
        (Queue(4), ""),
        (Images(&[b"", b"x"]), ""),
        (Read, "cq: 19700102.cqi: Cut at 0"),
        (Write(0, b"a\n"), "cq: 19700102.cqi: Cut at 0"),
    ],
    // So is the second, and the third has ended.
    &[
        (Queue(4), ""),
        (Images(&[b"", b"", ENDED]), ""),
        (Read, "cq: 19700101.cqi: wrong end"),
        (Write(0, b"a\n"), "cq: 19700101.cqi: wrong end"),
    ],
    // Two cycles are more than the settings allow.
    &[
        (Queue(1), ""),
        (Images(&[ENDED, ENDED]), ""),
        (Read, "cq: 19700102.cqi: wrong end"),
        (Write(0, b"a\n"), "cq: 19700102.cqi: wrong end"),
    ],
    &[
        (Queue(1), ""),
        (Images(&[ENDED, b""]), ""),
        (Read, "cq: BadContents"),
        (Write(0, b"a\n"), "cq: BadContents"),
    ],
];

#[test]
fn reports_the_same_fault_in_any_order(rt: HostRuntime) -> Result<(), Fail> {
    expect_in_any_order(rt.alloc(), &TWO)
}
