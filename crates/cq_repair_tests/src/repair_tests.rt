//! What `repair` keeps, leaves and says.
use crate::steps::Step::{Config, Fill, Names, Put, Repair, Same, Try, Unprinted};
use crate::steps::{ENDED, ONE, ONE_ENDED, Steps, TORN, TWO, expect_steps};
use std::test::Fail;

/// The last cycle has a fault in its second message: names above the first one move down, and the old file stays.
static LAST: Steps = &[
    (
        Put(
            "queue.cqc",
            b"cq 2\nroll daily\nepoch 0\ncells 64\ncount 8\nspacing 1\ncycles 4\nname a 0\nname b 1\nname c 2\nname d 8589934592\n",
        ),
        "",
    ),
    (Put("19700101.cqi", TORN), ""),
    (Put("notes.txt", b"not one of the queue's"), ""),
    (
        Try("19700101.cqi"),
        "19700101.cqi: 1 messages would be kept, the old file would be 19700101.cqi.bad\n\
c would move from 0000000000000002 to 0000000000000001\n\
d would move from 0000000200000000 to 0000000000000001\n",
    ),
    (Names, "19700101.cqi notes.txt queue.cqc "),
    (Same("19700101.cqi", TORN), "same"),
    (
        Repair("19700101.cqi"),
        "19700101.cqi: 1 messages kept, the old file is 19700101.cqi.bad\n\
c moved from 0000000000000002 to 0000000000000001\n\
d moved from 0000000200000000 to 0000000000000001\n",
    ),
    (Names, "19700101.cqi 19700101.cqi.bad notes.txt queue.cqc "),
    (Same("19700101.cqi", ONE), "same"),
    (Same("19700101.cqi.bad", TORN), "same"),
    (
        Config,
        "cq 2\nroll daily\nepoch 0\ncells 64\ncount 8\nspacing 1\ncycles 4\nname a 0\nname b 1\nname c 1\nname d 1\n",
    ),
    (
        Repair("19700101.cqi"),
        "cq: nothing to repair: 19700101.cqi has no fault",
    ),
    // The same damage once more: the old file is there already, with the same bytes.
    (Put("19700101.cqi", TORN), ""),
    (
        Repair("19700101.cqi"),
        "19700101.cqi: 1 messages kept, the old file is 19700101.cqi.bad\n",
    ),
    // Other damage: a file with other bytes has its name.
    (Put("19700101.cqi", b"x"), ""),
    (
        Try("19700101.cqi"),
        "cq: there already: 19700101.cqi.bad has other bytes, so move it away first",
    ),
    (
        Repair("19700101.cqi"),
        "cq: there already: 19700101.cqi.bad has other bytes, so move it away first",
    ),
    (Same("19700101.cqi", b"x"), "same"),
    (Same("19700101.cqi.bad", TORN), "same"),
];

/// An earlier cycle has the fault: it has ended, and names in other cycles stay. Other images are not read, and the name of
/// a file that is no cycle's says nothing.
static EARLIER: Steps = &[
    (
        Put(
            "queue.cqc",
            b"cq 2\nroll daily\nepoch 0\ncells 64\ncount 8\nspacing 1\ncycles 4\nfloor 1\nname a 2\nname b 4294967298\n",
        ),
        "",
    ),
    (Put("19700101.cqi", TORN), ""),
    (Put("19700102.cqi", b"no image"), ""),
    (
        Repair("19700101.cqi"),
        "19700101.cqi: 1 messages kept, the old file is 19700101.cqi.bad\na moved from 0000000000000002 to 0000000000000001\n",
    ),
    (Same("19700101.cqi", ONE_ENDED), "same"),
    (Same("19700102.cqi", b"no image"), "same"),
    (
        Config,
        "cq 2\nroll daily\nepoch 0\ncells 64\ncount 8\nspacing 1\ncycles 4\nfloor 1\nname a 1\nname b 4294967298\n",
    ),
    (Put("zzz.cqi", b"no image"), ""),
    (
        Repair("19700102.cqi"),
        "19700102.cqi: 0 messages kept, the old file is 19700102.cqi.bad\nb moved from 0000000100000002 to 0000000100000000\n",
    ),
    (Same("19700102.cqi", b""), "same"),
    (Same("zzz.cqi", b"no image"), "same"),
];

/// Folders and files that are refused, in the order of the faults.
static REFUSED: Steps = &[
    (Repair("19700101.cqi"), "cq: no queue here"),
    (Put("queue.cqc", b"cq 3\n"), ""),
    (Repair("19700101.cqi"), "cq: queue.cqc: line 1"),
    (
        Put(
            "queue.cqc",
            b"cq 1\nroll daily\nepoch 0\ncells 64\ncount 8\nspacing 1\ncycles 4\n",
        ),
        "",
    ),
    (Repair("19700101.cqi"), "cq: no such file: 19700101.cqi"),
    (Repair("queue.cqc"), "cq: no such file: queue.cqc"),
    (Put("today.cqi", TORN), ""),
    (Repair("today.cqi"), "cq: today.cqi: bad cycle name"),
    (Put("19700101.cqi", TORN), ""),
    (Repair("19700101.cqi"), "cq: OldVersion"),
    (Names, "19700101.cqi queue.cqc today.cqi "),
    (
        Put(
            "queue.cqc",
            b"cq 2\nroll daily\nepoch 0\ncells 64\ncount 8\nspacing 1\ncycles 4\n",
        ),
        "",
    ),
    // Too large, by one byte, and as large as may be.
    (Fill("19700101.cqi", 8_388_609), ""),
    (Repair("19700101.cqi"), "cq: file too large: 19700101.cqi"),
    (Names, "19700101.cqi queue.cqc today.cqi "),
    (Fill("19700101.cqi", 8_388_608), ""),
    (
        Try("19700101.cqi"),
        "19700101.cqi: 0 messages would be kept, the old file would be 19700101.cqi.bad\n",
    ),
    (Put("19700101.cqi", TORN), ""),
    // A writer that fails: all is saved.
    (Unprinted("19700101.cqi", 3), "cq: write fault"),
    (Same("19700101.cqi", ONE), "same"),
    (Same("19700101.cqi.bad", TORN), "same"),
    // Sound images, open and ended.
    (Put("19700101.cqi", TWO), ""),
    (
        Repair("19700101.cqi"),
        "cq: nothing to repair: 19700101.cqi has no fault",
    ),
    (Put("19700101.cqi", ENDED), ""),
    (
        Repair("19700101.cqi"),
        "cq: nothing to repair: 19700101.cqi has no fault",
    ),
];

#[test]
fn the_last_cycle_is_repaired(rt: HostRuntime) -> Result<(), Fail> {
    expect_steps(rt.alloc(), LAST)
}

#[test]
fn an_earlier_cycle_is_repaired(rt: HostRuntime) -> Result<(), Fail> {
    expect_steps(rt.alloc(), EARLIER)
}

#[test]
fn others_are_refused(rt: HostRuntime) -> Result<(), Fail> {
    expect_steps(rt.alloc(), REFUSED)
}
