//! What `salvage` prints, and which faults it reports.
use crate::steps::Step::{self, Check, Cut, Fill, Length, Put, Queue, Salvage, Write};
use crate::steps::{
    Failing, MOST_BYTES, OVER, Steps, WRITES_HELLO_WORLD, expect, expect_each, expect_failing,
};
use cq_fixtures::DAY;
use std::test::Fail;

/// A queue with "hello" and "world" in one cycle, whose image is then cut off.
static CUT: [(Step, &str); 10] = [
    (Queue(4), ""),
    WRITES_HELLO_WORLD,
    (Length("20241004.cqi"), "136"),
    (Salvage("20241004.cqi"), "0 hello\n1 world\nwhole\n"),
    (Cut("20241004.cqi", 127), ""),
    (Salvage("20241004.cqi"), "0 hello\nCut at 124\n"),
    (Check, "20241004.cqi: Cut at 124\ncq: images at fault"),
    (Length("20241004.cqi"), "127"),
    (Cut("20241004.cqi", 0), ""),
    (Salvage("20241004.cqi"), "whole\n"),
];

/// Files that are no images of the folder, and what is reported of them.
static NO_IMAGE: [(Step, &str); 9] = [
    (Salvage("19700101.cqi"), "cq: no queue here"),
    (Queue(4), ""),
    (Salvage("19700101.cqi"), "cq: no such file: 19700101.cqi"),
    (Salvage("queue.cqc"), "cq: no such file: queue.cqc"),
    (Salvage("../x"), "cq: no such file: ../x"),
    (Salvage(""), "cq: no such file: "),
    (Put("zzz.cqi", b"x"), ""),
    (Salvage("yyy.cqi"), "cq: no such file: yyy.cqi"),
    (Salvage("zzz.cqi"), "cq: zzz.cqi: bad cycle name"),
];

#[test]
fn saves_what_lies_before_a_cut_of_an_image(rt: HostRuntime) -> Result<(), Fail> {
    expect(rt.alloc(), &CUT)?;
    expect(rt.alloc(), &NO_IMAGE)
}

/// The largest file that is read, one that is larger, and a faulty image along with the one that is named.
static LARGE: [Steps; 3] = [
    &[
        (Queue(1), ""),
        (Fill("19700101.cqi", 0, MOST_BYTES), ""),
        (Salvage("19700101.cqi"), "Unfinished at 0\n"),
    ],
    &[
        (Queue(1), ""),
        (Fill("19700101.cqi", 0, OVER), ""),
        (Salvage("19700101.cqi"), "cq: file too large: 19700101.cqi"),
    ],
    &[
        (Queue(4), ""),
        (Write(0, b"a\n"), "0000000000000000\n"),
        (Put("19700102.cqi", b"x"), ""),
        (Put("zzz.cqi", b""), ""),
        (Salvage("19700101.cqi"), "0 a\nwhole\n"),
    ],
];

#[test]
fn looks_at_the_named_file_alone(rt: HostRuntime) -> Result<(), Fail> {
    expect_each(rt.alloc(), &LARGE)
}

/// A queue with "hello" in cycle 0 and "a" in cycle 1, of which the second image is cut off.
const CUT_OFF: &[Step] = &[
    Queue(4),
    Write(0, b"hello\n"),
    Write(DAY, b"a\n"),
    Cut("19700102.cqi", 119),
];

/// What `check` says of it.
const CUT_BOTH: &str =
    "19700101.cqi: 1 messages, ended\n19700102.cqi: Cut at 112\ncq: images at fault";

static FAILING: Failing = Failing {
    before: CUT_OFF,
    step: Salvage("19700101.cqi"),
    after: &[Check],
    files: &["queue.cqc", "19700101.cqi"],
    kept: CUT_BOTH,
    done: "0 hello\nwhole\n",
    left: CUT_BOTH,
};

#[test]
fn salvage_passes_each_folder_fault_on(rt: HostRuntime) -> Result<(), Fail> {
    expect_failing(rt.alloc(), &FAILING)
}
