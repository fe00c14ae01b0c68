//! A folder of which one call fails: the change is saved, or every file is as it was.
use crate::steps::Step::{Add, Config, List, Move, Put, Remove};
use crate::steps::{HELLO, Step, said_at};
use cq_fixtures::expect_text;
use cq_folder::{FailingFolder, MemoryFolder};
use std::alloc::Global;
use std::test::Fail;

/// The text of `queue.cqc` before each row.
const BEFORE: &str =
    "cq 2\nroll daily\nepoch 0\ncells 64\ncount 8\nspacing 1\ncycles 4\nname reader 0\n";

/// A command with the number of the call that fails, and whether that call is done all the same; what is said, and the
/// names in `queue.cqc` after it.
type Row = (Step, u64, bool, &'static str, &'static str);

static ROWS: &[Row] = &[
    (List, 1, false, "cq: folder fault", "name reader 0\n"),
    (List, 2, false, "cq: folder fault", "name reader 0\n"),
    (
        List,
        3,
        false,
        "cq: file fault: queue.cqc",
        "name reader 0\n",
    ),
    (
        List,
        4,
        false,
        "cq: file fault: 19700101.cqi",
        "name reader 0\n",
    ),
    (
        List,
        5,
        false,
        "reader 0000000000000000\n",
        "name reader 0\n",
    ),
    (
        Add("new", None),
        1,
        false,
        "cq: folder fault",
        "name reader 0\n",
    ),
    (
        Add("new", None),
        2,
        false,
        "cq: folder fault",
        "name reader 0\n",
    ),
    (
        Add("new", None),
        3,
        false,
        "cq: file fault: queue.cqc",
        "name reader 0\n",
    ),
    (
        Add("new", None),
        4,
        false,
        "cq: file fault: 19700101.cqi",
        "name reader 0\n",
    ),
    (
        Add("new", None),
        5,
        false,
        "cq: file fault: queue.cqc",
        "name reader 0\n",
    ),
    (
        Add("new", None),
        5,
        true,
        "cq: file fault: queue.cqc",
        "name reader 0\nname new 1\n",
    ),
    (
        Add("new", None),
        6,
        false,
        "new 0000000000000001\n",
        "name reader 0\nname new 1\n",
    ),
    (
        Remove("reader"),
        5,
        false,
        "cq: file fault: queue.cqc",
        "name reader 0\n",
    ),
    (Remove("reader"), 5, true, "cq: file fault: queue.cqc", ""),
    (
        Move("reader", "0000000000000001"),
        5,
        false,
        "cq: file fault: queue.cqc",
        "name reader 0\n",
    ),
    (
        Move("reader", "0000000000000001"),
        5,
        true,
        "cq: file fault: queue.cqc",
        "name reader 1\n",
    ),
    // A change that is refused writes nothing.
    (
        Remove("nobody"),
        5,
        true,
        "cq: NoSuchName",
        "name reader 0\n",
    ),
];

/// Takes the step of a row over a folder of its own, and compares what is said and what is left.
fn expect_row(alloc: Global, row: &Row) -> Result<(), Fail> {
    let (step, number, writes, want, names) = *row;
    let mut folder = MemoryFolder::new(alloc);
    let _config = said_at(alloc, &mut folder, &Put("queue.cqc", BEFORE.as_bytes()))?;
    let _image = said_at(alloc, &mut folder, &Put("19700101.cqi", HELLO))?;
    let mut failing = if writes {
        FailingFolder::written(folder, number)
    } else {
        FailingFolder::new(folder, number)
    };
    expect_text(said_at(alloc, &mut failing, &step)?, want)?;
    let mut left = failing.into_inner();
    let head = "cq 2\nroll daily\nepoch 0\ncells 64\ncount 8\nspacing 1\ncycles 4\n";
    let text = format!(in alloc; "{head}{names}")?;
    expect_text(said_at(alloc, &mut left, &Config)?, text.as_str())
}

#[test]
fn a_failing_call_changes_all_or_nothing(rt: HostRuntime) -> Result<(), Fail> {
    for row in ROWS {
        expect_row(rt.alloc(), row)?;
    }
    Ok(())
}
