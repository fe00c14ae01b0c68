//! Refused memory: the call that is refused for it is made again, and finds every file as it was.
use crate::steps::Step::{Append, Messages, Put};
use crate::steps::{QUEUE, Step, said_at};
use cq_fixtures::expect_text;
use cq_folder::MemoryFolder;
use cq_writing::InputForm::{Null, Whole};
use std::alloc::Global;
use std::test::Fail;

/// How often a call is made that is out of memory.
const TRIES: u32 = 8;

/// What a step says, with another try where memory is refused.
fn said_at_last(alloc: Global, folder: &mut MemoryFolder, step: &Step) -> Result<String, Fail> {
    for _ in 0..TRIES {
        let Ok(said) = said_at(alloc, folder, step) else {
            continue;
        };
        if said.as_str() != "cq: want of memory" {
            return Ok(said);
        }
    }
    Ok(String::from_str(alloc, "no memory")?)
}

/// Steps in turn, each with what is said at last.
static ROWS: &[(Step, &str)] = &[
    (Put("queue.cqc", QUEUE), ""),
    (
        Append(Null, 0, b"a\nb\0c"),
        "0000000000000000\n0000000000000001\nbegan 0 19700101\n",
    ),
    (
        Append(Whole, 86_400_000, b"d\n"),
        "0000000100000000\nbegan 1 19700102\n",
    ),
    (Messages("19700101.cqi"), "0 a\nb\n1 c\nwhole\n"),
    (Messages("19700102.cqi"), "0 d\n\nwhole\n"),
];

#[test]
fn memory_may_be_refused(rt: HostRuntime) -> Result<(), Fail> {
    let alloc = rt.alloc();
    let mut folder = MemoryFolder::new(alloc);
    for (step, want) in ROWS {
        expect_text(said_at_last(alloc, &mut folder, step)?, want)?;
    }
    Ok(())
}
