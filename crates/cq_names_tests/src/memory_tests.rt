//! Refused memory: the call that is refused for it is made again, and finds `queue.cqc` as it was.
use crate::steps::Step::{Add, Config, List, Move, Put, Remove};
use crate::steps::{HELLO, Step, said_at};
use cq_fixtures::expect_text;
use cq_folder::MemoryFolder;
use std::alloc::Global;
use std::test::Fail;

/// How often a call is made that is out of memory.
const TRIES: u32 = 8;

/// What a step says, with another try where memory is refused.
fn said_at_last(alloc: Global, folder: &mut MemoryFolder, step: &Step) -> Result<String, Fail> {
    let before = said_at(alloc, folder, &Config)?;
    for _ in 0..TRIES {
        let Ok(said) = said_at(alloc, folder, step) else {
            continue;
        };
        if said.as_str() != "cq: want of memory" {
            return Ok(said);
        }
        expect_text(said_at(alloc, folder, &Config)?, before.as_str())?;
    }
    Ok(String::from_str(alloc, "no memory")?)
}

/// Steps in turn, each with what is said at last.
static ROWS: &[(Step, &str)] = &[
    (Add("new", None), "new 0000000000000001\n"),
    (Move("new", "0000000000000000"), "new 0000000000000000\n"),
    (Remove("reader"), "reader 0000000000000001\n"),
    (List, "new 0000000000000000\n"),
];

#[test]
fn all_is_changed_or_nothing(rt: HostRuntime) -> Result<(), Fail> {
    let alloc = rt.alloc();
    let mut folder = MemoryFolder::new(alloc);
    let config =
        b"cq 2\nroll daily\nepoch 0\ncells 64\ncount 8\nspacing 1\ncycles 4\nname reader 1\n";
    let _config = said_at(alloc, &mut folder, &Put("queue.cqc", config))?;
    let _image = said_at(alloc, &mut folder, &Put("19700101.cqi", HELLO))?;
    for (step, want) in ROWS {
        expect_text(said_at_last(alloc, &mut folder, step)?, want)?;
    }
    Ok(())
}
