//! Refused memory: the call that is refused for it is made again, and finds every file as it was.
use crate::steps::Step::{Check, Init, Last, Names, Write};
use crate::steps::said_at;
use cq_fixtures::{DAY, expect_text};
use cq_folder::MemoryFolder;
use std::alloc::Global;
use std::test::Fail;

/// How often a call is made that is out of memory.
const TRIES: u32 = 8;

/// What the command says, with another try where memory is refused.
fn said_at_last(alloc: Global, folder: &mut MemoryFolder) -> Result<String, Fail> {
    for _ in 0..TRIES {
        let Ok(said) = said_at(alloc, folder, &Last(1)) else {
            continue;
        };
        if said.as_str() != "cq: want of memory" {
            return Ok(said);
        }
        expect_text(
            said_at(alloc, folder, &Names)?,
            "19700101.cqi 19700102.cqi queue.cqc ",
        )?;
    }
    Ok(String::from_str(alloc, "no memory")?)
}

#[test]
fn all_is_removed_or_nothing(rt: HostRuntime) -> Result<(), Fail> {
    let alloc = rt.alloc();
    let mut folder = MemoryFolder::new(alloc);
    for step in [
        Init("daily", 0, 4, &[]),
        Write(0, b"a\n"),
        Write(DAY, b"b\n"),
    ] {
        let _said = said_at(alloc, &mut folder, &step)?;
    }
    expect_text(said_at_last(alloc, &mut folder)?, "19700101.cqi\n")?;
    expect_text(
        said_at(alloc, &mut folder, &Check)?,
        "19700102.cqi: 1 messages, open\n",
    )
}
