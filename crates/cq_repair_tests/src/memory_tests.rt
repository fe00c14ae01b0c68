//! Refused memory: the call that is refused for it is made again, and finds every file as it was, or one more: the old file.
use crate::steps::Step::{Config, Names, Put, Repair, Same};
use crate::steps::{ONE, TORN, said_at};
use cq_fixtures::{expect, expect_text};
use cq_folder::MemoryFolder;
use std::alloc::Global;
use std::test::Fail;

/// How often a call is made that is out of memory.
const TRIES: u32 = 8;

/// What the command says, with another try where memory is refused. Up to then no file has changed, but the old file may be there.
fn said_at_last(alloc: Global, folder: &mut MemoryFolder) -> Result<String, Fail> {
    for _ in 0..TRIES {
        let Ok(said) = said_at(alloc, folder, &Repair("19700101.cqi")) else {
            continue;
        };
        if said.as_str() != "cq: want of memory" {
            return Ok(said);
        }
        expect_text(said_at(alloc, folder, &Same("19700101.cqi", TORN))?, "same")?;
        let names = said_at(alloc, folder, &Names)?;
        let known = matches!(
            names.as_str(),
            "19700101.cqi queue.cqc " | "19700101.cqi 19700101.cqi.bad queue.cqc "
        );
        expect(known, "no other file")?;
    }
    Ok(String::from_str(alloc, "no memory")?)
}

#[test]
fn it_is_repaired_at_last(rt: HostRuntime) -> Result<(), Fail> {
    let alloc = rt.alloc();
    let mut folder = MemoryFolder::new(alloc);
    for step in [
        Put(
            "queue.cqc",
            b"cq 2\nroll daily\nepoch 0\ncells 64\ncount 8\nspacing 1\ncycles 4\nname a 2\n",
        ),
        Put("19700101.cqi", TORN),
    ] {
        let _said = said_at(alloc, &mut folder, &step)?;
    }
    expect_text(
        said_at_last(alloc, &mut folder)?,
        "19700101.cqi: 1 messages kept, the old file is 19700101.cqi.bad\na moved from 0000000000000002 to 0000000000000001\n",
    )?;
    expect_text(
        said_at(alloc, &mut folder, &Same("19700101.cqi", ONE))?,
        "same",
    )?;
    expect_text(
        said_at(alloc, &mut folder, &Same("19700101.cqi.bad", TORN))?,
        "same",
    )?;
    expect_text(
        said_at(alloc, &mut folder, &Config)?,
        "cq 2\nroll daily\nepoch 0\ncells 64\ncount 8\nspacing 1\ncycles 4\nname a 1\n",
    )
}
