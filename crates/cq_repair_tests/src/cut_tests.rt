//! An image that is cut off: the messages whose records are whole are kept.
use crate::steps::Step::{Cut, Put, Repair};
use crate::steps::said_at;
use cq_fixtures::expect_text;
use cq_folder::MemoryFolder;
use std::alloc::Global;
use std::test::Fail;

/// How many bytes are left of an image of 128 bytes, and how many messages are kept: none is said where there is no fault.
static ROWS: &[(usize, &str)] = &[
    (0, "none"),
    (1, "0"),
    (4, "0"),
    (39, "0"),
    (40, "0"),
    (76, "0"),
    (112, "0"),
    (113, "0"),
    (119, "0"),
    (120, "1"),
    (121, "1"),
    (127, "1"),
    (128, "none"),
];

/// Cuts the image off, repairs it, and compares what is said.
fn expect_cut(alloc: Global, length: usize, count: &str) -> Result<(), Fail> {
    let mut folder = MemoryFolder::new(alloc);
    let _config = said_at(
        alloc,
        &mut folder,
        &Put(
            "queue.cqc",
            b"cq 2\nroll daily\nepoch 0\ncells 64\ncount 8\nspacing 1\ncycles 4\n",
        ),
    )?;
    let _image = said_at(alloc, &mut folder, &Cut(length))?;
    let want = if count == "none" {
        String::from_str(alloc, "cq: nothing to repair: 19700101.cqi has no fault")?
    } else {
        format!(in alloc;
            "19700101.cqi: {count} messages kept, the old file is 19700101.cqi.bad\n"
        )?
    };
    expect_text(
        said_at(alloc, &mut folder, &Repair("19700101.cqi"))?,
        want.as_str(),
    )
}

#[test]
fn whole_messages_are_kept(rt: HostRuntime) -> Result<(), Fail> {
    for (length, count) in ROWS {
        expect_cut(rt.alloc(), *length, count)?;
    }
    Ok(())
}
