//! Logs that are folded although memory is refused: the call that is refused for it is made again, over the same folder.
use crate::logs::Frame::{Head, Turn};
use crate::logs::Line::{Cycle, Message};
use crate::steps::Step::{Log, Queue, Write};
use crate::steps::{files_text, fold_text, folder_after};
use cq_fixtures::{expect_end, expect_text};
use cq_fold::{FoldFault, Folded, fold};
use cq_folder::MemoryFolder;
use std::alloc::Global;
use std::test::Fail;

/// How often a log is folded where memory is refused.
const TRIES: u32 = 16;

/// What a fold gives, as text; `None` if memory was refused.
fn text_if_done(alloc: Global, answer: &Result<Folded, FoldFault>) -> Result<Option<String>, Fail> {
    match answer {
        Err(FoldFault::OutOfMemory) => Ok(None),
        _ => Ok(Some(fold_text(alloc, answer)?)),
    }
}

/// Folds the log of a folder. Returns what that gives, as text; `None` if memory was refused.
fn folded_if_done(alloc: Global, folder: &mut MemoryFolder) -> Result<Option<String>, Fail> {
    text_if_done(alloc, &fold(alloc, folder))
}

/// Does the same. Where memory is refused no file may change.
fn folded_once(alloc: Global, folder: &mut MemoryFolder) -> Result<Option<String>, Fail> {
    let before = files_text(alloc, folder)?;
    if let Some(text) = folded_if_done(alloc, folder)? {
        return Ok(Some(text));
    }
    let after = files_text(alloc, folder)?;
    expect_end("out of memory", after.as_str(), before.as_str())?;
    Ok(None)
}

/// Folds the log of a folder, whatever memory is refused to it.
fn folded_at_last(alloc: Global, folder: &mut MemoryFolder) -> Result<String, Fail> {
    for _ in 0..TRIES {
        if let Some(text) = folded_once(alloc, folder)? {
            return Ok(text);
        }
    }
    Err(Fail::new(format_args!("out of memory")))
}

#[test]
fn a_log_is_folded_as_a_whole_or_not_at_all(rt: HostRuntime) -> Result<(), Fail> {
    let alloc = rt.alloc();
    let mut folder = folder_after(
        alloc,
        &[
            Queue,
            Write(0, b"a\n"),
            Log(&[Head, Turn(&[Message("b"), Cycle(1), Message("c")])]),
        ],
    )?;
    expect_text(
        folded_at_last(alloc, &mut folder)?,
        "0[a;b;] 1[c;] at [0], 1 turns, 4 cycles",
    )
}
