//! Queues that are closed, and what they leave.
use crate::folders::{expect_images, put_log};
use crate::life::{expect_turns, folder_with_a, opened, stored};
use crate::torn_place::Matter;
use cq_fixtures::{contents_text, expect, expect_text};
use cq_folder::{FailingFolder, Folder, MemoryFolder};
use cq_live::{Closed, Live, NotClosed, close};
use cq_log_tests::TornFile;
use std::alloc::Global;
use std::test::Fail;

/// Stores a message. The folder has the log then.
fn store(alloc: Global, folder: &mut MemoryFolder, live: &mut Live<TornFile>) -> Result<(), Fail> {
    let log = stored(alloc, live, b"b")?;
    put_log(alloc, folder, &log)
}

/// A live queue in a folder, with a message that was stored. The folder has its log, in which the write or sync with this number
/// fails.
fn live_in(alloc: Global, folder: &mut MemoryFolder, failing: u64) -> Result<Live<TornFile>, Fail> {
    let mut live = opened(alloc, folder, Matter::Failing(failing))?;
    store(alloc, folder, &mut live)?;
    Ok(live)
}

/// The same, and another message came that was not stored.
fn live_with_more(
    alloc: Global,
    folder: &mut MemoryFolder,
    failing: u64,
) -> Result<Live<TornFile>, Fail> {
    let mut live = live_in(alloc, folder, failing)?;
    live.endpoint.append(0, b"c")?;
    Ok(live)
}

/// What a closing says.
fn closed_text(
    alloc: Global,
    closed: &Result<Closed, NotClosed<TornFile>>,
) -> Result<String, Fail> {
    match closed {
        Ok(Closed { found, stored_end }) => {
            let held = contents_text(alloc, &found.contents)?;
            Ok(format!(in alloc; "{held}, {} turns, end {stored_end}", found.turns)?)
        }
        Err(NotClosed::Kept(fault, kept)) => {
            Ok(format!(in alloc; "kept to {}: {fault}", kept.stored_end())?)
        }
        Err(NotClosed::Fold(fault)) => Ok(format!(in alloc; "fold: {fault}")?),
    }
}

/// Closes a queue whose endpoint is still there. Returns what that says.
fn closing_text<F: Folder>(
    alloc: Global,
    live: Live<TornFile>,
    folder: &mut F,
) -> Result<String, Fail> {
    closed_text(alloc, &close(alloc, live.kept, folder))
}

/// Closes a queue. Fails if that does not say what is wanted, if the folder is not left, or if the images do not hold what is wanted.
fn expect_closing(
    alloc: Global,
    live: Live<TornFile>,
    folder: &mut MemoryFolder,
    said: &str,
    images: &str,
) -> Result<(), Fail> {
    expect_text(closing_text(alloc, live, folder)?, said)?;
    expect(folder.access().is_none(), "the folder is left")?;
    expect_images(alloc, folder, images)
}

/// A queue that was closed is in the images, and a second opening plays no turn.
#[test]
fn a_queue_that_was_closed_is_in_the_images(rt: HostRuntime) -> Result<(), Fail> {
    let alloc = rt.alloc();
    let mut folder = folder_with_a(alloc)?;
    let live = live_in(alloc, &mut folder, 0)?;
    expect_closing(
        alloc,
        live,
        &mut folder,
        "0[a;b;] at [0], 1 turns, end 2",
        "0[a;b;] at [0]",
    )?;
    expect_turns(alloc, &mut folder, 0)
}

static STOPPED: &str =
    "kept to 2: the log has stopped: the file could not be read, written, cut or synced. Open it again, and read what is stored";

/// A fault of the log gives the queue back, and no file changed.
#[test]
fn a_fault_of_the_log_gives_the_queue_back(rt: HostRuntime) -> Result<(), Fail> {
    let alloc = rt.alloc();
    let mut folder = folder_with_a(alloc)?;
    let live = live_with_more(alloc, &mut folder, 16)?;
    expect_closing(alloc, live, &mut folder, STOPPED, "0[a;] at [0]")
}

/// Closes a queue in a folder of which the first call fails. Gives the folder back.
fn fail_to_close(
    alloc: Global,
    live: Live<TornFile>,
    folder: MemoryFolder,
) -> Result<MemoryFolder, Fail> {
    let mut failing = FailingFolder::new(folder, 1);
    expect_text(
        closing_text(alloc, live, &mut failing)?,
        "fold: folder fault",
    )?;
    Ok(failing.into_inner())
}

/// A live queue in a folder, which fails to close. Gives the folder back.
fn folder_not_closed(alloc: Global) -> Result<MemoryFolder, Fail> {
    let mut folder = folder_with_a(alloc)?;
    let live = live_in(alloc, &mut folder, 0)?;
    fail_to_close(alloc, live, folder)
}

/// A fault of the folder leaves what was stored in the log.
#[test]
fn a_fault_of_the_folder_leaves_the_log(rt: HostRuntime) -> Result<(), Fail> {
    let alloc = rt.alloc();
    let mut folder = folder_not_closed(alloc)?;
    expect_images(alloc, &mut folder, "0[a;] at [0]")?;
    expect_turns(alloc, &mut folder, 1)
}
