//! What a queue goes on from that is opened in a folder.
use crate::folders::{expect_images, put_log};
use crate::life::{folder_with_a, opened, opened_text, stored};
use crate::torn_place::Matter;
use cq_fixtures::expect_text;
use cq_folder::MemoryFolder;
use cq_live::Live;
use cq_log_tests::TornFile;
use std::alloc::Global;
use std::test::Fail;

/// The lives of a queue, one after the other: what its opening says, and what the images hold after it.
static LIVES: [(&str, &str); 3] = [
    ("0 turns: 0 a, none", "0[a;] at [0]"),
    ("1 turns: 1 b, none", "0[a;b;] at [1]"),
    ("1 turns: 2 b, none", "0[a;b;b;] at [2]"),
];

/// Stores a message. Another one comes and is not stored. Returns the bytes of the log before it came.
fn store_one_of_two(alloc: Global, live: &mut Live<TornFile>) -> Result<Vec<u8>, Fail> {
    let log = stored(alloc, live, b"b")?;
    live.endpoint.append(0, b"c")?;
    Ok(log)
}

/// Takes from a queue that was opened, and stores one of two messages. The folder has the log then.
fn expect_life(
    alloc: Global,
    folder: &mut MemoryFolder,
    live: &mut Live<TornFile>,
    want: &str,
) -> Result<(), Fail> {
    expect_text(opened_text(alloc, live.turns, &mut live.endpoint)?, want)?;
    let log = store_one_of_two(alloc, live)?;
    put_log(alloc, folder, &log)
}

/// Opens the queue of a folder for such a life.
fn live_once(alloc: Global, folder: &mut MemoryFolder, want: &str) -> Result<(), Fail> {
    let mut live = opened(alloc, folder, Matter::Nothing)?;
    expect_life(alloc, folder, &mut live, want)
}

/// Opens the queue of a folder again and again. Fails if a life is not as wanted.
fn expect_lives(alloc: Global, folder: &mut MemoryFolder) -> Result<(), Fail> {
    for (said, images) in &LIVES {
        live_once(alloc, folder, said)?;
        expect_images(alloc, folder, images)?;
    }
    Ok(())
}

/// A folder without a log is opened, and then with the log of an earlier life: what was stored is there, and what was not is not.
#[test]
fn a_queue_goes_on_from_its_log(rt: HostRuntime) -> Result<(), Fail> {
    let mut folder = folder_with_a(rt.alloc())?;
    expect_lives(rt.alloc(), &mut folder)
}
