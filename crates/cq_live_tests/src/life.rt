//! Live queues in a folder in memory.
use crate::folders::{make, write_a};
use crate::torn_place::{Matter, TornPlace};
use cq_endpoint::{Endpoint, Taken};
use cq_fixtures::message_or_none;
use cq_folder::{Folder, MemoryFolder};
use cq_kept::KeptQueue;
use cq_live::{Live, LiveFault, open};
use cq_log_tests::TornFile;
use std::alloc::Global;
use std::fmt::Display;
use std::test::Fail;

/// A folder with a queue that holds the message "a".
pub(crate) fn folder_with_a(alloc: Global) -> Result<MemoryFolder, Fail> {
    let mut folder = MemoryFolder::new(alloc);
    make(alloc, &mut folder)?;
    write_a(alloc, &mut folder)?;
    Ok(folder)
}

/// Opens the queue of a folder at a moment.
pub(crate) fn opened_at<F: Folder>(
    alloc: Global,
    folder: &mut F,
    matter: Matter,
    moment: u64,
) -> Result<Live<TornFile>, LiveFault> {
    let mut place = TornPlace::new(matter);
    open(alloc, folder, &mut place, moment)
}

/// Opens the queue of a folder in which a cycle has begun. The moment lies in none, and is not used.
pub(crate) fn opened<F: Folder>(
    alloc: Global,
    folder: &mut F,
    matter: Matter,
) -> Result<Live<TornFile>, LiveFault> {
    opened_at(alloc, folder, matter, u64::MAX)
}

/// Opens the queue of a folder, and fails unless this many turns were played. Nothing is the matter with the place of its log.
pub(crate) fn expect_turns(
    alloc: Global,
    folder: &mut MemoryFolder,
    turns: usize,
) -> Result<(), Fail> {
    if opened(alloc, folder, Matter::Nothing)?.turns == turns {
        return Ok(());
    }
    Err(Fail::new(format_args!("not {turns} turns")))
}

/// What an opening of the queue of a folder at a moment says. Nothing is the matter with the place of its log.
pub(crate) fn said_at(
    alloc: Global,
    folder: &mut MemoryFolder,
    moment: u64,
) -> Result<String, Fail> {
    let mut live = opened_at(alloc, folder, Matter::Nothing, moment)?;
    opened_text(alloc, live.turns, &mut live.endpoint)
}

/// Opens the queue of a folder at a moment, and lets it end without a close.
pub(crate) fn open_at(alloc: Global, folder: &mut MemoryFolder, moment: u64) -> Result<(), Fail> {
    let _live = opened_at(alloc, folder, Matter::Nothing, moment)?;
    Ok(())
}

/// Gives a fault as text.
fn fault_text<E: Display + Drop>(alloc: Global, fault: E) -> Result<String, Fail> {
    Ok(format!(in alloc; "{fault}")?)
}

/// Why an opening at a moment fails.
pub(crate) fn fault_at<F: Folder>(
    alloc: Global,
    folder: &mut F,
    matter: Matter,
    moment: u64,
) -> Result<String, Fail> {
    match opened_at(alloc, folder, matter, moment).err() {
        Some(fault) => fault_text(alloc, fault),
        None => Err(Fail::new(format_args!("no fault"))),
    }
}

/// What "reader" takes.
pub(crate) fn taken(alloc: Global, endpoint: &mut Endpoint) -> Result<String, Fail> {
    let found = match endpoint.take(alloc, "reader")? {
        Taken::Taken(index, message) => Some((index, message)),
        Taken::NotYet | Taken::Finished | Taken::Moved(_) => None,
    };
    message_or_none(alloc, &found)
}

/// What an opening says: how many turns were played, and what "reader" takes in two takes.
pub(crate) fn opened_text(
    alloc: Global,
    turns: usize,
    endpoint: &mut Endpoint,
) -> Result<String, Fail> {
    let first = taken(alloc, endpoint)?;
    let second = taken(alloc, endpoint)?;
    Ok(format!(in alloc; "{turns} turns: {first}, {second}")?)
}

/// Stores what came. Returns the bytes of the log then.
fn log_of(alloc: Global, kept: &mut KeptQueue<TornFile>) -> Result<Vec<u8>, Fail> {
    kept.turn(alloc)?;
    kept.settle()?;
    Ok(kept.keeper().log().device().bytes().to_vec(alloc)?)
}

/// Appends a message at a moment and stores it. Returns the bytes of the log then.
pub(crate) fn stored_at(
    alloc: Global,
    live: &mut Live<TornFile>,
    moment: u64,
    bytes: &[u8],
) -> Result<Vec<u8>, Fail> {
    live.endpoint.append(moment, bytes)?;
    log_of(alloc, &mut live.kept)
}

/// The same at moment 0.
pub(crate) fn stored(
    alloc: Global,
    live: &mut Live<TornFile>,
    bytes: &[u8],
) -> Result<Vec<u8>, Fail> {
    stored_at(alloc, live, 0, bytes)
}
