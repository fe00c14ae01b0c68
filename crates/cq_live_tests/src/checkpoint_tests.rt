//! Checkpoints of live queues, and why none is made.
use crate::folders::{bytes_of, expect_images, expect_images_of, make_with, put_log};
use crate::life::{expect_turns, folder_with_a, opened, stored, taken};
use crate::torn_place::{Matter, TornPlace};
use cq_fixtures::{expect, expect_answer, expect_text};
use cq_folder::{FailingFolder, Folder, LOG_FILE, MemoryFolder};
use cq_kept::KeptQueue;
use cq_live::{Live, NotCheckpointed, checkpoint};
use cq_log_tests::TornFile;
use std::alloc::Global;
use std::test::Fail;

/// What a checkpoint comes to.
type Done = Result<KeptQueue<TornFile>, NotCheckpointed<TornFile>>;

/// A live queue that holds "a", and stored "b". Its folder has its log.
fn live_with_b(alloc: Global, folder: &mut MemoryFolder) -> Result<Live<TornFile>, Fail> {
    let mut live = opened(alloc, folder, Matter::Nothing)?;
    store(alloc, folder, &mut live, b"b")?;
    Ok(live)
}

/// Stores a message. The folder has the log then.
fn store(
    alloc: Global,
    folder: &mut MemoryFolder,
    live: &mut Live<TornFile>,
    bytes: &[u8],
) -> Result<(), Fail> {
    let log = stored(alloc, live, bytes)?;
    put_log(alloc, folder, &log)
}

/// Makes a checkpoint. This is the matter with the place of the new log.
fn done_in<F: Folder>(
    alloc: Global,
    folder: &mut F,
    matter: Matter,
    kept: KeptQueue<TornFile>,
) -> Done {
    let mut place = TornPlace::new(matter);
    checkpoint(alloc, folder, &mut place, kept)
}

/// What a checkpoint comes to.
fn done_text(alloc: Global, done: &Done) -> Result<String, Fail> {
    match done {
        Ok(kept) => Ok(format!(in alloc; "done to {}", kept.stored_end())?),
        Err(NotCheckpointed::Kept(fault, kept)) => {
            Ok(format!(in alloc; "kept to {}: {fault}", kept.stored_end())?)
        }
        Err(NotCheckpointed::Fold(fault, kept)) => {
            Ok(format!(in alloc; "goes on at {}: {fault}", kept.end())?)
        }
        Err(NotCheckpointed::OtherQueue(kept)) => {
            Ok(format!(in alloc; "other queue, goes on at {}", kept.end())?)
        }
        Err(NotCheckpointed::Ended(fault)) => Ok(format!(in alloc; "ended: {fault}")?),
    }
}

/// Takes the queue out of what a checkpoint came to.
fn kept_of(done: Done) -> Result<KeptQueue<TornFile>, Fail> {
    match done {
        Ok(kept) => Ok(kept),
        Err(NotCheckpointed::Kept(_, kept)) => Ok(kept),
        Err(NotCheckpointed::Fold(_, kept)) => Ok(kept),
        Err(NotCheckpointed::OtherQueue(kept)) => Ok(kept),
        Err(NotCheckpointed::Ended(_)) => Err(Fail::new(format_args!("the queue has ended"))),
    }
}

/// Fails if a checkpoint does not come to what is wanted, or if the folder is not left.
fn expect_done(alloc: Global, folder: &MemoryFolder, done: &Done, want: &str) -> Result<(), Fail> {
    expect_text(done_text(alloc, done)?, want)?;
    expect(folder.access().is_none(), "the folder is left")
}

/// Makes a checkpoint of a queue. Fails if that does not come to what is wanted, or if the folder is not left. Gives back the queue.
fn kept_through(
    alloc: Global,
    folder: &mut MemoryFolder,
    kept: KeptQueue<TornFile>,
    want: &str,
) -> Result<KeptQueue<TornFile>, Fail> {
    let done = done_in(alloc, folder, Matter::Nothing, kept);
    expect_done(alloc, folder, &done, want)?;
    kept_of(done)
}

/// The same with a live queue.
fn checkpointed(
    alloc: Global,
    folder: &mut MemoryFolder,
    live: Live<TornFile>,
    want: &str,
) -> Result<Live<TornFile>, Fail> {
    let Live {
        kept,
        endpoint,
        turns,
    } = live;
    let kept = kept_through(alloc, folder, kept, want)?;
    Ok(Live {
        kept,
        endpoint,
        turns,
    })
}

/// The same with a queue that ends then. Fails unless the images hold this.
fn expect_checkpoint(
    alloc: Global,
    folder: &mut MemoryFolder,
    live: Live<TornFile>,
    want: &str,
    images: &str,
) -> Result<(), Fail> {
    let _live = checkpointed(alloc, folder, live, want)?;
    expect_images(alloc, folder, images)
}

/// The steps of a life with checkpoints: the message that is stored before it, what is taken then, what the checkpoint comes to, and
/// what the images hold.
static STEPS: [(&[u8], &str, &str, &str); 3] = [
    (b"b", "0 a", "done to 2", "0[a;b;] at [0]"),
    (b"c", "1 b", "done to 3", "0[a;b;c;] at [1]"),
    (b"d", "2 c", "done to 4", "0[a;b;c;d;] at [2]"),
];

/// Fails unless the images of a folder hold this, and its log is empty.
fn expect_saved(alloc: Global, folder: &mut MemoryFolder, images: &str) -> Result<(), Fail> {
    expect_images(alloc, folder, images)?;
    let log = bytes_of(alloc, folder, LOG_FILE)?;
    expect(log.is_empty(), "the log is empty")
}

/// Stores a message and makes a checkpoint.
fn stored_through(
    alloc: Global,
    folder: &mut MemoryFolder,
    live: Live<TornFile>,
    step: &(&[u8], &str, &str, &str),
) -> Result<Live<TornFile>, Fail> {
    let mut live = live;
    store(alloc, folder, &mut live, step.0)?;
    checkpointed(alloc, folder, live, step.2)
}

/// Fails unless a checkpoint saved what is wanted, and the endpoint that the queue had at first takes the message that is wanted.
fn expect_step(
    alloc: Global,
    folder: &mut MemoryFolder,
    live: &mut Live<TornFile>,
    step: &(&[u8], &str, &str, &str),
) -> Result<(), Fail> {
    expect_saved(alloc, folder, step.3)?;
    expect_text(taken(alloc, &mut live.endpoint)?, step.1)
}

/// Stores a message, makes a checkpoint, and takes a message by the endpoint that the queue had at first.
fn step(
    alloc: Global,
    folder: &mut MemoryFolder,
    live: Live<TornFile>,
    step: &(&[u8], &str, &str, &str),
) -> Result<Live<TornFile>, Fail> {
    let mut live = stored_through(alloc, folder, live, step)?;
    expect_step(alloc, folder, &mut live, step)?;
    Ok(live)
}

/// A live queue after all steps.
fn live_after_steps(alloc: Global, folder: &mut MemoryFolder) -> Result<Live<TornFile>, Fail> {
    let mut live = opened(alloc, folder, Matter::Nothing)?;
    for row in &STEPS {
        live = step(alloc, folder, live, row)?;
    }
    Ok(live)
}

/// A life with checkpoints, and a message after the last one.
fn live_on(alloc: Global, folder: &mut MemoryFolder) -> Result<(), Fail> {
    let mut live = live_after_steps(alloc, folder)?;
    store(alloc, folder, &mut live, b"e")
}

/// A queue has such a life. Then its folder is opened.
fn expect_life(alloc: Global, folder: &mut MemoryFolder) -> Result<(), Fail> {
    live_on(alloc, folder)?;
    expect_images(alloc, folder, "0[a;b;c;d;] at [2]")?;
    expect_turns(alloc, folder, 1)?;
    expect_images(alloc, folder, "0[a;b;c;d;e;] at [3]")
}

/// Checkpoints save what came before them, and what comes after them is in the new log.
#[test]
fn a_queue_goes_on_after_checkpoints(rt: HostRuntime) -> Result<(), Fail> {
    let mut folder = folder_with_a(rt.alloc())?;
    expect_life(rt.alloc(), &mut folder)
}

/// A folder that holds something else than the queue: how many cycles it may have, how often "a" was written and taken, and what its
/// images hold.
static OTHERS: [(u64, usize, usize, &str); 5] = [
    // Its settings are others.
    (5, 2, 0, "0[a;a;] at [0]"),
    // No cycle has begun.
    (4, 0, 0, "at [0]"),
    // It ends elsewhere.
    (4, 1, 0, "0[a;] at [0]"),
    (4, 3, 0, "0[a;a;a;] at [0]"),
    // A name is at another position.
    (4, 2, 1, "0[a;a;] at [1]"),
];

/// The folder of such a row.
fn other_folder(alloc: Global, row: &(u64, usize, usize, &str)) -> Result<MemoryFolder, Fail> {
    let mut other = MemoryFolder::new(alloc);
    make_with(alloc, &mut other, row.0, row.1, row.2)?;
    Ok(other)
}

/// Makes a checkpoint in another folder, whose images are as they were. Gives back the queue.
fn live_beside(
    alloc: Global,
    other: &mut MemoryFolder,
    live: Live<TornFile>,
    images: &str,
) -> Result<Live<TornFile>, Fail> {
    let live = checkpointed(alloc, other, live, "other queue, goes on at 2")?;
    expect_images(alloc, other, images)?;
    Ok(live)
}

/// Makes a checkpoint in another folder, and then in that of the queue.
fn expect_left(
    alloc: Global,
    folder: &mut MemoryFolder,
    other: &mut MemoryFolder,
    images: &str,
) -> Result<(), Fail> {
    let live = live_with_b(alloc, folder)?;
    let live = live_beside(alloc, other, live, images)?;
    expect_checkpoint(alloc, folder, live, "done to 2", "0[a;b;] at [0]")
}

/// The same with the folder of a row.
fn expect_other(alloc: Global, row: &(u64, usize, usize, &str)) -> Result<(), Fail> {
    let mut other = other_folder(alloc, row)?;
    let mut folder = folder_with_a(alloc)?;
    expect_left(alloc, &mut folder, &mut other, row.3)
}

/// A folder that holds something else is not saved, and the queue goes on.
#[test]
fn another_folder_is_left(rt: HostRuntime) -> Result<(), Fail> {
    for row in &OTHERS {
        expect_other(rt.alloc(), row)?;
    }
    Ok(())
}

/// Stores "b", and "c" comes.
fn store_one_of_two(
    alloc: Global,
    folder: &mut MemoryFolder,
    live: &mut Live<TornFile>,
) -> Result<(), Fail> {
    store(alloc, folder, live, b"b")?;
    live.endpoint.append(0, b"c")?;
    Ok(())
}

/// A live queue that holds "a", stored "b" and got "c". The next write of its log fails. Its folder has its log.
fn live_with_more(alloc: Global, folder: &mut MemoryFolder) -> Result<Live<TornFile>, Fail> {
    let mut live = opened(alloc, folder, Matter::Failing(16))?;
    store_one_of_two(alloc, folder, &mut live)?;
    Ok(live)
}

static STOPPED: &str =
    "kept to 2: the log has stopped: the file could not be read, written, cut or synced. Open it again, and read what is stored";

/// A fault of the log gives the queue back, and no file changed.
#[test]
fn a_fault_of_the_log_keeps_the_folder(rt: HostRuntime) -> Result<(), Fail> {
    let alloc = rt.alloc();
    let mut folder = folder_with_a(alloc)?;
    let live = live_with_more(alloc, &mut folder)?;
    expect_checkpoint(alloc, &mut folder, live, STOPPED, KEPT)
}

/// The calls of the folder: whether it is done although it fails, what the checkpoint comes to then, what the images hold, and how many
/// turns a next opening plays.
static CALLS: [(u64, bool, &str, &str, usize); 8] = [
    (1, false, "goes on at 2: folder fault", KEPT, 1),
    (2, false, "goes on at 2: folder fault", KEPT, 1),
    (3, false, "goes on at 2: file fault: queue.cqc", KEPT, 1),
    (4, false, "goes on at 2: file fault: 19700101.cqi", KEPT, 1),
    (5, false, "goes on at 2: folder fault", KEPT, 1),
    (6, false, "goes on at 2: file fault: queue.log", KEPT, 1),
    (7, false, "ended: file fault: 19700101.cqi", KEPT, 1),
    (7, true, "ended: file fault: 19700101.cqi", FOLDED, 0),
];

const KEPT: &str = "0[a;] at [0]";

const FOLDED: &str = "0[a;b;] at [0]";

/// What a checkpoint of a queue comes to that ends then. This is the matter with the place of the new log.
fn said_of<F: Folder>(
    alloc: Global,
    folder: &mut F,
    matter: Matter,
    live: Live<TornFile>,
) -> Result<String, Fail> {
    done_text(alloc, &done_in(alloc, folder, matter, live.kept))
}

/// The folder, of which a call fails.
fn failing_folder(folder: MemoryFolder, number: u64, done: bool) -> FailingFolder<MemoryFolder> {
    if done {
        FailingFolder::written(folder, number)
    } else {
        FailingFolder::new(folder, number)
    }
}

/// Makes a checkpoint in a folder that fails. Fails if that does not come to what is wanted. Gives the folder back.
fn failed(
    alloc: Global,
    folder: FailingFolder<MemoryFolder>,
    live: Live<TornFile>,
    number: usize,
    want: &str,
) -> Result<MemoryFolder, Fail> {
    let mut failing = folder;
    let said = said_of(alloc, &mut failing, Matter::Nothing, live)?;
    expect_answer("call", number, said.as_str(), want)?;
    Ok(failing.into_inner())
}

/// Makes a checkpoint in a folder of which the call of a row fails. Gives the folder back.
fn folder_after(
    alloc: Global,
    number: usize,
    call: &(u64, bool, &str, &str, usize),
) -> Result<MemoryFolder, Fail> {
    let mut folder = folder_with_a(alloc)?;
    let live = live_with_b(alloc, &mut folder)?;
    let failing = failing_folder(folder, call.0, call.1);
    failed(alloc, failing, live, number, call.2)
}

/// Fails unless a failing call comes to what is wanted.
fn expect_failure(
    alloc: Global,
    number: usize,
    call: &(u64, bool, &str, &str, usize),
) -> Result<(), Fail> {
    let mut folder = folder_after(alloc, number, call)?;
    expect_images_of(alloc, &mut folder, number, call.3)?;
    expect_turns(alloc, &mut folder, call.4)
}

/// A call of the folder that fails loses nothing.
#[test]
fn a_fault_of_the_folder_loses_nothing(rt: HostRuntime) -> Result<(), Fail> {
    for (number, call) in CALLS.iter().enumerate() {
        expect_failure(rt.alloc(), number, call)?;
    }
    Ok(())
}

/// What is the matter with the place of the new log, and what the checkpoint comes to.
static PLACES: [(Matter, &str); 9] = [
    (
        Matter::Locked,
        "ended: a queue is live in this folder: wait until it is closed, or close it",
    ),
    (
        Matter::Denied,
        "ended: the log is not opened: this process may not read and write the file: let it do so in the permissions of the file and the folder",
    ),
    (
        Matter::LockedScarcely,
        "ended: out of memory: nothing was lost, so open the queue again with more memory",
    ),
    (
        Matter::Moved,
        "ended: the log is not opened: the file was removed or replaced while it was opened: open it again",
    ),
    (
        Matter::LockedLater,
        "ended: the log is not opened: the file is in use: wait until the queue that uses it is closed, or close it",
    ),
    (
        Matter::OpenedScarcely,
        "ended: out of memory: nothing was lost, so open the queue again with more memory",
    ),
    (
        Matter::Changed,
        "ended: the log was changed while the queue was opened: open the queue again",
    ),
    (
        Matter::Failing(1),
        "ended: the log could not be begun: the file could not be read, written, cut or synced",
    ),
    (
        Matter::Failing(9),
        "ended: the log could not be begun: the file could not be read, written, cut or synced",
    ),
];

/// What a checkpoint comes to where this is the matter with the place of the new log.
fn ended_text(alloc: Global, folder: &mut MemoryFolder, matter: Matter) -> Result<String, Fail> {
    let live = live_with_b(alloc, folder)?;
    said_of(alloc, folder, matter, live)
}

/// Fails unless a checkpoint ends so at its place.
fn expect_ended(
    alloc: Global,
    folder: &mut MemoryFolder,
    number: usize,
    row: &(Matter, &str),
) -> Result<(), Fail> {
    let said = ended_text(alloc, folder, row.0)?;
    expect_answer("place", number, said.as_str(), row.1)
}

/// Fails unless the log of a folder was folded, and the folder left.
fn expect_folded(alloc: Global, number: usize, folder: &mut MemoryFolder) -> Result<(), Fail> {
    expect(folder.access().is_none(), "the folder is left")?;
    expect_images_of(alloc, folder, number, FOLDED)?;
    expect_turns(alloc, folder, 0)
}

/// Fails unless a checkpoint ends so at its place. The log was folded then.
fn expect_end(alloc: Global, number: usize, row: &(Matter, &str)) -> Result<(), Fail> {
    let mut folder = folder_with_a(alloc)?;
    expect_ended(alloc, &mut folder, number, row)?;
    expect_folded(alloc, number, &mut folder)
}

/// Each fault of the place and of the new log ends the queue, and loses nothing.
#[test]
fn a_fault_of_the_new_log_loses_nothing(rt: HostRuntime) -> Result<(), Fail> {
    for (number, row) in PLACES.iter().enumerate() {
        expect_end(rt.alloc(), number, row)?;
    }
    Ok(())
}
