//! A live queue in a folder of the system, with a crash in between.
use crate::example::{append_stored, opened};
use crate::folders::{images_text, make, write_a};
use crate::life::opened_text;
use crate::seen::expect_seen;
use crate::watched_place::WatchedPlace;
use cq_fixtures::{DAY, contents_text, expect, expect_text};
use cq_kept::KeptQueue;
use cq_live::{Closed, Live, LiveFault, NotClosed, SystemPlace, checkpoint, close, open};
use cq_log_file::{LogFile, Survives};
use cq_real_folder::RealFolder;
use std::alloc::Global;
use std::test::Fail;
use std::{env, fs, process};

/// Makes a new folder for temporary files, and returns its path.
fn new_folder(rt: &HostRuntime, name: &str) -> Result<String, Fail> {
    let within = env::temp_dir(rt)?;
    let id = process::id(rt.process());
    let path = format!(in rt.alloc(); "{}/cq_live_{name}_{id}", within.display())?;
    fs::create_dir(rt, path.as_str())?;
    Ok(path)
}

/// The folder at a path.
fn folder_at<'a>(rt: &'a HostRuntime, path: &str) -> Result<RealFolder<'a, HostRuntime>, Fail> {
    Ok(RealFolder::new(rt, String::from_str(rt.alloc(), path)?, 7))
}

/// The path of the log in a folder.
fn log_path(alloc: Global, path: &str) -> Result<String, Fail> {
    Ok(format!(in alloc; "{path}/queue.log")?)
}

/// Whether an opening failed since the queue is in use.
fn is_of_use(fault: Option<LiveFault>) -> bool {
    let is_of_use = matches!(fault, Some(LiveFault::InUse));
    drop(fault);
    is_of_use
}

/// Whether the queue of a folder is not opened, since it is in use.
fn is_in_use(rt: &HostRuntime, path: &str) -> Result<bool, Fail> {
    let log = log_path(rt.alloc(), path)?;
    let mut folder = folder_at(rt, path)?;
    let mut place = SystemPlace::new(rt, log);
    Ok(is_of_use(open(rt.alloc(), &mut folder, &mut place, 0).err()))
}

/// Fails if an opening does not say what is wanted.
fn expect_said(alloc: Global, live: &mut Live<LogFile>, want: &str) -> Result<(), Fail> {
    expect_text(opened_text(alloc, live.turns, &mut live.endpoint)?, want)
}

/// Opens the queue of a folder. Fails if that does not say what is wanted.
fn said_at(rt: &HostRuntime, path: &str, want: &str) -> Result<Live<LogFile>, Fail> {
    let mut live = opened(rt, path, 0)?;
    expect_said(rt.alloc(), &mut live, want)?;
    Ok(live)
}

/// What the images of a folder hold.
fn images_at(rt: &HostRuntime, path: &str) -> Result<String, Fail> {
    let mut folder = folder_at(rt, path)?;
    images_text(rt.alloc(), &mut folder)
}

/// Fails unless the images of a folder hold this.
fn expect_images_at(rt: &HostRuntime, path: &str, want: &str) -> Result<(), Fail> {
    expect_text(images_at(rt, path)?, want)
}

/// The bytes of the log in a folder.
fn log_at(rt: &HostRuntime, path: &str) -> Result<Vec<u8>, Fail> {
    let log = log_path(rt.alloc(), path)?;
    Ok(fs::read(rt, log.as_str())?)
}

/// Opens a folder whose queue is live: it is in use, and the images do not change.
fn expect_same_images(rt: &HostRuntime, path: &str) -> Result<(), Fail> {
    let images = images_at(rt, path)?;
    expect(is_in_use(rt, path)?, "the queue is in use")?;
    expect_images_at(rt, path, images.as_str())
}

/// Opens a folder whose queue is live: it is in use, and no file changes.
fn expect_in_use(rt: &HostRuntime, path: &str) -> Result<(), Fail> {
    let log = log_at(rt, path)?;
    expect_same_images(rt, path)?;
    expect(
        log_at(rt, path)?.as_slice() == log.as_slice(),
        "the log is as it was",
    )
}

/// Appends a message, and puts it to the log.
fn put(alloc: Global, live: &mut Live<LogFile>, bytes: &[u8]) -> Result<(), Fail> {
    live.endpoint.append(0, bytes)?;
    live.kept.turn(alloc)?;
    Ok(())
}

/// One message is stored, and another is put to the log alone.
fn put_two(alloc: Global, live: &mut Live<LogFile>) -> Result<(), Fail> {
    put(alloc, live, b"b")?;
    live.kept.settle()?;
    put(alloc, live, b"c")
}

/// What a queue does until its process ends without a close.
fn live_on(rt: &HostRuntime, path: &str, live: &mut Live<LogFile>) -> Result<(), Fail> {
    expect_said(rt.alloc(), live, "0 turns: 0 a, none")?;
    put_two(rt.alloc(), live)?;
    expect_seen(rt, path)?;
    expect_in_use(rt, path)
}

/// A queue is live, and its process ends without a close.
fn crash(rt: &HostRuntime, path: &str) -> Result<(), Fail> {
    let mut live = opened(rt, path, 0)?;
    live_on(rt, path, &mut live)
}

/// What a closing says.
fn closed_text(alloc: Global, closed: &Result<Closed, NotClosed<LogFile>>) -> Result<String, Fail> {
    match closed {
        Ok(closed) => {
            let held = contents_text(alloc, &closed.found.contents)?;
            Ok(format!(in alloc; "{held}, end {}", closed.stored_end)?)
        }
        Err(NotClosed::Kept(fault, _)) => Ok(format!(in alloc; "{fault}")?),
        Err(NotClosed::Fold(fault)) => Ok(format!(in alloc; "{fault}")?),
    }
}

/// Closes a queue that is live in a folder, and whose endpoint is still there. Returns what that says.
fn closing_text(
    alloc: Global,
    live: Live<LogFile>,
    folder: &mut RealFolder<HostRuntime>,
) -> Result<String, Fail> {
    closed_text(alloc, &close(alloc, live.kept, folder))
}

/// The queue goes on from what was stored.
fn goes_on(rt: &HostRuntime, path: &str) -> Result<Live<LogFile>, Fail> {
    let mut live = said_at(rt, path, "1 turns: 1 b, none")?;
    live.endpoint.append(0, b"d")?;
    Ok(live)
}

/// The queue goes on from what was stored, and is closed.
fn go_on(rt: &HostRuntime, path: &str) -> Result<(), Fail> {
    let mut folder = folder_at(rt, path)?;
    let live = goes_on(rt, path)?;
    let said = closing_text(rt.alloc(), live, &mut folder)?;
    expect_text(said, "0[a;b;d;] at [2], end 3")
}

/// Opens the queue of a folder, and lets it end without a close.
fn expect_opened(rt: &HostRuntime, path: &str, want: &str) -> Result<(), Fail> {
    let mut live = opened(rt, path, 0)?;
    expect_said(rt.alloc(), &mut live, want)
}

/// Makes the queue of a folder, with the message "a".
fn make_with_a(rt: &HostRuntime, path: &str) -> Result<(), Fail> {
    let mut folder = folder_at(rt, path)?;
    make(rt.alloc(), &mut folder)?;
    write_a(rt.alloc(), &mut folder)
}

/// The example appends a message to a queue that was closed. The next opening has it.
fn expect_appended(rt: &HostRuntime, path: &str) -> Result<(), Fail> {
    expect_opened(rt, path, "0 turns: 2 d, none")?;
    let index = append_stored(rt, path, 0, b"e")?;
    expect(index.value() == 3, "the message has the index 3")?;
    expect_opened(rt, path, "1 turns: 2 d, 3 e")
}

/// Lives of the queue of a folder: one with a crash, one that is closed, and more.
fn expect_lives(rt: &HostRuntime, path: &str) -> Result<(), Fail> {
    crash(rt, path)?;
    go_on(rt, path)?;
    expect_images_at(rt, path, "0[a;b;d;] at [2]")?;
    expect_appended(rt, path)
}

#[test]
fn a_live_queue_survives_a_crash(rt: HostRuntime) -> Result<(), Fail> {
    let path = new_folder(&rt, "crash")?;
    make_with_a(&rt, path.as_str())?;
    expect_lives(&rt, path.as_str())?;
    fs::remove_dir_all(&rt, path.as_str())?;
    Ok(())
}

/// Makes the queue of a folder, in which no cycle has begun.
fn make_empty(rt: &HostRuntime, path: &str) -> Result<(), Fail> {
    let mut folder = folder_at(rt, path)?;
    make(rt.alloc(), &mut folder)
}

/// The example appends a message to a queue in which no cycle has begun. The next opening has it, and goes on with its cycle.
fn expect_first(rt: &HostRuntime, path: &str) -> Result<(), Fail> {
    let index = append_stored(rt, path, 2 * DAY, b"a")?;
    expect(
        index.value() == 2 << 32,
        "the message is the first of cycle 2",
    )?;
    expect_opened(rt, path, "1 turns: 8589934592 a, none")?;
    expect_images_at(rt, path, "2[a;] at [0]")
}

#[test]
fn a_queue_begins_live(rt: HostRuntime) -> Result<(), Fail> {
    let path = new_folder(&rt, "begin")?;
    make_empty(&rt, path.as_str())?;
    expect_first(&rt, path.as_str())?;
    fs::remove_dir_all(&rt, path.as_str())?;
    Ok(())
}

/// The place of the log of a folder, which looks at the locks.
fn watched_place<'a>(rt: &'a HostRuntime, path: &str) -> Result<WatchedPlace<'a>, Fail> {
    let inner = SystemPlace::new(rt, log_path(rt.alloc(), path)?);
    let log = log_path(rt.alloc(), path)?;
    Ok(WatchedPlace::new(rt, log, inner)?)
}

/// Makes a checkpoint of a queue in its folder, with this place of the log.
fn kept_in(
    rt: &HostRuntime,
    path: &str,
    place: &mut WatchedPlace,
    kept: KeptQueue<LogFile>,
) -> Result<KeptQueue<LogFile>, Fail> {
    let mut folder = folder_at(rt, path)?;
    match checkpoint(rt.alloc(), &mut folder, place, kept) {
        Ok(kept) => Ok(kept),
        Err(_) => Err(Fail::new(format_args!("no checkpoint"))),
    }
}

/// Fails unless both logs were locked when the new one was opened, and the old one is free now.
fn expect_locks(place: &mut WatchedPlace) -> Result<(), Fail> {
    expect(place.both_locked, "both logs are locked")?;
    expect(place.is_old_free(), "the old log is free then")
}

/// Makes a checkpoint of a queue in its folder. Both logs are locked when the new one is opened, and then the old one is free.
fn kept_through(
    rt: &HostRuntime,
    path: &str,
    kept: KeptQueue<LogFile>,
) -> Result<KeptQueue<LogFile>, Fail> {
    let mut place = watched_place(rt, path)?;
    let kept = kept_in(rt, path, &mut place, kept)?;
    expect_locks(&mut place)?;
    Ok(kept)
}

/// The same with a live queue.
fn checkpointed(rt: &HostRuntime, path: &str, live: Live<LogFile>) -> Result<Live<LogFile>, Fail> {
    let Live {
        kept,
        endpoint,
        turns,
    } = live;
    let kept = kept_through(rt, path, kept)?;
    Ok(Live {
        kept,
        endpoint,
        turns,
    })
}

/// A live queue with a message that came to it.
fn live_with_b(rt: &HostRuntime, path: &str) -> Result<Live<LogFile>, Fail> {
    let mut live = opened(rt, path, 0)?;
    live.endpoint.append(0, b"b")?;
    Ok(live)
}

/// What a queue does after a checkpoint: it stores a message, and another one comes.
fn live_after(rt: &HostRuntime, path: &str, live: &mut Live<LogFile>) -> Result<(), Fail> {
    expect_images_at(rt, path, "0[a;b;] at [0]")?;
    expect_in_use(rt, path)?;
    put(rt.alloc(), live, b"c")?;
    live.kept.settle()?;
    live.endpoint.append(0, b"d")?;
    Ok(())
}

/// A live queue with a message that came before a checkpoint, and one that is stored after it. It ends without a close.
fn live_through(rt: &HostRuntime, path: &str) -> Result<(), Fail> {
    let live = live_with_b(rt, path)?;
    let mut live = checkpointed(rt, path, live)?;
    live_after(rt, path, &mut live)
}

#[test]
fn a_live_queue_is_checkpointed(rt: HostRuntime) -> Result<(), Fail> {
    let path = new_folder(&rt, "checkpoint")?;
    make_with_a(&rt, path.as_str())?;
    live_through(&rt, path.as_str())?;
    expect_opened(&rt, path.as_str(), "1 turns: 0 a, 1 b")?;
    expect_images_at(&rt, path.as_str(), "0[a;b;c;] at [0]")?;
    fs::remove_dir_all(&rt, path.as_str())?;
    Ok(())
}

/// What a log is to survive, the first byte of the log, and what the next opening says and saves. A frame that waits is read where
/// the log has counts.
static CHOICES: [(Survives, u8, &str, &str); 3] = [
    (Survives::Power, 1, "1 turns: 0 a, 1 b", "0[a;b;] at [0]"),
    (
        Survives::PowerBytewise,
        2,
        "2 turns: 0 a, 1 b",
        "0[a;b;c;] at [0]",
    ),
    (
        Survives::Process,
        2,
        "2 turns: 0 a, 1 b",
        "0[a;b;c;] at [0]",
    ),
];

/// A queue is live with a log that is to survive this, and ends without a close.
fn crash_with(rt: &HostRuntime, path: &str, survives: Survives) -> Result<(), Fail> {
    let alloc = rt.alloc();
    let mut folder = folder_at(rt, path)?;
    let mut place = SystemPlace::new(rt, log_path(alloc, path)?).surviving(survives);
    match open(alloc, &mut folder, &mut place, 0) {
        Ok(live) => {
            let mut live = live;
            put_two(alloc, &mut live)
        }
        Err(_) => Err(Fail::new(format_args!("not opened"))),
    }
}

/// Fails unless the log of a folder begins with this byte.
fn expect_first_byte(rt: &HostRuntime, path: &str, first: u8) -> Result<(), Fail> {
    let log = log_at(rt, path)?;
    expect(log.first() == Some(&first), "the kind of the log")
}

/// Chooses what the log of a folder survives, and opens it after a crash.
fn expect_choice(
    rt: &HostRuntime,
    path: &str,
    choice: &(Survives, u8, &str, &str),
) -> Result<(), Fail> {
    let &(survives, first, said, images) = choice;
    make_with_a(rt, path)?;
    crash_with(rt, path, survives)?;
    expect_first_byte(rt, path, first)?;
    expect_opened(rt, path, said)?;
    expect_images_at(rt, path, images)
}

#[test]
fn each_choice_keeps_what_was_stored(rt: HostRuntime) -> Result<(), Fail> {
    for choice in &CHOICES {
        let path = new_folder(&rt, "choice")?;
        expect_choice(&rt, path.as_str(), choice)?;
        fs::remove_dir_all(&rt, path.as_str())?;
    }
    Ok(())
}
