//! A queue with a log in a real file, which is opened again.
use crate::life::{Call, answer, append, take};
use crate::start::{config, images, replayed};
use cq_endpoint::Endpoint;
use cq_fixtures::{contents_text, expect_text};
use cq_kept::{KeptQueue, Opened};
use cq_log_file::{Found, LogFile};
use cq_model::Contents;
use std::alloc::Global;
use std::test::Fail;
use std::{env, fs, process};

/// Makes a new folder for temporary files, and returns its path.
fn new_folder(rt: &HostRuntime) -> Result<String, Fail> {
    let within = env::temp_dir(rt)?;
    let id = process::id(rt.process());
    let path = format!(in rt.alloc(); "{}/cq_kept_{id}", within.display())?;
    fs::create_dir(rt, path.as_str())?;
    Ok(path)
}

/// Opens a queue that holds these contents, with a log in a new file.
fn opened(rt: &HostRuntime, contents: &Contents, path: &str) -> Result<Opened<LogFile>, Fail> {
    let alloc = rt.alloc();
    let config = config(alloc)?;
    let device = LogFile::create(rt, path)?;
    match KeptQueue::open(alloc, config, contents, device) {
        Ok(life) => Ok(life),
        Err(error) => Err(Fail::from(error.fault)),
    }
}

/// Calls of a queue: the second message is not stored.
static CALLS: [Call; 6] = [
    Call::Append(0, "d"),
    Call::Take,
    Call::Turn,
    Call::Settle,
    Call::Append(0, "e"),
    Call::Turn,
];

/// Makes those calls.
fn make_calls(alloc: Global, life: &mut Opened<LogFile>) -> Result<(), Fail> {
    for &call in &CALLS {
        answer(alloc, life, call)?;
    }
    Ok(())
}

/// Makes those calls of a queue that holds what the images do, and drops it.
fn make_first(rt: &HostRuntime, path: &str) -> Result<(), Fail> {
    let alloc = rt.alloc();
    let mut life = opened(rt, &images(alloc)?, path)?;
    make_calls(alloc, &mut life)
}

/// Returns what the log in a file gives.
fn found(rt: &HostRuntime, path: &str) -> Result<Contents, Fail> {
    let Found { file: _, bytes } = LogFile::open(rt, path)?;
    replayed(rt.alloc(), &bytes)
}

/// Appends a message and takes one. Returns both answers.
fn said(alloc: Global, endpoint: &mut Endpoint) -> Result<String, Fail> {
    let appended = append(alloc, endpoint, 0, "f")?;
    let taken = take(alloc, endpoint)?;
    Ok(format!(in alloc; "{appended}, {taken}")?)
}

/// Returns what is said of a queue that holds these contents.
fn said_next(rt: &HostRuntime, contents: &Contents, path: &str) -> Result<String, Fail> {
    let mut life = opened(rt, contents, path)?;
    said(rt.alloc(), &mut life.endpoint)
}

/// Fails unless a queue that holds these contents, with its log in another file, says what is wanted.
fn expect_next(rt: &HostRuntime, folder: &str, contents: &Contents) -> Result<(), Fail> {
    let next = format!(in rt.alloc(); "{folder}/next.log")?;
    expect_text(
        said_next(rt, contents, next.as_str())?,
        "21474836483, 21474836482 d",
    )
}

/// Fails unless the log in a file gives what was stored. A queue goes on with that.
fn expect_found(rt: &HostRuntime, folder: &str, path: &str) -> Result<(), Fail> {
    let contents = found(rt, path)?;
    expect_text(
        contents_text(rt.alloc(), &contents)?,
        "5[ab;c;d;] at [21474836482]",
    )?;
    expect_next(rt, folder, &contents)
}

/// Makes the first calls of a queue with a log in a folder, and goes on with what the log gives.
fn expect_lives(rt: &HostRuntime, folder: &str) -> Result<(), Fail> {
    let path = format!(in rt.alloc(); "{folder}/queue.log")?;
    make_first(rt, path.as_str())?;
    expect_found(rt, folder, path.as_str())
}

/// What was stored in a file is there when its queue was dropped, and a queue that is opened with it goes on. What was put and not
/// stored is not there.
#[test]
fn a_queue_goes_on_from_its_file(rt: HostRuntime) -> Result<(), Fail> {
    let folder = new_folder(&rt)?;
    expect_lives(&rt, folder.as_str())?;
    fs::remove_dir_all(&rt, folder.as_str())?;
    Ok(())
}
