//! A folder of the system whose log is folded.
use crate::logs::Frame::{Bytes, Head, Turn};
use crate::logs::Line::{Cycle, Message, Name};
use crate::steps::Step::{Check, Fold, Log, Names, Put, Queue, Read, Take, Text, Write};
use crate::steps::{Steps, expect_steps};
use cq_fixtures::DAY;
use cq_folder::Folder;
use cq_real_folder::RealFolder;
use std::rt::Files;
use std::test::Fail;
use std::{env, fs, process};

/// No part and no save record is left after a fold.
static REAL: Steps = &[
    (Queue, ""),
    (Write(0, b"a\n"), "0000000000000000\n"),
    (
        Log(&[
            Head,
            Turn(&[Message("b"), Cycle(1)]),
            Turn(&[Message("c"), Name(0, 1)]),
        ]),
        "",
    ),
    (Names, "19700101.cqi queue.cqc queue.log "),
    (Fold, "0[a;b;] 1[c;] at [1], 2 turns, 4 cycles"),
    (Names, "19700101.cqi 19700102.cqi queue.cqc queue.log "),
    (Text("queue.log"), ""),
    (
        Check,
        "19700101.cqi: 2 messages, ended\n19700102.cqi: 1 messages, open\n",
    ),
    (Take, "0000000000000001 b\n"),
    (Fold, "0[a;b;] 1[c;] at [2], 0 turns, 4 cycles"),
    // A fault leaves the log.
    (Log(&[Bytes(b"no head")]), ""),
    (
        Fold,
        "fold: the file is no log of a queue: read the log with the version that wrote it, or move it away to open the images alone",
    ),
    (Text("queue.log"), "\u{1}\u{7}\0\0\0no head\0"),
    (Put("queue.log", b""), ""),
    (Log(&[Head, Turn(&[Message("d")])]), ""),
];

/// A save was stopped between its renames: the log that it emptied is not played.
static STOPPED: Steps = &[
    (Fold, "0[a;b;] 1[c;] at [2], 0 turns, 4 cycles"),
    (Names, "19700101.cqi 19700102.cqi queue.cqc queue.log "),
    (Text("queue.log"), ""),
    (Write(DAY, b"e\n"), "0000000100000001\n"),
    (
        Read,
        "0000000000000000 a\n0000000000000001 b\n0000000100000000 c\n0000000100000001 e\n",
    ),
];

/// A log of another turn.
static OTHER: Steps = &[(Log(&[Head, Turn(&[Message("f")])]), "")];

/// A part that no save record names is left of a save that was stopped before: the log is played, and the part removed.
static NEVER_SAVED: Steps = &[
    (Fold, "0[a;b;] 1[c;e;f;] at [2], 1 turns, 4 cycles"),
    (Names, "19700101.cqi 19700102.cqi queue.cqc queue.log "),
    (Text("queue.log"), ""),
];

/// Puts a file within a folder, by the system's own call.
fn put<R: Files + AllocGlobal>(rt: &R, path: &str, name: &str, text: &str) -> Result<(), Fail> {
    let file = format!(in rt.alloc(); "{path}/{name}")?;
    fs::write(rt, file.as_str(), text)?;
    Ok(())
}

/// Puts the part and the record of a save that was stopped between its renames.
fn put_stopped_save(rt: &HostRuntime, path: &str) -> Result<(), Fail> {
    put(rt, path, "queue.log.9.part", "")?;
    put(rt, path, "queue.save", "cq save 1\n9\nqueue.log\nend\n")
}

/// Takes steps over a folder of the system. In between saves are stopped.
fn expect_all<F: Folder>(rt: &HostRuntime, path: &str, folder: &mut F) -> Result<(), Fail> {
    let alloc = rt.alloc();
    expect_steps(alloc, "a folder of the system", folder, REAL)?;
    folder.end();
    put_stopped_save(rt, path)?;
    expect_steps(alloc, "a save that was stopped", folder, STOPPED)?;
    expect_steps(alloc, "another log", folder, OTHER)?;
    folder.end();
    put(rt, path, "queue.log.9.part", "")?;
    expect_steps(alloc, "a save that was never done", folder, NEVER_SAVED)
}

/// Makes a new folder for temporary files, and returns its path.
fn new_folder(rt: &HostRuntime) -> Result<String, Fail> {
    let within = env::temp_dir(rt)?;
    let id = process::id(rt.process());
    let path = format!(in rt.alloc(); "{}/cq_fold_{id}", within.display())?;
    fs::create_dir(rt, path.as_str())?;
    Ok(path)
}

#[test]
fn a_log_in_a_folder_of_the_system_is_folded(rt: HostRuntime) -> Result<(), Fail> {
    let path = new_folder(&rt)?;
    let mut folder = RealFolder::new(&rt, String::from_str(rt.alloc(), path.as_str())?, 7);
    expect_all(&rt, path.as_str(), &mut folder)?;
    fs::remove_dir_all(&rt, path.as_str())?;
    Ok(())
}
