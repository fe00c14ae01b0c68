//! What `explain` finds.
use cq_advice::{Explained, explain};
use cq_fixtures::{expect, expect_text};
use cq_text::ToolFault;
use std::alloc::{AllocError, Global};
use std::io::{ErrorKind, Write};
use std::test::Fail;
use std::{io, str};

/// Words, and the texts of the faults that are about them.
static ROWS: &[(&[&str], &str)] = &[
    (&["BadRoom"], "line N: BadRoom;"),
    (
        &["no", "queue"],
        "no queue here;this folder has a log, queue.log, and no queue: ..;the log gives what no queue with these settings holds: ..;",
    ),
    (&["folder", "fault"], "folder fault;"),
    // Not those of `there already: ..` and of `line N: too long`.
    (&["cq: queue there already"], "queue there already;"),
    (&["input too long"], "input too long;"),
    // Messages as they are printed, in one word and in several.
    (&["cq: file fault: queue.cqc"], "file fault: FILE;"),
    (
        &["cq:", "20241004.cqi:", "Cut", "at", "100"],
        "FILE: Cut at P;",
    ),
    (&["line 12: BadRoom"], "line N: BadRoom;"),
    (
        &["past the end, which is 00004e2000000001"],
        "past the end, which is INDEX;",
    ),
    (&["no fault at all"], ""),
    (&["BadRooms"], ""),
    (&["line 7: BadRooms"], "line N: BadRoom;"),
    (&["badroom"], ""),
];

/// The text that is printed of a fault: each line of it.
const ROOM: &str =
    "line N: BadRoom\n  It is empty.\n  What to do: Leave empty lines out, as sed '/^$/d' does.\n\n";

/// What is printed for these words, and whether a fault was found.
fn printed(alloc: Global, words: &[&str]) -> Result<(Vec<u8>, bool), AllocError> {
    let mut given = Vec::new(alloc);
    for word in words {
        given.push(String::from_str(alloc, word)?)?;
    }
    let mut output = Vec::new(alloc);
    match explain(alloc, given.as_slice(), &mut output) {
        Ok(explained) => Ok((output, explained == Explained::Known)),
        Err(_) => Err(AllocError),
    }
}

/// The lines of a text that begin with no space, each with a semicolon after it.
fn heads(alloc: Global, text: &[u8]) -> Result<String, AllocError> {
    let mut heads = String::new(alloc);
    for line in str::from_utf8(text).unwrap_or("no text").lines() {
        if !line.is_empty() && !line.starts_with(' ') {
            heads.push_str(line)?;
            heads.push(';')?;
        }
    }
    Ok(heads)
}

#[test]
fn faults_are_found(rt: HostRuntime) -> Result<(), Fail> {
    let alloc = rt.alloc();
    for (words, want) in ROWS {
        let (text, known) = printed(alloc, words)?;
        expect_text(heads(alloc, text.as_slice())?, want)?;
        expect(known != want.is_empty(), "it says whether one was found")?;
    }
    Ok(())
}

#[test]
fn a_fault_is_printed_whole(rt: HostRuntime) -> Result<(), Fail> {
    let alloc = rt.alloc();
    let (text, _) = printed(alloc, &["BadRoom"])?;
    expect(text.as_slice() == ROOM.as_bytes(), "the text of BadRoom")?;
    let (all, known) = printed(alloc, &[])?;
    expect(known, "without a word there are faults")?;
    let longer = all.len() > 10_000 && all.starts_with(b"want of memory\n");
    expect(longer, "without a word all are printed")
}

/// A writer that fails.
#[derive(Drop)]
struct Broken;

impl Write for Broken {
    fn write(&mut self, _bytes: &[u8]) -> io::Result<usize> {
        Err(io::Error::from(ErrorKind::Other))
    }

    fn flush(&mut self) -> io::Result<()> {
        Ok(())
    }
}

#[test]
fn a_writer_that_fails_is_a_fault(rt: HostRuntime) -> Result<(), Fail> {
    let done = explain(rt.alloc(), &[], &mut Broken);
    expect(matches!(done, Err(ToolFault::WriteFault)), "write fault")
}
