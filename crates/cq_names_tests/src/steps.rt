//! Steps over the folder of a queue, and what is said at each.
use cq_fixtures::expect_text;
use cq_folder::{Access, Folder, MemoryFolder};
use cq_names::{NameChange, NameFault, names};
use std::alloc::{AllocError, Global};
use std::io::{ErrorKind, Write};
use std::test::Fail;
use std::{io, str};

/// The image of "hello" in cycle 0 of 64 cells with count 8 and spacing 1, in version 2.
pub const HELLO: &[u8] = b"\x24\x00\x00\x40CQIF\x02\x00\x00\x00\x00\x00\x00\x00\
\x08\x00\x00\x00\x01\x00\x00\x00\x40\x00\x00\x00\x00\x00\x00\x00\
\x00\x00\x00\x00\x00\x5c\x26\x05\x20\x00\x00\x40\x4c\x00\x00\x00\
\x00\x00\x00\x00\x00\x00\x00\x00\x00\x00\x00\x00\x00\x00\x00\x00\
\x00\x00\x00\x00\x00\x00\x00\x00\x00\x00\x00\x00\x20\x00\x00\x40\
\x70\x00\x00\x00\x00\x00\x00\x00\x00\x00\x00\x00\x00\x00\x00\x00\
\x00\x00\x00\x00\x00\x00\x00\x00\x00\x00\x00\x00\x00\x00\x00\x00\
\x05\x00\x00\x00hello\x00\x00\x00";

/// The image of a cycle without messages that goes on.
pub const OPEN: &[u8] = b"";

/// The image of a cycle without messages that has ended.
pub const ENDED: &[u8] = b"\x00\x00\x00\xc0";

/// What is done to a folder. A command gives what it wrote, and after it the text of its fault.
#[derive(Clone, Copy)]
pub enum Step {
    /// `name` that lists.
    List,
    /// `name` that adds a name, at the position of a word if there is one.
    Add(&'static str, Option<&'static str>),
    /// `name` that removes a name.
    Remove(&'static str),
    /// `name` that moves a name to the position of a word.
    Move(&'static str, &'static str),
    /// `name` that moves a name to the start, with a writer that fails after this many bytes.
    Unprinted(&'static str, usize),
    /// `name` that lists, with a writer that fails at once.
    Unlisted,
    /// Says the text of `queue.cqc`.
    Config,
    /// Puts a file with these bytes.
    Put(&'static str, &'static [u8]),
}

/// Steps in turn, each with what is said at it.
pub type Steps = &'static [(Step, &'static str)];

/// Takes these steps over a folder in memory, and compares what is said at each.
pub fn expect_steps(alloc: Global, steps: Steps) -> Result<(), Fail> {
    let mut folder = MemoryFolder::new(alloc);
    for (step, want) in steps {
        expect_text(said_at(alloc, &mut folder, step)?, want)?;
    }
    Ok(())
}

/// Takes a step over a folder, and gives what is said.
pub fn said_at<F: Folder>(
    alloc: Global,
    folder: &mut F,
    step: &Step,
) -> Result<String, AllocError> {
    match *step {
        Step::List => named(alloc, folder, &NameChange::List),
        Step::Add(name, at) => {
            let change = adding(alloc, name, at)?;
            named(alloc, folder, &change)
        }
        Step::Remove(name) => {
            let name = String::from_str(alloc, name)?;
            named(alloc, folder, &NameChange::Remove { name })
        }
        Step::Move(name, to) => {
            let change = moving(alloc, name, to)?;
            named(alloc, folder, &change)
        }
        Step::Unprinted(name, left) => {
            let change = moving(alloc, name, "0000000000000000")?;
            let done = names(alloc, folder, &change, &mut Broken { left });
            said(alloc, done, b"")
        }
        Step::Unlisted => {
            let done = names(alloc, folder, &NameChange::List, &mut Broken { left: 0 });
            said(alloc, done, b"")
        }
        Step::Config => text_of(alloc, folder, "queue.cqc"),
        Step::Put(name, bytes) => put(alloc, folder, name, bytes),
    }
}

/// The change that adds a name.
fn adding(alloc: Global, name: &str, at: Option<&str>) -> Result<NameChange, AllocError> {
    let at = match at {
        None => None,
        Some(word) => Some(String::from_str(alloc, word)?),
    };
    Ok(NameChange::Add {
        name: String::from_str(alloc, name)?,
        at,
    })
}

/// The change that moves a name.
fn moving(alloc: Global, name: &str, to: &str) -> Result<NameChange, AllocError> {
    Ok(NameChange::Move {
        name: String::from_str(alloc, name)?,
        to: String::from_str(alloc, to)?,
    })
}

/// What `name` says.
fn named<F: Folder>(
    alloc: Global,
    folder: &mut F,
    change: &NameChange,
) -> Result<String, AllocError> {
    let mut output = Vec::new(alloc);
    let done = names(alloc, folder, change, &mut output);
    said(alloc, done, output.as_slice())
}

/// What a command wrote, and after it the text of its fault.
fn said(alloc: Global, done: Result<(), NameFault>, output: &[u8]) -> Result<String, AllocError> {
    let text = str::from_utf8(output).unwrap_or("no text");
    match done {
        Ok(()) => Ok(String::from_str(alloc, text)?),
        Err(fault) => Ok(format!(in alloc; "{text}cq: {fault}")?),
    }
}

/// The text of a file.
fn text_of<F: Folder>(alloc: Global, folder: &mut F, name: &str) -> Result<String, AllocError> {
    if folder.begin(alloc, Access::Shared).is_err() {
        return Ok(String::from_str(alloc, "not entered")?);
    }
    let read = folder.read(alloc, name, 1_000);
    folder.end();
    match read {
        Err(_) => Ok(String::from_str(alloc, "not read")?),
        Ok(bytes) => Ok(String::from_str(
            alloc,
            str::from_utf8(bytes.as_slice()).unwrap_or("no text"),
        )?),
    }
}

/// Puts a file with these bytes.
fn put<F: Folder>(
    alloc: Global,
    folder: &mut F,
    name: &str,
    bytes: &[u8],
) -> Result<String, AllocError> {
    if folder.begin(alloc, Access::Alone).is_err() {
        return Ok(String::from_str(alloc, "not entered")?);
    }
    let done = folder.write(name, bytes);
    folder.end();
    let text = if done.is_ok() { "" } else { "not written" };
    Ok(String::from_str(alloc, text)?)
}

/// A writer that takes some bytes and then fails.
#[derive(Drop)]
struct Broken {
    /// How many it still takes.
    left: usize,
}

impl Write for Broken {
    fn write(&mut self, bytes: &[u8]) -> io::Result<usize> {
        let count = bytes.len().min(self.left);
        if count == 0 {
            return Err(io::Error::from(ErrorKind::Other));
        }
        self.left -= count;
        Ok(count)
    }

    fn flush(&mut self) -> io::Result<()> {
        Ok(())
    }
}
