//! Steps over the folder of a queue, and what is said at each.
use cq_fixtures::expect_text;
use cq_folder::{Access, Folder, MemoryFolder};
use cq_repair::repair;
use std::alloc::{AllocError, Global};
use std::fmt::Display;
use std::io::{ErrorKind, Write};
use std::test::Fail;
use std::{io, str};

/// The image of "a" and "b" in cycle 0 of 64 cells with count 8 and spacing 1, in version 2. The cycle goes on.
pub const TWO: &[u8] = b"\x24\x00\x00\x40CQIF\x02\x00\x00\x00\x00\x00\x00\x00\
\x08\x00\x00\x00\x01\x00\x00\x00\x40\x00\x00\x00\x00\x00\x00\x00\
\x00\x00\x00\x00\x00\x5c\x26\x05\x20\x00\x00\x40\x4c\x00\x00\x00\
\x00\x00\x00\x00\x00\x00\x00\x00\x00\x00\x00\x00\x00\x00\x00\x00\
\x00\x00\x00\x00\x00\x00\x00\x00\x00\x00\x00\x00\x20\x00\x00\x40\
\x70\x00\x00\x00\x78\x00\x00\x00\x00\x00\x00\x00\x00\x00\x00\x00\
\x00\x00\x00\x00\x00\x00\x00\x00\x00\x00\x00\x00\x00\x00\x00\x00\
\x01\x00\x00\x00a\x00\x00\x00\x01\x00\x00\x00b\x00\x00\x00";

/// The same with a byte in the padding of "b".
pub const TORN: &[u8] = b"\x24\x00\x00\x40CQIF\x02\x00\x00\x00\x00\x00\x00\x00\
\x08\x00\x00\x00\x01\x00\x00\x00\x40\x00\x00\x00\x00\x00\x00\x00\
\x00\x00\x00\x00\x00\x5c\x26\x05\x20\x00\x00\x40\x4c\x00\x00\x00\
\x00\x00\x00\x00\x00\x00\x00\x00\x00\x00\x00\x00\x00\x00\x00\x00\
\x00\x00\x00\x00\x00\x00\x00\x00\x00\x00\x00\x00\x20\x00\x00\x40\
\x70\x00\x00\x00\x78\x00\x00\x00\x00\x00\x00\x00\x00\x00\x00\x00\
\x00\x00\x00\x00\x00\x00\x00\x00\x00\x00\x00\x00\x00\x00\x00\x00\
\x01\x00\x00\x00a\x00\x00\x00\x01\x00\x00\x00b\x00x\x00";

/// The image of "a" alone, of a cycle that goes on.
pub const ONE: &[u8] = b"\x24\x00\x00\x40CQIF\x02\x00\x00\x00\x00\x00\x00\x00\
\x08\x00\x00\x00\x01\x00\x00\x00\x40\x00\x00\x00\x00\x00\x00\x00\
\x00\x00\x00\x00\x00\x5c\x26\x05\x20\x00\x00\x40\x4c\x00\x00\x00\
\x00\x00\x00\x00\x00\x00\x00\x00\x00\x00\x00\x00\x00\x00\x00\x00\
\x00\x00\x00\x00\x00\x00\x00\x00\x00\x00\x00\x00\x20\x00\x00\x40\
\x70\x00\x00\x00\x00\x00\x00\x00\x00\x00\x00\x00\x00\x00\x00\x00\
\x00\x00\x00\x00\x00\x00\x00\x00\x00\x00\x00\x00\x00\x00\x00\x00\
\x01\x00\x00\x00a\x00\x00\x00";

/// The image of "a" alone, of a cycle that has ended.
pub const ONE_ENDED: &[u8] = b"\x24\x00\x00\x40CQIF\x02\x00\x00\x00\x00\x00\x00\x00\
\x08\x00\x00\x00\x01\x00\x00\x00\x40\x00\x00\x00\x00\x00\x00\x00\
\x00\x00\x00\x00\x00\x5c\x26\x05\x20\x00\x00\x40\x4c\x00\x00\x00\
\x00\x00\x00\x00\x00\x00\x00\x00\x00\x00\x00\x00\x00\x00\x00\x00\
\x00\x00\x00\x00\x00\x00\x00\x00\x00\x00\x00\x00\x20\x00\x00\x40\
\x70\x00\x00\x00\x00\x00\x00\x00\x00\x00\x00\x00\x00\x00\x00\x00\
\x00\x00\x00\x00\x00\x00\x00\x00\x00\x00\x00\x00\x00\x00\x00\x00\
\x01\x00\x00\x00a\x00\x00\x00\x00\x00\x00\xc0";

/// A cycle without messages that has ended.
pub const ENDED: &[u8] = b"\x00\x00\x00\xc0";

/// What is done to a folder. A command gives what it wrote, and after it the text of its fault.
#[derive(Clone, Copy)]
pub enum Step {
    /// `repair` of a file.
    Repair(&'static str),
    /// The same in a dry run.
    Try(&'static str),
    /// `repair` of a file, with a writer that fails after this many bytes.
    Unprinted(&'static str, usize),
    /// Puts a file with these bytes.
    Put(&'static str, &'static [u8]),
    /// Puts a file of this many bytes, each 0.
    Fill(&'static str, usize),
    /// Puts the first bytes of "a" and "b" into the file of cycle 0.
    Cut(usize),
    /// Says whether a file has these bytes.
    Same(&'static str, &'static [u8]),
    /// Says the names and their positions in `queue.cqc`.
    Config,
    /// Says the names of all files, in order.
    Names,
}

/// Steps in turn, each with what is said at it.
pub type Steps = &'static [(Step, &'static str)];

/// Takes these steps over a folder in memory, and compares what is said at each.
pub fn expect_steps(alloc: Global, steps: Steps) -> Result<(), Fail> {
    let mut folder = MemoryFolder::new(alloc);
    for (step, want) in steps {
        expect_text(said_at(alloc, &mut folder, step)?, want)?;
    }
    Ok(())
}

/// Takes a step over a folder, and gives what is said.
pub fn said_at<F: Folder>(
    alloc: Global,
    folder: &mut F,
    step: &Step,
) -> Result<String, AllocError> {
    let mut output = Vec::new(alloc);
    match *step {
        Step::Repair(file) => {
            let done = repair(alloc, folder, file, false, &mut output);
            said(alloc, done, output.as_slice())
        }
        Step::Try(file) => {
            let done = repair(alloc, folder, file, true, &mut output);
            said(alloc, done, output.as_slice())
        }
        Step::Unprinted(file, left) => {
            let done = repair(alloc, folder, file, false, &mut Broken { left });
            said(alloc, done, output.as_slice())
        }
        Step::Put(name, bytes) => put(alloc, folder, name, bytes),
        Step::Fill(name, length) => {
            let bytes = vec![in alloc; 0; length]?;
            put(alloc, folder, name, bytes.as_slice())
        }
        Step::Cut(length) => put(
            alloc,
            folder,
            "19700101.cqi",
            TWO.get(..length).unwrap_or(TWO),
        ),
        Step::Same(name, bytes) => {
            let held = bytes_of(alloc, folder, name)?;
            let text = if held.as_slice() == bytes {
                "same"
            } else {
                "other"
            };
            Ok(String::from_str(alloc, text)?)
        }
        Step::Config => {
            let held = bytes_of(alloc, folder, "queue.cqc")?;
            Ok(String::from_str(alloc, str::from_utf8(held.as_slice()).unwrap_or("no text"))?)
        }
        Step::Names => names_of(alloc, folder),
    }
}

/// What a command wrote, and after it the text of its fault.
fn said<E: Display + Drop>(
    alloc: Global,
    done: Result<(), E>,
    output: &[u8],
) -> Result<String, AllocError> {
    let text = str::from_utf8(output).unwrap_or("no text");
    match done {
        Ok(()) => Ok(String::from_str(alloc, text)?),
        Err(fault) => Ok(format!(in alloc; "{text}cq: {fault}")?),
    }
}

/// The bytes of a file; none if it is not read.
fn bytes_of<F: Folder>(alloc: Global, folder: &mut F, name: &str) -> Result<Vec<u8>, AllocError> {
    if folder.begin(alloc, Access::Shared).is_err() {
        return Ok(Vec::new(alloc));
    }
    let read = folder.read(alloc, name, 1_000);
    folder.end();
    Ok(read.unwrap_or(Vec::new(alloc)))
}

/// Puts a file with these bytes.
fn put<F: Folder>(
    alloc: Global,
    folder: &mut F,
    name: &str,
    bytes: &[u8],
) -> Result<String, AllocError> {
    if folder.begin(alloc, Access::Alone).is_err() {
        return Ok(String::from_str(alloc, "not entered")?);
    }
    let done = folder.write(name, bytes);
    folder.end();
    let text = if done.is_ok() { "" } else { "not written" };
    Ok(String::from_str(alloc, text)?)
}

/// The names of all files, in order.
fn names_of<F: Folder>(alloc: Global, folder: &mut F) -> Result<String, AllocError> {
    if folder.begin(alloc, Access::Shared).is_err() {
        return Ok(String::from_str(alloc, "not entered")?);
    }
    let listed = folder.names(alloc);
    folder.end();
    let Ok(mut names) = listed else {
        return Ok(String::from_str(alloc, "not listed")?);
    };
    names.sort()?;
    let mut text = String::new(alloc);
    for name in names {
        text.push_str(name.as_str())?;
        text.push_str(" ")?;
    }
    Ok(text)
}

/// A writer that takes some bytes and then fails.
#[derive(Drop)]
struct Broken {
    /// How many it still takes.
    left: usize,
}

impl Write for Broken {
    fn write(&mut self, bytes: &[u8]) -> io::Result<usize> {
        let count = bytes.len().min(self.left);
        if count == 0 {
            return Err(io::Error::from(ErrorKind::Other));
        }
        self.left -= count;
        Ok(count)
    }

    fn flush(&mut self) -> io::Result<()> {
        Ok(())
    }
}
