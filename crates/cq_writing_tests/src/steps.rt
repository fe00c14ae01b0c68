//! Steps over the folder of a queue, and what is said at each.
use cq_file_commands::salvage;
use cq_fixtures::expect_text;
use cq_folder::{Access, Folder, MemoryFolder};
use cq_writing::{Batch, Begun, InputForm, write_by};
use std::alloc::{AllocError, Global};
use std::io::{ErrorKind, Read, Write};
use std::test::Fail;
use std::{io, str};

/// The text of `queue.cqc` of a queue of 4 cycles of a day each, with 256 cells, count 8 and spacing 1.
pub const QUEUE: &[u8] = b"cq 2\nroll daily\nepoch 0\ncells 256\ncount 8\nspacing 1\ncycles 4\n";

/// What is done to a folder.
#[derive(Clone, Copy)]
pub enum Step {
    /// Appends the messages of these bytes at a moment. It gives what was printed, and after it the cycle that began or the
    /// text of the fault.
    Append(InputForm, u64, &'static [u8]),
    /// The same, where the input is this byte, so often.
    Fill(InputForm, u8, usize),
    /// The same, where the reader fails after this many bytes.
    Unread(InputForm, usize),
    /// The same, where the writer fails after this many bytes.
    Unprinted(InputForm, &'static [u8], usize),
    /// Gives the messages of an image, each after its number.
    Messages(&'static str),
    /// Puts a file with these bytes.
    Put(&'static str, &'static [u8]),
}

/// Steps in turn, each with what is said at it.
pub type Steps = &'static [(Step, &'static str)];

/// Takes these steps over a folder in memory, and compares what is said at each.
pub fn expect_steps(alloc: Global, steps: Steps) -> Result<(), Fail> {
    let mut folder = MemoryFolder::new(alloc);
    for (step, want) in steps {
        expect_text(said_at(alloc, &mut folder, step)?, want)?;
    }
    Ok(())
}

/// Takes a step over a folder, and gives what is said.
pub fn said_at<F: Folder>(
    alloc: Global,
    folder: &mut F,
    step: &Step,
) -> Result<String, AllocError> {
    match *step {
        Step::Append(form, moment, bytes) => {
            let mut input = bytes;
            appended(alloc, folder, Batch { moment, form }, &mut input)
        }
        Step::Fill(form, byte, left) => {
            let mut input = Repeated {
                byte,
                left,
                fails: false,
            };
            appended(alloc, folder, Batch { moment: 0, form }, &mut input)
        }
        Step::Unread(form, left) => {
            let mut input = Repeated {
                byte: b'a',
                left,
                fails: true,
            };
            appended(alloc, folder, Batch { moment: 0, form }, &mut input)
        }
        Step::Unprinted(form, bytes, left) => {
            let mut input = bytes;
            let mut output = Broken { left };
            let batch = Batch { moment: 0, form };
            match write_by(alloc, folder, batch, &mut input, &mut output) {
                Ok(begun) => said_begun(alloc, "", begun),
                Err(fault) => format!(in alloc; "cq: {fault}"),
            }
        }
        Step::Messages(file) => messages_of(alloc, folder, file),
        Step::Put(name, bytes) => put(alloc, folder, name, bytes),
    }
}

/// What is said where the messages of an input are appended.
fn appended<F: Folder, R: Read>(
    alloc: Global,
    folder: &mut F,
    batch: Batch,
    input: &mut R,
) -> Result<String, AllocError> {
    let mut output = Vec::new(alloc);
    let done = write_by(alloc, folder, batch, input, &mut output);
    let text = str::from_utf8(output.as_slice()).unwrap_or("no text");
    match done {
        Ok(begun) => said_begun(alloc, text, begun),
        Err(fault) => format!(in alloc; "{text}cq: {fault}"),
    }
}

/// What was printed, and the cycle that began.
fn said_begun(alloc: Global, text: &str, begun: Option<Begun>) -> Result<String, AllocError> {
    match begun {
        None => String::from_str(alloc, text),
        Some(Begun { cycle, name }) => format!(in alloc; "{text}began {cycle} {name}\n"),
    }
}

/// The messages of an image.
fn messages_of<F: Folder>(alloc: Global, folder: &mut F, file: &str) -> Result<String, AllocError> {
    let mut output = Vec::new(alloc);
    let done = salvage(alloc, folder, file, &mut output);
    let text = str::from_utf8(output.as_slice()).unwrap_or("no text");
    match done {
        Ok(()) => String::from_str(alloc, text),
        Err(fault) => format!(in alloc; "{text}cq: {fault}"),
    }
}

/// Puts a file with these bytes.
fn put<F: Folder>(
    alloc: Global,
    folder: &mut F,
    name: &str,
    bytes: &[u8],
) -> Result<String, AllocError> {
    if folder.begin(alloc, Access::Alone).is_err() {
        return Ok(String::from_str(alloc, "not entered")?);
    }
    let done = folder.write(name, bytes);
    folder.end();
    let text = if done.is_ok() { "" } else { "not written" };
    Ok(String::from_str(alloc, text)?)
}

/// A reader of one byte, so often, which then ends or fails.
#[derive(Drop)]
struct Repeated {
    /// The byte.
    byte: u8,
    /// How often it still comes.
    left: usize,
    /// Whether it fails then.
    fails: bool,
}

impl Read for Repeated {
    fn read(&mut self, buf: &mut [u8]) -> io::Result<usize> {
        if self.left == 0 {
            return if self.fails {
                Err(io::Error::from(ErrorKind::Other))
            } else {
                Ok(0)
            };
        }
        let count = buf.len().min(self.left);
        buf[..count].fill(self.byte);
        self.left -= count;
        Ok(count)
    }
}

/// A writer that takes some bytes and then fails.
#[derive(Drop)]
struct Broken {
    /// How many it still takes.
    left: usize,
}

impl Write for Broken {
    fn write(&mut self, bytes: &[u8]) -> io::Result<usize> {
        let count = bytes.len().min(self.left);
        if count == 0 {
            return Err(io::Error::from(ErrorKind::Other));
        }
        self.left -= count;
        Ok(count)
    }

    fn flush(&mut self) -> io::Result<()> {
        Ok(())
    }
}
