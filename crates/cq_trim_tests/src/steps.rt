//! Steps over the folder of a queue, and what is said at each.
use cq_fixtures::expect_text;
use cq_folder::{Access, Folder, MemoryFolder};
use cq_orders::{InitSettings, ReadForm, ReadSettings};
use cq_running::{check, drop_before, init, read, take, write};
use cq_trim::{TrimFault, TrimSettings, trim};
use std::alloc::{AllocError, Global};
use std::fmt::Display;
use std::io::{ErrorKind, Write};
use std::test::Fail;
use std::{io, str};

/// What `trim` is given: `keep`, `before`, whether it is forced, and whether it is a dry run.
pub type Wanted = (Option<u64>, Option<&'static str>, bool, bool);

/// What is done to a folder. A command gives what it wrote, and after it the text of its fault.
#[derive(Clone, Copy)]
pub enum Step {
    /// `init` with a roll, an epoch, 64 cells, a number of cycles and names.
    Init(&'static str, u64, u64, &'static [&'static str]),
    /// `write` of an input at a moment.
    Write(u64, &'static [u8]),
    /// `read` of all messages.
    Read,
    /// `take` under a name.
    Take(&'static str),
    /// `drop` of the cycles before one.
    Drop(u64),
    /// `check`.
    Check,
    /// `trim` of what is dropped.
    Rest,
    /// `trim` that keeps the last cycles.
    Last(u64),
    /// `trim` that drops the cycles before the one that a word means.
    Before(&'static str),
    /// `trim` with all that it is given.
    Trim(Wanted),
    /// `trim` that keeps the last cycle, with a writer that fails after this many bytes.
    Unprinted(usize),
    /// Says the text of `queue.cqc`.
    Config,
    /// Puts a file with these bytes.
    Put(&'static str, &'static [u8]),
    /// Says the names of all files, in order.
    Names,
}

/// Steps in turn, each with what is said at it.
pub type Steps = &'static [(Step, &'static str)];

/// Takes these steps over a folder in memory, and compares what is said at each.
pub fn expect_steps(alloc: Global, steps: Steps) -> Result<(), Fail> {
    let mut folder = MemoryFolder::new(alloc);
    for (step, want) in steps {
        expect_text(said_at(alloc, &mut folder, step)?, want)?;
    }
    Ok(())
}

/// Takes a step over a folder, and gives what is said.
pub fn said_at<F: Folder>(
    alloc: Global,
    folder: &mut F,
    step: &Step,
) -> Result<String, AllocError> {
    let mut output = Vec::new(alloc);
    match *step {
        Step::Init(roll, epoch, cycles, names) => {
            let settings = settings_of(alloc, roll, epoch, cycles, names)?;
            let done = init(alloc, folder, &settings);
            said(alloc, done, output.as_slice())
        }
        Step::Write(moment, input) => {
            let mut rest = input;
            let done = write(alloc, folder, moment, &mut rest, &mut output);
            said(alloc, done, output.as_slice())
        }
        Step::Read => {
            let all = ReadSettings {
                form: ReadForm::Line,
                back: false,
                from: None,
                limit: None,
                last: None,
                since: None,
                until: None,
            };
            let done = read(alloc, folder, &all, &mut output);
            said(alloc, done, output.as_slice())
        }
        Step::Take(name) => {
            let done = take(alloc, folder, name, &mut output);
            said(alloc, done, output.as_slice())
        }
        Step::Drop(cycle) => {
            let done = drop_before(alloc, folder, cycle, &mut output);
            said(alloc, done, output.as_slice())
        }
        Step::Check => {
            let done = check(alloc, folder, &mut output);
            said(alloc, done, output.as_slice())
        }
        Step::Rest => trimmed(alloc, folder, (None, None, false, false)),
        Step::Last(count) => trimmed(alloc, folder, (Some(count), None, false, false)),
        Step::Before(word) => trimmed(alloc, folder, (None, Some(word), false, false)),
        Step::Trim(wanted) => trimmed(alloc, folder, wanted),
        Step::Unprinted(left) => {
            let wanted = (Some(1), None, false, false);
            let done = trim_by(alloc, folder, wanted, &mut Broken { left })?;
            said(alloc, done, output.as_slice())
        }
        Step::Config => text_of(alloc, folder, "queue.cqc"),
        Step::Put(name, bytes) => put(alloc, folder, name, bytes),
        Step::Names => names_of(alloc, folder),
    }
}

/// What `trim` says.
fn trimmed<F: Folder>(alloc: Global, folder: &mut F, wanted: Wanted) -> Result<String, AllocError> {
    let mut output = Vec::new(alloc);
    let done = trim_by(alloc, folder, wanted, &mut output)?;
    said(alloc, done, output.as_slice())
}

/// `trim` with what it is given.
fn trim_by<F: Folder, W: Write>(
    alloc: Global,
    folder: &mut F,
    wanted: Wanted,
    output: &mut W,
) -> Result<Result<(), TrimFault>, AllocError> {
    let (keep, word, force, dry_run) = wanted;
    let before = match word {
        None => None,
        Some(word) => Some(String::from_str(alloc, word)?),
    };
    let settings = TrimSettings {
        keep,
        before,
        force,
        dry_run,
    };
    Ok(trim(alloc, folder, &settings, output))
}

/// What a command wrote, and after it the text of its fault.
fn said<E: Display + Drop>(
    alloc: Global,
    done: Result<(), E>,
    output: &[u8],
) -> Result<String, AllocError> {
    let text = str::from_utf8(output).unwrap_or("no text");
    match done {
        Ok(()) => Ok(String::from_str(alloc, text)?),
        Err(fault) => Ok(format!(in alloc; "{text}cq: {fault}")?),
    }
}

/// The settings of a queue of 64 cells a cycle.
fn settings_of(
    alloc: Global,
    roll: &str,
    epoch: u64,
    cycles: u64,
    words: &[&str],
) -> Result<InitSettings, AllocError> {
    let mut names = Vec::new(alloc);
    for word in words {
        names.push(String::from_str(alloc, word)?)?;
    }
    Ok(InitSettings {
        roll: String::from_str(alloc, roll)?,
        epoch,
        cells: 64,
        index_count: 8,
        index_spacing: 1,
        cycles,
        names,
    })
}

/// The text of a file.
fn text_of<F: Folder>(alloc: Global, folder: &mut F, name: &str) -> Result<String, AllocError> {
    if folder.begin(alloc, Access::Shared).is_err() {
        return Ok(String::from_str(alloc, "not entered")?);
    }
    let read = folder.read(alloc, name, 1_000);
    folder.end();
    match read {
        Err(_) => Ok(String::from_str(alloc, "not read")?),
        Ok(bytes) => Ok(String::from_str(
            alloc,
            str::from_utf8(bytes.as_slice()).unwrap_or("no text"),
        )?),
    }
}

/// Puts a file with these bytes.
fn put<F: Folder>(
    alloc: Global,
    folder: &mut F,
    name: &str,
    bytes: &[u8],
) -> Result<String, AllocError> {
    if folder.begin(alloc, Access::Alone).is_err() {
        return Ok(String::from_str(alloc, "not entered")?);
    }
    let done = folder.write(name, bytes);
    folder.end();
    let text = if done.is_ok() { "" } else { "not written" };
    Ok(String::from_str(alloc, text)?)
}

/// The names of all files, in order.
fn names_of<F: Folder>(alloc: Global, folder: &mut F) -> Result<String, AllocError> {
    if folder.begin(alloc, Access::Shared).is_err() {
        return Ok(String::from_str(alloc, "not entered")?);
    }
    let listed = folder.names(alloc);
    folder.end();
    let Ok(mut names) = listed else {
        return Ok(String::from_str(alloc, "not listed")?);
    };
    names.sort()?;
    let mut text = String::new(alloc);
    for name in names {
        text.push_str(name.as_str())?;
        text.push_str(" ")?;
    }
    Ok(text)
}

/// A writer that takes some bytes and then fails.
#[derive(Drop)]
struct Broken {
    /// How many it still takes.
    left: usize,
}

impl Write for Broken {
    fn write(&mut self, bytes: &[u8]) -> io::Result<usize> {
        let count = bytes.len().min(self.left);
        if count == 0 {
            return Err(io::Error::from(ErrorKind::Other));
        }
        self.left -= count;
        Ok(count)
    }

    fn flush(&mut self) -> io::Result<()> {
        Ok(())
    }
}
