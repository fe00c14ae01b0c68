//! Steps over a folder, and what is said at each.
use crate::logs::{Frame, log_of};
use cq_fixtures::{contents_text, expect_answer};
use cq_fold::{FoldFault, Folded, fold};
use cq_folder::{Access, Folder, MemoryFolder};
use cq_running::{
    InitSettings, ReadForm, ReadSettings, ToolFault, check, drop_before, init, read, take, write,
};
use std::alloc::Global;
use std::str;
use std::test::Fail;

/// What is done to a folder. A command says what it wrote, and then the text of its fault.
#[derive(Clone, Copy)]
pub enum Step {
    /// `init` of a daily queue with epoch 0, 64 cells, four cycles and the name "reader".
    Queue,
    /// `write` of an input at a moment.
    Write(u64, &'static [u8]),
    /// `take` under the name "reader".
    Take,
    /// `drop` of the cycles before one.
    Drop(u64),
    /// `read` of all messages.
    Read,
    /// `check`.
    Check,
    /// Puts a log of these frames, for what the folder holds.
    Log(&'static [Frame]),
    /// Keeps this many bytes of the log.
    Cut(usize),
    /// Puts a file with these bytes.
    Put(&'static str, &'static [u8]),
    /// Says the text of a file, or what fault a read of it has.
    Text(&'static str),
    /// Says the names of the files, in their order.
    Names,
    /// Says what a fold gives.
    Fold,
}

/// Steps in turn, each with what is said at it.
pub type Steps = &'static [(Step, &'static str)];

/// The most bytes of a file that a step reads.
const MOST_BYTES: usize = 1 << 20;

/// Takes a step over a folder, and returns what is said.
pub fn said_at<F: Folder>(alloc: Global, folder: &mut F, step: Step) -> Result<String, Fail> {
    match step {
        Step::Queue => made(alloc, folder),
        Step::Log(frames) => {
            let log = log_of(alloc, folder, frames)?;
            put(alloc, folder, "queue.log", &log)
        }
        Step::Cut(count) => cut(alloc, folder, count),
        Step::Put(file, bytes) => put(alloc, folder, file, bytes),
        Step::Text(file) => text_of(alloc, folder, file),
        Step::Names => names_of(alloc, folder),
        Step::Fold => folded(alloc, folder),
        Step::Write(..) | Step::Take | Step::Drop(_) | Step::Read | Step::Check => {
            printed(alloc, folder, step)
        }
    }
}

/// The settings of a daily queue with epoch 0, 64 cells, four cycles and the name "reader".
fn settings(alloc: Global) -> Result<InitSettings, Fail> {
    let names = vec![in alloc; String::from_str(alloc, "reader")?]?;
    Ok(InitSettings {
        roll: String::from_str(alloc, "daily")?,
        epoch: 0,
        cells: 64,
        index_count: 8,
        index_spacing: 1,
        cycles: 4,
        names,
    })
}

/// What `init` says.
fn made<F: Folder>(alloc: Global, folder: &mut F) -> Result<String, Fail> {
    let settings = settings(alloc)?;
    said(alloc, init(alloc, folder, &settings), &[])
}

/// What a command says that needs only its arguments and an output.
fn printed<F: Folder>(alloc: Global, folder: &mut F, command: Step) -> Result<String, Fail> {
    let mut output = Vec::new(alloc);
    let done = run_step(alloc, folder, command, &mut output);
    said(alloc, done, &output)
}

/// Runs the command that a step is; any other step does nothing.
fn run_step<F: Folder>(
    alloc: Global,
    folder: &mut F,
    step: Step,
    output: &mut Vec<u8>,
) -> Result<(), ToolFault> {
    match step {
        Step::Write(moment, input) => {
            let mut rest = input;
            write(alloc, folder, moment, &mut rest, output)
        }
        Step::Take => take(alloc, folder, "reader", output),
        Step::Drop(cycle) => drop_before(alloc, folder, cycle, output),
        Step::Read => {
            let all = ReadSettings {
                form: ReadForm::Line,
                back: false,
                from: None,
                limit: None,
                last: None,
                since: None,
                until: None,
            };
            read(alloc, folder, &all, output)
        }
        Step::Check => check(alloc, folder, output),
        _ => Ok(()),
    }
}

/// What a command wrote, and then the text of its fault.
fn said(alloc: Global, done: Result<(), ToolFault>, output: &[u8]) -> Result<String, Fail> {
    let text = str::from_utf8(output).unwrap_or("no text");
    match done {
        Ok(()) => Ok(String::from_str(alloc, text)?),
        Err(fault) => Ok(format!(in alloc; "{text}cq: {fault}")?),
    }
}

/// What a fold gives, as text.
pub fn fold_text(alloc: Global, answer: &Result<Folded, FoldFault>) -> Result<String, Fail> {
    match answer {
        Ok(folded) => {
            let cycles = folded.config.cycles();
            let text = contents_text(alloc, &folded.contents)?;
            Ok(format!(in alloc; "{text}, {} turns, {cycles} cycles", folded.turns)?)
        }
        Err(fault) => Ok(format!(in alloc; "fold: {fault}")?),
    }
}

/// Folds the log of a folder. Returns what that gives, as text.
pub fn folded<F: Folder>(alloc: Global, folder: &mut F) -> Result<String, Fail> {
    fold_text(alloc, &fold(alloc, folder))
}

fn put<F: Folder>(alloc: Global, folder: &mut F, file: &str, bytes: &[u8]) -> Result<String, Fail> {
    folder.begin(alloc, Access::Alone)?;
    folder.write(file, bytes)?;
    folder.end();
    Ok(String::new(alloc))
}

fn cut<F: Folder>(alloc: Global, folder: &mut F, count: usize) -> Result<String, Fail> {
    folder.begin(alloc, Access::Shared)?;
    let mut bytes = folder.read(alloc, "queue.log", MOST_BYTES)?;
    bytes.truncate(count);
    put(alloc, folder, "queue.log", &bytes)
}

fn text_of<F: Folder>(alloc: Global, folder: &mut F, file: &str) -> Result<String, Fail> {
    folder.begin(alloc, Access::Shared)?;
    match folder.read(alloc, file, MOST_BYTES) {
        Ok(bytes) => Ok(String::from_utf8_lossy(alloc, &bytes)?),
        Err(fault) => Ok(format!(in alloc; "{fault:?}")?),
    }
}

fn names_of<F: Folder>(alloc: Global, folder: &mut F) -> Result<String, Fail> {
    folder.begin(alloc, Access::Shared)?;
    match folder.names(alloc) {
        Ok(names) => joined(alloc, names),
        Err(fault) => Ok(format!(in alloc; "{fault:?}")?),
    }
}

/// These names in their order, with a space after each.
fn joined(alloc: Global, mut names: Vec<String>) -> Result<String, Fail> {
    names.sort()?;
    let mut text = String::new(alloc);
    for name in &names {
        text.push_str(name.as_str())?;
        text.push_str(" ")?;
    }
    Ok(text)
}

/// The names of the files of a folder, in their order.
fn sorted_names<F: Folder>(alloc: Global, folder: &mut F) -> Result<Vec<String>, Fail> {
    folder.begin(alloc, Access::Shared)?;
    let mut names = folder.names(alloc)?;
    names.sort()?;
    Ok(names)
}

/// A file of a folder, with its bytes.
fn file_text<F: Folder>(alloc: Global, folder: &mut F, name: &str) -> Result<String, Fail> {
    folder.begin(alloc, Access::Shared)?;
    let bytes = folder.read(alloc, name, MOST_BYTES)?;
    Ok(format!(in alloc; "{name} {bytes:?} ")?)
}

/// These files of a folder, each with its bytes.
fn texts_of<F: Folder>(alloc: Global, folder: &mut F, names: &[String]) -> Result<String, Fail> {
    let mut text = String::new(alloc);
    for name in names {
        text.push_str(file_text(alloc, folder, name.as_str())?.as_str())?;
    }
    Ok(text)
}

/// All files of a folder, each with its bytes.
pub fn files_text<F: Folder>(alloc: Global, folder: &mut F) -> Result<String, Fail> {
    let names = sorted_names(alloc, folder)?;
    texts_of(alloc, folder, &names)
}

/// Takes these steps over a folder in memory.
fn take_steps(alloc: Global, folder: &mut MemoryFolder, steps: &[Step]) -> Result<(), Fail> {
    for &step in steps {
        said_at(alloc, folder, step)?;
    }
    Ok(())
}

/// A folder in memory over which these steps were taken.
pub fn folder_after(alloc: Global, steps: &[Step]) -> Result<MemoryFolder, Fail> {
    let mut folder = MemoryFolder::new(alloc);
    take_steps(alloc, &mut folder, steps)?;
    Ok(folder)
}

/// Takes these steps over a folder. Fails if something else than wanted is said at one of them.
pub fn expect_steps<F: Folder>(
    alloc: Global,
    row: &str,
    folder: &mut F,
    steps: Steps,
) -> Result<(), Fail> {
    for (place, &(step, want)) in steps.iter().enumerate() {
        let said = said_at(alloc, folder, step)?;
        expect_answer(row, place, said.as_str(), want)?;
    }
    Ok(())
}

/// Takes the steps of each row over a new folder in memory. Fails if something else than wanted is said at one of them.
pub fn expect_each(alloc: Global, table: &[Steps]) -> Result<(), Fail> {
    for (number, steps) in table.iter().enumerate() {
        let row = format!(in alloc; "row {number}")?;
        let mut folder = MemoryFolder::new(alloc);
        expect_steps(alloc, row.as_str(), &mut folder, steps)?;
    }
    Ok(())
}
