//! Steps over a folder in memory, and what is said at each.
//!
//! A step is a command or a change of a file. Commands share no name with the calls of other tests: they open the queue,
//! make all their calls of it, and save it.
use crate::streams::{Broken, BrokenAfter, Said, said};
use cq_fixtures::{DAY, expect_answer, expect_text, push_missed};
use cq_folder::{Access, FailingFolder, Folder, FolderFault, MemoryFolder};
use cq_running::{
    InitSettings, ReadForm, ReadSettings, TakeSettings, Took, ToolFault, check, drop_before, dump,
    init, migrate, read, salvage, take, take_by, write,
};
use std::alloc::{AllocError, Global};
use std::io::Write;
use std::test::Fail;

/// The most bytes of a file, and of the input of `write`.
pub const MOST_BYTES: usize = 8_388_608;

/// One byte more.
pub const OVER: usize = MOST_BYTES + 1;

/// What is done to a folder. A command gives what it wrote, and after it the text of its fault; a change of a file
/// gives nothing.
#[derive(Clone, Copy)]
pub enum Step {
    /// `init` of a daily queue with epoch 0, 64 cells, this many cycles and the name "reader".
    Queue(u64),
    /// Puts the `queue.cqc` of such a queue in a folder of version 1.
    OldQueue(u64),
    /// The same with this many cells and cycles.
    OldCells(u64, u64),
    /// `init` with a roll, an epoch, cells, cycles and names.
    Init(&'static str, u64, u64, u64, &'static [&'static str]),
    /// `write` of an input at a moment.
    Write(u64, &'static [u8]),
    /// `write` of this many empty lines at a moment.
    WriteEmpty(u64, usize),
    /// `write` of a line on each of this many days from day 0 on, which gives nothing if each has the index 0 of its
    /// day.
    WriteDays(u32),
    /// `write` at a moment with a reader that fails after this many line feeds, and a writer that fails.
    WriteBroken(u64, usize),
    /// `write` of "a" at moment 0 with a writer that fails.
    UnprintedWrite,
    /// `read` of all messages with such a writer.
    UnprintedRead,
    /// `take` under the name "reader" with such a writer.
    UnprintedTake,
    /// `take --limit 2` under it with such a writer.
    UnprintedTakeTwo,
    /// `take --peek` under it with such a writer.
    UnprintedPeek,
    /// `check` with such a writer.
    UnprintedCheck,
    /// `dump` of a file with such a writer.
    UnprintedDump(&'static str),
    /// `read` of all messages.
    Read,
    /// `read` from an index on.
    ReadFrom(&'static str),
    /// `read` of all messages backwards.
    Back,
    /// `read` backwards from an index on.
    BackFrom(&'static str),
    /// `read` backwards or not, from an index if one is given, of at most this many messages.
    Limited(bool, Option<&'static str>, u64),
    /// `take` under a name.
    Take(&'static str),
    /// `take` under a name of at most this many messages, which says if there was nothing.
    TakeUpTo(&'static str, u64),
    /// `take --peek` under a name, with a limit if one is given, which says if there was nothing.
    Peek(&'static str, Option<u64>),
    /// `drop` of the cycles before one.
    Drop(u64),
    /// `check`.
    Check,
    /// `dump` of a file.
    Dump(&'static str),
    /// `salvage` of a file.
    Salvage(&'static str),
    /// `migrate`.
    Migrate,
    /// Puts this text as `queue.cqc`.
    PutConfig(&'static str),
    /// Says the text of `queue.cqc`.
    Config,
    /// Puts a file with these bytes.
    Put(&'static str, &'static [u8]),
    /// Puts these images of cycle 0 and on.
    Images(&'static [&'static [u8]]),
    /// Puts a file of this many copies of a byte.
    Fill(&'static str, u8, usize),
    /// Replaces the bytes of a file from a place on, or puts them after its last byte.
    Patch(&'static str, usize, &'static [u8]),
    /// Keeps this many bytes of a file.
    Cut(&'static str, usize),
    /// Says the text of a file.
    Text(&'static str),
    /// Says the bytes of a file in hexadecimal.
    Bytes(&'static str),
    /// Says how many bytes a file has.
    Length(&'static str),
    /// Says a bar.
    Bar,
}

/// A queue with "hello" in cycle 0 and "a" in cycle 1.
pub const TWO_CYCLES: &[Step] = &[
    Step::Queue(4),
    Step::Write(0, b"hello\n"),
    Step::Write(DAY, b"a\n"),
];

/// What `check` says of it.
pub const BOTH: &str = "19700101.cqi: 1 messages, ended\n19700102.cqi: 1 messages, open\n";

/// Its `queue.cqc`, as long as nothing is taken or dropped.
pub const AT_START: &str =
    "cq 2\nroll daily\nepoch 0\ncells 64\ncount 8\nspacing 1\ncycles 4\nname reader 0\n";

/// The same of a folder of version 1.
pub const OLD_AT_START: &str =
    "cq 1\nroll daily\nepoch 0\ncells 64\ncount 8\nspacing 1\ncycles 4\nname reader 0\n";

/// What `check` says of the same cycles with no message.
pub const BOTH_EMPTY: &str = "19700101.cqi: 0 messages, ended\n19700102.cqi: 0 messages, open\n";

/// `write` of "hello" and "world" in cycle 20000, with what it says.
pub const WRITES_HELLO_WORLD: (Step, &str) = (
    Step::Write(1_728_000_000_000, b"hello\nworld\n"),
    "00004e2000000000\n00004e2000000001\n",
);

/// `write` of eight times "hello" in cycle 0, with what it says.
pub const WRITES_EIGHT: (Step, &str) = (
    Step::Write(
        0,
        b"hello\nhello\nhello\nhello\nhello\nhello\nhello\nhello\n",
    ),
    "0000000000000000\n0000000000000001\n0000000000000002\n0000000000000003\n0000000000000004\n\
0000000000000005\n0000000000000006\n0000000000000007\n",
);

/// `queue.cqc` after "hello" of cycle 20000 was taken.
pub const AFTER_HELLO: &str =
    "cq 2\nroll daily\nepoch 0\ncells 64\ncount 8\nspacing 1\ncycles 4\nname reader 85899345920001\n";

/// The same of version 1.
pub const OLD_AFTER_HELLO: &str =
    "cq 1\nroll daily\nepoch 0\ncells 64\ncount 8\nspacing 1\ncycles 4\nname reader 85899345920001\n";

/// The same with the position 10.
pub const OLD_AT_10: &str =
    "cq 1\nroll daily\nepoch 0\ncells 64\ncount 8\nspacing 1\ncycles 4\nname reader 10\n";

/// Puts a `queue.cqc` with too few cells and no cycle.
pub const BAD_CELLS_AND_CYCLES: Step = Step::PutConfig(
    "cq 1\nroll daily\nepoch 0\ncells 30\ncount 8\nspacing 1\ncycles 0\n",
);

/// Puts a `queue.cqc` with no cycle.
pub const BAD_CYCLES: Step = Step::PutConfig(
    "cq 1\nroll daily\nepoch 0\ncells 64\ncount 8\nspacing 1\ncycles 0\n",
);

/// Steps in turn, each with what is said at it.
pub type Steps = &'static [(Step, &'static str)];

/// Takes a step over a folder, and gives what is said.
pub fn said_at<F: Folder>(alloc: Global, folder: &mut F, step: &Step) -> Said {
    match *step {
        Step::Queue(cycles) => made(alloc, folder, "daily", 0, 64, cycles, &["reader"]),
        Step::OldQueue(cycles) => put_old(alloc, folder, 64, cycles),
        Step::OldCells(cells, cycles) => put_old(alloc, folder, cells, cycles),
        Step::Init(roll, epoch, cells, cycles, names) => {
            made(alloc, folder, roll, epoch, cells, cycles, names)
        }
        Step::WriteEmpty(moment, lines) => written_empty(alloc, folder, moment, lines),
        Step::WriteBroken(moment, lines) => written_broken(alloc, folder, moment, lines),
        Step::UnprintedWrite => unprinted(alloc, folder, &Step::Write(0, b"a\n")),
        Step::UnprintedRead => unprinted(alloc, folder, &Step::Read),
        Step::UnprintedTake => unprinted(alloc, folder, &Step::Take("reader")),
        Step::UnprintedTakeTwo => unprinted(alloc, folder, &Step::TakeUpTo("reader", 2)),
        Step::UnprintedPeek => unprinted(alloc, folder, &Step::Peek("reader", None)),
        Step::TakeUpTo(name, limit) => took(alloc, folder, name, Some(limit), false),
        Step::Peek(name, limit) => took(alloc, folder, name, limit, true),
        Step::UnprintedCheck => unprinted(alloc, folder, &Step::Check),
        Step::UnprintedDump(file) => unprinted(alloc, folder, &Step::Dump(file)),
        Step::WriteDays(days) => written_each_day(alloc, folder, days),
        Step::PutConfig(text) => put(alloc, folder, "queue.cqc", text.as_bytes()),
        Step::Config => text_of(alloc, folder, "queue.cqc"),
        Step::Text(file) => text_of(alloc, folder, file),
        Step::Bytes(file) => digits_of(alloc, folder, file),
        Step::Length(file) => length_of(alloc, folder, file),
        Step::Bar => Ok(String::from_str(alloc, "|")?),
        Step::Put(file, bytes) => put(alloc, folder, file, bytes),
        Step::Images(images) => put_images(alloc, folder, images),
        Step::Fill(file, byte, count) => filled(alloc, folder, file, byte, count),
        Step::Patch(file, at, bytes) => patched(alloc, folder, file, at, bytes),
        Step::Cut(file, len) => cut(alloc, folder, file, len),
        Step::Write(..)
        | Step::Read
        | Step::ReadFrom(_)
        | Step::Back
        | Step::BackFrom(_)
        | Step::Limited(..)
        | Step::Take(_)
        | Step::Drop(_)
        | Step::Check
        | Step::Dump(_)
        | Step::Salvage(_)
        | Step::Migrate => printed(alloc, folder, step),
    }
}

/// What a command says that needs only its arguments and an output.
fn printed<F: Folder>(alloc: Global, folder: &mut F, command: &Step) -> Said {
    let mut output = Vec::new(alloc);
    let done = run_step(alloc, folder, command, &mut output);
    said(alloc, done, &output)
}

/// Runs the command that a step is, if it needs only its arguments and an output; any other step does nothing.
fn run_step<F: Folder, W: Write>(
    alloc: Global,
    folder: &mut F,
    step: &Step,
    output: &mut W,
) -> Result<(), ToolFault> {
    match *step {
        Step::Write(moment, input) => write_lines(alloc, folder, moment, input, output),
        Step::Read => read_lines(alloc, folder, (false, None, None), output),
        Step::ReadFrom(index) => read_lines(alloc, folder, (false, Some(index), None), output),
        Step::Back => read_lines(alloc, folder, (true, None, None), output),
        Step::BackFrom(index) => read_lines(alloc, folder, (true, Some(index), None), output),
        Step::Limited(back, from, limit) => {
            read_lines(alloc, folder, (back, from, Some(limit)), output)
        }
        Step::Take(name) => take(alloc, folder, name, output),
        Step::TakeUpTo(name, limit) => {
            take_by(
                alloc,
                folder,
                name,
                &settings_of(Some(limit), false),
                output,
            )?;
            Ok(())
        }
        Step::Peek(name, limit) => {
            take_by(alloc, folder, name, &settings_of(limit, true), output)?;
            Ok(())
        }
        Step::Drop(cycle) => drop_before(alloc, folder, cycle, output),
        Step::Check => check(alloc, folder, output),
        Step::Dump(file) => dump(alloc, folder, file, output),
        Step::Salvage(file) => salvage(alloc, folder, file, output),
        Step::Migrate => migrate(alloc, folder),
        _ => Ok(()),
    }
}

/// Reads backwards or not, from an index if one is given, and up to a limit if one is.
fn read_lines<F: Folder, W: Write>(
    alloc: Global,
    folder: &mut F,
    (back, from, limit): (bool, Option<&str>, Option<u64>),
    output: &mut W,
) -> Result<(), ToolFault> {
    let from = match from {
        None => None,
        Some(word) => Some(String::from_str(alloc, word)?),
    };
    let settings = ReadSettings {
        form: ReadForm::Line,
        back,
        from,
        limit,
        last: None,
        since: None,
        until: None,
    };
    read(alloc, folder, &settings, output)
}

/// The settings of a `take` with options.
fn settings_of(limit: Option<u64>, peek: bool) -> TakeSettings {
    TakeSettings {
        limit,
        peek,
        wait: None,
    }
}

/// What a `take` with options says: what it wrote, "nothing" if it found nothing, and the text of its fault.
fn took<F: Folder>(
    alloc: Global,
    folder: &mut F,
    name: &str,
    limit: Option<u64>,
    peek: bool,
) -> Said {
    let mut output = Vec::new(alloc);
    match take_by(alloc, folder, name, &settings_of(limit, peek), &mut output) {
        Ok(Took::Messages) => said(alloc, Ok(()), &output),
        Ok(Took::Nothing) => {
            output.extend_from_slice(b"nothing")?;
            said(alloc, Ok(()), &output)
        }
        Err(fault) => said(alloc, Err(fault), &output),
    }
}

/// Writes the lines of an input at a moment.
fn write_lines<F: Folder, W: Write>(
    alloc: Global,
    folder: &mut F,
    moment: u64,
    input: &[u8],
    output: &mut W,
) -> Result<(), ToolFault> {
    let mut rest = input;
    write(alloc, folder, moment, &mut rest, output)
}

/// What `init` says.
fn made<F: Folder>(
    alloc: Global,
    folder: &mut F,
    roll: &str,
    epoch: u64,
    cells: u64,
    cycles: u64,
    names: &[&str],
) -> Said {
    let settings = InitSettings {
        roll: String::from_str(alloc, roll)?,
        epoch,
        cells,
        index_count: 8,
        index_spacing: 1,
        cycles,
        names: texts(alloc, names)?,
    };
    said(alloc, init(alloc, folder, &settings), &[])
}

/// Puts the `queue.cqc` of a queue in a folder of version 1.
fn put_old<F: Folder>(alloc: Global, folder: &mut F, cells: u64, cycles: u64) -> Said {
    let text = format!(in alloc;
        "cq 1\nroll daily\nepoch 0\ncells {cells}\ncount 8\nspacing 1\ncycles {cycles}\nname reader 0\n"
    )?;
    put(alloc, folder, "queue.cqc", text.as_bytes())
}

/// Arguments, each in memory of its own.
fn texts(alloc: Global, words: &[&str]) -> Result<Vec<String>, AllocError> {
    let mut texts = Vec::new(alloc);
    for word in words {
        texts.push(String::from_str(alloc, word)?)?;
    }
    Ok(texts)
}

/// What `write` says of this many empty lines.
fn written_empty<F: Folder>(alloc: Global, folder: &mut F, moment: u64, lines: usize) -> Said {
    let input = copies(alloc, b'\n', lines)?;
    let mut output = Vec::new(alloc);
    let done = write_lines(alloc, folder, moment, &input, &mut output);
    said(alloc, done, &output)
}

/// What is said of a line on each of this many days from day 0 on: nothing if each has the index 0 of its day.
fn written_each_day<F: Folder>(alloc: Global, folder: &mut F, days: u32) -> Said {
    for day in 0..days {
        if !begins_cycle(alloc, folder, day)? {
            return Ok(format!(in alloc; "not on day {day}")?);
        }
    }
    Ok(String::new(alloc))
}

/// Whether a line on a day has the index 0 of that day.
fn begins_cycle<F: Folder>(alloc: Global, folder: &mut F, day: u32) -> Result<bool, FolderFault> {
    let line = Step::Write(u64::from(day) * DAY, b"a\n");
    let said = printed(alloc, folder, &line)?;
    Ok(said.as_str() == format!(in alloc; "{day:08x}00000000\n")?.as_str())
}

/// What `write` says if the input fails after this many line feeds, and the output fails.
fn written_broken<F: Folder>(alloc: Global, folder: &mut F, moment: u64, lines: usize) -> Said {
    let mut input = BrokenAfter { left: lines };
    let done = write(alloc, folder, moment, &mut input, &mut Broken { left: 0 });
    said(alloc, done, &[])
}

/// What a command says whose writer fails.
fn unprinted<F: Folder>(alloc: Global, folder: &mut F, command: &Step) -> Said {
    let done = run_step(alloc, folder, command, &mut Broken { left: 0 });
    said(alloc, done, &[])
}

/// This many copies of a byte.
fn copies(alloc: Global, byte: u8, count: usize) -> Result<Vec<u8>, AllocError> {
    vec![in alloc; byte; count]
}

/// The bytes of a file, or none if it is not there.
fn bytes_of<F: Folder>(alloc: Global, folder: &mut F, file: &str) -> Result<Vec<u8>, FolderFault> {
    folder.begin(alloc, Access::Shared)?;
    match folder.read(alloc, file, MOST_BYTES) {
        Err(FolderFault::Device) => Ok(Vec::new(alloc)),
        read => read,
    }
}

fn text_of<F: Folder>(alloc: Global, folder: &mut F, file: &str) -> Said {
    let bytes = bytes_of(alloc, folder, file)?;
    Ok(String::from_utf8_lossy(alloc, &bytes)?)
}

fn digits_of<F: Folder>(alloc: Global, folder: &mut F, file: &str) -> Said {
    Ok(hexadecimal(alloc, &bytes_of(alloc, folder, file)?)?)
}

fn hexadecimal(alloc: Global, bytes: &[u8]) -> Result<String, AllocError> {
    let mut digits = String::new(alloc);
    for byte in bytes {
        write!(digits, "{byte:02x}")?;
    }
    Ok(digits)
}

fn length_of<F: Folder>(alloc: Global, folder: &mut F, file: &str) -> Said {
    let bytes = bytes_of(alloc, folder, file)?;
    Ok(format!(in alloc; "{}", bytes.len())?)
}

fn put<F: Folder>(alloc: Global, folder: &mut F, file: &str, bytes: &[u8]) -> Said {
    folder.begin(alloc, Access::Alone)?;
    folder.write(file, bytes)?;
    Ok(String::new(alloc))
}

/// The images of the first cycles of a daily queue with epoch 0.
const IMAGE_FILES: [&str; 3] = ["19700101.cqi", "19700102.cqi", "19700103.cqi"];

fn put_images<F: Folder>(alloc: Global, folder: &mut F, images: &[&[u8]]) -> Said {
    for (place, image) in images.iter().enumerate() {
        let Some(file) = IMAGE_FILES.get(place) else {
            return Err(FolderFault::Device);
        };
        put(alloc, folder, file, image)?;
    }
    Ok(String::new(alloc))
}

fn filled<F: Folder>(alloc: Global, folder: &mut F, file: &str, byte: u8, count: usize) -> Said {
    put(alloc, folder, file, &copies(alloc, byte, count)?)
}

fn patched<F: Folder>(alloc: Global, folder: &mut F, file: &str, at: usize, new: &[u8]) -> Said {
    let mut bytes = bytes_of(alloc, folder, file)?;
    patch(&mut bytes, at, new)?;
    put(alloc, folder, file, &bytes)
}

/// Replaces bytes from a place on, and puts those that go past the end after the last one.
fn patch(bytes: &mut Vec<u8>, at: usize, new: &[u8]) -> Result<(), AllocError> {
    for (i, byte) in new.iter().enumerate() {
        match bytes.get_mut(at.saturating_add(i)) {
            Some(old) => *old = *byte,
            None => bytes.push(*byte)?,
        }
    }
    Ok(())
}

fn cut<F: Folder>(alloc: Global, folder: &mut F, file: &str, len: usize) -> Said {
    let mut bytes = bytes_of(alloc, folder, file)?;
    bytes.truncate(len);
    put(alloc, folder, file, &bytes)
}

/// What all these steps say, one after the other.
pub fn said_by<F: Folder>(alloc: Global, folder: &mut F, steps: &[Step]) -> Said {
    let mut text = String::new(alloc);
    push_said(alloc, folder, steps, &mut text)?;
    Ok(text)
}

/// Adds what all these steps say to a text.
pub fn push_said<F: Folder>(
    alloc: Global,
    folder: &mut F,
    steps: &[Step],
    text: &mut String,
) -> Result<(), FolderFault> {
    for step in steps {
        text.push_str(said_at(alloc, folder, step)?.as_str())?;
    }
    Ok(())
}

/// What all these steps say over a new folder, one after the other.
pub fn said_anew(alloc: Global, steps: &[Step]) -> Said {
    let mut folder = MemoryFolder::new(alloc);
    said_by(alloc, &mut folder, steps)
}

/// Takes these steps over a folder. Fails if something else than wanted is said at one of them.
pub fn expect_steps<F: Folder>(
    alloc: Global,
    row: &str,
    folder: &mut F,
    steps: Steps,
) -> Result<(), Fail> {
    for (place, (step, want)) in steps.iter().enumerate() {
        let said = said_at(alloc, folder, step)?;
        expect_answer(row, place, said.as_str(), want)?;
    }
    Ok(())
}

/// Takes these steps over a new folder. Fails if something else than wanted is said at one of them.
pub fn expect(alloc: Global, steps: Steps) -> Result<(), Fail> {
    expect_new(alloc, "one folder", steps)
}

/// The same for the steps of a row of a table.
fn expect_new(alloc: Global, row: &str, steps: Steps) -> Result<(), Fail> {
    let mut folder = MemoryFolder::new(alloc);
    expect_steps(alloc, row, &mut folder, steps)
}

/// Takes the steps of each row over a new folder. Fails if something else than wanted is said at one of them.
pub fn expect_each(alloc: Global, table: &[Steps]) -> Result<(), Fail> {
    for (number, steps) in table.iter().enumerate() {
        let row = format!(in alloc; "row {number}")?;
        expect_new(alloc, row.as_str(), steps)?;
    }
    Ok(())
}

/// A command over a folder of which one call fails. Its first two calls let it in and list the names.
pub struct Failing {
    /// What is done before, while no call fails.
    pub before: &'static [Step],
    /// The command.
    pub step: Step,
    /// What is done after it, while no call fails.
    pub after: &'static [Step],
    /// The file of each call from the third on.
    pub files: &'static [&'static str],
    /// What is said after it if a call fails.
    pub kept: &'static str,
    /// What it says if none fails.
    pub done: &'static str,
    /// What is said after it then. The same is said if the last call fails, and what it writes is written nevertheless.
    pub left: &'static str,
}

/// The folder on which the command is done.
fn folder_before(alloc: Global, failing: &Failing) -> Result<MemoryFolder, FolderFault> {
    let mut folder = MemoryFolder::new(alloc);
    said_by(alloc, &mut folder, failing.before)?;
    Ok(folder)
}

/// What the command says over a folder of which one call fails, and what is said after it.
fn said_and_after(
    alloc: Global,
    mut folder: FailingFolder<MemoryFolder>,
    failing: &Failing,
) -> Said {
    let mut said = said_at(alloc, &mut folder, &failing.step)?;
    said.push_str("|")?;
    push_said(alloc, &mut folder.into_inner(), failing.after, &mut said)?;
    Ok(said)
}

/// What the command says if the call with this number fails, and what is said after it.
fn said_failing(alloc: Global, failing: &Failing, number: usize) -> Said {
    let folder = FailingFolder::new(folder_before(alloc, failing)?, number as u64);
    said_and_after(alloc, folder, failing)
}

/// The same if the call writes nevertheless.
fn said_written(alloc: Global, failing: &Failing, number: usize) -> Said {
    let folder = FailingFolder::written(folder_before(alloc, failing)?, number as u64);
    said_and_after(alloc, folder, failing)
}

/// What is wanted if the call with this number fails and this is said after it, or if there is no such call.
fn wanted_at(
    alloc: Global,
    failing: &Failing,
    number: usize,
    after: &str,
) -> Result<String, AllocError> {
    let Some(place) = number.checked_sub(3) else {
        return format!(in alloc; "cq: folder fault|{after}");
    };
    match failing.files.get(place) {
        Some(file) => format!(in alloc; "cq: file fault: {file}|{after}"),
        None => format!(in alloc; "{}|{}", failing.done, failing.left),
    }
}

/// Adds to a text what is said other than wanted if a call fails or none does, with the number of the call.
fn push_missed_calls(
    alloc: Global,
    failing: &Failing,
    text: &mut String,
) -> Result<(), FolderFault> {
    for number in 1..failing.files.len().saturating_add(4) {
        let said = said_failing(alloc, failing, number)?;
        let want = wanted_at(alloc, failing, number, failing.kept)?;
        push_missed(alloc, text, number, said.as_str(), want.as_str())?;
    }
    Ok(())
}

/// Fails if the command or what is done after it says something else than wanted, whichever call fails.
pub fn expect_failing(alloc: Global, failing: &Failing) -> Result<(), Fail> {
    let mut missed = String::new(alloc);
    push_missed_calls(alloc, failing, &mut missed)?;
    let last = failing.files.len().saturating_add(2);
    let said = said_written(alloc, failing, last)?;
    let want = wanted_at(alloc, failing, last, failing.left)?;
    push_missed(alloc, &mut missed, last, said.as_str(), want.as_str())?;
    expect_text(missed, "")
}
