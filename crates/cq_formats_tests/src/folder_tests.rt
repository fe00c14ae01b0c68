//! Folders and their files.

ghost use Rattle.std.specs.Prelude.{◌≡◌, IsSome, Some};

use crate::noted_folder::NotedFolder;
use crate::settings::names_of;
use cq_fixtures::{expect, expect_text};
use cq_folder::{Access, FailingFolder, Folder, FolderFault, MemoryFolder, NewFile};
use std::alloc::{AllocError, Global};
use std::test::Fail;

/// The bytes that are written to files in turn.
static WRITES: [(&str, &[u8]); 4] = [("b", b"old"), ("a", b"old"), ("b", b""), ("a", b"abc")];

/// Writes the files `a` and `b`, at last of three bytes and of none.
fn write_two_files(alloc: Global, folder: &mut MemoryFolder) -> Result<(), FolderFault> {
    for &(name, bytes) in &WRITES {
        folder.begin(alloc, Access::Alone)?;
        folder.write(name, bytes)?;
    }
    Ok(())
}

/// A folder in memory with those two files.
fn two_files(alloc: Global) -> Result<MemoryFolder, FolderFault> {
    let mut folder = MemoryFolder::new(alloc);
    write_two_files(alloc, &mut folder)?;
    Ok(folder)
}

/// What a read returns, as a text.
fn answer_text(alloc: Global, answer: &Result<Vec<u8>, FolderFault>) -> Result<String, AllocError> {
    match answer {
        Ok(bytes) => format!(in alloc; "{:?}", bytes.as_slice()),
        Err(fault) => format!(in alloc; "{fault:?}"),
    }
}

/// What reading a file returns, as a text.
fn read_text<F: Folder>(
    alloc: Global,
    folder: &mut F,
    name: &str,
    limit: usize,
) -> Result<String, AllocError>
    requires { IsSome (F.entered folder.old) }
    ensures { F.entered folder.new ≡ F.entered folder.old }
{
    answer_text(alloc, &folder.read(alloc, name, limit))
}

/// Names in their order, with a space after each.
pub fn in_order(alloc: Global, names: Vec<String>) -> Result<String, AllocError> {
    let mut names = names;
    names.sort()?;
    let mut text = String::new(alloc);
    for name in &names {
        write!(text, "{name} ")?;
    }
    Ok(text)
}

/// The names of the files, in their order, or the fault of the list.
pub fn names_text<F: Folder>(alloc: Global, folder: &mut F) -> Result<String, AllocError>
    requires { IsSome (F.entered folder.old) }
    ensures { F.entered folder.new ≡ F.entered folder.old }
{
    match folder.names(alloc) {
        Ok(names) => in_order(alloc, names),
        Err(fault) => format!(in alloc; "{fault:?}"),
    }
}

/// Reads of a file up to a limit, each with what it returns of those two files.
static READS: [(&str, usize, &str); 5] = [
    ("a", 3, "[97, 98, 99]"),
    ("a", usize::MAX, "[97, 98, 99]"),
    ("a", 2, "TooLarge"),
    ("b", 0, "[]"),
    ("c", 0, "Device"),
];

/// Writes those two files. Fails if a folder then keeps other files, or if another call of it failed than the read of
/// a file that is not there.
fn expect_two_files(alloc: Global, folder: &mut MemoryFolder) -> Result<(), Fail> {
    write_two_files(alloc, folder)?;
    expect_names(alloc, folder)?;
    expect_reads(alloc, folder)?;
    expect(folder.failures() == 1, "one call fails")
}

/// Fails if a folder lists other names than those of the two files.
fn expect_names(alloc: Global, folder: &mut MemoryFolder) -> Result<(), Fail> {
    folder.begin(alloc, Access::Shared)?;
    expect_text(names_text(alloc, folder)?, "a b ")
}

/// Fails if reads of those two files return other than wanted.
fn expect_reads(alloc: Global, folder: &mut MemoryFolder) -> Result<(), Fail> {
    for &(name, limit, want) in &READS {
        folder.begin(alloc, Access::Shared)?;
        expect_text(read_text(alloc, folder, name, limit)?, want)?;
    }
    Ok(())
}

/// Fails as `expect_two_files` does, and if there is a file without a name.
fn expect_no_more_files(alloc: Global, folder: &mut MemoryFolder) -> Result<(), Fail> {
    expect_two_files(alloc, folder)?;
    expect_no_file(alloc, folder)?;
    expect(folder.failures() == 2, "a read of no file is counted")
}

/// Fails if there is a file without a name.
fn expect_no_file(alloc: Global, folder: &mut MemoryFolder) -> Result<(), Fail> {
    folder.begin(alloc, Access::Shared)?;
    expect_text(read_text(alloc, folder, "", 9)?, "Device")
}

#[test]
fn a_folder_in_memory_keeps_its_files(rt: HostRuntime) -> Result<(), Fail> {
    let mut folder = MemoryFolder::new(rt.alloc());
    expect_no_more_files(rt.alloc(), &mut folder)
}

/// Files of these names and texts, which are to be saved.
fn changes(alloc: Global, files: &[(&str, &str)]) -> Result<Vec<NewFile>, AllocError> {
    let mut changes = Vec::new(alloc);
    for &(name, text) in files {
        changes.push(NewFile {
            name: String::from_str(alloc, name)?,
            bytes: Vec::from_slice(alloc, text.as_bytes())?,
        })?;
    }
    Ok(changes)
}

/// Saves files of these names and texts together.
pub fn save<F: Folder>(
    alloc: Global,
    folder: &mut F,
    files: &[(&str, &str)],
) -> Result<Result<(), FolderFault>, AllocError>
    requires { F.entered folder.old ≡ Some Access.Alone }
    ensures { F.entered folder.new ≡ F.entered folder.old }
{
    let changes = changes(alloc, files)?;
    Ok(folder.save(changes.as_slice()))
}

/// Saves files of these names and texts together, and removes others.
pub fn save_and_remove<F: Folder>(
    alloc: Global,
    folder: &mut F,
    files: &[(&str, &str)],
    removed: &[&str],
) -> Result<Result<(), FolderFault>, AllocError>
    requires { F.entered folder.old ≡ Some Access.Alone }
    ensures { F.entered folder.new ≡ F.entered folder.old }
{
    let changes = changes(alloc, files)?;
    let names = names_of(alloc, removed)?;
    Ok(folder.save_and_remove(changes.as_slice(), names.as_slice()))
}

/// What entering a folder returns, and then its list, a write, a read, a save and a removal, and how many calls failed, as
/// text.
fn calls_text(
    alloc: Global,
    folder: &mut FailingFolder<NotedFolder>,
) -> Result<String, AllocError> {
    let mut text = String::new(alloc);
    push_calls(alloc, folder, &mut text)?;
    folder.end();
    push_failures(folder.failures(), &mut text)?;
    Ok(text)
}

/// Adds to a text how many calls failed.
fn push_failures(failures: u64, text: &mut String) -> Result<(), AllocError> {
    write!(text, "{failures} failed")
}

/// Adds to a text what entering a folder returns, and what the calls of a command return that has entered.
fn push_calls(
    alloc: Global,
    folder: &mut FailingFolder<NotedFolder>,
    text: &mut String,
) -> Result<(), AllocError> {
    let begun = folder.begin(alloc, Access::Alone);
    write!(text, "{begun:?}, ")?;
    match begun {
        Ok(()) => push_calls_within(alloc, folder, text),
        Err(_) => Ok(()),
    }
}

/// Adds to a text what the list, a write, a read, a save and a removal return.
fn push_calls_within<F: Folder>(
    alloc: Global,
    folder: &mut F,
    text: &mut String,
) -> Result<(), AllocError>
    requires { F.entered folder.old ≡ Some Access.Alone }
{
    push_answer(text, list(alloc, folder))?;
    push_answer(text, folder.write("a", b"new".as_slice()))?;
    push_read(alloc, folder, text)?;
    push_answer(text, save(alloc, folder, SAVED)?)?;
    push_answer(text, save_and_remove(alloc, folder, KEPT, REMOVED)?)
}

/// The files that are saved, each with its text.
const SAVED: &[(&str, &str)] = &[("b", "1"), ("c", "2")];

/// The files that are saved while others are removed.
const KEPT: &[(&str, &str)] = &[("d", "3"), ("c", "4")];

/// The files that are removed then.
const REMOVED: &[&str] = &["c", "e"];

/// Adds to a text what a call returned.
fn push_answer(text: &mut String, answer: Result<(), FolderFault>) -> Result<(), AllocError> {
    write!(text, "{answer:?}, ")
}

/// Adds to a text what reading a file without bytes returns.
fn push_read<F: Folder>(alloc: Global, folder: &mut F, text: &mut String) -> Result<(), AllocError>
    requires { IsSome (F.entered folder.old) }
    ensures { F.entered folder.new ≡ F.entered folder.old }
{
    let read = read_text(alloc, folder, "b", 0)?;
    write!(text, "{read}, ")
}

/// Lists the names of the files, and lets them go.
fn list<F: Folder>(alloc: Global, folder: &mut F) -> Result<(), FolderFault>
    requires { IsSome (F.entered folder.old) }
    ensures { F.entered folder.new ≡ F.entered folder.old }
{
    folder.names(alloc)?;
    Ok(())
}

/// What the files `a`, `b`, `c` and `d` hold, as text.
fn four_text(alloc: Global, folder: &mut NotedFolder) -> Result<String, Fail> {
    folder.begin(alloc, Access::Shared)?;
    let mut text = read_text(alloc, folder, "a", 3)?;
    push_text(alloc, folder, "b", &mut text)?;
    push_text(alloc, folder, "c", &mut text)?;
    push_text(alloc, folder, "d", &mut text)?;
    Ok(text)
}

/// Adds a space and what a file holds to a text.
fn push_text<F: Folder>(
    alloc: Global,
    folder: &mut F,
    name: &str,
    text: &mut String,
) -> Result<(), AllocError>
    requires { IsSome (F.entered folder.old) }
    ensures { F.entered folder.new ≡ F.entered folder.old }
{
    let held = read_text(alloc, folder, name, 3)?;
    write!(text, " {held}")
}

/// Fails if the calls of a folder return other than wanted, or if its files then hold something else.
fn expect_failing(
    alloc: Global,
    mut folder: FailingFolder<NotedFolder>,
    calls: &str,
    held: &str,
) -> Result<(), Fail> {
    let answers = calls_text(alloc, &mut folder)?;
    let mut within = folder.into_inner();
    within.written?;
    expect_text(answers, calls)?;
    expect_text(four_text(alloc, &mut within)?, held)
}

/// The number of the call that fails and does nothing, with what `calls_text` says, and what the files hold then.
static FAILURES: [(u64, &str, &str); 8] = [
    (
        0,
        "Ok(()), Ok(()), Ok(()), [], Ok(()), Ok(()), 0 failed",
        "[110, 101, 119] [49] Device [51]",
    ),
    (1, "Err(Device), 1 failed", "[97, 98, 99] [] Device Device"),
    (
        2,
        "Ok(()), Err(Device), Ok(()), [], Ok(()), Ok(()), 1 failed",
        "[110, 101, 119] [49] Device [51]",
    ),
    (
        3,
        "Ok(()), Ok(()), Err(Device), [], Ok(()), Ok(()), 1 failed",
        "[97, 98, 99] [49] Device [51]",
    ),
    (
        4,
        "Ok(()), Ok(()), Ok(()), Device, Ok(()), Ok(()), 1 failed",
        "[110, 101, 119] [49] Device [51]",
    ),
    (
        5,
        "Ok(()), Ok(()), Ok(()), [], Err(Device), Ok(()), 1 failed",
        "[110, 101, 119] [] Device [51]",
    ),
    (
        6,
        "Ok(()), Ok(()), Ok(()), [], Ok(()), Err(Device), 1 failed",
        "[110, 101, 119] [49] [50] Device",
    ),
    (
        7,
        "Ok(()), Ok(()), Ok(()), [], Ok(()), Ok(()), 0 failed",
        "[110, 101, 119] [49] Device [51]",
    ),
];

/// A folder with those two files. The call with a number fails, and is done nevertheless or not.
fn failing(
    alloc: Global,
    number: u64,
    is_done: bool,
) -> Result<FailingFolder<NotedFolder>, FolderFault> {
    let folder = NotedFolder::new(two_files(alloc)?);
    match is_done {
        false => Ok(FailingFolder::new(folder, number)),
        true => Ok(FailingFolder::written(folder, number)),
    }
}

/// Fails if a row of a table does not hold, whose call fails and is done nevertheless or not.
fn expect_rows(alloc: Global, is_done: bool, table: &[(u64, &str, &str)]) -> Result<(), Fail> {
    for &(number, calls, held) in table {
        expect_failing(alloc, failing(alloc, number, is_done)?, calls, held)?;
    }
    Ok(())
}

#[test]
fn each_call_can_fail_once(rt: HostRuntime) -> Result<(), Fail> {
    expect_rows(rt.alloc(), false, &FAILURES)
}

/// The same if the call that fails is done nevertheless.
static DONE: [(u64, &str, &str); 3] = [
    (
        3,
        "Ok(()), Ok(()), Err(Device), [], Ok(()), Ok(()), 1 failed",
        "[110, 101, 119] [49] Device [51]",
    ),
    (
        5,
        "Ok(()), Ok(()), Ok(()), [], Err(Device), Ok(()), 1 failed",
        "[110, 101, 119] [49] Device [51]",
    ),
    (
        6,
        "Ok(()), Ok(()), Ok(()), [], Ok(()), Err(Device), 1 failed",
        "[110, 101, 119] [49] Device [51]",
    ),
];

#[test]
fn a_call_that_fails_can_be_done(rt: HostRuntime) -> Result<(), Fail> {
    expect_rows(rt.alloc(), true, &DONE)
}
