//! Steps over a folder of the system, and what is said at each.

ghost use Rattle.std.specs.Prelude.{◌≡◌, IsSome, Some};

use crate::folder_tests::{in_order, names_text, save, save_and_remove};
use cq_fixtures::{expect_text, push_missed};
use cq_folder::{Access, Folder, FolderFault};
use cq_real_folder::RealFolder;
use std::alloc::{AllocError, Global};
use std::fs::{DirEntry, File, OpenFile, TryLockError};
use std::rt::Files;
use std::test::Fail;
use std::{env, fs, process};

/// What is done to a folder at a path.
#[derive(Clone, Copy)]
pub(crate) enum Step {
    /// Puts a file with this text, by the system's own call.
    Put(&'static str, &'static str),
    /// Puts a save record that names a file, and then "1.cqi" this many times.
    PutRecord(&'static str, usize),
    /// Makes a link to a file.
    Link(&'static str, &'static str),
    /// Makes a folder.
    Make(&'static str),
    /// Removes the folder, which has no file, by the system's own call.
    Remove,
    /// Lets a file be read alone.
    Lock(&'static str),
    /// Says whether a file may be read alone.
    IsLocked(&'static str),
    /// Puts this many empty files with long names.
    Many(usize),
    /// Says how many names there are.
    Count,
    /// Enters, together with others or alone.
    Begin(Access),
    /// Leaves.
    End,
    /// Says whether another that opens the folder could enter, together with others or alone.
    Try(Access),
    /// Saves files with these texts together.
    Save(&'static [(&'static str, &'static str)]),
    /// Saves files with these texts together, and removes others.
    SaveAndRemove(&'static [(&'static str, &'static str)], &'static [&'static str]),
    /// Removes this many files with long names, which are not there.
    RemoveMany(usize),
    /// Writes a file with this text.
    Write(&'static str, &'static str),
    /// Says the names, in their order.
    Names,
    /// Says the text of a file, up to 100 bytes.
    Read(&'static str),
    /// Says which files the system lists, in their order.
    Listed,
    /// Says how many calls have failed.
    Failures,
}

/// Takes the steps in a new folder of the system in turn, and fails if one says something else than its row wants.
pub(crate) fn expect_steps(
    rt: &HostRuntime,
    name: &str,
    steps: &'static [(Step, &'static str)],
) -> Result<(), Fail> {
    let path = temporary_path(rt, name)?;
    fs::create_dir(rt, path.as_str())?;
    let missed = missed(rt, path.as_str(), steps)?;
    fs::remove_dir_all(rt, path.as_str())?;
    expect_text(missed, "")
}

/// A path within the folder for temporary files.
pub(crate) fn temporary_path(rt: &HostRuntime, name: &str) -> Result<String, Fail> {
    let within = env::temp_dir(rt)?;
    let id = process::id(rt.process());
    Ok(format!(in rt.alloc(); "{}/cq_{name}_{id}", within.display())?)
}

/// What steps in the folder at a path, which is there or not, say other than their rows want, with their places.
pub(crate) fn missed(rt: &HostRuntime, path: &str, steps: &[(Step, &str)]) -> Result<String, Fail> {
    let mut folder = RealFolder::new(rt, String::from_str(rt.alloc(), path)?, 7);
    missed_by(rt, path, &mut folder, steps)
}

/// The same of a folder that is the one at a path.
fn missed_by(
    rt: &HostRuntime,
    path: &str,
    folder: &mut RealFolder<'_, HostRuntime>,
    steps: &[(Step, &str)],
) -> Result<String, Fail> {
    let mut text = String::new(rt.alloc());
    for (place, (step, want)) in steps.iter().enumerate() {
        let said = said_beside(rt, path, folder, step, want)?;
        push_missed(rt.alloc(), &mut text, place, said.as_str(), want)?;
    }
    Ok(text)
}

/// Takes a step in the folder at a path, and gives what is said. If that is not what is wanted, it also says whether
/// the step was put off. A save that gets no memory after its record, or for removing what it gives up, reports
/// nothing, and leaves that to the next command that is alone.
fn said_beside(
    rt: &HostRuntime,
    path: &str,
    folder: &mut RealFolder<'_, HostRuntime>,
    step: &Step,
    want: &str,
) -> Result<String, Fail> {
    let said = said_at(rt, path, folder, step)?;
    if said.as_str() == want || !is_put_off(rt, path, folder, step, want)? {
        return Ok(said);
    }
    Ok(format!(in rt.alloc(); "{said} (put off, as for want of memory)")?)
}

/// Whether what is wanted is said at a step in the folder at a path once a command has entered alone.
fn is_put_off(
    rt: &HostRuntime,
    path: &str,
    folder: &mut RealFolder<'_, HostRuntime>,
    step: &Step,
    want: &str,
) -> Result<bool, Fail> {
    if folder.begin(rt.alloc(), Access::Alone).is_err() {
        return Ok(false);
    }
    let said = said_at(rt, path, folder, step)?;
    Ok(said.as_str() == want)
}

/// Takes a step in the folder at a path, and gives what is said.
fn said_at(
    rt: &HostRuntime,
    path: &str,
    folder: &mut RealFolder<'_, HostRuntime>,
    step: &Step,
) -> Result<String, Fail> {
    let alloc = rt.alloc();
    match *step {
        Step::Put(name, text) => put(rt, path, name, text),
        Step::PutRecord(first, count) => put_record(rt, path, first, count),
        Step::Link(name, to) => link(rt, path, name, to),
        Step::Make(name) => make(rt, path, name),
        Step::Remove => removed(rt, path),
        Step::Lock(name) => lock(rt, path, name),
        Step::IsLocked(name) => is_locked(rt, path, name),
        Step::Many(count) => put_many(rt, path, count),
        Step::Listed => listed(rt, path),
        Step::Try(access) => tried(rt, path, access),
        Step::Begin(access) => answer(alloc, folder.begin(alloc, access)),
        Step::End => ended(alloc, folder),
        Step::Failures => failed(alloc, folder),
        Step::Save(..) | Step::SaveAndRemove(..) | Step::RemoveMany(..) | Step::Write(..) => {
            said_alone(alloc, folder, step)
        }
        Step::Count | Step::Names | Step::Read(_) => said_inside(alloc, folder, step),
    }
}

/// Nothing if a call was done, or its fault.
fn answer(alloc: Global, done: Result<(), FolderFault>) -> Result<String, Fail> {
    match done {
        Ok(()) => Ok(String::new(alloc)),
        Err(fault) => Ok(format!(in alloc; "{fault:?}")?),
    }
}

/// The path of a name in the folder at a path.
fn within(alloc: Global, path: &str, name: &str) -> Result<String, AllocError> {
    format!(in alloc; "{path}/{name}")
}

fn put(rt: &HostRuntime, path: &str, name: &str, text: &str) -> Result<String, Fail> {
    fs::write(rt, within(rt.alloc(), path, name)?.as_str(), text)?;
    Ok(String::new(rt.alloc()))
}

fn put_record(rt: &HostRuntime, path: &str, first: &str, count: usize) -> Result<String, Fail> {
    let names = "1.cqi\n".repeat(rt.alloc(), count)?;
    let text = format!(in rt.alloc(); "cq save 1\n9\n{first}\n{names}end\n")?;
    put(rt, path, "queue.save", text.as_str())
}

fn link(rt: &HostRuntime, path: &str, name: &str, to: &str) -> Result<String, Fail> {
    rt.symlink(to, within(rt.alloc(), path, name)?.as_str())?;
    Ok(String::new(rt.alloc()))
}

fn make(rt: &HostRuntime, path: &str, name: &str) -> Result<String, Fail> {
    fs::create_dir(rt, within(rt.alloc(), path, name)?.as_str())?;
    Ok(String::new(rt.alloc()))
}

fn removed(rt: &HostRuntime, path: &str) -> Result<String, Fail> {
    fs::remove_dir(rt, path)?;
    Ok(String::new(rt.alloc()))
}

/// Lets a file be read alone.
fn lock(rt: &HostRuntime, path: &str, name: &str) -> Result<String, Fail> {
    let file = within(rt.alloc(), path, name)?;
    let mut permissions = fs::metadata(rt, file.as_str())?.permissions();
    permissions.set_readonly(true);
    rt.set_permissions(file.as_str(), permissions)?;
    Ok(String::new(rt.alloc()))
}

/// Whether a file may be read alone, as text.
fn is_locked(rt: &HostRuntime, path: &str, name: &str) -> Result<String, Fail> {
    let is_locked = is_readonly(rt, path, name)?;
    Ok(format!(in rt.alloc(); "{is_locked}")?)
}

/// Whether a file may be read alone.
fn is_readonly(rt: &HostRuntime, path: &str, name: &str) -> Result<bool, Fail> {
    let file = within(rt.alloc(), path, name)?;
    Ok(fs::metadata(rt, file.as_str())?.permissions().readonly())
}

/// Puts this many empty files with long names.
fn put_many(rt: &HostRuntime, path: &str, count: usize) -> Result<String, Fail> {
    for number in 0..count {
        let file = format!(in rt.alloc(); "{path}/{number:0>250}")?;
        fs::write(rt, file.as_str(), "")?;
    }
    Ok(String::new(rt.alloc()))
}

/// What is said in place of a call that only a command makes that has entered, or is alone.
fn outside(alloc: Global) -> Result<String, Fail> {
    Ok(String::from_str(alloc, "outside")?)
}

/// Whether the folder at a path, which is opened once more, can be locked: "free" or "held".
fn tried(rt: &HostRuntime, path: &str, access: Access) -> Result<String, Fail> {
    let folder = File::open(rt, path)?;
    let tried = match access {
        Access::Shared => folder.try_lock_shared(),
        Access::Alone => folder.try_lock(),
    };
    tried_text(rt.alloc(), tried)
}

/// What came of trying to lock a folder: "free" or "held".
fn tried_text(alloc: Global, tried: Result<(), TryLockError>) -> Result<String, Fail> {
    match tried {
        Ok(()) => Ok(String::from_str(alloc, "free")?),
        Err(TryLockError::WouldBlock) => Ok(String::from_str(alloc, "held")?),
        Err(TryLockError::Error(error)) => Err(Fail::from(error)),
    }
}

fn ended(alloc: Global, folder: &mut RealFolder<'_, HostRuntime>) -> Result<String, Fail> {
    folder.end();
    Ok(String::new(alloc))
}

fn failed(alloc: Global, folder: &mut RealFolder<'_, HostRuntime>) -> Result<String, Fail> {
    Ok(format!(in alloc; "{}", folder.failures())?)
}

/// What a step says that only a command takes that is alone.
fn said_alone(
    alloc: Global,
    folder: &mut RealFolder<'_, HostRuntime>,
    step: &Step,
) -> Result<String, Fail> {
    let Some(Access::Alone) = folder.access() else {
        return outside(alloc);
    };
    match *step {
        Step::Save(files) => saved(alloc, folder, files),
        Step::SaveAndRemove(files, removed) => saved_and_removed(alloc, folder, files, removed),
        Step::RemoveMany(count) => remove_many(alloc, folder, count),
        Step::Write(name, text) => answer(alloc, folder.write(name, text.as_bytes())),
        _ => Err(Fail::new("no such step")),
    }
}

/// What saving files together returns, as text.
fn saved<F: Folder>(alloc: Global, folder: &mut F, files: &[(&str, &str)]) -> Result<String, Fail>
    requires { F.entered folder.old ≡ Some Access.Alone }
{
    let done = save(alloc, folder, files)?;
    answer(alloc, done)
}

/// What saving files together and removing others returns, as text.
fn saved_and_removed<F: Folder>(
    alloc: Global,
    folder: &mut F,
    files: &[(&str, &str)],
    removed: &[&str],
) -> Result<String, Fail>
    requires { F.entered folder.old ≡ Some Access.Alone }
{
    let done = save_and_remove(alloc, folder, files, removed)?;
    answer(alloc, done)
}

/// Removes this many files, each with a name of 244 bytes.
fn remove_many<F: Folder>(alloc: Global, folder: &mut F, count: usize) -> Result<String, Fail>
    requires { F.entered folder.old ≡ Some Access.Alone }
{
    let mut names = Vec::new(alloc);
    for number in 0..count {
        names.push(format!(in alloc; "{number:0>240}.cqi")?)?;
    }
    answer(alloc, folder.save_and_remove(&[], names.as_slice()))
}

/// What a step says that only a command takes that has entered.
fn said_inside(
    alloc: Global,
    folder: &mut RealFolder<'_, HostRuntime>,
    step: &Step,
) -> Result<String, Fail> {
    let Some(_) = folder.access() else {
        return outside(alloc);
    };
    match *step {
        Step::Count => count_text(alloc, folder),
        Step::Names => Ok(names_text(alloc, folder)?),
        Step::Read(name) => text_of(alloc, folder, name),
        _ => Err(Fail::new("no such step")),
    }
}

/// How many names there are.
fn count_of<F: Folder>(alloc: Global, folder: &mut F) -> Result<usize, FolderFault>
    requires { IsSome (F.entered folder.old) }
{
    Ok(folder.names(alloc)?.len())
}

/// How many names there are, as text.
fn count_text<F: Folder>(alloc: Global, folder: &mut F) -> Result<String, Fail>
    requires { IsSome (F.entered folder.old) }
{
    let count = count_of(alloc, folder)?;
    Ok(format!(in alloc; "{count}")?)
}

/// The text of a file, or the fault of its read.
fn text_of<F: Folder>(alloc: Global, folder: &mut F, name: &str) -> Result<String, Fail>
    requires { IsSome (F.entered folder.old) }
{
    match folder.read(alloc, name, 100) {
        Ok(bytes) => Ok(String::from_utf8_lossy(alloc, bytes.as_slice())?),
        Err(fault) => Ok(format!(in alloc; "{fault:?}")?),
    }
}

/// The names that the system lists, in their order.
fn listed(rt: &HostRuntime, path: &str) -> Result<String, Fail> {
    let mut names = Vec::new(rt.alloc());
    push_names(rt, path, &mut names)?;
    Ok(in_order(rt.alloc(), names)?)
}

/// Adds the names that the system lists to others.
fn push_names(rt: &HostRuntime, path: &str, names: &mut Vec<String>) -> Result<(), Fail> {
    for entry in fs::read_dir(rt, path)? {
        names.push(name_of(rt.alloc(), &entry?)?)?;
    }
    Ok(())
}

/// The name of what the system lists, in memory of its own.
fn name_of(alloc: Global, entry: &DirEntry) -> Result<String, AllocError> {
    String::from_str(alloc, entry.file_name())
}
