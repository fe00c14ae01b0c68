//! What comes of opening a file, and of making one, for what is at the path.
use crate::places::{new_folder, text_of, within};
use cq_fixtures::{expect, expect_text};
use cq_log_file::{LogFile, OpenFault, SystemFile};
use std::fs::{self, File, Files};
use std::process;
use std::test::Fail;

/// What is at a path.
#[derive(Clone, Copy, Debug)]
enum There {
    /// No file.
    Nothing,
    /// No file, and no folder of that name.
    NoFolder,
    /// A folder.
    Folder,
    /// A link to a file.
    Link,
    /// A file with this text.
    Text(&'static str),
}

impl There {
    /// Puts it to a folder, and returns its path.
    fn put(self, rt: &HostRuntime, folder: &str) -> Result<String, Fail> {
        let path = within(rt, folder, "a")?;
        match self {
            There::Nothing => {}
            There::NoFolder => return within(rt, folder, "none/a"),
            There::Folder => fs::create_dir(rt, path.as_str())?,
            There::Link => {
                fs::write(rt, within(rt, folder, "b")?.as_str(), "b")?;
                rt.symlink("b", path.as_str())?;
            }
            There::Text(text) => fs::write(rt, path.as_str(), text)?,
        }
        Ok(path)
    }
}

/// Opens a file. Returns its bytes as text, or the fault.
fn opened(rt: &HostRuntime, path: &str) -> Result<String, Fail> {
    match LogFile::open(rt, path) {
        Ok(found) => text_of(rt, &found.bytes),
        Err(fault) => Ok(format!(in rt.alloc(); "{fault:?}")?),
    }
}

/// Makes a file. Returns nothing, or the fault.
fn made(rt: &HostRuntime, path: &str) -> Result<String, Fail> {
    match LogFile::create(rt, path) {
        Ok(_file) => Ok(String::new(rt.alloc())),
        Err(fault) => Ok(format!(in rt.alloc(); "{fault:?}")?),
    }
}

/// What is at a path, what an opening comes to, and then what making a file comes to.
static ROWS: [(There, &str, &str); 6] = [
    (There::Nothing, "Missing", ""),
    (There::NoFolder, "Missing", "Missing"),
    (There::Folder, "NotAFile", "Exists"),
    (There::Link, "NotAFile", "Exists"),
    (There::Text(""), "", "Exists"),
    (There::Text("abc"), "abc", "Exists"),
];

/// Fails if an opening does not come to this.
fn expect_opened(rt: &HostRuntime, path: &str, want: &str) -> Result<(), Fail> {
    expect_text(opened(rt, path)?, want)
}

/// Fails if making a file does not come to this.
fn expect_made(rt: &HostRuntime, path: &str, want: &str) -> Result<(), Fail> {
    expect_text(made(rt, path)?, want)
}

/// Fails if an opening, and then making a file, do not come to this where it is in a new folder.
fn expect_there(rt: &HostRuntime, there: There, open: &str, make: &str) -> Result<(), Fail> {
    let folder = new_folder(rt, "log_opening")?;
    let path = there.put(rt, &folder)?;
    expect_opened(rt, &path, open)?;
    expect_made(rt, &path, make)?;
    fs::remove_dir_all(rt, folder.as_str())?;
    Ok(())
}

#[test]
fn what_is_there_decides(rt: HostRuntime) -> Result<(), Fail> {
    for &(there, open, make) in &ROWS {
        expect_there(&rt, there, open, make)?;
    }
    Ok(())
}

/// A file that was made is locked as long as it is there.
fn expect_locked_once_made(rt: &HostRuntime, path: &str) -> Result<(), Fail> {
    let _file = LogFile::create(rt, path)?;
    expect_opened(rt, path, "Locked")
}

/// A file that was opened is locked as long as it is there.
fn expect_locked_once_opened(rt: &HostRuntime, path: &str) -> Result<(), Fail> {
    let _found = LogFile::open(rt, path)?;
    expect_opened(rt, path, "Locked")
}

/// A file that another program has locked is locked until it is unlocked.
fn expect_locked_by_another(rt: &HostRuntime, path: &str) -> Result<(), Fail> {
    let other = File::open(rt, path)?;
    other.lock_shared()?;
    expect_opened(rt, path, "Locked")?;
    other.unlock()?;
    expect_opened(rt, path, "")
}

#[test]
fn a_file_is_opened_once(rt: HostRuntime) -> Result<(), Fail> {
    let folder = new_folder(&rt, "log_lock")?;
    let path = within(&rt, &folder, "a")?;
    expect_locked_once_made(&rt, &path)?;
    expect_locked_once_opened(&rt, &path)?;
    expect_locked_by_another(&rt, &path)?;
    fs::remove_dir_all(&rt, folder.as_str())?;
    Ok(())
}

/// A superuser may write files that nobody may write.
fn is_superuser(rt: &HostRuntime, path: &str) -> bool {
    File::options().write(true).open(rt, path).is_ok()
}

/// Lets nobody write a file.
fn forbid_writes(rt: &HostRuntime, path: &str) -> Result<(), Fail> {
    let mut permissions = fs::metadata(rt, path)?.permissions();
    permissions.set_readonly(true);
    fs::set_permissions(rt, path, permissions)?;
    Ok(())
}

/// Fails if a file with the text "abc" that nobody may write is opened, but by a superuser.
fn expect_denied(rt: &HostRuntime, path: &str) -> Result<(), Fail> {
    forbid_writes(rt, path)?;
    if is_superuser(rt, path) {
        return expect_opened(rt, path, "abc");
    }
    expect_opened(rt, path, "Denied")
}

#[test]
fn a_file_that_may_only_be_read_is_refused(rt: HostRuntime) -> Result<(), Fail> {
    let folder = new_folder(&rt, "log_denied")?;
    let path = There::Text("abc").put(&rt, &folder)?;
    expect_denied(&rt, &path)?;
    fs::remove_dir_all(&rt, folder.as_str())?;
    Ok(())
}

/// A plain file that can be read, written and locked, but not synced.
const NEVER_SYNCED: &str = "/proc/self/comm";

#[test]
fn a_file_that_cannot_be_synced_is_refused(rt: HostRuntime) -> Result<(), Fail> {
    match LogFile::open(&rt, NEVER_SYNCED) {
        Err(OpenFault::Failed(_)) => Ok(()),
        Err(fault) => Err(Fail::from(fault)),
        Ok(_found) => Err(Fail::new(format_args!("it was opened"))),
    }
}

#[test]
fn a_path_needs_no_folder(rt: HostRuntime) -> Result<(), Fail> {
    let id = process::id(rt.process());
    let path = format!(in rt.alloc(); "cq_log_alone_{id}")?;
    expect_made(&rt, &path, "")?;
    expect_opened(&rt, &path, "")?;
    fs::remove_file(&rt, path.as_str())?;
    Ok(())
}

/// Fails if a file is not at this path.
fn expect_at(rt: &HostRuntime, file: &SystemFile, path: &str) -> Result<(), Fail> {
    expect(file.is_at(rt, path)?, "the file is at the path")
}

/// Fails if a file is at this path.
fn expect_not_at(rt: &HostRuntime, file: &SystemFile, path: &str) -> Result<(), Fail> {
    expect(!file.is_at(rt, path)?, "the file is not at the path")
}

/// Moves a file from the first of these paths to the second one. It is at the second one then.
fn expect_moved(
    rt: &HostRuntime,
    file: &SystemFile,
    first: &str,
    second: &str,
) -> Result<(), Fail> {
    expect_at(rt, file, first)?;
    fs::rename(rt, first, second)?;
    expect_not_at(rt, file, first)?;
    expect_at(rt, file, second)
}

/// Puts a link to a file, and then another file, to a path. The file is not at that path.
fn expect_noticed(rt: &HostRuntime, file: &SystemFile, path: &str) -> Result<(), Fail> {
    rt.symlink("second", path)?;
    expect_not_at(rt, file, path)?;
    fs::remove_file(rt, path)?;
    fs::write(rt, path, "")?;
    expect_not_at(rt, file, path)
}

/// Replaces a file that was made in a folder.
fn expect_replaced(rt: &HostRuntime, folder: &str) -> Result<(), Fail> {
    let first = within(rt, folder, "first")?;
    let second = within(rt, folder, "second")?;
    let file = SystemFile::create(rt, &first)?;
    expect_moved(rt, &file, &first, &second)?;
    expect_noticed(rt, &file, &first)
}

#[test]
fn a_file_that_was_replaced_is_noticed(rt: HostRuntime) -> Result<(), Fail> {
    let folder = new_folder(&rt, "log_moved")?;
    expect_replaced(&rt, &folder)?;
    fs::remove_dir_all(&rt, folder.as_str())?;
    Ok(())
}
