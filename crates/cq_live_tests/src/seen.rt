//! What commands see of a folder whose queue is live.
use cq_fixtures::expect_text;
use cq_logged::{LoggedFolder, SystemLock};
use cq_real_folder::RealFolder;
use cq_running::{ReadForm, ReadSettings, drop_before, read};
use std::test::Fail;

/// A folder of the system that is seen with its log.
type SeenFolder<'a> = LoggedFolder<RealFolder<'a, HostRuntime>, SystemLock<'a, HostRuntime>>;

/// The folder at a path, seen with its log.
fn seen_at<'a>(rt: &'a HostRuntime, path: &str) -> Result<SeenFolder<'a>, Fail> {
    let alloc = rt.alloc();
    let folder = RealFolder::new(rt, String::from_str(alloc, path)?, 7);
    let lock = SystemLock::new(rt, format!(in alloc; "{path}/queue.log")?);
    Ok(LoggedFolder::new(alloc, folder, lock))
}

/// What `read` prints.
fn read_text(rt: &HostRuntime, path: &str) -> Result<String, Fail> {
    let alloc = rt.alloc();
    let mut folder = seen_at(rt, path)?;
    let mut output = Vec::new(alloc);
    let all = ReadSettings {
        form: ReadForm::Line,
        back: false,
        from: None,
        limit: None,
        last: None,
        since: None,
        until: None,
    };
    read(alloc, &mut folder, &all, &mut output)?;
    Ok(String::from_utf8_lossy(alloc, &output)?)
}

/// Why `drop` is refused.
fn refusal_text(rt: &HostRuntime, path: &str) -> Result<String, Fail> {
    let alloc = rt.alloc();
    let mut folder = seen_at(rt, path)?;
    let done = drop_before(alloc, &mut folder, 1, &mut Vec::new(alloc));
    let (_folder, cause) = folder.into_parts();
    match (done, cause) {
        (Err(_), Some(cause)) => Ok(format!(in alloc; "{cause}")?),
        _ => Err(Fail::new(format_args!("drop is not refused"))),
    }
}

/// The messages "a" and "b", as lines.
static LINES: &str = "0000000000000000 a\n0000000000000001 b\n";

static IN_USE: &str = "a queue is live in this folder: wait until it is closed, or close it";

/// The queue of the folder is live, and has stored "a" and "b": both are read, and a command that may write is refused.
pub(crate) fn expect_seen(rt: &HostRuntime, path: &str) -> Result<(), Fail> {
    expect_text(read_text(rt, path)?, LINES)?;
    expect_text(refusal_text(rt, path)?, IN_USE)
}
