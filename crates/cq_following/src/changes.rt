//! What says whether a folder may have changed.
ghost use Rattle.std.specs.Prelude.{◌-◌, ◌<◌, ◌↔◌, IsSomeAnd, IsTrue};
ghost use Rattle.cq_following.specs.Times.{IsDue};

use crate::watch::milliseconds;
use cq_folder::LOG_FILE;
use std::alloc::AllocError;
use std::fs;
use std::os::unix::fs::MetadataExt;
use std::rt::{Clock, Files};

/// Says whether a folder may have changed (ours).
pub trait Changes {
    /// Returns whether the folder may have changed since the last call. If that is not known, it may have.
    fn may_have_changed(&mut self) -> bool;
}

/// For how long after a change the times of files may not show another one, in milliseconds.
pub(crate) const SETTLING: u64 = 2_000;

/// For how long a folder counts as unchanged at most, in milliseconds.
pub(crate) const LONGEST_REST: u64 = 1_000;

/// When the system says that a file was changed, and its length.
#[derive(Clone, Copy, Debug, PartialEq, Eq)]
struct Stamp {
    seconds: i64,
    nanoseconds: i64,
    length: u64,
}

/// What the system says of a folder and of the log in it; `None` of what is not there, or cannot be looked at.
#[derive(Clone, Copy, Debug, PartialEq, Eq)]
struct Stamps {
    folder: Option<Stamp>,
    log: Option<Stamp>,
}

/// Says whether a folder of the system may have changed (ours), by the times and lengths of the folder and of `queue.log` in it. Each
/// save renames files in the folder, and a live queue writes into its log.
///
/// Since such times are coarse, it also says so as long as the last change is younger than two seconds, and otherwise once a
/// second. It always does where the clock cannot be read.
#[derive(Drop)]
pub struct FolderChanges<'a, R> {
    rt: &'a R,
    folder: String,
    log: String,
    /// What the system said at the last look.
    stamps: Option<Stamps>,
    /// When a change was seen last, in milliseconds of the clock.
    changed: Option<u64>,
    /// When it said last that the folder may have changed.
    said: Option<u64>,
}

impl<'a, R: AllocGlobal + Files + Clock> FolderChanges<'a, R> {
    /// Makes one for the folder of this path. At its first look the folder counts as changed.
    pub fn new(rt: &'a R, path: &str) -> Result<FolderChanges<'a, R>, AllocError> {
        let alloc = rt.alloc();
        Ok(FolderChanges {
            rt,
            folder: String::from_str(alloc, path)?,
            log: format!(in alloc; "{path}/{LOG_FILE}")?,
            stamps: None,
            changed: None,
            said: None,
        })
    }
}

impl<'a, R: AllocGlobal + Files + Clock> Changes for FolderChanges<'a, R> {
    fn may_have_changed(&mut self) -> bool {
        let stamps = Some(Stamps {
            folder: stamp_of(self.rt, self.folder.as_str()),
            log: stamp_of(self.rt, self.log.as_str()),
        });
        let is_other = stamps != self.stamps;
        self.stamps = stamps;
        let Some(now) = milliseconds(self.rt) else {
            return true;
        };
        if is_other {
            self.changed = Some(now);
        }
        let is_due = is_other || is_due(now, self.changed, self.said);
        if is_due {
            self.said = Some(now);
        }
        is_due
    }
}

/// Returns what the system says of a file or folder; `None` if it is not there, or cannot be looked at.
fn stamp_of<R: Files>(rt: &R, path: &str) -> Option<Stamp> {
    match fs::metadata(rt, path) {
        Ok(data) => Some(Stamp {
            seconds: data.mtime(),
            nanoseconds: data.mtime_nsec(),
            length: data.size(),
        }),
        Err(_) => None,
    }
}

/// Returns whether a folder counts as changed though nothing shows it, by when a change was seen last, and when it counted so last.
fn is_due(now: u64, changed: Option<u64>, said: Option<u64>) -> bool
    ensures { IsTrue result ↔ IsDue now changed said }
{
    is_younger(now, changed, SETTLING) || !is_younger(now, said, LONGEST_REST)
}

/// Returns whether a time is less than this many milliseconds ago.
fn is_younger(now: u64, then: Option<u64>, age: u64) -> bool
    ensures { IsTrue result ↔ IsSomeAnd then (λ then. now - then < age) }
{
    match then {
        None => false,
        Some(then) => now.saturating_sub(then) < age,
    }
}
