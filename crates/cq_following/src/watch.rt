//! How a command waits between looks at a folder.
ghost use Rattle.std.specs.Prelude.{◌≡◌, ◌≤◌, ◌-◌, ◌*◌, ◌^◌, IsTrue, false, min};
ghost use Rattle.cq_following.specs.Times.{HasCome, IsEndOf, end_after, left_until, looks_left};

use crate::changes::Changes;
use std::alloc::Global;
use std::rt::Clock;
use std::time::Duration;

/// The first pause between two looks, in milliseconds.
pub(crate) const FIRST_PAUSE: u64 = 50;

/// The longest pause.
pub(crate) const LONGEST_PAUSE: u64 = 200;

/// Waits between looks at a folder that may change (ours), up to an end. A pause has 50 milliseconds at first, and then more and
/// more, up to 200. None goes on past the end.
#[derive(Drop)]
pub struct Watch<'a, R, C> {
    rt: &'a R,
    changes: C,
    /// When it ends, in milliseconds of the clock; `None` if never.
    end: Option<u64>,
    /// What the clock was when it was looked at last, in milliseconds; `None` if it could not be read.
    seen: Option<u64>,
    /// The next pause, in milliseconds.
    pause: u64,
    /// How often it still waits. It is 2^64 - 1 at first.
    looks: u64,
    /// Whether the end has come.
    is_over: bool,
}

impl<'a, R: AllocGlobal + Clock, C: Changes> Watch<'a, R, C> {
    /// Makes a watch over a folder, of which `changes` says whether it may have changed.
    pub fn new(rt: &'a R, changes: C) -> Watch<'a, R, C> {
        Watch {
            rt,
            changes,
            end: None,
            seen: None,
            pause: FIRST_PAUSE,
            looks: u64::MAX,
            is_over: false,
        }
    }

    /// Returns the allocator.
    pub(crate) fn alloc(&self) -> Global {
        self.rt.alloc()
    }

    /// Begins to wait, for this many seconds; `None` is for ever. If the clock cannot be read, the end of a given time has come.
    pub(crate) fn begin(&mut self, seconds: Option<u64>)
        ensures end { IsEndOf seconds self.new.end }
        ensures begun { self.new.is_over ≡ false }
        ensures looks { self.new.looks ≡ 2 ^ 64 - 1 }
    {
        self.seen = milliseconds(self.rt);
        self.end = end_from(self.seen, seconds);
        self.pause = FIRST_PAUSE;
        self.looks = u64::MAX;
        self.is_over = false;
    }

    /// Makes the next pause a first one, if something has come.
    pub(crate) fn hurry_if(&mut self, has_come: bool)
        ensures over { self.new.is_over ≡ self.old.is_over }
        ensures end { self.new.end ≡ self.old.end }
        ensures seen { self.new.seen ≡ self.old.seen }
        ensures looks { self.new.looks ≡ self.old.looks }
    {
        if has_come {
            self.pause = FIRST_PAUSE;
        }
    }

    /// Returns whether the end has come.
    pub(crate) fn is_over(&self) -> bool
        ensures { result ≡ self.now.is_over }
    {
        self.is_over
    }

    /// Waits until the folder may have changed, or until the clock is at the end. If the clock cannot be read, it counts as at the end
    /// of a given time. A watch without an end is over only once it has waited 2^64 - 1 times.
    pub(crate) fn wait(&mut self)
        requires { self.old.is_over ≡ false }
        ensures end { self.new.end ≡ self.old.end }
        ensures over { IsTrue self.new.is_over → HasCome self.new.seen self.new.end self.new.looks }
        ensures once { self.new.looks ≡ self.old.looks - 1 }
        ensures fewer { looks_left self.new.is_over self.new.looks ≤ self.old.looks }
    {
        if self.looks == 0 {
            self.is_over = true;
            return;
        }
        self.looks -= 1;
        'pauses: for _ in 0..u64::MAX {
            self.seen = milliseconds(self.rt);
            let left = left_until(self.seen, self.end);
            if left == 0 {
                self.is_over = true;
                return;
            }
            self.rt.sleep(Duration::from_millis(self.pause.min(left)));
            self.pause = longer(self.pause);
            if self.changes.may_have_changed() {
                return;
            }
        }
    }
}

/// Returns the time of the clock in milliseconds; `None` if it cannot be read.
pub(crate) fn milliseconds<R: Clock>(rt: &R) -> Option<u64> {
    match rt.monotonic() {
        Ok(time) => Some(u64::try_from(time.as_millis()).unwrap_or(u64::MAX)),
        Err(_) => None,
    }
}

/// Returns the end of a time of this many seconds from now on; `None` if it is for ever.
fn end_from(now: Option<u64>, seconds: Option<u64>) -> Option<u64>
    ensures { IsEndOf seconds result }
{
    match seconds {
        None => None,
        Some(seconds) => Some(end_after(now, seconds)),
    }
}

/// Returns the end of a time of this many seconds from now on, in milliseconds: 0 if it is not known what time it is.
fn end_after(now: Option<u64>, seconds: u64) -> u64
    ensures { result ≡ end_after now seconds }
{
    match now {
        None => 0,
        Some(now) => now.saturating_add(seconds.saturating_mul(1_000)),
    }
}

/// Returns how many milliseconds are left until an end. There is none before an end if it is not known what time it is.
fn left_until(now: Option<u64>, end: Option<u64>) -> u64
    ensures { result ≡ left_until now end }
{
    match (now, end) {
        (_, None) => u64::MAX,
        (None, Some(_)) => 0,
        (Some(now), Some(end)) => end.saturating_sub(now),
    }
}

/// Returns the pause after this one: twice as long, but not longer than the longest one.
fn longer(pause: u64) -> u64
    ensures { result ≡ min (pause * 2) LONGEST_PAUSE }
{
    pause.saturating_mul(2).min(LONGEST_PAUSE)
}
