//! Says how long work has taken, while it is done.
use crossbeam_channel::{Receiver, RecvTimeoutError, bounded};
use std::sync::Wait;
use std::sync::atomic::{AtomicBool, Ordering};
use std::thread::{Threads, join};
use std::time::{Clock, Duration};

/// What a terminal takes for: go to the first column, and erase the line.
const ERASE: &str = "\r\x1b[K";

/// The line that says how long work has taken (ours). Work that prints erases it first.
#[derive(Drop)]
pub struct Progress {
    /// Whether nothing more is said.
    is_over: AtomicBool,
    /// Whether the line is on the terminal.
    is_shown: AtomicBool,
}

impl Progress {
    /// Makes the line of work that begins.
    pub fn new() -> Progress {
        Progress {
            is_over: AtomicBool::new(false),
            is_shown: AtomicBool::new(false),
        }
    }

    /// Erases the line, and says nothing more. A thread that is about to say something may still do so, which is erased at the end.
    pub fn end<R: Eprint>(&self, rt: &R) {
        self.is_over.store(true, Ordering::SeqCst);
        self.erase(rt);
    }

    /// Erases the line, if it is there.
    fn erase<R: Eprint>(&self, rt: &R) {
        if self.is_shown.swap(false, Ordering::SeqCst) {
            let _ = eprint!(rt; "{ERASE}");
        }
    }

    /// Says for how many seconds the work has been done, unless nothing more is said.
    fn say<R: Eprint>(&self, rt: &R, words: &str, seconds: u64) {
        if !self.is_over.load(Ordering::SeqCst) {
            self.is_shown.store(true, Ordering::SeqCst);
            let _ = eprint!(rt; "{ERASE}cq: {words}: {seconds} s");
        }
    }
}

/// Does work, and returns what it gives. From the first second on a line of the standard error says each second for how many seconds it
/// has been done, after these words (ours). The line is erased at the end, or when the work ends it.
///
/// Another thread says so. Where none can be started, or memory is refused for it, the work is done, and nothing is said.
pub fn with_progress<R, W, T>(rt: &R, words: &str, progress: &Progress, work: W) -> T
where
    R: AllocGlobal + Eprint + Clock + Threads + Wait + Sync,
    W: FnOnce() -> T,
    requires { W.pre work }
    ensures { W.post work result }
{
    let Ok((ends, end)) = bounded::<(), _>(rt.alloc(), 1) else {
        return work();
    };
    let ((), done) = join(
        rt,
        || say_seconds(rt, words, progress, end),
        move || {
            let done = work();
            drop(ends);
            done
        },
    );
    progress.erase(rt);
    done
}

/// Says each second how many have passed, until the other end of the channel is gone.
fn say_seconds<R>(rt: &R, words: &str, progress: &Progress, end: Receiver<()>)
where
    R: Eprint + Clock + Wait,
{
    let period = Duration::from_secs(1);
    let mut seconds: u64 = 0;
    for _ in rt.forever() {
        if !matches!(end.recv_timeout(rt, period), Err(RecvTimeoutError::Timeout)) {
            return;
        }
        seconds = seconds.saturating_add(1);
        progress.say(rt, words, seconds);
    }
}
