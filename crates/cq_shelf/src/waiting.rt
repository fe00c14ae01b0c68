//! Calls that wait until there is something to do, or a time is up.
ghost use Rattle.std.specs.Prelude.{IsTrue};
ghost use Rattle.cq_shelf.specs.Reads.{NextOn, TakenOn};
ghost use Rattle.cq_shelf.specs.Waits.{AppendWaits, NextWaits, PassesBy, TakeWaits, Waits};
ghost use Rattle.cq_shelf.specs.Writes.{AppendsOn};

use crate::answers::{ShelfNext, ShelfTaken};
use crate::reader::ShelfReader;
use crate::taker::ShelfTaker;
use crate::writer::ShelfWriter;
use cq_row::{Position, ShelfFault};
use std::sync::Wait;
use std::thread;
use std::time::{Clock, Duration, Instant};

/// For how many microseconds a call sleeps after its first try.
const FIRST_NAP: u64 = 16;

/// For how many microseconds it sleeps at most.
const LONGEST_NAP: u64 = 1_000;

/// When a call stops to wait, and how long it sleeps until its next try: twice as long each time.
#[derive(Clone, Copy)]
struct Patience {
    /// The moment, or never.
    end: Option<Instant>,
    /// In microseconds.
    nap: u64,
}

impl Patience {
    /// For this time from now on. There is none if the clock cannot be read.
    fn new<R: Clock>(rt: &R, time: Duration) -> Option<Patience> {
        let now = Instant::now(rt).ok()?;
        Some(Patience {
            end: now.checked_add(time),
            nap: FIRST_NAP,
        })
    }

    /// Sleeps, unless the time is up. Returns whether it did. A clock that cannot be read ends the wait.
    fn sleep<R: Clock>(&mut self, rt: &R) -> bool {
        let nap = Duration::from_micros(self.nap);
        let nap = match (self.end, Instant::now(rt)) {
            (Some(end), Ok(now)) => nap.min(end.saturating_duration_since(now)),
            (None, Ok(_)) => nap,
            (_, Err(_)) => return false,
        };
        if nap == Duration::ZERO {
            return false;
        }
        thread::sleep(rt, nap);
        self.nap = self.nap.saturating_mul(2).min(LONGEST_NAP);
        true
    }
}

/// Makes a call until its answer does not say to wait, or this time is up. It sleeps between its tries. Each of its ways
/// out ends the function that it is written in, with the last answer.
macro_rules! while_waiting {
    ($rt:ident, $time:ident, $call:expr, $waits:path) => {{
        let Some(mut patience) = Patience::new($rt, $time) else {
            return $call;
        };
        for _ in $rt.forever() {
            let answer = $call;
            if !$waits(&answer) {
                return answer;
            }
            if !patience.sleep($rt) {
                return answer;
            }
        }
        unreachable!()
    }};
}

/// Whether an error passes by itself, so that one waits.
fn passes_by(fault: ShelfFault) -> bool
    ensures { IsTrue result → PassesBy fault }
{
    match fault {
        ShelfFault::Busy | ShelfFault::Full => true,
        _ => false,
    }
}

/// Whether one waits after this read.
fn next_waits(answer: &Result<ShelfNext, ShelfFault>) -> bool
    ensures { IsTrue result → NextWaits answer.now }
{
    match answer {
        Ok(next) => matches!(next, ShelfNext::NotYet),
        Err(fault) => passes_by(*fault),
    }
}

/// Whether one waits after this take.
fn take_waits(answer: &Result<ShelfTaken, ShelfFault>) -> bool
    ensures { IsTrue result → TakeWaits answer.now }
{
    match answer {
        Ok(taken) => matches!(taken, ShelfTaken::NotYet | ShelfTaken::Moved(_)),
        Err(fault) => passes_by(*fault),
    }
}

/// Whether one waits after this append.
fn append_waits(answer: &Result<Position, ShelfFault>) -> bool
    ensures { IsTrue result → AppendWaits answer.now }
{
    match answer {
        Ok(_) => false,
        Err(fault) => passes_by(*fault),
    }
}

impl ShelfReader {
    /// Reads the next message as `next` does, and waits for one for this time at most. It sleeps between its tries, 16
    /// microseconds at first and up to a millisecond later.
    ///
    /// - `NotYet`: none came in this time.
    /// - `Busy`: others went on to the next queue all the time.
    pub fn next_waiting<R: Wait + Clock + AllocGlobal>(
        &mut self,
        rt: &R,
        time: Duration,
    ) -> Result<ShelfNext, ShelfFault>
        ensures { Waits NextOn NextWaits self.old.place self.new.place result }
    {
        while_waiting!(rt, time, self.next(rt.alloc()), next_waits)
    }
}

impl ShelfTaker {
    /// Takes the next message as `take` does, and waits for one for this time at most. It sleeps between its tries, 16
    /// microseconds at first and up to a millisecond later.
    ///
    /// - `NotYet`: none came in this time.
    /// - `Busy`: others went on to the next queue all the time.
    pub fn take_waiting<R: Wait + Clock + AllocGlobal>(
        &mut self,
        rt: &R,
        time: Duration,
    ) -> Result<ShelfTaken, ShelfFault>
        ensures { Waits TakenOn TakeWaits self.old self.new result }
    {
        while_waiting!(rt, time, self.take(rt.alloc()), take_waits)
    }
}

impl ShelfWriter {
    /// Appends a message as `append` does, and waits for this time at most while the shelf is `Full` or `Busy`. It sleeps between
    /// its tries, 16 microseconds at first and up to a millisecond later.
    ///
    /// - `Full`, `Busy`: it stayed so all the time.
    pub fn append_waiting<R: Wait + Clock + AllocGlobal>(
        &mut self,
        rt: &R,
        time: Duration,
        moment: u64,
        bytes: &[u8],
    ) -> Result<Position, ShelfFault>
        ensures { Waits (AppendsOn moment bytes.now) AppendWaits self.old.place self.new.place result }
    {
        while_waiting!(
            rt,
            time,
            self.append(rt.alloc(), moment, bytes),
            append_waits
        )
    }
}
