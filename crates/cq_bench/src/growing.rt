//! How long an append takes early and late in a cycle, by an appender that goes on and by new ones that know no
//! position.
use crate::fault::BenchFault;
use crate::figures::{Figure, Label, print_line};
use crate::queues::{SharedAppender, SharedQueue, message_count};
use crate::running::now;
use crate::settings::Settings;
use cq_layout::Shape;
use std::alloc::{AllocError, Global};
use std::rt::Clock;
use std::time::Duration;

/// The bytes of a message.
const LENGTH: u32 = 8;

/// A message.
const MESSAGE: [u8; 8] = [b'x'; 8];

/// How many batches of new appenders append in each eighth.
const BATCHES: u32 = 2;

/// How many new appenders append one after the other in a batch: enough that the two readings of the clock around
/// them count for little.
const BATCH: u32 = 64;

/// The time of the measured appends in the first and in the last eighth of a cycle.
#[derive(Clone, Copy)]
pub struct Eighths {
    first: Duration,
    last: Duration,
}

impl Eighths {
    /// Longer than all that is measured.
    const MAX: Eighths = Eighths {
        first: Duration::MAX,
        last: Duration::MAX,
    };

    /// The shorter time of each eighth.
    fn min(self, other: Eighths) -> Eighths {
        Eighths {
            first: self.first.min(other.first),
            last: self.last.min(other.last),
        }
    }
}

/// Which appends are measured.
#[derive(Clone, Copy)]
pub enum Growth {
    /// Each of an eighth, by one appender.
    Warm,
    /// Some of an eighth, each by an appender that was just split off.
    Cold,
}

impl Growth {
    /// The names in the lines: of the first eighth, of the last one, and of their ratio.
    fn names(self) -> [&'static str; 3] {
        match self {
            Growth::Warm => ["growth_first8th", "growth_last8th", "growth_ratio"],
            Growth::Cold => [
                "cold_append_first8th",
                "cold_append_last8th",
                "cold_append_ratio",
            ],
        }
    }

    /// How many appends of an eighth are measured, if it has that many.
    fn measured(self, eighth: u32) -> u64 {
        match self {
            Growth::Warm => u64::from(eighth),
            Growth::Cold => u64::from(BATCHES * BATCH),
        }
    }

    /// Appends an eighth, and returns the time of those that are measured.
    fn eighth_time<R: AllocGlobal + Clock>(
        self,
        rt: &R,
        shared: &mut SharedQueue,
        warm: &mut SharedAppender,
        eighth: u32,
    ) -> Result<Duration, BenchFault> {
        match self {
            Growth::Warm => {
                let start = now(rt)?;
                warm.append_all(&MESSAGE, eighth)?;
                Ok(now(rt)?.duration_since(start))
            }
            Growth::Cold => cold_time(rt, shared, warm, eighth),
        }
    }
}

/// Makes this many appenders that were just split off.
fn new_appenders(
    alloc: Global,
    shared: &mut SharedQueue,
) -> Result<Vec<SharedAppender>, AllocError> {
    let mut appenders = Vec::new(alloc);
    for _ in 0..BATCH {
        appenders.push(shared.appender()?)?;
    }
    Ok(appenders)
}

/// Measures the time of one append by each of these.
fn batch_time<R: Clock>(rt: &R, appenders: &mut [SharedAppender]) -> Result<Duration, BenchFault> {
    let start = now(rt)?;
    for appender in appenders.iter_mut() {
        appender.append_one(&MESSAGE)?;
    }
    Ok(now(rt)?.duration_since(start))
}

/// Appends an eighth, and returns the time of appends by appenders that were just split off.
fn cold_time<R: AllocGlobal + Clock>(
    rt: &R,
    shared: &mut SharedQueue,
    warm: &mut SharedAppender,
    eighth: u32,
) -> Result<Duration, BenchFault> {
    let mut total = Duration::ZERO;
    for _ in 0..BATCHES {
        warm.append_all(&MESSAGE, (eighth / BATCHES).saturating_sub(BATCH))?;
        let mut appenders = new_appenders(rt.alloc(), shared)?;
        total = total.saturating_add(batch_time(rt, appenders.as_mut_slice())?);
    }
    Ok(total)
}

/// Measures the times over a queue, by this appender if one goes on.
fn eighths_by<R: AllocGlobal + Clock>(
    rt: &R,
    growth: Growth,
    shared: &mut SharedQueue,
    warm: &mut SharedAppender,
    eighth: u32,
) -> Result<Eighths, BenchFault> {
    let first = growth.eighth_time(rt, shared, warm, eighth)?;
    warm.append_all(&MESSAGE, eighth.saturating_mul(6))?;
    let last = growth.eighth_time(rt, shared, warm, eighth)?;
    Ok(Eighths { first, last })
}

/// Measures the times over a new queue.
fn eighths_of<R: AllocGlobal + Clock>(
    rt: &R,
    shape: Shape,
    growth: Growth,
    eighth: u32,
) -> Result<Eighths, BenchFault> {
    let mut shared = SharedQueue::new(rt.alloc(), shape)?;
    let mut warm = shared.appender()?;
    eighths_by(rt, growth, &mut shared, &mut warm, eighth)
}

/// Measures the best times of all repetitions.
fn best_eighths<R: AllocGlobal + Clock>(
    rt: &R,
    settings: &Settings,
    growth: Growth,
    eighth: u32,
) -> Result<Eighths, BenchFault> {
    let mut best = Eighths::MAX;
    for _ in 0..settings.repetitions {
        best = best.min(eighths_of(rt, settings.shape, growth, eighth)?);
    }
    Ok(best)
}

/// Measures appends early and late in a cycle.
pub fn print_growth<R: AllocGlobal + Clock + Print>(
    rt: &R,
    settings: &Settings,
    growth: Growth,
) -> Result<(), BenchFault> {
    let eighth = message_count(settings.shape, LENGTH) / 8;
    if eighth < BATCHES * BATCH {
        return Err(BenchFault::NoRoom);
    }
    let best = best_eighths(rt, settings, growth, eighth)?;
    print_eighths(rt, settings, growth, growth.measured(eighth), best)
}

/// Prints the times, in which this many messages were appended.
fn print_eighths<R: Print>(
    rt: &R,
    settings: &Settings,
    growth: Growth,
    count: u64,
    times: Eighths,
) -> Result<(), BenchFault> {
    let first = Figure::nanos_each(count, times.first);
    let last = Figure::nanos_each(count, times.last);
    let [first_name, last_name, ratio_name] = growth.names();
    print_eighth(rt, settings, first_name, first, "ns")?;
    print_eighth(rt, settings, last_name, last, "ns")?;
    print_eighth(rt, settings, ratio_name, last.times(first), "ratio")
}

fn print_eighth<R: Print>(
    rt: &R,
    settings: &Settings,
    case: &str,
    figure: Figure,
    unit: &str,
) -> Result<(), BenchFault> {
    let label = Label {
        case,
        payload: LENGTH,
        threads: "1",
    };
    print_line(rt, settings, label, figure, unit)
}
