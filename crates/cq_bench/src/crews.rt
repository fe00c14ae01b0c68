//! Appenders and tailers of one queue, on threads.
use crate::appending::{Appending, MOST_TRIES};
use crate::fault::BenchFault;
use crate::figures::{Figure, Label, print_line};
use crate::queues::{SharedQueue, message_count};
use crate::reading::{Reading, Target};
use crate::running::{Job, time_of};
use crate::settings::Settings;
use cq_layout::Shape;
use std::alloc::{AllocError, Global};
use std::rt::Clock;
use std::thread::Threads;
use std::time::Duration;

/// How many appenders and tailers share a queue, and how they append and read. If there is no appender the queue is
/// filled before.
#[derive(Clone, Copy)]
pub struct Crew {
    pub appending: Appending,
    pub appenders: u32,
    pub tailers: u32,
    pub reading: Reading,
}

/// How many messages each appender appends, and how many each tailer reads.
#[derive(Clone, Copy)]
struct Share {
    each: u32,
    all: u32,
}

impl Crew {
    /// Returns what each does if this many messages fit.
    fn share(self, count: u32) -> Result<Share, BenchFault> {
        let each = match self.appenders {
            0 => count,
            appenders => count / appenders,
        };
        if each == 0 {
            return Err(BenchFault::NoRoom);
        }
        Ok(Share {
            each,
            all: each.saturating_mul(self.appenders.max(1)),
        })
    }

    /// Returns how many messages count: those that were appended, or those that each tailer has read if there is no
    /// appender.
    fn messages(self, share: Share) -> u64 {
        match self.appenders {
            0 => u64::from(share.all).saturating_mul(u64::from(self.tailers)),
            _ => u64::from(share.all),
        }
    }

    /// Returns its name in a line.
    fn name(self, alloc: Global) -> Result<String, AllocError> {
        let Crew {
            appending: _,
            appenders,
            tailers,
            reading: _,
        } = self;
        if appenders == 0 {
            return format!(in alloc; "{tailers}");
        }
        if tailers == 0 {
            return format!(in alloc; "{appenders}");
        }
        format!(in alloc; "{appenders}to{tailers}")
    }

    /// Fills a new queue if no appender will do it.
    fn fill(self, shared: &mut SharedQueue, share: Share, bytes: &[u8]) -> Result<(), BenchFault> {
        if self.appenders > 0 {
            return Ok(());
        }
        shared.appender()?.append_all(bytes, share.all)
    }

    /// Returns what an appender does.
    fn append_job(self, shared: &mut SharedQueue, share: Share) -> Result<Job, AllocError> {
        Ok(Job::Append(shared.appender()?, self.appending, share.each))
    }

    /// Returns what a tailer does.
    fn read_job(
        self,
        alloc: Global,
        shared: &mut SharedQueue,
        share: Share,
    ) -> Result<Job, AllocError> {
        // If there is no appender, a message that is not there will not come.
        let looks = if self.appenders == 0 { 1 } else { MOST_TRIES };
        let target = Target::new(alloc, self.reading)?;
        Ok(Job::Read(shared.tailer()?, target, share.all, looks))
    }

    /// Adds what the appenders do on a new queue.
    fn push_appends(
        self,
        shared: &mut SharedQueue,
        share: Share,
        jobs: &mut Vec<Job>,
    ) -> Result<(), AllocError> {
        for _ in 0..self.appenders {
            push(jobs, self.append_job(shared, share)?)?;
        }
        Ok(())
    }

    /// Adds what the tailers do on a new queue.
    fn push_reads(
        self,
        alloc: Global,
        shared: &mut SharedQueue,
        share: Share,
        jobs: &mut Vec<Job>,
    ) -> Result<(), AllocError> {
        for _ in 0..self.tailers {
            push(jobs, self.read_job(alloc, shared, share)?)?;
        }
        Ok(())
    }

    /// Returns what the threads do on a new queue.
    fn jobs(
        self,
        alloc: Global,
        shared: &mut SharedQueue,
        share: Share,
    ) -> Result<Vec<Job>, AllocError> {
        let mut jobs = Vec::new(alloc);
        self.push_appends(shared, share, &mut jobs)?;
        self.push_reads(alloc, shared, share, &mut jobs)?;
        Ok(jobs)
    }
}

/// Adds what one thread does.
fn push(jobs: &mut Vec<Job>, job: Job) -> Result<(), AllocError> {
    Ok(jobs.push(job)?)
}

/// Measures the time of a crew on a new queue.
fn crew_time<R: AllocGlobal + Clock + Threads + Sync>(
    rt: &R,
    shape: Shape,
    crew: Crew,
    share: Share,
    bytes: &[u8],
) -> Result<Duration, BenchFault> {
    let mut shared = SharedQueue::new(rt.alloc(), shape)?;
    time_over(rt, &mut shared, crew, share, bytes)
}

/// Measures the time of a crew on this queue, which is new.
fn time_over<R: AllocGlobal + Clock + Threads + Sync>(
    rt: &R,
    shared: &mut SharedQueue,
    crew: Crew,
    share: Share,
    bytes: &[u8],
) -> Result<Duration, BenchFault> {
    crew.fill(shared, share, bytes)?;
    time_of(rt, crew.jobs(rt.alloc(), shared, share)?, bytes)
}

/// Measures the time of a crew, in the best of all repetitions.
fn best_time<R: AllocGlobal + Clock + Threads + Sync>(
    rt: &R,
    settings: &Settings,
    crew: Crew,
    share: Share,
    bytes: &[u8],
) -> Result<Duration, BenchFault> {
    let mut best = Duration::MAX;
    for _ in 0..settings.repetitions {
        best = best.min(crew_time(rt, settings.shape, crew, share, bytes)?);
    }
    Ok(best)
}

/// Measures messages per second, in the best of all repetitions.
fn crew_figure<R: AllocGlobal + Clock + Threads + Sync>(
    rt: &R,
    settings: &Settings,
    crew: Crew,
    length: u32,
) -> Result<Figure, BenchFault> {
    let bytes = Vec::from_elem(rt.alloc(), b'x', length as usize)?;
    let share = crew.share(message_count(settings.shape, length))?;
    let best = best_time(rt, settings, crew, share, bytes.as_slice())?;
    Ok(Figure::rate(crew.messages(share), best))
}

/// Measures each crew with each length of messages.
pub fn print_crews<R: AllocGlobal + Clock + Print + Threads + Sync>(
    rt: &R,
    settings: &Settings,
    case: &str,
    lengths: &[u32],
    crews: &[Crew],
) -> Result<(), BenchFault> {
    for length in lengths {
        for crew in crews {
            print_crew(rt, settings, case, *length, *crew)?;
        }
    }
    Ok(())
}

/// Measures a crew with messages of this length.
fn print_crew<R: AllocGlobal + Clock + Print + Threads + Sync>(
    rt: &R,
    settings: &Settings,
    case: &str,
    length: u32,
    crew: Crew,
) -> Result<(), BenchFault> {
    let figure = crew_figure(rt, settings, crew, length)?;
    let threads = crew.name(rt.alloc())?;
    let label = Label {
        case,
        payload: length,
        threads: threads.as_str(),
    };
    print_line(rt, settings, label, figure, "msg/s")
}
