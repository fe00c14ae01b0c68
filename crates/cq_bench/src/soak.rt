//! Writers, readers and takers of a shelf work at full speed for a time. Then it is checked what they read and took.
use crate::appending::MOMENT;
use crate::fault::BenchFault;
use crate::queues::shelf_shape;
use crate::running::now;
use crate::settings::Settings;
use crate::tally::{Account, Deed, Tally, WRITERS};
use crate::workers::{read, take, write};
use cq_cycle::Roll;
use cq_layout::Shape;
use cq_model::Config;
use cq_shelf::{AtLimit, ShelfReader, ShelfTaker, ShelfWriter};
use std::alloc::Global;
use std::rt::Clock;
use std::thread::{Threads, map_vec, sleep};
use std::time::{Duration, Instant};

/// How many readers there are.
const READERS: u64 = 4;

/// How many takers there are.
const TAKERS: u64 = 2;

/// How many queues of the shelf may live at once.
const PLACES: u32 = 3;

/// The name by which messages are taken.
const NAME: &str = "taker";

/// The time from one line to the next, in seconds.
const EVERY: u64 = 10;

/// The least time from one look to the next, in milliseconds.
const LEAST_STEP: u64 = 1;

/// How many messages are appended at least, also if there is no time.
const LEAST_MESSAGES: u64 = 10_000;

/// What one thread does.
#[derive(Drop)]
enum Worker {
    /// Prints lines, and ends the soak when its time is over.
    Watch,
    /// Appends as the writer with this number.
    Write(ShelfWriter, u64),
    Read(ShelfReader),
    Take(ShelfTaker),
}

/// What one thread did.
#[derive(Clone, Copy)]
enum Done {
    Watched,
    Wrote(Account),
    Read(Account),
    Took(Account),
}

/// What all threads did.
#[derive(Drop)]
struct Totals {
    wrote: Account,
    read: Vec<Account>,
    took: Account,
}

impl Totals {
    /// Adds up what the threads did, or returns the fault that one of them met.
    fn of(alloc: Global, threads: Vec<Result<Done, BenchFault>>) -> Result<Totals, BenchFault> {
        let mut totals = Totals {
            wrote: Account::NONE,
            read: Vec::new(alloc),
            took: Account::NONE,
        };
        for done in threads {
            match done? {
                Done::Watched => {}
                Done::Wrote(account) => totals.wrote.join(account),
                Done::Read(account) => totals.read.push(account)?,
                Done::Took(account) => totals.took.join(account),
            }
        }
        Ok(totals)
    }

    /// Checks that each reader read what was appended, and that the takers together took it.
    fn check(&self) -> Result<(), BenchFault> {
        let are_read = self.read.iter().all(|read| *read == self.wrote);
        if are_read && self.took == self.wrote {
            return Ok(());
        }
        Err(BenchFault::Missing)
    }
}

/// Makes the settings of a queue of this shape, from which messages are taken.
fn config_of(alloc: Global, shape: Shape) -> Result<Config, BenchFault> {
    let names = vec![in alloc; String::from_str(alloc, NAME)?]?;
    match Config::new(shape, 1, Roll::Daily, 0, names) {
        Ok(config) => Ok(config),
        Err(_) => Err(BenchFault::NoQueue),
    }
}

/// Makes a shelf, and returns its first writer.
fn shelf_writer(alloc: Global, shape: Shape) -> Result<ShelfWriter, BenchFault> {
    let config = config_of(alloc, shape)?;
    Ok(ShelfWriter::create(alloc, config, PLACES, AtLimit::Refuse, MOMENT)?)
}

/// Makes the workers of a new shelf.
fn workers(alloc: Global, shape: Shape) -> Result<Vec<Worker>, BenchFault> {
    let mut workers = vec![in alloc; Worker::Watch]?;
    push_all(alloc, shelf_writer(alloc, shape)?, &mut workers)?;
    Ok(workers)
}

/// Adds the workers of a shelf that has this writer.
fn push_all(
    alloc: Global,
    mut first: ShelfWriter,
    workers: &mut Vec<Worker>,
) -> Result<(), BenchFault> {
    push_others(alloc, &mut first, workers)?;
    push(workers, Worker::Write(first, 0))
}

/// Adds the readers, the takers and the writers but the first one.
fn push_others(
    alloc: Global,
    first: &mut ShelfWriter,
    workers: &mut Vec<Worker>,
) -> Result<(), BenchFault> {
    for _ in 0..READERS {
        push(workers, Worker::Read(first.reader()?))?;
    }
    for _ in 0..TAKERS {
        push(workers, Worker::Take(first.taker(alloc, NAME)?))?;
    }
    for name in 1..WRITERS {
        push(workers, Worker::Write(first.split()?, name))?;
    }
    Ok(())
}

/// Adds what one thread does.
fn push(workers: &mut Vec<Worker>, worker: Worker) -> Result<(), BenchFault> {
    Ok(workers.push(worker)?)
}

/// Does the work of one thread.
fn work<R: AllocGlobal + Clock + Print>(
    rt: &R,
    settings: &Settings,
    tally: &Tally,
    worker: Worker,
) -> Result<Done, BenchFault> {
    match worker {
        Worker::Watch => watch(rt, settings, tally).map(|()| Done::Watched),
        Worker::Write(mut writer, name) => {
            write(rt.alloc(), tally, &mut writer, name).map(Done::Wrote)
        }
        Worker::Read(mut reader) => read(tally, &mut reader).map(Done::Read),
        Worker::Take(mut taker) => take(rt.alloc(), tally, &mut taker).map(Done::Took),
    }
}

/// Prints a line now and then until the time is over or a thread met a fault, and ends the soak.
fn watch<R: AllocGlobal + Clock + Print>(
    rt: &R,
    settings: &Settings,
    tally: &Tally,
) -> Result<(), BenchFault> {
    let start = now(rt)?;
    let step = step_of(settings.soak_time);
    let mut next = step;
    for _ in 0..u64::MAX {
        sleep(rt, next.saturating_sub(since(rt, start)?));
        if look(rt, settings, tally, since(rt, start)?)? {
            break;
        }
        next = next.saturating_add(step);
    }
    tally.end();
    Ok(())
}

/// The time since this moment.
fn since(clock: &impl Clock, start: Instant) -> Result<Duration, BenchFault> {
    Ok(now(clock)?.duration_since(start))
}

/// Prints a line, and returns whether the soak is over.
fn look<R: Print>(
    rt: &R,
    settings: &Settings,
    tally: &Tally,
    spent: Duration,
) -> Result<bool, BenchFault> {
    if !settings.is_trial {
        print_state(rt, tally, spent)?;
    }
    Ok(tally.is_over() || is_done(settings, tally, spent))
}

/// The time from one line to the next. A line comes at the end of the time, and not later than in the middle.
fn step_of(time: Duration) -> Duration {
    Duration::from_secs(EVERY)
        .min(time / 2)
        .max(Duration::from_millis(LEAST_STEP))
}

/// Whether the time is over, and enough was appended.
fn is_done(settings: &Settings, tally: &Tally, spent: Duration) -> bool {
    spent >= settings.soak_time && tally.so_far(Deed::Append) >= LEAST_MESSAGES
}

/// Prints what was done so far.
fn print_state<R: Print>(rt: &R, tally: &Tally, spent: Duration) -> Result<(), BenchFault> {
    let seconds = spent.as_secs();
    let appended = tally.so_far(Deed::Append);
    let read = tally.so_far(Deed::Read);
    let taken = tally.so_far(Deed::Take);
    let queues = tally.queues();
    match println!(rt;
        "{seconds} s: {appended} appended, {read} read, {taken} taken, {queues} queues"
    ) {
        Ok(()) => Ok(()),
        Err(_) => Err(BenchFault::NotPrinted),
    }
}

/// Prints how many messages were appended, and the sum of their numbers.
fn print_appended<R: Print>(rt: &R, wrote: Account) -> Result<(), BenchFault> {
    let Account { count, sum } = wrote;
    match println!(rt; "{WRITERS} writers appended {count} messages; their numbers sum to {sum}") {
        Ok(()) => Ok(()),
        Err(_) => Err(BenchFault::NotPrinted),
    }
}

/// Prints that all messages were read and taken.
fn print_checked<R: Print>(rt: &R) -> Result<(), BenchFault> {
    match println!(rt;
        "{READERS} readers read all of them, each writer's in order; {TAKERS} takers took each once"
    ) {
        Ok(()) => Ok(()),
        Err(_) => Err(BenchFault::NotPrinted),
    }
}

/// Runs writers, readers and takers for a time, and prints what they did.
pub fn print_soak<R: AllocGlobal + Clock + Print + Threads + Sync>(
    rt: &R,
    settings: &Settings,
) -> Result<(), BenchFault> {
    let workers = workers(rt.alloc(), shelf_shape(settings.shape)?)?;
    let tally = Tally::new();
    let threads = map_vec(
        rt,
        workers,
        &|worker: Worker| -> Result<Done, BenchFault> {
            let done = work(rt, settings, &tally, worker);
            // The others end too if this thread met a fault.
            if done.is_err() {
                tally.end();
            }
            done
        },
    )?;
    let totals = Totals::of(rt.alloc(), threads)?;
    if !settings.is_trial {
        print_appended(rt, totals.wrote)?;
    }
    totals.check()?;
    print_checked(rt)
}
