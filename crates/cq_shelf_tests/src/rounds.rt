//! Rounds of a new shelf: threads append, read and take all messages, and the shelf is closed.
use crate::appending::Appending;
use crate::numbers::{Dice, Numbered, Tally, Trouble, WRITERS};
use crate::reading::Reading;
use crate::taking::Taking;
use cq_fixtures::config_of;
use cq_layout::Shape;
use cq_shelf::{AtLimit, ShelfFault, ShelfWriter};
use std::alloc::Global;
use std::sync::atomic::{AtomicU64, Ordering};
use std::test::Fail;
use std::thread::{Threads, map_vec};

/// How many readers there are.
const READERS: usize = 4;

/// How many takers there are.
const TAKERS: usize = 2;

/// The shelf and the messages of a round.
#[derive(Clone, Copy)]
pub struct Course {
    /// The shape of each queue, which has one cycle.
    pub shape: Shape,
    /// How many queues live at once.
    pub most: u32,
    /// What happens where a new queue would be one more.
    pub at_limit: AtLimit,
    /// How many messages each writer appends.
    pub each: u32,
    /// How many bytes each message has, at least 4.
    pub len: usize,
    /// About once in this many calls an endpoint is dropped, and another goes on in its place.
    pub every: u32,
    /// What differs from one round to the next.
    pub seed: u64,
}

/// What the threads of a round share.
#[derive(Drop)]
pub struct Round {
    pub alloc: Global,
    /// How many messages each writer appends.
    pub each: u32,
    /// How many bytes each message has.
    pub len: usize,
    /// About once in this many calls an endpoint is dropped, and another goes on in its place.
    pub every: u32,
    /// Whether queues may be missed.
    pub may_miss: bool,
    /// How many writers still append.
    writers: AtomicU64,
    /// How many threads have found trouble.
    troubles: AtomicU64,
    /// How often each message was taken.
    taken: Vec<AtomicU64>,
}

/// What a thread does.
#[derive(Drop)]
enum Worker {
    Append(Appending),
    Read(Reading),
    Take(Taking),
}

/// A thread of a round, and the seed of what it does now and then.
#[derive(Drop)]
struct Job {
    worker: Worker,
    seed: u64,
}

impl Round {
    fn new(alloc: Global, course: &Course) -> Result<Round, Fail> {
        let mut taken = Vec::new(alloc);
        for _ in 0..u64::from(WRITERS) * u64::from(course.each) {
            taken.push(AtomicU64::new(0))?;
        }
        Ok(Round {
            alloc,
            each: course.each,
            len: course.len,
            every: course.every,
            may_miss: course.at_limit == AtLimit::DropOldest,
            writers: AtomicU64::new(u64::from(WRITERS)),
            troubles: AtomicU64::new(0),
            taken,
        })
    }

    /// Whether a thread has found trouble.
    pub fn is_stopped(&self) -> bool {
        self.troubles.load(Ordering::SeqCst) != 0
    }

    /// A writer has appended all its messages. Returns whether all others have.
    pub fn is_last_writer(&self) -> bool {
        self.writers.fetch_sub(1, Ordering::SeqCst) == 1
    }

    /// A buffer for a message.
    pub fn buffer(&self) -> Result<Vec<u8>, Trouble> {
        Vec::from_elem(self.alloc, 0, self.len).map_err(|_| Trouble::Refused(
            ShelfFault::OutOfMemory,
        ))
    }

    /// A message is taken, for the first time.
    pub fn mark(&self, message: &Numbered) -> Result<(), Trouble> {
        match self.taken.get(message.place(self.each)) {
            Some(taken) if taken.fetch_add(1, Ordering::SeqCst) == 0 => Ok(()),
            Some(_) => Err(Trouble::Twice),
            None => Err(Trouble::Damaged),
        }
    }

    /// What a thread counts.
    fn work(&self, job: Job) -> Result<Tally, Trouble> {
        let Job { worker, seed } = job;
        let mut dice = Dice::new(seed);
        let result = match worker {
            Worker::Append(thread) => self.append_all(thread, &mut dice),
            Worker::Read(thread) => self.read_all(thread, &mut dice),
            Worker::Take(thread) => self.take_all(thread, &mut dice),
        };
        if result.is_err() {
            self.troubles.fetch_add(1, Ordering::SeqCst);
        }
        result
    }
}

/// The takers of a shelf. One makes others by itself, and one by a writer that appends nothing.
fn takers(alloc: Global, first: &mut ShelfWriter) -> Result<Vec<Worker>, Fail> {
    let mut takers = Vec::new(alloc);
    takers.push(Worker::Take(Taking {
        taker: first.taker(alloc, "reader")?,
        maker: None,
    }))?;
    takers.push(Worker::Take(Taking {
        taker: first.taker(alloc, "reader")?,
        maker: Some(first.split()?),
    }))?;
    Ok(takers)
}

/// The threads of a round over a new shelf: the readers, the takers, and the writers.
fn workers(alloc: Global, course: &Course) -> Result<Vec<Worker>, Fail> {
    let config = config_of(alloc, course.shape, 1)?;
    let mut first = ShelfWriter::create(alloc, config, course.most, course.at_limit, 0)?;
    let mut workers = Vec::new(alloc);
    for _ in 0..READERS {
        let reader = first.reader()?;
        workers.push(Worker::Read(Reading { reader }))?;
    }
    for taker in takers(alloc, &mut first)? {
        workers.push(taker)?;
    }
    for name in 1..WRITERS {
        let writer = first.split()?;
        workers.push(Worker::Append(Appending { writer, name }))?;
    }
    workers.push(Worker::Append(Appending {
        writer: first,
        name: 0,
    }))?;
    Ok(workers)
}

/// The threads of a round, each with its seed.
fn jobs(alloc: Global, course: &Course) -> Result<Vec<Job>, Fail> {
    let mut jobs = Vec::new(alloc);
    for (number, worker) in workers(alloc, course)?.into_iter().enumerate() {
        jobs.push(Job {
            worker,
            seed: course.seed.wrapping_mul(101).wrapping_add(number as u64),
        })?;
    }
    Ok(jobs)
}

/// What threads counted together, or the trouble that one of them found first.
fn sum_of(results: &[Result<Tally, Trouble>]) -> Result<Tally, Trouble> {
    let mut sum = Tally::NONE;
    for result in results {
        sum = sum.plus((*result)?);
    }
    Ok(sum)
}

/// The trouble that a thread found, but for those that stopped as another had found some.
fn trouble_of(results: &[Result<Tally, Trouble>]) -> Option<Trouble> {
    results
        .iter()
        .filter_map(|found| (*found).err())
        .find(|trouble| *trouble != Trouble::Stopped)
}

/// What was appended, read by each reader, and taken.
fn compared_text(
    alloc: Global,
    round: &Round,
    results: &[Result<Tally, Trouble>],
) -> Result<String, Fail> {
    let (read, others) = results.split_at(READERS.min(results.len()));
    let (taken, appended) = others.split_at(TAKERS.min(others.len()));
    let (Ok(appended), Ok(taken)) = (sum_of(appended), sum_of(taken)) else {
        return Err(Fail::new("a thread found trouble"));
    };
    if round.may_miss {
        let are_fewer = taken.count <= appended.count;
        return Ok(format!(in alloc; "{} appended, no more taken: {are_fewer}", appended.count)?);
    }
    let are_read = read.iter().all(|tally| *tally == Ok(appended));
    let are_taken = taken == appended;
    let count = appended.count;
    Ok(format!(in alloc; "{count} appended, all read: {are_read}, all taken: {are_taken}")?)
}

/// What the threads of a round came to: whether each reader read all that was appended, and whether it was taken. Where queues are
/// dropped readers have looked that no message is missing but those of queues that they missed.
pub fn round_text<R: Threads + Sync>(
    rt: &R,
    alloc: Global,
    course: &Course,
) -> Result<String, Fail> {
    let jobs = jobs(alloc, course)?;
    let round = Round::new(alloc, course)?;
    let results = map_vec(
        rt,
        jobs,
        &|job: Job| -> Result<Tally, Trouble> { round.work(job) },
    )?;
    match trouble_of(results.as_slice()) {
        Some(trouble) => Ok(format!(in alloc; "{trouble:?}")?),
        None => compared_text(alloc, &round, results.as_slice()),
    }
}
