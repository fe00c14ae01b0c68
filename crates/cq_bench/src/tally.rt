//! What the threads of a soak have done, and what one of them saw.
use crate::fault::BenchFault;
use std::sync::atomic::{AtomicBool, AtomicU64, Ordering};

/// How many writers there are.
pub const WRITERS: u64 = 4;

/// After how many messages a thread counts them where others see it.
const BATCH: u64 = 1024;

/// How many messages a thread appended, read or took, and the sum of their numbers.
#[derive(Clone, Copy, PartialEq, Eq)]
pub struct Account {
    pub count: u64,
    pub sum: u64,
}

impl Account {
    /// No message.
    pub const NONE: Account = Account { count: 0, sum: 0 };

    /// Adds a message. The sum wraps.
    pub fn add(&mut self, number: u64) {
        self.count = self.count.saturating_add(1);
        self.sum = self.sum.wrapping_add(number);
    }

    /// Adds those of another thread.
    pub fn join(&mut self, other: Account) {
        self.count = self.count.saturating_add(other.count);
        self.sum = self.sum.wrapping_add(other.sum);
    }
}

/// How many messages of each writer come before the next one of this writer.
#[derive(Drop)]
pub struct Order {
    before: [u64; WRITERS as usize],
}

impl Order {
    /// No message has come.
    pub fn new() -> Order {
        Order {
            before: [0; WRITERS as usize],
        }
    }

    /// Notes that a message has come. Returns how many of its writer were skipped, or `None` if it came out of order.
    fn note(&mut self, number: u64) -> Option<u64> {
        let count = number / WRITERS;
        let before = self.before.get_mut((number % WRITERS) as usize)?;
        let skipped = count.checked_sub(*before)?;
        *before = count.saturating_add(1);
        Some(skipped)
    }

    /// Notes the next message of a reader, which reads each message of each writer.
    pub fn expect_next(&mut self, number: u64) -> Result<(), BenchFault> {
        match self.note(number) {
            Some(0) => Ok(()),
            Some(_) => Err(BenchFault::Missing),
            None => Err(BenchFault::OutOfOrder),
        }
    }

    /// Notes the next message of a taker. Others may have taken some before it.
    pub fn expect_later(&mut self, number: u64) -> Result<(), BenchFault> {
        match self.note(number) {
            Some(_) => Ok(()),
            None => Err(BenchFault::OutOfOrder),
        }
    }
}

/// What threads do with messages.
#[derive(Clone, Copy)]
pub enum Deed {
    Append,
    Read,
    Take,
}

/// How much all threads did so far.
#[derive(Drop)]
pub struct Tally {
    appended: AtomicU64,
    read: AtomicU64,
    taken: AtomicU64,
    /// How many queues have begun.
    queues: AtomicU64,
    /// How many writers have not ended.
    writers: AtomicU64,
    /// Whether the soak is over, so that writers end.
    is_over: AtomicBool,
}

impl Tally {
    /// Nothing was done, and all writers are at work.
    pub fn new() -> Tally {
        Tally {
            appended: AtomicU64::new(0),
            read: AtomicU64::new(0),
            taken: AtomicU64::new(0),
            queues: AtomicU64::new(1),
            writers: AtomicU64::new(WRITERS),
            is_over: AtomicBool::new(false),
        }
    }

    fn counter(&self, deed: Deed) -> &AtomicU64 {
        match deed {
            Deed::Append => &self.appended,
            Deed::Read => &self.read,
            Deed::Take => &self.taken,
        }
    }

    /// How many messages all threads appended, read or took so far. The last ones of each thread may be missing.
    pub fn so_far(&self, deed: Deed) -> u64 {
        self.counter(deed).load(Ordering::SeqCst)
    }

    /// Counts the messages of a thread if those that are not counted yet are a batch. The last one is in the queue with this
    /// number.
    pub fn note(&self, deed: Deed, account: Account, queue: u64) {
        if account.count % BATCH == 0 {
            self.counter(deed).fetch_add(BATCH, Ordering::SeqCst);
            self.queues
                .fetch_max(queue.saturating_add(1), Ordering::SeqCst);
        }
    }

    /// How many queues have begun.
    pub fn queues(&self) -> u64 {
        self.queues.load(Ordering::SeqCst)
    }

    /// Ends the soak.
    pub fn end(&self) {
        self.is_over.store(true, Ordering::SeqCst);
    }

    /// Whether the soak is over, so that writers end.
    pub fn is_over(&self) -> bool {
        self.is_over.load(Ordering::SeqCst)
    }

    /// Notes that a writer has ended. Returns whether it is the last one.
    pub fn is_last_writer(&self) -> bool {
        self.writers.fetch_sub(1, Ordering::SeqCst) == 1
    }
}
