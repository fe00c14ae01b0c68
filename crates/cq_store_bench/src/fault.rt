//! Why nothing was measured.
use cq_endpoint::AppendFault;
use cq_stored::StoreFault;
use std::alloc::{AllocError, AllocFailed};

/// Why nothing was measured.
#[derive(Debug, Drop, thiserror::Error)]
pub enum BenchFault {
    /// No log was made in the folder, or not removed. A file of its name that was there before stays.
    #[error("no log was made in the folder: is there such a folder, may it be written, and has it no file cq_store_bench.log yet?")]
    NoLog,
    /// No queue was opened.
    #[error("no queue was opened")]
    NoQueue,
    /// An append was refused.
    #[error("an append was refused: {0}")]
    Refused(AppendFault),
    /// A message was not stored.
    #[error("a message is not stored: {0}")]
    Unstored(StoreFault),
    /// The clock was not read.
    #[error("the clock was not read")]
    NoClock,
    /// The figures were not printed.
    #[error("the figures were not printed")]
    NotPrinted,
    /// Out of memory.
    #[error("out of memory")]
    OutOfMemory,
}

impl From<AllocError> for BenchFault {
    fn from(_error: AllocError) -> BenchFault {
        BenchFault::OutOfMemory
    }
}

impl<T: Drop> From<AllocFailed<T>> for BenchFault {
    fn from(_error: AllocFailed<T>) -> BenchFault {
        BenchFault::OutOfMemory
    }
}
