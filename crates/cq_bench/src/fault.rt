use cq_endpoint::AppendFault;
use cq_layout::Refusal;
use cq_shelf::ShelfFault;
use cq_words::CreateError;
use std::alloc::{AllocError, AllocFailed};

/// Why a case has no figure.
#[derive(Debug, Drop, thiserror::Error)]
pub enum BenchFault {
    /// No queue has this shape.
    #[error("there is no queue of this shape")]
    NoQueue,
    /// The messages of the case do not fit in a cycle.
    #[error("a cycle has no room for the messages")]
    NoRoom,
    /// An append was refused.
    #[error("an append was refused: {0}")]
    Refused(Refusal),
    /// An append of an endpoint was refused.
    #[error("an append was refused: {0}")]
    NotAppended(AppendFault),
    /// A call of a shelf was refused.
    #[error("a call of a shelf was refused: {0}")]
    Shelf(ShelfFault),
    /// A message that was appended was not read.
    #[error("a message is missing")]
    Missing,
    /// A message came twice, or before an earlier one of its writer.
    #[error("a message came twice or out of order")]
    OutOfOrder,
    /// The clock was not read.
    #[error("the clock was not read")]
    NoClock,
    /// The figure was not printed.
    #[error("the figure was not printed")]
    NotPrinted,
    /// Out of memory.
    #[error("OutOfMemory")]
    OutOfMemory,
}

impl From<AllocError> for BenchFault {
    ghost use Rattle.std.specs.Prelude.{◌≡◌};
    ghost use Rattle.cq_bench.specs.declared.fault.BenchFault.TheVariants.{OutOfMemory};

    ghost from_gives = { λ _ fault. fault ≡ OutOfMemory };

    fn from(_error: AllocError) -> BenchFault {
        BenchFault::OutOfMemory
    }
}

impl<T: Drop> From<AllocFailed<T>> for BenchFault {
    fn from(_error: AllocFailed<T>) -> BenchFault {
        BenchFault::OutOfMemory
    }
}

impl From<CreateError> for BenchFault {
    fn from(error: CreateError) -> BenchFault {
        match error {
            CreateError::OutOfMemory => BenchFault::OutOfMemory,
            CreateError::BadMoment | CreateError::BadContents => BenchFault::NoQueue,
        }
    }
}

impl From<AppendFault> for BenchFault {
    fn from(fault: AppendFault) -> BenchFault {
        BenchFault::NotAppended(fault)
    }
}

impl From<ShelfFault> for BenchFault {
    fn from(fault: ShelfFault) -> BenchFault {
        BenchFault::Shelf(fault)
    }
}
