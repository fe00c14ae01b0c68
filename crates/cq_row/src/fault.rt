//! Why calls of a shelf are refused.
use cq_endpoint::{NoSuchName, TakeFault};
use std::alloc::{AllocError, AllocFailed};

/// Why a call of a shelf was refused.
#[derive(Clone, Copy, Debug, PartialEq, Eq, thiserror::Error)]
pub enum ShelfFault {
    /// The writer has begun a message, which has to be completed or rolled back first.
    #[error("Writing")]
    Writing,
    /// No message has this many bytes, or an empty queue of this shelf has no place for it.
    #[error("BadRoom")]
    BadRoom,
    /// The moment lies in no cycle.
    #[error("BadMoment")]
    BadMoment,
    /// Another endpoint is writing, or goes from one queue to the next at the same moment. Try again.
    #[error("Busy")]
    Busy,
    /// As many queues live as may. The slowest writer, reader, taker or name has to go on first, or to be dropped.
    #[error("Full")]
    Full,
    /// The shelf is closed: no message is appended any more.
    #[error("Closed")]
    Closed,
    /// A shelf has at least two queues.
    #[error("BadShelf")]
    BadShelf,
    /// The queues of this shelf declare no such name.
    #[error("NoSuchName")]
    NoSuchName,
    /// Memory was refused.
    #[error("OutOfMemory")]
    OutOfMemory,
}

impl From<AllocError> for ShelfFault {
    ghost use Rattle.std.specs.Prelude.{◌≡◌};
    ghost use Rattle.cq_row.specs.declared.fault.ShelfFault.TheVariants.{OutOfMemory};

    ghost from_gives = { λ _ e. e ≡ OutOfMemory };

    fn from(_error: AllocError) -> ShelfFault {
        ShelfFault::OutOfMemory
    }
}

impl<T: Drop> From<AllocFailed<T>> for ShelfFault {
    ghost use Rattle.std.specs.Prelude.{◌≡◌};
    ghost use Rattle.cq_row.specs.declared.fault.ShelfFault.TheVariants.{OutOfMemory};

    ghost from_gives = { λ _ e. e ≡ OutOfMemory };

    fn from(_error: AllocFailed<T>) -> ShelfFault {
        ShelfFault::OutOfMemory
    }
}

impl From<TakeFault> for ShelfFault {
    ghost use Rattle.std.specs.Prelude.{◌≡◌};
    ghost use Rattle.cq_row.specs.Faults.{fault_of};

    ghost from_gives = { λ fault e. e ≡ fault_of fault };

    fn from(fault: TakeFault) -> ShelfFault {
        match fault {
            TakeFault::NoSuchName => ShelfFault::NoSuchName,
            TakeFault::OutOfMemory => ShelfFault::OutOfMemory,
        }
    }
}

impl From<NoSuchName> for ShelfFault {
    ghost use Rattle.std.specs.Prelude.{◌≡◌};
    ghost use Rattle.cq_row.specs.declared.fault.ShelfFault.TheVariants.{NoSuchName as no_such_name};

    ghost from_gives = { λ _ e. e ≡ no_such_name };

    fn from(_error: NoSuchName) -> ShelfFault {
        ShelfFault::NoSuchName
    }
}
