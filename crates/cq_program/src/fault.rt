//! Why a start of the program failed.
use cq_logged::LogFault;
use cq_names::NameFault;
use cq_points::ClockFault;
use cq_repair::RepairFault;
use cq_text::ToolFault;
use cq_trim::TrimFault;
use std::alloc::AllocError;

/// Why a start of the program failed (ours). Its text is what the program prints after `cq: `.
#[derive(Debug, Drop, thiserror::Error)]
pub(crate) enum StartFault {
    /// The command failed.
    #[error(transparent)]
    Tool(ToolFault),
    /// Nothing is removed from the folder.
    #[error(transparent)]
    Trim(TrimFault),
    /// The names of the queue are not printed or changed.
    #[error(transparent)]
    Names(NameFault),
    /// No image is repaired.
    #[error(transparent)]
    Repair(RepairFault),
    /// No fault has the words that are to be explained.
    #[error("no fault has these words: 'cq explain' alone prints them all")]
    UnknownFault,
    /// The log of the folder keeps the command out.
    #[error(transparent)]
    Log(LogFault),
    /// The time of the clock is no moment of messages.
    #[error(transparent)]
    Clock(ClockFault),
}

impl From<ToolFault> for StartFault {
    fn from(cause: ToolFault) -> StartFault {
        StartFault::Tool(cause)
    }
}

impl From<TrimFault> for StartFault {
    fn from(cause: TrimFault) -> StartFault {
        StartFault::Trim(cause)
    }
}

impl From<NameFault> for StartFault {
    fn from(cause: NameFault) -> StartFault {
        StartFault::Names(cause)
    }
}

impl From<RepairFault> for StartFault {
    fn from(cause: RepairFault) -> StartFault {
        StartFault::Repair(cause)
    }
}

impl From<ClockFault> for StartFault {
    fn from(cause: ClockFault) -> StartFault {
        StartFault::Clock(cause)
    }
}

impl From<AllocError> for StartFault {
    fn from(_error: AllocError) -> StartFault {
        StartFault::Tool(ToolFault::OutOfMemory)
    }
}
