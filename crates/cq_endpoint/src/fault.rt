//! Why calls are refused.
use cq_layout::Refusal;

/// Why nothing was appended or begun, and no cycle reached.
#[derive(Clone, Copy, Debug, PartialEq, Eq, thiserror::Error)]
pub enum AppendFault {
    /// The endpoint has begun a message, which has to be completed or rolled back first.
    #[error("Writing")]
    Writing,
    /// The queue is closed: nothing was appended or begun.
    #[error("Closed")]
    Closed,
    /// Its appender was refused.
    #[error("{0}")]
    Refused(Refusal),
}

/// Why a queue was not closed.
#[derive(Clone, Copy, Debug, PartialEq, Eq, thiserror::Error)]
pub enum CloseFault {
    /// The endpoint has begun a message, which has to be completed or rolled back first.
    #[error("Writing")]
    Writing,
    /// The queue was closed before.
    #[error("Closed")]
    Closed,
    /// Its appender was refused.
    #[error("{0}")]
    Refused(Refusal),
}

/// Why no bytes were put.
#[derive(Clone, Copy, Debug, PartialEq, Eq, thiserror::Error)]
pub enum PutFault {
    /// The endpoint has begun no message.
    #[error("NotWriting")]
    NotWriting,
    /// The bytes would be more than the size for which the message was begun.
    #[error("NoRoom")]
    NoRoom,
}

/// Why no message was completed.
#[derive(Clone, Copy, Debug, PartialEq, Eq, thiserror::Error)]
pub enum CompleteFault {
    /// The endpoint has begun no message.
    #[error("NotWriting")]
    NotWriting,
    /// Nothing was put: a message has at least one byte.
    #[error("EmptyMessage")]
    EmptyMessage,
}

/// The endpoint has begun no message.
#[derive(Clone, Copy, Debug, PartialEq, Eq, thiserror::Error)]
#[error("NotWriting")]
pub struct NotWriting;

/// A position or a cycle is above the end that the endpoint has seen.
#[derive(Clone, Copy, Debug, PartialEq, Eq, thiserror::Error)]
#[error("NotSeen")]
pub struct NotSeen;

/// Why no move of a name was tried.
#[derive(Clone, Copy, Debug, PartialEq, Eq, thiserror::Error)]
pub enum SeekFault {
    /// The new position is above the end that the endpoint has seen.
    #[error("NotSeen")]
    NotSeen,
    /// The queue declares no tailer of this name.
    #[error("NoSuchName")]
    NoSuchName,
}
