ghost use Rattle.std.specs.Prelude.{◌≡◌};
ghost use Rattle.cq_text.specs.declared.fault.ToolFault.TheVariants.{OutOfMemory};

use cq_config_text::ConfigFault;
use cq_image::ImageFault;
use cq_model::Refusal;
use std::alloc::{AllocError, AllocFailed};

/// Why a command failed. It prints the text that follows `cq: ` on standard error. Lines are counted from 1.
#[derive(Debug, Drop, thiserror::Error)]
pub enum ToolFault {
    /// Out of memory: a growth was refused.
    #[error("want of memory")]
    OutOfMemory,
    /// Standard input could not be read, or did not end.
    #[error("read fault")]
    ReadFault,
    /// The input has more bytes than the command takes.
    #[error("input too long")]
    InputTooLong,
    /// The line is past the last one that the command takes.
    #[error("line {0}: too many")]
    TooMany(u64),
    /// The message of the line was refused.
    #[error("line {0}: {1}")]
    Refused(u64, Refusal),
    /// The line has more bytes than the command takes.
    #[error("line {0}: too long")]
    TooLong(u64),
    /// The folder could not be listed.
    #[error("folder fault")]
    FolderFault,
    /// The file could not be read or written.
    #[error("file fault: {0}")]
    FileFault(String),
    /// The file has more bytes than a command reads.
    #[error("file too large: {0}")]
    FileTooLarge(String),
    /// The folder has no `queue.cqc`.
    #[error("no queue here")]
    NoQueueHere,
    /// The folder has a `queue.cqc` already.
    #[error("queue there already")]
    QueueThereAlready,
    /// This line of `queue.cqc` is not of its format.
    #[error("queue.cqc: line {0}")]
    ConfigLine(u64),
    /// The file's name ends with `.cqi` and names no cycle.
    #[error("{0}: bad cycle name")]
    BadCycleName(String),
    /// The folder has no image of that name.
    #[error("no such file: {0}")]
    NoSuchFile(String),
    /// The file is not the image of its cycle.
    #[error("{0}: {1}")]
    FaultyImage(String, ImageFault),
    /// The image is open but not the last, or ended but the last.
    #[error("{0}: wrong end")]
    WrongEnd(String),
    /// An index is not 16 lower-case hexadecimal digits.
    #[error("BadIndex")]
    BadIndex,
    /// A measure is outside the limits of a shape.
    #[error("BadShape")]
    BadShape,
    /// No queue with these settings holds what the images and the positions of the names say.
    #[error("BadContents")]
    BadContents,
    /// The queue declares no such name.
    #[error("NoSuchName")]
    NoSuchName,
    /// One of the images that were checked is faulty.
    #[error("images at fault")]
    ImagesAtFault,
    /// The settings are outside the limits, or the word names no roll.
    #[error("BadConfig")]
    BadConfig,
    /// The folder is of version 1, which no command changes except the one that makes it version 2.
    #[error("OldVersion")]
    OldVersion,
    /// The moment lies in no cycle.
    #[error("BadMoment")]
    BadMoment,
    /// A worker of a race gave up, for example because the gate refused it.
    #[error("gave up")]
    GaveUp,
    /// Standard output could not be written.
    #[error("write fault")]
    WriteFault,
}

impl From<AllocError> for ToolFault {
    ghost from_gives = { λ _ fault. fault ≡ OutOfMemory };

    fn from(_error: AllocError) -> ToolFault {
        ToolFault::OutOfMemory
    }
}

impl<T: Drop> From<AllocFailed<T>> for ToolFault {
    ghost use Rattle.cq_text.specs.declared.fault.ToolFault.TheVariants.{OutOfMemory};

    ghost from_gives = { λ _ fault. fault ≡ OutOfMemory };

    fn from(_error: AllocFailed<T>) -> ToolFault {
        ToolFault::OutOfMemory
    }
}

impl From<ConfigFault> for ToolFault {
    ghost use Rattle.cq_text.specs.Faults.{config_fault};

    ghost from_gives = { λ cause fault. fault ≡ config_fault cause };

    fn from(cause: ConfigFault) -> ToolFault {
        match cause {
            ConfigFault::OutOfMemory => ToolFault::OutOfMemory,
            ConfigFault::Line(number) => ToolFault::ConfigLine(number),
            ConfigFault::BadShape => ToolFault::BadShape,
            ConfigFault::BadConfig => ToolFault::BadConfig,
        }
    }
}
