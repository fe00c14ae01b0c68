//! Why the log of a folder keeps a command out.
use cq_fold::FoldFault;
use cq_folder::FolderFault;
use cq_log_file::OpenFault;
use cq_text::ToolFault;

/// Why the log of a folder keeps a command out (ours).
#[derive(Debug, Drop, thiserror::Error)]
pub enum LogFault {
    /// A queue is live in the folder, and the command may write.
    #[error("a queue is live in this folder: wait until it is closed, or close it")]
    InUse,
    /// It could not be found out whether a queue is live in the folder.
    #[error("the log is not opened: {0}")]
    Lock(OpenFault),
    /// The folder has a log with bytes, and no queue.
    #[error("this folder has a log, queue.log, and no queue: restore queue.cqc and the images, or move the log away")]
    NoQueue,
    /// The log is at fault or goes on from other images, or the queue of the images could not be opened, or the log could not be folded.
    #[error("{0}")]
    Fold(FoldFault),
    /// A command that only reads sees the files without the log, since the queue of the images cannot be opened. It keeps none out.
    #[error("the log is not shown: {0}")]
    NotShown(ToolFault),
}

/// Why a command did not enter a folder.
#[derive(Debug, Drop)]
pub(crate) enum EntryFault {
    /// The folder failed, or out of memory.
    Folder(FolderFault),
    /// The log keeps it out.
    Log(LogFault),
}

impl From<FolderFault> for EntryFault {
    ghost use Rattle.std.specs.Prelude.{◌≡◌};
    ghost use Rattle.cq_logged.specs.declared.fault.EntryFault.TheVariants.{Folder};

    ghost from_gives = { λ cause fault. fault ≡ Folder cause };

    fn from(cause: FolderFault) -> EntryFault {
        EntryFault::Folder(cause)
    }
}

impl From<FoldFault> for EntryFault {
    ghost use Rattle.std.specs.Prelude.{◌≡◌};
    ghost use Rattle.cq_logged.specs.Faults.{of_fold};

    ghost from_gives = { λ cause fault. fault ≡ of_fold cause };

    fn from(cause: FoldFault) -> EntryFault {
        match cause {
            FoldFault::OutOfMemory => EntryFault::Folder(FolderFault::OutOfMemory),
            FoldFault::Folder(ToolFault::NoQueueHere) => EntryFault::Log(LogFault::NoQueue),
            cause => EntryFault::Log(LogFault::Fold(cause)),
        }
    }
}
