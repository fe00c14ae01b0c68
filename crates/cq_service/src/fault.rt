//! Why the command `log` ended.
use cq_fold::FoldFault;
use cq_ingest::IngestFault;
use cq_keeper::KeepFault;
use cq_live::LiveFault;
use cq_log_file::OpenFault as PlaceFault;
use std::alloc::AllocError;

/// Why the command `log` ended (ours). Its text is what the program prints after `cq: `.
#[derive(Debug, Drop, thiserror::Error)]
pub enum ServiceFault {
    /// No queue was opened to stay open.
    #[error(transparent)]
    Live(LiveFault),
    /// No more lines were taken in.
    #[error(transparent)]
    Ingest(IngestFault),
    /// The folder holds something else than the queue that is kept open.
    #[error("the folder holds something else than the queue: all lines with an index were in its queue.log")]
    OtherQueue,
    /// All lines that were acknowledged are stored in the log, which was not saved in the images.
    #[error("{0}: all lines with an index are in queue.log, and once this is mended the next command that may write saves them")]
    Unsaved(FoldFault),
    /// Out of memory before the folder was opened.
    #[error("want of memory")]
    OutOfMemory,
}

impl From<LiveFault> for ServiceFault {
    ghost use Rattle.std.specs.Prelude.{◌≡◌};
    ghost use Rattle.cq_service.specs.Services.{of_live};

    ghost from_gives = { λ cause fault. fault ≡ of_live cause };

    fn from(cause: LiveFault) -> ServiceFault {
        match cause {
            // The log that was saved is not in its place yet: the save lacked memory for that, and the next start does it.
            LiveFault::Place(PlaceFault::Missing | PlaceFault::Locked | PlaceFault::Moved) => {
                ServiceFault::Live(LiveFault::Changed)
            }
            cause => ServiceFault::Live(cause),
        }
    }
}

impl From<IngestFault> for ServiceFault {
    ghost use Rattle.std.specs.Prelude.{◌≡◌};
    ghost use Rattle.cq_service.specs.Services.{of_ingest};

    ghost from_gives = { λ cause fault. fault ≡ of_ingest cause };

    fn from(cause: IngestFault) -> ServiceFault {
        match cause {
            // Its own text is for code that makes turns.
            IngestFault::Keep(KeepFault::OutOfMemory) => {
                ServiceFault::Ingest(IngestFault::OutOfMemory)
            }
            cause => ServiceFault::Ingest(cause),
        }
    }
}

impl From<AllocError> for ServiceFault {
    ghost use Rattle.std.specs.Prelude.{◌≡◌};
    ghost use Rattle.cq_service.specs.declared.fault.ServiceFault.TheVariants.{OutOfMemory};

    ghost from_gives = { λ _ fault. fault ≡ OutOfMemory };

    fn from(_error: AllocError) -> ServiceFault {
        ServiceFault::OutOfMemory
    }
}
