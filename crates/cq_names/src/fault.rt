//! Why the names of a queue are not printed or changed.
use cq_cycle::Index;
use cq_text::ToolFault;

/// Why the command `name` failed (ours; Chronicle Queue has no rule for it). It prints the text that follows `cq: ` on
/// standard error.
#[derive(Debug, Drop, thiserror::Error)]
pub enum NameFault {
    /// The command failed.
    #[error("{0}")]
    Tool(ToolFault),
    /// The queue can be opened, and the change is refused.
    #[error("{0}")]
    Refused(NameRefusal),
}

/// Why a change of the names of a queue is refused (ours).
#[derive(Clone, Copy, Debug, Drop, thiserror::Error)]
pub enum NameRefusal {
    /// No tailer may be called so.
    #[error("bad name: a name has 1 to 32 bytes of A-Z, a-z, 0-9, '_', '-' and '.'")]
    BadName,
    /// The queue has the name already.
    #[error("name there already")]
    ThereAlready,
    /// The queue has as many names as it may have.
    #[error("too many names: a queue has at most 16")]
    TooManyNames,
    /// The queue has no such name.
    #[error("NoSuchName")]
    NoSuchName,
    /// The position is past the end of the queue, which is here.
    #[error("past the end, which is {0}")]
    PastEnd(Index),
}

impl From<ToolFault> for NameFault {
    ghost use Rattle.std.specs.Prelude.{◌≡◌};
    ghost use Rattle.cq_names.specs.declared.fault.NameFault.TheVariants.{Tool};

    ghost from_gives = { λ cause fault. fault ≡ Tool cause };

    fn from(cause: ToolFault) -> NameFault {
        NameFault::Tool(cause)
    }
}
