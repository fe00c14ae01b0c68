//! Why an image is not repaired.
use cq_text::ToolFault;

/// Why the command `repair` failed (ours; Chronicle Queue has no rule for it). It prints the text that follows `cq: ` on
/// standard error.
#[derive(Debug, Drop, thiserror::Error)]
pub enum RepairFault {
    /// The command failed.
    #[error("{0}")]
    Tool(ToolFault),
    /// The image was read, and it is not repaired.
    #[error("{0}")]
    Refused(RepairRefusal),
}

/// Why an image that was read is not repaired (ours).
#[derive(Debug, Drop, thiserror::Error)]
pub enum RepairRefusal {
    /// The file of this name has no fault.
    #[error("nothing to repair: {0} has no fault")]
    NoFault(String),
    /// The old file would get this name, and a file with other bytes has it.
    #[error("there already: {0} has other bytes, so move it away first")]
    ThereAlready(String),
}

impl From<ToolFault> for RepairFault {
    ghost use Rattle.std.specs.Prelude.{◌≡◌};
    ghost use Rattle.cq_repair.specs.declared.fault.RepairFault.TheVariants.{Tool};

    ghost from_gives = { λ cause fault. fault ≡ Tool cause };

    fn from(cause: ToolFault) -> RepairFault {
        RepairFault::Tool(cause)
    }
}
