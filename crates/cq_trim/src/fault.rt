use cq_text::ToolFault;

/// Why nothing is removed (ours; Chronicle Queue has no rule for it). It prints the text that follows `cq: ` on standard
/// error.
#[derive(Debug, Drop, thiserror::Error)]
pub enum TrimFault {
    /// The command failed.
    #[error("{0}")]
    Tool(ToolFault),
    /// Messages of the cycles that would be dropped are left for this name.
    #[error("messages left: {0}")]
    MessagesLeft(String),
}

impl From<ToolFault> for TrimFault {
    ghost use Rattle.std.specs.Prelude.{◌≡◌};
    ghost use Rattle.cq_trim.specs.declared.fault.TrimFault.TheVariants.{Tool};

    ghost from_gives = { λ cause fault. fault ≡ Tool cause };

    fn from(cause: ToolFault) -> TrimFault {
        TrimFault::Tool(cause)
    }
}
