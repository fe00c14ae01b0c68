ghost use Rattle.std.specs.Prelude.{◌≡◌};

use std::alloc::{AllocError, AllocFailed};

/// Why the text of `queue.cqc` gives no configuration (ours; Chronicle Queue has no rule for it). The syntax of the
/// whole text is checked before any limit.
#[derive(Clone, Copy, Debug, PartialEq, Eq, thiserror::Error)]
pub enum ConfigFault {
    /// Out of memory: a growth was refused.
    #[error("want of memory")]
    OutOfMemory,
    /// The line with this number, counted from 1, is the first that is not one whole line of the format in its place. A
    /// line includes its line feed. A text that ends too early is reported by the line after its last line feed.
    #[error("line {0}")]
    Line(u64),
    /// The cells, the index count or the index spacing is outside the limits of a shape.
    #[error("BadShape")]
    BadShape,
    /// Another setting, or a name, is outside the limits of a configuration.
    #[error("BadConfig")]
    BadConfig,
}

impl From<AllocError> for ConfigFault {
    ghost use Rattle.cq_config_text.specs.declared.config_fault.ConfigFault.TheVariants.{OutOfMemory};

    ghost from_gives = { λ _ fault. fault ≡ OutOfMemory };

    fn from(_error: AllocError) -> ConfigFault {
        ConfigFault::OutOfMemory
    }
}

impl<T: Drop> From<AllocFailed<T>> for ConfigFault {
    ghost use Rattle.cq_config_text.specs.declared.config_fault.ConfigFault.TheVariants.{OutOfMemory};

    ghost from_gives = { λ _ fault. fault ≡ OutOfMemory };

    fn from(_error: AllocFailed<T>) -> ConfigFault {
        ConfigFault::OutOfMemory
    }
}
