//! Names of tailers.
ghost use Rattle.cq_foreign.specs.Names.{CopiesTailer};

use crate::copying::{Copied, copy_into};
use cq_model::Config;

/// Copies the name that was declared as the `k`th, counted from 0, to the front of a buffer. Returns `None` if fewer names are
/// declared; the buffer is as it was then.
pub fn tailer_into(config: &Config, k: usize, room: &mut [u8]) -> Option<Copied>
    ensures { CopiesTailer config.now.names k room.old room.new result }
{
    let name = config.names().get(k)?;
    Some(copy_into(name.as_bytes(), room))
}
