//! The text of the file `queue.cqc`: what it keeps of a queue is all but the cycles.
ghost use Rattle.std.specs.Prelude.{◌<◌, ◌^◌, IfErr, IfOk, IsErr, length};
ghost use Rattle.cq_config_text.specs.ConfigFault.{RefusesText};
ghost use Rattle.cq_config_text.specs.ConfigText.{IsTextOf};
ghost use Rattle.cq_saved.specs.Texts.{CanBeWritten, IsTextFault, IsReadFrom};

use crate::fault::TextFault;
use crate::saved::Saved;
use cq_config_text::{ConfigFault, SavedConfig, read_config, write_config};
use cq_cycle::LAST_CYCLE;
use cq_model::{Contents, Items};
use std::alloc::Global;

impl Saved {
    /// Reads the text of `queue.cqc`, and makes a queue without cycles of it, with the positions and the floor that it gives.
    /// `read_config` says what the text is. Errors:
    ///
    /// - `Line`: a line is not one of the format in its place.
    /// - `BadShape`, `BadConfig`: a setting, a name or the floor is outside its limits.
    /// - `OutOfMemory`: out of memory. It can come before each other error.
    pub fn read_config(alloc: Global, text: &[u8]) -> Result<Saved, ConfigFault>
        ensures read { IfOk result (IsReadFrom text.now) }
        ensures refused { IfErr result (λ fault. RefusesText fault text.now) }
    {
        match read_config(alloc, text) {
            Ok(
                SavedConfig {
                    config,
                    positions,
                    floor,
                },
            ) => Ok(Saved {
                config,
                contents: Contents {
                    lists: Items::new(Vec::new(alloc)),
                    positions: Items::new(positions),
                    floor,
                },
                is_open: false,
            }),
            Err(fault) => Err(fault),
        }
    }

    /// Returns the text of `queue.cqc` with these settings, positions and floor. `read_config` reads them from it again.
    /// Errors:
    ///
    /// - `BadContents`: the floor is above `LAST_CYCLE`, or there are not as many positions as names.
    /// - `OutOfMemory`: out of memory, for the text.
    pub fn config_text(&self, alloc: Global) -> Result<Vec<u8>, TextFault>
        ensures text { IfOk result (λ text.
            IsTextOf self.now.settings self.now.contents.positions self.now.contents.floor text.items) }
        ensures bound { IfOk result (λ text. length text.items < 2 ^ 32) }
        ensures fault { IfErr result (IsTextFault self.now) }
        ensures only { ¬ CanBeWritten self.now → IsErr result }
    {
        let positions = self.contents.positions.as_slice();
        if positions.len() != self.config.names().len() || self.contents.floor > LAST_CYCLE {
            return Err(TextFault::BadContents);
        }
        match write_config(alloc, &self.config, positions, self.contents.floor) {
            Ok(text) => Ok(text),
            Err(_) => Err(TextFault::OutOfMemory),
        }
    }
}
