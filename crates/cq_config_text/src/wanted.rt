//! The settings of a queue before their limits are checked.

ghost use Rattle.std.specs.Prelude.{◌≡◌, ◌≢◌, IfErr, IfOk, MatchOption};
ghost use Rattle.cq_layout.specs.Layout.{IsLawfulLayout};
ghost use Rattle.cq_model.specs.Settings.{IsLawfulSettings, texts};
ghost use Rattle.cq_config_text.specs.ConfigFault.{RefusesSettings};
ghost use Rattle.cq_config_text.specs.Written.{settings_in, wanted_layout};

use crate::config_fault::ConfigFault;
use cq_cycle::Roll;
use cq_layout::{FolderVersion, Layout, Shape};
use cq_model::Config;
use cq_origin::origin_of;

/// The settings that a queue is to have, without the names of its tailers. They may be outside the limits.
#[derive(Clone, Copy)]
pub struct WantedConfig {
    /// The version of the folder.
    pub version: FolderVersion,
    /// How long a cycle is.
    pub roll: Roll,
    /// When cycle 0 begins, in milliseconds of Unix time.
    pub epoch: u64,
    /// The cells of a cycle, of four bytes each.
    pub cells: u64,
    /// The entries of an index table.
    pub index_count: u64,
    /// One message in this many has an entry in the index.
    pub index_spacing: u64,
    /// How many cycles may begin.
    pub cycles: u64,
}

impl WantedConfig {
    /// Returns the configuration with these settings and names, if they are within the limits.
    ///
    /// Errors:
    /// - `BadShape`: the measures are outside the limits of a shape. The names are dropped.
    /// - `BadConfig`: another setting or a name is outside the limits of a configuration. The names are dropped.
    pub fn config(self, names: Vec<String>) -> Result<Config, ConfigFault>
        ensures accepted { IfOk result (λ config. (config ≡ settings_in self (texts names.items))
            × IsLawfulSettings (settings_in self (texts names.items))) }
        ensures refused { IfErr result (λ fault. RefusesSettings fault (settings_in self (texts names.items))) }
        ensures known { IfErr result (λ fault. fault ≢ ConfigFault.OutOfMemory) }
    {
        let Some(layout) = self.layout() else {
            return Err(ConfigFault::BadShape);
        };
        let Some(cycles) = u32::try_from(self.cycles).ok() else {
            return Err(ConfigFault::BadConfig);
        };
        match Config::of_layout(layout, cycles, self.roll, self.epoch, names) {
            Ok(config) => Ok(config),
            Err(_bad) => Err(ConfigFault::BadConfig),
        }
    }

    /// Returns the layout with these measures, if they are within the limits of a shape.
    fn layout(self) -> Option<Layout>
        ensures { MatchOption result (¬ IsLawfulLayout (wanted_layout self))
            (λ lawful. (lawful ≡ wanted_layout self) × IsLawfulLayout (wanted_layout self)) }
    {
        let cells = u32::try_from(self.cells).ok()?;
        let index_count = u32::try_from(self.index_count).ok()?;
        let index_spacing = u32::try_from(self.index_spacing).ok()?;
        let shape = Shape::new(cells, index_count, index_spacing).ok()?;
        let layout = Layout::new(shape, self.version.store(origin_of(self.roll, self.epoch)));
        // The readers of a layout ensure that it is lawful.
        let _cells = layout.cells();
        Some(layout)
    }
}
