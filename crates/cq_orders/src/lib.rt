//! The commands of the program `cq` as plain values. Nothing is checked here.
//!
//! `Order` is a command with its values. The settings of `init` are in `InitSettings`, those of `read` in `ReadSettings` with
//! `ReadForm`, those of `log` in `LogSettings`, those of `trim` in `TrimSettings`, those of `new` in `NewSettings`, those of a `take`
//! with options in `TakeSettings`, and those of a `write` with options in `WriteSettings` with `InputForm`. `NameChange` is what
//! `name` does.
//! `cq_command_line` makes an `Order` from the words of a command line. `cq_running` runs a plain one, and `cq_program` and `cq_tools`
//! the others.
#![tactic(auto)]

mod order;
mod settings;

pub use cq_settings::InitSettings;
pub use order::Order;
pub use settings::{
    InputForm, LogSettings, NameChange, NewSettings, ReadForm, ReadSettings, TakeSettings,
    TrimSettings, WriteSettings,
};
