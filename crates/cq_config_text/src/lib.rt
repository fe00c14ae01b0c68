//! The text of the file `queue.cqc`. It keeps the settings of a queue, the positions of its tailers, and its floor, below
//! which reads skip all cycles. This crate reads and writes the text, and knows no folder.
//!
//! | item | what it is for |
//! |---|---|
//! | `write_config`, `read_config` | write the text, and read it again |
//! | `SavedConfig` | what the text keeps |
//! | `WantedConfig` | settings before their limits are checked |
//! | `ConfigFault` | why a text gives no configuration: its first faulty line, or a limit |
//! | `laws` | laws and worked examples of the text |
#![tactic(auto)]

mod config_fault;
mod config_text;
mod config_writing;
pub mod laws;
mod lines;
mod wanted;
mod words;

pub use config_fault::ConfigFault;
pub use config_text::{SavedConfig, read_config};
pub use config_writing::write_config;
pub use wanted::WantedConfig;
