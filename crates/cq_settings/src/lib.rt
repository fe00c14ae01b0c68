//! The settings of a new queue as plain values. Nothing is checked here.
//!
//! They are a crate of their own, so that a new command of the program changes no crate of folders.
#![tactic(auto)]

mod settings;

pub use settings::InitSettings;
