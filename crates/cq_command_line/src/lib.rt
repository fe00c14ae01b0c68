//! The command line of the program `cq`. `parse` makes an `Order` from its words, and `ParseFault` says why there is
//! none.
//!
//! Nothing is run here. This crate finds what is wrong with the words; a command finds what is wrong with its order.
#![tactic(auto)]

mod arguments;
mod command_line;
mod commands;
mod orders;
mod parsing;

pub use parsing::{ParseFault, parse};
