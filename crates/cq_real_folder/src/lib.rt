//! The folder of a queue as a folder of the system, with the calls of `cq_folder`.
//!
//! It has one public item, `RealFolder`. A command locks the folder as a whole, if the system has locks on folders.
//! A file gets its new bytes as a whole, and several files are saved together or not at all. A record in the file
//! `queue.save` says which renames are still to do.
#![tactic(auto)]

mod real;
mod record;
mod saving;

pub use real::RealFolder;
