//! Measures threads that append messages of 64 bytes to a queue with a log: prints a line of JSON on standard output.
//!
//! The arguments are a folder, the number of threads, how many messages each of them appends in a batch, and for how many seconds. The
//! threads wait until each batch is stored. With a batch of 1 each message is appended by `append_stored`. A word before the folder says
//! otherwise: with `--one-sync` the log has one sync for a batch in place of two; with `--kept` they do not wait, and another thread stores
//! what came; with `--alone` nothing is stored. Without an argument it prints what they are. The exit status is:
//!
//! - 0: all was measured.
//! - 1: it was not.
//! - 2: the arguments are not understood.
//!
//! What is wrong goes to standard error.
#![tactic(auto)]

mod counted_file;
mod fault;
mod figures;
mod queues;
mod rounds;
mod settings;
mod worker;

use crate::fault::BenchFault;
use crate::figures::print_measured;
use crate::rounds::measure;
use crate::settings::{Settings, understood};
use std::fs::File;
use std::process::ExitCode;
use std::rt::{Clock, Env, Files};
use std::sync::Wait;
use std::thread::Threads;
use std::{env, io};

/// All was measured.
const DONE: u8 = 0;

/// It was not.
const FAULT: u8 = 1;

/// The arguments are not understood.
const NOT_UNDERSTOOD: u8 = 2;

/// What the arguments are.
const USAGE: &str =
    "cq_store_bench [--one-sync|--kept|--alone] FOLDER THREADS BATCH SECONDS: appends messages of 64 bytes to a queue with a log in the folder, in 1 to 256 threads, for 1 to 3600 seconds. Each thread appends 1 to 10000 messages and waits until they are stored. With --one-sync the log has one sync for a batch. With --kept it does not wait, and another thread stores them; with --alone nothing is stored.";

fn main(rt: HostRuntime) -> ExitCode {
    ExitCode::from(status(&rt))
}

/// Does what the arguments ask for, and returns the exit status.
fn status<R>(rt: &R) -> u8
where
    R: AllocGlobal + Clock + Env + Files<File = File> + Print + Eprint + Threads + Wait + Sync,
{
    let Ok(words) = words(rt) else {
        let _ = eprintln!(rt; "cq_store_bench: the words are not text");
        return NOT_UNDERSTOOD;
    };
    if words.is_empty() {
        return said(println!(rt; "{USAGE}").is_ok());
    }
    match understood(words.as_slice()) {
        Some((folder, settings)) => ended(rt, print_figures(rt, &settings, folder)),
        None => not_understood(rt),
    }
}

/// The exit status of what was printed or not.
fn said(is_printed: bool) -> u8 {
    if is_printed { DONE } else { FAULT }
}

/// Says what the arguments are.
fn not_understood<R: Eprint>(rt: &R) -> u8 {
    let _ = eprintln!(rt; "cq_store_bench: {USAGE}");
    NOT_UNDERSTOOD
}

/// Prints what is wrong, if anything is, and returns the exit status.
fn ended<R: Eprint>(rt: &R, outcome: Result<(), BenchFault>) -> u8 {
    match outcome {
        Ok(()) => DONE,
        Err(fault) => {
            let _ = eprintln!(rt; "cq_store_bench: {fault}");
            FAULT
        }
    }
}

/// Returns the arguments after the program's name.
fn words<R: AllocGlobal + Env>(rt: &R) -> io::Result<Vec<String>> {
    Ok(env::args(rt)?.skip(1).collect(rt.alloc())?)
}

/// Measures, and prints the figures.
fn print_figures<R>(rt: &R, settings: &Settings, folder: &str) -> Result<(), BenchFault>
where
    R: AllocGlobal + Clock + Files<File = File> + Print + Threads + Wait + Sync,
{
    print_measured(rt, settings, measure(rt, settings, folder)?)
}
