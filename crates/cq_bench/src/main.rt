//! Measures a queue: prints a line of JSON for each figure on standard output.
//!
//! Each argument is a case, `all`, `soak` or `trial`. Without an argument it prints the list of these. The exit
//! status is:
//!
//! - 0: all was measured.
//! - 1: a case failed.
//! - 2: an argument or an environment variable is not understood.
//!
//! What is wrong goes to standard error.
#![tactic(auto)]

mod appending;
mod cases;
mod crews;
mod fault;
mod figures;
mod growing;
mod pings;
mod queues;
mod random;
mod reading;
mod running;
mod saving;
mod settings;
mod shelves;
mod soak;
mod tally;
mod workers;

use crate::cases::{WORDS, Word, print_all, print_case, word_of};
use crate::fault::BenchFault;
use crate::settings::Settings;
use crate::soak::print_soak;
use std::process::ExitCode;
use std::rt::{Clock, Env};
use std::thread::Threads;
use std::{env, io};

/// All was measured.
const DONE: u8 = 0;

/// A case failed.
const FAULT: u8 = 1;

/// An argument or an environment variable is not understood.
const NOT_UNDERSTOOD: u8 = 2;

fn main(rt: HostRuntime) -> ExitCode {
    ExitCode::from(status(&rt))
}

/// Does what the arguments ask for, and returns the exit status.
fn status<R>(rt: &R) -> u8
where
    R: AllocGlobal + Clock + Env + Print + Eprint + Threads + Sync,
{
    match words(rt) {
        Ok(words) => status_of(rt, words.as_slice()),
        Err(_) => {
            let _ = eprintln!(rt; "cq_bench: the words are not text");
            NOT_UNDERSTOOD
        }
    }
}

/// Does what these arguments ask for, and returns the exit status.
fn status_of<R>(rt: &R, words: &[String]) -> u8
where
    R: AllocGlobal + Clock + Env + Print + Eprint + Threads + Sync,
{
    for word in words {
        if word_of(word.as_str()).is_none() {
            let _ = eprintln!(rt; "cq_bench: there is no case {word}");
            return NOT_UNDERSTOOD;
        }
    }
    match Settings::of_environment(rt) {
        Ok(settings) => ended(rt, print_words(rt, &settings, words)),
        Err(fault) => {
            let _ = eprintln!(rt; "cq_bench: {fault}");
            NOT_UNDERSTOOD
        }
    }
}

/// Prints what is wrong, if anything is, and returns the exit status.
fn ended<R: Eprint>(rt: &R, outcome: Result<(), BenchFault>) -> u8 {
    match outcome {
        Ok(()) => DONE,
        Err(fault) => {
            let _ = eprintln!(rt; "cq_bench: {fault}");
            FAULT
        }
    }
}

/// Returns the arguments after the program's name.
fn words<R: AllocGlobal + Env>(rt: &R) -> io::Result<Vec<String>> {
    Ok(env::args(rt)?.skip(1).collect(rt.alloc())?)
}

/// Measures what each argument says. If there is none, prints the list of cases.
fn print_words<R>(rt: &R, settings: &Settings, words: &[String]) -> Result<(), BenchFault>
where
    R: AllocGlobal + Clock + Print + Threads + Sync,
{
    if words.is_empty() {
        return print_help(rt);
    }
    for word in words {
        print_word(rt, settings, word.as_str())?;
    }
    Ok(())
}

/// Measures what an argument says.
fn print_word<R>(rt: &R, settings: &Settings, word: &str) -> Result<(), BenchFault>
where
    R: AllocGlobal + Clock + Print + Threads + Sync,
{
    match word_of(word) {
        Some(Word::Case(case)) => print_case(rt, settings, case),
        Some(Word::All) => print_all(rt, settings),
        Some(Word::Soak) => print_soak(rt, settings),
        Some(Word::Trial) => print_trial(rt),
        None => Ok(()),
    }
}

/// Tries all cases and a soak over small queues.
fn print_trial<R>(rt: &R) -> Result<(), BenchFault>
where
    R: AllocGlobal + Clock + Print + Threads + Sync,
{
    let settings = Settings::of_trial()?;
    print_all(rt, &settings)?;
    print_soak(rt, &settings)
}

/// Prints the arguments that there are.
fn print_help<R: Print>(rt: &R) -> Result<(), BenchFault> {
    for (word, _, what) in &WORDS {
        print_meaning(rt, word, what)?;
    }
    Ok(())
}

/// Prints an argument, and what is measured for it.
fn print_meaning<R: Print>(rt: &R, word: &str, what: &str) -> Result<(), BenchFault> {
    match println!(rt; "{word:14} {what}") {
        Ok(()) => Ok(()),
        Err(_) => Err(BenchFault::NotPrinted),
    }
}
