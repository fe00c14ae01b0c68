//! Starts the program without `log` and `race`, and then the whole one, several times: over a folder of the system with a queue, and over
//! three that have a log too. All that each start prints, its errors and its status go to standard output.
#![tactic(auto)]

use cq_program::basic_status;
use cq_tools::{DONE, Start, Terminals, status};
use std::alloc::AllocError;
use std::fmt::Display;
use std::io::{self, Stdout};
use std::process::{self, ExitCode};

/// The words of each start of the basic program, after the program's name.
const BASIC_STARTS: [&[&str]; 4] = [
    &["cycle", "daily", "0", "1728000000000"],
    &["take", "."],
    &["log", "."],
    &["race", "10"],
];

/// The words of each start of the whole program.
const STARTS: [&[&str]; 59] = [
    &["read", "."],
    &["stat", ".", "--json"],
    &["take", ".", "reader"],
    &["migrate", "."],
    &["migrate", "."],
    &["dump", ".", "20241004.cqi"],
    &["check", "."],
    &["write", ".", "1728086400000"],
    &["write", ".", "253402300800000"],
    &["read", "."],
    &["trim", ".", "--keep", "1"],
    &["take", ".", "reader"],
    &["take", ".", "reader", "--peek"],
    &["take", ".", "reader", "--limit", "2"],
    &["take", ".", "reader", "--limit", "2"],
    &["take", ".", "reader", "--limit", "2"],
    &["take", ".", "reader", "--peek"],
    &["take", ".", "writer", "--peek"],
    &["read", ".", "--back", "--from", "00004e2100000000"],
    &["take", ".", "writer"],
    &["init", ".", "daily", "0", "64", "8", "1", "4"],
    &["drop", ".", "20001"],
    &["read", "."],
    &["name", ".", "add", "writer"],
    &["name", ".", "list"],
    &["name", ".", "move", "writer", "--to", "20241006"],
    &["name", ".", "remove", "writer"],
    &["read", "nowhere"],
    &["dump", ".", "20241006.cqi"],
    &["salvage", ".", "20241005.cqi"],
    &["read", "logged"],
    &["check", "logged"],
    &["stat", "logged"],
    &["take", "logged", "reader"],
    &["check", "logged"],
    &["write", "logged", "1728086400000"],
    &["read", "logged", "--back"],
    &["trim", "logged", "--keep", "1", "--dry-run"],
    &["trim", "logged", "--before", "20241005"],
    &["check", "logged"],
    &["check", "broken"],
    &["salvage", "broken", "20241004.cqi"],
    &["stat", "broken"],
    &["read", "other"],
    &["drop", "other", "1"],
    &["init", "other", "daily", "0", "64", "8", "1", "4"],
    &["log", "nowhere"],
    &["log", "broken"],
    &["log", "other"],
    &["--version"],
    &["explain", "gave", "up"],
    &["explain", "no", "such", "fault"],
    &["repair", "broken", "20241004.cqi"],
    &["new", "fresh", "reader"],
    &["new", "fresh"],
    &["take", "fresh", "reader", "--wait", "1"],
    &["take", "."],
    &["race", "10"],
    &["race", "1001"],
];

/// Standard output, to which errors go.
#[derive(Drop)]
struct OnOutput {
    output: Stdout,
}

impl Eprint for OnOutput {
    fn eprint<D: Display + Drop>(&self, value: D) -> io::Result<()> {
        self.output.print(value)
    }

    fn eprintln<D: Display + Drop>(&self, value: D) -> io::Result<()> {
        self.output.println(value)
    }
}

fn main(rt: HostRuntime) -> ExitCode {
    let process = process::id(rt.process());
    let errors = OnOutput {
        output: rt.stdout(),
    };
    for words in BASIC_STARTS {
        print_words(&rt, words);
        print_status(
            &rt,
            basic_status(&rt, &errors, start_with(&rt, words, process)),
        );
    }
    let mut last = DONE;
    for words in STARTS {
        print_words(&rt, words);
        last = status(&rt, &errors, start_with(&rt, words, process));
        print_status(&rt, last);
    }
    ExitCode::from(last)
}

/// Prints the words of a start.
fn print_words<R: Print>(rt: &R, words: &[&str]) {
    let _ = print!(rt; "cq");
    for word in words {
        let _ = print!(rt; " {word}");
    }
    let _ = println!(rt; "");
}

/// Prints the status of a start.
fn print_status<R: Print>(rt: &R, status: u8) {
    let _ = println!(rt; "status {status}");
}

/// Returns a start with these words, on no terminal.
fn start_with<R: AllocGlobal>(rt: &R, words: &[&str], process: u32) -> Start {
    Start {
        words: command_line(rt, words).map_err(io::Error::from),
        process,
        terminals: Terminals {
            input: false,
            errors: false,
        },
    }
}

/// Returns the words of a command line: the program's name, and these.
fn command_line<R: AllocGlobal>(rt: &R, words: &[&str]) -> Result<Vec<String>, AllocError> {
    let alloc = rt.alloc();
    let mut line = Vec::new(alloc);
    line.push(String::from_str(alloc, "cq")?)?;
    for word in words {
        line.push(String::from_str(alloc, word)?)?;
    }
    Ok(line)
}
