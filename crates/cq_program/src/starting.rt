//! A start of the program: from its command line to its exit status.

ghost use Rattle.std.specs.Prelude.{◌≡◌, IfErr};
ghost use Rattle.cq_program.specs.Reads.{EndsBasic, EndsFor, HasOrder, ReadsAs};
ghost use Rattle.cq_program.specs.Starts.{IsBasic};
ghost use Rattle.cq_program.specs.Statuses.{IsStatus, IsStatusFor, status_of};

use crate::fault::StartFault;
use crate::program::{Outcome, Program};
use cq_command_line::{ParseFault, parse};
use cq_orders::Order;
use cq_text::ToolFault;
use std::fmt::Display;
use std::fs::File;
use std::io::{self, ErrorKind, IsTerminal};
use std::rt::{Clock, Env, Files};
use std::sync::Wait;
use std::thread::Threads;
use std::{env, process};

/// The command was done.
pub const DONE: u8 = 0;

/// The command failed.
pub const FAULT: u8 = 1;

/// The command line is not understood.
pub const NOT_UNDERSTOOD: u8 = 2;

/// A `take` with options found no message.
pub const NOTHING: u8 = 4;

/// What the basic program prints of a command that it lacks.
const NOT_BASIC: &str =
    "this program has no 'log' or 'race': './cq log' and './cq race' build the one that has them";

/// What a start of the program is given.
#[derive(Drop)]
pub struct Start {
    /// The words of the command line. The first is the program's name.
    pub words: io::Result<Vec<String>>,
    /// The number of the process.
    pub process: u32,
    /// Which streams are terminals.
    pub terminals: Terminals,
}

/// Which streams of the program are terminals.
#[derive(Clone, Copy, Debug)]
pub struct Terminals {
    /// Whether its input is one.
    pub input: bool,
    /// Whether its errors are printed to one.
    pub errors: bool,
}

/// Returns what a start of the process is given.
pub fn start_of(rt: &HostRuntime) -> Start {
    Start {
        words: words(rt),
        process: process::id(rt.process()),
        terminals: Terminals {
            input: rt.stdin().is_terminal(),
            errors: rt.stderr().is_terminal(),
        },
    }
}

/// Returns the words of the command line. The first is the program's name.
fn words<R: AllocGlobal + Env>(rt: &R) -> io::Result<Vec<String>> {
    Ok(env::args(rt)?.collect(rt.alloc())?)
}

/// Runs the command in the words of a command line, as `status_of_order` does, and returns the exit status. It fails for `log` and
/// `race`.
///
/// It is proved that the exit status is `DONE`, `FAULT`, `NOT_UNDERSTOOD` or `NOTHING`: `FAULT` for `log` and `race`, and for words that are
/// no order the one that says why.
pub fn basic_status<'a, R, E>(rt: &'a R, errors: &'a E, start: Start) -> u8
where
    R: AllocGlobal
        + Files<File = File>
        + Input
        + Print
        + Eprint
        + Clock
        + Threads
        + Wait
        + Sync
        + Clone,
    E: Eprint,
    ensures status { IsStatus result }
    ensures order { EndsFor EndsBasic start.words result }
{
    match order_in(rt, errors, &start) {
        Ok(order) => {
            let status = match &order {
                Order::Log { .. } | Order::Race { .. } => fail(errors, &NOT_BASIC),
                _ => status_of_order(rt, errors, &start, &order),
            };
            drop(order);
            status
        }
        Err(status) => status,
    }
}

/// Runs an order other than `log` and `race`, over the folder that it names and the standard streams. It prints errors to `errors`, and
/// returns the exit status. On a terminal it also says, on standard error, for how long a command has worked that takes more than a
/// second, and which cycle a `write` begins.
///
/// Which exit status an outcome or an error has is proved on private functions. What a command comes to over a real folder and real
/// streams is tested.
pub fn status_of_order<'a, R, E>(rt: &'a R, errors: &'a E, start: &Start, order: &Order) -> u8
where
    R: AllocGlobal
        + Files<File = File>
        + Input
        + Print
        + Eprint
        + Clock
        + Threads
        + Wait
        + Sync
        + Clone,
    E: Eprint,
    requires { IsBasic order.now }
    ensures { IsStatus result }
{
    let program = Program {
        rt,
        errors,
        process: start.process,
        terminals: start.terminals,
        progress: None,
    };
    said_of(errors, program.run(order))
}

/// Prints the error of a command, and returns the exit status.
fn said_of<E: Eprint>(errors: &E, done: Result<Outcome, StartFault>) -> u8
    ensures { result ≡ status_of done }
{
    match done {
        Ok(Outcome::Done) => DONE,
        Ok(Outcome::Nothing) => NOTHING,
        Err(error) => {
            let status = fail(errors, &error);
            drop(error);
            status
        }
    }
}

/// Why there is no order in the words of a command line.
#[derive(Drop)]
enum Unread {
    /// An argument is not UTF-8 text.
    NoText,
    /// The words are no order, or memory ran out.
    NoOrder(ParseFault),
}

/// Returns the order in the words of a command line. If there is none, prints why, or the version if that was asked for, and returns
/// the exit status.
pub fn order_in<R: AllocGlobal + Print, E: Eprint>(
    rt: &R,
    errors: &E,
    start: &Start,
) -> Result<Order, u8>
    ensures status { IfErr result IsStatus }
    ensures order { HasOrder start.now.words result }
{
    match read_order(rt, &start.words) {
        Ok(order) => Ok(order),
        Err(unread) => {
            let status = said(rt, errors, &unread);
            drop(unread);
            Err(status)
        }
    }
}

/// Returns the order in the words of a command line.
fn read_order<R: AllocGlobal>(rt: &R, words: &io::Result<Vec<String>>) -> Result<Order, Unread>
    ensures { ReadsAs words.now result }
{
    let words = match words {
        Ok(words) => words,
        Err(error) if error.kind() == ErrorKind::InvalidData => return Err(Unread::NoText),
        Err(_) => return Err(Unread::NoOrder(ParseFault::OutOfMemory)),
    };
    match parse(rt.alloc(), words.as_slice()) {
        Ok(order) => Ok(order),
        Err(fault) => Err(Unread::NoOrder(fault)),
    }
}

/// Prints why there is no order, or the version if that was asked for, and returns the exit status.
fn said<R: Print, E: Eprint>(rt: &R, errors: &E, unread: &Unread) -> u8
    ensures { IsStatusFor unread.now result }
{
    match unread {
        Unread::NoText => {
            let _ = eprintln!(errors; "error: an argument is not UTF-8 text");
            NOT_UNDERSTOOD
        }
        Unread::NoOrder(ParseFault::NotUnderstood(error)) => {
            let _ = eprint!(errors; "{error}");
            NOT_UNDERSTOOD
        }
        Unread::NoOrder(ParseFault::Version(text)) => match print!(rt; "{text}") {
            Ok(()) => DONE,
            Err(_) => fail(errors, &ToolFault::WriteFault),
        },
        Unread::NoOrder(ParseFault::OutOfMemory) => fail(errors, &ToolFault::OutOfMemory),
    }
}

/// Prints an error, and returns the exit status.
pub fn fail<E: Eprint, F: Display>(errors: &E, fault: &F) -> u8
    ensures { result ≡ FAULT }
{
    let _ = eprintln!(errors; "cq: {fault}");
    FAULT
}
