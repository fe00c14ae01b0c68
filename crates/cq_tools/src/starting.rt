//! A start of the program: from its command line to its exit status.

ghost use Rattle.std.specs.Prelude.{◌≡◌, MatchResult};
ghost use Rattle.cq_program.specs.Reads.{EndsFor};
ghost use Rattle.cq_program.specs.Statuses.{IsStatus};
ghost use Rattle.cq_tools.specs.Ends.{EndsWhole};

use cq_orders::Order;
use cq_program::{DONE, FAULT, Start, fail, order_in, status_of_order};
use cq_race::{OpenGate, race};
use cq_service::log;
use std::fmt::Display;
use std::fs::File;
use std::io;
use std::rt::{Clock, Files};
use std::sync::Wait;
use std::thread::Threads;

/// Runs the command in the words of a command line, over the folder that they name and the standard streams. It prints errors to
/// `errors`, and returns the exit status. On a terminal it also says, on standard error, for how long a command has worked that takes more
/// than a second, and which cycle a `write` begins.
///
/// It is proved that the exit status is `DONE`, `FAULT`, `NOT_UNDERSTOOD` or `NOTHING`: `DONE` or `FAULT` for `log` and `race`, and for words
/// that are no order the one that says why. Which of them an outcome or an error has is proved on private functions, here and in
/// `cq_program`. What a command comes to over a real folder and real streams is tested.
pub fn status<'a, R, E>(rt: &'a R, errors: &'a E, start: Start) -> u8
where
    R: AllocGlobal
        + Files<File = File>
        + Input
        + Print
        + Eprint
        + Clock
        + Threads
        + Wait
        + Sync
        + Clone
        + Send
        + Drop
        + 'static,
    R::Reader: Send + Drop + 'static,
    E: Eprint,
    ensures status { IsStatus result }
    ensures order { EndsFor EndsWhole start.words result }
{
    match order_in(rt, errors, &start) {
        Ok(order) => {
            let status = match &order {
                Order::Race { messages } => said_of(
                    errors,
                    race(rt, *messages, &OpenGate, &mut io::writer(rt)),
                ),
                Order::Log { folder, settings } => said_of(
                    errors,
                    log(rt, errors, start.process, folder.as_str(), settings),
                ),
                _ => status_of_order(rt, errors, &start, &order),
            };
            drop(order);
            status
        }
        Err(status) => status,
    }
}

/// Prints the error of a command, and returns the exit status.
fn said_of<E: Eprint, F: Display + Drop>(errors: &E, done: Result<(), F>) -> u8
    ensures { MatchResult done (λ _. result ≡ DONE) (λ _. result ≡ FAULT) }
{
    match done {
        Ok(()) => DONE,
        Err(fault) => fail(errors, &fault),
    }
}
