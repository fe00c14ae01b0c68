//! Makes an order from the words of a command line.
ghost use Rattle.std.specs.Prelude.{◌≡◌, List, ℕ, [], ◌∷◌, map, option_map, string_bytes, codes};
ghost use Rattle.std.specs.Prelude.{IfErr, IfOk, IfSome, MatchResult, Some};
ghost use Rattle.clap.specs.Words.{subcommand_of};
ghost use Rattle.cq_command_line.specs.CommandLine.{Makes, command_line, word_of};
ghost use Rattle.cq_command_line.specs.Faults.{HasOwnKind};
ghost use Rattle.cq_command_line.specs.OrderValues.{TakesValues};
ghost use Rattle.cq_command_line.specs.Parsed.{ParsesTo};

use crate::command_line::command_line;
use crate::orders::{OrderFault, order_met};
use clap::error::ErrorKind;
use clap::{Command, Error};
use cq_orders::Order;
use std::alloc::{AllocError, Global};

/// What is said of `name` with other words than its actions take.
const NO_ACTION: &str =
    "name: after DIR give one of 'list', 'add NAME [--at W]', 'remove NAME' and 'move NAME --to W'";

/// What is said of `read` with `--for` where it is not followed.
const NO_FOLLOW: &str =
    "read: give '--for SECONDS' with '--follow', and '--follow' without '--back'";

/// Why the words of a command line are no order.
#[derive(Debug, Drop)]
pub enum ParseFault {
    /// Out of memory: a growth was refused.
    OutOfMemory,
    /// The words are not understood, or ask for help. The error prints the whole text for the user.
    NotUnderstood(Error),
    /// The words ask for the version. The error prints the whole line for the user.
    Version(Error),
}

impl From<Error> for ParseFault {
    ghost use Rattle.cq_command_line.specs.Faults.{IsFaultFor};

    ghost from_gives = { λ error fault. IsFaultFor fault error };

    fn from(error: Error) -> ParseFault {
        match error.kind() {
            ErrorKind::OutOfMemory => ParseFault::OutOfMemory,
            ErrorKind::DisplayVersion => ParseFault::Version(error),
            _ => ParseFault::NotUnderstood(error),
        }
    }
}

impl From<AllocError> for ParseFault {
    ghost use Rattle.cq_command_line.specs.declared.parsing.ParseFault.TheVariants.{OutOfMemory};

    ghost from_gives = { λ _ fault. fault ≡ OutOfMemory };

    fn from(_error: AllocError) -> ParseFault {
        ParseFault::OutOfMemory
    }
}

/// Returns the order in the words of a command line. The first word is the program's name.
///
/// An order is the command that the words name, with the values that they give it, as `clap` reads them. The words of
/// `echo` give that order, unless out of memory. No contract says that other words are understood where they should be.
///
/// Errors:
/// - `NotUnderstood`: the words are no order, or ask for help.
/// - `Version`: the words ask for the version.
/// - `OutOfMemory`: out of memory.
pub fn parse(alloc: Global, words: &[String]) -> Result<Order, ParseFault>
    // An order is the command that the words name.
    ensures named { IfOk result (λ order.
        option_map (λ met. met.0) (subcommand_of command_line (map string_bytes words.now)) ≡ Some (word_of order)) }
    // Its values are those that the words give to the command.
    ensures values { IfOk result (λ order.
        IfSome (subcommand_of command_line (map string_bytes words.now)) (λ met. TakesValues met.1 order)) }
    // `Version` comes where `clap` met a word that asks for the version, and nowhere else.
    ensures kind { IfErr result HasOwnKind }
    ensures echo { (program : List ℕ) → map string_bytes words.now ≡ program ∷ codes "echo" ∷ []
        → MatchResult result (λ order. order ≡ Order.Echo) (λ fault. fault ≡ ParseFault.OutOfMemory) }
{
    let mut command = command_line(alloc)?;
    order_in(alloc, &mut command, words)
}

/// Returns the order in the words, over the command line as `clap` has it.
fn order_in<'a>(
    alloc: Global,
    command: &mut Command<'a>,
    words: &'a [String],
) -> Result<Order, ParseFault>
    requires { Makes command.now command_line }
    ensures { ParsesTo (map string_bytes words.now) result }
{
    let matches = command.try_get_matches_from_mut(words)?;
    match order_met(alloc, &matches) {
        Ok(order) => Ok(order),
        Err(fault) => Err(said(command, fault)),
    }
}

/// Returns the fault that says why what was found is no order.
fn said<'a>(command: &mut Command<'a>, fault: OrderFault) -> ParseFault
    ensures { HasOwnKind result }
{
    let error = match fault {
        OrderFault::OutOfMemory => return ParseFault::OutOfMemory,
        OrderFault::NoOrder => command.error(ErrorKind::InvalidSubcommand, "unknown command"),
        OrderFault::NoAction => command.error(ErrorKind::InvalidSubcommand, NO_ACTION),
        OrderFault::NoFollow => command.error(ErrorKind::MissingRequiredArgument, NO_FOLLOW),
        OrderFault::NoMoment(text) => command.error(ErrorKind::ValueValidation, text.as_str()),
    };
    match error {
        Ok(error) => error.into(),
        Err(error) => error.into(),
    }
}
