//! The arguments of a command.
ghost use Rattle.std.specs.Prelude.{◌≡◌, [], false, IfOk, OnOk};
ghost use Rattle.clap.specs.Words.{rule_of};
ghost use Rattle.cq_command_line.specs.CommandLine.{AddsOne, FollowAll, Follows, rule_for};
ghost use Rattle.cq_command_line.specs.CommandLine.{against, between_rule, count_rule, flag_rule, number_rule, option_between_rule, option_rule, word_rule, words_rule, maybe_rule};

use clap::builder::ValueParser;
use clap::{Arg, ArgAction, value_parser};
use std::alloc::{AllocError, Global};

/// An argument of a command, with its name first and its help last.
#[derive(Clone, Copy)]
pub(crate) enum Argument {
    /// One that must be given.
    Word(&'static str, &'static str),
    /// A number below 2^64 that must be given.
    Number(&'static str, &'static str),
    /// A number between these two that must be given.
    Between(&'static str, u64, u64, &'static str),
    /// Any number of words, which may be none, after all others.
    Words(&'static str, &'static str),
    /// A flag, which may be left out.
    Flag(&'static str, &'static str),
    /// An option with one word as its value, which may be left out. Help calls the word by the second name.
    Option(&'static str, &'static str, &'static str),
    /// An option with a number between two others as its value, which may be left out. Help calls the number by the second name.
    OptionBetween(&'static str, &'static str, u64, u64, &'static str),
    /// A flag that cannot be given with any of these others.
    FlagAgainst(&'static str, &'static [&'static str], &'static str),
    /// An option with one word as its value, which cannot be given with any of these others.
    OptionAgainst(&'static str, &'static str, &'static [&'static str], &'static str),
    /// An option with a number from 1 to 2^32 - 1 as its value, which may be left out. Help calls the number by the second name.
    Count(&'static str, &'static str, &'static str),
    /// The same, which cannot be given with any of these others.
    CountAgainst(&'static str, &'static str, &'static [&'static str], &'static str),
    /// A word that may be left out, after all others.
    Maybe(&'static str, &'static str),
}

/// Returns the arguments as values of `clap`.
pub(crate) fn args_of<'a>(alloc: Global, arguments: &[Argument]) -> Result<Vec<Arg<'a>>, AllocError>
    ensures { IfOk result (λ args. FollowAll args.items arguments.now) }
{
    let mut args = Vec::new(alloc);
    for argument in arguments {
        push_arg(alloc, &mut args, *argument)?;
    }
    Ok(args)
}

/// Adds the argument as a value of `clap`.
fn push_arg<'a>(
    alloc: Global,
    args: &mut Vec<Arg<'a>>,
    argument: Argument,
) -> Result<(), AllocError>
    ensures { OnOk result (AddsOne (λ arg. Follows arg (rule_for argument)) args.old.items args.new.items) }
{
    args.push(arg(alloc, argument)?)?;
    Ok(())
}

/// Returns the argument as a value of `clap`.
fn arg<'a>(alloc: Global, argument: Argument) -> Result<Arg<'a>, AllocError>
    ensures { IfOk result (λ arg. Follows arg (rule_for argument)) }
{
    match argument {
        Argument::Word(name, help) => Ok(word(alloc, name, help)),
        Argument::Number(name, help) => Ok(number(alloc, name, help)),
        Argument::Between(name, low, high, help) => Ok(between(alloc, name, low, high, help)),
        Argument::Words(name, help) => Ok(words(alloc, name, help)),
        Argument::Flag(name, help) => Ok(flag(alloc, name, help)),
        Argument::Option(name, value_name, help) => Ok(option(alloc, name, value_name, help)),
        Argument::OptionBetween(name, value_name, low, high, help) => {
            Ok(option_between(alloc, name, value_name, low, high, help))
        }
        Argument::FlagAgainst(name, others, help) => against(flag(alloc, name, help), others),
        Argument::OptionAgainst(name, value_name, others, help) => {
            against(option(alloc, name, value_name, help), others)
        }
        Argument::Count(name, value_name, help) => Ok(count(alloc, name, value_name, help)),
        Argument::CountAgainst(name, value_name, others, help) => {
            against(count(alloc, name, value_name, help), others)
        }
        Argument::Maybe(name, help) => Ok(maybe(alloc, name, help)),
    }
}

/// Returns an argument that cannot be given with any of these others.
fn against<'a>(arg: Arg<'a>, others: &[&'a str]) -> Result<Arg<'a>, AllocError>
    requires { (arg.conflicts.items ≡ []) × (arg.global ≡ false) }
    ensures { IfOk result (λ made. Follows made (against others.now (rule_of arg.entry))) }
{
    arg.conflicts_with_all(others)
}

/// Returns an argument that must be given.
fn word<'a>(alloc: Global, name: &'a str, help: &'a str) -> Arg<'a>
    ensures { Follows result (word_rule name.entry.now) }
{
    Arg::new(alloc, name)
        .help(help)
        .required(true)
        .action(ArgAction::Set)
}

/// Returns a number below 2^64 that must be given.
fn number<'a>(alloc: Global, name: &'a str, help: &'a str) -> Arg<'a>
    ensures { Follows result (number_rule name.entry.now) }
{
    word(alloc, name, help).value_parser(value_parser!(u64))
}

/// Returns a number between these two that must be given.
fn between<'a>(alloc: Global, name: &'a str, low: u64, high: u64, help: &'a str) -> Arg<'a>
    ensures { Follows result (between_rule name.entry.now low high) }
{
    word(alloc, name, help).value_parser(ValueParser::unsigned(low, high))
}

/// Returns an argument for any number of words, which may be none, after all others.
fn words<'a>(alloc: Global, name: &'a str, help: &'a str) -> Arg<'a>
    ensures { Follows result (words_rule name.entry.now) }
{
    Arg::new(alloc, name).help(help).action(ArgAction::Append)
}

/// Returns a flag, which may be left out.
fn flag<'a>(alloc: Global, name: &'a str, help: &'a str) -> Arg<'a>
    ensures { Follows result (flag_rule name.entry.now) }
{
    Arg::new(alloc, name)
        .long(name)
        .help(help)
        .action(ArgAction::SetTrue)
}

/// Returns an option with a number between two others as its value, which may be left out.
fn option_between<'a>(
    alloc: Global,
    name: &'a str,
    value_name: &'a str,
    low: u64,
    high: u64,
    help: &'a str,
) -> Arg<'a>
    ensures { Follows result (option_between_rule name.entry.now low high) }
{
    option(alloc, name, value_name, help).value_parser(ValueParser::unsigned(low, high))
}

/// Returns an option with a number from 1 to 2^32 - 1 as its value, which may be left out.
fn count<'a>(alloc: Global, name: &'a str, value_name: &'a str, help: &'a str) -> Arg<'a>
    ensures { Follows result (count_rule name.entry.now) }
{
    option_between(alloc, name, value_name, 1, u64::from(u32::MAX), help)
}

/// Returns an option with one word as its value, which may be left out.
fn option<'a>(alloc: Global, name: &'a str, value_name: &'a str, help: &'a str) -> Arg<'a>
    ensures { Follows result (option_rule name.entry.now) }
{
    Arg::new(alloc, name)
        .long(name)
        .value_name(value_name)
        .help(help)
        .action(ArgAction::Set)
}

/// Returns an argument of one word, which may be left out.
fn maybe<'a>(alloc: Global, name: &'a str, help: &'a str) -> Arg<'a>
    ensures { Follows result (maybe_rule name.entry.now) }
{
    Arg::new(alloc, name).help(help).action(ArgAction::Set)
}
