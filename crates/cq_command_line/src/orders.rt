//! Makes an order from what `clap` found in the words. Most numbers are read before texts: where one is missing, no text is
//! there yet that would be freed.
ghost use Rattle.std.specs.Prelude.{◌≡◌, [], ◌∷◌, List, map, option_map, codes, string_bytes, IfOk, IfSome, IsSomeAnd, None, Ok, Some};
ghost use Rattle.std.specs.Str.Parse.{IsNumeral, digits_value, without_leading_plus};
ghost use Rattle.clap.specs.Words.{first_of, found_of, rows_of, subcommand_rows_of};
ghost use Rattle.cq_command_line.specs.CommandLine.{word_of};
ghost use Rattle.cq_command_line.specs.OrderValues.{AreLogSettings, AreNewSettings, AreReadSettings, AreSettings, AreTakeSettings, AreTrimSettings, AreWords, AreWriteSettings};
ghost use Rattle.cq_command_line.specs.OrderValues.{IsFlag, IsForm, IsMoment, IsNameChange, IsNumber, IsNumberOption, IsOption, IsWord, TakesValues};
ghost use Rattle.cq_command_line.specs.OrderValues.{form_of, input_form_of};

use clap::ArgMatches;
use cq_orders::{
    InitSettings, InputForm, LogSettings, NameChange, NewSettings, Order, ReadForm, ReadSettings,
    TakeSettings, TrimSettings, WriteSettings,
};
use std::alloc::{AllocError, Global};

/// Why what was found is no order.
#[derive(Debug, Drop)]
pub(crate) enum OrderFault {
    /// Out of memory: a growth was refused.
    OutOfMemory,
    /// No command was found, or a value that its order needs is missing.
    NoOrder,
    /// The command `name` was found, with other words than one of its actions takes.
    NoAction,
    /// The command `read` was found with `--for`, or with `--back`, where they are not taken.
    NoFollow,
    /// The word for a moment is no number below 2^64, and not `now`. The text says so.
    NoMoment(String),
}

impl From<AllocError> for OrderFault {
    fn from(_error: AllocError) -> OrderFault {
        OrderFault::OutOfMemory
    }
}

/// Returns the order of the command that the words name.
pub(crate) fn order_met(alloc: Global, matches: &ArgMatches<'_>) -> Result<Order, OrderFault>
    ensures named { IfOk result (λ order.
        option_map (λ met. met.0) (subcommand_rows_of matches.now) ≡ Some (word_of order)) }
    ensures values { IfOk result (λ order. IfSome (subcommand_rows_of matches.now) (λ met. TakesValues met.1 order)) }
    ensures echo { option_map (λ met. met.0) (subcommand_rows_of matches.now) ≡ Some (codes "echo")
        → result ≡ Ok Order.Echo }
{
    match matches.subcommand() {
        Some(("echo", _)) => Ok(Order::Echo),
        Some((name, values)) => order_named(alloc, name, values),
        None => Err(OrderFault::NoOrder),
    }
}

/// Returns the order of the command with this name and these values. `echo`, which has none, is not among them.
fn order_named(alloc: Global, name: &str, values: &ArgMatches<'_>) -> Result<Order, OrderFault>
    ensures named { IfOk result (λ order. name.now ≡ word_of order) }
    ensures values { IfOk result (λ order. TakesValues (rows_of (found_of values.now)) order) }
{
    match name {
        "cycle" => cycle_order(alloc, values),
        "init" => init_order(alloc, values),
        "new" => new_order(alloc, values),
        "write" => write_order(alloc, values),
        "log" => log_order(alloc, values),
        "read" => read_order(alloc, values),
        "take" => take_order(alloc, values),
        "drop" => drop_order(alloc, values),
        "trim" => trim_order(alloc, values),
        "check" => check_order(alloc, values),
        "stat" => stat_order(alloc, values),
        "dump" => dump_order(alloc, values),
        "salvage" => salvage_order(alloc, values),
        "repair" => repair_order(alloc, values),
        "migrate" => migrate_order(alloc, values),
        "race" => race_order(values),
        "name" => names_order(alloc, values),
        "explain" => explain_order(alloc, values),
        _ => Err(OrderFault::NoOrder),
    }
}

fn cycle_order(alloc: Global, values: &ArgMatches<'_>) -> Result<Order, OrderFault>
    ensures named { IfOk result (λ order. word_of order ≡ codes "cycle") }
    ensures values { IfOk result (λ order. TakesValues (rows_of (found_of values.now)) order) }
{
    Ok(Order::Cycle {
        epoch: number(values, "EPOCH")?,
        moment: number(values, "MOMENT")?,
        roll: word(alloc, values, "ROLL")?,
    })
}

fn init_order(alloc: Global, values: &ArgMatches<'_>) -> Result<Order, OrderFault>
    ensures named { IfOk result (λ order. word_of order ≡ codes "init") }
    ensures values { IfOk result (λ order. TakesValues (rows_of (found_of values.now)) order) }
{
    Ok(Order::Init {
        folder: word(alloc, values, "DIR")?,
        settings: init_settings(alloc, values)?,
    })
}

/// Returns the settings of a new queue, which are not checked here.
fn init_settings(alloc: Global, values: &ArgMatches<'_>) -> Result<InitSettings, OrderFault>
    ensures { IfOk result (λ settings. AreSettings (rows_of (found_of values.now)) settings) }
{
    Ok(InitSettings {
        epoch: number(values, "EPOCH")?,
        cells: number(values, "CELLS")?,
        index_count: number(values, "COUNT")?,
        index_spacing: number(values, "SPACING")?,
        cycles: number(values, "CYCLES")?,
        roll: word(alloc, values, "ROLL")?,
        names: words(alloc, values, "NAMES")?,
    })
}

fn new_order(alloc: Global, values: &ArgMatches<'_>) -> Result<Order, OrderFault>
    ensures named { IfOk result (λ order. word_of order ≡ codes "new") }
    ensures values { IfOk result (λ order. TakesValues (rows_of (found_of values.now)) order) }
{
    Ok(Order::New {
        folder: word(alloc, values, "DIR")?,
        settings: new_settings(alloc, values)?,
    })
}

/// Returns the settings of a queue that is made with its folder, which are not checked here.
fn new_settings(alloc: Global, values: &ArgMatches<'_>) -> Result<NewSettings, OrderFault>
    ensures { IfOk result (λ settings. AreNewSettings (rows_of (found_of values.now)) settings) }
{
    Ok(NewSettings {
        cells: number_option(values, "cells")?,
        cycles: number_option(values, "cycles")?,
        roll: option(alloc, values, "roll")?,
        names: words(alloc, values, "NAMES")?,
    })
}

fn write_order(alloc: Global, values: &ArgMatches<'_>) -> Result<Order, OrderFault>
    ensures named { IfOk result (λ order. word_of order ≡ codes "write") }
    ensures values { IfOk result (λ order. TakesValues (rows_of (found_of values.now)) order) }
{
    let settings = write_settings(alloc, values)?;
    let folder = word(alloc, values, "DIR")?;
    match settings {
        WriteSettings {
            moment: Some(moment),
            form: InputForm::Lines,
        } => Ok(Order::Write { folder, moment }),
        settings => Ok(Order::WriteBy { folder, settings }),
    }
}

/// Returns how messages are appended.
fn write_settings(alloc: Global, values: &ArgMatches<'_>) -> Result<WriteSettings, OrderFault>
    ensures { IfOk result (λ settings. AreWriteSettings (rows_of (found_of values.now)) settings) }
{
    Ok(WriteSettings {
        moment: moment(alloc, values)?,
        form: input_form_of(flag(values, "null"), flag(values, "whole")),
    })
}

/// Returns the moment that was given. `None` is the time of the clock.
fn moment(alloc: Global, values: &ArgMatches<'_>) -> Result<Option<u64>, OrderFault>
    ensures { IfOk result (IsMoment (rows_of (found_of values.now))) }
{
    match values.get_str("MOMENT") {
        Some("now") => Ok(None),
        Some(given) => Ok(Some(moment_of(alloc, given)?)),
        None => Err(OrderFault::NoOrder),
    }
}

/// Returns the number in the word for a moment.
fn moment_of(alloc: Global, given: &str) -> Result<u64, OrderFault>
    ensures { IfOk result (λ moment. IsNumeral 10 (without_leading_plus given.now)
        × (moment ≡ digits_value 10 (without_leading_plus given.now))) }
{
    match given.parse::<u64>() {
        Ok(moment) => Ok(moment),
        Err(error) => Err(OrderFault::NoMoment(format!(in alloc;
            "invalid value '{given}' for '<MOMENT>': {error}. MOMENT is a number, or 'now'"
        )?)),
    }
}

/// Returns what a message is, by which of these flags is set.
fn input_form_of(null: bool, whole: bool) -> InputForm
    ensures { result ≡ input_form_of null whole }
{
    match (null, whole) {
        (true, _) => InputForm::Null,
        (false, true) => InputForm::Whole,
        (false, false) => InputForm::Lines,
    }
}

fn log_order(alloc: Global, values: &ArgMatches<'_>) -> Result<Order, OrderFault>
    ensures named { IfOk result (λ order. word_of order ≡ codes "log") }
    ensures values { IfOk result (λ order. TakesValues (rows_of (found_of values.now)) order) }
{
    Ok(Order::Log {
        settings: log_settings(values)?,
        folder: word(alloc, values, "DIR")?,
    })
}

/// Returns how a queue is kept open.
fn log_settings(values: &ArgMatches<'_>) -> Result<LogSettings, OrderFault>
    ensures { IfOk result (λ settings. AreLogSettings (rows_of (found_of values.now)) settings) }
{
    Ok(LogSettings {
        seconds: number_option(values, "for")?,
        syncs: number_option(values, "syncs")?,
        checkpoint: number_option(values, "checkpoint")?,
    })
}

fn read_order(alloc: Global, values: &ArgMatches<'_>) -> Result<Order, OrderFault>
    ensures named { IfOk result (λ order. word_of order ≡ codes "read") }
    ensures values { IfOk result (λ order. TakesValues (rows_of (found_of values.now)) order) }
{
    let seconds = number_option(values, "for")?;
    let folder = word(alloc, values, "DIR")?;
    let settings = read_settings(alloc, values)?;
    match (flag(values, "follow"), settings.back, seconds) {
        (false, _, None) => Ok(Order::Read { folder, settings }),
        (true, false, seconds) => Ok(Order::Follow {
            folder,
            settings,
            seconds,
        }),
        _ => Err(OrderFault::NoFollow),
    }
}

/// Returns which messages are read.
fn read_settings(alloc: Global, values: &ArgMatches<'_>) -> Result<ReadSettings, OrderFault>
    ensures { IfOk result (λ settings. AreReadSettings (rows_of (found_of values.now)) settings) }
{
    Ok(ReadSettings {
        form: form(values),
        back: flag(values, "back"),
        limit: number_option(values, "limit")?,
        last: number_option(values, "last")?,
        from: option(alloc, values, "from")?,
        since: option(alloc, values, "since")?,
        until: option(alloc, values, "until")?,
    })
}

/// Returns in which form messages are printed.
fn form(values: &ArgMatches<'_>) -> ReadForm
    ensures { IsForm (rows_of (found_of values.now)) result }
{
    form_of(
        flag(values, "text"),
        flag(values, "null"),
        flag(values, "hex"),
        flag(values, "json"),
    )
}

/// Returns the form of the first of these flags that is set, and lines if none is.
fn form_of(text: bool, null: bool, hex: bool, json: bool) -> ReadForm
    ensures { result ≡ form_of text null hex json }
{
    match (text, null, hex, json) {
        (true, _, _, _) => ReadForm::Text,
        (false, true, _, _) => ReadForm::Null,
        (false, false, true, _) => ReadForm::Hex,
        (false, false, false, true) => ReadForm::Json,
        (false, false, false, false) => ReadForm::Line,
    }
}

fn take_order(alloc: Global, values: &ArgMatches<'_>) -> Result<Order, OrderFault>
    ensures named { IfOk result (λ order. word_of order ≡ codes "take") }
    ensures values { IfOk result (λ order. TakesValues (rows_of (found_of values.now)) order) }
{
    let settings = take_settings(values)?;
    let folder = word(alloc, values, "DIR")?;
    let name = word(alloc, values, "NAME")?;
    match settings {
        TakeSettings {
            limit: None,
            peek: false,
            wait: None,
        } => Ok(Order::Take { folder, name }),
        settings => Ok(Order::TakeBy {
            folder,
            name,
            settings,
        }),
    }
}

/// Returns which messages are taken.
fn take_settings(values: &ArgMatches<'_>) -> Result<TakeSettings, OrderFault>
    ensures { IfOk result (λ settings. AreTakeSettings (rows_of (found_of values.now)) settings) }
{
    Ok(TakeSettings {
        limit: number_option(values, "limit")?,
        peek: flag(values, "peek"),
        wait: number_option(values, "wait")?,
    })
}

fn drop_order(alloc: Global, values: &ArgMatches<'_>) -> Result<Order, OrderFault>
    ensures named { IfOk result (λ order. word_of order ≡ codes "drop") }
    ensures values { IfOk result (λ order. TakesValues (rows_of (found_of values.now)) order) }
{
    Ok(Order::DropBefore {
        cycle: number(values, "CYCLE")?,
        folder: word(alloc, values, "DIR")?,
    })
}

fn trim_order(alloc: Global, values: &ArgMatches<'_>) -> Result<Order, OrderFault>
    ensures named { IfOk result (λ order. word_of order ≡ codes "trim") }
    ensures values { IfOk result (λ order. TakesValues (rows_of (found_of values.now)) order) }
{
    Ok(Order::Trim {
        folder: word(alloc, values, "DIR")?,
        settings: trim_settings(alloc, values)?,
    })
}

/// Returns what of a queue is removed.
fn trim_settings(alloc: Global, values: &ArgMatches<'_>) -> Result<TrimSettings, OrderFault>
    ensures { IfOk result (λ settings. AreTrimSettings (rows_of (found_of values.now)) settings) }
{
    Ok(TrimSettings {
        keep: number_option(values, "keep")?,
        before: option(alloc, values, "before")?,
        force: flag(values, "force"),
        dry_run: flag(values, "dry-run"),
    })
}

fn check_order(alloc: Global, values: &ArgMatches<'_>) -> Result<Order, OrderFault>
    ensures named { IfOk result (λ order. word_of order ≡ codes "check") }
    ensures values { IfOk result (λ order. TakesValues (rows_of (found_of values.now)) order) }
{
    Ok(Order::Check {
        folder: word(alloc, values, "DIR")?,
    })
}

fn stat_order(alloc: Global, values: &ArgMatches<'_>) -> Result<Order, OrderFault>
    ensures named { IfOk result (λ order. word_of order ≡ codes "stat") }
    ensures values { IfOk result (λ order. TakesValues (rows_of (found_of values.now)) order) }
{
    Ok(Order::Stat {
        folder: word(alloc, values, "DIR")?,
        json: flag(values, "json"),
    })
}

fn dump_order(alloc: Global, values: &ArgMatches<'_>) -> Result<Order, OrderFault>
    ensures named { IfOk result (λ order. word_of order ≡ codes "dump") }
    ensures values { IfOk result (λ order. TakesValues (rows_of (found_of values.now)) order) }
{
    let (folder, file) = folder_and_file(alloc, values)?;
    Ok(Order::Dump { folder, file })
}

fn salvage_order(alloc: Global, values: &ArgMatches<'_>) -> Result<Order, OrderFault>
    ensures named { IfOk result (λ order. word_of order ≡ codes "salvage") }
    ensures values { IfOk result (λ order. TakesValues (rows_of (found_of values.now)) order) }
{
    let (folder, file) = folder_and_file(alloc, values)?;
    Ok(Order::Salvage { folder, file })
}

fn repair_order(alloc: Global, values: &ArgMatches<'_>) -> Result<Order, OrderFault>
    ensures named { IfOk result (λ order. word_of order ≡ codes "repair") }
    ensures values { IfOk result (λ order. TakesValues (rows_of (found_of values.now)) order) }
{
    let (folder, file) = folder_and_file(alloc, values)?;
    Ok(Order::Repair {
        folder,
        file,
        dry_run: flag(values, "dry-run"),
    })
}

fn migrate_order(alloc: Global, values: &ArgMatches<'_>) -> Result<Order, OrderFault>
    ensures named { IfOk result (λ order. word_of order ≡ codes "migrate") }
    ensures values { IfOk result (λ order. TakesValues (rows_of (found_of values.now)) order) }
{
    Ok(Order::Migrate {
        folder: word(alloc, values, "DIR")?,
    })
}

fn race_order(values: &ArgMatches<'_>) -> Result<Order, OrderFault>
    ensures named { IfOk result (λ order. word_of order ≡ codes "race") }
    ensures values { IfOk result (λ order. TakesValues (rows_of (found_of values.now)) order) }
{
    match u32::try_from(number(values, "MESSAGES")?) {
        Ok(messages) => Ok(Order::Race { messages }),
        Err(_) => Err(OrderFault::NoOrder),
    }
}

fn explain_order(alloc: Global, values: &ArgMatches<'_>) -> Result<Order, OrderFault>
    ensures named { IfOk result (λ order. word_of order ≡ codes "explain") }
    ensures values { IfOk result (λ order. TakesValues (rows_of (found_of values.now)) order) }
{
    Ok(Order::Explain {
        words: words(alloc, values, "WORDS")?,
    })
}

fn names_order(alloc: Global, values: &ArgMatches<'_>) -> Result<Order, OrderFault>
    ensures named { IfOk result (λ order. word_of order ≡ codes "name") }
    ensures values { IfOk result (λ order. TakesValues (rows_of (found_of values.now)) order) }
{
    Ok(Order::Names {
        folder: word(alloc, values, "DIR")?,
        change: name_change(alloc, values)?,
    })
}

/// The words that were given to `name` after its action.
#[derive(Drop)]
struct NameWords {
    name: Option<String>,
    at: Option<String>,
    to: Option<String>,
}

/// Returns what is done with the names of a queue.
fn name_change(alloc: Global, values: &ArgMatches<'_>) -> Result<NameChange, OrderFault>
    ensures { IfOk result (IsNameChange (rows_of (found_of values.now))) }
{
    let action = given(values, "ACTION")?;
    let rest = name_words(alloc, values)?;
    match action {
        "list" => listing(rest),
        "add" => adding(rest),
        "remove" => removing(rest),
        "move" => moving(rest),
        _ => Err(OrderFault::NoAction),
    }
}

/// Returns the words that were given to `name` after its action.
fn name_words(alloc: Global, values: &ArgMatches<'_>) -> Result<NameWords, OrderFault>
    ensures name { IfOk result (λ given. IsOption (rows_of (found_of values.now)) (codes "NAME") given.name) }
    ensures at { IfOk result (λ given. IsOption (rows_of (found_of values.now)) (codes "at") given.at) }
    ensures to { IfOk result (λ given. IsOption (rows_of (found_of values.now)) (codes "to") given.to) }
{
    Ok(NameWords {
        name: option(alloc, values, "NAME")?,
        at: option(alloc, values, "at")?,
        to: option(alloc, values, "to")?,
    })
}

/// Returns the change that lists the names, if nothing else was given.
fn listing(given: NameWords) -> Result<NameChange, OrderFault>
    ensures { IfOk result (λ change. (change ≡ NameChange.List) × (given.name ≡ None) × (given.at ≡ None) × (given.to ≡ None)) }
{
    let NameWords { name, at, to } = given;
    match (name, at, to) {
        (None, None, None) => Ok(NameChange::List),
        _ => Err(OrderFault::NoAction),
    }
}

/// Returns the change that adds a name, if one was given.
fn adding(given: NameWords) -> Result<NameChange, OrderFault>
    ensures { IfOk result (λ change. IsSomeAnd given.name (λ name. change ≡ NameChange.Add name given.at) × (given.to ≡ None)) }
{
    let NameWords { name, at, to } = given;
    match (name, to) {
        (Some(name), None) => Ok(NameChange::Add { name, at }),
        _ => Err(OrderFault::NoAction),
    }
}

/// Returns the change that removes a name, if one was given.
fn removing(given: NameWords) -> Result<NameChange, OrderFault>
    ensures { IfOk result (λ change. IsSomeAnd given.name (λ name. change ≡ NameChange.Remove name) × (given.at ≡ None) × (given.to ≡ None)) }
{
    let NameWords { name, at, to } = given;
    match (name, at, to) {
        (Some(name), None, None) => Ok(NameChange::Remove { name }),
        _ => Err(OrderFault::NoAction),
    }
}

/// Returns the change that moves a name, if one was given with a position.
fn moving(given: NameWords) -> Result<NameChange, OrderFault>
    ensures { IfOk result (λ change. IsSomeAnd given.name (λ name. IsSomeAnd given.to (λ word. change ≡ NameChange.Move name word)) × (given.at ≡ None)) }
{
    let NameWords { name, at, to } = given;
    match (name, at, to) {
        (Some(name), None, Some(to)) => Ok(NameChange::Move { name, to }),
        _ => Err(OrderFault::NoAction),
    }
}

/// Returns the words for the folder and for the file.
fn folder_and_file(alloc: Global, values: &ArgMatches<'_>) -> Result<(String, String), OrderFault>
    ensures { IfOk result (λ given. IsWord (rows_of (found_of values.now)) (codes "DIR") given.0
        × IsWord (rows_of (found_of values.now)) (codes "FILE") given.1) }
{
    let folder = word(alloc, values, "DIR")?;
    let file = word(alloc, values, "FILE")?;
    Ok((folder, file))
}

/// Returns a copy of the word that was given under this name.
fn word(alloc: Global, values: &ArgMatches<'_>, name: &str) -> Result<String, OrderFault>
    ensures { IfOk result (λ text. IsWord (rows_of (found_of values.now)) name.now text) }
{
    Ok(String::from_str(alloc, given(values, name)?)?)
}

/// Returns the word that was given under this name.
fn given<'a>(values: &ArgMatches<'a>, name: &str) -> Result<&'a str, OrderFault>
    ensures { IfOk result (λ text. first_of name.now (rows_of (found_of values.now)) ≡ Some text.now) }
{
    match values.get_str(name) {
        Some(text) => Ok(text),
        None => Err(OrderFault::NoOrder),
    }
}

/// Returns the number that was given under this name.
fn number(values: &ArgMatches<'_>, name: &str) -> Result<u64, OrderFault>
    ensures { IfOk result (λ given. IsNumber (rows_of (found_of values.now)) name.now given) }
{
    match values.get_one(name) {
        Some(given) => Ok(given),
        None => Err(OrderFault::NoOrder),
    }
}

/// Returns the number that was given under this name, if one was.
fn number_option(values: &ArgMatches<'_>, name: &str) -> Result<Option<u64>, OrderFault>
    ensures { IfOk result (λ given. IsNumberOption (rows_of (found_of values.now)) name.now given) }
{
    match values.get_str(name) {
        Some(_) => Ok(Some(number(values, name)?)),
        None => Ok(None),
    }
}

/// Returns all words that were given under this name.
fn words(alloc: Global, values: &ArgMatches<'_>, name: &str) -> Result<Vec<String>, OrderFault>
    ensures { IfOk result (λ texts. AreWords (rows_of (found_of values.now)) name.now texts.items) }
{
    match values.get_strs(name) {
        Some(given) => Ok(texts(alloc, given)?),
        None => Ok(Vec::new(alloc)),
    }
}

/// Returns owned copies of borrowed texts.
fn texts(alloc: Global, given: &[&str]) -> Result<Vec<String>, AllocError>
    ensures { IfOk result (λ texts. map string_bytes texts.items ≡ map (λ text. text.now) given.now) }
{
    let mut texts = Vec::new(alloc);
    for text in given {
        texts.push(String::from_str(alloc, text)?)?;
    }
    Ok(texts)
}

/// Returns the word that was given under this name, if one was.
fn option(alloc: Global, values: &ArgMatches<'_>, name: &str) -> Result<Option<String>, OrderFault>
    ensures { IfOk result (λ text. IsOption (rows_of (found_of values.now)) name.now text) }
{
    match values.get_str(name) {
        Some(given) => Ok(Some(String::from_str(alloc, given)?)),
        None => Ok(None),
    }
}

/// Returns whether the flag of this name was given.
fn flag(values: &ArgMatches<'_>, name: &str) -> bool
    ensures { IsFlag (rows_of (found_of values.now)) name.now result }
{
    values.get_flag(name)
}
