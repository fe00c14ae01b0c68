//! The settings of a queue, as C gives and gets them.
ghost use Rattle.std.specs.Prelude.{◌≡◌, ◌++◌, ◌∷◌, [], IfErr, IfOk, OnOk, string_bytes};
ghost use Rattle.std.specs.Str.{IsUtf8};
ghost use Rattle.cq_model.specs.Settings.{texts};
ghost use Rattle.cq_text.specs.Lines.{input_lines};
ghost use Rattle.linnetshelf.specs.Asked.{HasNoNames, IsAsked, IsNoName, IsNotMade};
ghost use Rattle.linnetshelf.specs.Told.{settings_for};
ghost use Rattle.linnetshelf.specs.declared.status.Status.TheVariants.{OutOfMemory};

use crate::status::Status;
use cq_foreign::{roll_number, roll_of};
use cq_layout::Shape;
use cq_model::Config;
use cq_text::InputLines;
use std::alloc::Global;

/// How a queue is made. The names of its tailers are a text next to it, with a line for each.
#[repr(C)]
#[derive(Clone, Copy)]
pub struct Settings {
    /// When cycle 0 begins, in milliseconds of Unix time.
    pub epoch: u64,
    /// The cells of a cycle, of four bytes each.
    pub cells: u32,
    /// The entries of an index table: a power of two from 8 to 1,024.
    pub index_count: u32,
    /// One message in this many has an entry in the index: a power of two from 1 to 256.
    pub index_spacing: u32,
    /// How many cycles may begin: 1 to 64.
    pub cycles: u32,
    /// How long a cycle is: 0 a day, 1 an hour, 2 a minute.
    pub roll: u32,
}

/// Makes the configuration of these settings and names. `Config` says what the limits are. Errors:
///
/// - `BadSettings`: a setting is outside its limits, or a name is not UTF-8.
/// - `OutOfMemory`: an allocation was refused.
pub(crate) fn config_of(alloc: Global, settings: &Settings, names: &[u8]) -> Result<Config, Status>
    ensures made { IfOk result (IsAsked settings.now names.now) }
    ensures err { IfErr result (IsNotMade settings.now names.now) }
{
    let Some(roll) = roll_of(settings.roll) else {
        return Err(Status::BadSettings);
    };
    let shape = Shape::new(settings.cells, settings.index_count, settings.index_spacing);
    let Ok(shape) = shape else {
        return Err(Status::BadSettings);
    };
    let names = names_in(alloc, names)?;
    match Config::new(shape, settings.cycles, roll, settings.epoch, names) {
        Ok(config) => Ok(config),
        Err(_) => Err(Status::BadSettings),
    }
}

/// Returns the settings with which a queue was made.
pub(crate) fn settings_of(config: &Config) -> Settings
    ensures { result ≡ settings_for config.now }
{
    let layout = config.layout();
    Settings {
        epoch: config.epoch(),
        cells: layout.cells(),
        index_count: layout.index_count(),
        index_spacing: layout.index_spacing(),
        cycles: config.cycles(),
        roll: roll_number(config.roll()),
    }
}

/// Makes names of the lines of a text.
fn names_in(alloc: Global, text: &[u8]) -> Result<Vec<String>, Status>
    ensures made { IfOk result (λ names. texts names.items ≡ input_lines text.now) }
    ensures err { IfErr result (HasNoNames text.now) }
{
    let mut names = Vec::new(alloc);
    for line in InputLines::of(text) {
        match name_of(alloc, line) {
            Ok(name) => push(&mut names, name)?,
            Err(status) => return Err(status),
        }
    }
    Ok(names)
}

/// Makes a name of a line.
fn name_of(alloc: Global, line: &[u8]) -> Result<String, Status>
    ensures made { IfOk result (λ name. (string_bytes name ≡ line.now) × IsUtf8 line.now) }
    ensures err { IfErr result (IsNoName line.now) }
{
    match str::from_utf8(line) {
        Ok(text) => match String::from_str(alloc, text) {
            Ok(name) => Ok(name),
            Err(_) => Err(Status::OutOfMemory),
        },
        Err(_) => Err(Status::BadSettings),
    }
}

/// Puts a name after the others.
fn push(names: &mut Vec<String>, name: String) -> Result<(), Status>
    ensures ok { OnOk result (names.new.items ≡ names.old.items ++ name ∷ []) }
    ensures err { IfErr result (λ status. status ≡ OutOfMemory) }
{
    match names.push(name) {
        Ok(()) => Ok(()),
        Err(_) => Err(Status::OutOfMemory),
    }
}
