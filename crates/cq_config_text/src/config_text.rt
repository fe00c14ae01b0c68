//! Reads the text of the file `queue.cqc`.

ghost use Rattle.std.specs.Prelude.{◌≡◌, ◌⊎◌, ◌++◌, ◌+◌, ◌<◌, ◌≤◌, ℕ, List, [], IfErr, IfOk, MatchOption, None, OnOk, Ok, Err, Some, option_map};
ghost use Rattle.cq_model.specs.Settings.{IsLawfulSettings, Settings, texts};
ghost use Rattle.cq_config_text.specs.ConfigFault.{Judges, RefusesSaved, RefusesText, Saves};
ghost use Rattle.cq_config_text.specs.ConfigText.{AreWritableNames, IsTextOf, IsWritable, fault_from, faulty_line, floor_forms, head_lines, line_at, lines_text, name_lines};
ghost use Rattle.cq_config_text.specs.Written.{settings_in};

use crate::config_fault::ConfigFault;
use crate::lines::{take_floor, take_name, take_roll, take_setting, take_version};
use crate::wanted::WantedConfig;
use cq_cycle::LAST_CYCLE;
use cq_model::Config;
use std::alloc::Global;

/// The number of the first line after those that each text has.
const LINE_BEHIND_HEAD: u64 = 8;

/// What `queue.cqc` keeps: the settings of a queue, the position of each tailer in the order of the names, and the floor.
#[derive(Debug, Drop)]
pub struct SavedConfig {
    pub config: Config,
    pub positions: Vec<u64>,
    /// The floor: reads skip all cycles below this one.
    pub floor: u32,
}

/// What a text says, which may be outside the limits.
#[derive(Drop)]
struct ReadText {
    wanted: WantedConfig,
    floor: u64,
    declared: DeclaredNames,
}

/// The names that a text declares, which may be outside the limits, and their positions.
#[derive(Drop)]
struct DeclaredNames {
    names: Vec<String>,
    positions: Vec<u64>,
}

/// Takes the lines that each text has off the front of one.
fn take_head(text: &[u8]) -> Result<(WantedConfig, &[u8]), ConfigFault>
    ensures writable { IfOk result (λ taken. IsWritable (settings_in taken.0 []) [] 0) }
    ensures found { IfOk result (λ taken. text.now ≡ lines_text (head_lines (settings_in taken.0 [])) ++ taken.1.now) }
    ensures next { IfOk result (λ taken. faulty_line text.now
        ≡ fault_from LINE_BEHIND_HEAD (floor_forms (line_at taken.1.now 0)) taken.1.now) }
    ensures fault { IfErr result (λ fault. option_map ConfigFault.Line (faulty_line text.now) ≡ Some fault) }
{
    let (version, rest) = take_version(text, 1)?;
    let (roll, rest) = take_roll(rest, 2)?;
    let (epoch, rest) = take_setting(rest, 3, b"epoch")?;
    let (cells, rest) = take_setting(rest, 4, b"cells")?;
    let (index_count, rest) = take_setting(rest, 5, b"count")?;
    let (index_spacing, rest) = take_setting(rest, 6, b"spacing")?;
    let (cycles, rest) = take_setting(rest, 7, b"cycles")?;
    let wanted = WantedConfig {
        version,
        roll,
        epoch,
        cells,
        index_count,
        index_spacing,
        cycles,
    };
    Ok((wanted, rest))
}

/// Reads the lines of names to the end of a text. `first` is the number of the first of them.
fn read_names(alloc: Global, text: &[u8], first: u64) -> Result<DeclaredNames, ConfigFault>
    requires { first ≤ LINE_BEHIND_HEAD + 1 }
    ensures writable { IfOk result (λ read. AreWritableNames (texts read.names.items) read.positions.items) }
    ensures found { IfOk result (λ read. text.now
        ≡ lines_text (name_lines (texts read.names.items) read.positions.items)) }
    ensures whole { OnOk result (fault_from first [] text.now ≡ None) }
    ensures fault { IfErr result (λ fault. (fault ≡ ConfigFault.OutOfMemory)
        ⊎ (option_map ConfigFault.Line (fault_from first [] text.now) ≡ Some fault)) }
{
    let mut names = Vec::new(alloc);
    let mut positions = Vec::new(alloc);
    let mut number = first;
    let mut rest = text;
    while !rest.is_empty() {
        let (declared, behind) = take_name(rest, number)?;
        names.push(String::from_str(alloc, declared.name)?)?;
        positions.push(declared.position)?;
        number += 1;
        rest = behind;
    }
    Ok(DeclaredNames { names, positions })
}

/// Reads a whole text, and checks no limit.
fn read_text(alloc: Global, text: &[u8]) -> Result<ReadText, ConfigFault>
    ensures found { IfOk result (λ read. IsTextOf (settings_in read.wanted (texts read.declared.names.items))
        read.declared.positions.items read.floor text.now) }
    ensures fault { IfErr result (λ fault. (fault ≡ ConfigFault.OutOfMemory)
        ⊎ (option_map ConfigFault.Line (faulty_line text.now) ≡ Some fault)) }
{
    let (wanted, rest) = take_head(text)?;
    let floored = take_floor(rest, LINE_BEHIND_HEAD);
    let declared = read_names(alloc, floored.rest, floored.number)?;
    Ok(ReadText {
        wanted,
        floor: floored.floor,
        declared,
    })
}

/// Returns what was read, if it is within the limits.
fn within_limits(read: ReadText) -> Result<SavedConfig, ConfigFault>
    ensures accepted { IfOk result (λ saved. Saves saved (settings_in read.wanted (texts read.declared.names.items))
        read.declared.positions.items read.floor) }
    ensures refused { IfErr result (λ fault. RefusesSaved fault
        (settings_in read.wanted (texts read.declared.names.items)) read.floor) }
{
    let ReadText {
        wanted,
        floor,
        declared,
    } = read;
    let DeclaredNames { names, positions } = declared;
    let config = wanted.config(names)?;
    let Some(floor) = floor_within(floor) else {
        return Err(ConfigFault::BadConfig);
    };
    Ok(SavedConfig {
        config,
        positions,
        floor,
    })
}

/// Returns the floor, if a cycle may have this number.
fn floor_within(floor: u64) -> Option<u32>
    ensures { MatchOption result (LAST_CYCLE < floor) (λ within. (within ≡ floor) × (floor ≤ LAST_CYCLE)) }
{
    if floor > u64::from(LAST_CYCLE) {
        return None;
    }
    Some(floor as u32)
}

/// Reads the text of `queue.cqc` (ours; Chronicle Queue has no rule for it). Each line ends with a line feed. The lines
/// give, in this order:
///
/// - the version;
/// - the roll;
/// - the epoch, in milliseconds of Unix time;
/// - the cells, the index count and the index spacing of a cycle's shape;
/// - the number of cycles;
/// - the floor, if it is not 0;
/// - each name with its position.
///
/// Errors:
/// - `Line(n)`: line n, counted from 1, is the first that is not one whole line of the format in its place.
/// - `BadShape`: the text is of the format, and its measures are outside the limits of a shape.
/// - `BadConfig`: the text is of the format, and another setting or a name is outside the limits of a configuration, or
///   the floor is above `LAST_CYCLE`.
/// - `OutOfMemory`: out of memory. It can come in place of each of the others.
pub fn read_config(alloc: Global, text: &[u8]) -> Result<SavedConfig, ConfigFault>
    ensures found { IfOk result (λ saved. IsTextOf saved.config saved.positions.items saved.floor text.now
        × IsLawfulSettings saved.config) }
    ensures low { IfOk result (λ saved. saved.floor ≤ LAST_CYCLE) }
    ensures refused { IfErr result (λ fault. RefusesText fault text.now) }

    // A text is that of at most one list of settings and positions and one floor, and then it has no faulty line.
    ensures only { (settings : Settings) (positions : List ℕ) (floor : ℕ) → IsTextOf settings positions floor text.now
        → Judges result settings positions floor }
    ensures faulty { (number : ℕ) → faulty_line text.now ≡ Some number
        → (result ≡ Err (ConfigFault.Line number)) ⊎ (result ≡ Err ConfigFault.OutOfMemory) }
{
    match read_text(alloc, text) {
        Ok(read) => within_limits(read),
        Err(fault) => Err(fault),
    }
}
