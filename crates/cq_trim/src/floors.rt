//! The floor that a queue gets.

ghost use Rattle.std.specs.Prelude.{◌≡◌, ◌≤◌, IfErr, IfOk, IfSome, MatchOption, length, max, min, option_map, string_bytes};
ghost use Rattle.cq_trim.specs.Floors.{IsBefore, IsTrimFloor, IsBeforeFault, first_kept, keeps_from, raised_floor};

use crate::words::cycle_meant;
use cq_model::{Config, Contents, CycleList, last_cycle};
use cq_orders::TrimSettings;
use cq_text::ToolFault;

/// Returns the floor that the queue gets: it never falls, and is never above the last cycle.
pub(crate) fn floor_for(
    config: &Config,
    contents: &Contents,
    settings: &TrimSettings,
) -> Result<u32, ToolFault>
    ensures floor { IfOk result (IsTrimFloor config.now contents.now settings.now) }
    ensures fault { IfErr result (IsBeforeFault config.now (option_map string_bytes settings.now.before)) }
{
    let lists = contents.lists.as_slice();
    let before = cycle_before(config, &settings.before)?;
    let wanted = before.max(keeps_from(lists, settings.keep));
    Ok(contents.floor.max(wanted.min(last_cycle(lists))))
}

/// Returns the cycle before which all are to be dropped, and 0 if no word was given for it.
fn cycle_before(config: &Config, word: &Option<String>) -> Result<u32, ToolFault>
    ensures found { IfOk result (IsBefore config.now (option_map string_bytes word.now)) }
    ensures fault { IfErr result (IsBeforeFault config.now (option_map string_bytes word.now)) }
{
    match word {
        None => Ok(0),
        Some(word) => cycle_meant(config, word.as_str()),
    }
}

/// Returns the first cycle that is kept if the last ones are, and 0 if no number was given for them.
fn keeps_from(lists: &[CycleList], keep: Option<u64>) -> u32
    ensures { result ≡ keeps_from lists.now keep }
{
    match keep {
        None => 0,
        Some(count) => first_kept(lists, count),
    }
}

/// Returns the first of the last `count` cycles, of which there is one at least, and 0 if there are no more than those.
fn first_kept(lists: &[CycleList], count: u64) -> u32
    ensures { result ≡ first_kept lists.now count }
{
    let begun = lists.len() as u64;
    let kept = count.max(1);
    if kept >= begun {
        return 0;
    }
    lists[(begun - kept) as usize].cycle
}
