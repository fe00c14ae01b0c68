//! The cycle that a word means.

ghost use Rattle.std.specs.Prelude.{IfErr, IfOk};
ghost use Rattle.cq_points.specs.Points.{IsPointFault};
ghost use Rattle.cq_trim.specs.Words.{MeansCycle};

use cq_model::Config;
use cq_points::point_meant;
use cq_text::ToolFault;

/// Returns the cycle of the index that a word means, of a queue with these settings: see `point_meant`.
///
/// Errors:
/// - `BadMoment`: the word tells a moment, which lies in no cycle;
/// - `BadIndex`: the word is none of an index, a moment and the name of a cycle.
pub fn cycle_meant(config: &Config, word: &str) -> Result<u32, ToolFault>
    ensures found { IfOk result (MeansCycle config.now word.now) }
    ensures fault { IfErr result (IsPointFault config.now.roll config.now.epoch word.now) }
{
    let point = point_meant(config.roll(), config.epoch(), word)?;
    Ok(point.cycle())
}
