//! The words that name the rolls.

ghost use Rattle.std.specs.Prelude.{◌≡◌, IfSome, Some};
ghost use Rattle.cq_cycle.specs.declared.roll.Roll.{Roll};
ghost use Rattle.cq_cycle.specs.RollWord.{roll_word};

use crate::{ROLLS, Roll};
use std::fmt;

/// Returns the roll that a word names: `daily`, `hourly` or `minutely` (ours; Chronicle Queue has no rule for it).
/// Returns `None` for any other word.
pub fn roll_named(word: &str) -> Option<Roll>
    ensures found { IfSome result (λ roll. word.now ≡ roll_word roll) }
    ensures only { (roll : Roll) → word.now ≡ roll_word roll → result ≡ Some roll }
{
    ROLLS.into_iter().find(|roll| word_of(*roll) == word)
}

/// Returns the word that names a roll.
fn word_of(roll: Roll) -> &'static str
    ensures { result.now ≡ roll_word roll }
{
    match roll {
        Roll::Daily => "daily",
        Roll::Hourly => "hourly",
        Roll::Minutely => "minutely",
    }
}

impl fmt::Display for Roll {
    ghost use Rattle.std.specs.Prelude.{Some};
    ghost use Rattle.cq_cycle.specs.RollWord.{roll_word};

    ghost output = { λ roll. Some (roll_word roll) };

    fn fmt<W: fmt::Write>(&self, f: &mut fmt::Formatter<W>) -> fmt::Result {
        f.write_str(word_of(*self))
    }
}
