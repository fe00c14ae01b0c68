//! The numbers of rolls.
ghost use Rattle.std.specs.Prelude.{◌≡◌, IfNone, IfSome};
ghost use Rattle.cq_foreign.specs.Rolls.{HasNoRoll, roll_number};

use cq_cycle::{ROLLS, Roll};

/// Returns the roll that has this number: 0 a day, 1 an hour, 2 a minute.
pub fn roll_of(number: u32) -> Option<Roll>
    ensures found { IfSome result (λ roll. roll_number roll ≡ number) }
    ensures none { IfNone result (HasNoRoll number) }
{
    ROLLS.into_iter().find(|roll| roll_number(*roll) == number)
}

/// Returns the number of a roll.
pub fn roll_number(roll: Roll) -> u32
    ensures { result ≡ roll_number roll }
{
    roll as u32
}
