//! Civil dates: their day numbers, and how names write them.

ghost use Rattle.std.specs.Prelude.{◌≡◌, ◌<◌, ◌≤◌, ◌++◌, ℕ, List, OnOk, IfSome, IsSomeAnd, Some, string_bytes};

use crate::digits::{push_four_digits, push_two_digits, take_four_digits, take_two_digits};
use jiff_core::civil::Date;
use std::alloc::AllocError;

/// The day number of the last day of the year 9999, counted from 1970-01-01.
const LAST_DAY: u64 = 2_932_896;

/// A date as a name writes it, in eight digits. The calendar need not have it.
#[derive(Clone, Copy)]
pub(crate) struct WrittenDate {
    pub(crate) year: u16,
    pub(crate) month: u8,
    pub(crate) day: u8,
    ghost year_fits: { year < 10000 },
    ghost month_fits: { month < 100 },
    ghost day_fits: { day < 100 },
}

impl WrittenDate {
    ghost use Rattle.cq_cycle.specs.Name.{IsDateOf, date_text};

    /// Returns the date with this day number, counted from 1970-01-01.
    pub(crate) fn of_day(number: u64) -> WrittenDate
        requires { number ≤ LAST_DAY }
        ensures { IsDateOf number result.year result.month result.day }
    {
        let date = Date::from_unix_epoch_day(number as i64).unwrap();
        WrittenDate {
            year: date.year as u16,
            month: date.month,
            day: date.day,
        }
    }

    /// Returns the day number of the date if the calendar has it and it is not before 1970.
    pub(crate) fn day_number(self) -> Option<u64>
        ensures bound { IfSome result (λ number. number ≤ LAST_DAY) }
        ensures found { IfSome result (λ number. IsDateOf number self.year self.month self.day) }
        ensures only { (number : ℕ) → IsDateOf number self.year self.month self.day → result ≡ Some number }
    {
        let Ok(date) = Date::new(self.year as i16, self.month as i8, self.day as i8) else {
            return None;
        };
        u64::try_from(date.to_unix_epoch_day()).ok()
    }

    /// Writes the eight digits of the date at the end of a text.
    pub(crate) fn push_to(self, text: &mut String) -> Result<(), AllocError>
        ensures { OnOk result
            (string_bytes text.new ≡ string_bytes text.old ++ date_text self.year self.month self.day) }
    {
        push_four_digits(text, self.year)?;
        push_two_digits(text, self.month)?;
        push_two_digits(text, self.day)
    }

    /// Reads the date in the first eight digits of a text. Returns it and the text after them.
    pub(crate) fn take_from(text: &[u8]) -> Option<(WrittenDate, &[u8])>
        ensures found { IfSome result (λ taken.
            text.now ≡ date_text taken.0.year taken.0.month taken.0.day ++ taken.1.now) }
        ensures only { (year month day : ℕ) (rest : List ℕ) → year < 10000 → month < 100 → day < 100
            → text.now ≡ date_text year month day ++ rest
            → IsSomeAnd result (λ taken. (taken.0.year ≡ year) × (taken.0.month ≡ month) × (taken.0.day ≡ day)
            × (taken.1.now ≡ rest)) }
    {
        let (year, rest) = take_four_digits(text)?;
        let (month, rest) = take_two_digits(rest)?;
        let (day, rest) = take_two_digits(rest)?;
        Some((WrittenDate { year, month, day }, rest))
    }
}
