//! Numbers of two and of four decimal digits, written and read.

ghost use Rattle.std.specs.Prelude.{◌≡◌, ◌<◌, ◌++◌, ℕ, List, OnOk, IfSome, IsSomeAnd, string_bytes};
ghost use Rattle.cq_cycle.specs.Name.{four_digits, two_digits};

use std::alloc::AllocError;

/// Writes the two digits of a number at the end of a text.
pub(crate) fn push_two_digits(text: &mut String, number: u8) -> Result<(), AllocError>
    requires { number < 100 }
    ensures { OnOk result (string_bytes text.new ≡ string_bytes text.old ++ two_digits number) }
{
    text.push(char::from(b'0' + number / 10))?;
    text.push(char::from(b'0' + number % 10))
}

/// Writes the four digits of a number at the end of a text.
pub(crate) fn push_four_digits(text: &mut String, number: u16) -> Result<(), AllocError>
    requires { number < 10000 }
    ensures { OnOk result (string_bytes text.new ≡ string_bytes text.old ++ four_digits number) }
{
    push_two_digits(text, (number / 100) as u8)?;
    push_two_digits(text, (number % 100) as u8)
}

/// Reads the number in the first two digits of a text. Returns it and the text after them.
pub(crate) fn take_two_digits(text: &[u8]) -> Option<(u8, &[u8])>
    ensures found { IfSome result (λ taken. (taken.0 < 100) × (text.now ≡ two_digits taken.0 ++ taken.1.now)) }
    ensures only { (number : ℕ) (rest : List ℕ) → number < 100 → text.now ≡ two_digits number ++ rest
        → IsSomeAnd result (λ taken. (taken.0 ≡ number) × (taken.1.now ≡ rest)) }
{
    let [tens, ones, rest @ ..] = text else {
        return None;
    };
    if !tens.is_ascii_digit() || !ones.is_ascii_digit() {
        return None;
    }
    Some(((tens - b'0') * 10 + (ones - b'0'), rest))
}

/// Reads the number in the first four digits of a text. Returns it and the text after them.
pub(crate) fn take_four_digits(text: &[u8]) -> Option<(u16, &[u8])>
    ensures found { IfSome result (λ taken. (taken.0 < 10000) × (text.now ≡ four_digits taken.0 ++ taken.1.now)) }
    ensures only { (number : ℕ) (rest : List ℕ) → number < 10000 → text.now ≡ four_digits number ++ rest
        → IsSomeAnd result (λ taken. (taken.0 ≡ number) × (taken.1.now ≡ rest)) }
{
    let (hundreds, rest) = take_two_digits(text)?;
    let (ones, rest) = take_two_digits(rest)?;
    Some((u16::from(hundreds) * 100 + u16::from(ones), rest))
}
