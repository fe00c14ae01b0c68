//! Words of a line, and lines of a text.

ghost use Rattle.std.specs.Prelude.{◌≡◌, ◌≢◌, ◌==◌, ◌++◌, ◌∷◌, ◌<◌, ◌≤◌, ◌^◌, ℕ, [], length, IfSome, IfNone, IsSome, IsTrue, Some, slice_index};
ghost use Rattle.std.specs.Fmt.{decimal};
ghost use Rattle.std.specs.List.{slice_split};
ghost use Rattle.std.specs.Str.{IsUtf8};
ghost use Rattle.cq_cycle.specs.RollWord.{roll_word};
ghost use Rattle.cq_cycle.specs.declared.roll.Roll.{Roll};
ghost use Rattle.cq_config_text.specs.ConfigText.{IsNameWord};

use cq_cycle::{Roll, roll_named};
use cq_model::is_name_byte;
use std::str;

/// Returns the bytes before the first mark, and those after it.
pub(crate) fn cut(bytes: &[u8], mark: u8) -> Option<(&[u8], &[u8])>
    ensures found { IfSome result (λ parts. bytes.now ≡ parts.0.now ++ mark ∷ parts.1.now) }
    ensures parts { IfSome result (λ parts. slice_split (λ byte. byte == mark) bytes.now
        ≡ parts.0.now ∷ slice_split (λ byte. byte == mark) parts.1.now) }
    ensures none { IfNone result (slice_split (λ byte. byte == mark) bytes.now ≡ bytes.now ∷ []) }
{
    let at = place_of(bytes, mark)?;
    Some((&bytes[..at], &bytes[at + 1..]))
}

/// Returns the place of the first mark.
fn place_of(bytes: &[u8], mark: u8) -> Option<usize>
    ensures found { IfSome result (λ at. (at < length bytes.now) × (slice_index bytes.now at ≡ mark)
        × ((k : ℕ) → k < at → slice_index bytes.now k ≢ mark)) }
    ensures none { IfNone result ((k : ℕ) → k < length bytes.now → slice_index bytes.now k ≢ mark) }
{
    bytes.iter().position(|byte| *byte == mark)
}

/// Returns the number below 2^64 that a word spells in decimal, without leading zeros.
pub(crate) fn number_of(word: &[u8]) -> Option<u64>
    ensures found { IfSome result (λ number. (number < 2 ^ 64) × (word.now ≡ decimal number)) }
    ensures only { (number : ℕ) → number < 2 ^ 64 → word.now ≡ decimal number → result ≡ Some number }
{
    if !begins_as_number(word) {
        return None;
    }
    text_of(word)?.parse().ok()
}

/// Returns the number of at least 1 that a word spells so.
pub(crate) fn positive_of(word: &[u8]) -> Option<u64>
    ensures found { IfSome result (λ number. (0 < number) × (number < 2 ^ 64) × (word.now ≡ decimal number)) }
    ensures only { (number : ℕ) → 0 < number → number < 2 ^ 64 → word.now ≡ decimal number
        → result ≡ Some number }
{
    let number = number_of(word)?;
    if number == 0 {
        return None;
    }
    Some(number)
}

/// Returns whether the word begins as a number does. `parse` would take a plus sign and leading zeros too.
fn begins_as_number(word: &[u8]) -> bool
    ensures digit { IsTrue result → 48 ≤ slice_index word.now 0 }
    ensures alone { IsTrue result → slice_index word.now 0 ≡ 48 → length word.now ≡ 1 }
    ensures only { (number : ℕ) → number < 2 ^ 64 → word.now ≡ decimal number → IsTrue result }
{
    if word.is_empty() {
        return false;
    }
    if word[0] == b'0' {
        return word.len() == 1;
    }
    word[0].is_ascii_digit()
}

/// Returns the roll that a word names.
pub(crate) fn roll_of(word: &[u8]) -> Option<Roll>
    ensures found { IfSome result (λ roll. word.now ≡ roll_word roll) }
    ensures only { (roll : Roll) → word.now ≡ roll_word roll → result ≡ Some roll }
{
    roll_named(text_of(word)?)
}

/// Returns the name that a word is: one or more letters, digits, `_`, `-` and `.`.
pub(crate) fn name_of(word: &[u8]) -> Option<&str>
    ensures found { IfSome result (λ name. (name.now ≡ word.now) × IsNameWord word.now) }
    ensures only { IsNameWord word.now → IsSome result }
{
    if word.is_empty() {
        return None;
    }
    if !word.iter().all(|byte| is_name_byte(*byte)) {
        return None;
    }
    text_of(word)
}

/// Returns the bytes as a text, if they are one.
fn text_of(bytes: &[u8]) -> Option<&str>
    ensures found { IfSome result (λ text. text.now ≡ bytes.now) }
    ensures only { IsUtf8 bytes.now → IsSome result }
{
    str::from_utf8(bytes).ok()
}
