ghost use Rattle.std.specs.Prelude.{◌≡◌, ◌<◌, ◌^◌, ◌↔◌, ◌⊎◌, ℕ, EachIndex, IfErr, IfOk, IfSome, IsTrue, MatchResult, Some, length, slice_index};
ghost use Rattle.std.specs.Int.{IsInRange};
ghost use Rattle.cq_cycle.specs.Cycle.{HasCycle, IsMoment, cycle_of};
ghost use Rattle.cq_cycle.specs.Index.{index_text};
ghost use Rattle.cq_cycle.specs.Name.{IsName, NamesNoCycle};
ghost use Rattle.cq_points.specs.Points.{IsPointFault, MeansPoint, SpellsMoment};

use cq_cycle::{Index, Roll, cycle_named, cycle_of};
use cq_text::ToolFault;

/// What a word for a moment begins with.
const MOMENT_SIGN: &str = "@";

/// Returns the index that a word means, in a queue of cycles with this roll and this epoch, in milliseconds of Unix time. The
/// word is one of these (ours):
/// - 16 lower-case hexadecimal digits: the index that they spell;
/// - `@` and the decimal digits of a moment, in milliseconds of Unix time: the first index of the cycle in which it lies;
/// - the name of a cycle: its first index.
///
/// Errors:
/// - `BadMoment`: the moment lies in no cycle;
/// - `BadIndex`: the word is none of these.
pub fn point_meant(roll: Roll, epoch: u64, word: &str) -> Result<Index, ToolFault>
    ensures found { IfOk result (MeansPoint roll epoch word.now) }
    ensures fault { IfErr result (IsPointFault roll epoch word.now) }
{
    match (index_spelled(word), moment_spelled(word)) {
        (Some(index), _) => Ok(index),
        (None, Some(moment)) => Ok(Index::new(cycle_at(roll, epoch, moment)?, 0)),
        (None, None) => Ok(Index::new(cycle_with_name(roll, epoch, word)?, 0)),
    }
}

/// Returns the index that 16 lower-case hexadecimal digits spell; `None` for any other word.
pub fn index_spelled(word: &str) -> Option<Index>
    ensures found { IfSome result (λ index. (index < 2 ^ 64) × (word.now ≡ index_text index)) }
    ensures only { (index : ℕ) → index < 2 ^ 64 → word.now ≡ index_text index → result ≡ Some index }
{
    let value = index_value(word)?;
    Some(Index::of_value(value))
}

/// Returns the cycle in which a moment lies.
fn cycle_at(roll: Roll, epoch: u64, moment: u64) -> Result<u32, ToolFault>
    ensures { MatchResult result
        (λ cycle. IsMoment roll epoch moment × (cycle ≡ cycle_of roll epoch moment))
        (λ fault. (fault ≡ ToolFault.BadMoment) × ¬ IsMoment roll epoch moment) }
{
    match cycle_of(roll, epoch, moment) {
        Ok(cycle) => Ok(cycle),
        Err(_) => Err(ToolFault::BadMoment),
    }
}

/// Returns the cycle with this name.
fn cycle_with_name(roll: Roll, epoch: u64, name: &str) -> Result<u32, ToolFault>
    ensures { MatchResult result
        (λ cycle. HasCycle roll epoch cycle × IsName roll epoch cycle name.now)
        (λ fault. (fault ≡ ToolFault.BadIndex) × NamesNoCycle roll epoch name.now) }
{
    match cycle_named(roll, epoch, name) {
        Ok(cycle) => Ok(cycle),
        Err(_) => Err(ToolFault::BadIndex),
    }
}

/// Returns the moment that a word spells.
fn moment_spelled(word: &str) -> Option<u64>
    ensures found { IfSome result (SpellsMoment word.now) }
    ensures only { (moment : ℕ) → SpellsMoment word.now moment → result ≡ Some moment }
{
    let digits = word.strip_prefix(MOMENT_SIGN)?;
    u64::from_str_radix(digits, 10).ok()
}

/// Returns the number that 16 lower-case hexadecimal digits spell.
fn index_value(word: &str) -> Option<u64>
    ensures found { IfSome result (λ index. word.now ≡ index_text index) }
    ensures only { (index : ℕ) → index < 2 ^ 64 → word.now ≡ index_text index → result ≡ Some index }
{
    if !is_index(word.as_bytes()) {
        return None;
    }
    u64::from_str_radix(word, 16).ok()
}

/// Returns whether a word is 16 lower-case hexadecimal digits.
fn is_index(word: &[u8]) -> bool
    ensures { IsTrue result ↔ ((length word.now ≡ 16) × (EachIndex word.now (λ k.
        IsInRange 48 57 (slice_index word.now k) ⊎ IsInRange 97 102 (slice_index word.now k)))) }
{
    if word.len() != 16 {
        return false;
    }
    word.iter().all(|digit| is_hexadecimal(*digit))
}

/// Returns whether a byte is a lower-case hexadecimal digit.
fn is_hexadecimal(digit: u8) -> bool
    ensures { IsTrue result ↔ (IsInRange 48 57 digit ⊎ IsInRange 97 102 digit) }
{
    matches!(digit, b'0'..=b'9' | b'a'..=b'f')
}
