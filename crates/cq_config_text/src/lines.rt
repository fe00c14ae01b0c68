//! Lines of `queue.cqc`, at the front of a text.

ghost use Rattle.std.specs.Prelude.{◌≡◌, ◌+◌, ◌++◌, ◌∷◌, ◌<◌, ◌≤◌, ◌^◌, ℕ, [], List, Bool, false, IfNone, length, IfErr, IfOk, IfSome, IsTrue, Some, codes, is_some};
ghost use Rattle.std.specs.Fmt.{decimal};
ghost use Rattle.std.specs.Str.{bytes_eq};
ghost use Rattle.cq_cycle.specs.RollWord.{roll_word};
ghost use Rattle.cq_config_text.specs.ConfigText.{Form, IsNameWord, fault_from, floor_form, floor_forms, floor_lines, has_form, is_name, is_number, line_at, line_of, lines_text, name_form, name_words, roll_form, setting_form, setting_words, version_form};
ghost use Rattle.cq_layout.specs.Version.{version_word};

use crate::config_fault::ConfigFault;
use crate::words::{cut, name_of, number_of, positive_of, roll_of};
use cq_cycle::Roll;
use cq_layout::FolderVersion;

/// A name of a tailer and its position.
#[derive(Clone, Copy)]
pub(crate) struct Declared<'a> {
    pub(crate) name: &'a str,
    pub(crate) position: u64,
}

/// The floor at the front of a text, and the text after it.
#[derive(Clone, Copy)]
pub(crate) struct Floored<'a> {
    /// The floor, which is 0 if no line gives it.
    pub(crate) floor: u64,
    /// The text after the line of the floor.
    pub(crate) rest: &'a [u8],
    /// The number of the first line in `rest`.
    pub(crate) number: u64,
}

/// Takes the line of the version, which has this number, off the front of a text.
pub(crate) fn take_version(text: &[u8], number: u64) -> Result<(FolderVersion, &[u8]), ConfigFault>
    ensures found { IfOk result (λ taken. text.now
        ≡ line_of (codes "cq" ∷ version_word taken.0 ∷ []) ++ 10 ∷ taken.1.now) }
    ensures next { IfOk result (λ taken. (forms : List Form)
        → fault_from number (version_form ∷ forms) text.now ≡ fault_from (number + 1) forms taken.1.now) }
    ensures fault { IfErr result (λ fault. (fault ≡ ConfigFault.Line number)
        × ((forms : List Form) → fault_from number (version_form ∷ forms) text.now ≡ Some number)) }
{
    let Some((line, rest)) = cut(text, b'\n') else {
        return Err(ConfigFault::Line(number));
    };
    let Some(version) = version_in(line) else {
        return Err(ConfigFault::Line(number));
    };
    Ok((version, rest))
}

/// Takes the line of the roll, which has this number, off the front of a text.
pub(crate) fn take_roll(text: &[u8], number: u64) -> Result<(Roll, &[u8]), ConfigFault>
    ensures found { IfOk result (λ taken. text.now
        ≡ line_of (codes "roll" ∷ roll_word taken.0 ∷ []) ++ 10 ∷ taken.1.now) }
    ensures next { IfOk result (λ taken. (forms : List Form)
        → fault_from number (roll_form ∷ forms) text.now ≡ fault_from (number + 1) forms taken.1.now) }
    ensures fault { IfErr result (λ fault. (fault ≡ ConfigFault.Line number)
        × ((forms : List Form) → fault_from number (roll_form ∷ forms) text.now ≡ Some number)) }
{
    let Some((line, rest)) = cut(text, b'\n') else {
        return Err(ConfigFault::Line(number));
    };
    let Some(roll) = roll_in(line) else {
        return Err(ConfigFault::Line(number));
    };
    Ok((roll, rest))
}

/// Takes the line that sets `key` to a number, and has this number, off the front of a text.
pub(crate) fn take_setting<'a>(
    text: &'a [u8],
    number: u64,
    key: &[u8],
) -> Result<(u64, &'a [u8]), ConfigFault>
    ensures found { IfOk result (λ taken. (taken.0 < 2 ^ 64)
        × (text.now ≡ line_of (setting_words key.now taken.0) ++ 10 ∷ taken.1.now)) }
    ensures next { IfOk result (λ taken. (forms : List Form)
        → fault_from number (setting_form key.now ∷ forms) text.now ≡ fault_from (number + 1) forms taken.1.now) }
    ensures fault { IfErr result (λ fault. (fault ≡ ConfigFault.Line number)
        × ((forms : List Form) → fault_from number (setting_form key.now ∷ forms) text.now ≡ Some number)) }
{
    let Some((line, rest)) = cut(text, b'\n') else {
        return Err(ConfigFault::Line(number));
    };
    let Some(value) = setting_in(line, key) else {
        return Err(ConfigFault::Line(number));
    };
    Ok((value, rest))
}

/// Takes the line with this number off the front of a text, if it gives the floor.
pub(crate) fn take_floor(text: &[u8], number: u64) -> Floored<'_>
    requires { number < 2 ^ 63 }
    ensures found { (result.floor < 2 ^ 64)
        × (text.now ≡ lines_text (floor_lines result.floor) ++ result.rest.now) }
    ensures next { fault_from number (floor_forms (line_at text.now 0)) text.now
        ≡ fault_from result.number [] result.rest.now }
    ensures counted { result.number ≤ number + 1 }
{
    match floor_line(text) {
        Some((floor, rest)) => Floored {
            floor,
            rest,
            number: number + 1,
        },
        None => Floored {
            floor: 0,
            rest: text,
            number,
        },
    }
}

/// Returns the floor that the first line of a text gives, and the text after that line.
fn floor_line(text: &[u8]) -> Option<(u64, &[u8])>
    ensures found { IfSome result (λ taken. (0 < taken.0) × (taken.0 < 2 ^ 64)
        × (text.now ≡ line_of (setting_words (codes "floor") taken.0) ++ 10 ∷ taken.1.now)) }
    ensures next { IfSome result (λ taken. (number : ℕ)
        → fault_from number (floor_forms (line_at text.now 0)) text.now ≡ fault_from (number + 1) [] taken.1.now) }
    ensures none { IfNone result ((number : ℕ)
        → fault_from number (floor_forms (line_at text.now 0)) text.now ≡ fault_from number [] text.now) }
{
    let (line, rest) = cut(text, b'\n')?;
    let floor = floor_in(line)?;
    Some((floor, rest))
}

/// Takes the line that declares a name, and has this number, off the front of a text that is not empty.
pub(crate) fn take_name(text: &[u8], number: u64) -> Result<(Declared<'_>, &[u8]), ConfigFault>
    requires { 0 < length text.now }
    ensures found { IfOk result (λ taken. (taken.0.position < 2 ^ 64) × IsNameWord taken.0.name.now
        × (text.now ≡ line_of (name_words (taken.0.name.now, taken.0.position)) ++ 10 ∷ taken.1.now)) }
    ensures shorter { IfOk result (λ taken. length taken.1.now < length text.now) }
    ensures next { IfOk result (λ taken. fault_from number [] text.now ≡ fault_from (number + 1) [] taken.1.now) }
    ensures fault { IfErr result (λ fault. (fault ≡ ConfigFault.Line number)
        × (fault_from number [] text.now ≡ Some number)) }
{
    let Some((line, rest)) = cut(text, b'\n') else {
        return Err(ConfigFault::Line(number));
    };
    let Some(declared) = name_in(line) else {
        return Err(ConfigFault::Line(number));
    };
    Ok((declared, rest))
}

/// Returns the version that a line gives.
fn version_in(line: &[u8]) -> Option<FolderVersion>
    ensures found { IfSome result (λ version. line.now ≡ line_of (codes "cq" ∷ version_word version ∷ [])) }
    ensures test { is_some result ≡ has_form version_form line.now }
{
    FolderVersion::named(behind_word(line, b"cq")?)
}

/// Returns the roll that a line gives.
fn roll_in(line: &[u8]) -> Option<Roll>
    ensures found { IfSome result (λ roll. line.now ≡ line_of (codes "roll" ∷ roll_word roll ∷ [])) }
    ensures test { is_some result ≡ has_form roll_form line.now }
{
    roll_of(behind_word(line, b"roll")?)
}

/// Returns the number to which a line sets `key`.
fn setting_in(line: &[u8], key: &[u8]) -> Option<u64>
    ensures found { IfSome result (λ value. (value < 2 ^ 64) × (line.now ≡ line_of (setting_words key.now value))) }
    ensures test { is_some result ≡ has_form (setting_form key.now) line.now }
{
    number_of(behind_word(line, key)?)
}

/// Returns the floor that a line gives.
fn floor_in(line: &[u8]) -> Option<u64>
    ensures found { IfSome result (λ floor. (0 < floor) × (floor < 2 ^ 64)
        × (line.now ≡ line_of (setting_words (codes "floor") floor))) }
    ensures test { is_some result ≡ has_form floor_form line.now }
{
    positive_of(behind_word(line, b"floor")?)
}

/// Returns the name and the position that a line declares.
fn name_in(line: &[u8]) -> Option<Declared<'_>>
    ensures found { IfSome result (λ declared. (declared.position < 2 ^ 64) × IsNameWord declared.name.now
        × (line.now ≡ line_of (name_words (declared.name.now, declared.position)))) }
    ensures test { is_some result ≡ has_form name_form line.now }
{
    declared_in(behind_word(line, b"name")?)
}

/// Returns the name and the position in the words of a declaration.
fn declared_in(words: &[u8]) -> Option<Declared<'_>>
    ensures found { IfSome result (λ declared. (declared.position < 2 ^ 64) × IsNameWord declared.name.now
        × (words.now ≡ line_of (declared.name.now ∷ decimal declared.position ∷ []))) }
    ensures test { is_some result ≡ has_form (is_name ∷ is_number ∷ []) words.now }
{
    let (name, position) = cut(words, b' ')?;
    let name = name_of(name)?;
    let position = number_of(position)?;
    Some(Declared { name, position })
}

/// Returns what follows the first word of a line, if that word is `key`.
fn behind_word<'a>(line: &'a [u8], key: &[u8]) -> Option<&'a [u8]>
    ensures found { IfSome result (λ rest. line.now ≡ key.now ++ 32 ∷ rest.now) }
    ensures form { IfSome result (λ rest. (tests : Form)
        → has_form (bytes_eq key.now ∷ tests) line.now ≡ has_form tests rest.now) }
    ensures none { IfNone result ((test : List ℕ → Bool) (tests : Form)
        → has_form (bytes_eq key.now ∷ test ∷ tests) line.now ≡ false) }
{
    let (word, rest) = cut(line, b' ')?;
    if key != word {
        return None;
    }
    Some(rest)
}
