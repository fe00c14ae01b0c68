ghost use Rattle.std.specs.Prelude.{◌≡◌, ◌↔◌, ◌+◌, ◌++◌, ◌∷◌, ◌<◌, ◌^◌, ℕ, [], IfOk, IfSome, IsSomeAnd, IsTrue, List, OnErr, OnOk, String, codes, map, string_bytes, take, vec_len};
ghost use Rattle.cq_real_folder.specs.Record.{AreFileNames, BeginsWithNoName, HasParts, IsFileName, IsKeptName, IsPartName, IsRecord, IsRecordOf, form_of, name_text, names_after, part_name, record_lines, record_text, removal_text, with_saved};

use cq_folder::{CONFIG_FILE, IMAGE_ENDING, LOG_FILE, PART_ENDING, RECORD_FILE, has_name};
use std::alloc::{AllocError, Global};

/// The ending of the names of files that are kept when others replace them, as `repair` does.
const KEPT_ENDING: &str = ".bad";

/// What a save has to do once its parts are written: the part of each file, which a process wrote next to it, replaces the
/// file, and then other files are removed.
#[derive(Drop)]
pub(crate) struct Record {
    /// The number of the process that wrote the parts.
    pub process: u32,
    /// The names of the files that parts replace.
    pub names: Vec<String>,
    /// The names of the files that are removed.
    pub removed: Vec<String>,
}

impl Record {
    /// Returns the form of the record's text: 1 if no file is removed, and else 2.
    fn form(&self) -> u32
        ensures { result ≡ form_of self.now.removed.items }
    {
        if self.removed.is_empty() { 1 } else { 2 }
    }

    /// Returns the text of the record: `cq save 1` or `cq save 2`, the process, the names, in form 2 an empty line and the
    /// removed names, and `end`, each on a line.
    pub fn text(&self, alloc: Global) -> Result<String, AllocError>
        ensures { IfOk result (λ text. string_bytes text ≡ record_text self.now.process self.now.names.items self.now.removed.items) }
    {
        let mut text = format!(in alloc; "cq save {}\n{}\n", self.form(), self.process)?;
        push_names(&mut text, self.names.as_slice())?;
        push_removed(&mut text, self.removed.as_slice())?;
        text.push_str("end\n")?;
        Ok(text)
    }

    /// Returns the record with this text, which names at least one file; `None` if there is none.
    ///
    /// Each record of a save is read back from its text, for any process and any number of files, unless out of memory.
    /// A record is read only if the text is its own. It names only files of a queue, in no other folder.
    ///
    /// Errors:
    /// - `AllocError`: out of memory. It allocates the names, and the text once more.
    pub fn read(alloc: Global, text: &[u8]) -> Result<Option<Record>, AllocError>
        ensures form { IfOk result (λ read. IfSome read (λ found.
            text.now ≡ record_text found.process found.names.items found.removed.items)) }
        ensures some { IfOk result (λ read. IfSome read (λ found. 0 < vec_len found.names + vec_len found.removed)) }
        ensures names { IfOk result (λ read. IfSome read (λ found. AreFileNames found.names.items)) }
        ensures removed { IfOk result (λ read. IfSome read (λ found. AreFileNames found.removed.items)) }
        ensures only { (process : ℕ) (names removed : List (String Global)) → IsRecord process names removed
            → text.now ≡ record_text process names removed
            → IfOk result (λ read. IsSomeAnd read (λ found. IsRecordOf found process names removed)) }
    {
        let Some(record) = Record::of_lines(alloc, text)? else {
            return Ok(None);
        };
        if record.names_none() {
            return Ok(None);
        }
        if record.text(alloc)?.as_bytes() != text {
            return Ok(None);
        }
        Ok(Some(record))
    }

    /// Returns whether the record names no file at all.
    fn names_none(&self) -> bool
        ensures { IsTrue result ↔ (vec_len self.now.names + vec_len self.now.removed ≡ 0) }
    {
        self.names.is_empty() && self.removed.is_empty()
    }

    /// Makes the names of the files in a folder those that the folder has once the save is done. After an error no name is
    /// removed, and only some of those that the save adds are there.
    pub fn apply(&self, alloc: Global, names: &mut Vec<String>) -> Result<(), AllocError>
        ensures done { OnOk result (map string_bytes names.new.items ≡ names_after
            (map string_bytes self.now.names.items) (map string_bytes self.now.removed.items) (map string_bytes names.old.items)) }
        ensures begun { OnErr result ((k : ℕ) × (map string_bytes names.new.items
            ≡ with_saved (map string_bytes names.old.items) (map string_bytes (take k self.now.names.items)))) }
    {
        for name in &self.names {
            push_new(alloc, names, name.as_str())?;
        }
        names.retain(|name| !has_name(self.removed.as_slice(), name.as_str()));
        Ok(())
    }

    /// Returns the process and the names on the lines of a text, whose form is not checked in full.
    fn of_lines(alloc: Global, text: &[u8]) -> Result<Option<Record>, AllocError>
        ensures names { IfOk result (λ read. IfSome read (λ found. AreFileNames found.names.items)) }
        ensures removed { IfOk result (λ read. IfSome read (λ found. AreFileNames found.removed.items)) }
        ensures only { (process : ℕ) (names removed : List (String Global)) → IsRecord process names removed
            → text.now ≡ record_text process names removed
            → IfOk result (λ read. IsSomeAnd read (λ found. IsRecordOf found process names removed)) }
    {
        let Ok(text) = str::from_utf8(text) else {
            return Ok(None);
        };
        let Some((process, lines)) = parts_of(text) else {
            return Ok(None);
        };
        let (names, rest) = names_on(alloc, lines)?;
        let removed = removed_on(alloc, rest)?;
        Ok(Some(Record {
            process,
            names,
            removed,
        }))
    }
}

/// Adds a name, unless it is among them. After an error it is not added.
fn push_new(alloc: Global, names: &mut Vec<String>, name: &str) -> Result<(), AllocError>
    ensures added { OnOk result (map string_bytes names.new.items
        ≡ with_saved (map string_bytes names.old.items) (name.now ∷ [])) }
    ensures kept { OnErr result (names.new.items ≡ names.old.items) }
{
    if has_name(names.as_slice(), name) {
        return Ok(());
    }
    names.push(String::from_str(alloc, name)?)?;
    Ok(())
}

/// Adds names to a text, each on a line.
fn push_names(text: &mut String, names: &[String]) -> Result<(), AllocError>
    ensures { OnOk result (string_bytes text.new ≡ string_bytes text.old ++ name_text names.now) }
{
    for name in names {
        text.push_str(name.as_str())?;
        text.push_str("\n")?;
    }
    Ok(())
}

/// Adds an empty line to a text, and then the names of the files that are removed. If none is, it adds nothing.
fn push_removed(text: &mut String, removed: &[String]) -> Result<(), AllocError>
    ensures { OnOk result (string_bytes text.new ≡ string_bytes text.old ++ removal_text removed.now) }
{
    if removed.is_empty() {
        return Ok(());
    }
    text.push_str("\n")?;
    push_names(text, removed)?;
    Ok(())
}

/// Returns the number of the process and the lines that follow it in the text of a record. The form may be any line, and
/// the number may have a sign or leading zeros.
fn parts_of(text: &str) -> Option<(u32, &str)>
    ensures { (process : ℕ) (names removed : List (String Global)) → process < 2 ^ 32 → text.now ≡ record_text process names removed
        → IsSomeAnd result (λ found. (found.0 ≡ process) × (found.1.now ≡ record_lines names removed)) }
{
    let lines = text.strip_prefix("cq save ")?;
    let (_form, lines) = lines.split_once('\n')?;
    let (word, names) = lines.split_once('\n')?;
    let process = word.parse().ok()?;
    Some((process, names))
}

/// Returns the names on the first lines of a text, up to a line that a record cannot have as a name, and the text from
/// there on.
fn names_on(alloc: Global, text: &str) -> Result<(Vec<String>, &str), AllocError>
    ensures all { IfOk result (λ read. text.now ≡ name_text read.0.items ++ read.1.now) }
    ensures names { IfOk result (λ read. AreFileNames read.0.items) }
    ensures no_more { IfOk result (λ read. BeginsWithNoName read.1.now) }
{
    let mut names = Vec::new(alloc);
    let mut rest = text;
    while let Some((line, after)) = rest.split_once('\n') {
        if !is_file_name(line) {
            return Ok((names, rest));
        }
        names.push(String::from_str(alloc, line)?)?;
        rest = after;
    }
    Ok((names, rest))
}

/// Returns the names of the files that are removed, on the lines after an empty one; none if the first line is not empty.
fn removed_on(alloc: Global, text: &str) -> Result<Vec<String>, AllocError>
    ensures names { IfOk result (λ removed. AreFileNames removed.items) }
    ensures only { (removed : List (String Global)) → AreFileNames removed → text.now ≡ removal_text removed ++ codes "end\n"
        → IfOk result (λ found. map string_bytes found.items ≡ map string_bytes removed) }
{
    match text.strip_prefix('\n') {
        Some(lines) => Ok(names_on(alloc, lines)?.0),
        None => Ok(Vec::new(alloc)),
    }
}

/// Returns whether a record can name the file: by its name it is an image, `queue.cqc` or `queue.log`, and in no other
/// folder.
pub(crate) fn is_file_name(name: &str) -> bool
    ensures { IsTrue result ↔ IsFileName name.now }
{
    let bytes = name.as_bytes();
    if bytes.contains(&b'/') || bytes.contains(&b'\n') {
        return false;
    }
    name == CONFIG_FILE || name == LOG_FILE || bytes.ends_with(IMAGE_ENDING.as_bytes())
}

/// Returns the name of the part of a file that the process with this number writes.
pub(crate) fn part_name(alloc: Global, file: &str, process: u32) -> Result<String, AllocError>
    ensures { IfOk result (λ name. string_bytes name ≡ part_name file.now process) }
{
    format!(in alloc; "{file}.{process}{PART_ENDING}")
}

/// Returns whether a file is a part by its name, `FILE.NUMBER.part`. FILE is the record or a file that a record can
/// name, and NUMBER is below 2^32, in decimal without leading zeros. It allocates the name once more.
pub(crate) fn is_part_name(alloc: Global, name: &str) -> Result<bool, AllocError>
    ensures { IfOk result (λ is_part. IsTrue is_part ↔ IsPartName name.now) }
{
    let Some((file, process)) = part_in(name) else {
        return Ok(false);
    };
    if !has_parts(file) {
        return Ok(false);
    }
    Ok(part_name(alloc, file, process)?.as_str() == name)
}

/// Returns the file and the number of the process in the name of a part. The number may have a sign or leading zeros.
fn part_in(name: &str) -> Option<(&str, u32)>
    ensures { (file : List ℕ) (process : ℕ) → process < 2 ^ 32 → name.now ≡ part_name file process
        → IsSomeAnd result (λ found. (found.0.now ≡ file) × (found.1 ≡ process)) }
{
    let front = name.strip_suffix(PART_ENDING)?;
    let dot = front.rfind('.')?;
    let process = front[dot + 1..].parse().ok()?;
    Some((&front[..dot], process))
}

/// Returns whether parts of the file are written: it is the record, a record can name it, or it is kept for such a file.
fn has_parts(file: &str) -> bool
    ensures { IsTrue result ↔ HasParts file.now }
{
    file == RECORD_FILE || is_file_name(file) || is_kept_name(file)
}

/// Returns whether a file is kept, by its name, for one that a record can name.
fn is_kept_name(file: &str) -> bool
    ensures { IsTrue result ↔ IsKeptName file.now }
{
    match file.strip_suffix(KEPT_ENDING) {
        Some(replaced) => is_file_name(replaced),
        None => false,
    }
}
