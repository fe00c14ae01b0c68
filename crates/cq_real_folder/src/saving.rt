//! Makes the record of a save.

ghost use Rattle.std.specs.Prelude.{◌≡◌, ◌++◌, ◌∷◌, [], IfErr, IfOk, IsErrAnd, OnErr, OnOk, map, string_bytes};
ghost use Rattle.std.specs.IoError.{error_kind};
ghost use Rattle.cq_real_folder.specs.Record.{AreFileNames, CanBeRecorded, IsFileName, IsNamingError};

use crate::record::{Record, is_file_name};
use cq_folder::NewFile;
use std::alloc::Global;
use std::io::{self, ErrorKind};

/// Returns the record of a save: its process, and the files in their order. The error is `InvalidFilename` if the record
/// cannot name a file.
pub(crate) fn record_of(
    alloc: Global,
    process: u32,
    changes: &[NewFile],
    removed: &[String],
) -> io::Result<Record>
    ensures process { IfOk result (λ made. made.process ≡ process) }
    ensures names { IfOk result (λ made. map string_bytes made.names.items
        ≡ map (λ file. string_bytes file.name) changes.now) }
    ensures removed { IfOk result (λ made. map string_bytes made.removed.items ≡ map string_bytes removed.now) }
    ensures files { IfOk result (λ made. AreFileNames made.names.items) }
    ensures removals { IfOk result (λ made. AreFileNames made.removed.items) }
    ensures error { IfErr result (IsNamingError (¬ CanBeRecorded changes.now removed.now)) }
{
    let mut names = Vec::new(alloc);
    for file in changes {
        push_file_name(alloc, &mut names, file.name.as_str())?;
    }
    let removed = file_names(alloc, removed)?;
    Ok(Record {
        process,
        names,
        removed,
    })
}

/// Returns a copy of names. The error is `InvalidFilename` if a record cannot have one.
fn file_names(alloc: Global, given: &[String]) -> io::Result<Vec<String>>
    ensures names { IfOk result (λ names. map string_bytes names.items ≡ map string_bytes given.now) }
    ensures files { IfOk result (λ names. AreFileNames names.items) }
    ensures error { IfErr result (IsNamingError (¬ AreFileNames given.now)) }
{
    let mut names = Vec::new(alloc);
    for name in given {
        push_file_name(alloc, &mut names, name.as_str())?;
    }
    Ok(names)
}

/// Adds a name. The error is `InvalidFilename` if a record cannot have it. After an error no name is added.
fn push_file_name(alloc: Global, names: &mut Vec<String>, name: &str) -> io::Result<()>
    ensures name { OnOk result (map string_bytes names.new.items ≡ map string_bytes names.old.items ++ name.now ∷ []) }
    ensures files { AreFileNames names.old.items → OnOk result (AreFileNames names.new.items) }
    ensures refused { ¬ IsFileName name.now → IsErrAnd result (λ error. error_kind error ≡ ErrorKind.InvalidFilename) }
    ensures error { IfErr result (IsNamingError (¬ IsFileName name.now)) }
    ensures kept { OnErr result (names.new.items ≡ names.old.items) }
{
    if !is_file_name(name) {
        return Err(io::Error::from(ErrorKind::InvalidFilename));
    }
    names.push(String::from_str(alloc, name)?)?;
    Ok(())
}
