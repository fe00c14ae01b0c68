//! What is shown in place of files.
ghost use Rattle.std.specs.Prelude.{◌≡◌, IfOk, MatchOption, Some, map};
ghost use Rattle.cq_folder.specs.Folder.{Files, IsCounted, ListsFiles, after_writes, named_file};
ghost use Rattle.cq_model.specs.Settings.{texts};

use cq_folder::{FolderFault, NewFile, has_name};
use std::alloc::{AllocError, Global};

/// Counts a failure of the device.
pub(crate) fn count<T>(failures: &mut u64, outcome: &Result<T, FolderFault>)
    ensures { IsCounted failures.old failures.new outcome.now }
{
    if let Err(FolderFault::Device) = outcome {
        *failures = failures.saturating_add(1);
    }
}

/// Returns what is shown under a name.
pub(crate) fn shown_at<'a>(shown: &'a [NewFile], name: &str) -> Option<&'a NewFile>
    ensures { MatchOption result ((files : Files) → after_writes (map named_file shown.now) files name.now ≡ files name.now)
        (λ file. (files : Files) → after_writes (map named_file shown.now) files name.now ≡ Some file.now.bytes.items) }
{
    let mut found = None;
    for file in shown {
        if file.name.as_str() == name {
            found = Some(file);
        }
    }
    found
}

/// Adds the names that are shown, each once.
pub(crate) fn with_shown(
    alloc: Global,
    names: Vec<String>,
    shown: &[NewFile],
) -> Result<Vec<String>, AllocError>
    ensures { IfOk result (λ all. (files : Files) → ListsFiles (texts names.items) files
        → ListsFiles (texts all.items) (after_writes (map named_file shown.now) files)) }
{
    let mut all = names;
    for file in shown {
        if !has_name(all.as_slice(), file.name.as_str()) {
            all.push(String::from_str(alloc, file.name.as_str())?)?;
        }
    }
    Ok(all)
}
