//! Makes the folder of a new queue.

use crate::fault::StartFault;
use cq_text::ToolFault;
use std::fs::{self, File};
use std::io::{self, ErrorKind};
use std::path::Path;
use std::rt::Files;

/// Makes a folder, with those that it is in, and returns whether it was not there before. What each of these lists is synced to the
/// device, so that a loss of power leaves the folder there.
///
/// Errors: `Tool` with `FolderFault`: it could not be made, or a file has its name. With `OutOfMemory`: out of memory.
pub(crate) fn make_folder<R: Files<File = File>>(rt: &R, path: &str) -> Result<bool, StartFault> {
    if let Ok(found) = fs::metadata(rt, path)
        && found.is_dir()
    {
        return Ok(false);
    }
    match fs::create_dir_all(rt, path) {
        Ok(()) => {}
        Err(error) => return Err(fault_for(&error)),
    }
    match sync_parents(rt, path) {
        Ok(()) => Ok(true),
        Err(error) => Err(fault_for(&error)),
    }
}

/// Returns the fault for an error of the system.
fn fault_for(error: &io::Error) -> StartFault {
    match error.kind() {
        ErrorKind::OutOfMemory => StartFault::Tool(ToolFault::OutOfMemory),
        _ => StartFault::Tool(ToolFault::FolderFault),
    }
}

/// Syncs what the folders list in which a folder is. One that this process may not read is left out: it was there before.
fn sync_parents<R: Files<File = File>>(rt: &R, path: &str) -> io::Result<()> {
    for parent in Path::new(path).ancestors().skip(1) {
        let name = parent.as_str();
        match File::open(rt, if name.is_empty() { "." } else { name }) {
            Ok(folder) => folder.sync_all()?,
            Err(error) if error.kind() == ErrorKind::PermissionDenied => {}
            Err(error) => return Err(error),
        }
    }
    Ok(())
}

/// Removes a folder that was made, if it is empty. Those that it is in stay.
pub(crate) fn remove_made<R: Files>(rt: &R, path: &str) {
    let _ = fs::remove_dir(rt, path);
}
