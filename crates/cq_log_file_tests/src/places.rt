//! Folders for the files of a test.
use std::test::Fail;
use std::{env, fs, process};

/// Makes a new folder for temporary files, and returns its path.
pub(crate) fn new_folder(rt: &HostRuntime, name: &str) -> Result<String, Fail> {
    let within = env::temp_dir(rt)?;
    let id = process::id(rt.process());
    let path = format!(in rt.alloc(); "{}/cq_{name}_{id}", within.display())?;
    fs::create_dir(rt, path.as_str())?;
    Ok(path)
}

/// Returns the path of a file in a folder.
pub(crate) fn within(rt: &HostRuntime, folder: &str, name: &str) -> Result<String, Fail> {
    Ok(format!(in rt.alloc(); "{folder}/{name}")?)
}

/// Returns bytes as text.
pub(crate) fn text_of(rt: &HostRuntime, bytes: &[u8]) -> Result<String, Fail> {
    Ok(String::from_utf8_lossy(rt.alloc(), bytes)?)
}
