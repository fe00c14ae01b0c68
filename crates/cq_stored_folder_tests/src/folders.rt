//! Folders of the system, and what they hold.
use cq_files::{Retain, open_queue};
use cq_fixtures::{contents_text, expect_text};
use cq_folder::{Access, Folder};
use cq_live::{Live, SystemPlace, open};
use cq_log_file::LogFile;
use cq_model::Contents;
use cq_real_folder::RealFolder;
use cq_running::{InitSettings, init};
use std::alloc::Global;
use std::test::Fail;
use std::{env, fs, process};

/// Makes a new folder for temporary files, and returns its path.
pub(crate) fn new_folder(rt: &HostRuntime, name: &str) -> Result<String, Fail> {
    let within = env::temp_dir(rt)?;
    let id = process::id(rt.process());
    let path = format!(in rt.alloc(); "{}/cq_stored_{name}_{id}", within.display())?;
    fs::create_dir(rt, path.as_str())?;
    Ok(path)
}

/// The folder at a path.
pub(crate) fn folder_at<'a>(
    rt: &'a HostRuntime,
    path: &str,
) -> Result<RealFolder<'a, HostRuntime>, Fail> {
    Ok(RealFolder::new(rt, String::from_str(rt.alloc(), path)?, 7))
}

/// The place of a log of this name in the folder at a path.
pub(crate) fn place_at<'a>(
    rt: &'a HostRuntime,
    path: &str,
    log: &str,
) -> Result<SystemPlace<'a, HostRuntime>, Fail> {
    Ok(SystemPlace::new(rt, format!(in rt.alloc(); "{path}/{log}")?))
}

/// Makes the queue of a folder: daily, with one cycle, which has room for a thousand small messages.
fn make<F: Folder>(alloc: Global, folder: &mut F) -> Result<(), Fail> {
    let settings = InitSettings {
        roll: String::from_str(alloc, "daily")?,
        epoch: 0,
        cells: 16_384,
        index_count: 64,
        index_spacing: 1,
        cycles: 1,
        names: vec![in alloc; String::from_str(alloc, "reader")?]?,
    };
    init(alloc, folder, &settings)?;
    Ok(())
}

/// Makes a new folder with such a queue, and returns its path.
pub(crate) fn new_queue(rt: &HostRuntime, name: &str) -> Result<String, Fail> {
    let path = new_folder(rt, name)?;
    let mut folder = folder_at(rt, path.as_str())?;
    make(rt.alloc(), &mut folder)?;
    Ok(path)
}

/// Opens the queue of a folder.
pub(crate) fn opened(rt: &HostRuntime, path: &str) -> Result<Live<LogFile>, Fail> {
    let mut folder = folder_at(rt, path)?;
    let mut place = place_at(rt, path, "queue.log")?;
    Ok(open(rt.alloc(), &mut folder, &mut place, 0)?)
}

/// What the images of a folder hold.
fn images<F: Folder>(alloc: Global, folder: &mut F) -> Result<Contents, Fail> {
    let queue = open_queue(alloc, folder, Access::Shared, Retain::All)?;
    folder.end();
    Ok(queue.contents)
}

/// What the queue of a folder holds after a crash: its next opening puts that into the images.
pub(crate) fn found(rt: &HostRuntime, path: &str) -> Result<Contents, Fail> {
    let _live = opened(rt, path)?;
    let mut folder = folder_at(rt, path)?;
    images(rt.alloc(), &mut folder)
}

/// Fails if the queue of a folder does not hold what is wanted after a crash. Removes the folder.
pub(crate) fn expect_found(rt: &HostRuntime, path: &str, want: &str) -> Result<(), Fail> {
    let contents = found(rt, path)?;
    expect_text(contents_text(rt.alloc(), &contents)?, want)?;
    fs::remove_dir_all(rt, path)?;
    Ok(())
}
