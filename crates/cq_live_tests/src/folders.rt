//! Folders of queues, and what they hold.
use cq_files::{Retain, open_queue};
use cq_fixtures::{contents_text, expect_answer, expect_text};
use cq_folder::{Access, Folder, LOG_FILE, MemoryFolder};
use cq_running::{InitSettings, init, take, write};
use std::alloc::Global;
use std::test::Fail;

/// The most bytes of a file that is read.
const MOST_BYTES: usize = 1 << 16;

/// Makes the queue of a folder: daily, with epoch 0, 64 cells, this number of cycles and the name "reader".
fn make_of<F: Folder>(alloc: Global, folder: &mut F, cycles: u64) -> Result<(), Fail> {
    let settings = InitSettings {
        roll: String::from_str(alloc, "daily")?,
        epoch: 0,
        cells: 64,
        index_count: 8,
        index_spacing: 1,
        cycles,
        names: vec![in alloc; String::from_str(alloc, "reader")?]?,
    };
    init(alloc, folder, &settings)?;
    Ok(())
}

/// Makes such a queue, of four cycles.
pub(crate) fn make<F: Folder>(alloc: Global, folder: &mut F) -> Result<(), Fail> {
    make_of(alloc, folder, 4)
}

/// Makes such a queue. Writes the message "a" to it this number of times, and takes the first ones.
pub(crate) fn make_with<F: Folder>(
    alloc: Global,
    folder: &mut F,
    cycles: u64,
    written: usize,
    taken: usize,
) -> Result<(), Fail> {
    make_of(alloc, folder, cycles)?;
    for _ in 0..written {
        write_a(alloc, folder)?;
    }
    for _ in 0..taken {
        take(alloc, folder, "reader", &mut Vec::new(alloc))?;
    }
    Ok(())
}

/// Writes the message "a" to the queue of a folder, in cycle 0.
pub(crate) fn write_a<F: Folder>(alloc: Global, folder: &mut F) -> Result<(), Fail> {
    let mut input: &[u8] = b"a\n";
    let mut output = Vec::new(alloc);
    write(alloc, folder, 0, &mut input, &mut output)?;
    Ok(())
}

/// What the images of a folder hold.
pub(crate) fn images_text<F: Folder>(alloc: Global, folder: &mut F) -> Result<String, Fail> {
    let queue = open_queue(alloc, folder, Access::Shared, Retain::All)?;
    folder.end();
    contents_text(alloc, &queue.contents)
}

/// Fails unless the images of a folder hold this.
pub(crate) fn expect_images<F: Folder>(
    alloc: Global,
    folder: &mut F,
    want: &str,
) -> Result<(), Fail> {
    expect_text(images_text(alloc, folder)?, want)
}

/// Fails unless the images of a folder hold this in the row with this number.
pub(crate) fn expect_images_of(
    alloc: Global,
    folder: &mut MemoryFolder,
    number: usize,
    want: &str,
) -> Result<(), Fail> {
    let images = images_text(alloc, folder)?;
    expect_answer("images", number, images.as_str(), want)
}

/// Puts a log with these bytes into a folder.
pub(crate) fn put_log<F: Folder>(alloc: Global, folder: &mut F, bytes: &[u8]) -> Result<(), Fail> {
    folder.begin(alloc, Access::Alone)?;
    folder.write(LOG_FILE, bytes)?;
    folder.end();
    Ok(())
}

/// The bytes of a file in a folder.
pub(crate) fn bytes_of<F: Folder>(
    alloc: Global,
    folder: &mut F,
    file: &str,
) -> Result<Vec<u8>, Fail> {
    folder.begin(alloc, Access::Shared)?;
    let bytes = folder.read(alloc, file, MOST_BYTES)?;
    folder.end();
    Ok(bytes)
}
