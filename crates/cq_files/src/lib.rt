//! The files of a folder with a queue. It reads the queue from them, and saves images there.
//!
//! | item | what it is for |
//! |---|---|
//! | `open_queue` | reads a folder's queue: `Retain`, `SavedQueue`, `CycleImage`, `ImageFile`, `SeenMessages` |
//! | `open_whole_queue` | does so with all messages, if a queue can hold them |
//! | `can_be_opened` | whether a queue can hold what was read |
//! | `open_folder`, `QueueFolder` | enters a folder, and reads its names and `queue.cqc` |
//! | `image_files`, `image_file`, `check_ends` | the cycles that files are named for, and whether images end as they must |
//! | `images_of` | the images of cycles, as files that are to be saved |
//! | `save`, `save_files`, `write_file` | save images, some files together, and a file |
//! | `save_fault` | the error for a file that could not be written |
//! | `print_outside` | writes the output of a command that has left the folder |
//! | `listed`, `read_file`, `read_saved` | enter a folder and list it, read a file, and read `queue.cqc` |
//! | `is_image_name`, `cycle_of_file` | whether a file may be an image, and of which cycle |
//! | `MOST_FILE_BYTES` | the limit of a file's bytes |
//!
//! What holds of each command over a folder, here and in the crates above:
//!
//! - It writes and saves only while it is alone in the folder, and lists and reads only while it is in it. It has left
//!   the folder when it calls the function that writes its output.
//! - `FolderFault` and `FileFault` come only if the folder counted a failure during the call, or its count is at its
//!   end, 2^64 - 1. Too large a file, out of memory, and errors of the input or the output are none of these.
//! - A fault of an image, or of `queue.cqc`, is reported only for a file of at most 8,388,608 bytes, which are read.
#![tactic(auto)]

mod files;
mod openable;
mod opening;
mod saving;

pub use files::{
    MOST_FILE_BYTES, listed, print_outside, read_file, save_fault, save_files, write_file,
};
pub use openable::{can_be_opened, open_whole_queue};
pub use opening::{
    CycleImage, ImageFile, QueueFolder, Retain, SavedQueue, SeenMessages, check_ends,
    cycle_of_file, image_file, image_files, is_image_name, open_folder, open_queue, read_saved,
};
pub use saving::{images_of, save};
