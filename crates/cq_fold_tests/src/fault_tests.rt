//! Logs that are not folded, and why. Every file is then as it was.
use crate::logs::Frame::{Bytes, Head, Turn};
use crate::logs::Line::{Cycle, Floor, Message, Name};
use crate::steps::Step::{self, Log, Put, Queue, Write};
use crate::steps::{files_text, folded, folder_after, said_at};
use cq_fixtures::{DAY, expect_answer, expect_end};
use cq_folder::{Access, Folder, FolderFault, MemoryFolder, NewFile};
use std::alloc::Global;
use std::test::Fail;

/// A configuration of version 1, and one with a position past the end.
const OLD: &[u8] =
    b"cq 1\nroll daily\nepoch 0\ncells 64\ncount 8\nspacing 1\ncycles 4\nname reader 0\n";

const PAST: &[u8] =
    b"cq 2\nroll daily\nepoch 0\ncells 64\ncount 8\nspacing 1\ncycles 4\nname reader 1\n";

/// A message that takes most of the 64 cells of a cycle.
const LONG: &str =
    "01234567890123456789012345678901234567890123456789012345678901234567890123456789\
01234567890123456789012345678901234567890123456789012345678901234567890123456789";

/// What is done to a folder, and what a fold says then.
static FAULTS: [(&[Step], &str); 17] = [
    // The folder holds no queue that can be opened. That is tested before the log.
    (&[], "fold: no queue here"),
    (
        &[Log(&[]), Put("queue.log", b"\x01")],
        "fold: no queue here",
    ),
    (
        &[Put("queue.cqc", b"cq 3\n"), Put("queue.log", b"\x01")],
        "fold: queue.cqc: line 1",
    ),
    (&[Put("queue.cqc", OLD)], "fold: OldVersion"),
    (
        &[Queue, Put("a.cqi", b""), Log(&[Bytes(b"no head")])],
        "fold: a.cqi: bad cycle name",
    ),
    (
        &[Queue, Put("19700101.cqi", b"\0\0\0")],
        "fold: 19700101.cqi: Cut at 0",
    ),
    (
        &[Queue, Put("19700101.cqi", b"\0\0\0\xc0")],
        "fold: 19700101.cqi: wrong end",
    ),
    (
        &[Queue, Log(&[Bytes(b"no head")]), Put("queue.cqc", PAST)],
        "fold: BadContents",
    ),
    // The log is at fault.
    (
        &[Queue, Log(&[Bytes(b"no head")])],
        "fold: the file is no log of a queue: read the log with the version that wrote it, or move it away to open the images alone",
    ),
    (
        &[
            Queue,
            Log(&[Head, Turn(&[Cycle(0), Message("a")])]),
            Write(0, b"a\n"),
        ],
        "fold: the log goes on from more or fewer cycles: put back the images that the log goes on from, or move the log away if the images have its turns already",
    ),
    (
        &[Queue, Log(&[Head, Turn(&[Cycle(0)]), Bytes(b"\x05")])],
        "fold: frame 2 of the log: a note of an unknown kind: keep the log, and move it away to open the images alone",
    ),
    (
        &[
            Queue,
            Write(DAY, b"a\n"),
            Log(&[Head, Turn(&[Message("b"), Floor(2)])]),
        ],
        "fold: frame 1 of the log: note 1 has a floor above the last cycle: keep the log, and move it away to open the images alone",
    ),
    // What it gives is more than a queue with these settings holds: cycles, messages, or a cycle that it cannot have.
    (
        &[
            Queue,
            Log(&[
                Head,
                Turn(&[Cycle(0), Cycle(1), Cycle(2), Cycle(3)]),
                Turn(&[Cycle(4)]),
            ]),
        ],
        "fold: the log gives what no queue with these settings holds: keep it, and move it away to open the images alone",
    ),
    (
        &[Queue, Log(&[Head, Turn(&[Cycle(0), Message(LONG)])])],
        "fold: the log gives what no queue with these settings holds: keep it, and move it away to open the images alone",
    ),
    (
        &[
            Queue,
            Write(0, b"0123456789012345678901234567890123456789\n"),
            Log(&[
                Head,
                Turn(&[Message(
                    "0123456789012345678901234567890123456789012345678901234567890123456789012345678901234567890123456789",
                )]),
            ]),
        ],
        "fold: the log gives what no queue with these settings holds: keep it, and move it away to open the images alone",
    ),
    (
        &[Queue, Log(&[Head, Turn(&[Cycle(2_147_483_648)])])],
        "fold: the log gives what no queue with these settings holds: keep it, and move it away to open the images alone",
    ),
    // A note is tested before what all notes give.
    (
        &[
            Queue,
            Log(&[Head, Turn(&[Cycle(2_147_483_648), Name(1, 0)])]),
        ],
        "fold: frame 1 of the log: note 1 has a name that is not declared: keep the log, and move it away to open the images alone",
    ),
];

/// Folds the log of a folder. Fails if something else than this fault is said, or if a file changed.
fn expect_fault(
    alloc: Global,
    row: &str,
    folder: &mut MemoryFolder,
    fault: &str,
) -> Result<(), Fail> {
    let before = files_text(alloc, folder)?;
    let said = said_at(alloc, folder, Step::Fold)?;
    expect_answer(row, 0, said.as_str(), fault)?;
    let after = files_text(alloc, folder)?;
    expect_end(row, after.as_str(), before.as_str())
}

/// The same with a new folder over which these steps were taken.
fn expect_row(alloc: Global, row: &str, steps: &[Step], fault: &str) -> Result<(), Fail> {
    let mut folder = folder_after(alloc, steps)?;
    expect_fault(alloc, row, &mut folder, fault)
}

#[test]
fn a_fault_leaves_every_file_as_it_was(rt: HostRuntime) -> Result<(), Fail> {
    let alloc = rt.alloc();
    for (number, &(steps, fault)) in FAULTS.iter().enumerate() {
        let row = format!(in alloc; "row {number}")?;
        expect_row(alloc, row.as_str(), steps, fault)?;
    }
    Ok(())
}

/// A folder whose log is too large for any read. It does not tell contracts what it holds.
#[derive(Drop)]
struct LongLogFolder {
    folder: MemoryFolder,
}

impl Folder for LongLogFolder {
    ghost failed = { λ long. long.folder.failures };

    ghost entered = { λ long. long.folder.entered };

    fn begin(&mut self, alloc: Global, access: Access) -> Result<(), FolderFault> {
        self.folder.begin(alloc, access)
    }

    fn end(&mut self) {
        self.folder.end();
    }

    fn names(&mut self, alloc: Global) -> Result<Vec<String>, FolderFault> {
        self.folder.names(alloc)
    }

    fn read(&mut self, alloc: Global, name: &str, limit: usize) -> Result<Vec<u8>, FolderFault> {
        if name == "queue.log" {
            return Err(FolderFault::TooLarge);
        }
        self.folder.read(alloc, name, limit)
    }

    fn write(&mut self, name: &str, bytes: &[u8]) -> Result<(), FolderFault> {
        self.folder.write(name, bytes)
    }

    fn save(&mut self, changes: &[NewFile]) -> Result<(), FolderFault> {
        self.folder.save(changes)
    }

    fn save_and_remove(
        &mut self,
        changes: &[NewFile],
        removed: &[String],
    ) -> Result<(), FolderFault> {
        self.folder.save_and_remove(changes, removed)
    }

    fn access(&self) -> Option<Access> {
        self.folder.access()
    }

    fn failures(&self) -> u64 {
        self.folder.failures()
    }
}

/// Folds a long log. Fails if something else than its fault is said, or if a file changed.
fn expect_too_long(alloc: Global, folder: &mut LongLogFolder) -> Result<(), Fail> {
    let before = files_text(alloc, &mut folder.folder)?;
    let said = folded(alloc, folder)?;
    expect_end(
        "a long log",
        said.as_str(),
        "fold: the log has more than 1073741824 bytes: keep it, and move it away to open the images alone",
    )?;
    let after = files_text(alloc, &mut folder.folder)?;
    expect_end("its files", after.as_str(), before.as_str())
}

#[test]
fn a_long_log_is_refused(rt: HostRuntime) -> Result<(), Fail> {
    let folder = folder_after(rt.alloc(), &[Queue, Write(0, b"a\n"), Log(&[Head])])?;
    expect_too_long(rt.alloc(), &mut LongLogFolder { folder })
}
