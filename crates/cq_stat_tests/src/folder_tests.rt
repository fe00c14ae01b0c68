//! The command `stat` over folders in memory, whose images are typed in as bytes.
use cq_fixtures::{expect, expect_text};
use cq_folder::{Access, FailingFolder, Folder, FolderFault, MemoryFolder};
use cq_stat::stat;
use cq_text::ToolFault;
use std::alloc::Global;
use std::io::{ErrorKind, Write};
use std::test::Fail;
use std::{io, str};

/// The image of "hello" in cycle 0 of 64 cells with count 8 and spacing 1, ended, in version 2.
const HELLO: &[u8] = b"\x24\x00\x00\x40CQIF\x02\x00\x00\x00\x00\x00\x00\x00\
\x08\x00\x00\x00\x01\x00\x00\x00\x40\x00\x00\x00\x00\x00\x00\x00\
\x00\x00\x00\x00\x00\x5c\x26\x05\x20\x00\x00\x40\x4c\x00\x00\x00\
\x00\x00\x00\x00\x00\x00\x00\x00\x00\x00\x00\x00\x00\x00\x00\x00\
\x00\x00\x00\x00\x00\x00\x00\x00\x00\x00\x00\x00\x20\x00\x00\x40\
\x70\x00\x00\x00\x00\x00\x00\x00\x00\x00\x00\x00\x00\x00\x00\x00\
\x00\x00\x00\x00\x00\x00\x00\x00\x00\x00\x00\x00\x00\x00\x00\x00\
\x05\x00\x00\x00hello\x00\x00\x00\x00\x00\x00\xc0";

/// The same in version 1.
const OLD_HELLO: &[u8] = b"\x18\x00\x00\x40CQIF\x01\x00\x00\x00\x00\x00\x00\x00\
\x08\x00\x00\x00\x01\x00\x00\x00\x40\x00\x00\x00\x20\x00\x00\x40\
\x40\x00\x00\x00\x00\x00\x00\x00\x00\x00\x00\x00\x00\x00\x00\x00\
\x00\x00\x00\x00\x00\x00\x00\x00\x00\x00\x00\x00\x00\x00\x00\x00\
\x20\x00\x00\x40\x64\x00\x00\x00\x00\x00\x00\x00\x00\x00\x00\x00\
\x00\x00\x00\x00\x00\x00\x00\x00\x00\x00\x00\x00\x00\x00\x00\x00\
\x00\x00\x00\x00\x05\x00\x00\x00hello\x00\x00\x00\x00\x00\x00\xc0";

/// The image of a cycle without messages that goes on.
const OPEN: &[u8] = b"";

/// The image of a cycle without messages that has ended.
const ENDED: &[u8] = b"\x00\x00\x00\xc0";

/// The files of a folder, with their names.
type Files = &'static [(&'static str, &'static [u8])];

/// A folder, and what the command says of it as lines and as JSON, with its fault.
struct Row {
    files: Files,
    lines: &'static str,
    json: &'static str,
}

static ROWS: [Row; 9] = [
    Row {
        files: &[
            (
                "queue.cqc",
                b"cq 2\nroll daily\nepoch 0\ncells 64\ncount 8\nspacing 1\ncycles 4\nfloor 1\nname a 0\nname b 8589934592\n",
            ),
            ("19700101.cqi", HELLO),
            ("19700102.cqi", ENDED),
            ("19700103.cqi", OPEN),
            ("notes.txt", b"not one of the queue's"),
        ],
        lines: "version 2\nroll daily\nepoch 0\ncells 64\ncount 8\nspacing 1\ncycles 4\n\
cycle 19700101 0 1 5 32 32 dropped\ncycle 19700102 1 0 0 1 63 ended\ncycle 19700103 2 0 0 1 63 open\n\
first none\nfloor 1\nend 0000000200000000\nmore_cycles 1\nname a 0000000000000000 0\nname b 0000000200000000 0\n",
        json: "{\"version\":2,\"roll\":\"daily\",\"epoch\":0,\"cells\":64,\"count\":8,\"spacing\":1,\"cycles\":4,\
\"begun\":[{\"name\":\"19700101\",\"number\":0,\"messages\":1,\"bytes\":5,\"cells_used\":32,\"cells_left\":32,\
\"state\":\"dropped\"},{\"name\":\"19700102\",\"number\":1,\"messages\":0,\"bytes\":0,\"cells_used\":1,\"cells_left\":63,\
\"state\":\"ended\"},{\"name\":\"19700103\",\"number\":2,\"messages\":0,\"bytes\":0,\"cells_used\":1,\"cells_left\":63,\
\"state\":\"open\"}],\"first\":null,\"floor\":1,\"end\":\"0000000200000000\",\"more_cycles\":1,\
\"names\":[{\"name\":\"a\",\"position\":\"0000000000000000\",\"messages_left\":0},\
{\"name\":\"b\",\"position\":\"0000000200000000\",\"messages_left\":0}]}\n",
    },
    // Version 1.
    Row {
        files: &[
            (
                "queue.cqc",
                b"cq 1\nroll daily\nepoch 0\ncells 64\ncount 8\nspacing 1\ncycles 4\nname reader 0\n",
            ),
            ("19700101.cqi", OLD_HELLO),
            ("19700102.cqi", OPEN),
        ],
        lines: "version 1\nroll daily\nepoch 0\ncells 64\ncount 8\nspacing 1\ncycles 4\n\
cycle 19700101 0 1 5 29 35 ended\ncycle 19700102 1 0 0 1 63 open\n\
first 0000000000000000\nfloor 0\nend 0000000100000000\nmore_cycles 2\nname reader 0000000000000000 1\n",
        json: "{\"version\":1,\"roll\":\"daily\",\"epoch\":0,\"cells\":64,\"count\":8,\"spacing\":1,\"cycles\":4,\
\"begun\":[{\"name\":\"19700101\",\"number\":0,\"messages\":1,\"bytes\":5,\"cells_used\":29,\"cells_left\":35,\
\"state\":\"ended\"},{\"name\":\"19700102\",\"number\":1,\"messages\":0,\"bytes\":0,\"cells_used\":1,\"cells_left\":63,\
\"state\":\"open\"}],\"first\":\"0000000000000000\",\"floor\":0,\"end\":\"0000000100000000\",\"more_cycles\":2,\
\"names\":[{\"name\":\"reader\",\"position\":\"0000000000000000\",\"messages_left\":1}]}\n",
    },
    // Without an image.
    Row {
        files: &[(
            "queue.cqc",
            b"cq 2\nroll minutely\nepoch 60000\ncells 64\ncount 8\nspacing 1\ncycles 64\n",
        )],
        lines: "version 2\nroll minutely\nepoch 60000\ncells 64\ncount 8\nspacing 1\ncycles 64\n\
first none\nfloor 0\nend 0000000000000000\nmore_cycles 64\n",
        json: "{\"version\":2,\"roll\":\"minutely\",\"epoch\":60000,\"cells\":64,\"count\":8,\"spacing\":1,\"cycles\":64,\
\"begun\":[],\"first\":null,\"floor\":0,\"end\":\"0000000000000000\",\"more_cycles\":64,\"names\":[]}\n",
    },
    Row {
        files: &[("19700101.cqi", OPEN)],
        lines: "cq: no queue here",
        json: "cq: no queue here",
    },
    Row {
        files: &[("queue.cqc", b"cq 2\nroll daily\n")],
        lines: "cq: queue.cqc: line 3",
        json: "cq: queue.cqc: line 3",
    },
    // The position is above the end.
    Row {
        files: &[
            (
                "queue.cqc",
                b"cq 2\nroll daily\nepoch 0\ncells 64\ncount 8\nspacing 1\ncycles 4\nname reader 1\n",
            ),
            ("19700101.cqi", OPEN),
        ],
        lines: "cq: BadContents",
        json: "cq: BadContents",
    },
    // More images than cycles may begin.
    Row {
        files: &[
            (
                "queue.cqc",
                b"cq 2\nroll daily\nepoch 0\ncells 64\ncount 8\nspacing 1\ncycles 1\n",
            ),
            ("19700101.cqi", ENDED),
            ("19700102.cqi", OPEN),
        ],
        lines: "cq: BadContents",
        json: "cq: BadContents",
    },
    Row {
        files: &[
            (
                "queue.cqc",
                b"cq 2\nroll daily\nepoch 0\ncells 64\ncount 8\nspacing 1\ncycles 4\n",
            ),
            ("19700101.cqi", ENDED),
        ],
        lines: "cq: 19700101.cqi: wrong end",
        json: "cq: 19700101.cqi: wrong end",
    },
    Row {
        files: &[
            (
                "queue.cqc",
                b"cq 2\nroll daily\nepoch 0\ncells 64\ncount 8\nspacing 1\ncycles 4\n",
            ),
            ("19700101.cqi", b"\x00"),
        ],
        lines: "cq: 19700101.cqi: Cut at 0",
        json: "cq: 19700101.cqi: Cut at 0",
    },
];

/// A folder in memory with these files.
fn folder_of(alloc: Global, files: Files) -> Result<MemoryFolder, FolderFault> {
    let mut folder = MemoryFolder::new(alloc);
    for (name, bytes) in files {
        folder.begin(alloc, Access::Alone)?;
        folder.write(name, bytes)?;
        folder.end();
    }
    Ok(folder)
}

/// What the command wrote, and the text of its fault after it.
fn said(alloc: Global, done: Result<(), ToolFault>, output: &[u8]) -> Result<String, Fail> {
    let text = str::from_utf8(output).unwrap_or("no text");
    match done {
        Ok(()) => Ok(String::from_str(alloc, text)?),
        Err(fault) => Ok(format!(in alloc; "{text}cq: {fault}")?),
    }
}

/// What the command says of a folder.
fn said_of<F: Folder>(alloc: Global, folder: &mut F, json: bool) -> Result<String, Fail> {
    let mut output = Vec::new(alloc);
    let done = stat(alloc, folder, json, &mut output);
    said(alloc, done, output.as_slice())
}

#[test]
fn says_what_files_hold(rt: HostRuntime) -> Result<(), Fail> {
    let alloc = rt.alloc();
    for row in &ROWS {
        let mut folder = folder_of(alloc, row.files)?;
        expect_text(said_of(alloc, &mut folder, false)?, row.lines)?;
        expect_text(said_of(alloc, &mut folder, true)?, row.json)?;
    }
    Ok(())
}

/// A writer that takes some bytes and then fails.
#[derive(Drop)]
struct Broken {
    /// How many it still takes.
    left: usize,
}

impl Write for Broken {
    fn write(&mut self, bytes: &[u8]) -> io::Result<usize> {
        let count = bytes.len().min(self.left);
        if count == 0 {
            return Err(io::Error::from(ErrorKind::Other));
        }
        self.left -= count;
        Ok(count)
    }

    fn flush(&mut self) -> io::Result<()> {
        Ok(())
    }
}

#[test]
fn a_writer_may_fail(rt: HostRuntime) -> Result<(), Fail> {
    let alloc = rt.alloc();
    let mut folder = folder_of(alloc, ROWS[0].files)?;
    for left in [0, 1, 20] {
        let done = stat(alloc, &mut folder, left == 1, &mut Broken { left });
        expect_text(said(alloc, done, &[])?, "cq: write fault")?;
    }
    Ok(())
}

/// What the command says if a call on the folder fails: the listing, or the read of `queue.cqc` or of an image.
static FAILURES: [&str; 6] = [
    "cq: folder fault",
    "cq: folder fault",
    "cq: file fault: queue.cqc",
    "cq: file fault: 19700101.cqi",
    "cq: file fault: 19700102.cqi",
    "cq: file fault: 19700103.cqi",
];

#[test]
fn a_folder_may_fail(rt: HostRuntime) -> Result<(), Fail> {
    let alloc = rt.alloc();
    for (number, want) in FAILURES.iter().enumerate() {
        let mut folder = FailingFolder::new(folder_of(alloc, ROWS[0].files)?, number as u64 + 1);
        expect_text(said_of(alloc, &mut folder, false)?, want)?;
        expect(
            folder.access() != Some(Access::Alone),
            "it is not alone in the folder",
        )?;
    }
    Ok(())
}
