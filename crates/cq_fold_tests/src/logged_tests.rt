//! Commands over a folder that is seen with what its log gives.
use crate::logs::Frame::{Head, Turn};
use crate::logs::Line::{Cycle, Message, Name};
use crate::steps::Step::{self, Check, Log, Names, Put, Queue, Read, Take, Text, Write};
use crate::steps::{folder_after, said_at};
use cq_fixtures::{DAY, expect_answer};
use cq_folder::{FailingFolder, MemoryFolder};
use cq_log_file::OpenFault;
use cq_logged::{LogFault, LogLock, LogUse, LoggedFolder};
use std::alloc::Global;
use std::test::Fail;

/// A lock of which each look finds this.
#[derive(Drop)]
struct FixedLock {
    found: LogUse,
}

impl LogLock for FixedLock {
    ghost found = { λ lock. lock.found };

    fn look(&mut self) -> LogUse {
        self.found
    }
}

/// How a folder is seen: as it is, or with what its log gives, whose lock is found so.
#[derive(Clone, Copy)]
enum Sight {
    Plain,
    Logged(LogUse),
}

const FREE: Sight = Sight::Logged(LogUse::Free);

const LIVE: Sight = Sight::Logged(LogUse::InUse);

/// A step over a folder that is seen so, and what is said: that of the step, and then why the log kept it out.
type Row = (Sight, Step, &'static str);

/// A log of two turns, for a queue that holds "a".
const TWO_TURNS: Step = Log(&[
    Head,
    Turn(&[Message("b"), Cycle(1)]),
    Turn(&[Message("c"), Name(0, 1)]),
]);

static ROWS: [&[Row]; 4] = [
    // While a queue is live, commands read what it put into its log, and none writes.
    &[
        (Sight::Plain, Queue, ""),
        (Sight::Plain, Write(0, b"a\n"), "0000000000000000\n"),
        (LIVE, Read, "0000000000000000 a\n"),
        (Sight::Plain, TWO_TURNS, ""),
        (
            LIVE,
            Read,
            "0000000000000000 a\n0000000000000001 b\n0000000100000000 c\n",
        ),
        (
            LIVE,
            Check,
            "19700101.cqi: 2 messages, ended\n19700102.cqi: 1 messages, open\n",
        ),
        (
            LIVE,
            Names,
            "19700101.cqi 19700102.cqi queue.cqc queue.log ",
        ),
        (LIVE, Text("queue.log"), ""),
        (
            LIVE,
            Text("queue.cqc"),
            "cq 2\nroll daily\nepoch 0\ncells 64\ncount 8\nspacing 1\ncycles 4\nname reader 1\n",
        ),
        (
            LIVE,
            Write(DAY, b"d\n"),
            "cq: folder fault: a queue is live in this folder: wait until it is closed, or close it",
        ),
        (
            LIVE,
            Take,
            "cq: folder fault: a queue is live in this folder: wait until it is closed, or close it",
        ),
        (
            Sight::Logged(LogUse::Failed(OpenFault::Denied)),
            Take,
            "cq: folder fault: the log is not opened: this process may not read and write the file: let it do so in the permissions of the file and the folder",
        ),
        (
            Sight::Logged(LogUse::Failed(OpenFault::OutOfMemory)),
            Take,
            "cq: want of memory",
        ),
        // No file has changed.
        (Sight::Plain, Names, "19700101.cqi queue.cqc queue.log "),
        (Sight::Plain, Read, "0000000000000000 a\n"),
    ],
    // Once no queue is live, a command that may write folds the log first.
    &[
        (Sight::Plain, Queue, ""),
        (Sight::Plain, Write(0, b"a\n"), "0000000000000000\n"),
        (Sight::Plain, TWO_TURNS, ""),
        (FREE, Take, "0000000000000001 b\n"),
        (
            Sight::Plain,
            Names,
            "19700101.cqi 19700102.cqi queue.cqc queue.log ",
        ),
        (Sight::Plain, Text("queue.log"), ""),
        (FREE, Write(DAY, b"d\n"), "0000000100000001\n"),
        (
            Sight::Plain,
            Read,
            "0000000000000000 a\n0000000000000001 b\n0000000100000000 c\n0000000100000001 d\n",
        ),
        (Sight::Plain, Take, "0000000100000000 c\n"),
        // A log without a byte is none of a live queue, so its lock is not looked at.
        (LIVE, Take, "0000000100000001 d\n"),
    ],
    // A log at fault keeps all out, and a queue at fault is named by those that read.
    &[
        (Sight::Plain, Queue, ""),
        (Sight::Plain, Write(0, b"a\n"), "0000000000000000\n"),
        (
            Sight::Plain,
            Put("queue.log", b"\x01\x07\0\0\0no head\0"),
            "",
        ),
        (
            LIVE,
            Read,
            "cq: folder fault: the file is no log of a queue: read the log with the version that wrote it, or move it away to open the images alone",
        ),
        (
            FREE,
            Write(0, b"b\n"),
            "cq: folder fault: the file is no log of a queue: read the log with the version that wrote it, or move it away to open the images alone",
        ),
        (Sight::Plain, Put("19700101.cqi", b"a"), ""),
        (
            LIVE,
            Read,
            "cq: 19700101.cqi: Cut at 0: the log is not shown: 19700101.cqi: Cut at 0",
        ),
        (
            LIVE,
            Check,
            "19700101.cqi: Cut at 0\ncq: images at fault: the log is not shown: 19700101.cqi: Cut at 0",
        ),
        (FREE, Take, "cq: folder fault: 19700101.cqi: Cut at 0"),
        (Sight::Plain, Text("queue.log"), "\u{1}\u{7}\0\0\0no head\0"),
    ],
    // A log without a queue.
    &[
        (Sight::Plain, Put("queue.log", b"\0"), ""),
        (
            FREE,
            Queue,
            "cq: folder fault: this folder has a log, queue.log, and no queue: restore queue.cqc and the images, or move the log away",
        ),
        (
            LIVE,
            Read,
            "cq: no queue here: the log is not shown: no queue here",
        ),
        (Sight::Plain, Put("queue.log", b""), ""),
        (FREE, Queue, ""),
        (FREE, Read, ""),
    ],
];

/// What is said, and then why the log kept the step out.
fn with_cause(alloc: Global, said: String, cause: Option<LogFault>) -> Result<String, Fail> {
    match cause {
        None => Ok(said),
        Some(cause) => Ok(format!(in alloc; "{said}: {cause}")?),
    }
}

/// Takes a step over a folder that is seen with what its log gives. Returns the folder, and what is said.
fn said_through(
    alloc: Global,
    folder: MemoryFolder,
    found: LogUse,
    step: Step,
) -> Result<(MemoryFolder, String), Fail> {
    let mut logged = LoggedFolder::new(alloc, folder, FixedLock { found });
    let said = said_at(alloc, &mut logged, step)?;
    let (folder, cause) = logged.into_parts();
    Ok((folder, with_cause(alloc, said, cause)?))
}

/// Takes a step over a folder. Returns the folder, and what is said.
fn said_of(
    alloc: Global,
    folder: MemoryFolder,
    sight: Sight,
    step: Step,
) -> Result<(MemoryFolder, String), Fail> {
    let mut folder = folder;
    match sight {
        Sight::Logged(found) => said_through(alloc, folder, found, step),
        Sight::Plain => {
            let said = said_at(alloc, &mut folder, step)?;
            Ok((folder, said))
        }
    }
}

/// Takes these steps over a new folder. Fails if something else than wanted is said at one of them.
fn expect_rows(alloc: Global, name: &str, rows: &[Row]) -> Result<(), Fail> {
    let mut folder = MemoryFolder::new(alloc);
    for (place, &(sight, step, want)) in rows.iter().enumerate() {
        let (next, said) = said_of(alloc, folder, sight, step)?;
        folder = next;
        expect_answer(name, place, said.as_str(), want)?;
    }
    Ok(())
}

#[test]
fn commands_see_what_the_log_gives(rt: HostRuntime) -> Result<(), Fail> {
    for (number, rows) in ROWS.iter().enumerate() {
        let name = format!(in rt.alloc(); "table {number}")?;
        expect_rows(rt.alloc(), name.as_str(), rows)?;
    }
    Ok(())
}

/// What steps find of a log of two turns, one after the other: its messages that the images lack, and what a look at its lock found.
const NEWS: [(LogUse, Step, &str); 6] = [
    (LogUse::InUse, Check, "2 InUse"),
    (LogUse::Free, Read, "2 Free"),
    (
        LogUse::Failed(OpenFault::Denied),
        Text("queue.cqc"),
        "2 Failed(Denied)",
    ),
    // A step that may write finds nothing, whether it is kept out or folds the log. Then the log has no byte.
    (LogUse::InUse, Take, "none"),
    (LogUse::Free, Take, "none"),
    (LogUse::InUse, Check, "none"),
];

#[test]
fn steps_that_only_read_find_what_the_log_has(rt: HostRuntime) -> Result<(), Fail> {
    let alloc = rt.alloc();
    let mut folder = folder_after(alloc, &[Queue, Write(0, b"a\n"), TWO_TURNS])?;
    for (place, &(found, step, want)) in NEWS.iter().enumerate() {
        let mut logged = LoggedFolder::new(alloc, folder, FixedLock { found });
        said_at(alloc, &mut logged, step)?;
        let news = match logged.news() {
            None => String::from_str(alloc, "none")?,
            Some(news) => format!(in alloc; "{} {:?}", news.messages, news.log_use)?,
        };
        expect_answer("news", place, news.as_str(), want)?;
        (folder, _) = logged.into_parts();
    }
    Ok(())
}

/// What `read` says over a folder with a log of two turns, of which the call with this number fails.
fn said_failing(alloc: Global, number: u64) -> Result<String, Fail> {
    let steps = [Queue, Write(0, b"a\n"), TWO_TURNS];
    let folder = FailingFolder::new(folder_after(alloc, &steps)?, number);
    let mut logged = LoggedFolder::new(
        alloc,
        folder,
        FixedLock {
            found: LogUse::InUse,
        },
    );
    let said = said_at(alloc, &mut logged, Read)?;
    let (_folder, cause) = logged.into_parts();
    with_cause(alloc, said, cause)
}

/// A read of a folder with a log makes fewer calls of the folder.
const MOST_CALLS: u64 = 24;

/// What `read` says if no call fails.
const ALL_THREE: &str = "0000000000000000 a\n0000000000000001 b\n0000000100000000 c\n";

/// No message is left out where a call of the folder fails: either all are read, or the fault is said.
#[test]
fn a_call_that_fails_hides_no_message(rt: HostRuntime) -> Result<(), Fail> {
    let mut faults: u64 = 0;
    for number in 1..=MOST_CALLS {
        let said = said_failing(rt.alloc(), number)?;
        if said.as_str().starts_with("cq: f") {
            faults = faults.saturating_add(1);
        } else {
            expect_answer("failing", number as usize, said.as_str(), ALL_THREE)?;
        }
    }
    assert!(rt; 8 < faults && faults < MOST_CALLS);
    Ok(())
}
