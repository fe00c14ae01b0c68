//! The words of the command line, and the cases that they ask for.
use crate::appending::Appending;
use crate::crews::{Crew, print_crews};
use crate::fault::BenchFault;
use crate::growing::{Growth, print_growth};
use crate::pings::print_pings;
use crate::random::print_random_reads;
use crate::reading::Reading;
use crate::saving::{print_reopen, print_save};
use crate::settings::Settings;
use crate::shelves::{Measured, print_shelves};
use std::rt::Clock;
use std::thread::Threads;

/// What is measured.
#[derive(Clone, Copy)]
pub enum Case {
    /// Appenders fill a cycle together.
    Append,
    /// One appender does, by a call for each message.
    AppendByCall,
    /// Tailers read a full cycle, each all of it.
    Read,
    /// The same into buffers of theirs.
    ReadInto,
    /// Appenders fill a cycle while tailers read it.
    Flow,
    /// Messages go from one to another, one at a time.
    Ping,
    /// Messages are read by index.
    ReadAt,
    /// Appends early and late in a cycle.
    Growth,
    /// The same by appenders that know no position in the queue.
    ColdAppend,
    /// A queue is filled, stopped and made an image.
    Save,
    /// A queue is opened again from an image, and read.
    Reopen,
    /// Messages are appended over many queues, with a shelf and without.
    ShelfAppend,
    /// They are read.
    ShelfRead,
}

/// What an argument asks for.
#[derive(Clone, Copy)]
pub enum Word {
    /// A case.
    Case(Case),
    /// All cases.
    All,
    /// A soak of a shelf.
    Soak,
    /// A short run of all cases and a soak over small queues, without figures.
    Trial,
}

/// Each argument, and what it asks for.
pub static WORDS: [(&str, Word, &str); 16] = [
    (
        "append",
        Word::Case(Case::Append),
        "1, 2 and 4 appenders fill a cycle",
    ),
    (
        "append_by_call",
        Word::Case(Case::AppendByCall),
        "1 does, by a call for each",
    ),
    (
        "read",
        Word::Case(Case::Read),
        "1, 2 and 4 tailers read a full cycle",
    ),
    (
        "read_into",
        Word::Case(Case::ReadInto),
        "the same into rooms of theirs",
    ),
    (
        "flow",
        Word::Case(Case::Flow),
        "tailers read while appenders append",
    ),
    (
        "ping",
        Word::Case(Case::Ping),
        "from an append to another's read of it",
    ),
    (
        "read_at",
        Word::Case(Case::ReadAt),
        "reads by index here and there",
    ),
    (
        "growth",
        Word::Case(Case::Growth),
        "appends early and late in a cycle",
    ),
    (
        "cold_append",
        Word::Case(Case::ColdAppend),
        "the same by new appenders",
    ),
    (
        "save",
        Word::Case(Case::Save),
        "append all, stop, recover, image",
    ),
    (
        "reopen",
        Word::Case(Case::Reopen),
        "image read, reopen, read all",
    ),
    (
        "shelf_append",
        Word::Case(Case::ShelfAppend),
        "appends over many queues",
    ),
    ("shelf_read", Word::Case(Case::ShelfRead), "reads of these"),
    ("all", Word::All, "all of these"),
    ("soak", Word::Soak, "a shelf at full speed, for CQ_SECONDS"),
    (
        "trial",
        Word::Trial,
        "all of these over small queues, without figures",
    ),
];

static LENGTHS: [u32; 5] = [8, 64, 256, 1024, 4096];

static FLOW_LENGTHS: [u32; 2] = [64, 1024];

/// The numbers of appenders and tailers of crews that only append.
static APPENDERS: [(u32, u32); 3] = [(1, 0), (2, 0), (4, 0)];

/// The same of crews that only read.
static TAILERS: [(u32, u32); 3] = [(0, 1), (0, 2), (0, 4)];

/// The same of crews that do both.
static FLOWS: [(u32, u32); 3] = [(1, 1), (1, 3), (3, 1)];

/// A crew of this many appenders and tailers, which read in this way.
fn crew(numbers: (u32, u32), reading: Reading) -> Crew {
    let (appenders, tailers) = numbers;
    Crew {
        appending: Appending::Inlined,
        appenders,
        tailers,
        reading,
    }
}

/// Crews of this many appenders and tailers, which read in this way.
fn crews(numbers: &[(u32, u32); 3], reading: Reading) -> [Crew; 3] {
    let [first, second, third] = *numbers;
    [
        crew(first, reading),
        crew(second, reading),
        crew(third, reading),
    ]
}

/// One appender, by a call for each message.
static CALLER: [Crew; 1] = [Crew {
    appending: Appending::Called,
    appenders: 1,
    tailers: 0,
    reading: Reading::Copies,
}];

/// Returns what an argument asks for, if it is understood.
pub fn word_of(text: &str) -> Option<Word> {
    for (name, word, _) in &WORDS {
        if *name == text {
            return Some(*word);
        }
    }
    None
}

/// Measures all cases, and prints their lines.
pub fn print_all<R: AllocGlobal + Clock + Print + Threads + Sync>(
    rt: &R,
    settings: &Settings,
) -> Result<(), BenchFault> {
    for (_, word, _) in &WORDS {
        if let Word::Case(case) = *word {
            print_case(rt, settings, case)?;
        }
    }
    Ok(())
}

/// Measures a case, and prints its lines.
pub fn print_case<R: AllocGlobal + Clock + Print + Threads + Sync>(
    rt: &R,
    settings: &Settings,
    case: Case,
) -> Result<(), BenchFault> {
    match case {
        Case::Append => {
            let crews = crews(&APPENDERS, Reading::Copies);
            print_crews(rt, settings, "append", &LENGTHS, &crews)
        }
        Case::AppendByCall => print_crews(rt, settings, "append_by_call", &LENGTHS, &CALLER),
        Case::Read => {
            let crews = crews(&TAILERS, Reading::Copies);
            print_crews(rt, settings, "read", &LENGTHS, &crews)
        }
        Case::ReadInto => {
            let crews = crews(&TAILERS, Reading::Into);
            print_crews(rt, settings, "read_into", &LENGTHS, &crews)
        }
        Case::Flow => {
            let crews = crews(&FLOWS, Reading::Copies);
            print_crews(rt, settings, "flow", &FLOW_LENGTHS, &crews)
        }
        Case::Ping => print_pings(rt, settings),
        Case::ReadAt => print_random_reads(rt, settings),
        Case::Growth => print_growth(rt, settings, Growth::Warm),
        Case::ColdAppend => print_growth(rt, settings, Growth::Cold),
        Case::Save => print_save(rt, settings),
        Case::Reopen => print_reopen(rt, settings),
        Case::ShelfAppend => print_shelves(rt, settings, Measured::Appends),
        Case::ShelfRead => print_shelves(rt, settings, Measured::Reads),
    }
}
