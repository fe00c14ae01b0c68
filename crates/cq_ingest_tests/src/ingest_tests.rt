//! Lines that come, what is acknowledged of them, and what a crash leaves then.
use crate::streams::{Days, Pieces, Room};
use cq_fixtures::expect_answer;
use cq_ingest::Ingest;
use cq_kept::{KeptQueue, Opened};
use cq_kept_tests::{config, images, replayed_text};
use cq_live::Live;
use cq_log_tests::{Ruin, TornFile};
use std::alloc::Global;
use std::test::Fail;

/// What goes wrong.
#[derive(Clone, Copy)]
enum Trouble {
    Nothing,
    /// The reader fails after its last piece.
    Reader,
    /// The look at the clock with this number fails.
    Clock(u32),
    /// The writer has room for this many bytes.
    Room(usize),
    /// The write or sync of the log with this number fails. Those of the opening are 8.
    Log(u64),
}

/// What came of lines.
#[derive(Drop)]
struct Served {
    /// What was printed, with a space in place of each line feed.
    printed: String,
    /// `ok`, or the fault.
    said: String,
    /// What a read of the log gives after a crash, played on what the images hold.
    stored: String,
}

/// Pieces that are read, what goes wrong, what is printed, what is said, and what is stored.
///
/// The queue has the messages `ab` and `c` of cycle 5. The clock is in cycle 0 at first, and one cycle later at each read.
type Row = (
    &'static [&'static str],
    Trouble,
    &'static str,
    &'static str,
    &'static str,
);

const NOTHING_NEW: &str = "5[ab;c;] at [21474836481]";

static ROWS: [Row; 22] = [
    (&[], Trouble::Nothing, "", "ok", NOTHING_NEW),
    // Lines of one read, and a last one without a line feed.
    (
        &["d\ne\n"],
        Trouble::Nothing,
        "0000000500000002 0000000500000003 ",
        "ok",
        "5[ab;c;d;e;] at [21474836481]",
    ),
    (
        &["d\ne"],
        Trouble::Nothing,
        "0000000500000002 0000000500000003 ",
        "ok",
        "5[ab;c;d;e;] at [21474836481]",
    ),
    // A line comes in pieces.
    (
        &["d", "e\nf", "\n"],
        Trouble::Nothing,
        "0000000500000002 0000000500000003 ",
        "ok",
        "5[ab;c;de;f;] at [21474836481]",
    ),
    // A carriage return is kept.
    (
        &["d\r\n"],
        Trouble::Nothing,
        "0000000500000002 ",
        "ok",
        "5[ab;c;d\r;] at [21474836481]",
    ),
    // The clock reaches the next cycle at the seventh read.
    (
        &["d\n", "e\n", "f\n", "g\n", "h\n", "i\n", "j\n", "k\n"],
        Trouble::Nothing,
        "0000000500000002 0000000500000003 0000000500000004 0000000500000005 0000000500000006 0000000500000007 0000000600000000 0000000700000000 ",
        "ok",
        "5[ab;c;d;e;f;g;h;i;] 6[j;] 7[k;] at [21474836481]",
    ),
    // A line that is refused ends it. Those before it are stored.
    (
        &["\n"],
        Trouble::Nothing,
        "",
        "line 1: BadRoom",
        NOTHING_NEW,
    ),
    (
        &["d\n", "e\n\nf\n"],
        Trouble::Nothing,
        "0000000500000002 0000000500000003 ",
        "line 3: BadRoom",
        "5[ab;c;d;e;] at [21474836481]",
    ),
    // Faults of the streams and of the clock.
    (
        &["d\ne"],
        Trouble::Reader,
        "0000000500000002 ",
        "read fault",
        "5[ab;c;d;] at [21474836481]",
    ),
    (
        &["d\n", "e\n"],
        Trouble::Clock(2),
        "0000000500000002 ",
        "the clock could not be read, or is set before 1970: set the clock",
        "5[ab;c;d;] at [21474836481]",
    ),
    (
        &["d"],
        Trouble::Clock(2),
        "",
        "the clock could not be read, or is set before 1970: set the clock",
        NOTHING_NEW,
    ),
    (
        &["d\n", "e\n"],
        Trouble::Room(0),
        "",
        "write fault",
        "5[ab;c;d;] at [21474836481]",
    ),
    (
        &["d\n", "e\n"],
        Trouble::Room(20),
        "0000000500000002 000",
        "write fault",
        "5[ab;c;d;e;] at [21474836481]",
    ),
    // The first line is stored by the calls 10 to 15, and the second by the next six.
    (&["d\n", "e\n"], Trouble::Log(10), "", STOPPED, NOTHING_NEW),
    (&["d\n", "e\n"], Trouble::Log(11), "", STOPPED, NOTHING_NEW),
    (&["d\n", "e\n"], Trouble::Log(13), "", STOPPED, NOTHING_NEW),
    (&["d\n", "e\n"], Trouble::Log(14), "", STOPPED, NOTHING_NEW),
    (&["d\n", "e\n"], Trouble::Log(15), "", STOPPED, NOTHING_NEW),
    (
        &["d\n", "e\n"],
        Trouble::Log(16),
        "0000000500000002 ",
        STOPPED,
        "5[ab;c;d;] at [21474836481]",
    ),
    (
        &["d\n", "e\n"],
        Trouble::Log(20),
        "0000000500000002 ",
        STOPPED,
        "5[ab;c;d;] at [21474836481]",
    ),
    (
        &["d\n", "e\n"],
        Trouble::Log(21),
        "0000000500000002 ",
        STOPPED,
        "5[ab;c;d;] at [21474836481]",
    ),
    (
        &["d\n", "e\n"],
        Trouble::Log(22),
        "0000000500000002 0000000500000003 ",
        "ok",
        "5[ab;c;d;e;] at [21474836481]",
    ),
];

const STOPPED: &str =
    "the log has stopped: the file could not be read, written, cut or synced. Open it again, and read what is stored. Start again, and all lines with an index are there";

/// A live queue that holds what the images do. The write or sync of its log with this number fails.
fn live(alloc: Global, failing: u64) -> Result<Live<TornFile>, Fail> {
    match KeptQueue::open(
        alloc,
        config(alloc)?,
        &images(alloc)?,
        TornFile::new(alloc, failing),
    ) {
        Ok(Opened { kept, endpoint }) => Ok(Live {
            kept,
            endpoint,
            turns: 0,
        }),
        Err(error) => Err(Fail::from(error.fault)),
    }
}

/// An ingest of such a queue.
fn ingest(alloc: Global, trouble: Trouble) -> Result<Ingest<TornFile>, Fail> {
    let failing = match trouble {
        Trouble::Log(failing) => failing,
        _ => 0,
    };
    Ok(Ingest::new(alloc, live(alloc, failing)?))
}

/// Serves pieces, and returns what that says. What is printed goes to the writer.
fn said(
    alloc: Global,
    ingest: &mut Ingest<TornFile>,
    pieces: &'static [&'static str],
    trouble: Trouble,
    output: &mut Room,
) -> Result<String, Fail> {
    let is_broken = matches!(trouble, Trouble::Reader);
    let failing = match trouble {
        Trouble::Clock(failing) => failing,
        _ => 0,
    };
    let mut input = Pieces::new(pieces, is_broken);
    match ingest.serve(alloc, &mut input, &Days::new(failing), output) {
        Ok(()) => Ok(String::from_str(alloc, "ok")?),
        Err(fault) => Ok(format!(in alloc; "{fault}")?),
    }
}

/// What was printed, with a space in place of each line feed.
fn printed(alloc: Global, output: &Room) -> Result<String, Fail> {
    let mut text = String::new(alloc);
    for line in str::from_utf8(&output.taken)?.split('\n') {
        text.push_str(line)?;
        text.push(' ')?;
    }
    text.pop();
    Ok(text)
}

/// What a read of the log of a queue gives after a crash that loses all that was not synced.
fn stored(alloc: Global, kept: &KeptQueue<TornFile>) -> Result<String, Fail> {
    let device = kept.keeper().log().device();
    replayed_text(alloc, &device.after_crash(alloc, Ruin::Lost)?)
}

/// Ends an ingest. Returns what a read of the log of its queue gives then.
fn stored_by(alloc: Global, ingest: Ingest<TornFile>) -> Result<String, Fail> {
    stored(alloc, &ingest.into_kept())
}

/// Serves pieces, and returns what that says, and what is stored. What is printed goes to the writer.
fn said_and_stored(
    alloc: Global,
    pieces: &'static [&'static str],
    trouble: Trouble,
    output: &mut Room,
) -> Result<(String, String), Fail> {
    let mut ingest = ingest(alloc, trouble)?;
    let said = said(alloc, &mut ingest, pieces, trouble, output)?;
    let stored = stored_by(alloc, ingest)?;
    Ok((said, stored))
}

/// A writer that has room where this goes wrong.
fn output_of(alloc: Global, trouble: Trouble) -> Room {
    match trouble {
        Trouble::Room(room) => Room::new(alloc, room),
        _ => Room::new(alloc, usize::MAX),
    }
}

/// What comes of pieces where this goes wrong.
fn come_of(
    alloc: Global,
    pieces: &'static [&'static str],
    trouble: Trouble,
) -> Result<Served, Fail> {
    let mut output = output_of(alloc, trouble);
    let (said, stored) = said_and_stored(alloc, pieces, trouble, &mut output)?;
    let printed = printed(alloc, &output)?;
    Ok(Served {
        printed,
        said,
        stored,
    })
}

/// Fails if this is not what a row wants.
fn expect_served(served: &Served, number: usize, row: &Row) -> Result<(), Fail> {
    expect_answer("printed", number, served.printed.as_str(), row.2)?;
    expect_answer("said", number, served.said.as_str(), row.3)?;
    expect_answer("stored", number, served.stored.as_str(), row.4)
}

/// Fails if this does not come of a row.
fn expect_outcome(alloc: Global, number: usize, row: &Row) -> Result<(), Fail> {
    let served = come_of(alloc, row.0, row.1)?;
    expect_served(&served, number, row)
}

/// Lines are appended as they come, stored, and acknowledged then.
#[test]
fn lines_are_acknowledged_once_they_are_stored(rt: HostRuntime) -> Result<(), Fail> {
    for (i, row) in ROWS.iter().enumerate() {
        expect_outcome(rt.alloc(), i, row)?;
    }
    Ok(())
}
