//! Appends to a queue, by its lists and by its words.
use crate::queues::Queue;
use cq_contents::ContentsWriter;
use cq_fixtures::{Cycles, DAY, contents_text, expect_answer, expect_end};
use cq_journal::{Journal, JournalWriter};
use std::alloc::Global;
use std::test::Fail;

/// The first moment after the last one that there is.
const TOO_LATE: u64 = 253_402_300_800_000;

/// Bytes of messages.
static BYTES: [u8; 300] = [65; 300];

/// Appends some messages of a length at a moment: the moment, the length, how many, and what the last of them returns.
type Append = (u64, usize, u32, &'static str);

/// The cells of a cycle and the spacing of its index, the cycles that there are, and what is appended in turn. The queue may
/// have three cycles.
///
/// Messages of 1 to 4 bytes have 2 cells. The store record, the top table and the first index table have 28.
type Row = (u32, u32, Cycles, &'static [Append]);

static ROWS: &[Row] = &[
    // Each refusal, in order.
    (
        64,
        1,
        &[],
        &[
            (TOO_LATE, 0, 1, "BadRoom"),
            (TOO_LATE, 1, 1, "BadMoment"),
            (0, 1, 1, "0000000000000000"),
            (5 * DAY, 2, 1, "0000000500000000"),
            // The last cycle is later.
            (DAY, 3, 1, "0000000500000001"),
            // The cycle of the moment begins, and the message does not fit.
            (7 * DAY, 300, 1, "CycleFull"),
            (DAY, 1, 1, "0000000700000000"),
            (8 * DAY, 1, 1, "NoCycleLeft"),
            (8 * DAY, 300, 1, "NoCycleLeft"),
            (7 * DAY, 300, 1, "CycleFull"),
            (7 * DAY, 1, 1, "0000000700000001"),
        ],
    ),
    // A cycle that is full: one cell is kept.
    (
        31,
        1,
        &[],
        &[
            (0, 5, 1, "CycleFull"),
            (0, 4, 1, "0000000000000000"),
            (0, 1, 1, "CycleFull"),
            (DAY, 1, 1, "0000000100000000"),
        ],
    ),
    // The ninth message has an index table before it, or with spacing 2 the seventeenth.
    (
        55,
        1,
        &[],
        &[(0, 1, 8, "0000000000000007"), (0, 1, 1, "CycleFull")],
    ),
    (
        56,
        1,
        &[],
        &[(0, 1, 9, "0000000000000008"), (0, 1, 1, "CycleFull")],
    ),
    (
        71,
        2,
        &[],
        &[(0, 1, 16, "000000000000000f"), (0, 1, 1, "CycleFull")],
    ),
    (
        72,
        2,
        &[],
        &[(0, 1, 17, "0000000000000010"), (0, 1, 1, "CycleFull")],
    ),
    // The index has 64 places, or with spacing 2 it has 128, though cells are left.
    (
        400,
        1,
        &[],
        &[(0, 1, 64, "000000000000003f"), (0, 1, 1, "CycleFull")],
    ),
    (
        800,
        2,
        &[],
        &[(0, 1, 128, "000000000000007f"), (0, 1, 1, "CycleFull")],
    ),
    // Messages that are there already.
    (
        58,
        1,
        &[(0, &["a"]), (4, &["b", "c", "d", "e", "f", "g", "h", "i"])],
        &[
            (0, 13, 1, "CycleFull"),
            (0, 12, 1, "0000000400000008"),
            (0, 1, 1, "CycleFull"),
            (5 * DAY, 8, 1, "0000000500000000"),
        ],
    ),
];

/// Both writers of a queue.
#[derive(Drop)]
struct Both {
    lists: ContentsWriter,
    words: JournalWriter,
}

impl Both {
    fn new(alloc: Global, queue: &Queue) -> Result<Both, Fail> {
        let config = queue.config(alloc)?;
        let journal = if queue.lists.is_empty() {
            Journal::create(alloc, config, 0)?
        } else {
            Journal::reopen(alloc, config, &queue.contents(alloc)?)?
        };
        Ok(Both {
            lists: queue.made(alloc)?.into_writer(),
            words: journal.into_writer(),
        })
    }

    /// Appends a message, and returns what both writers return. Fails if it is not the same.
    fn append(&mut self, alloc: Global, moment: u64, bytes: &[u8]) -> Result<String, Fail> {
        let appended = match self.lists.append(alloc, moment, bytes) {
            Ok(index) => format!(in alloc; "{index}")?,
            Err(fault) => format!(in alloc; "{fault}")?,
        };
        let want = match self.words.append(moment, bytes) {
            Ok(index) => format!(in alloc; "{index}")?,
            Err(refusal) => format!(in alloc; "{refusal}")?,
        };
        expect_end("both", appended.as_str(), want.as_str())?;
        Ok(appended)
    }

    /// Fails if the writers do not leave the same.
    fn end(self, alloc: Global) -> Result<(), Fail> {
        let Both { lists, words } = self;
        let left = contents_text(alloc, &lists.into_contents())?;
        let want = contents_text(alloc, &words.into_contents(alloc)?)?;
        expect_end("left", left.as_str(), want.as_str())
    }
}

/// Appends the messages, and returns what the last of them returns.
fn appended(alloc: Global, both: &mut Both, append: &Append) -> Result<String, Fail> {
    let (moment, len, count, _want) = *append;
    let bytes = BYTES.get(..len).unwrap_or(&[]);
    let mut answer = String::new(alloc);
    for _ in 0..count {
        answer = both.append(alloc, moment, bytes)?;
    }
    Ok(answer)
}

#[test]
fn lists_are_written_as_words_are(rt: HostRuntime) -> Result<(), Fail> {
    let alloc = rt.alloc();
    for (cells, spacing, lists, appends) in ROWS {
        let queue = Queue {
            cells: *cells,
            spacing: *spacing,
            cycles: 3,
            lists,
        };
        let mut both = Both::new(alloc, &queue)?;
        for (number, append) in appends.iter().enumerate() {
            let answer = appended(alloc, &mut both, append)?;
            expect_answer("appends", number, answer.as_str(), append.3)?;
        }
        both.end(alloc)?;
    }
    Ok(())
}
