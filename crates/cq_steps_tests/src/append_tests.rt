//! Appenders that are lost between any two steps of an append.
use crate::queues::{Call, Lost, Measures, Outcome, layout_of, push_missed_lost, steps_to_stand};
use cq_chain::message_length;
use cq_fixtures::expect_text;
use cq_layout::store_size;
use std::alloc::{AllocError, Global};
use std::test::Fail;

/// An append, at each of whose steps in turn its caller is lost.
#[derive(Drop)]
struct Append<'a> {
    /// The measures of the cycles.
    measures: Measures,
    /// How many messages are there before.
    count: u32,
    /// What is appended.
    text: &'a str,
    /// What is left before the message is complete.
    before: &'a str,
    /// And then.
    behind: &'a str,
}

impl Append<'_> {
    /// How the append has to end, and what has to be left, after this many steps. The message is published after
    /// `stands` of them; two more fill in entries of the index, and one raises the write position.
    fn wanted(&self, stands: u32, steps: u32) -> (Outcome, &str) {
        if steps < stands {
            return (Outcome::Lost, self.before);
        }
        match steps - stands {
            3 => (Outcome::Made, self.behind),
            _ => (Outcome::Lost, self.behind),
        }
    }
}

/// Returns the results and remains that differ from what is wanted, if the caller is lost after each number of steps.
fn missed_of(alloc: Global, append: &Append<'_>) -> Result<String, Fail> {
    let mut missed = String::new(alloc);
    let layout = layout_of(alloc, append.measures)?;
    let len = message_length(append.text.as_bytes())?;
    let stands = steps_to_stand(layout, append.count, len);
    let lost = Lost {
        measures: append.measures,
        count: append.count,
        call: Call::Append(append.text),
    };
    for steps in 0..stands + 4 {
        let wanted = append.wanted(stands, steps);
        push_missed_lost(alloc, &lost, steps, wanted, &mut missed)?;
    }
    Ok(missed)
}

/// Loses the caller after each number of steps. Fails if a result is not the wanted one.
fn expect_append(alloc: Global, append: &Append<'_>) -> Result<(), Fail> {
    expect_text(missed_of(alloc, append)?, "")
}

static FIRST: Append<'static> = Append {
    measures: (64, 8, 1),
    count: 0,
    text: "a",
    before: "0[] at [0], 0",
    behind: "0[a;] at [0], 1",
};

#[test]
fn an_appender_of_the_first_message_is_lost(rt: HostRuntime) -> Result<(), Fail> {
    expect_append(rt.alloc(), &FIRST)
}

static BEHIND_A_TABLE: Append<'static> = Append {
    measures: (64, 8, 1),
    count: 8,
    text: "a",
    before: "0[a;a;a;a;a;a;a;a;] at [0], 8",
    behind: "0[a;a;a;a;a;a;a;a;a;] at [0], 9",
};

#[test]
fn an_appender_behind_a_full_table_is_lost(rt: HostRuntime) -> Result<(), Fail> {
    expect_append(rt.alloc(), &BEHIND_A_TABLE)
}

static OF_LARGER_TABLES: Append<'static> = Append {
    measures: (128, 16, 2),
    count: 0,
    text: "hello",
    before: "0[] at [0], 0",
    behind: "0[hello;] at [0], 1",
};

#[test]
fn an_appender_that_owes_three_records_is_lost(rt: HostRuntime) -> Result<(), Fail> {
    expect_append(rt.alloc(), &OF_LARGER_TABLES)
}

/// How many messages are there before, how many cells the store record has together with the message that fills the
/// cycle, and how what is left begins.
static FILLED: [(u32, u32, &str); 2] = [
    // 64 cells less two tables, the message's header, and the end of data.
    (0, 44, "0["),
    // And less another table and eight messages.
    (8, 19, "0[a;a;a;a;a;a;a;a;"),
];

/// Makes a text of this many cells.
fn text_of(alloc: Global, cells: u32) -> Result<String, AllocError> {
    let mut text = String::new(alloc);
    for _ in 0..cells {
        text.push_str("abcd")?;
    }
    Ok(text)
}

/// Loses the caller in an append after this many messages, which fills the cycle.
fn expect_filled(alloc: Global, count: u32, text: &str, begins: &str) -> Result<(), Fail> {
    let before = format!(in alloc; "{begins}] at [0], {count}")?;
    let behind = format!(in alloc; "{begins}{text};] at [0], CycleFull")?;
    let append = Append {
        measures: (64, 8, 1),
        count,
        text,
        before: before.as_str(),
        behind: behind.as_str(),
    };
    expect_append(alloc, &append)
}

/// Loses the caller in appends that fill the cycle.
fn expect_each_filled(alloc: Global) -> Result<(), Fail> {
    let store = store_size(layout_of(alloc, (64, 8, 1))?);
    for (count, cells, begins) in &FILLED {
        let text = text_of(alloc, cells.saturating_sub(store))?;
        expect_filled(alloc, *count, text.as_str(), begins)?;
    }
    Ok(())
}

#[test]
fn an_appender_that_fills_the_cycle_is_lost(rt: HostRuntime) -> Result<(), Fail> {
    expect_each_filled(rt.alloc())
}
