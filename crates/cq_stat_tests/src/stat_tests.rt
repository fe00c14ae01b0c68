//! What is said of settings and contents: each text is counted by hand from the rules of the format.
use cq_cycle::Roll;
use cq_files::can_be_opened;
use cq_fixtures::{contents_of, expect_text};
use cq_layout::{Layout, Shape, StoreVersion};
use cq_model::{Config, Contents};
use cq_stat::{stat_of, text_of};
use std::alloc::{AllocError, Global};
use std::test::Fail;

/// A queue, and what is said of it.
struct Row {
    /// The version of its folder.
    version: u8,
    roll: Roll,
    epoch: u64,
    /// The cells of a cycle, the count, the spacing, and how many cycles may begin.
    shape: (u32, u32, u32, u32),
    names: &'static [&'static str],
    cycles: &'static [(u32, &'static [&'static str])],
    positions: &'static [u64],
    floor: u32,
    lines: &'static str,
    json: &'static str,
}

static ROWS: [Row; 6] = [
    // No cycle has begun.
    Row {
        version: 2,
        roll: Roll::Daily,
        epoch: 0,
        shape: (64, 8, 1, 4),
        names: &["reader"],
        cycles: &[],
        positions: &[0],
        floor: 0,
        lines: "version 2\nroll daily\nepoch 0\ncells 64\ncount 8\nspacing 1\ncycles 4\nfirst none\nfloor 0\n\
end 0000000000000000\nmore_cycles 4\nname reader 0000000000000000 0\n",
        json: "{\"version\":2,\"roll\":\"daily\",\"epoch\":0,\"cells\":64,\"count\":8,\"spacing\":1,\"cycles\":4,\
\"begun\":[],\"first\":null,\"floor\":0,\"end\":\"0000000000000000\",\"more_cycles\":4,\
\"names\":[{\"name\":\"reader\",\"position\":\"0000000000000000\",\"messages_left\":0}]}\n",
    },
    // Two cycles. The store record has 10 cells, two tables have 18, and a message of 5 bytes has 3.
    Row {
        version: 2,
        roll: Roll::Daily,
        epoch: 0,
        shape: (64, 8, 1, 4),
        names: &["reader"],
        cycles: &[(20000, &["hello", "world"]), (20001, &["later"])],
        positions: &[85899345920001],
        floor: 0,
        lines: "version 2\nroll daily\nepoch 0\ncells 64\ncount 8\nspacing 1\ncycles 4\n\
cycle 20241004 20000 2 10 35 29 ended\ncycle 20241005 20001 1 5 32 32 open\nfirst 00004e2000000000\nfloor 0\n\
end 00004e2100000001\nmore_cycles 2\nname reader 00004e2000000001 2\n",
        json: "{\"version\":2,\"roll\":\"daily\",\"epoch\":0,\"cells\":64,\"count\":8,\"spacing\":1,\"cycles\":4,\
\"begun\":[{\"name\":\"20241004\",\"number\":20000,\"messages\":2,\"bytes\":10,\"cells_used\":35,\"cells_left\":29,\
\"state\":\"ended\"},{\"name\":\"20241005\",\"number\":20001,\"messages\":1,\"bytes\":5,\"cells_used\":32,\
\"cells_left\":32,\"state\":\"open\"}],\"first\":\"00004e2000000000\",\"floor\":0,\"end\":\"00004e2100000001\",\
\"more_cycles\":2,\"names\":[{\"name\":\"reader\",\"position\":\"00004e2000000001\",\"messages_left\":2}]}\n",
    },
    // Hours, a floor, a cycle with no message, and names before the floor, at it, between messages and at the end.
    Row {
        version: 2,
        roll: Roll::Hourly,
        epoch: 3600000,
        shape: (64, 8, 1, 3),
        names: &["old", "dropped", "at_floor", "mid", "last"],
        cycles: &[(1, &["a"]), (2, &[]), (5, &["bc", "def", "ghijk"])],
        positions: &[0, 4294967296, 8589934592, 21474836481, 21474836483],
        floor: 2,
        lines: "version 2\nroll hourly\nepoch 3600000\ncells 64\ncount 8\nspacing 1\ncycles 3\n\
cycle 19700101-02 1 1 1 31 33 dropped\ncycle 19700101-03 2 0 0 1 63 ended\ncycle 19700101-06 5 3 10 36 28 open\n\
first 0000000500000000\nfloor 2\nend 0000000500000003\nmore_cycles 0\nname old 0000000000000000 3\n\
name dropped 0000000100000000 3\nname at_floor 0000000200000000 3\nname mid 0000000500000001 2\n\
name last 0000000500000003 0\n",
        json: "{\"version\":2,\"roll\":\"hourly\",\"epoch\":3600000,\"cells\":64,\"count\":8,\"spacing\":1,\"cycles\":3,\
\"begun\":[{\"name\":\"19700101-02\",\"number\":1,\"messages\":1,\"bytes\":1,\"cells_used\":31,\"cells_left\":33,\
\"state\":\"dropped\"},{\"name\":\"19700101-03\",\"number\":2,\"messages\":0,\"bytes\":0,\"cells_used\":1,\
\"cells_left\":63,\"state\":\"ended\"},{\"name\":\"19700101-06\",\"number\":5,\"messages\":3,\"bytes\":10,\
\"cells_used\":36,\"cells_left\":28,\"state\":\"open\"}],\"first\":\"0000000500000000\",\"floor\":2,\
\"end\":\"0000000500000003\",\"more_cycles\":0,\
\"names\":[{\"name\":\"old\",\"position\":\"0000000000000000\",\"messages_left\":3},\
{\"name\":\"dropped\",\"position\":\"0000000100000000\",\"messages_left\":3},\
{\"name\":\"at_floor\",\"position\":\"0000000200000000\",\"messages_left\":3},\
{\"name\":\"mid\",\"position\":\"0000000500000001\",\"messages_left\":2},\
{\"name\":\"last\",\"position\":\"0000000500000003\",\"messages_left\":0}]}\n",
    },
    // Version 1, whose store record has 7 cells. There are three tables, since one serves 16 messages. No name.
    Row {
        version: 1,
        roll: Roll::Minutely,
        epoch: 0,
        shape: (100, 8, 2, 64),
        names: &[],
        cycles: &[(
            0,
            &[
                "a", "b", "c", "d", "e", "f", "g", "h", "i", "j", "k", "l", "m", "n", "o", "p", "q",
            ],
        )],
        positions: &[],
        floor: 0,
        lines: "version 1\nroll minutely\nepoch 0\ncells 100\ncount 8\nspacing 2\ncycles 64\n\
cycle 19700101-0000 0 17 17 69 31 open\nfirst 0000000000000000\nfloor 0\nend 0000000000000011\nmore_cycles 63\n",
        json: "{\"version\":1,\"roll\":\"minutely\",\"epoch\":0,\"cells\":100,\"count\":8,\"spacing\":2,\"cycles\":64,\
\"begun\":[{\"name\":\"19700101-0000\",\"number\":0,\"messages\":17,\"bytes\":17,\"cells_used\":69,\"cells_left\":31,\
\"state\":\"open\"}],\"first\":\"0000000000000000\",\"floor\":0,\"end\":\"0000000000000011\",\"more_cycles\":63,\
\"names\":[]}\n",
    },
    // All messages are dropped.
    Row {
        version: 2,
        roll: Roll::Daily,
        epoch: 0,
        shape: (64, 8, 1, 4),
        names: &["reader"],
        cycles: &[(1, &["a"]), (2, &[])],
        positions: &[4294967296],
        floor: 2,
        lines: "version 2\nroll daily\nepoch 0\ncells 64\ncount 8\nspacing 1\ncycles 4\n\
cycle 19700102 1 1 1 31 33 dropped\ncycle 19700103 2 0 0 1 63 open\nfirst none\nfloor 2\nend 0000000200000000\n\
more_cycles 2\nname reader 0000000100000000 0\n",
        json: "{\"version\":2,\"roll\":\"daily\",\"epoch\":0,\"cells\":64,\"count\":8,\"spacing\":1,\"cycles\":4,\
\"begun\":[{\"name\":\"19700102\",\"number\":1,\"messages\":1,\"bytes\":1,\"cells_used\":31,\"cells_left\":33,\
\"state\":\"dropped\"},{\"name\":\"19700103\",\"number\":2,\"messages\":0,\"bytes\":0,\"cells_used\":1,\
\"cells_left\":63,\"state\":\"open\"}],\"first\":null,\"floor\":2,\"end\":\"0000000200000000\",\"more_cycles\":2,\
\"names\":[{\"name\":\"reader\",\"position\":\"0000000100000000\",\"messages_left\":0}]}\n",
    },
    // A cycle that is full: a cell is kept for the end of data, and it is used then.
    Row {
        version: 2,
        roll: Roll::Daily,
        epoch: 86400000,
        shape: (31, 8, 1, 1),
        names: &["reader"],
        cycles: &[(0, &["abcd"])],
        positions: &[0],
        floor: 0,
        lines: "version 2\nroll daily\nepoch 86400000\ncells 31\ncount 8\nspacing 1\ncycles 1\n\
cycle 19700102 0 1 4 31 0 open\nfirst 0000000000000000\nfloor 0\nend 0000000000000001\nmore_cycles 0\n\
name reader 0000000000000000 1\n",
        json: "{\"version\":2,\"roll\":\"daily\",\"epoch\":86400000,\"cells\":31,\"count\":8,\"spacing\":1,\"cycles\":1,\
\"begun\":[{\"name\":\"19700102\",\"number\":0,\"messages\":1,\"bytes\":4,\"cells_used\":31,\"cells_left\":0,\
\"state\":\"open\"}],\"first\":\"0000000000000000\",\"floor\":0,\"end\":\"0000000000000001\",\"more_cycles\":0,\
\"names\":[{\"name\":\"reader\",\"position\":\"0000000000000000\",\"messages_left\":1}]}\n",
    },
];

/// These texts, each in memory of its own.
fn texts(alloc: Global, words: &[&str]) -> Result<Vec<String>, AllocError> {
    let mut texts = Vec::new(alloc);
    for word in words {
        texts.push(String::from_str(alloc, word)?)?;
    }
    Ok(texts)
}

/// The settings of a queue.
fn config_in(alloc: Global, row: &Row) -> Result<Config, Fail> {
    let (cells, count, spacing, cycles) = row.shape;
    let shape = Shape::new(cells, count, spacing)?;
    let names = texts(alloc, row.names)?;
    if row.version == 1 {
        let layout = Layout::new(shape, StoreVersion::First);
        return Ok(Config::of_layout(layout, cycles, row.roll, row.epoch, names)?);
    }
    Ok(Config::new(shape, cycles, row.roll, row.epoch, names)?)
}

/// What is said of a queue, as JSON or as lines.
fn said(alloc: Global, config: Config, contents: &Contents, json: bool) -> Result<String, Fail> {
    if !can_be_opened(&config, contents) {
        return Err(Fail::new(format_args!("cannot be opened")));
    }
    if contents.positions.as_slice().len() != config.names().len() {
        return Err(Fail::new(format_args!("not a position for each name")));
    }
    let stat = stat_of(alloc, config, contents)?;
    Ok(text_of(alloc, &stat, json)?)
}

/// What is said of the queue of a row, as JSON or as lines.
fn said_of(alloc: Global, row: &Row, json: bool) -> Result<String, Fail> {
    let mut contents = contents_of(alloc, row.cycles, row.positions)?;
    contents.floor = row.floor;
    said(alloc, config_in(alloc, row)?, &contents, json)
}

#[test]
fn says_what_a_queue_holds(rt: HostRuntime) -> Result<(), Fail> {
    for row in &ROWS {
        expect_text(said_of(rt.alloc(), row, false)?, row.lines)?;
    }
    Ok(())
}

#[test]
fn says_the_same_as_json(rt: HostRuntime) -> Result<(), Fail> {
    for row in &ROWS {
        expect_text(said_of(rt.alloc(), row, true)?, row.json)?;
    }
    Ok(())
}
