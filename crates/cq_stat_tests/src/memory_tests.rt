//! What is said of a queue although memory is refused: the call that is refused for it is made again.
use cq_files::can_be_opened;
use cq_fixtures::{contents_of, small_config};
use cq_model::{Config, Contents};
use cq_stat::{stat_of, text_of};
use std::alloc::{AllocError, Global};
use std::test::Fail;

/// How often a call is made that is out of memory.
const TRIES: u32 = 8;

/// What is said of a queue, if it can be opened.
fn said(
    alloc: Global,
    config: Config,
    contents: &Contents,
    json: bool,
) -> Result<String, AllocError> {
    let paired = contents.positions.as_slice().len() == config.names().len();
    if !can_be_opened(&config, contents) || !paired {
        return Ok(String::new(alloc));
    }
    let stat = stat_of(alloc, config, contents)?;
    text_of(alloc, &stat, json)
}

/// What is said of a queue, with another try where memory is refused.
fn said_at_last(
    alloc: Global,
    config: &Config,
    contents: &Contents,
    json: bool,
) -> Result<String, AllocError> {
    for _ in 0..TRIES {
        let Ok(config) = config.copied(alloc) else {
            continue;
        };
        if let Ok(text) = said(alloc, config, contents, json) {
            return Ok(text);
        }
    }
    Err(AllocError)
}

#[test]
fn all_is_said_or_nothing(rt: HostRuntime) -> Result<(), Fail> {
    let alloc = rt.alloc();
    let config = small_config(alloc, 4)?;
    let contents = contents_of(alloc, &[(0, &["hello", "a"]), (1, &["b"])], &[1])?;
    let lines = said_at_last(alloc, &config, &contents, false)?;
    assert_eq!(rt;
        lines.as_str(),
        "version 2\nroll daily\nepoch 0\ncells 64\ncount 8\nspacing 1\ncycles 4\n\
cycle 19700101 0 2 6 34 30 ended\ncycle 19700102 1 1 1 31 33 open\nfirst 0000000000000000\nfloor 0\n\
end 0000000100000001\nmore_cycles 2\nname reader 0000000000000001 2\n"
    );
    let json = said_at_last(alloc, &config, &contents, true)?;
    assert_eq!(rt;
        json.as_str(),
        "{\"version\":2,\"roll\":\"daily\",\"epoch\":0,\"cells\":64,\"count\":8,\"spacing\":1,\
\"cycles\":4,\"begun\":[{\"name\":\"19700101\",\"number\":0,\"messages\":2,\"bytes\":6,\"cells_used\":34,\
\"cells_left\":30,\"state\":\"ended\"},{\"name\":\"19700102\",\"number\":1,\"messages\":1,\"bytes\":1,\
\"cells_used\":31,\"cells_left\":33,\"state\":\"open\"}],\"first\":\"0000000000000000\",\"floor\":0,\
\"end\":\"0000000100000001\",\"more_cycles\":2,\
\"names\":[{\"name\":\"reader\",\"position\":\"0000000000000001\",\"messages_left\":2}]}\n"
    );
    Ok(())
}
