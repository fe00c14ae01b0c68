//! Refused memory: the call that is refused for it is made again.
use crate::world::Step::Write;
use crate::world::{Life, LivingFolder, Says, Ticks};
use cq_fixtures::expect_text;
use cq_following::{Pipe, Watch, follow};
use cq_running::{ReadForm, ReadSettings};
use std::alloc::Global;
use std::test::Fail;

/// How often a call is made that is out of memory.
const TRIES: u32 = 8;

/// What is printed, with another try where memory is refused before anything is.
fn printed_at_last(alloc: Global, life: Life) -> Result<String, Fail> {
    let clock = Ticks::new(alloc, false);
    let all = ReadSettings {
        form: ReadForm::Line,
        back: false,
        from: None,
        limit: Some(1),
        last: None,
        since: None,
        until: None,
    };
    for _ in 0..TRIES {
        let Ok(mut folder) = LivingFolder::new(alloc, life) else {
            continue;
        };
        let mut watch = Watch::new(&clock, Says(true));
        let mut output = Pipe::new(Vec::new(alloc));
        if follow(&mut watch, &mut folder, &all, Some(1), &mut output).is_ok() {
            let written = output.into_writer();
            let text = str::from_utf8(written.as_slice()).unwrap_or("no text");
            return Ok(String::from_str(alloc, text)?);
        }
    }
    Ok(String::from_str(alloc, "no memory")?)
}

#[test]
fn it_is_printed_at_last(rt: HostRuntime) -> Result<(), Fail> {
    expect_text(
        printed_at_last(rt.alloc(), &[&[Write(0, b"a\n")]])?,
        "0000000000000000 a\n",
    )
}
