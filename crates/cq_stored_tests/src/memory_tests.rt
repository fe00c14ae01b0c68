//! A message that is stored although memory is refused: what was appended is not appended again.
use crate::life::{append_patiently, left, opened};
use cq_fixtures::{expect_end, expect_text};
use std::test::Fail;

/// With all memory it is stored as well. `docs/refused_memory.py` refuses each growth.
#[test]
fn a_message_is_stored_once_there_is_memory(rt: HostRuntime) -> Result<(), Fail> {
    let alloc = rt.alloc();
    let mut life = opened(alloc, 0)?;
    expect_text(append_patiently(&rt, &mut life, "d")?, "21474836482")?;
    expect_end(
        "memory",
        left(alloc, life)?.as_str(),
        "5 syncs, 5[ab;c;d;] at [21474836481]",
    )
}
