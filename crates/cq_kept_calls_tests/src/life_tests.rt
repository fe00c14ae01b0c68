//! What is known to be stored after each call, and what the file has.
use crate::life::{Call, Life, answer, of_images};
use cq_fixtures::expect_answer;
use cq_kept_tests::replayed_text;
use std::alloc::Global;
use std::test::Fail;

/// A call, its answer, the end below which messages are known to be stored, and what a read of the file gives.
type Step = (Call, &'static str, u64, &'static str);

/// What the images hold.
const AT_FIRST: &str = "5[ab;c;] at [21474836481]";

/// The same with one message more.
const ONE_MORE: &str = "5[ab;c;d;] at [21474836481]";

/// The calls of a log are made one after another. The stored end moves once none is left.
static STEPS: [Step; 16] = [
    (Call::Make, "true", 0x5_0000_0002, AT_FIRST),
    (Call::MakeAll, "4 syncs", 0x5_0000_0002, AT_FIRST),
    (Call::MakeAll, "0 syncs", 0x5_0000_0002, AT_FIRST),
    (Call::Make, "false", 0x5_0000_0002, AT_FIRST),
    (Call::Fail, "NoCall", 0x5_0000_0002, AT_FIRST),
    (Call::Append("d"), "21474836482", 0x5_0000_0002, AT_FIRST),
    (Call::Turn, "ok", 0x5_0000_0002, AT_FIRST),
    (Call::MakeAll, "1 syncs", 0x5_0000_0002, AT_FIRST),
    (Call::Settle, "ok", 0x5_0000_0002, AT_FIRST),
    // The gate of the frame is open, and not synced yet.
    (Call::Make, "true", 0x5_0000_0002, ONE_MORE),
    (Call::MakeAll, "1 syncs", 0x5_0000_0003, ONE_MORE),
    (Call::Append("e"), "21474836483", 0x5_0000_0003, ONE_MORE),
    (Call::Turn, "ok", 0x5_0000_0003, ONE_MORE),
    (Call::Fail, "noted", 0x5_0000_0003, ONE_MORE),
    (Call::Turn, "Stopped(Failed)", 0x5_0000_0003, ONE_MORE),
    (Call::MakeAll, "stopped", 0x5_0000_0003, ONE_MORE),
];

/// Makes a call. Returns its answer, the end that is known to be stored, and what a read of the file gives.
fn said(alloc: Global, life: &mut Life, call: Call) -> Result<String, Fail> {
    let answer = answer(alloc, life, call)?;
    let read = replayed_text(alloc, life.disk.bytes())?;
    Ok(format!(in alloc; "{answer}, {}, {read}", life.called.keeper.stored_end())?)
}

#[test]
fn what_is_stored_is_known_once_no_call_is_left(rt: HostRuntime) -> Result<(), Fail> {
    let alloc = rt.alloc();
    let mut life = of_images(alloc)?;
    for (i, &(call, answer, stored_end, read)) in STEPS.iter().enumerate() {
        let want = format!(in alloc; "{answer}, {stored_end}, {read}")?;
        expect_answer(
            "life",
            i,
            said(alloc, &mut life, call)?.as_str(),
            want.as_str(),
        )?;
    }
    Ok(())
}
