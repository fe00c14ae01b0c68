//! Frames that are no heads.
use cq_config_text::ConfigFault;
use cq_log_head::{HeadFault, decode};
use std::test::Fail;

/// The head of a log that goes on from a queue in which no cycle has begun.
static WHOLE: &[u8] =
    b"Linnetshelf queue.log\n\x01\0\0\0\x01\0\0\0\0\0\0\0\0\0\0\0\0\x4A\0\0\0\0\0\0\0cq 2\nroll daily\nepoch 0\ncells 64\ncount 8\nspacing 1\ncycles 4\nname reader 0\n";

/// Frames, and what is at fault in them.
static FAULTS: [(&[u8], HeadFault); 18] = [
    (b"", HeadFault::NotALog),
    (b"\0", HeadFault::NotALog),
    (b"Linnetshelf queue.log", HeadFault::NotALog),
    (b"linnetshelf queue.log\n\x01\0\0\0\x01", HeadFault::NotALog),
    (b"Linnetshelf queue.log\r\x01\0\0\0\x01", HeadFault::NotALog),
    (b"Linnetshelf queue.log\n", HeadFault::CutShort),
    (b"Linnetshelf queue.log\n\x02\0\0", HeadFault::CutShort),
    (
        b"Linnetshelf queue.log\n\0\0\0\0",
        HeadFault::OtherVersion(0),
    ),
    // The version is tested before the way.
    (
        b"Linnetshelf queue.log\n\x02\0\0\0\x07",
        HeadFault::OtherVersion(2),
    ),
    (
        b"Linnetshelf queue.log\n\0\0\0\x01\x01",
        HeadFault::OtherVersion(16_777_216),
    ),
    (b"Linnetshelf queue.log\n\x01\0\0\0", HeadFault::CutShort),
    (
        b"Linnetshelf queue.log\n\x01\0\0\0\0",
        HeadFault::OtherWay(0),
    ),
    (
        b"Linnetshelf queue.log\n\x01\0\0\0\x02\0",
        HeadFault::OtherWay(2),
    ),
    // A text of one byte more or less than its length says.
    (
        b"Linnetshelf queue.log\n\x01\0\0\0\x01\0\0\0\0\0\0\0\0\0\0\0\0\x4A\0\0\0\0\0\0\0cq 2\nroll daily\nepoch 0\ncells 64\ncount 8\nspacing 1\ncycles 4\nname reader 0\n\n",
        HeadFault::BytesAtEnd,
    ),
    (
        b"Linnetshelf queue.log\n\x01\0\0\0\x01\0\0\0\0\0\0\0\0\0\0\0\0\x4A\0\0\0\0\0\0\x01cq 2\nroll daily\nepoch 0\ncells 64\ncount 8\nspacing 1\ncycles 4\nname reader 0\n",
        HeadFault::CutShort,
    ),
    // A text that is at fault.
    (
        b"Linnetshelf queue.log\n\x01\0\0\0\x01\0\0\0\0\0\0\0\0\0\0\0\0\0\0\0\0\0\0\0\0",
        HeadFault::BadText(ConfigFault::Line(1)),
    ),
    (
        b"Linnetshelf queue.log\n\x01\0\0\0\x01\0\0\0\0\0\0\0\0\0\0\0\0\x4B\0\0\0\0\0\0\0cq 2\nroll daily\nepoch 0\ncells 64\ncount 8\nspacing 1\ncycles 4\nname reader 0\n\n",
        HeadFault::BadText(ConfigFault::Line(9)),
    ),
    (
        b"Linnetshelf queue.log\n\x01\0\0\0\x01\0\0\0\0\0\0\0\0\0\0\0\0\x4A\0\0\0\0\0\0\0cq 2\nroll daily\nepoch 0\ncells 30\ncount 8\nspacing 1\ncycles 4\nname reader 0\n",
        HeadFault::BadText(ConfigFault::BadShape),
    ),
];

#[test]
fn frames_have_these_faults(rt: HostRuntime) -> Result<(), Fail> {
    let alloc = rt.alloc();
    for (i, (frame, wanted)) in FAULTS.iter().enumerate() {
        match decode(alloc, frame) {
            Err(HeadFault::OutOfMemory) => return Err(Fail::from(HeadFault::OutOfMemory)),
            answer => assert_eq!(rt; answer.err(), Some(*wanted), "at {i}"),
        }
    }
    Ok(())
}

#[test]
fn a_head_that_is_cut_anywhere_is_no_head(rt: HostRuntime) -> Result<(), Fail> {
    let alloc = rt.alloc();
    for end in 0..WHOLE.len() {
        let wanted = if end < 22 {
            HeadFault::NotALog
        } else {
            HeadFault::CutShort
        };
        assert_eq!(rt;
            decode(alloc, &WHOLE[..end]).err(),
            Some(wanted),
            "at {end}"
        );
    }
    Ok(())
}
