//! Heads and their bytes.
use crate::images::{Images, SMALL, can_begin, config_of, held_in};
use cq_log_head::{Head, decode, encode, fits};
use std::test::Fail;

/// Images of a queue of `SMALL`, and the head of a log that goes on from them.
static HEADS: [(Images, &[u8]); 4] = [
    (
        Images {
            cycles: &[],
            position: 0,
            floor: 0,
        },
        b"Linnetshelf queue.log\n\x01\0\0\0\x01\0\0\0\0\0\0\0\0\0\0\0\0\x4A\0\0\0\0\0\0\0cq 2\nroll daily\nepoch 0\ncells 64\ncount 8\nspacing 1\ncycles 4\nname reader 0\n",
    ),
    (
        Images {
            cycles: &[(0, &[])],
            position: 0,
            floor: 0,
        },
        b"Linnetshelf queue.log\n\x01\0\0\0\x01\x01\0\0\0\0\0\0\0\0\0\0\0\x4A\0\0\0\0\0\0\0cq 2\nroll daily\nepoch 0\ncells 64\ncount 8\nspacing 1\ncycles 4\nname reader 0\n",
    ),
    (
        Images {
            cycles: &[(5, &["ab", "c"]), (20071, &["d"])],
            position: 21_474_836_481,
            floor: 5,
        },
        b"Linnetshelf queue.log\n\x01\0\0\0\x01\x02\0\0\0\x01\0\0\0\x67\x4E\0\0\x5C\0\0\0\0\0\0\0cq 2\nroll daily\nepoch 0\ncells 64\ncount 8\nspacing 1\ncycles 4\nfloor 5\nname reader 21474836481\n",
    ),
    (
        Images {
            cycles: &[(1, &[]), (2, &[]), (3, &[]), (4, &["a", "b", "c"])],
            position: 17_179_869_187,
            floor: 4,
        },
        b"Linnetshelf queue.log\n\x01\0\0\0\x01\x04\0\0\0\x03\0\0\0\x04\0\0\0\x5C\0\0\0\0\0\0\0cq 2\nroll daily\nepoch 0\ncells 64\ncount 8\nspacing 1\ncycles 4\nfloor 4\nname reader 17179869187\n",
    ),
];

#[test]
fn heads_have_these_bytes(rt: HostRuntime) -> Result<(), Fail> {
    let alloc = rt.alloc();
    let config = config_of(alloc, SMALL)?;
    for (i, (images, wanted)) in HEADS.iter().enumerate() {
        let contents = held_in(alloc, *images)?;
        assert!(rt; can_begin(&config, &contents), "at {i}");
        let head = Head::of(alloc, &config, &contents)?;
        assert_eq!(rt; encode(alloc, &head)?.as_slice(), *wanted, "at {i}");
    }
    Ok(())
}

#[test]
fn heads_are_read_back_and_fit(rt: HostRuntime) -> Result<(), Fail> {
    let alloc = rt.alloc();
    let config = config_of(alloc, SMALL)?;
    for (i, (images, frame)) in HEADS.iter().enumerate() {
        let contents = held_in(alloc, *images)?;
        assert!(rt; can_begin(&config, &contents), "at {i}");
        let head = decode(alloc, frame)?;
        assert_eq!(rt; fits(&head, &config, &contents), Ok(()), "at {i}");
        assert_eq!(rt; encode(alloc, &head)?.as_slice(), *frame, "at {i}");
    }
    Ok(())
}
