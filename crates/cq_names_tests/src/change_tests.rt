//! What `name` prints and changes.
use crate::steps::Step::{Add, Config, List, Move, Put, Remove, Unlisted, Unprinted};
use crate::steps::{ENDED, HELLO, OPEN, Steps, expect_steps};
use std::test::Fail;

/// With "hello" in cycle 0, which goes on: names are added at both ends, moved and removed, and nothing else changes.
static LIFE: Steps = &[
    (
        Put(
            "queue.cqc",
            b"cq 2\nroll daily\nepoch 0\ncells 64\ncount 8\nspacing 1\ncycles 4\nname reader 0\n",
        ),
        "",
    ),
    (Put("19700101.cqi", HELLO), ""),
    (Put("notes.txt", b"not one of the queue's"), ""),
    (List, "reader 0000000000000000\n"),
    (Add("new", None), "new 0000000000000001\n"),
    (
        Add("old", Some("0000000000000000")),
        "old 0000000000000000\n",
    ),
    (
        List,
        "reader 0000000000000000\nnew 0000000000000001\nold 0000000000000000\n",
    ),
    (
        Move("reader", "0000000000000001"),
        "reader 0000000000000001\n",
    ),
    (
        Config,
        "cq 2\nroll daily\nepoch 0\ncells 64\ncount 8\nspacing 1\ncycles 4\nname reader 1\nname new 1\nname old 0\n",
    ),
    (Remove("new"), "new 0000000000000001\n"),
    (
        Config,
        "cq 2\nroll daily\nepoch 0\ncells 64\ncount 8\nspacing 1\ncycles 4\nname reader 1\nname old 0\n",
    ),
    (Move("old", "0000000000000000"), "old 0000000000000000\n"),
    (Remove("reader"), "reader 0000000000000001\n"),
    (Remove("old"), "old 0000000000000000\n"),
    (List, ""),
    (
        Config,
        "cq 2\nroll daily\nepoch 0\ncells 64\ncount 8\nspacing 1\ncycles 4\n",
    ),
    (Remove("old"), "cq: NoSuchName"),
    (Move("old", "nothing"), "cq: NoSuchName"),
];

/// With a floor at 1: it stays, and a position may be below it.
static DROPPED: Steps = &[
    (
        Put(
            "queue.cqc",
            b"cq 2\nroll daily\nepoch 0\ncells 64\ncount 8\nspacing 1\ncycles 4\nfloor 1\nname a 0\nname b 8589934592\n",
        ),
        "",
    ),
    (Put("19700101.cqi", ENDED), ""),
    (Put("19700102.cqi", ENDED), ""),
    (Put("19700103.cqi", OPEN), ""),
    (List, "a 0000000000000000\nb 0000000200000000\n"),
    (Move("b", "0000000000000003"), "b 0000000000000003\n"),
    (Add("c", Some("0000000000000000")), "c 0000000000000000\n"),
    (Add("d", None), "d 0000000200000000\n"),
    (Remove("a"), "a 0000000000000000\n"),
    (
        Config,
        "cq 2\nroll daily\nepoch 0\ncells 64\ncount 8\nspacing 1\ncycles 4\nfloor 1\nname b 3\nname c 0\nname d 8589934592\n",
    ),
    (
        Add("e", Some("0000000200000001")),
        "cq: past the end, which is 0000000200000000",
    ),
    (
        Move("b", "ffffffffffffffff"),
        "cq: past the end, which is 0000000200000000",
    ),
    (
        List,
        "b 0000000000000003\nc 0000000000000000\nd 0000000200000000\n",
    ),
];

/// A queue of which no cycle has begun, folders that are no queue or are of version 1, and contents that are not lawful.
static NOTHING: Steps = &[
    (List, "cq: no queue here"),
    (Add("reader", None), "cq: no queue here"),
    (
        Put(
            "queue.cqc",
            b"cq 2\nroll daily\nepoch 0\ncells 64\ncount 8\nspacing 1\ncycles 4\n",
        ),
        "",
    ),
    (List, ""),
    (Add("reader", None), "reader 0000000000000000\n"),
    (
        Add("other", Some("0000000000000001")),
        "cq: past the end, which is 0000000000000000",
    ),
    (
        Move("reader", "19700102"),
        "cq: past the end, which is 0000000000000000",
    ),
    (Move("reader", "19700101"), "reader 0000000000000000\n"),
    (
        Config,
        "cq 2\nroll daily\nepoch 0\ncells 64\ncount 8\nspacing 1\ncycles 4\nname reader 0\n",
    ),
    (
        Put(
            "queue.cqc",
            b"cq 2\nroll daily\nepoch 0\ncells 64\ncount 8\nspacing 1\ncycles 4\nname reader 1\n",
        ),
        "",
    ),
    (List, "cq: BadContents"),
    (Move("reader", "0000000000000000"), "cq: BadContents"),
    (
        Put(
            "queue.cqc",
            b"cq 1\nroll daily\nepoch 0\ncells 64\ncount 8\nspacing 1\ncycles 4\nname reader 0\n",
        ),
        "",
    ),
    (List, "reader 0000000000000000\n"),
    (Add("other", None), "cq: OldVersion"),
    (Remove("reader"), "cq: OldVersion"),
    (Move("reader", "0000000000000000"), "cq: OldVersion"),
];

/// 16 names, of which one has 32 bytes, and names that are refused.
static NAMES: Steps = &[
    (
        Put(
            "queue.cqc",
            b"cq 2\nroll daily\nepoch 0\ncells 64\ncount 8\nspacing 1\ncycles 4\n\
name a 0\nname b 0\nname c 0\nname d 0\nname e 0\nname f 0\nname g 0\n\
name h 0\nname i 0\nname j 0\nname k 0\nname l 0\nname m 0\nname n 0\n",
        ),
        "",
    ),
    (
        Add("", None),
        "cq: bad name: a name has 1 to 32 bytes of A-Z, a-z, 0-9, '_', '-' and '.'",
    ),
    (
        Add("two words", None),
        "cq: bad name: a name has 1 to 32 bytes of A-Z, a-z, 0-9, '_', '-' and '.'",
    ),
    (
        Add("abcdefghijklmnopqrstuvwxyz.-_0123", None),
        "cq: bad name: a name has 1 to 32 bytes of A-Z, a-z, 0-9, '_', '-' and '.'",
    ),
    (Add("n", None), "cq: name there already"),
    (Add("a", Some("nothing")), "cq: name there already"),
    (
        Add("ABCDEFGHIJKLMNOPQRSTUVWXYZ.-_012", None),
        "ABCDEFGHIJKLMNOPQRSTUVWXYZ.-_012 0000000000000000\n",
    ),
    (Add("p", None), "p 0000000000000000\n"),
    (Add("q", None), "cq: too many names: a queue has at most 16"),
    (Add("p", None), "cq: name there already"),
    (
        List,
        "a 0000000000000000\nb 0000000000000000\nc 0000000000000000\nd 0000000000000000\n\
e 0000000000000000\nf 0000000000000000\ng 0000000000000000\nh 0000000000000000\n\
i 0000000000000000\nj 0000000000000000\nk 0000000000000000\nl 0000000000000000\n\
m 0000000000000000\nn 0000000000000000\nABCDEFGHIJKLMNOPQRSTUVWXYZ.-_012 0000000000000000\np 0000000000000000\n",
    ),
    (Remove("a"), "a 0000000000000000\n"),
    (Add("q", None), "q 0000000000000000\n"),
    (
        Remove("ABCDEFGHIJKLMNOPQRSTUVWXYZ.-_012"),
        "ABCDEFGHIJKLMNOPQRSTUVWXYZ.-_012 0000000000000000\n",
    ),
    (
        Config,
        "cq 2\nroll daily\nepoch 0\ncells 64\ncount 8\nspacing 1\ncycles 4\n\
name b 0\nname c 0\nname d 0\nname e 0\nname f 0\nname g 0\n\
name h 0\nname i 0\nname j 0\nname k 0\nname l 0\nname m 0\nname n 0\nname p 0\nname q 0\n",
    ),
];

/// What a writer that fails leaves: the change is saved.
static UNPRINTED: Steps = &[
    (
        Put(
            "queue.cqc",
            b"cq 2\nroll daily\nepoch 0\ncells 64\ncount 8\nspacing 1\ncycles 4\nname reader 1\nname other 1\n",
        ),
        "",
    ),
    (Put("19700101.cqi", HELLO), ""),
    (Unlisted, "cq: write fault"),
    (Unprinted("other", 3), "cq: write fault"),
    (
        Config,
        "cq 2\nroll daily\nepoch 0\ncells 64\ncount 8\nspacing 1\ncycles 4\nname reader 1\nname other 0\n",
    ),
    (Unprinted("nobody", 0), "cq: NoSuchName"),
];

#[test]
fn one_name_is_added_moved_or_removed(rt: HostRuntime) -> Result<(), Fail> {
    expect_steps(rt.alloc(), LIFE)
}

#[test]
fn the_floor_stays(rt: HostRuntime) -> Result<(), Fail> {
    expect_steps(rt.alloc(), DROPPED)
}

#[test]
fn no_cycle_needs_to_have_begun(rt: HostRuntime) -> Result<(), Fail> {
    expect_steps(rt.alloc(), NOTHING)
}

#[test]
fn there_are_sixteen_names_at_most(rt: HostRuntime) -> Result<(), Fail> {
    expect_steps(rt.alloc(), NAMES)
}

#[test]
fn a_writer_may_fail(rt: HostRuntime) -> Result<(), Fail> {
    expect_steps(rt.alloc(), UNPRINTED)
}
