//! What commands do in a folder of version 1, and with an image of the other version.
use crate::images::{A, ENDED, HELLO, HELLO_WORLD, NINE};
use crate::steps::Step::{
    self, Back, Bytes, Check, Config, Drop, Dump, Images, Length, OldQueue, Put, PutConfig, Queue,
    Read, ReadFrom, Salvage, Take, Write,
};
use crate::steps::{BOTH_EMPTY, OLD_AFTER_HELLO, OLD_AT_10, Steps, expect, expect_each};
use cq_fixtures::DAY;
use std::test::Fail;

/// No command of those that change a queue changes a file, and the others do what they do in any folder.
static OLD: [(Step, &str); 13] = [
    (PutConfig(OLD_AFTER_HELLO), ""),
    (Put("20241004.cqi", HELLO_WORLD), ""),
    (Length("20241004.cqi"), "124"),
    (Write(1_728_000_000_000, b"more\n"), "cq: OldVersion"),
    (Take("reader"), "cq: OldVersion"),
    (Drop(20_000), "cq: OldVersion"),
    (Config, OLD_AFTER_HELLO),
    (
        Bytes("20241004.cqi"),
        "180000404351494601000000204e0000080000000100000040000000\
200000404000000000000000000000000000000000000000000000000000000000000000\
200000406400000070000000000000000000000000000000000000000000000000000000\
0500000068656c6c6f000000\
05000000776f726c64000000",
    ),
    (Read, "00004e2000000000 hello\n00004e2000000001 world\n"),
    (Back, "00004e2000000001 world\n00004e2000000000 hello\n"),
    (Check, "20241004.cqi: 2 messages, open\n"),
    (
        Dump("20241004.cqi"),
        "00000000 40000018 store 1 20000 8 1 64\n0000001c 40000020 top 64 0 0 0 0 0 0 0\n\
00000040 40000020 table 0 100 112 0 0 0 0 0 0\n00000064 00000005 data 0 68656c6c6f\n\
00000070 00000005 data 1 776f726c64\n",
    ),
    (Salvage("20241004.cqi"), "0 hello\n1 world\nwhole\n"),
];

#[test]
fn changes_no_folder_of_version_1(rt: HostRuntime) -> Result<(), Fail> {
    expect(rt.alloc(), &OLD)
}

/// `queue.cqc` of version 1 with a floor at cycle 1.
const FLOOR_1: &str =
    "cq 1\nroll daily\nepoch 0\ncells 64\ncount 8\nspacing 1\ncycles 4\nfloor 1\nname reader 0\n";

static READ: [Steps; 10] = [
    // What is read of version 1: messages that fit into no cycle of version 2, those at or above the floor, and
    // none if no queue can hold what the images do.
    &[
        (OldQueue(4), ""),
        (Put("19700101.cqi", NINE), ""),
        (
            ReadFrom("0000000000000007"),
            "0000000000000007 hello\n0000000000000008 hello\n",
        ),
    ],
    &[
        (PutConfig(FLOOR_1), ""),
        (Images(&[HELLO, A]), ""),
        (Read, "0000000100000000 a\n"),
    ],
    &[
        (OldQueue(1), ""),
        (Images(&[HELLO, A]), ""),
        (Read, "cq: BadContents"),
    ],
    &[
        (PutConfig(OLD_AT_10), ""),
        (Put("19700101.cqi", NINE), ""),
        (Read, "cq: BadContents"),
    ],
    // An image of version 2 in a folder of version 1, and one of version 1 in a folder of version 2: whole, and
    // cut off after the first header.
    &[
        (Queue(4), ""),
        (Write(0, b"hello\n"), "0000000000000000\n"),
        (OldQueue(4), ""),
        (Check, "19700101.cqi: WrongStore at 0\ncq: images at fault"),
        (Read, "cq: 19700101.cqi: WrongStore at 0"),
        (Dump("19700101.cqi"), "cq: 19700101.cqi: WrongStore at 0"),
        (Salvage("19700101.cqi"), "WrongStore at 0\n"),
    ],
    &[
        (OldQueue(4), ""),
        (Put("19700101.cqi", b"\x24\0\0@"), ""),
        (Check, "19700101.cqi: WrongStore at 0\ncq: images at fault"),
    ],
    &[
        (Queue(4), ""),
        (Put("19700101.cqi", NINE), ""),
        (Check, "19700101.cqi: WrongStore at 0\ncq: images at fault"),
        (Read, "cq: 19700101.cqi: WrongStore at 0"),
        (Dump("19700101.cqi"), "cq: 19700101.cqi: WrongStore at 0"),
        (Salvage("19700101.cqi"), "WrongStore at 0\n"),
        (Write(0, b"a\n"), "cq: 19700101.cqi: WrongStore at 0"),
        (Take("reader"), "cq: 19700101.cqi: WrongStore at 0"),
        (Drop(0), "cq: 19700101.cqi: WrongStore at 0"),
    ],
    &[
        (Queue(4), ""),
        (Put("19700101.cqi", b"\x18\0\0@"), ""),
        (Check, "19700101.cqi: WrongStore at 0\ncq: images at fault"),
    ],
    // An image without messages is the same in both versions.
    &[
        (OldQueue(4), ""),
        (Images(&[ENDED, b""]), ""),
        (Check, BOTH_EMPTY),
        (Read, ""),
        (Write(DAY, b"a\n"), "cq: OldVersion"),
    ],
    &[
        (Queue(4), ""),
        (Images(&[ENDED, b""]), ""),
        (Check, BOTH_EMPTY),
        (Read, ""),
        (Write(DAY, b"a\n"), "0000000100000000\n"),
    ],
];

#[test]
fn reads_folders_and_images_of_either_version(rt: HostRuntime) -> Result<(), Fail> {
    expect_each(rt.alloc(), &READ)
}
