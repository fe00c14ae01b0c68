//! Folders of the system, and what is left in them by commands that were cut short.

use crate::real_steps::{Step, expect_steps, missed, temporary_path};
use cq_fixtures::expect_text;
use cq_folder::Access;
use std::fs;
use std::test::Fail;

/// A write replaces a file, and what an older write of this process left.
static WRITTEN: [(Step, &str); 11] = [
    (Step::Names, "outside"),
    (Step::Begin(Access::Alone), ""),
    (Step::Names, ""),
    (Step::Put("a.7.part", "much longer than the new bytes"), ""),
    (Step::Write("a", "old"), ""),
    (Step::Write("b", ""), ""),
    (Step::Write("a", "abc"), ""),
    (Step::Read("a"), "abc"),
    (Step::Read("b"), ""),
    (Step::Read("c"), "Device"),
    (Step::Listed, "a b "),
];

/// All names of a folder are listed, however many there are.
static MANY: [(Step, &str); 5] = [
    (Step::Many(150), ""),
    (Step::Begin(Access::Shared), ""),
    (Step::Count, "150"),
    (Step::Begin(Access::Alone), ""),
    (Step::Count, "150"),
];

#[test]
fn all_names_are_listed(rt: HostRuntime) -> Result<(), Fail> {
    expect_steps(&rt, "many", &MANY)
}

/// Two files are saved together; a file that no record can name is refused, and nothing of its save is left.
static SAVED: [(Step, &str); 16] = [
    (Step::Begin(Access::Alone), ""),
    (Step::Save(&[("1.cqi", "one"), ("queue.cqc", "two")]), ""),
    (Step::Save(&[("1.cqi", "three"), ("2.txt", "")]), "Device"),
    (
        Step::Save(&[("1.cqi", "three"), ("../2.cqi", "")]),
        "Device",
    ),
    (Step::Save(&[("1.cqi", "three"), ("3.log", "")]), "Device"),
    (Step::Save(&[]), ""),
    (Step::Save(&[("2.cqi", "four"), ("queue.log", "")]), ""),
    (Step::End, ""),
    (Step::Read("1.cqi"), "outside"),
    (Step::Begin(Access::Shared), ""),
    (Step::Write("1.cqi", "three"), "outside"),
    (Step::Save(&[("1.cqi", "three")]), "outside"),
    (Step::Read("1.cqi"), "one"),
    (Step::Read("queue.cqc"), "two"),
    (Step::Read("queue.log"), ""),
    (Step::Listed, "1.cqi 2.cqi queue.cqc queue.log "),
];

/// Files are saved and others removed together. A removed file that is also saved is gone, and one that is not there counts
/// as removed. What no record can name, a link and a folder are refused, and nothing of the call is done.
static REMOVED: [(Step, &str); 35] = [
    (Step::Begin(Access::Alone), ""),
    (
        Step::Save(&[("1.cqi", "one"), ("2.cqi", "two"), ("3.cqi", "three")]),
        "",
    ),
    (
        Step::SaveAndRemove(
            &[("queue.cqc", "cut"), ("1.cqi", "new one")],
            &["2.cqi", "4.cqi"],
        ),
        "",
    ),
    (Step::Listed, "1.cqi 3.cqi queue.cqc "),
    (Step::Read("1.cqi"), "new one"),
    (Step::Read("2.cqi"), "Device"),
    (Step::Read("queue.cqc"), "cut"),
    (
        Step::SaveAndRemove(&[("1.cqi", "gone"), ("4.cqi", "four")], &["1.cqi", "1.cqi"]),
        "",
    ),
    (Step::Listed, "3.cqi 4.cqi queue.cqc "),
    (Step::Read("4.cqi"), "four"),
    (
        Step::SaveAndRemove(&[("4.cqi", "one file")], &["3.cqi"]),
        "",
    ),
    (Step::Listed, "4.cqi queue.cqc "),
    (Step::SaveAndRemove(&[], &["queue.cqc"]), ""),
    (Step::Listed, "4.cqi "),
    (Step::SaveAndRemove(&[("4.cqi", "kept")], &[]), ""),
    (Step::SaveAndRemove(&[], &[]), ""),
    (Step::Read("4.cqi"), "kept"),
    (Step::Put("a.txt", "the user's"), ""),
    (
        Step::SaveAndRemove(&[("4.cqi", "new")], &["4.cqi", "a.txt"]),
        "Device",
    ),
    (
        Step::SaveAndRemove(&[("4.cqi", "new")], &["../4.cqi"]),
        "Device",
    ),
    (
        Step::SaveAndRemove(&[("4.cqi", "new")], &["queue.save"]),
        "Device",
    ),
    (
        Step::SaveAndRemove(&[("4.cqi", "new")], &["4.cqi.7.part"]),
        "Device",
    ),
    (
        Step::SaveAndRemove(&[("a.txt", "new")], &["4.cqi"]),
        "Device",
    ),
    (Step::Make("5.cqi"), ""),
    (Step::Link("6.cqi", "a.txt"), ""),
    (
        Step::SaveAndRemove(&[("4.cqi", "new")], &["5.cqi"]),
        "Device",
    ),
    (
        Step::SaveAndRemove(&[("4.cqi", "new")], &["6.cqi"]),
        "Device",
    ),
    (Step::Read("4.cqi"), "kept"),
    (Step::Listed, "4.cqi 5.cqi 6.cqi a.txt "),
    (Step::Failures, "8"),
    (Step::End, ""),
    (Step::Begin(Access::Shared), ""),
    (Step::SaveAndRemove(&[], &["4.cqi"]), "outside"),
    (Step::Read("4.cqi"), "kept"),
    (Step::End, ""),
];

/// Removals of which the record has 1,048,372 bytes, and too many.
static MOST_REMOVED: [(Step, &str); 6] = [
    (Step::Begin(Access::Alone), ""),
    (Step::Put("1.cqi", "one"), ""),
    (Step::RemoveMany(4_279), ""),
    (Step::RemoveMany(4_280), "Device"),
    (Step::Listed, "1.cqi "),
    (Step::End, ""),
];

/// A save was stopped between its renames: a reader sees all of it, and any command that is alone finishes it. A part
/// that no record names is of a save that was stopped before, and is removed; a file of the user's stays.
static STOPPED: [(Step, &str); 25] = [
    (Step::Put("1.cqi", "new one"), ""),
    (Step::Put("2.cqi", "old two"), ""),
    (Step::Put("2.cqi.9.part", "new two"), ""),
    (Step::Put("3.cqi.9.part", "new three"), ""),
    (Step::Put("4.cqi.8.part", "never saved"), ""),
    (Step::Put("queue.log", "old log"), ""),
    (Step::Put("queue.log.9.part", ""), ""),
    (Step::Put("queue.log.8.part", "never saved"), ""),
    (Step::Put("movie.part", "the user's"), ""),
    (
        Step::Put(
            "queue.save",
            "cq save 1\n9\n1.cqi\n2.cqi\n3.cqi\nqueue.log\nend\n",
        ),
        "",
    ),
    (Step::Begin(Access::Shared), ""),
    (Step::Read("1.cqi"), "new one"),
    (Step::Read("2.cqi"), "new two"),
    (Step::Read("3.cqi"), "new three"),
    (Step::Read("queue.log"), ""),
    (
        Step::Names,
        "1.cqi 2.cqi 2.cqi.9.part 3.cqi 3.cqi.9.part 4.cqi.8.part movie.part queue.log queue.log.8.part queue.log.9.part queue.save ",
    ),
    (Step::End, ""),
    (Step::Begin(Access::Alone), ""),
    (Step::Names, "1.cqi 2.cqi 3.cqi movie.part queue.log "),
    (Step::Read("1.cqi"), "new one"),
    (Step::Read("2.cqi"), "new two"),
    (Step::Read("3.cqi"), "new three"),
    (Step::Read("queue.log"), ""),
    (Step::Read("4.cqi"), "Device"),
    (Step::End, ""),
];

/// A save with removals was stopped once its record was there: a reader sees it done, and any command that is alone does
/// the rest. So it is with a record that only removes, and with one that only renames.
static STOPPED_REMOVAL: [(Step, &str); 37] = [
    (Step::Put("1.cqi", "old one"), ""),
    (Step::Put("1.cqi.9.part", "new one"), ""),
    (Step::Put("2.cqi", "old two"), ""),
    (Step::Put("3.cqi", "old three"), ""),
    (Step::Put("3.cqi.9.part", "new three"), ""),
    (Step::Put("5.cqi", "renamed"), ""),
    (
        Step::Put(
            "queue.save",
            "cq save 2\n9\n1.cqi\n3.cqi\n5.cqi\n\n2.cqi\n3.cqi\n4.cqi\nend\n",
        ),
        "",
    ),
    (Step::Begin(Access::Shared), ""),
    (Step::Read("1.cqi"), "new one"),
    (Step::Read("2.cqi"), "Device"),
    (Step::Read("3.cqi"), "Device"),
    (Step::Read("5.cqi"), "renamed"),
    (
        Step::Names,
        "1.cqi 1.cqi.9.part 3.cqi.9.part 5.cqi queue.save ",
    ),
    (
        Step::Listed,
        "1.cqi 1.cqi.9.part 2.cqi 3.cqi 3.cqi.9.part 5.cqi queue.save ",
    ),
    (Step::End, ""),
    (Step::Begin(Access::Alone), ""),
    (Step::Listed, "1.cqi 5.cqi "),
    (Step::Read("1.cqi"), "new one"),
    (Step::Read("2.cqi"), "Device"),
    (Step::End, ""),
    (Step::Put("queue.save", "cq save 2\n9\n\n5.cqi\nend\n"), ""),
    (Step::Begin(Access::Shared), ""),
    (Step::Read("5.cqi"), "Device"),
    (Step::Names, "1.cqi queue.save "),
    (Step::Begin(Access::Alone), ""),
    (Step::Listed, "1.cqi "),
    (Step::End, ""),
    (Step::Put("1.cqi.9.part", "newest one"), ""),
    (Step::Put("queue.save", "cq save 1\n9\n1.cqi\nend\n"), ""),
    (Step::Begin(Access::Shared), ""),
    (Step::Read("1.cqi"), "newest one"),
    (Step::Names, "1.cqi 1.cqi.9.part queue.save "),
    (Step::Begin(Access::Alone), ""),
    (Step::Listed, "1.cqi "),
    (Step::Read("1.cqi"), "newest one"),
    (Step::Failures, "4"),
    (Step::End, ""),
];

/// A record that is none keeps everybody out, and changes nothing.
static FAULTY: [(Step, &str); 45] = [
    (Step::Put("1.cqi.9.part", "new"), ""),
    (Step::Put("queue.save", "cq save 1\n9\n../1.cqi\nend\n"), ""),
    (Step::Begin(Access::Shared), "Device"),
    (Step::Begin(Access::Alone), "Device"),
    (Step::Put("queue.save", "cq save 1\n9\n1.cqi\n"), ""),
    (Step::Begin(Access::Alone), "Device"),
    (Step::Put("queue.save", "cq save 2\n9\n1.cqi\nend\n"), ""),
    (Step::Begin(Access::Alone), "Device"),
    (Step::Put("queue.save", "cq save 1\nx\n1.cqi\nend\n"), ""),
    (Step::Begin(Access::Alone), "Device"),
    (Step::Put("queue.save", "cq save 1\n9\n1.cqiend\n"), ""),
    (Step::Begin(Access::Alone), "Device"),
    (
        Step::Put("queue.save", "cq save 1\r\n9\r\n1.cqi\r\nend\n"),
        "",
    ),
    (Step::Begin(Access::Alone), "Device"),
    (Step::Put("queue.save", "cq save 1\n+9\n1.cqi\nend\n"), ""),
    (Step::Begin(Access::Alone), "Device"),
    (Step::Put("queue.save", "cq save 1\n009\n1.cqi\nend\n"), ""),
    (Step::Begin(Access::Alone), "Device"),
    (
        Step::Put("queue.save", "cq save 1\n4294967296\n1.cqi\nend\n"),
        "",
    ),
    (Step::Begin(Access::Alone), "Device"),
    (Step::Put("queue.save", "cq save 1\n9\nend\n"), ""),
    (Step::Begin(Access::Alone), "Device"),
    (Step::Put("queue.save", "cq save 1\n9\n1.cqi\n\nend\n"), ""),
    (Step::Begin(Access::Alone), "Device"),
    (
        Step::Put("queue.save", "cq save 1\n9\n1.cqi\nend\nend\n"),
        "",
    ),
    (Step::Begin(Access::Alone), "Device"),
    (Step::Put("queue.save", "cq save 1\n9\n1.cqi\nend\n\n"), ""),
    (Step::Begin(Access::Alone), "Device"),
    (Step::Put("queue.save", "cq save 1\n9\n1.cqi\nend"), ""),
    (Step::Begin(Access::Alone), "Device"),
    (
        Step::Put("queue.save", "cq save 1\n9\n1.cqi\n\n2.cqi\nend\n"),
        "",
    ),
    (Step::Begin(Access::Alone), "Device"),
    (Step::Put("queue.save", "cq save 2\n9\n1.cqi\n\nend\n"), ""),
    (Step::Begin(Access::Alone), "Device"),
    (Step::Put("queue.save", "cq save 2\n9\n\nend\n"), ""),
    (Step::Begin(Access::Alone), "Device"),
    (
        Step::Put("queue.save", "cq save 2\n9\n1.cqi\n\n../2.cqi\nend\n"),
        "",
    ),
    (Step::Begin(Access::Alone), "Device"),
    (
        Step::Put("queue.save", "cq save 2\n9\n1.cqi\n\n2.cqi\n\n3.cqi\nend\n"),
        "",
    ),
    (Step::Begin(Access::Alone), "Device"),
    (
        Step::Put("queue.save", "cq save 2\n9\n1.cqi\n\n2.cqi\n"),
        "",
    ),
    (Step::Begin(Access::Alone), "Device"),
    (
        Step::Put("queue.save", "cq save 3\n9\n1.cqi\n\n2.cqi\nend\n"),
        "",
    ),
    (Step::Begin(Access::Alone), "Device"),
    (Step::Listed, "1.cqi.9.part queue.save "),
];

/// A record has at most 1,048,576 bytes. The first one here has as many, and the second one byte more.
static LARGEST: [(Step, &str); 6] = [
    (Step::PutRecord("1.cqi", 174_759), ""),
    (Step::Begin(Access::Shared), ""),
    (Step::End, ""),
    (Step::PutRecord("11.cqi", 174_759), ""),
    (Step::Begin(Access::Shared), "Device"),
    (Step::Begin(Access::Alone), "Device"),
];

/// A link or a folder in the place of a file is neither read nor replaced, and a link in the place of a part is not
/// followed.
static LINKS: [(Step, &str); 15] = [
    (Step::Put("target", "kept"), ""),
    (Step::Link("1.cqi", "target"), ""),
    (Step::Make("2.cqi"), ""),
    (Step::Link("3.cqi.7.part", "target"), ""),
    (Step::Begin(Access::Alone), ""),
    (Step::Listed, "1.cqi 2.cqi target "),
    (Step::Read("1.cqi"), "Device"),
    (Step::Read("2.cqi"), "Device"),
    (Step::Write("1.cqi", "new"), "Device"),
    (Step::Write("2.cqi", "new"), "Device"),
    (Step::Save(&[("3.cqi", "new"), ("1.cqi", "new")]), "Device"),
    (Step::Link("3.cqi.7.part", "target"), ""),
    (Step::Save(&[("3.cqi", "new"), ("4.cqi", "new")]), ""),
    (Step::Read("target"), "kept"),
    (Step::Listed, "1.cqi 2.cqi 3.cqi 4.cqi target "),
];

/// What a queue's files may be read and written by stays.
static MODE: [(Step, &str); 5] = [
    (Step::Begin(Access::Alone), ""),
    (Step::Put("1.cqi", "old"), ""),
    (Step::Lock("1.cqi"), ""),
    (Step::Write("1.cqi", "new"), ""),
    (Step::IsLocked("1.cqi"), "true"),
];

#[test]
fn a_real_folder_keeps_its_files(rt: HostRuntime) -> Result<(), Fail> {
    expect_steps(&rt, "kept", &WRITTEN)?;
    expect_steps(&rt, "saved", &SAVED)?;
    expect_steps(&rt, "removed", &REMOVED)?;
    expect_steps(&rt, "most_removed", &MOST_REMOVED)?;
    expect_steps(&rt, "links", &LINKS)?;
    expect_steps(&rt, "mode", &MODE)
}

/// No other command enters while one is alone in the folder, and only others that read while one reads.
static HELD: [(Step, &str); 32] = [
    (Step::Try(Access::Alone), "free"),
    (Step::Begin(Access::Alone), ""),
    (Step::Try(Access::Shared), "held"),
    (Step::Try(Access::Alone), "held"),
    (Step::Names, ""),
    (Step::Try(Access::Shared), "held"),
    (Step::Write("1.cqi", "old"), ""),
    (Step::Try(Access::Shared), "held"),
    (Step::Save(&[("1.cqi", "one"), ("2.cqi", "two")]), ""),
    (Step::Try(Access::Shared), "held"),
    (Step::Read("1.cqi"), "one"),
    (Step::Try(Access::Shared), "held"),
    (Step::End, ""),
    (Step::Try(Access::Alone), "free"),
    (Step::Begin(Access::Shared), ""),
    (Step::Try(Access::Shared), "free"),
    (Step::Try(Access::Alone), "held"),
    (Step::Names, "1.cqi 2.cqi "),
    (Step::Read("1.cqi"), "one"),
    (Step::Read("3.cqi"), "Device"),
    (Step::Try(Access::Shared), "free"),
    (Step::Try(Access::Alone), "held"),
    (Step::Begin(Access::Alone), ""),
    (Step::Try(Access::Shared), "held"),
    (Step::Begin(Access::Shared), ""),
    (Step::Try(Access::Shared), "free"),
    (Step::Try(Access::Alone), "held"),
    (Step::End, ""),
    (Step::Put("queue.save", "no record"), ""),
    (Step::Begin(Access::Shared), "Device"),
    (Step::Begin(Access::Alone), "Device"),
    (Step::Try(Access::Alone), "free"),
];

#[test]
fn the_lock_is_held_while_a_command_is_in(rt: HostRuntime) -> Result<(), Fail> {
    expect_steps(&rt, "held", &HELD)
}

/// The names of parts, and others that are none: any command that enters alone removes the parts, and nothing else.
static SWEPT: [(Step, &str); 29] = [
    (Step::Put("queue.cqc.7.part", ""), ""),
    (Step::Put("queue.save.0.part", ""), ""),
    (Step::Put("19700101.cqi.4294967295.part", ""), ""),
    (Step::Put(".cqi.10.part", ""), ""),
    (Step::Put("19700101.cqi", ""), ""),
    (Step::Put("queue.cqc", ""), ""),
    (Step::Put("movie.part", ""), ""),
    (Step::Put("movie.7.part", ""), ""),
    (Step::Put("movie.old.part", ""), ""),
    (Step::Put("movie.cqi.part", ""), ""),
    (Step::Put("movie.cqi.old.part", ""), ""),
    (Step::Put("movie.cqc.7.part", ""), ""),
    (Step::Put("queue.cqc.part", ""), ""),
    (Step::Put("queue.cqc..part", ""), ""),
    (Step::Put("queue.cqc7.part", ""), ""),
    (Step::Put("queue.save.old.part", ""), ""),
    (Step::Put("1.cqi.07.part", ""), ""),
    (Step::Put("1.cqi.+7.part", ""), ""),
    (Step::Put("1.cqi.-7.part", ""), ""),
    (Step::Put("1.cqi.4294967296.part", ""), ""),
    (Step::Put("1.cqi.7.8.part", ""), ""),
    (Step::Put("1.cqi.7.part.part", ""), ""),
    (Step::Put("1.cqi.7.part.old", ""), ""),
    (Step::Put("1.cqi.7.Part", ""), ""),
    (Step::Put("7.part", ""), ""),
    (Step::Begin(Access::Shared), ""),
    (Step::Count, "25"),
    (Step::Begin(Access::Alone), ""),
    (
        Step::Listed,
        "1.cqi.+7.part 1.cqi.-7.part 1.cqi.07.part 1.cqi.4294967296.part 1.cqi.7.8.part 1.cqi.7.Part 1.cqi.7.part.old \
1.cqi.7.part.part 19700101.cqi 7.part movie.7.part movie.cqc.7.part movie.cqi.old.part movie.cqi.part movie.old.part \
movie.part queue.cqc queue.cqc..part queue.cqc.part queue.cqc7.part queue.save.old.part ",
    ),
];

#[test]
fn what_a_stopped_save_left_is_finished_or_removed(rt: HostRuntime) -> Result<(), Fail> {
    expect_steps(&rt, "stopped", &STOPPED)?;
    expect_steps(&rt, "stopped_removal", &STOPPED_REMOVAL)?;
    expect_steps(&rt, "faulty", &FAULTY)?;
    expect_steps(&rt, "largest", &LARGEST)?;
    expect_steps(&rt, "swept", &SWEPT)
}

/// No command comes into a folder that is not there.
static MISSING: [(Step, &str); 4] = [
    (Step::Begin(Access::Alone), "Device"),
    (Step::Names, "outside"),
    (Step::End, ""),
    (Step::Failures, "1"),
];

#[test]
fn a_missing_folder_is_a_device_fault(rt: HostRuntime) -> Result<(), Fail> {
    expect_text(missed(&rt, "/no/such/folder", &MISSING)?, "")
}

/// Each call of a folder that is gone since a command entered is a fault, except the one that ends the command.
static GONE: [(Step, &str); 9] = [
    (Step::Begin(Access::Alone), ""),
    (Step::Remove, ""),
    (Step::Names, "Device"),
    (Step::Write("a", "new"), "Device"),
    (Step::Read("b"), "Device"),
    (Step::Save(&[("1.cqi", "1"), ("2.cqi", "2")]), "Device"),
    (Step::SaveAndRemove(&[], &["1.cqi"]), "Device"),
    (Step::End, ""),
    (Step::Failures, "5"),
];

#[test]
fn a_folder_that_is_gone_is_a_device_fault(rt: HostRuntime) -> Result<(), Fail> {
    let path = temporary_path(&rt, "gone")?;
    fs::create_dir(&rt, path.as_str())?;
    expect_text(missed(&rt, path.as_str(), &GONE)?, "")
}
