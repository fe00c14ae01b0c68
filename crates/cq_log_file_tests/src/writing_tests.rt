//! What a file holds after writes and cuts.
ghost use Rattle.std.specs.Prelude.{◌≡◌, ◌≤◌, [], None, OnOk, length};

use crate::places::{new_folder, text_of, within};
use cq_fixtures::expect_text;
use cq_log::{Device, DeviceFault};
use cq_log_file::LogFile;
use std::fs;
use std::test::Fail;

/// Writes to a file without bytes: at its end, and over what it has.
fn write_eight<D: Device>(file: &mut D) -> Result<(), DeviceFault>
    requires usable { D.fault file.old ≡ None }
    requires empty { D.seen file.old ≡ [] }
    ensures usable { OnOk result (D.fault file.new ≡ None) }
    ensures long { OnOk result (7 ≤ length (D.seen file.new)) }
{
    file.write_at(0, b"abcdef")?;
    file.write_at(2, b"XY")?;
    file.write_at(6, b"gh")?;
    file.write_at(8, b"")
}

/// Cuts the last of eight bytes off a file.
fn cut_to_seven<D: Device>(file: &mut D) -> Result<(), DeviceFault>
    requires usable { D.fault file.old ≡ None }
    requires long { 7 ≤ length (D.seen file.old) }
    ensures usable { OnOk result (D.fault file.new ≡ None) }
{
    file.sync()?;
    file.cut(7)?;
    file.sync()
}

/// Writes other bytes in place of all that a file has.
fn write_anew<D: Device>(file: &mut D) -> Result<(), DeviceFault>
    requires { D.fault file.old ≡ None }
{
    file.cut(0)?;
    file.write_at(0, b"new")?;
    file.sync()
}

/// Fails if a file holds another text.
fn expect_held<D: Device>(rt: &HostRuntime, file: &mut D, want: &str) -> Result<(), Fail>
    requires { D.fault file.old ≡ None }
    ensures usable { D.fault file.new ≡ None }
    ensures seen { D.seen file.new ≡ D.seen file.old }
{
    let bytes = file.read(rt.alloc())?;
    expect_text(text_of(rt, &bytes)?, want)
}

/// Writes to a file without bytes, and cuts it. Fails if it holds something else than was written.
fn expect_written<D: Device>(rt: &HostRuntime, file: &mut D) -> Result<(), Fail>
    requires usable { D.fault file.old ≡ None }
    requires empty { D.seen file.old ≡ [] }
{
    write_eight(file)?;
    expect_held(rt, file, "abXYefgh")?;
    cut_to_seven(file)?;
    expect_held(rt, file, "abXYefg")
}

/// Does the same with a new file.
fn expect_made(rt: &HostRuntime, path: &str) -> Result<(), Fail> {
    let mut file = LogFile::create(rt, path)?;
    expect_written(rt, &mut file)
}

/// Opens a file, and writes it anew. Fails if its bytes are another text.
fn expect_opened(rt: &HostRuntime, path: &str, want: &str) -> Result<(), Fail> {
    let mut found = LogFile::open(rt, path)?;
    expect_text(text_of(rt, &found.bytes)?, want)?;
    write_anew(&mut found.file)?;
    Ok(())
}

/// Fails if the file at a path has another text.
fn expect_read(rt: &HostRuntime, path: &str, want: &str) -> Result<(), Fail> {
    expect_text(fs::read_to_string(rt, path)?, want)
}

#[test]
fn writes_and_cuts_are_read_back(rt: HostRuntime) -> Result<(), Fail> {
    let folder = new_folder(&rt, "log_writing")?;
    let path = within(&rt, &folder, "a")?;
    expect_made(&rt, &path)?;
    expect_read(&rt, &path, "abXYefg")?;
    expect_opened(&rt, &path, "abXYefg")?;
    expect_read(&rt, &path, "new")?;
    fs::remove_dir_all(&rt, folder.as_str())?;
    Ok(())
}
