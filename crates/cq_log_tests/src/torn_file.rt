//! A file in memory that keeps all changes, so that a crash can leave what `Device` allows.
ghost use Rattle.std.specs.Prelude.{◌≡◌, ◌≤◌, [], IfOk, None, OnErr, OnOk, length, take};
ghost use Rattle.cq_log.specs.Device.{Cut, Overwrites, Torn};
ghost use Rattle.cq_log_tests.specs.Changes.{Adds, IsAdded, IsCut, IsSync, IsWrite, Leaves, LeftSince, MayLeave, counts_now, only_now, replay};
ghost use Rattle.cq_log_tests.specs.Stays.{stays};

use crate::Ruin;
use cq_log::{Damage, Device, DeviceFault};
use std::alloc::{AllocError, Global};

/// A change of a file, or a sync.
#[derive(Debug, Drop, PartialEq, Eq)]
pub enum Change {
    /// Bytes were written.
    Write {
        /// The offset in bytes.
        at: usize,
        /// What was written.
        bytes: Vec<u8>,
    },
    /// The file was cut to this length.
    Cut(usize),
    /// The file was synced with these bytes.
    Sync(Vec<u8>),
}

/// A file in memory, at first empty. Its changes are seen at once, and a crash may leave of those after the last sync all that
/// `Device` allows.
#[derive(Drop)]
pub struct TornFile {
    alloc: Global,
    /// The bytes of the file.
    file: Vec<u8>,
    /// Each change and sync, in order.
    changes: Vec<Change>,
    /// The number of writes, cuts and syncs up to the one that fails, this one included; 0 if none fails.
    calls_left: u64,
    fault: Option<DeviceFault>,
    ghost replayed: { file.items ≡ replay [] changes.items },
}

impl TornFile {
    /// Makes an empty file, of whose writes, cuts and syncs the one with this number fails. With number 0 none fails.
    pub fn new(alloc: Global, calls_left: u64) -> TornFile
        ensures empty { result.file.items ≡ [] }
        ensures unchanged { result.changes.items ≡ [] }
        ensures usable { result.fault ≡ None }
    {
        TornFile {
            alloc,
            file: Vec::new(alloc),
            changes: Vec::new(alloc),
            calls_left,
            fault: None,
        }
    }

    /// Returns the bytes of the file.
    pub fn bytes(&self) -> &[u8]
        ensures { result.now ≡ self.now.file.items }
    {
        &self.file
    }

    /// Returns each change and sync, in order.
    pub fn changes(&self) -> &[Change]
        ensures { result.now ≡ self.now.changes.items }
    {
        &self.changes
    }

    /// Returns what a crash leaves now that does this to each write since the last sync.
    pub fn after_crash(&self, alloc: Global, ruin: Ruin) -> Result<Vec<u8>, AllocError>
        ensures { IfOk result (λ left. MayLeave self.now.changes.items left.items) }
    {
        let (synced, file) = last_sync(&self.changes);
        let mut left = file.to_vec(alloc)?;
        for change in &self.changes[synced..] {
            left = left_by(alloc, &left, change, ruin)?;
        }
        Ok(left)
    }

    /// Writes bytes. If this is the call that fails, the back half of what it writes is 0. Out of memory, it does nothing.
    fn write(&mut self, at: usize, bytes: &[u8]) -> Result<(), DeviceFault>
        requires { at ≤ length self.old.file.items }
        ensures written { OnOk result (Overwrites self.old.file.items at bytes.now self.new.file.items) }
        ensures torn { OnErr result (Torn at (length bytes.now) self.old.file.items self.new.file.items) }
        ensures added { OnOk result (IsAdded (IsWrite at (length bytes.now)) self.old.changes.items self.new.changes.items) }
        ensures recorded { Adds (IsWrite at (length bytes.now)) self.old.changes.items self.new.changes.items }
    {
        if self.count() {
            let written = half_written(self.alloc, bytes)?;
            self.record(at, written)?;
            return Err(DeviceFault::Failed);
        }
        let written = bytes.to_vec(self.alloc)?;
        self.record(at, written)
    }

    /// Writes these bytes, and keeps them. Out of memory, it does nothing.
    fn record(&mut self, at: usize, bytes: Vec<u8>) -> Result<(), DeviceFault>
        requires { at ≤ length self.old.file.items }
        ensures written { OnOk result (Overwrites self.old.file.items at bytes.items self.new.file.items) }
        ensures added { OnOk result (IsAdded (IsWrite at (length bytes.items)) self.old.changes.items self.new.changes.items) }
        ensures same { OnErr result (self.new.file.items ≡ self.old.file.items) }
        ensures unchanged { OnErr result (self.new.changes.items ≡ self.old.changes.items) }
    {
        let next = overwritten(self.alloc, &self.file, at, &bytes)?;
        self.changes.push(Change::Write { at, bytes })?;
        self.file = next;
        Ok(())
    }

    /// Cuts the file, and fails if this is the call that fails. Out of memory, it does nothing.
    fn cut_to(&mut self, len: usize) -> Result<(), DeviceFault>
        requires { len ≤ length self.old.file.items }
        ensures cut { OnOk result (self.new.file.items ≡ take len self.old.file.items) }
        ensures partly { OnErr result (Cut len self.old.file.items self.new.file.items) }
        ensures added { OnOk result (IsAdded (IsCut len) self.old.changes.items self.new.changes.items) }
        ensures recorded { Adds (IsCut len) self.old.changes.items self.new.changes.items }
    {
        let is_failing = self.count();
        self.changes.push(Change::Cut(len))?;
        self.file.truncate(len);
        if is_failing {
            return Err(DeviceFault::Failed);
        }
        Ok(())
    }

    /// Syncs the file, or fails and does nothing.
    fn settle(&mut self) -> Result<(), DeviceFault>
        ensures kept { self.new.file.items ≡ self.old.file.items }
        ensures synced { OnOk result (IsAdded (IsSync self.old.file.items) self.old.changes.items self.new.changes.items) }
        ensures unchanged { OnErr result (self.new.changes.items ≡ self.old.changes.items) }
    {
        if self.count() {
            return Err(DeviceFault::Failed);
        }
        let file = self.file.to_vec(self.alloc)?;
        self.changes.push(Change::Sync(file))?;
        Ok(())
    }

    /// Counts a call. Returns whether it is the one that fails.
    fn count(&mut self) -> bool
        ensures same { (self.new.file ≡ self.old.file) × (self.new.changes ≡ self.old.changes) }
    {
        let is_failing = self.calls_left == 1;
        self.calls_left = self.calls_left.saturating_sub(1);
        is_failing
    }
}

/// Returns the front half of these bytes, and then zeros.
fn half_written(alloc: Global, bytes: &[u8]) -> Result<Vec<u8>, AllocError>
    ensures { IfOk result (λ written. length written.items ≡ length bytes.now) }
{
    let mut written = bytes[..bytes.len() / 2].to_vec(alloc)?;
    written.resize(bytes.len(), 0)?;
    Ok(written)
}

/// Returns the file with these bytes at this offset, and elsewhere what it had.
fn overwritten(alloc: Global, file: &[u8], at: usize, bytes: &[u8]) -> Result<Vec<u8>, AllocError>
    requires { at ≤ length file.now }
    ensures { IfOk result (λ new. Overwrites file.now at bytes.now new.items) }
{
    let mut new = file[..at].to_vec(alloc)?;
    new.extend_from_slice(bytes)?;
    if bytes.len() < file.len() - at {
        new.extend_from_slice(&file[at + bytes.len()..])?;
    }
    Ok(new)
}

/// Returns how many of these changes come up to the last sync, that one included, and what a crash leaves after it.
fn last_sync(changes: &[Change]) -> (usize, &[u8])
    ensures within { result.0 ≤ length changes.now }
    ensures left { MayLeave (take result.0 changes.now) result.1.now }
{
    let mut end = changes.len();
    'syncs: while end > 0 {
        if let Change::Sync(file) = &changes[end - 1] {
            return (end, file);
        }
        end -= 1;
    }
    (0, &[])
}

/// Returns what a crash makes of a file in a change.
fn left_by(alloc: Global, file: &[u8], change: &Change, ruin: Ruin) -> Result<Vec<u8>, AllocError>
    ensures { IfOk result (λ left. Leaves change.now file.now left.items) }
{
    match change {
        Change::Write { at, bytes } => torn(alloc, file, *at, bytes, ruin),
        Change::Cut(len) => cut_short(alloc, file, *len, ruin),
        Change::Sync(bytes) => bytes.to_vec(alloc),
    }
}

/// Returns what a crash leaves of a write.
fn torn(
    alloc: Global,
    file: &[u8],
    at: usize,
    bytes: &[u8],
    ruin: Ruin,
) -> Result<Vec<u8>, AllocError>
    ensures { IfOk result (λ left. Torn at (length bytes.now) file.now left.items) }
{
    if at > file.len() {
        return file.to_vec(alloc);
    }
    let reached = ruin.reached(alloc, file, at, bytes)?;
    overwritten(alloc, file, at, &reached)
}

/// Returns what a crash leaves of a cut.
fn cut_short(alloc: Global, file: &[u8], len: usize, ruin: Ruin) -> Result<Vec<u8>, AllocError>
    ensures { IfOk result (λ left. Cut len file.now left.items) }
{
    if len > file.len() {
        return file.to_vec(alloc);
    }
    let rest = ruin.left_past(alloc, &file[len..])?;
    let mut left = file[..len].to_vec(alloc)?;
    left.extend_from_slice(&rest)?;
    Ok(left)
}

impl Device for TornFile {
    ghost use Rattle.cq_log.specs.declared.device.Damage.TheVariants.{AnyBytes};

    ghost seen = { λ m. m.file.items };

    ghost may_leave = { λ m. MayLeave m.changes.items };

    ghost moment = { λ m. length m.changes.items };

    ghost left_since = { λ m. LeftSince m.changes.items };

    ghost fault = { λ m. m.fault };

    ghost supposed = { λ _. AnyBytes };

    ghost stays = { λ m. stays m.changes.items m.file.items m.replayed };

    ghost counts_now = { λ m t c le left. counts_now m.changes.items t c le left };

    ghost only_now = { λ m c left. only_now m.changes.items c left };

    fn damage(&self) -> Damage {
        Damage::AnyBytes
    }

    fn read(&mut self, alloc: Global) -> Result<Vec<u8>, DeviceFault> {
        Ok(self.file.to_vec(alloc)?)
    }

    fn write_at(&mut self, at: usize, bytes: &[u8]) -> Result<(), DeviceFault> {
        let done = self.write(at, bytes);
        self.fault = done.err();
        done
    }

    fn cut(&mut self, len: usize) -> Result<(), DeviceFault> {
        let done = self.cut_to(len);
        self.fault = done.err();
        done
    }

    fn sync(&mut self) -> Result<(), DeviceFault> {
        let done = self.settle();
        self.fault = done.err();
        done
    }
}
