//! A file in memory, of which the calls of a log are made.
use cq_log_calls::LogCall;
use cq_log_file::Call;
use std::alloc::{AllocError, Global};

/// The bytes of a file, and how often it was synced.
#[derive(Drop)]
pub(crate) struct Disk {
    bytes: Vec<u8>,
    syncs: u32,
}

impl Disk {
    /// Makes a file without bytes.
    pub(crate) fn new(alloc: Global) -> Disk {
        Disk {
            bytes: Vec::new(alloc),
            syncs: 0,
        }
    }

    pub(crate) fn bytes(&self) -> &[u8] {
        self.bytes.as_slice()
    }

    pub(crate) fn syncs(&self) -> u32 {
        self.syncs
    }

    /// Makes a call of the file.
    pub(crate) fn make(&mut self, call: &LogCall) -> Result<(), AllocError> {
        match call.call {
            Call::Write(at) => self.write(at, call.bytes.as_slice())?,
            Call::Cut(len) => self.bytes.truncate(len),
            Call::Sync | Call::SyncFolder => self.syncs = self.syncs.saturating_add(1),
            Call::Lock | Call::Find | Call::Read => {}
        }
        Ok(())
    }

    /// Writes bytes over those that are there, and past the end. A log writes nowhere past the end.
    fn write(&mut self, at: usize, bytes: &[u8]) -> Result<(), AllocError> {
        let mut place = at;
        for &byte in bytes {
            match self.bytes.get_mut(place) {
                Some(old) => *old = byte,
                None => self.bytes.push(byte)?,
            }
            place = place.saturating_add(1);
        }
        Ok(())
    }
}
