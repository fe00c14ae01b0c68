//! The place of a log in memory.
ghost use Rattle.std.specs.Prelude.{IfOk};
ghost use Rattle.cq_live.specs.Places.{IsFound};

use cq_live::{FoundLog, LogPlace, PlaceState};
use cq_log::{Device, DeviceFault};
use cq_log_file::OpenFault;
use cq_log_tests::TornFile;
use std::alloc::Global;

/// What is the matter with a place.
#[derive(Clone, Copy)]
pub(crate) enum Matter {
    /// Nothing.
    Nothing,
    /// Another has the log.
    Locked,
    /// The log may not be locked.
    Denied,
    /// Memory is refused when the log is locked.
    LockedScarcely,
    /// The log was replaced when it is opened.
    Moved,
    /// Another has the log when it is opened.
    LockedLater,
    /// Memory is refused when the log is opened.
    OpenedScarcely,
    /// The log has a byte when it is opened.
    Changed,
    /// The log that is opened is the one that was locked.
    Kept,
    /// The write or sync of the log with this number fails.
    Failing(u64),
}

impl Matter {
    /// Why the log is not locked.
    fn lock_fault(self) -> Option<OpenFault> {
        match self {
            Matter::Locked => Some(OpenFault::Locked),
            Matter::Denied => Some(OpenFault::Denied),
            Matter::LockedScarcely => Some(OpenFault::OutOfMemory),
            _ => None,
        }
    }

    /// The log as it is opened.
    fn log(self, alloc: Global) -> Result<FoundLog<TornFile>, OpenFault>
        ensures { IfOk result (IsFound ⟦<TornFile as Device>⟧.seen ⟦<TornFile as Device>⟧.may_leave ⟦<TornFile as Device>⟧.fault) }
    {
        match self {
            Matter::Moved => Err(OpenFault::Moved),
            Matter::LockedLater => Err(OpenFault::Locked),
            Matter::OpenedScarcely => Err(OpenFault::OutOfMemory),
            Matter::Changed => match with_a_byte(alloc) {
                Ok(found) => Ok(found),
                Err(_) => Err(OpenFault::OutOfMemory),
            },
            Matter::Kept => Ok(without_bytes(alloc, 0, false)),
            Matter::Failing(number) => Ok(without_bytes(alloc, number, true)),
            _ => Ok(without_bytes(alloc, 0, true)),
        }
    }
}

/// A place of which each log that is opened is a new one in memory.
#[derive(Drop)]
pub(crate) struct TornPlace {
    matter: Matter,
    state: PlaceState,
}

impl TornPlace {
    /// A place with which this is the matter.
    pub fn new(matter: Matter) -> TornPlace {
        TornPlace {
            matter,
            state: PlaceState::Free,
        }
    }
}

impl LogPlace<TornFile> for TornPlace {
    ghost state = { λ place. place.state };

    fn guard(&mut self) -> Result<(), OpenFault> {
        match self.matter.lock_fault() {
            None => {
                self.state = PlaceState::Guarded;
                Ok(())
            }
            Some(fault) => {
                self.state = PlaceState::Refused(fault);
                Err(fault)
            }
        }
    }

    fn open(&mut self, alloc: Global) -> Result<FoundLog<TornFile>, OpenFault> {
        let found = self.matter.log(alloc);
        self.state = match &found {
            Ok(log) => PlaceState::Opened {
                is_replaced: log.is_replaced,
                bytes: log.bytes.len(),
            },
            Err(fault) => PlaceState::Refused(*fault),
        };
        found
    }
}

/// A log without bytes, of which the write or sync with this number fails. It is the one that was locked, or another.
fn without_bytes(alloc: Global, number: u64, is_replaced: bool) -> FoundLog<TornFile>
    ensures { IsFound ⟦<TornFile as Device>⟧.seen ⟦<TornFile as Device>⟧.may_leave ⟦<TornFile as Device>⟧.fault result }
{
    FoundLog {
        device: TornFile::new(alloc, number),
        bytes: Vec::new(alloc),
        is_replaced,
    }
}

/// A log with a byte, which was synced.
fn with_a_byte(alloc: Global) -> Result<FoundLog<TornFile>, DeviceFault>
    ensures { IfOk result (IsFound ⟦<TornFile as Device>⟧.seen ⟦<TornFile as Device>⟧.may_leave ⟦<TornFile as Device>⟧.fault) }
{
    let mut device = TornFile::new(alloc, 0);
    device.write_at(0, &[0])?;
    device.sync()?;
    let bytes = device.bytes().to_vec(alloc)?;
    Ok(FoundLog {
        device,
        bytes,
        is_replaced: true,
    })
}
