//! A clock, a folder that changes as it is entered, and writers that fail.
use cq_folder::{Access, Folder, FolderFault, MemoryFolder, NewFile};
use cq_following::Changes;
use cq_orders::{InitSettings, TrimSettings};
use cq_running::{ToolFault, drop_before, init, write};
use cq_trim::trim;
use std::alloc::{Alloc, Global};
use std::cell::Cell;
use std::io::{self, ErrorKind, Write};
use std::time::{Clock, Duration};

/// What changes a folder from outside.
#[derive(Clone, Copy)]
pub enum Step {
    /// `write` of an input at a moment.
    Write(u64, &'static [u8]),
    /// `drop` of the cycles before one.
    Drop(u64),
    /// `trim` of what is dropped.
    Trim,
    /// A file gets these bytes.
    Put(&'static str, &'static [u8]),
}

/// What changes a folder before it is entered, for each time.
pub type Life = &'static [&'static [Step]];

/// A clock that goes on only in a sleep.
#[derive(Drop)]
pub struct Ticks {
    alloc: Global,
    now: Cell<u64>,
    is_broken: bool,
}

impl Ticks {
    /// A clock that begins at 1,000 milliseconds, or that cannot be read.
    pub fn new(alloc: Global, is_broken: bool) -> Ticks {
        Ticks {
            alloc,
            now: Cell::new(1_000),
            is_broken,
        }
    }

    /// How many milliseconds have passed.
    pub fn passed(&self) -> u64 {
        self.now.get().saturating_sub(1_000)
    }
}

impl Alloc for Ticks {
    type A = Global;

    fn alloc(&self) -> Global {
        self.alloc
    }
}

impl Clock for Ticks {
    fn monotonic(&self) -> io::Result<Duration> {
        if self.is_broken {
            return Err(io::Error::from(ErrorKind::Other));
        }
        Ok(Duration::from_millis(self.now.get()))
    }

    fn since_1970(&self) -> io::Result<Duration> {
        self.monotonic()
    }

    fn sleep(&self, time: Duration) {
        let passed = u64::try_from(time.as_millis()).unwrap_or(u64::MAX);
        self.now.set(self.now.get().saturating_add(passed));
    }
}

/// Says of a folder that it always may have changed, or never.
#[derive(Clone, Copy, Drop)]
pub struct Says(pub bool);

impl Changes for Says {
    fn may_have_changed(&mut self) -> bool {
        self.0
    }
}

/// A folder that others change each time before it is entered.
#[derive(Drop)]
pub struct LivingFolder {
    folder: MemoryFolder,
    life: Life,
}

impl LivingFolder {
    /// A folder with a queue of four days, with the name "reader".
    pub fn new(alloc: Global, life: Life) -> Result<LivingFolder, ToolFault> {
        let settings = InitSettings {
            roll: String::from_str(alloc, "daily")?,
            epoch: 0,
            cells: 64,
            index_count: 8,
            index_spacing: 1,
            cycles: 4,
            names: vec![in alloc; String::from_str(alloc, "reader")?]?,
        };
        let mut folder = MemoryFolder::new(alloc);
        init(alloc, &mut folder, &settings)?;
        Ok(LivingFolder { folder, life })
    }

    /// Changes the folder.
    fn change(&mut self, alloc: Global, step: &Step) -> bool {
        let folder = &mut self.folder;
        let mut output = Vec::new(alloc);
        match *step {
            Step::Write(moment, input) => {
                let mut rest = input;
                write(alloc, folder, moment, &mut rest, &mut output).is_ok()
            }
            Step::Drop(cycle) => drop_before(alloc, folder, cycle, &mut output).is_ok(),
            Step::Trim => {
                let dropped = TrimSettings {
                    keep: None,
                    before: None,
                    force: false,
                    dry_run: false,
                };
                trim(alloc, folder, &dropped, &mut output).is_ok()
            }
            Step::Put(name, bytes) => {
                let begun = folder.begin(alloc, Access::Alone).is_ok();
                begun && folder.write(name, bytes).is_ok()
            }
        }
    }
}

impl Folder for LivingFolder {
    ghost use Rattle.std.specs.Prelude.{◌^◌, ◌-◌};

    // The count of failures is at its end from the beginning, so what others do need not be counted.
    ghost failed = { λ _. 2 ^ 64 - 1 };

    ghost entered = { λ living. living.folder.entered };

    fn begin(&mut self, alloc: Global, access: Access) -> Result<(), FolderFault> {
        if let [steps, rest @ ..] = self.life {
            self.life = rest;
            for step in *steps {
                if !self.change(alloc, step) {
                    self.folder.end();
                    return Err(FolderFault::OutOfMemory);
                }
            }
        }
        self.folder.begin(alloc, access)
    }

    fn end(&mut self) {
        self.folder.end();
    }

    fn names(&mut self, alloc: Global) -> Result<Vec<String>, FolderFault> {
        self.folder.names(alloc)
    }

    fn read(&mut self, alloc: Global, name: &str, limit: usize) -> Result<Vec<u8>, FolderFault> {
        self.folder.read(alloc, name, limit)
    }

    fn write(&mut self, name: &str, bytes: &[u8]) -> Result<(), FolderFault> {
        self.folder.write(name, bytes)
    }

    fn save(&mut self, changes: &[NewFile]) -> Result<(), FolderFault> {
        self.folder.save(changes)
    }

    fn save_and_remove(
        &mut self,
        changes: &[NewFile],
        removed: &[String],
    ) -> Result<(), FolderFault> {
        self.folder.save_and_remove(changes, removed)
    }

    fn access(&self) -> Option<Access> {
        self.folder.access()
    }

    fn failures(&self) -> u64 {
        u64::MAX
    }
}

/// A writer that keeps some bytes, and then fails in this way.
#[derive(Drop)]
pub struct Room {
    pub taken: Vec<u8>,
    left: usize,
    kind: ErrorKind,
}

impl Room {
    /// A writer for this many bytes.
    pub fn new(alloc: Global, left: usize, kind: ErrorKind) -> Room {
        Room {
            taken: Vec::new(alloc),
            left,
            kind,
        }
    }
}

impl Write for Room {
    fn write(&mut self, bytes: &[u8]) -> io::Result<usize> {
        let count = bytes.len().min(self.left);
        if count == 0 {
            return Err(io::Error::from(self.kind));
        }
        self.taken.extend_from_slice(&bytes[..count])?;
        self.left -= count;
        Ok(count)
    }

    fn flush(&mut self) -> io::Result<()> {
        Ok(())
    }
}
