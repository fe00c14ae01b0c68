//! The examples of `docs/GUIDE.md`.
use cq_cycle::Index;
use cq_live::{Live, SystemPlace, open};
use cq_log_file::LogFile;
use cq_real_folder::RealFolder;
use std::process;
use std::test::Fail;

/// Opens the queue of a folder of the system. If no cycle has begun in it, that of this moment begins.
pub fn opened(rt: &HostRuntime, path: &str, moment: u64) -> Result<Live<LogFile>, Fail> {
    let alloc = rt.alloc();
    let process = process::id(rt.process());
    let mut folder = RealFolder::new(rt, String::from_str(alloc, path)?, process);
    let mut place = SystemPlace::new(rt, format!(in alloc; "{path}/queue.log")?);
    Ok(open(alloc, &mut folder, &mut place, moment)?)
}

/// Opens the queue of a folder, appends a message, and returns its index once it is stored.
pub fn append_stored(
    rt: &HostRuntime,
    path: &str,
    moment: u64,
    message: &[u8],
) -> Result<Index, Fail> {
    let mut live = opened(rt, path, moment)?;
    let index = live.endpoint.append(moment, message)?;
    live.kept.turn(rt.alloc())?;
    live.kept.settle()?;
    Ok(index)
}
