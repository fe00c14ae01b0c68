//! The program `cq`: passes its command line and streams to `cq_tools`, and ends with the status that it returns.
//!
//! The status is 0 if the command was done, 1 after an error, and 2 if the command line is not understood. Errors go to
//! standard error.
#![tactic(auto)]

use cq_tools::{start_of, status};
use std::process::ExitCode;

fn main(rt: HostRuntime) -> ExitCode {
    ExitCode::from(status(&rt, &rt, start_of(&rt)))
}
