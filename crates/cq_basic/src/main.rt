//! The program `cq` without `log` and `race`. The launcher `./cq` builds it first: it needs two thirds of the proofs that the whole
//! program needs.
//!
//! The statuses and the errors are those of `cq`. It fails for `log` and `race`.
#![tactic(auto)]

use cq_program::{basic_status, start_of};
use std::process::ExitCode;

fn main(rt: HostRuntime) -> ExitCode {
    ExitCode::from(basic_status(&rt, &rt, start_of(&rt)))
}
