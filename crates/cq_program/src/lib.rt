//! The program `cq` but for `log` and `race`, the commands on a queue that is live. No crate that it uses shares a queue among threads,
//! so its proof waits for none of those.
//!
//! | item | what it is for |
//! |---|---|
//! | `Start`, `Terminals`, `start_of` | what a start of the program is given |
//! | `order_in` | the order in the words of a command line, or the exit status if there is none |
//! | `status_of_order` | runs an order other than `log` and `race` |
//! | `basic_status` | runs a whole start of the program without `log` and `race` |
//! | `fail` | prints an error |
//! | `DONE`, `FAULT`, `NOT_UNDERSTOOD`, `NOTHING` | the exit statuses |
#![tactic(auto)]

mod checking;
mod fault;
mod making;
mod output;
mod program;
mod starting;

pub use starting::{
    DONE, FAULT, NOT_UNDERSTOOD, NOTHING, Start, Terminals, basic_status, fail, order_in, start_of,
    status_of_order,
};
