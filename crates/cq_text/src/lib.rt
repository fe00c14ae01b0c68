//! The parts of the program `cq` that need neither a folder nor a queue: reading input, printing, and the commands on
//! texts alone. It also has the errors of all commands.
//!
//! | item | what it is for |
//! |---|---|
//! | `read_input`, `InputLines` | read an input whole, and cut it into lines |
//! | `print` | writes a text |
//! | `echo`, `cycle` | commands on texts alone |
//! | `dump_text`, `dump_text_by_layout` | the records of an image as text |
//! | `salvage_text` | what can be read of a damaged image, as text |
//! | `ToolFault` | why a command failed |
//! | `laws` | laws of the texts |
#![tactic(auto)]

mod cycle_line;
mod dump_lines;
mod echoing;
mod fault;
mod input;
pub mod laws;
mod lines;
mod output;
mod salvage_lines;
mod text;

pub use cycle_line::cycle;
pub use dump_lines::{dump_text, dump_text_by_layout};
pub use echoing::echo;
pub use fault::ToolFault;
pub use input::read_input;
pub use lines::InputLines;
pub use output::print;
pub use salvage_lines::salvage_text;
