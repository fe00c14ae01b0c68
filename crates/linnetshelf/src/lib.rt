//! The calls of the library for C, and for any language that calls as C does.
//!
//! Most calls are given a handle, and return the number of a `Status`, alone or in an `Answer`. They have no
//! preconditions, except that two endpoints that meet are of one queue. The contract of each says of what the handle
//! holds what the contract of the call that it wraps says, in `cq_endpoint`, `cq_saved` or `cq_shelf`.
//! `c/linnetshelf.h` describes the calls for people. A handle that holds something else than the call is for is left as
//! it is, and the status is `WrongKind`.
//!
//! | calls | what they are for |
//! |---|---|
//! | `linnetshelf_create`, `_split`, `_meet`, `_destroy` | make a queue, and endpoints of it |
//! | `linnetshelf_append`, `_append_many`, `_begin`, `_put`, `_complete`, `_roll_back` | append messages, whole or in parts |
//! | `linnetshelf_advance` | begins a cycle |
//! | `linnetshelf_close` | closes a queue |
//! | `linnetshelf_next`, `_next_many`, `_read_at`, `_take` | read and take messages, into a buffer of the caller |
//! | `linnetshelf_peek` | looks up the index and the length of the next message |
//! | `linnetshelf_cursor`, `_direction`, `_to_start`, `_to_end`, `_move_to` | move an endpoint |
//! | `linnetshelf_end` | looks up the end of the queue |
//! | `linnetshelf_position`, `_seek`, `_drop_before` | read and set the position of a name, and drop old cycles |
//! | `linnetshelf_settings_of`, `_names_of` | say how a queue was made |
//! | `linnetshelf_cycle_of`, `_cycle_name`, `_cycle_named` | find the cycle of a moment, its name, and the cycle of a name |
//! | `linnetshelf_stop`, `_saved_..`, `_open` | stop a queue, save what it held, and open it again |
//! | `linnetshelf_snapshot` | copies what a queue holds while its endpoints go on |
//! | `linnetshelf_config_read`, `_config_write` | read and write the text of a folder's `queue.cqc` |
//! | `linnetshelf_play`, `_keep`, `_turn`, `_settle`, `_stored` | play a log, and keep what comes to a queue in one |
//! | `linnetshelf_log_call`, `_log_done` | hand out the calls of the log, which C makes of its own file |
//! | `linnetshelf_shelf_create`, `_split`, `_reader`, `_taker` | make a shelf, and writers, readers and takers of it |
//! | `linnetshelf_shelf_append`, `_begin`, `_put`, `_complete`, `_roll_back`, `_advance` | append messages to a shelf |
//! | `linnetshelf_shelf_follow`, `_close` | move a writer to the last queue, and close a shelf |
//! | `linnetshelf_shelf_next`, `_read_at`, `_take` | read and take its messages, into a buffer of the caller |
//! | `linnetshelf_shelf_direction`, `_to_start`, `_to_end`, `_move_to` | move a reader |
//! | `linnetshelf_shelf_position`, `_queue`, `_living` | say where it is, and how many queues live |
//! | `linnetshelf_size`, `_text`, `_version` | sizes of types, texts of statuses, and the version |
#![tactic(auto)]

mod answer;
mod appending;
mod appending_many;
mod calling;
mod closing;
mod configuring;
mod copying;
mod cycles;
mod keeping;
mod layout;
mod log_calls;
mod making;
mod many;
mod meeting;
mod naming;
mod peeking;
mod playing;
mod reading;
mod reading_many;
mod rooms;
mod saving;
mod settings;
mod settings_calls;
mod shelf_answer;
mod shelf_appending;
mod shelf_making;
mod shelf_places;
mod shelf_reading;
mod shelf_settings;
mod shelf_taking;
mod snapshot;
mod status;
mod text;
mod version;
