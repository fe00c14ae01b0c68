ghost use Rattle.std.specs.Prelude.{◌≡◌, option_map};
ghost use Rattle.cq_orders.specs.OrderFolder.{folder_of};

use crate::settings::{
    LogSettings, NameChange, NewSettings, ReadSettings, TakeSettings, TrimSettings, WriteSettings,
};
use cq_settings::InitSettings;

/// What the program is asked to do.
#[derive(Debug, Drop)]
pub enum Order {
    /// Store and print each line of the input.
    Echo,
    /// Print the cycle of a moment, its name and its first index.
    Cycle {
        /// The word for the roll, as it was given.
        roll: String,
        /// The epoch, in milliseconds of Unix time.
        epoch: u64,
        /// The moment, in milliseconds of Unix time.
        moment: u64,
    },
    /// Make a queue in a folder.
    Init {
        /// The folder, which is there already.
        folder: String,
        /// The settings of the queue.
        settings: InitSettings,
    },
    /// Append each line of the input.
    Write {
        /// The folder.
        folder: String,
        /// The moment of the lines, in milliseconds of Unix time.
        moment: u64,
    },
    /// Append the messages of the input as options say.
    WriteBy {
        /// The folder.
        folder: String,
        /// At which moment, and what a message is.
        settings: WriteSettings,
    },
    /// Append each line of the input as it comes, and print its index once it is stored.
    Log {
        /// The folder.
        folder: String,
        /// How the queue is kept open.
        settings: LogSettings,
    },
    /// Print the messages in order.
    Read {
        /// The folder.
        folder: String,
        /// Which messages are read.
        settings: ReadSettings,
    },
    /// Print the messages in order, and those that come later.
    Follow {
        /// The folder.
        folder: String,
        /// Which messages are printed. They are not read backwards.
        settings: ReadSettings,
        /// After how many seconds it ends. `None` is a value that was not given.
        seconds: Option<u64>,
    },
    /// Take the next message under a name.
    Take {
        /// The folder.
        folder: String,
        /// The name.
        name: String,
    },
    /// Take the next messages under a name, or only print them, as options say.
    TakeBy {
        /// The folder.
        folder: String,
        /// The name.
        name: String,
        /// Which messages are taken.
        settings: TakeSettings,
    },
    /// Make reads and takes skip the cycles before one.
    DropBefore {
        /// The folder.
        folder: String,
        /// The cycle.
        cycle: u64,
    },
    /// Remove the images of dropped cycles, and print their names.
    Trim {
        /// The folder.
        folder: String,
        /// What is removed.
        settings: TrimSettings,
    },
    /// Print of each image what it holds, or its fault.
    Check {
        /// The folder.
        folder: String,
    },
    /// Print the settings of a queue, its cycles, its names, and what is left.
    Stat {
        /// The folder.
        folder: String,
        /// Whether to print it as an object of JSON, on one line.
        json: bool,
    },
    /// Print the records of an image.
    Dump {
        /// The folder.
        folder: String,
        /// The name of the image's file.
        file: String,
    },
    /// Print the messages before the fault of an image, and the fault.
    Salvage {
        /// The folder.
        folder: String,
        /// The name of the image's file.
        file: String,
    },
    /// Make a folder of version 1 into one of version 2.
    Migrate {
        /// The folder.
        folder: String,
    },
    /// Let two appenders and two tailers share a new queue, each in a thread of its own.
    Race {
        /// The number of messages that each of the two appends.
        messages: u32,
    },
    /// Print the names of a queue with their positions, or change them.
    Names {
        /// The folder.
        folder: String,
        /// What is done with them.
        change: NameChange,
    },
    /// Make a folder with a queue, whose settings are those that were given and others that serve.
    New {
        /// The folder, which may be there already.
        folder: String,
        /// What was given.
        settings: NewSettings,
    },
    /// Make the messages before the fault of an image the image, and keep the file under another name.
    Repair {
        /// The folder.
        folder: String,
        /// The name of the image's file.
        file: String,
        /// Whether nothing is changed.
        dry_run: bool,
    },
    /// Print what a fault means and what to do.
    Explain {
        /// The words of the fault. None means all faults.
        words: Vec<String>,
    },
}

impl Order {
    /// Returns the path of the folder that the order is for; `None` for `echo`, `cycle`, `race` and `explain`, which are for no
    /// folder.
    pub fn folder(&self) -> Option<&str>
        ensures { option_map (λ path. path.now) result ≡ folder_of self.now }
    {
        match self {
            Order::Echo | Order::Cycle { .. } | Order::Race { .. } | Order::Explain { .. } => None,
            Order::Init { folder, .. }
            | Order::Write { folder, .. }
            | Order::WriteBy { folder, .. }
            | Order::Log { folder, .. }
            | Order::Read { folder, .. }
            | Order::Follow { folder, .. }
            | Order::Take { folder, .. }
            | Order::TakeBy { folder, .. }
            | Order::DropBefore { folder, .. }
            | Order::Trim { folder, .. }
            | Order::Check { folder }
            | Order::Stat { folder, .. }
            | Order::Dump { folder, .. }
            | Order::Salvage { folder, .. }
            | Order::Migrate { folder }
            | Order::Names { folder, .. }
            | Order::New { folder, .. }
            | Order::Repair { folder, .. } => Some(folder.as_str()),
        }
    }
}
