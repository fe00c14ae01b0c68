/// What a message of the input is.
#[derive(Clone, Copy, Debug, PartialEq, Eq)]
pub enum InputForm {
    /// A line, without its line feed.
    Lines,
    /// What a byte 0 ends, without this byte.
    Null,
    /// The whole input, if it is not empty.
    Whole,
}

/// How messages are appended, as it was given.
#[derive(Clone, Copy, Debug, Drop)]
pub struct WriteSettings {
    /// The moment of the messages, in milliseconds of Unix time. `None` is the time of the machine's clock.
    pub moment: Option<u64>,
    /// What a message is.
    pub form: InputForm,
}

/// The settings of a queue that is made with its folder, as it was given. `None` is a value that was not given.
#[derive(Debug, Drop)]
pub struct NewSettings {
    /// The word for the roll.
    pub roll: Option<String>,
    /// The cells of a cycle.
    pub cells: Option<u64>,
    /// How many cycles may begin.
    pub cycles: Option<u64>,
    /// The names of the tailers.
    pub names: Vec<String>,
}

/// In which form a message is printed.
#[derive(Clone, Copy, Debug, PartialEq, Eq)]
pub enum ReadForm {
    /// The index, a space, the message and a line feed.
    Line,
    /// The message and a line feed.
    Text,
    /// The message and a byte 0.
    Null,
    /// The index, a space, the bytes of the message in lower-case hexadecimal digits, and a line feed.
    Hex,
    /// An object of JSON with the index, the name of the cycle, the sequence number and the message, and a line feed.
    Json,
}

/// Which messages are read, and in which form they are printed, as it was given. `None` is a value that was not given.
#[derive(Debug, Drop)]
pub struct ReadSettings {
    /// In which form they are printed.
    pub form: ReadForm,
    /// Whether they are read backwards, towards the first message: from the end, unless `from` is given.
    pub back: bool,
    /// The index at which to begin.
    pub from: Option<String>,
    /// The most messages that are read.
    pub limit: Option<u64>,
    /// How many of the last messages are read, in order. With it `back`, `from` and `limit` say nothing.
    pub last: Option<u64>,
    /// The word for the first index that is read.
    pub since: Option<String>,
    /// The word for the index before which reading ends.
    pub until: Option<String>,
}

/// Which messages are taken, as it was given. `None` is a value that was not given.
#[derive(Debug, Drop)]
pub struct TakeSettings {
    /// The most messages that are taken: 1, unless it was given.
    pub limit: Option<u64>,
    /// Whether they are only printed, and the name stays where it is.
    pub peek: bool,
    /// For how many seconds it waits where there is none.
    pub wait: Option<u64>,
}

/// How a queue is kept open, as it was given. `None` is a value that was not given.
#[derive(Debug, Drop)]
pub struct LogSettings {
    /// After how many seconds it ends, if the input has not ended before.
    pub seconds: Option<u64>,
    /// How many syncs there are between a line and its acknowledgement: 0 to 2.
    pub syncs: Option<u64>,
    /// After how many bytes of lines the images are saved.
    pub checkpoint: Option<u64>,
}

/// What of a queue is removed, as it was given. `None` is a value that was not given.
#[derive(Debug, Drop)]
pub struct TrimSettings {
    /// How many of the last cycles are kept at most.
    pub keep: Option<u64>,
    /// The word for the cycle before which all are dropped.
    pub before: Option<String>,
    /// Whether messages are dropped that are left for a name.
    pub force: bool,
    /// Whether nothing is changed.
    pub dry_run: bool,
}

/// What is done with the names of a queue, as it was given.
#[derive(Debug, Drop)]
pub enum NameChange {
    /// They are printed.
    List,
    /// A name is added.
    Add {
        /// The name.
        name: String,
        /// The word for its position. `None` is the end of the queue.
        at: Option<String>,
    },
    /// A name is removed.
    Remove {
        /// The name.
        name: String,
    },
    /// A name gets another position.
    Move {
        /// The name.
        name: String,
        /// The word for its position.
        to: String,
    },
}
