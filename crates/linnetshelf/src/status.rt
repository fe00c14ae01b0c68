ghost use Rattle.std.specs.Prelude.{◌≡◌, ◌≢◌, IfNone, IfSome};
ghost use Rattle.linnetshelf.specs.Statuses.{number};

/// How a call went. C has its number, which is its place in this list, from 0.
#[derive(Clone, Copy, Debug, PartialEq, Eq)]
pub enum Status {
    /// The call is done.
    Done,
    /// There is no such message yet.
    NotYet,
    /// There is no earlier message.
    BeforeStart,
    /// No message will ever be there: its cycle is below the current one.
    Never,
    /// Reads skip the cycle of this index, which was dropped.
    Gone,
    /// No message is at this index, or its cycle was dropped; the endpoint stays where it is.
    NoMessage,
    /// The buffer is too small; the answer has the length that is needed.
    NoRoom,
    /// The name is elsewhere and was not moved; the answer has its position.
    Moved,
    /// Another endpoint is writing.
    Busy,
    /// A message of this length does not fit after those of the current cycle.
    CycleFull,
    /// The moment is in a later cycle, and the queue has as many cycles as it may have.
    NoCycleLeft,
    /// No message has this length, which is 0 or above 2^30 - 1 bytes.
    BadRoom,
    /// The moment is in no cycle.
    BadMoment,
    /// The endpoint has begun a message, which is to be completed or given up first.
    Writing,
    /// The endpoint has begun no message.
    NotWriting,
    /// The bytes would pass the maximum length with which the message was begun.
    PastRoom,
    /// Nothing was put: a message has at least one byte.
    EmptyMessage,
    /// The position or the cycle is after the end that the endpoint has seen.
    NotSeen,
    /// The queue declares no tailer of this name.
    NoSuchName,
    /// No direction has this number.
    BadDirection,
    /// A setting is outside its limits.
    BadSettings,
    /// No queue of these settings holds these cycles, positions and floor.
    BadContents,
    /// The cycle before has not ended, and nothing comes after an open cycle.
    BehindOpen,
    /// The image ends before a record does, or where a message must follow.
    Cut,
    /// Four bytes of the image that are not a header are where one must be.
    BadHeader,
    /// A record of the image is not complete.
    Unfinished,
    /// The store record of the image is not that of the cycle and the settings.
    WrongStore,
    /// A table of the image is missing, or has a wrong size or a wrong entry.
    WrongTable,
    /// A byte of the image after a message, up to the next four bytes, is not 0.
    BadPadding,
    /// Bytes follow the end of data of the image.
    AfterEnd,
    /// A message of the image does not fit the settings after those before it.
    OverShape,
    /// There are fewer cycles or names.
    NoSuchPlace,
    /// Other endpoints of the queue live.
    InUse,
    /// The handle holds something else than this call is for.
    WrongKind,
    /// Out of memory.
    OutOfMemory,
    /// The queue is closed: nothing is appended or begun any more.
    Closed,
    /// There is no such message, and none will come: the queue is closed.
    Finished,
    /// As many queues of the shelf live as may, and the oldest is still used.
    Full,
    /// Queues of the shelf were dropped before they were read; the answer has how many.
    Missed,
    /// The shelf is to have fewer than two queues.
    BadShelf,
    /// No call of the log is left.
    NoCall,
    /// A call of the log failed, or memory for one was refused: the log has stopped.
    LogStopped,
    /// What came makes a frame of 2^32 - 1 bytes or more.
    LongFrame,
    /// The blocks of the log have 2^60 bytes or more.
    LogFull,
    /// The settings make a first frame of 2^32 - 1 bytes or more.
    LongHead,
    /// The first frame of the log is not one with which a log begins.
    BadHead,
    /// The log goes on from something else than what is saved.
    OtherLog,
    /// A later frame of the log is at fault, or cannot be played; the answer has its number.
    BadTurn,
    /// No queue of these settings holds what the log gives.
    BadGain,
}

/// Each status with its text in English, in the order of their numbers.
static STATUSES: [(Status, &str); 49] = [
    (Status::Done, "it is done"),
    (Status::NotYet, "there is no such message yet"),
    (Status::BeforeStart, "there is no earlier message"),
    (
        Status::Never,
        "no message will ever stand there: its cycle is below the current one",
    ),
    (
        Status::Gone,
        "reads pass over the cycle of this index, which was dropped",
    ),
    (
        Status::NoMessage,
        "no message stands at this index, or its cycle was dropped; the endpoint stays where it is",
    ),
    (
        Status::NoRoom,
        "the room is too small; the answer has the length that is needed",
    ),
    (
        Status::Moved,
        "the name stands elsewhere and was not moved; the answer has its position",
    ),
    (Status::Busy, "another endpoint is writing"),
    (
        Status::CycleFull,
        "a message of this length does not fit behind those of the current cycle",
    ),
    (
        Status::NoCycleLeft,
        "the moment lies in a later cycle, and the queue has as many cycles as it may have",
    ),
    (
        Status::BadRoom,
        "no message has this length, which is 0 or above 2^30 - 1 bytes",
    ),
    (Status::BadMoment, "the moment lies in no cycle"),
    (
        Status::Writing,
        "the endpoint has begun a message, which is to be completed or given up first",
    ),
    (Status::NotWriting, "the endpoint has begun no message"),
    (
        Status::PastRoom,
        "the bytes would pass the room with which the message was begun",
    ),
    (
        Status::EmptyMessage,
        "nothing was put: a message has at least one byte",
    ),
    (
        Status::NotSeen,
        "the position or the cycle lies behind the end that the endpoint has seen",
    ),
    (
        Status::NoSuchName,
        "the queue declares no tailer of this name",
    ),
    (Status::BadDirection, "no direction has this number"),
    (Status::BadSettings, "a setting is outside its limits"),
    (
        Status::BadContents,
        "no queue of these settings holds these cycles, positions and floor",
    ),
    (
        Status::BehindOpen,
        "the cycle before has not ended, and nothing stands behind that",
    ),
    (
        Status::Cut,
        "the image ends before a record does, or where a message must follow",
    ),
    (
        Status::BadHeader,
        "four bytes of the image that are not a header stand where one must be",
    ),
    (Status::Unfinished, "a record of the image is not complete"),
    (
        Status::WrongStore,
        "the store record of the image is not that of the cycle and the settings",
    ),
    (
        Status::WrongTable,
        "a table of the image is missing, or has a wrong size or a wrong entry",
    ),
    (
        Status::BadPadding,
        "a byte of the image behind a message, up to the next four bytes, is not 0",
    ),
    (
        Status::AfterEnd,
        "bytes follow the end of data of the image",
    ),
    (
        Status::OverShape,
        "a message of the image does not fit the settings behind those before it",
    ),
    (Status::NoSuchPlace, "there are not as many cycles or names"),
    (Status::InUse, "other endpoints of the queue live"),
    (
        Status::WrongKind,
        "the handle holds something else than this call is for",
    ),
    (Status::OutOfMemory, "there was no memory"),
    (Status::Closed, "the queue is closed"),
    (
        Status::Finished,
        "there is no such message, and none will come: the queue is closed",
    ),
    (
        Status::Full,
        "as many queues of the shelf live as may, and the oldest is still used",
    ),
    (
        Status::Missed,
        "queues of the shelf were dropped before they were read; the answer has how many",
    ),
    (Status::BadShelf, "a shelf has at least two queues"),
    (Status::NoCall, "no call of the log is left"),
    (
        Status::LogStopped,
        "a call of the log failed: open the log again, and play what is stored",
    ),
    (
        Status::LongFrame,
        "too much came for one frame of the log: save the queue, and begin a new log",
    ),
    (
        Status::LogFull,
        "the log is full: save the queue, and begin a new log",
    ),
    (Status::LongHead, "the settings are too long for a log"),
    (
        Status::BadHead,
        "the first frame of the log is not one with which a log begins",
    ),
    (
        Status::OtherLog,
        "the log goes on from something else than what is saved",
    ),
    (
        Status::BadTurn,
        "a frame of the log is at fault, or cannot be played; the answer has its number",
    ),
    (
        Status::BadGain,
        "no queue of these settings holds what the log gives",
    ),
];

impl Status {
    /// Returns its number for C.
    pub fn number(self) -> u32
        ensures { result ≡ number self }
    {
        self as u32
    }

    /// Returns the status of a number, if one has it.
    pub fn of_number(asked: u32) -> Option<Status>
        ensures found { IfSome result (λ status. number status ≡ asked) }
        ensures none { IfNone result ((status : Status) → number status ≢ asked) }
    {
        let (status, _) = STATUSES.get(asked as usize)?;
        Some(*status)
    }

    /// Returns the text of this status, in English.
    pub fn text(self) -> &'static str {
        STATUSES[self as usize].1
    }
}
