//! What is measured.
use cq_log::Damage;
use std::time::Duration;

/// What the threads wait for.
#[derive(Clone, Copy, PartialEq, Eq)]
pub enum Waiting {
    /// Each batch is stored before the next one.
    Stored,
    /// The same, by a log that has one sync for a batch.
    StoredByOneSync,
    /// Nothing. Another thread stores what came, once a millisecond.
    Kept,
    /// Nothing, and nothing is stored.
    Alone,
}

impl Waiting {
    /// Reads it from the word for it, if that is one.
    fn of_word(word: &str) -> Option<Waiting> {
        match word {
            "--one-sync" => Some(Waiting::StoredByOneSync),
            "--kept" => Some(Waiting::Kept),
            "--alone" => Some(Waiting::Alone),
            _ => None,
        }
    }

    /// What its log survives: one sync for a batch is enough where a crash leaves each byte old or new.
    pub fn damage(self) -> Damage {
        match self {
            Waiting::StoredByOneSync => Damage::OldOrNew,
            Waiting::Stored | Waiting::Kept | Waiting::Alone => Damage::AnyBytes,
        }
    }

    /// Its name in a line.
    pub fn name(self) -> &'static str {
        match self {
            Waiting::Stored => "cq",
            Waiting::StoredByOneSync => "cq --one-sync",
            Waiting::Kept => "cq --kept",
            Waiting::Alone => "cq --alone",
        }
    }
}

/// What is measured.
#[derive(Clone, Copy)]
pub struct Settings {
    pub waiting: Waiting,
    /// How many threads append.
    pub threads: u32,
    /// How many messages each of them appends in a batch.
    pub batch: u32,
    /// For how long.
    pub time: Duration,
}

/// The most threads.
const MOST_THREADS: u32 = 256;

/// The most messages of a batch.
const MOST_BATCH: u32 = 10_000;

/// The most seconds.
const MOST_SECONDS: u32 = 3_600;

/// The number from 1 to a limit that a word says.
fn number_up_to(word: &str, limit: u32) -> Option<u32> {
    let number = word.parse::<u32>().ok()?;
    (1 <= number && number <= limit).then_some(number)
}

/// The settings of the words for threads, batch and seconds.
fn settings_of(waiting: Waiting, threads: &str, batch: &str, seconds: &str) -> Option<Settings> {
    let threads = number_up_to(threads, MOST_THREADS)?;
    let batch = number_up_to(batch, MOST_BATCH)?;
    let seconds = number_up_to(seconds, MOST_SECONDS)?;
    Some(Settings {
        waiting,
        threads,
        batch,
        time: Duration::from_secs(u64::from(seconds)),
    })
}

/// What the words of the program say: the folder, and what is measured there. Nothing if they are not understood.
pub fn understood(words: &[String]) -> Option<(&str, Settings)> {
    match words {
        [folder, threads, batch, seconds] => {
            let settings = settings_of(
                Waiting::Stored,
                threads.as_str(),
                batch.as_str(),
                seconds.as_str(),
            )?;
            Some((folder.as_str(), settings))
        }
        [mode, folder, threads, batch, seconds] => {
            let waiting = Waiting::of_word(mode.as_str())?;
            let settings = settings_of(
                waiting,
                threads.as_str(),
                batch.as_str(),
                seconds.as_str(),
            )?;
            Some((folder.as_str(), settings))
        }
        _ => None,
    }
}
