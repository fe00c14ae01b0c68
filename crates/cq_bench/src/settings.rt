//! What a run is given: the shape of the queues, and how often and for how long is measured.
use crate::fault::BenchFault;
use cq_layout::Shape;
use std::env::{self, VarError};
use std::rt::Env;
use std::time::Duration;

/// The shape if none is given.
const SHAPE: &str = "1048576,256,16";

/// The most repetitions.
const MOST_REPETITIONS: u32 = 1000;

/// The most seconds of a soak.
const MOST_SECONDS: u32 = 1_000_000;

/// What every case is given.
#[derive(Clone, Copy)]
pub struct Settings {
    /// The shape of each queue's one cycle.
    pub shape: Shape,
    /// How often each case is measured. The best figure is kept.
    pub repetitions: u32,
    /// How long random reads last at least.
    pub reading_time: Duration,
    /// How long a soak lasts.
    pub soak_time: Duration,
    /// Whether it is only tried that each case runs: no figure is printed.
    pub is_trial: bool,
}

/// A variable of the environment is not understood.
#[derive(Debug, Drop, thiserror::Error)]
pub enum SettingFault {
    /// The shape is not three numbers within the limits of a shape.
    #[error("CQ_SHAPE is no shape: CELLS,COUNT,SPACING")]
    BadShape,
    /// The repetitions are no number from 1 to 1,000.
    #[error("REPS is no number from 1 to 1000")]
    BadRepetitions,
    /// The seconds are no number from 1 to 1,000,000.
    #[error("CQ_SECONDS is no number from 1 to 1000000")]
    BadSeconds,
}

impl Settings {
    /// Reads the settings from the environment. `CQ_SHAPE` has the cells of a cycle, the entries of a table and the
    /// spacing; `REPS` says how often each case is measured, and `CQ_SECONDS` how long a soak lasts.
    pub fn of_environment<R: AllocGlobal + Env>(rt: &R) -> Result<Settings, SettingFault> {
        let Some(shape) = shape_in(rt) else {
            return Err(SettingFault::BadShape);
        };
        let Some(repetitions) = number_in(rt, "REPS", "3", MOST_REPETITIONS) else {
            return Err(SettingFault::BadRepetitions);
        };
        let Some(seconds) = number_in(rt, "CQ_SECONDS", "600", MOST_SECONDS) else {
            return Err(SettingFault::BadSeconds);
        };
        Ok(Settings {
            shape,
            repetitions,
            reading_time: Duration::from_millis(300),
            soak_time: Duration::from_secs(u64::from(seconds)),
            is_trial: false,
        })
    }

    /// Returns the settings of a short run over small queues, without figures.
    pub fn of_trial() -> Result<Settings, BenchFault> {
        let Some(shape) = shape_with(8192, 32, 4) else {
            return Err(BenchFault::NoQueue);
        };
        Ok(Settings {
            shape,
            repetitions: 1,
            reading_time: Duration::ZERO,
            soak_time: Duration::ZERO,
            is_trial: true,
        })
    }
}

/// Reads an environment variable, or returns the given value if it is not set. Returns `None` if it is not UTF-8, or
/// if memory was refused.
fn variable<R: AllocGlobal + Env>(rt: &R, name: &str, otherwise: &str) -> Option<String> {
    match env::var(rt, name) {
        Ok(text) => Some(text),
        Err(VarError::NotPresent) => String::from_str(rt.alloc(), otherwise).ok(),
        Err(VarError::NotUnicode | VarError::OutOfMemory) => None,
    }
}

/// Reads the shape from the environment.
fn shape_in<R: AllocGlobal + Env>(rt: &R) -> Option<Shape> {
    let text = variable(rt, "CQ_SHAPE", SHAPE)?;
    shape_of(text.as_str())
}

/// Reads a number from 1 to `most` from an environment variable, or from the given text if it is not set.
fn number_in<R: AllocGlobal + Env>(rt: &R, name: &str, otherwise: &str, most: u32) -> Option<u32> {
    let text = variable(rt, name, otherwise)?;
    number_up_to(text.as_str(), most)
}

/// Returns the shape of three numbers.
fn shape_of(text: &str) -> Option<Shape> {
    let mut parts = text.split(',');
    let cells = number_of(parts.next())?;
    let count = number_of(parts.next())?;
    let spacing = number_of(parts.next())?;
    if parts.next().is_some() {
        return None;
    }
    shape_with(cells, count, spacing)
}

/// Returns the shape with these measures.
fn shape_with(cells: u32, count: u32, spacing: u32) -> Option<Shape> {
    Shape::new(cells, count, spacing).ok()
}

fn number_of(text: Option<&str>) -> Option<u32> {
    text?.parse::<u32>().ok()
}

/// Returns a number from 1 to `most`.
fn number_up_to(text: &str, most: u32) -> Option<u32> {
    match number_of(Some(text)) {
        Some(number) if 1 <= number && number <= most => Some(number),
        _ => None,
    }
}
