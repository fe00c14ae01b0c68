//! Figures, and how they are printed.
use crate::fault::BenchFault;
use crate::settings::Settings;
use std::fmt;
use std::time::Duration;

/// A figure, in hundredths.
#[derive(Clone, Copy)]
pub struct Figure {
    hundredths: u64,
}

impl Figure {
    /// The figure 0.
    pub const ZERO: Figure = Figure { hundredths: 0 };

    /// Returns messages per second, if this many took this time.
    pub fn rate(count: u64, time: Duration) -> Figure {
        Figure::of(u128::from(count) * 100_000_000_000, time.as_nanos())
    }

    /// Returns nanoseconds per message, if this many took this time.
    pub fn nanos_each(count: u64, time: Duration) -> Figure {
        Figure::of(time.as_nanos().saturating_mul(100), u128::from(count))
    }

    /// Returns how many times the other figure this one is.
    pub fn times(self, other: Figure) -> Figure {
        Figure::of(
            u128::from(self.hundredths) * 100,
            u128::from(other.hundredths),
        )
    }

    /// Returns the larger one of this figure and another one.
    pub fn max(self, other: Figure) -> Figure {
        Figure {
            hundredths: self.hundredths.max(other.hundredths),
        }
    }

    /// This many hundredths for each. Zero counts as one.
    fn of(hundredths: u128, each: u128) -> Figure {
        Figure {
            hundredths: (hundredths / each.max(1)).min(u128::from(u64::MAX)) as u64,
        }
    }
}

impl fmt::Display for Figure {
    fn fmt<W: fmt::Write>(&self, f: &mut fmt::Formatter<W>) -> fmt::Result {
        let whole = self.hundredths / 100;
        let part = self.hundredths % 100;
        write!(f, "{whole}.{part:02}")
    }
}

/// The best of several figures, and the middle one.
#[derive(Clone, Copy)]
pub struct Spread {
    pub best: Figure,
    pub middle: Figure,
}

impl Spread {
    /// Returns how many times the best and the middle of others these are.
    pub fn times(self, other: Spread) -> Spread {
        Spread {
            best: self.best.times(other.best),
            middle: self.middle.times(other.middle),
        }
    }
}

/// What is measured: its case, the bytes of a message, and the threads.
#[derive(Clone, Copy)]
pub struct Label<'a> {
    pub case: &'a str,
    pub payload: u32,
    pub threads: &'a str,
}

/// A figure as a field of a line, and the middle one of several as another field. In a trial, which only tries whether the
/// case runs, it is nothing.
#[derive(Clone, Copy)]
struct Value {
    figure: Figure,
    middle: Option<Figure>,
    is_trial: bool,
}

impl fmt::Display for Value {
    fn fmt<W: fmt::Write>(&self, f: &mut fmt::Formatter<W>) -> fmt::Result {
        if self.is_trial {
            return Ok(());
        }
        write!(f, "\"value\":{},", self.figure)?;
        match self.middle {
            Some(middle) => write!(f, "\"middle\":{middle},"),
            None => Ok(()),
        }
    }
}

/// Prints the line of a figure.
pub fn print_line<R: Print>(
    rt: &R,
    settings: &Settings,
    label: Label,
    figure: Figure,
    unit: &str,
) -> Result<(), BenchFault> {
    let value = Value {
        figure,
        middle: None,
        is_trial: settings.is_trial,
    };
    print_value(rt, label, value, unit)
}

/// Prints the line of the best of several figures and the middle one.
pub fn print_spread<R: Print>(
    rt: &R,
    settings: &Settings,
    label: Label,
    spread: Spread,
    unit: &str,
) -> Result<(), BenchFault> {
    let value = Value {
        figure: spread.best,
        middle: Some(spread.middle),
        is_trial: settings.is_trial,
    };
    print_value(rt, label, value, unit)
}

fn print_value<R: Print>(rt: &R, label: Label, value: Value, unit: &str) -> Result<(), BenchFault> {
    let Label {
        case,
        payload,
        threads,
    } = label;
    match println!(rt;
        "{{\"impl\":\"cq\",\"case\":\"{case}\",\"payload\":{payload},\"threads\":\"{threads}\",{value}\"unit\":\"{unit}\"}}"
    ) {
        Ok(()) => Ok(()),
        Err(_) => Err(BenchFault::NotPrinted),
    }
}
