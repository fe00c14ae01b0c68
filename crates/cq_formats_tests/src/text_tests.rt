//! The texts of faults and rolls, and of the records of images.
use crate::image_tests::{HELLO, HELLO_OF_VERSION_2};
use cq_config_text::ConfigFault;
use cq_cycle::{BadMoment, NameFault, Roll};
use cq_fixtures::expect_text;
use cq_header::BadHeader;
use cq_image::{FaultKind, ImageFault, ReadFault};
use cq_layout::{BadShape, Shape};
use cq_model::{BadConfig, Refusal};
use cq_shown::CreateError;
use cq_text::dump_text;
use std::alloc::{AllocError, Global};
use std::fmt::Display;
use std::test::Fail;

/// The texts of values, with a semicolon after each.
fn texts<T: Display>(alloc: Global, values: &[T]) -> Result<String, AllocError> {
    let mut text = String::new(alloc);
    for value in values {
        write!(text, "{value}; ")?;
    }
    Ok(text)
}

/// Fails if values have other texts, with a semicolon after each.
fn expect_texts<T: Display>(alloc: Global, values: &[T], want: &str) -> Result<(), Fail> {
    expect_text(texts(alloc, values)?, want)
}

/// A fault of each kind of an image.
static IMAGE_FAULTS: [ImageFault; 8] = [
    ImageFault {
        kind: FaultKind::Cut,
        at: 100,
    },
    ImageFault {
        kind: FaultKind::BadHeader,
        at: 100,
    },
    ImageFault {
        kind: FaultKind::Unfinished,
        at: 100,
    },
    ImageFault {
        kind: FaultKind::WrongStore,
        at: 100,
    },
    ImageFault {
        kind: FaultKind::WrongTable,
        at: 100,
    },
    ImageFault {
        kind: FaultKind::BadPadding,
        at: 100,
    },
    ImageFault {
        kind: FaultKind::AfterEnd,
        at: 100,
    },
    ImageFault {
        kind: FaultKind::OverShape,
        at: 100,
    },
];

/// What a reader returns if an image has one of these faults.
static READ_FAULTS: [ReadFault; 8] = [
    ReadFault::Fault(ImageFault {
        kind: FaultKind::Cut,
        at: 100,
    }),
    ReadFault::Fault(ImageFault {
        kind: FaultKind::BadHeader,
        at: 100,
    }),
    ReadFault::Fault(ImageFault {
        kind: FaultKind::Unfinished,
        at: 100,
    }),
    ReadFault::Fault(ImageFault {
        kind: FaultKind::WrongStore,
        at: 100,
    }),
    ReadFault::Fault(ImageFault {
        kind: FaultKind::WrongTable,
        at: 100,
    }),
    ReadFault::Fault(ImageFault {
        kind: FaultKind::BadPadding,
        at: 100,
    }),
    ReadFault::Fault(ImageFault {
        kind: FaultKind::AfterEnd,
        at: 100,
    }),
    ReadFault::Fault(ImageFault {
        kind: FaultKind::OverShape,
        at: 100,
    }),
];

/// The faults of each kind, as text.
const KINDS_TEXT: &str = "Cut at 100; BadHeader at 100; Unfinished at 100; WrongStore at 100; \
    WrongTable at 100; BadPadding at 100; AfterEnd at 100; OverShape at 100; ";

#[test]
fn faults_of_images_have_their_texts(rt: HostRuntime) -> Result<(), Fail> {
    expect_texts(rt.alloc(), &IMAGE_FAULTS, KINDS_TEXT)?;
    expect_texts(rt.alloc(), &READ_FAULTS, KINDS_TEXT)
}

/// What each fault that has one text alone prints, and then the rolls.
fn single_texts(alloc: Global) -> Result<String, AllocError> {
    let memory = ReadFault::OutOfMemory;
    let (daily, hourly, minutely) = (Roll::Daily, Roll::Hourly, Roll::Minutely);
    format!(in alloc;
        "{BadHeader} {BadShape} {BadMoment} {BadConfig} {memory} {daily} {hourly} {minutely}"
    )
}

#[test]
fn single_faults_and_rolls_have_their_texts(rt: HostRuntime) -> Result<(), Fail> {
    expect_text(
        single_texts(rt.alloc())?,
        "BadHeader BadShape BadMoment BadConfig want of memory daily hourly minutely",
    )
}

/// Each fault of a name.
static NAME_FAULTS: [NameFault; 2] = [NameFault::BadName, NameFault::OutOfMemory];

/// Each fault of a configuration.
static CONFIG_FAULTS: [ConfigFault; 4] = [
    ConfigFault::OutOfMemory,
    ConfigFault::Line(3),
    ConfigFault::BadShape,
    ConfigFault::BadConfig,
];

/// Each refusal of an appender.
static REFUSALS: [Refusal; 5] = [
    Refusal::BadRoom,
    Refusal::BadMoment,
    Refusal::Busy,
    Refusal::NoCycleLeft,
    Refusal::CycleFull,
];

/// Each reason why there is no queue.
static CREATE_ERRORS: [CreateError; 3] = [
    CreateError::BadMoment,
    CreateError::BadContents,
    CreateError::OutOfMemory,
];

#[test]
fn faults_and_refusals_have_their_texts(rt: HostRuntime) -> Result<(), Fail> {
    let alloc = rt.alloc();
    expect_texts(alloc, &NAME_FAULTS, "BadName; want of memory; ")?;
    expect_texts(
        alloc,
        &CONFIG_FAULTS,
        "want of memory; line 3; BadShape; BadConfig; ",
    )?;
    expect_texts(
        alloc,
        &REFUSALS,
        "BadRoom; BadMoment; Busy; NoCycleLeft; CycleFull; ",
    )?;
    expect_texts(
        alloc,
        &CREATE_ERRORS,
        "BadMoment; BadContents; OutOfMemory; ",
    )
}

/// The records of the worked image of version 1.
const DUMP: &str = "00000000 40000018 store 1 0 8 1 64\n0000001c 40000020 top 64 0 0 0 0 0 0 0\n\
00000040 40000020 table 0 100 0 0 0 0 0 0 0\n00000064 00000005 data 0 68656c6c6f\n00000070 c0000000 end\n";

/// The records of the worked image of version 2.
const DUMP_OF_VERSION_2: &str = "00000000 40000024 store 2 0 8 1 64 0 86400000\n\
00000028 40000020 top 76 0 0 0 0 0 0 0\n0000004c 40000020 table 0 112 0 0 0 0 0 0 0\n\
00000070 00000005 data 0 68656c6c6f\n0000007c c0000000 end\n";

/// The text of the records of an image of cycle 0 with 64 cells, in a queue whose cycles are days, or the fault.
fn dumped(alloc: Global, bytes: &[u8]) -> Result<String, Fail> {
    match dump_text(alloc, 0, Shape::new(64, 8, 1)?, Roll::Daily, 0, bytes) {
        Ok(text) => text_of(alloc, text.as_slice()),
        Err(fault) => Ok(format!(in alloc; "{fault}")?),
    }
}

/// Bytes as text, in memory of its own.
fn text_of(alloc: Global, bytes: &[u8]) -> Result<String, Fail> {
    Ok(String::from_str(alloc, str::from_utf8(bytes)?)?)
}

/// Fails if the records of an image have another text.
fn expect_dump(alloc: Global, bytes: &[u8], want: &str) -> Result<(), Fail> {
    expect_text(dumped(alloc, bytes)?, want)
}

#[test]
fn the_records_of_either_version_are_printed(rt: HostRuntime) -> Result<(), Fail> {
    expect_dump(rt.alloc(), &HELLO, DUMP)?;
    expect_dump(rt.alloc(), &HELLO_OF_VERSION_2, DUMP_OF_VERSION_2)?;
    expect_dump(rt.alloc(), &HELLO[..110], "Cut at 100")
}
