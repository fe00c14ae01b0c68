//! Settings and messages for the tests.
ghost use Rattle.std.specs.Prelude.{◌≡◌, IfOk};
ghost use Rattle.cq_layout.specs.Layout.{layout_in};
ghost use Rattle.cq_layout.specs.Shape.{measures};
ghost use Rattle.cq_layout.specs.declared.store_record.StoreVersion.TheVariants.{First};

use cq_layout::{BadShape, Layout, Shape, StoreVersion};
use cq_model::{Config, Items, Message};
use std::alloc::{AllocError, Global};

/// These names, each in memory of its own.
pub fn names_of(alloc: Global, texts: &[&str]) -> Result<Vec<String>, AllocError> {
    let mut names = Vec::new(alloc);
    for text in texts {
        names.push(String::from_str(alloc, text)?)?;
    }
    Ok(names)
}

/// A message of each of these bytes, in their order.
pub fn messages_of(alloc: Global, texts: &[&[u8]]) -> Result<Vec<Message>, AllocError> {
    let mut messages = Vec::new(alloc);
    for text in texts {
        messages.push(Items::new(Vec::from_slice(alloc, text)?))?;
    }
    Ok(messages)
}

/// Adds a message to a text, and this after it.
pub fn push_message(message: &[u8], behind: &str, text: &mut String) -> Result<(), AllocError> {
    text.push_str(str::from_utf8(message).unwrap_or("no text"))?;
    text.push_str(behind)
}

/// The layout of cycles of 64 cells, with 8 entries and spacing 1, and a store record of version 1.
pub fn layout_64() -> Result<Layout, BadShape>
    ensures { IfOk result (λ layout. layout ≡ layout_in First (measures 64 8 1)) }
{
    let shape = Shape::new(64, 8, 1)?;
    Ok(Layout::new(shape, StoreVersion::First))
}

/// Settings as text: the roll and the epoch, the number of cycles and their layout, and the names.
pub fn settings_text(alloc: Global, config: &Config) -> Result<String, AllocError> {
    format!(in alloc;
        "{:?} from {}, {} of {:?}, {:?}",
        config.roll(),
        config.epoch(),
        config.cycles(),
        config.layout(),
        config.names()
    )
}
