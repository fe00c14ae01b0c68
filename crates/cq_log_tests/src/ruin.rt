//! What a crash makes of writes and cuts.
ghost use Rattle.std.specs.Prelude.{◌≤◌, IfOk, length};

use std::alloc::{AllocError, Global};

/// What a crash makes of each write and of each cut that was not synced.
#[derive(Clone, Copy, Debug, PartialEq, Eq)]
pub enum Ruin {
    /// All bytes of a write are there, and a cut is done.
    Kept,
    /// No byte of a write is there, and a cut is not done.
    Lost,
    /// As many bytes of a write, from the front, are there, and the others are not. A cut leaves as many past its end.
    Front(usize),
    /// Each byte in the range of a write, and each past the end of a cut, is this one.
    Filled(u8),
    /// All bytes of a write are there, but for one. A cut is done.
    Spoilt {
        /// Where it is in the file, in bytes.
        place: usize,
        /// What is there.
        byte: u8,
    },
    /// By the bits of this number, in turn: the written byte for a 1, or else the old one; past the old end a 0. Past the end of
    /// a cut a 0 for a 1, or else the old byte.
    Mixed(u64),
}

impl Ruin {
    /// Returns the bytes that a crash leaves at the beginning of the range of a write. All later ones are the old ones.
    pub fn reached(
        self,
        alloc: Global,
        file: &[u8],
        at: usize,
        bytes: &[u8],
    ) -> Result<Vec<u8>, AllocError>
        ensures { IfOk result (λ reached. length reached.items ≤ length bytes.now) }
    {
        match self {
            Ruin::Kept => bytes.to_vec(alloc),
            Ruin::Lost => Ok(Vec::new(alloc)),
            Ruin::Front(count) => bytes[..count.min(bytes.len())].to_vec(alloc),
            Ruin::Filled(byte) => vec![in alloc; byte; bytes.len()],
            Ruin::Spoilt { place, byte } => spoilt(alloc, bytes, place.checked_sub(at), byte),
            Ruin::Mixed(bits) => mixed(alloc, file, at, bytes, bits),
        }
    }

    /// Returns the bytes that a crash leaves past the end of a cut, where these were before.
    pub fn left_past(self, alloc: Global, bytes: &[u8]) -> Result<Vec<u8>, AllocError>
        ensures { IfOk result (λ left. length left.items ≤ length bytes.now) }
    {
        let mut left = Vec::new(alloc);
        for (i, &byte) in bytes.iter().enumerate() {
            match self {
                Ruin::Kept | Ruin::Spoilt { .. } => {}
                Ruin::Lost => left.push(byte)?,
                Ruin::Front(count) if i < count => left.push(byte)?,
                Ruin::Front(_) => {}
                Ruin::Filled(other) => left.push(other)?,
                Ruin::Mixed(bits) if bits.rotate_right((i % 64) as u32) % 2 == 1 => left.push(0)?,
                Ruin::Mixed(_) => left.push(byte)?,
            }
        }
        left.truncate(bytes.len());
        Ok(left)
    }
}

/// Returns these bytes with another one at this index, if there is one.
fn spoilt(
    alloc: Global,
    bytes: &[u8],
    index: Option<usize>,
    byte: u8,
) -> Result<Vec<u8>, AllocError>
    ensures { IfOk result (λ spoilt. length spoilt.items ≤ length bytes.now) }
{
    let mut spoilt = bytes.to_vec(alloc)?;
    if let Some(index) = index
        && let Some(old) = spoilt.get_mut(index)
    {
        *old = byte;
    }
    Ok(spoilt)
}

/// Returns of the bytes that were written at an offset of a file those that these bits choose, and of the others what the file had,
/// or a 0.
fn mixed(
    alloc: Global,
    file: &[u8],
    at: usize,
    bytes: &[u8],
    bits: u64,
) -> Result<Vec<u8>, AllocError>
    ensures { IfOk result (λ mixed. length mixed.items ≤ length bytes.now) }
{
    let mut mixed = Vec::new(alloc);
    for (i, &byte) in bytes.iter().enumerate() {
        let place = at.saturating_add(i);
        if bits.rotate_right((place % 64) as u32) % 2 == 1 {
            mixed.push(byte)?;
        } else {
            mixed.push(file.get(place).copied().unwrap_or(0))?;
        }
    }
    mixed.truncate(bytes.len());
    Ok(mixed)
}
