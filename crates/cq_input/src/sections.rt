//! An input in sections of whole lines.
ghost use Rattle.std.specs.Prelude.{◌≡◌, ◌≢◌, IfNone, IfOk, IfSome, IsTrue, OnErr, take};
ghost use Rattle.std.specs.Io.{ReadsAtMost};
ghost use Rattle.cq_input.specs.Sections.{EndsAfter, Gives, GoesOnIn, HasNoLineFeed, IsAtStart, IsFirstLineFeed, KeepsItsPlace};

use std::io::{self, BufRead, Read};

/// Where reads of a section are.
#[derive(Clone, Copy, Debug, PartialEq, Eq)]
pub(crate) enum Place {
    Inside,
    AtEnd,
    AtEndOfInput,
}

/// An input in sections of whole lines (ours). A section ends with the first line feed at which it has enough bytes. At its end reads
/// give no bytes, as at the end of the input, until the next section begins.
#[derive(Drop)]
pub struct Sections<R: BufRead> {
    input: R,
    /// The bytes that a section has at least, but for the last one.
    least: usize,
    /// The bytes that are still missing before a line feed ends the section.
    missing: usize,
    place: Place,
}

impl<R: BufRead> Sections<R> {
    /// Makes sections of at least this many bytes, but for the last one. The first one begins.
    pub fn new(input: R, least: usize) -> Sections<R>
        ensures { IsAtStart input least result }
    {
        Sections {
            input,
            least,
            missing: least,
            place: Place::Inside,
        }
    }

    /// Begins the next section, if this one has ended and the input has not. Returns whether it did.
    pub fn begin_next(&mut self) -> bool
        ensures began { IsTrue result → (self.old.place ≡ Place.AtEnd) × IsAtStart self.old.input self.old.least self.new }
        ensures not { ¬ IsTrue result → (self.old.place ≢ Place.AtEnd) × (self.new ≡ self.old) }
    {
        if self.place != Place::AtEnd {
            return false;
        }
        self.place = Place::Inside;
        self.missing = self.least;
        true
    }

    /// Takes the next bytes of the section. Returns their number: 0 at its end.
    #[tactic(auto, using(crate::proofs::Taken::gives_end, crate::proofs::Taken::gives_all))]
    fn take(&mut self, buf: &mut [u8]) -> io::Result<usize>
        ensures bound { ReadsAtMost result buf.new }
        ensures ended { self.old.place ≢ Place.Inside → IfOk result (λ count. count ≡ 0) × (self.new ≡ self.old) }
        ensures inside { self.old.place ≡ Place.Inside → IfOk result (λ count. Gives self.old self.new (take count buf.new)) }
        ensures failed { OnErr result (KeepsItsPlace self.old self.new) }
    {
        if self.place != Place::Inside {
            return Ok(0);
        }
        let found = self.input.fill_buf()?;
        let found = &found[..found.len().min(buf.len())];
        let is_end = found.is_empty() && !buf.is_empty();
        let end = section_end(self.missing, found);
        let count = end.unwrap_or(found.len());
        buf[..count].copy_from_slice(&found[..count]);
        self.input.consume(count);
        self.missing = self.missing.saturating_sub(count);
        if end.is_some() {
            self.place = Place::AtEnd;
        } else if is_end {
            self.place = Place::AtEndOfInput;
        }
        Ok(count)
    }

    /// Returns the input, to look at.
    pub fn input(&self) -> &R
        ensures { result.now ≡ self.now.input }
    {
        &self.input
    }
}

impl<R: BufRead> Read for Sections<R> {
    fn read(&mut self, buf: &mut [u8]) -> io::Result<usize> {
        self.take(buf)
    }
}

/// Returns how many of these bytes are up to the end of a section that misses this many bytes; `None` if it goes on after them.
fn section_end(missing: usize, bytes: &[u8]) -> Option<usize>
    ensures end { IfSome result (EndsAfter missing bytes.now) }
    ensures none { IfNone result (GoesOnIn missing bytes.now) }
{
    let skipped = missing.saturating_sub(1);
    if skipped >= bytes.len() {
        return None;
    }
    let at = line_feed_in(&bytes[skipped..])?;
    Some(skipped + at + 1)
}

/// Returns the place of the first line feed.
fn line_feed_in(bytes: &[u8]) -> Option<usize>
    ensures found { IfSome result (IsFirstLineFeed bytes.now) }
    ensures none { IfNone result (HasNoLineFeed bytes.now) }
{
    bytes.iter().position(|byte| *byte == b'\n')
}
