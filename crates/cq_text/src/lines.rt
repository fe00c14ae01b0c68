ghost use Rattle.std.specs.Prelude.{◌≡◌, ◌≢◌, ℕ, ◌<◌, ◌∷◌, length, slice_index, IfSome, IfNone};
ghost use Rattle.cq_text.specs.Lines.{input_lines};

/// The lines of an input, in order. Each ends with a line feed, and a last line without one counts. All other bytes are
/// kept: a carriage return too, which std's `lines` would drop.
#[derive(Drop)]
pub struct InputLines<'a> {
    /// The bytes of the lines still to come.
    pub rest: &'a [u8],
}

impl<'a> InputLines<'a> {
    /// Makes the iterator over the lines of these bytes.
    pub fn of(bytes: &'a [u8]) -> InputLines<'a>
        ensures { result.rest ≡ bytes.entry }
    {
        InputLines { rest: bytes }
    }
}

impl<'a> Iterator for InputLines<'a> {
    ghost use Rattle.std.specs.Iterator.{YieldsFirstBy, item_count};

    type Item = &'a [u8];

    ghost next_gives = { YieldsFirstBy (λ line. line.now) (λ lines. input_lines lines.rest.now) };

    ghost remaining = { item_count (λ lines. input_lines lines.rest.now) };

    fn next(&mut self) -> Option<&'a [u8]> {
        let bytes = self.rest;
        if bytes.is_empty() {
            return None;
        }
        let (line, rest) = split_line(bytes);
        self.rest = rest;
        Some(line)
    }
}

/// Returns the first line of some bytes, and what follows it.
fn split_line(bytes: &[u8]) -> (&[u8], &[u8])
    requires { 0 < length bytes.now }
    ensures { input_lines bytes.now ≡ result.0.now ∷ input_lines result.1.now }
{
    match line_feed_in(bytes) {
        Some(at) => (&bytes[..at], &bytes[at + 1..]),
        None => (bytes, &[]),
    }
}

/// Returns the place of the first line feed.
fn line_feed_in(bytes: &[u8]) -> Option<usize>
    ensures found { IfSome result (λ at. (at < length bytes.now) × (slice_index bytes.now at ≡ 10)
        × ((k : ℕ) → k < at → slice_index bytes.now k ≢ 10)) }
    ensures none { IfNone result ((k : ℕ) → k < length bytes.now → slice_index bytes.now k ≢ 10) }
{
    bytes.iter().position(|byte| *byte == b'\n')
}
