//! Inputs in sections of whole lines.
use cq_fixtures::expect_answer;
use cq_input::Sections;
use std::alloc::Global;
use std::io::Read;
use std::test::Fail;

/// An input, the least bytes of a section, the room of a read, and the sections with `|` between them and a space for each line feed.
type Row = (&'static [u8], usize, usize, &'static str);

static ROWS: [Row; 12] = [
    (b"", 1, 8, ""),
    (b"a\nb\n", 1, 8, "a |b |"),
    (b"a\nb\n", 2, 8, "a |b |"),
    // Two lines have enough bytes together.
    (b"a\nb\nc\n", 3, 8, "a b |c "),
    (b"a\nb\nc\n", 4, 8, "a b |c "),
    // A long line is not cut, in whatever pieces it is read.
    (b"abcdef\ng\n", 2, 8, "abcdef |g |"),
    (b"abcdef\ng\n", 2, 1, "abcdef |g |"),
    (b"abcdef\ng\n", 7, 3, "abcdef |g "),
    (b"abcdef\ng\n", 8, 3, "abcdef g |"),
    // The last line has no line feed.
    (b"a\nb", 1, 8, "a |b"),
    // A section of no bytes at least ends at each line feed.
    (b"\n\na", 0, 8, " | |a"),
    (b"a\nb\nc", 100, 2, "a b c"),
];

/// Gives the sections of an input.
fn sections_text(alloc: Global, row: &Row) -> Result<String, Fail> {
    let (input, least, room, _) = *row;
    let mut sections = Sections::new(input, least);
    let mut text = String::new(alloc);
    for _ in 0..100 {
        let mut buffer = [0u8; 8];
        let count = sections.read(&mut buffer[..room.min(8)])?;
        for byte in &buffer[..count] {
            text.push(if *byte == b'\n' {
                ' '
            } else {
                char::from(*byte)
            })?;
        }
        if count == 0 {
            if !sections.begin_next() {
                break;
            }
            text.push('|')?;
        }
    }
    Ok(text)
}

#[test]
fn sections_end_at_line_feeds(rt: HostRuntime) -> Result<(), Fail> {
    for (number, row) in ROWS.iter().enumerate() {
        let text = sections_text(rt.alloc(), row)?;
        expect_answer("sections", number, text.as_str(), row.3)?;
    }
    Ok(())
}
