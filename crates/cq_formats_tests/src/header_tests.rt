//! The header of a record.
use cq_fixtures::expect_row;
use cq_header::{BadHeader, Header, read, write};
use std::test::Fail;

/// Each kind of header with its bits, as Chronicle Wire's table has them.
static TABLE: [(u32, Header); 8] = [
    (0x0000_0000, Header::Empty),
    (0x8000_0000, Header::Working),
    (0xC000_0000, Header::Ended),
    (0x4000_0020, Header::Meta(32)),
    (0x0000_0005, Header::Data(5)),
    (0x4000_0000, Header::Meta(0)),
    (0x3FFF_FFFF, Header::Data(1_073_741_823)),
    (0x7FFF_FFFF, Header::Meta(1_073_741_823)),
];

/// The bits to which the header that is read is written again, if it is this one.
fn written_again(bits: u32, header: Header) -> Option<u32> {
    match read(bits) {
        Ok(found) if found == header => Some(write(found)),
        _ => None,
    }
}

#[test]
fn each_kind_is_read_and_written() -> Result<(), Fail> {
    for &(bits, header) in &TABLE {
        expect_row(written_again(bits, header) == Some(bits), u64::from(bits))?;
    }
    Ok(())
}

/// Bits of no header.
static OTHERS: [u32; 5] = [
    0x8000_0001,
    0xBFFF_FFFF,
    0xC000_0001,
    0xC000_0004,
    0xFFFF_FFFF,
];

#[test]
fn other_bits_are_refused() -> Result<(), Fail> {
    for &bits in &OTHERS {
        expect_row(read(bits) == Err(BadHeader), u64::from(bits))?;
    }
    Ok(())
}
