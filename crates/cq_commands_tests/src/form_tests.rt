//! How single messages are printed: those that no line of an input can be, too.
use cq_cycle::Index;
use cq_fixtures::{expect_text, push_missed};
use cq_forms::{CycleName, Printer, ReadForm};
use std::alloc::{AllocError, Global};
use std::test::Fail;

/// All bytes from 0 on.
const BYTES: &[u8; 256] =
    b"\x00\x01\x02\x03\x04\x05\x06\x07\x08\x09\x0a\x0b\x0c\x0d\x0e\x0f\x10\x11\x12\x13\x14\x15\x16\x17\x18\
\x19\x1a\x1b\x1c\x1d\x1e\x1f\x20\x21\x22\x23\x24\x25\x26\x27\x28\x29\x2a\x2b\x2c\x2d\x2e\x2f\x30\x31\
\x32\x33\x34\x35\x36\x37\x38\x39\x3a\x3b\x3c\x3d\x3e\x3f\x40\x41\x42\x43\x44\x45\x46\x47\x48\x49\x4a\
\x4b\x4c\x4d\x4e\x4f\x50\x51\x52\x53\x54\x55\x56\x57\x58\x59\x5a\x5b\x5c\x5d\x5e\x5f\x60\x61\x62\x63\
\x64\x65\x66\x67\x68\x69\x6a\x6b\x6c\x6d\x6e\x6f\x70\x71\x72\x73\x74\x75\x76\x77\x78\x79\x7a\x7b\x7c\
\x7d\x7e\x7f\x80\x81\x82\x83\x84\x85\x86\x87\x88\x89\x8a\x8b\x8c\x8d\x8e\x8f\x90\x91\x92\x93\x94\x95\
\x96\x97\x98\x99\x9a\x9b\x9c\x9d\x9e\x9f\xa0\xa1\xa2\xa3\xa4\xa5\xa6\xa7\xa8\xa9\xaa\xab\xac\xad\xae\
\xaf\xb0\xb1\xb2\xb3\xb4\xb5\xb6\xb7\xb8\xb9\xba\xbb\xbc\xbd\xbe\xbf\xc0\xc1\xc2\xc3\xc4\xc5\xc6\xc7\
\xc8\xc9\xca\xcb\xcc\xcd\xce\xcf\xd0\xd1\xd2\xd3\xd4\xd5\xd6\xd7\xd8\xd9\xda\xdb\xdc\xdd\xde\xdf\xe0\
\xe1\xe2\xe3\xe4\xe5\xe6\xe7\xe8\xe9\xea\xeb\xec\xed\xee\xef\xf0\xf1\xf2\xf3\xf4\xf5\xf6\xf7\xf8\xf9\
\xfa\xfb\xfc\xfd\xfe\xff";

/// Those that are ASCII, but DEL.
const ASCII: &[u8; 127] =
    b"\x00\x01\x02\x03\x04\x05\x06\x07\x08\x09\x0a\x0b\x0c\x0d\x0e\x0f\x10\x11\x12\x13\x14\x15\x16\x17\x18\
\x19\x1a\x1b\x1c\x1d\x1e\x1f\x20\x21\x22\x23\x24\x25\x26\x27\x28\x29\x2a\x2b\x2c\x2d\x2e\x2f\x30\x31\
\x32\x33\x34\x35\x36\x37\x38\x39\x3a\x3b\x3c\x3d\x3e\x3f\x40\x41\x42\x43\x44\x45\x46\x47\x48\x49\x4a\
\x4b\x4c\x4d\x4e\x4f\x50\x51\x52\x53\x54\x55\x56\x57\x58\x59\x5a\x5b\x5c\x5d\x5e\x5f\x60\x61\x62\x63\
\x64\x65\x66\x67\x68\x69\x6a\x6b\x6c\x6d\x6e\x6f\x70\x71\x72\x73\x74\x75\x76\x77\x78\x79\x7a\x7b\x7c\
\x7d\x7e";

/// What a form makes of messages with the index 0x0000000700000009, each with what it is.
type Rows = &'static [(ReadForm, &'static [u8], &'static [u8])];

static PRINTED: Rows = &[
    (ReadForm::Line, b"", b"0000000700000009 \n"),
    (ReadForm::Text, b"", b"\n"),
    (ReadForm::Null, b"", b"\x00"),
    (ReadForm::Hex, b"", b"0000000700000009 \n"),
    (
        ReadForm::Json,
        b"",
        b"{\"index\":\"0000000700000009\",\"cycle\":\"19700108\",\"sequence\":9,\"text\":\"\"}\n",
    ),
    (ReadForm::Line, b"a\nb", b"0000000700000009 a\nb\n"),
    (ReadForm::Text, b"a\nb", b"a\nb\n"),
    (ReadForm::Null, b"a\nb", b"a\nb\x00"),
    (ReadForm::Hex, b"a\nb", b"0000000700000009 610a62\n"),
    (
        ReadForm::Json,
        b"a\nb",
        b"{\"index\":\"0000000700000009\",\"cycle\":\"19700108\",\"sequence\":9,\"text\":\"a\\nb\"}\n",
    ),
    (
        ReadForm::Hex,
        BYTES,
        b"0000000700000009 000102030405060708090a0b0c0d0e0f101112131415161718191a1b1c1d1e1f202122232425262728292a2b2c2d2e2f3031\
32333435363738393a3b3c3d3e3f404142434445464748494a4b4c4d4e4f505152535455565758595a5b5c5d5e5f60616263\
6465666768696a6b6c6d6e6f707172737475767778797a7b7c7d7e7f808182838485868788898a8b8c8d8e8f909192939495\
969798999a9b9c9d9e9fa0a1a2a3a4a5a6a7a8a9aaabacadaeafb0b1b2b3b4b5b6b7b8b9babbbcbdbebfc0c1c2c3c4c5c6c7\
c8c9cacbcccdcecfd0d1d2d3d4d5d6d7d8d9dadbdcdddedfe0e1e2e3e4e5e6e7e8e9eaebecedeeeff0f1f2f3f4f5f6f7f8f9\
fafbfcfdfeff\n",
    ),
    (
        ReadForm::Json,
        BYTES,
        b"{\"index\":\"0000000700000009\",\"cycle\":\"19700108\",\"sequence\":9,\"base64\":\"AAECAwQFBgcICQoLDA0ODxAREhMUFRYXGBkaGxwdHh8gISIjJCUmJygpKissLS4vMDEyMzQ1Njc4OTo7PD0+P0BBQkNERUZHSElK\
S0xNTk9QUVJTVFVWV1hZWltcXV5fYGFiY2RlZmdoaWprbG1ub3BxcnN0dXZ3eHl6e3x9fn+AgYKDhIWGh4iJiouMjY6PkJGSk5SV\
lpeYmZqbnJ2en6ChoqOkpaanqKmqq6ytrq+wsbKztLW2t7i5uru8vb6/wMHCw8TFxsfIycrLzM3Oz9DR0tPU1dbX2Nna29zd3t/g\
4eLj5OXm5+jp6uvs7e7v8PHy8/T19vf4+fr7/P3+/w==\"}\n",
    ),
    (
        ReadForm::Json,
        ASCII,
        b"{\"index\":\"0000000700000009\",\"cycle\":\"19700108\",\"sequence\":9,\"text\":\"\\u0000\\u0001\\u0002\\u0003\\u0004\\u0005\\u0006\\u0007\\b\\t\\n\\u000b\\f\\r\\u000e\\u000f\\u0010\
\\u0011\\u0012\\u0013\\u0014\\u0015\\u0016\\u0017\\u0018\\u0019\\u001a\\u001b\\u001c\\u001d\\u001e\\\
u001f !\\\"#$%&'()*+,-./0123456789:;<=>?@ABCDEFGHIJKLMNOPQRSTUVWXYZ[\\\\]^_`abcdefghijklmnopqrstuvwx\
yz{|}~\"}\n",
    ),
];

/// What a form makes of a message, in hexadecimal.
fn printed(alloc: Global, form: ReadForm, message: &[u8]) -> Result<String, AllocError> {
    let mut names = Vec::new(alloc);
    for (cycle, name) in [(3, "19700104"), (7, "19700108")] {
        let name = String::from_str(alloc, name)?;
        names.push(CycleName { cycle, name })?;
    }
    let printer = Printer { form, names };
    let mut text = Vec::new(alloc);
    printer.push(alloc, &mut text, Index::new(7, 9), message)?;
    hex::encode(alloc, text.as_slice())
}

#[test]
fn prints_each_message_in_each_form(rt: HostRuntime) -> Result<(), Fail> {
    let alloc = rt.alloc();
    let mut missed = String::new(alloc);
    for (place, &(form, message, want)) in PRINTED.iter().enumerate() {
        let said = printed(alloc, form, message)?;
        let wanted = hex::encode(alloc, want)?;
        push_missed(alloc, &mut missed, place, said.as_str(), wanted.as_str())?;
    }
    expect_text(missed, "")
}

/// What `Null` makes of a long message is the message and a byte 0, and what `Hex` makes of it has two digits for each byte.
#[test]
fn prints_long_messages_whole(rt: HostRuntime) -> Result<(), Fail> {
    let alloc = rt.alloc();
    let message = vec![in alloc; b'x'; 100_000]?;
    let null = printed(alloc, ReadForm::Null, message.as_slice())?;
    let digits = printed(alloc, ReadForm::Hex, message.as_slice())?;
    let lengths = format!(in alloc; "{} {}", null.len(), digits.len())?;
    expect_text(lengths, "200002 400036")
}
