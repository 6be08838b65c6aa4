//! The first byte of a line that isn't printable ASCII.
ghost use Rattle.std.specs.Prelude.{◌↔◌, IsTrue};
ghost use Rattle.diagnosis.specs.Places.{IsOfStray, IsPrintable};

use crate::reason::Stray;
use std::str;

/// Where the first byte stands that isn't printable ASCII, or the line ends.
pub fn stray_place(line: &[u8]) -> usize
    ensures { IsOfStray line.now result }
{
    for (place, byte) in line.iter().enumerate() {
        if !is_printable(*byte) {
            return place;
        }
    }
    line.len()
}

/// Whether the byte is printable ASCII, or a space.
pub fn is_printable(byte: u8) -> bool
    ensures { IsTrue result ↔ IsPrintable byte }
{
    b' ' <= byte && byte <= b'~'
}

/// What the bytes begin with, which aren't printable ASCII and end the line. They may be the mark of a file, where they begin it.
pub fn stray_of(bytes: &[u8], begins_file: bool) -> Stray {
    match bytes {
        [0xEF, 0xBB, 0xBF, ..] if begins_file => Stray::ByteOrderMark,
        [0xFF, 0xFE, ..] | [0xFE, 0xFF, ..] if begins_file => Stray::WideMark,
        [b'\r'] => Stray::CarriageReturn,
        [b'\t', ..] => Stray::Tab,
        [0xC2, 0xA0, ..] => Stray::NoBreakSpace,
        [first, ..] => letter_of(bytes).map_or(Stray::Byte(*first), Stray::BeyondAscii),
        [] => Stray::Byte(b'\n'),
    }
}

/// The character of UTF-8 that the bytes begin with, where it is beyond ASCII.
fn letter_of(bytes: &[u8]) -> Option<char> {
    for len in 2..5 {
        if let Some(front) = bytes.get(..len) {
            if let Ok(text) = str::from_utf8(front) {
                return text.chars().next().filter(|letter| !letter.is_ascii());
            }
        }
    }
    None
}
