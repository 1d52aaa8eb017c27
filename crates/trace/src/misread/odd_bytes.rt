//! Bytes that no line has.
use std::fmt;

/// A byte that stands in no line, or a blank that separates no fields, by its place from 1.
#[derive(Clone, Copy, Debug, PartialEq, Eq)]
pub(crate) enum OddByte {
    /// A byte order mark is in front.
    Mark,
    /// The last byte is 13.
    CarriageReturn,
    /// A blank is in front, at the end of the line, or after another.
    Blank(usize),
    /// A byte isn't printable ASCII.
    Unprinted(usize, u8),
}

impl fmt::Display for OddByte {
    fn fmt<W: fmt::Write>(&self, f: &mut fmt::Formatter<W>) -> fmt::Result {
        match self {
            OddByte::Mark => f.write_str("a byte order mark is in front, which no line has"),
            OddByte::CarriageReturn => f.write_str("byte 13 is at the end: lines end in LF alone"),
            OddByte::Blank(place) => {
                write!(
                    f,
                    "byte {place} is a blank that separates no fields: there is one between two fields"
                )
            }
            OddByte::Unprinted(place, 9) => {
                write!(f, "byte {place} is a tab: fields are separated by blanks")
            }
            OddByte::Unprinted(place, byte) => {
                write!(
                    f,
                    "byte {place} is {byte}, which is no printable character of ASCII"
                )
            }
        }
    }
}

/// Returns the first byte of a line that is wrong whatever the fields are.
pub(crate) fn odd_byte(line: &[u8]) -> Option<OddByte> {
    if line.starts_with(b"\xef\xbb\xbf".as_slice()) {
        return Some(OddByte::Mark);
    }
    let mut blank = true;
    let mut place = 0usize;
    for byte in line {
        place = place.saturating_add(1);
        if *byte == b'\r' && place == line.len() {
            return Some(OddByte::CarriageReturn);
        }
        if !byte.is_ascii_graphic() && *byte != b' ' {
            return Some(OddByte::Unprinted(place, *byte));
        }
        if *byte == b' ' && (blank || place == line.len()) {
            return Some(OddByte::Blank(place));
        }
        blank = *byte == b' ';
    }
    None
}
