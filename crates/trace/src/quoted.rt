//! Texts of a user, quoted.
ghost use Rattle.std.specs.Prelude.{◌≤◌, length};

use std::fmt;

/// The most characters of a text that are shown.
const MOST_SHOWN: usize = 80;

/// A quoted text: its first 80 characters, and whether more follow. Control characters are written in hexadecimal.
/// Bytes that aren't UTF-8 aren't shown.
#[derive(Clone, Copy)]
pub struct Quoted<'a>(pub &'a [u8]);

/// Returns how many bytes at the front are UTF-8.
fn count_valid(bytes: &[u8]) -> usize
    ensures { result ≤ length bytes.now }
{
    match std::str::from_utf8(bytes) {
        Ok(_) => bytes.len(),
        Err(error) => error.valid_up_to().min(bytes.len()),
    }
}

impl fmt::Display for Quoted<'_> {
    fn fmt<W: fmt::Write>(&self, f: &mut fmt::Formatter<W>) -> fmt::Result {
        let valid = count_valid(self.0);
        let text = std::str::from_utf8(&self.0[..valid]).unwrap_or("");
        f.write_str("'")?;
        for (place, c) in text.chars().enumerate() {
            if place == MOST_SHOWN {
                return f.write_str("' and so on");
            }
            if c.is_control() {
                let code = u32::from(c);
                write!(f, "\\x{code:02x}")?;
            } else {
                f.write_char(c)?;
            }
        }
        if valid < self.0.len() {
            return f.write_str("' and bytes that aren't UTF-8");
        }
        f.write_str("'")
    }
}
