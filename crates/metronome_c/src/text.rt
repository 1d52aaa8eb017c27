//! Statuses in words, and the version.
ghost use Rattle.std.specs.Prelude.{◌≡◌, length};
ghost use Rattle.metronome_c.specs.Status.{text_of};
ghost use Rattle.metronome_c.specs.Text.{with_text};

use crate::status::Status;

/// The version of this interface. Another number means that programs have to be compiled anew.
pub(crate) const VERSION: u32 = 3;

/// Returns the text of a number.
fn text_of_number(number: u32) -> &'static str
    ensures { result.now ≡ text_of number }
{
    match Status::numbered(number) {
        Some(status) => status.text(),
        None => "no such status",
    }
}

/// Writes as much of a text as there is room for, and 0 after it.
fn write_text(bytes: &[u8], room: &mut [u8])
    ensures { room.new ≡ with_text room.old bytes.now }
{
    if room.is_empty() {
        return;
    }
    let n = bytes.len().min(room.len() - 1);
    room[..n].copy_from_slice(&bytes[..n]);
    room[n] = 0;
}

/// Writes the text of a status, as much of it as there is room for, and 0 after it. Returns how many bytes the whole text has.
#[unsafe(no_mangle)]
pub extern "C" fn metronome_text_into(status: u32, text: &mut [u8]) -> usize
    ensures whole { result ≡ length (text_of status) }
    ensures text { text.new ≡ with_text text.old (text_of status) }
{
    let bytes = text_of_number(status).as_bytes();
    write_text(bytes, text);
    bytes.len()
}

/// The version of this interface.
#[unsafe(no_mangle)]
pub extern "C" fn metronome_version() -> u32
    ensures { result ≡ 3 }
{
    VERSION
}
