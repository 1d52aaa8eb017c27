//! Names of files, as texts in JSON that may stand in a page.
ghost use Rattle.std.specs.Prelude.{◌≡◌, ◌<◌, ◌++◌, IfOk, OnOk, string_bytes};
ghost use Rattle.std.specs.List.{flat_map};
ghost use Rattle.std.specs.Char.{digit_char};
ghost use Rattle.program.specs.Names.{stands_for_itself, byte_text, files_member};

use std::alloc::{AllocError, Global};

/// Returns whether a byte stands for itself.
fn stands_for_itself(byte: u8) -> bool
    ensures { result ≡ stands_for_itself byte }
{
    32 <= byte && byte <= 126 && byte != b'"' && byte != b'\\' && byte != b'<'
}

/// Returns a digit of a hexadecimal number.
fn digit(number: u8) -> char
    requires { number < 16 }
    ensures { result ≡ digit_char number }
{
    if number < 10 {
        char::from(48 + number)
    } else {
        char::from(87 + number)
    }
}

/// Adds a byte to a text: itself, or its escape.
fn add_byte(text: &mut String, byte: u8) -> Result<(), AllocError>
    ensures { OnOk result (string_bytes text.new ≡ string_bytes text.old ++ byte_text byte) }
{
    if stands_for_itself(byte) {
        return text.push(char::from(byte));
    }
    text.push_str("\\u00")?;
    text.push(digit(byte / 16))?;
    text.push(digit(byte % 16))
}

/// Adds the bytes of a name to a text.
fn add_name(text: &mut String, bytes: &[u8]) -> Result<(), AllocError>
    ensures { OnOk result (string_bytes text.new ≡ string_bytes text.old ++ flat_map byte_text bytes.now) }
{
    for byte in bytes {
        add_byte(text, *byte)?;
    }
    Ok(())
}

/// Returns the names of the files of a run, as a member of its data.
pub fn files_member(alloc: Global, config: &str, trace: &str) -> Result<String, AllocError>
    ensures { IfOk result (λ text. string_bytes text ≡ files_member config.now trace.now) }
{
    let mut text = String::from_str(alloc, "\"files\":[\"")?;
    add_name(&mut text, config.as_bytes())?;
    text.push_str("\",\"")?;
    add_name(&mut text, trace.as_bytes())?;
    text.push_str("\"],\n")?;
    Ok(text)
}
