//! Opens TOML documents, and searches their members.
ghost use Rattle.std.specs.Prelude.{◌≡◌, ℕ, Bool, List};
ghost use Rattle.std.specs.Borrow.{Bor};
ghost use Rattle.toml.specs.Data.{Data};
ghost use Rattle.toml.specs.View.{view, table_view};
ghost use Rattle.toml.specs.declared.value.Value.{Value};
ghost use Rattle.documents.specs.TomlTable.{IsOpened, any_member};

use std::alloc::Global;
use std::fmt;
use thiserror::Error;
use toml::{Table, Value};

/// Limit on the bytes of a document.
const GREATEST_LENGTH: usize = 65536;

/// Why the bytes of a document give nothing. Users read its text.
#[derive(Clone, Copy, Debug, PartialEq, Eq, Error)]
#[error_bound(F: fmt::Display)]
pub enum ReadFault<F> {
    /// The first fault of the document.
    #[error("{0}")]
    Refused(F),
    /// Memory was refused while the document was read.
    #[error("no memory")]
    NoMemory,
}

/// Opens the TOML document in these bytes. Refuses them with `too_long` if there are more than 65536, and with `not_toml`
/// if they are no TOML document.
pub fn open_document<F: Copy>(
    alloc: Global,
    bytes: &[u8],
    too_long: F,
    not_toml: F,
) -> Result<Table, ReadFault<F>>
    ensures { IsOpened too_long not_toml bytes.now result }
{
    if bytes.len() > GREATEST_LENGTH {
        return Err(ReadFault::Refused(too_long));
    }
    let Ok(text) = std::str::from_utf8(bytes) else {
        return Err(ReadFault::Refused(not_toml));
    };
    match toml::table_from_str(alloc, text) {
        Ok(table) => Ok(table),
        Err(error) if error.is_memory() => Err(ReadFault::NoMemory),
        Err(_) => Err(ReadFault::Refused(not_toml)),
    }
}

/// Returns whether a table has a member that passes a test of its key and its value.
pub(crate) fn any_member<F: Fn(&str, &Value) -> bool>(table: &Table, test: F) -> bool
    requires { F.IsAlwaysCallable test }
    ensures { (passes : List ℕ → Data → Bool)
        → ((name : Bor (List ℕ)) (value : Bor Value) (answer : Bool) → F.post test name value answer
        → answer ≡ passes name.now (view value.now))
        → result ≡ any_member passes (table_view table.now) }
{
    table.iter().any(|(key, value)| test(key.as_str(), value))
}
