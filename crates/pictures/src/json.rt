//! Tables of numbers, in JSON.
ghost use Rattle.std.specs.Prelude.{◌≡◌, ℕ, List, IfOk, string_bytes};
ghost use Rattle.pictures.specs.Json.{cell_text, row_text, table_text};

use std::alloc::{AllocError, Global};

/// A row of a table.
pub trait JsonRow {
    /// Its text.
    ghost told: { Self → List ℕ };

    /// Its text, as `row` makes it.
    fn row(&self, alloc: Global) -> Result<String, AllocError>
        ensures { IfOk result (λ text. string_bytes text ≡ told self.now) };
}

/// Returns the text of a number; that of None is `null`.
fn cell(alloc: Global, number: Option<u128>) -> Result<String, AllocError>
    ensures { IfOk result (λ text. string_bytes text ≡ cell_text number) }
{
    match number {
        Some(n) => format!(in alloc; "{n}"),
        None => format!(in alloc; "null"),
    }
}

/// Returns the text of a row of numbers: a list, after a comma and on a line of its own.
pub fn row(alloc: Global, first: u64, others: &[Option<u128>]) -> Result<String, AllocError>
    ensures { IfOk result (λ text. string_bytes text ≡ row_text first others.now) }
{
    let mut text = format!(in alloc; ",\n[{first}")?;
    for number in others {
        text.push(',')?;
        text.push_str(cell(alloc, *number)?.as_str())?;
    }
    text.push(']')?;
    Ok(text)
}

/// Returns the text of a table: its head, a line for each row, and the end of the list.
pub fn table<R: JsonRow>(alloc: Global, head: &str, rows: &[R]) -> Result<String, AllocError>
    ensures { IfOk result (λ text. string_bytes text ≡ table_text head.now R.told rows.now) }
{
    let mut text = String::from_str(alloc, head)?;
    for one in rows {
        text.push_str(one.row(alloc)?.as_str())?;
    }
    text.push_str("],\n")?;
    Ok(text)
}
