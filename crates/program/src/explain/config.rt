//! Explains the fault of a configuration.
use crate::files::DOCUMENT_BYTES;
use documents::open_document;
use size_classes::{ConfigFault, Key, LEAST_BUDGET, MOST_BUDGET, Ranges};
use std::alloc::Global;
use std::fmt;
use std::io::{self, Write};
use toml::{Table, Value};
use trace::Quoted;

/// A value, displayed as in a fault.
#[derive(Clone, Copy)]
struct Told<'a>(&'a Value);

impl fmt::Display for Told<'_> {
    fn fmt<W: fmt::Write>(&self, f: &mut fmt::Formatter<W>) -> fmt::Result {
        match self.0 {
            Value::String(text) => {
                let quoted = Quoted(text.as_bytes());
                write!(f, "the text {quoted}")
            }
            Value::Integer(number) => write!(f, "{number}"),
            Value::Float(number) => write!(f, "{number}"),
            Value::Boolean(yes) => write!(f, "{yes}"),
            Value::Datetime(_) => f.write_str("a date or a time"),
            Value::Array(_) => f.write_str("an array"),
            Value::Table(_) => f.write_str("a table"),
        }
    }
}

/// Explains the fault of a refused configuration, from its bytes.
pub(crate) fn explain_config<E: Write>(
    alloc: Global,
    errors: &mut E,
    name: &str,
    bytes: &[u8],
    fault: ConfigFault,
) -> io::Result<()> {
    let name = Quoted(name.as_bytes());
    match fault {
        ConfigFault::TooLong => {
            let most = DOCUMENT_BYTES - 1;
            writeln!(
                errors,
                "metronome: {name} has more than {most} bytes, which are the most that it may have"
            )
        }
        ConfigFault::NotToml => tell_not_toml(alloc, errors, name, bytes),
        _ => match open_document(alloc, bytes, fault, fault) {
            Ok(table) => tell_key(errors, name, &table, fault),
            Err(_) => Ok(()),
        },
    }
}

/// Writes why bytes aren't TOML, in the words of their reader.
fn tell_not_toml<E: Write>(
    alloc: Global,
    errors: &mut E,
    name: Quoted,
    bytes: &[u8],
) -> io::Result<()> {
    let text = match std::str::from_utf8(bytes) {
        Ok(text) => text,
        Err(error) => {
            let before = error.valid_up_to();
            return writeln!(
                errors,
                "metronome: {name} isn't UTF-8 after its first {before} bytes"
            );
        }
    };
    let Err(error) = toml::table_from_str(alloc, text) else {
        return Ok(());
    };
    if error.is_memory() {
        return Ok(());
    }
    let told = format!(in alloc; "{error}")?;
    write!(errors, "metronome: {name}")?;
    for line in told.lines() {
        write!(errors, ": {line}")?;
    }
    writeln!(errors, "")
}

/// Explains the fault of a key of a configuration.
fn tell_key<E: Write>(
    errors: &mut E,
    name: Quoted,
    table: &Table,
    fault: ConfigFault,
) -> io::Result<()> {
    match fault {
        ConfigFault::TooLong | ConfigFault::NotToml => Ok(()),
        ConfigFault::UnknownKey => tell_unknown(errors, name, table),
        ConfigFault::Missing(key) | ConfigFault::NotWhole(key) | ConfigFault::OutOfRange(key) => {
            tell_range(errors, name, table, key)
        }
        ConfigFault::BudgetOutOfRange => tell_budget(errors, name, table),
    }
}

/// Writes the first unknown key, in the order of names, and all known keys.
fn tell_unknown<E: Write>(errors: &mut E, name: Quoted, table: &Table) -> io::Result<()> {
    for (key, _value) in table.iter() {
        if !Key::ALL.iter().any(|known| known.name() == key.as_str()) {
            let unknown = Quoted(key.as_bytes());
            writeln!(
                errors,
                "metronome: {name}: {unknown} is the first key, by name, that isn't known"
            )?;
            break;
        }
    }
    write!(errors, "metronome: the keys are ")?;
    let mut between = "";
    for key in &Key::ALL {
        write!(errors, "{between}{key}")?;
        between = ", ";
    }
    writeln!(errors, "")
}

/// Returns the number at a key, or the key's default if no value is there; 0 if there is neither.
fn number_at(table: &Table, key: Key) -> i64 {
    match table.get(key.name()) {
        Some(value) => value.as_integer().unwrap_or(0),
        None => key.row(Ranges::File, 0).default.unwrap_or(0),
    }
}

/// Writes the value at a key, and the key's range.
fn tell_range<E: Write>(errors: &mut E, name: Quoted, table: &Table, key: Key) -> io::Result<()> {
    let row = key.row(Ranges::File, number_at(table, Key::Mutators));
    let (least, greatest) = (row.least, row.greatest);
    match table.get(key.name()) {
        Some(value) => {
            let told = Told(value);
            writeln!(
                errors,
                "metronome: {name}: {key} is {told}, and may be a whole number from {least} to {greatest}"
            )
        }
        None => {
            writeln!(
                errors,
                "metronome: {name}: {key} has to be set, to a whole number from {least} to {greatest}"
            )
        }
    }
}

/// Writes the budget that a quantum would have, and its range.
fn tell_budget<E: Write>(errors: &mut E, name: Quoted, table: &Table) -> io::Result<()> {
    let ticks = number_at(table, Key::CollectorTicks);
    let rate = number_at(table, Key::Rate);
    let budget = ticks.saturating_mul(rate);
    writeln!(
        errors,
        "metronome: {name}: collector_ticks * rate is {ticks} * {rate} = {budget}, and may be from {LEAST_BUDGET} to {MOST_BUDGET}"
    )
}
