//! Reads the configuration file.
ghost use Rattle.std.specs.Prelude.{◌≡◌, true, None, IfOk};
ghost use Rattle.std.specs.Result.{result_err};
ghost use Rattle.size_classes.specs.declared.ranges.Ranges.TheVariants.{File};
ghost use Rattle.size_classes.specs.Keys.{is_allowed};
ghost use Rattle.size_classes.specs.Config.{first_outside, IsOf};
ghost use Rattle.toml.specs.View.{table_view};
ghost use Rattle.documents.specs.ConfigFile.{IsRead, is_known, has_unknown_key, mutators_of, key_fault, number_for, HasRange, settings_of, document_fault, keys_faults};
ghost use Rattle.documents.specs.TomlTable.{first_some};

use crate::toml_table::{ReadFault, any_member, open_document};
use size_classes::{Config, ConfigFault, Key, Ranges, Settings};
use std::alloc::Global;
use toml::Table;

/// Reads the configuration in a file of these bytes, and checks it. Returns its first fault, if it has one. A file may be
/// too long, or no TOML, or have an unknown key. Then each key in turn may be missing, not a whole number, or out of its
/// range. Last, the budget of a quantum may be out of range. Returns NoMemory if memory was refused while the document
/// was read.
pub fn read_config(alloc: Global, bytes: &[u8]) -> Result<Config, ReadFault<ConfigFault>>
    ensures { IsRead bytes.now result }
{
    let document = open_document(alloc, bytes, ConfigFault::TooLong, ConfigFault::NotToml)?;
    config_in(&document).map_err(ReadFault::Refused)
}

/// Returns the configuration that a document gives, or its first fault.
fn config_in(document: &Table) -> Result<Config, ConfigFault>
    ensures fault { result_err result ≡ document_fault (table_view document.now) }
    ensures values { IfOk result (IsOf (settings_of (table_view document.now))) }
{
    if has_unknown_key(document) {
        return Err(ConfigFault::UnknownKey);
    }
    let settings = settings_in(document)?;
    Config::check(&settings)
}

/// Returns whether a document has an unknown key.
fn has_unknown_key(document: &Table) -> bool
    ensures { result ≡ has_unknown_key (table_view document.now) }
{
    any_member(document, |key, _value| !is_known(key))
}

/// Returns whether this is the name of a key.
fn is_known(name: &str) -> bool
    ensures { result ≡ is_known name.now }
{
    Key::ALL.iter().any(|key| key.name() == name)
}

/// Returns the settings that a document gives, with the defaults filled in, or the fault of the first key that has one.
fn settings_in(document: &Table) -> Result<Settings, ConfigFault>
    ensures fault { result_err result ≡ first_some (keys_faults (table_view document.now)) }
    ensures values { IfOk result (λ s. s ≡ settings_of (table_view document.now)) }
    ensures ranges { IfOk result (λ s. first_outside File s ≡ None) }
{
    Ok(Settings {
        pages: number_at(document, Key::Pages)?,
        mutators: number_at(document, Key::Mutators)?,
        slots: number_at(document, Key::Slots)?,
        statics: number_at(document, Key::Statics)?,
        identities: number_at(document, Key::Identities)?,
        defrag_below: number_at(document, Key::DefragBelow)?,
        defrag_pages: number_at(document, Key::DefragPages)?,
        collector_ticks: number_at(document, Key::CollectorTicks)?,
        mutator_ticks: number_at(document, Key::MutatorTicks)?,
        rate: number_at(document, Key::Rate)?,
        live: number_at(document, Key::Live)?,
    })
}

/// Returns the number of mutators that a document has, or 0 if it has none.
fn mutators_in(document: &Table) -> i64
    ensures { result ≡ mutators_of (table_view document.now) }
{
    match document.get(Key::Mutators.name()) {
        Some(value) => value.as_integer().unwrap_or(0),
        None => 0,
    }
}

/// Returns the number that a document has for a key, or else the key's default.
fn number_at(document: &Table, key: Key) -> Result<i64, ConfigFault>
    ensures fault { result_err result ≡ key_fault (table_view document.now) key }
    ensures value { IfOk result (λ n. n ≡ number_for (table_view document.now) key) }
    ensures within { HasRange (table_view document.now) key
        → IfOk result (λ n. is_allowed File (mutators_of (table_view document.now)) key n ≡ true) }
{
    let mutators = mutators_in(document);
    let Some(value) = document.get(key.name()) else {
        return key
            .row(Ranges::File, mutators)
            .default
            .ok_or(ConfigFault::Missing(key));
    };
    match value.as_integer() {
        Some(number) if key.allows(Ranges::File, mutators, number) => Ok(number),
        Some(_) => Err(ConfigFault::OutOfRange(key)),
        None => Err(ConfigFault::NotWhole(key)),
    }
}
