//! Reads the configuration file, a document in TOML.
#![tactic(auto)]

mod config_file;
mod toml_table;

pub use config_file::read_config;
pub use toml_table::{ReadFault, open_document};
