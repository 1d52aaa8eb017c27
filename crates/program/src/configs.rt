//! Reads the configurations of a run.
ghost use Rattle.std.specs.Prelude.{Ok, IfOk, IfErr, IfSome};
ghost use Rattle.documents.specs.ConfigFile.{IsRead};
ghost use Rattle.program.specs.Configs.{AreConfigs, AreNotRead, IsNotRead};

use crate::fault::RunFault;
use crate::files::{Opener, read_document};
use crate::notes::Notes;
use command_line::Words;
use documents::read_config;
use size_classes::Config;
use std::alloc::Global;

/// A configuration, and the name of its file.
#[derive(Clone, Copy)]
pub struct NamedConfig<'a> {
    pub name: &'a str,
    pub config: Config,
}

/// The configurations of a run: its own, and the one on which it is compared, if the words name one.
#[derive(Clone, Copy)]
pub struct Configs<'a> {
    pub config: Config,
    pub compare: Option<NamedConfig<'a>>,
}

/// Reads a configuration from the file of this name, and notes its bytes.
fn read_one<O: Opener>(
    alloc: Global,
    opener: &O,
    name: &str,
    notes: &mut Notes,
) -> Result<Config, RunFault>
    ensures ok { IfOk result (λ config. IfSome (O.known opener.now name.now).bytes (λ all. IsRead all (Ok config))) }
    ensures err { IfErr result (IsNotRead (O.known opener.now name.now)) }
{
    let bytes = read_document(alloc, opener, name, notes)?;
    let read = read_config(alloc, bytes.as_slice());
    notes.keep_document(bytes);
    let config = read?;
    Ok(config)
}

/// Reads the configurations that words name, and notes how far it came.
pub fn read_configs<'a, O: Opener>(
    alloc: Global,
    opener: &O,
    words: Words<'a>,
    notes: &mut Notes,
) -> Result<Configs<'a>, RunFault>
    ensures ok { IfOk result (AreConfigs (O.known opener.now) words.entry) }
    ensures err { IfErr result (AreNotRead (O.known opener.now) words.entry) }
{
    let config = read_one(alloc, opener, words.config, notes)?;
    notes.config = Some(config);
    let mut compare = None;
    if let Some(name) = words.compare {
        let other = read_one(alloc, opener, name, notes)?;
        compare = Some(NamedConfig {
            name,
            config: other,
        });
    }
    notes.are_configs_read = true;
    Ok(Configs { config, compare })
}
