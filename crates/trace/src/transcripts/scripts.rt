//! Scripts: the commands of each mutator.
ghost use Rattle.std.specs.Prelude.{◌≡◌, ◌+◌, ◌<◌, vec_len, replicate, [], IfOk, IfErr, OnOk};
ghost use Rattle.trace.specs.LinesProcessed.{reads_failed};
ghost use Rattle.trace.specs.Streams.{Stays, given_by};
ghost use Rattle.trace.specs.Spelling.{Spells};
ghost use Rattle.trace.specs.Scripts.{line_of, lists_in, one_more, IsOfScripts, ScriptLineIs, LineAdded, ScriptsRead};

use crate::{
    Line, LineFault, LineHandler, PlayFault, Source, TextLine, Version, each_line, read_line,
};
use graph_heap::{Command, NoMemory};
use size_classes::Config;
use std::alloc::Global;

/// Reads a line of scripts: a skipped line, or a command with its mutator.
fn script_line(
    version: Version,
    bytes: &[u8],
    mutators: usize,
) -> Result<Option<(u32, Command)>, LineFault>
    ensures spells { IfOk result (λ asked. Spells version bytes.now (line_of asked)) }
    ensures below { IfOk result (λ asked. IsOfScripts mutators (line_of asked)) }
    ensures refused { IfErr result (λ fault. ScriptLineIs mutators version fault bytes.now) }
{
    let Some(line) = read_line(version, bytes) else {
        return Err(LineFault::NotACommand);
    };
    match line {
        Line::Skip => Ok(None),
        Line::Command { mutator, command } => {
            if (mutator as usize) < mutators {
                Ok(Some((mutator, command)))
            } else {
                Err(LineFault::NoSuchMutator)
            }
        }
        _ => Err(LineFault::NotACommand),
    }
}

/// Puts a command after those of its mutator.
fn add(scripts: &mut Vec<Vec<Command>>, mutator: usize, command: Command) -> Result<(), NoMemory>
    requires { mutator < vec_len scripts.old }
    ensures ok { OnOk result (lists_in scripts.new ≡ one_more (lists_in scripts.old) mutator command) }
    ensures len { vec_len scripts.new ≡ vec_len scripts.old }
{
    scripts[mutator].push(command)?;
    Ok(())
}

/// The scripts of the lines so far.
#[derive(Drop)]
struct Scripts {
    lists: Vec<Vec<Command>>,
}

impl LineHandler for Scripts {
    ghost is_ready = { λ number scripts. Unit {0} };

    ghost handles = { λ text old new result. LineAdded text old.lists new.lists result };

    fn handle(&mut self, text: TextLine) -> Result<(), PlayFault> {
        if text.tells_version() {
            return Ok(());
        }
        match script_line(text.version, text.bytes, self.lists.len()) {
            Ok(None) => Ok(()),
            Ok(Some((mutator, command))) => Ok(add(&mut self.lists, mutator as usize, command)?),
            Err(fault) => Err(PlayFault::Line(text.number, fault)),
        }
    }
}

/// Returns this many empty scripts.
fn empty(alloc: Global, mutators: u32) -> Result<Vec<Vec<Command>>, NoMemory>
    ensures lists { IfOk result (λ scripts. lists_in scripts ≡ replicate mutators []) }
    ensures len { IfOk result (λ scripts. vec_len scripts ≡ mutators) }
{
    let mut scripts = Vec::with_capacity(alloc, mutators as usize)?;
    for _ in 0..mutators {
        scripts.push(Vec::new(alloc))?;
    }
    Ok(scripts)
}

/// Reads the scripts of a source's lines, to its end: their version, which the first line may tell, and for each
/// mutator its commands, in the order of their lines.
pub fn read_scripts<S: Source>(
    alloc: Global,
    source: &mut S,
    config: &Config,
) -> Result<(Version, Vec<Vec<Command>>), PlayFault>
    ensures read { ScriptsRead (given_by S.given S.ended source.old source.new) config.now.mutators result }
    ensures len { IfOk result (λ read. vec_len read.1 ≡ config.now.mutators) }
    ensures reads { S.failures source.new ≡ S.failures source.old + reads_failed result }
    ensures input { reads_failed result ≡ 0 → Stays (S.input source.old) (S.input source.new) }
{
    let mut scripts = Scripts {
        lists: empty(alloc, config.mutators)?,
    };
    let end = each_line(source, &mut scripts)?;
    Ok((end.version, scripts.lists))
}
