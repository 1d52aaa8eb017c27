//! Plays a trace, or runs scripts on threads, from a source to a sink. A job ends in a failed read or write exactly if
//! one failed.
ghost use Rattle.std.specs.Prelude.{◌≡◌, ◌+◌, ◌≤◌, ◌++◌, map, replicate, vec_len, IfOk, OnOk, OnErr};
ghost use Rattle.heap_model.specs.Settings.{settings_by};
ghost use Rattle.trace.specs.Streams.{failed, GrowsByPart, given_by, taken_by, Stays};
ghost use Rattle.trace.specs.declared.player.style.Style.TheVariants.{Entries};
ghost use Rattle.trace.specs.Playing.{written_of, written_version, text_written};
ghost use Rattle.heap_server.specs.Played.{IsOutcome};
ghost use Rattle.program.specs.Faults.{failed_reads, failed_writes};
ghost use Rattle.program.specs.Jobs.{TracePlayed, ScriptsRun, finish};

use crate::fault::{Ending, RunFault};
use graph_heap::{Command, Entry, NoMemory};
use heap_server::{OpenGate, Outcome, play_threads};
use size_classes::Config;
use std::alloc::Global;
use std::sync::Wait;
use std::thread::Threads;
use trace::transcripts::read_scripts;
use trace::{
    Player, Sink, Source, Style, Version, WriteFailed, end_line, play, put, version_line,
    write_entry,
};

/// Plays a trace on a new player, and writes each command in a style.
pub fn play_job<S: Source, K: Sink>(
    alloc: Global,
    config: &Config,
    source: &mut S,
    sink: &mut K,
    style: Style,
) -> Result<Ending, RunFault>
    ensures done { TracePlayed style config.now (given_by S.given S.ended source.old source.new)
        (taken_by K.taken K.sent sink.old sink.new) result }
    ensures reads { S.failures source.new ≡ S.failures source.old + failed_reads result }
    ensures input { failed_reads result ≡ 0 → Stays (S.input source.old) (S.input source.new) }
    ensures writes { K.failures sink.new ≡ K.failures sink.old + failed_writes result }
{
    let mut player = Player::new(alloc, config)?;
    play(source, sink, &mut player, style)?;
    Ok(Ending::Done)
}

/// Returns a list with `turns` times the same budget.
fn budgets_of(alloc: Global, turns: u32, budget: u32) -> Result<Vec<u32>, NoMemory>
    ensures { IfOk result (λ budgets. budgets.items ≡ replicate turns budget) }
{
    let mut budgets = Vec::with_capacity(alloc, turns as usize)?;
    for _ in 0..turns {
        budgets.push(budget)?;
    }
    Ok(budgets)
}

/// Runs scripts on threads beside `turns` quanta of a budget.
fn run_scripts<T: Threads + Wait + Sync>(
    rt: &T,
    alloc: Global,
    config: &Config,
    scripts: Vec<Vec<Command>>,
    turns: u32,
    budget: u32,
) -> Result<Outcome, NoMemory>
    requires { vec_len scripts ≤ config.now.mutators }
    ensures { IfOk result (IsOutcome (settings_by config.now) (map (λ s. s.items) scripts.items)
        (replicate turns budget)) }
{
    let budgets = budgets_of(alloc, turns, budget)?;
    play_threads(rt, alloc, config, scripts, budgets, &OpenGate)
}

/// Reads scripts, runs them on threads beside `turns` quanta of a budget, and writes the history.
pub fn threads_job<S: Source, K: Sink, T: Threads + Wait + Sync>(
    rt: &T,
    alloc: Global,
    config: &Config,
    source: &mut S,
    sink: &mut K,
    turns: u32,
    budget: u32,
) -> Result<Ending, RunFault>
    ensures done { ScriptsRun turns budget config.now (given_by S.given S.ended source.old source.new)
        (taken_by K.taken K.sent sink.old sink.new) result }
    ensures reads { S.failures source.new ≡ S.failures source.old + failed_reads result }
    ensures input { failed_reads result ≡ 0 → Stays (S.input source.old) (S.input source.new) }
    ensures writes { K.failures sink.new ≡ K.failures sink.old + failed_writes result }
{
    let (version, scripts) = read_scripts(alloc, source, config)?;
    let outcome = run_scripts(rt, alloc, config, scripts, turns, budget)?;
    write_history(sink, version, outcome.recorded.history())?;
    finished(outcome.all)
}

/// Returns how a run ends: done if all scripts and budgets were done, else not complete.
fn finished(all: bool) -> Result<Ending, RunFault>
    ensures { result ≡ finish all }
{
    if all {
        Ok(Ending::Done)
    } else {
        Err(RunFault::NotComplete)
    }
}

/// Writes a history: the line of its version, if it has one, and a line for each entry.
fn write_history<K: Sink>(
    sink: &mut K,
    version: Version,
    history: &[Entry],
) -> Result<(), WriteFailed>
    ensures ok { OnOk result (K.taken sink.new ≡ K.taken sink.old ++ text_written Entries version history.now) }
    ensures err { OnErr result (GrowsByPart (K.taken sink.old) (K.taken sink.new)
        (text_written Entries version history.now)) }
    ensures cause { K.failures sink.new ≡ K.failures sink.old + failed result }
{
    write_version(sink, version)?;
    write_entries(sink, history)
}

/// Writes the line that names the second version; the first version has no line.
fn write_version<K: Sink>(sink: &mut K, version: Version) -> Result<(), WriteFailed>
    ensures ok { OnOk result (K.taken sink.new ≡ K.taken sink.old ++ written_version version Entries) }
    ensures err { OnErr result (GrowsByPart (K.taken sink.old) (K.taken sink.new) (written_version version Entries)) }
    ensures cause { K.failures sink.new ≡ K.failures sink.old + failed result }
{
    match version {
        Version::First => Ok(()),
        Version::Second => {
            let mut out = [0; 256];
            let end = put(out.as_mut_slice(), 0, version_line());
            end_line(sink, &mut out, end)
        }
    }
}

/// Writes a line for each entry.
fn write_entries<K: Sink>(sink: &mut K, history: &[Entry]) -> Result<(), WriteFailed>
    ensures ok { OnOk result (K.taken sink.new ≡ K.taken sink.old ++ written_of Entries history.now) }
    ensures err { OnErr result (GrowsByPart (K.taken sink.old) (K.taken sink.new) (written_of Entries history.now)) }
    ensures cause { K.failures sink.new ≡ K.failures sink.old + failed result }
{
    for entry in history {
        let mut out = [0; 256];
        let end = write_entry(entry, &mut out);
        end_line(sink, &mut out, end)?;
    }
    Ok(())
}
