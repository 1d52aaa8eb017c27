//! The data of a run, in JSON.
ghost use Rattle.std.specs.Prelude.{◌≡◌, ◌+◌, IfOk, string_bytes};
ghost use Rattle.heap_model.specs.Settings.{settings_of, settings_by};
ghost use Rattle.trace.specs.LinesProcessed.{reads_failed};
ghost use Rattle.trace.specs.Streams.{given_by, Stays};
ghost use Rattle.pictures.specs.Data.{SamplesText, CyclesText, SharesText, samples_table, refused_table, quanta_table, room_text, moving_text, schedule_text, settings_text, lengths_text, counts_text, IsNoted, DataTold};

use crate::json::table;
use crate::measuring::shares;
use crate::quantum_log::QuantumLog;
use crate::refusals::{made, refusals};
use crate::run_log::RunLog;
use crate::sample::Sample;
use crate::sampler::Sampler;
use crate::tables::{pages_table, roots_table, shapes_table};
use graph_heap::NoMemory;
use inspector::{Log, graph_after};
use machine::{Heap, Recorded};
use quanta::Schedule;
use size_classes::Config;
use std::alloc::{AllocError, Global};
use trace::{Observed, PlayFault, Player, Source, observe};

/// Returns the text of the pages of a configuration and its roots.
fn room_text(alloc: Global, config: &Config) -> Result<String, AllocError>
    ensures { IfOk result (λ text. string_bytes text ≡ room_text config.now) }
{
    let (pages, mutators) = (config.pages, config.mutators);
    let (slots, statics) = (config.slots, config.statics);
    format!(in alloc;
        "\"settings\":{{\"pages\":{pages},\"mutators\":{mutators},\"slots\":{slots},\"statics\":{statics}"
    )
}

/// Returns the text of the identities of a configuration, and of when it moves.
fn moving_text(alloc: Global, config: &Config) -> Result<String, AllocError>
    ensures { IfOk result (λ text. string_bytes text ≡ moving_text config.now) }
{
    let (identities, below, emptied) = (
        config.identities,
        config.defrag_below,
        config.defrag_pages,
    );
    format!(in alloc;
        ",\"identities\":\"{identities}\",\"defrag_below\":{below},\"defrag_pages\":{emptied}"
    )
}

/// Returns the text of the schedule of a configuration, and of the mutators that are live at first.
fn schedule_text(alloc: Global, config: &Config) -> Result<String, AllocError>
    ensures { IfOk result (λ text. string_bytes text ≡ schedule_text config.now) }
{
    let (collector, mutator) = (config.collector_ticks, config.mutator_ticks);
    let (rate, live) = (config.rate, config.live);
    format!(in alloc;
        ",\"collector_ticks\":{collector},\"mutator_ticks\":{mutator},\"rate\":{rate},\"live\":{live}}},\n"
    )
}

/// Returns the text of the settings of a configuration.
fn settings_text(alloc: Global, config: &Config) -> Result<String, AllocError>
    ensures { IfOk result (λ text. string_bytes text ≡ settings_text config.now) }
{
    [
        room_text(alloc, config)?,
        moving_text(alloc, config)?,
        schedule_text(alloc, config)?,
    ]
    .concat(alloc)
}

/// Returns the text of a run's length: its lines, its commands, the objects that these made, its ticks, and the units
/// that a cycle spends at most.
fn lengths_text(
    alloc: Global,
    lines: u64,
    commands: u64,
    made: u64,
    ticks: u64,
    most: u64,
) -> Result<String, AllocError>
    ensures { IfOk result (λ text. string_bytes text ≡ lengths_text lines commands made ticks most) }
{
    format!(in alloc;
        "\"run\":{{\"lines\":{lines},\"commands\":{commands},\"made\":{made},\"ticks\":{ticks},\"cycle_limit\":{most}}},\n"
    )
}

/// Returns the text of the length of the run that led to a player, with the units that a cycle of the configuration
/// spends at most.
fn counts_text(
    alloc: Global,
    config: &Config,
    player: &Player,
    lines: u64,
) -> Result<String, AllocError>
    ensures { IfOk result (λ text. string_bytes text ≡ counts_text config.now player.now lines) }
{
    let history = player.recorded().history();
    let commands = history.len() as u64;
    let ticks = player.schedule().span();
    lengths_text(
        alloc,
        lines,
        commands,
        made(history),
        ticks,
        config.cycle_limit(),
    )
}

/// Returns the table of refusals.
fn refused_text(alloc: Global, recorded: &Recorded) -> Result<String, AllocError>
    ensures { IfOk result (λ text. string_bytes text ≡ refused_table recorded.now.course.history) }
{
    let counts = refusals(recorded.history());
    table(alloc, "\"refused\":[[\"number\",\"count\"]", &counts)
}

/// Returns the table of samples, each of as many moments as the stride says.
fn samples_table(alloc: Global, stride: u64, samples: &[Sample]) -> Result<String, AllocError>
    ensures { IfOk result (λ text. string_bytes text ≡ samples_table stride samples.now) }
{
    let head = format!(in alloc;
        "\"stride\":{stride},\n\"samples\":[[\"line\",\"least\",\"most\",\"phases\",\"blocks\",\"words\"]"
    )?;
    table(alloc, head.as_str(), samples)
}

/// Returns the table of the samples that were taken.
fn samples_text(alloc: Global, sampler: Sampler) -> Result<String, NoMemory>
    ensures { IfOk result (SamplesText sampler) }
{
    let samples = sampler.finish()?;
    Ok(samples_table(alloc, samples.stride, samples.items.as_slice())?)
}

/// Returns the table of cycles, of a run that ends at this heap.
fn cycles_text(alloc: Global, log: Log, heap: &Heap) -> Result<String, NoMemory>
    ensures { IfOk result (CyclesText log heap.now) }
{
    let cycles = log.cycles(heap)?;
    let head =
        "\"cycles\":[[\"line\",\"quanta\",\"units\",\"longest\",\"freed\",\"blocks\",\"kept\",\"moved\",\"before\",\"after\",\"made\"]";
    Ok(table(alloc, head, cycles.items.as_slice())?)
}

/// Returns the table of quanta.
fn quanta_text(alloc: Global, log: &QuantumLog) -> Result<String, AllocError>
    ensures { IfOk result (λ text. string_bytes text ≡ quanta_table log.now.items.items) }
{
    let head = "\"quanta\":[[\"commands\",\"units\",\"budget\",\"phase\"]";
    table(alloc, head, log.items.as_slice())
}

/// Returns the table of windows.
fn shares_text(alloc: Global, config: &Config, schedule: &Schedule) -> Result<String, AllocError>
    ensures { IfOk result (λ text. SharesText config.now schedule.now (string_bytes text)) }
{
    let shares = shares(alloc, config, schedule)?;
    let head = "\"windows\":[[\"ticks\",\"least\",\"promised\"]";
    table(alloc, head, shares.as_slice())
}

/// Returns the data of a run that led to a player, from this many lines, with its log.
fn run_text(
    alloc: Global,
    config: &Config,
    player: &Player,
    log: RunLog,
    lines: u64,
) -> Result<String, NoMemory>
    requires { settings_of player.now.course.heap ≡ settings_by config.now }
    ensures { IfOk result (IsNoted config.now player.now lines log) }
{
    let heap = player.recorded().heap();
    let graph = graph_after(alloc, config, player)?;
    let RunLog {
        sampler,
        cycles,
        quanta,
    } = log;
    if quanta.is_refused {
        return Err(NoMemory);
    }
    Ok([
        settings_text(alloc, config)?,
        counts_text(alloc, config, player, lines)?,
        refused_text(alloc, player.recorded())?,
        samples_text(alloc, sampler)?,
        quanta_text(alloc, &quanta)?,
        cycles_text(alloc, cycles, heap)?,
        shares_text(alloc, config, player.schedule())?,
        pages_table(alloc, heap)?,
        shapes_table(alloc, heap)?,
        roots_table(alloc, &graph)?,
    ]
    .concat(alloc)?)
}

/// Plays the lines of a trace on a new heap of a configuration, one after the other. It writes no reply, and returns the
/// data of the run: members of an object in JSON, each on lines of its own and followed by a comma.
/// The data begin with the settings, the length of the run, and how many commands were refused for each reason. Then come
/// samples of the heap, each of as many moments as the stride says; the quanta that found a cycle running; and the
/// cycles, with the figures of their report. Last come the least shares of the mutators in windows of round lengths,
/// beside the promised ones, and the pages, the shapes and the roots at the end. A fault is the one with which playing the trace
/// ends; or memory was refused.
pub fn run_data<S: Source>(
    alloc: Global,
    config: &Config,
    source: &mut S,
) -> Result<String, PlayFault>
    ensures told { DataTold config.now (given_by S.given S.ended source.old source.new) result }
    ensures reads { S.failures source.new ≡ S.failures source.old + reads_failed result }
    ensures input { reads_failed result ≡ 0 → Stays (S.input source.old) (S.input source.new) }
{
    let player = Player::new(alloc, config)?;
    let observer = RunLog::new(alloc, player.recorded());
    let mut run = Observed { player, observer };
    let end = observe(source, &mut run)?;
    let Observed { player, observer } = run;
    Ok(run_text(alloc, config, &player, observer, end.lines)?)
}
