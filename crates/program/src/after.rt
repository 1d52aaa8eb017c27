//! Reports on a player after a trace.
ghost use Rattle.std.specs.Prelude.{◌≡◌, ◌+◌, IfOk};
ghost use Rattle.heap_model.specs.Settings.{settings_of, settings_by};
ghost use Rattle.trace.specs.Streams.{given_by, taken_by, Stays};
ghost use Rattle.program.specs.Faults.{failed_reads, failed_writes};
ghost use Rattle.program.specs.After.{PlayerAfter, AfterPlay};
ghost use Rattle.program.specs.Telling.{Tells};

mod events;
mod graph;
mod path;
mod report;
mod windows;

use crate::fault::{Ending, RunFault};
use command_line::Report;
use events::tell_events;
use graph::tell_graph;
use inspector::graph_after;
use path::tell_path;
use report::tell_report;
use size_classes::Config;
use std::alloc::Global;
use trace::{Player, Sink, Source, Style, play_up_to};
use windows::tell_windows;

/// A report on a player.
#[derive(Clone, Copy)]
pub enum Telling<'a> {
    /// A report of the heap.
    Report(Report),
    /// The quanta that took ticks, as events.
    Events,
    /// A picture of the reachable objects, at most this many, nearest to the roots first.
    Graph(u32),
    /// The shortest path from a root to this object. If there is none, the report says whether blocks of the object are
    /// still allocated, or that it was never made.
    Path(u64),
    /// A line for each of these windows, in ticks.
    Windows(&'a [u64]),
}

/// Plays a trace, or its first `after` event lines, on a new player, and returns the player. Writes nothing.
fn player_after<S: Source, K: Sink>(
    alloc: Global,
    config: &Config,
    source: &mut S,
    sink: &mut K,
    after: Option<u32>,
) -> Result<Player, RunFault>
    ensures play { PlayerAfter after config.now (given_by S.given S.ended source.old source.new)
        (taken_by K.taken K.sent sink.old sink.new) result }
    ensures settings { IfOk result (λ player. settings_of player.course.heap ≡ settings_by config.now) }
    ensures reads { S.failures source.new ≡ S.failures source.old + failed_reads result }
    ensures input { failed_reads result ≡ 0 → Stays (S.input source.old) (S.input source.new) }
    ensures writes { K.failures sink.new ≡ K.failures sink.old + failed_writes result }
{
    let mut player = Player::new(alloc, config)?;
    play_up_to(after, source, sink, &mut player, Style::Nothing)?;
    Ok(player)
}

/// Writes a report on a player.
fn tell<K: Sink>(
    alloc: Global,
    config: &Config,
    player: &Player,
    telling: Telling,
    sink: &mut K,
) -> Result<Ending, RunFault>
    requires { settings_of player.now.course.heap ≡ settings_by config.now }
    ensures told { Tells telling.entry config.now player.now (taken_by K.taken K.sent sink.old sink.new) result }
    ensures reads { failed_reads result ≡ 0 }
    ensures writes { K.failures sink.new ≡ K.failures sink.old + failed_writes result }
{
    match telling {
        Telling::Report(by) => tell_report(alloc, config, player, by, sink),
        Telling::Events => tell_events(player, sink),
        Telling::Graph(most) => {
            let graph = graph_after(alloc, config, player)?;
            tell_graph(alloc, &graph, most, sink)
        }
        Telling::Path(id) => {
            let graph = graph_after(alloc, config, player)?;
            tell_path(alloc, player.recorded().heap(), &graph, id, sink)
        }
        Telling::Windows(windows) => tell_windows(alloc, config, player, windows, sink),
    }
}

/// Plays a trace, or its first `after` event lines, on a new player, and then writes a report on the player.
pub fn after_play<S: Source, K: Sink>(
    alloc: Global,
    config: &Config,
    source: &mut S,
    sink: &mut K,
    after: Option<u32>,
    telling: Telling,
) -> Result<Ending, RunFault>
    ensures done { AfterPlay (Tells telling.entry config.now) after config.now
        (given_by S.given S.ended source.old source.new) (taken_by K.taken K.sent sink.old sink.new) result }
    ensures reads { S.failures source.new ≡ S.failures source.old + failed_reads result }
    ensures input { failed_reads result ≡ 0 → Stays (S.input source.old) (S.input source.new) }
    ensures writes { K.failures sink.new ≡ K.failures sink.old + failed_writes result }
{
    let player = player_after(alloc, config, source, sink, after)?;
    tell(alloc, config, &player, telling, sink)
}
