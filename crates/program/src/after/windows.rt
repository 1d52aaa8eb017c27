//! Writes a line for each window.
ghost use Rattle.std.specs.Prelude.{◌≡◌, ◌+◌, IfOk, IfErr, OnOk, string_bytes};
ghost use Rattle.trace.specs.Streams.{taken_by};
ghost use Rattle.program.specs.Faults.{failed_reads, failed_writes};
ghost use Rattle.program.specs.Telling.{WindowsTold};
ghost use Rattle.program.specs.Windows.{IsWindowLine, AllTold, FirstTold};

use crate::fault::{Ending, RunFault};
use graph_heap::NoMemory;
use mmu_report::{bound, least_mutator, permille};
use quanta::Schedule;
use size_classes::Config;
use std::alloc::Global;
use trace::{Player, Sink, write_all};

/// Writes a line for each window of a player's schedule.
pub(crate) fn tell_windows<K: Sink>(
    alloc: Global,
    config: &Config,
    player: &Player,
    windows: &[u64],
    sink: &mut K,
) -> Result<Ending, RunFault>
    ensures told { WindowsTold config.now player.now.timetable windows.now (taken_by K.taken K.sent sink.old sink.new)
        result }
    ensures reads { failed_reads result ≡ 0 }
    ensures writes { K.failures sink.new ≡ K.failures sink.old + failed_writes result }
{
    write_windows(alloc, config, player.schedule(), sink, windows)?;
    Ok(Ending::Done)
}

/// Writes a line for each window.
fn write_windows<K: Sink>(
    alloc: Global,
    config: &Config,
    schedule: &Schedule,
    sink: &mut K,
    windows: &[u64],
) -> Result<(), RunFault>
    ensures ok { OnOk result (AllTold config.now schedule.now windows.now (K.taken sink.old) (K.taken sink.new)) }
    ensures err { IfErr result (λ fault. FirstTold config.now schedule.now windows.now fault (K.taken sink.old)
        (K.taken sink.new)) }
    ensures reads { failed_reads result ≡ 0 }
    ensures writes { K.failures sink.new ≡ K.failures sink.old + failed_writes result }
{
    for window in windows {
        let line = window_line(alloc, config, schedule, *window)?;
        write_all(sink, line.as_bytes())?;
    }
    Ok(())
}

/// Returns the line of a window. It has the fewest ticks that the mutators had in any such window, the ticks that the
/// schedule promises, and the fewest as a share in thousandths. It says `none`, if the window has no tick or is longer
/// than the time that has passed.
fn window_line(
    alloc: Global,
    config: &Config,
    schedule: &Schedule,
    window: u64,
) -> Result<String, NoMemory>
    ensures { IfOk result (λ line. IsWindowLine config.now schedule.now window (string_bytes line)) }
{
    let Some(least) = least_mutator(schedule.intervals(), schedule.span(), window) else {
        return Ok(format!(in alloc; "window {window} none\n")?);
    };
    let bound = bound(config.collector_ticks, config.mutator_ticks, window);
    let permille = permille(least, window);
    Ok(format!(in alloc; "window {window} least {least} bound {bound} permille {permille}\n")?)
}
