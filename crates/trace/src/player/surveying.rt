//! Surveys of a whole run.
ghost use Rattle.std.specs.Prelude.{◌≡◌, ◌+◌, length, IfOk};
ghost use Rattle.size_classes.specs.declared.config.Config.{Config};
ghost use Rattle.trace.specs.LinesProcessed.{reads_failed};
ghost use Rattle.trace.specs.Streams.{Given, Stays, given_by};
ghost use Rattle.trace.specs.New.{IsNew};
ghost use Rattle.trace.specs.Observing.{Run, run_from, run_by};
ghost use Rattle.trace.specs.Surveying.{NewRun, Surveyed};

use crate::player::Player;
use crate::player::observed::Observed;
use crate::player::observer::Observer;
use crate::player::observing::observe;
use crate::{PlayFault, Source};
use graph_heap::NoMemory;
use size_classes::Config;
use std::alloc::Global;

/// An observer of a whole run, from a new player to the end of the input. At the end it returns its findings.
pub trait Survey: Observer + Drop + Sized {
    /// The findings.
    type Findings;

    /// The meaning of the findings for a run.
    ghost tells: { (config : Config) (given : Given) → NewRun config given → Self.Findings → Type 0 };

    /// Returns an observer of a new player of a configuration.
    fn start(alloc: Global, config: &Config, player: &Player) -> Result<Self, NoMemory>
        requires { IsNew config.now player.now }
        ensures { IfOk result (Self.has_seen (run_from player.now.course)) };

    /// Returns the findings about the run that led to a player, of an input of this many lines.
    fn finish(self, player: &Player, lines: u64) -> Result<Self::Findings, NoMemory>
        requires { (run : Run) × Self.has_seen run self }
        ensures { IfOk result (λ findings. (config : Config) (given : Given) (run : NewRun config given)
            → run.new.player.course ≡ player.now.course → length run.played.over.lines ≡ lines
            → Self.has_seen (run_by run.played) self → tells config given run findings) };
}

/// Plays the lines of a trace on a new heap of a configuration, one after the other, and writes nothing. Returns the
/// survey's findings about the run. A fault is one with which playing the trace ends, or memory was refused to the
/// play or to the survey.
pub fn survey_run<O: Survey, S: Source>(
    alloc: Global,
    config: &Config,
    source: &mut S,
) -> Result<O::Findings, PlayFault>
    ensures surveyed { Surveyed O.tells config.now (given_by S.given S.ended source.old source.new) result }
    ensures reads { S.failures source.new ≡ S.failures source.old + reads_failed result }
    ensures input { reads_failed result ≡ 0 → Stays (S.input source.old) (S.input source.new) }
{
    let player = Player::new(alloc, config)?;
    let observer = O::start(alloc, config, &player)?;
    let mut run = Observed { player, observer };
    let end = observe(source, &mut run)?;
    Ok(run.observer.finish(&run.player, end.lines)?)
}
