//! Playing a trace with an observer.
ghost use Rattle.std.specs.Prelude.{◌≡◌, ◌+◌};
ghost use Rattle.trace.specs.LinesProcessed.{reads_failed};
ghost use Rattle.trace.specs.Streams.{Stays, given_by};
ghost use Rattle.trace.specs.Observing.{run_from, IsObserved, TextObserved, RunObserved};

use crate::player::line::{do_line, is_event};
use crate::player::observed::Observed;
use crate::player::observer::Observer;
use crate::{InputEnd, LineHandler, PlayFault, Source, TextLine, each_line, read_numbered};

impl<O: Observer + Drop> LineHandler for Observed<O> {
    ghost is_ready = { IsObserved O.has_seen };

    ghost handles = { TextObserved O.has_seen };

    fn handle(&mut self, text: TextLine) -> Result<(), PlayFault> {
        let Some(line) = read_numbered(text)? else {
            return Ok(());
        };
        do_line(line, text.number, &mut self.player, &mut self.observer)?;
        if is_event(line) {
            self.observer
                .line_done(text.number, self.player.recorded())?;
        }
        Ok(())
    }
}

/// Plays the lines of a source, one after the other, and writes nothing. It reports each event to the observer: a
/// command and a quantum after it was done, also each quantum that is due in ticks; a line `begin` before it is done.
/// Then it reports the end of each line that is an event's. A fault is one with which playing the lines ends, or
/// memory was refused to the play or to the observer.
pub fn observe<S: Source, O: Observer + Drop>(
    source: &mut S,
    run: &mut Observed<O>,
) -> Result<InputEnd, PlayFault>
    requires { O.has_seen (run_from run.old.player.course) run.old.observer }
    ensures observed { RunObserved O.has_seen (given_by S.given S.ended source.old source.new) run.old run.new result }
    ensures reads { S.failures source.new ≡ S.failures source.old + reads_failed result }
    ensures input { reads_failed result ≡ 0 → Stays (S.input source.old) (S.input source.new) }
{
    each_line(source, run)
}
