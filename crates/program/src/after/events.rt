//! Writes the events of a player.
ghost use Rattle.std.specs.Prelude.{◌≡◌, ◌+◌};
ghost use Rattle.trace.specs.Streams.{taken_by};
ghost use Rattle.pictures.specs.Events.{events_picture};
ghost use Rattle.program.specs.declared.fault.Ending.TheVariants.{Done};
ghost use Rattle.program.specs.Told.{TextWritten};
ghost use Rattle.program.specs.Faults.{failed_reads, failed_writes};

use crate::fault::{Ending, RunFault};
use crate::told::ended;
use pictures::draw_events;
use trace::{Player, Sink};

/// Writes the quanta of a player that took ticks, as events.
pub(crate) fn tell_events<K: Sink>(player: &Player, sink: &mut K) -> Result<Ending, RunFault>
    ensures told { TextWritten Done (events_picture player.now) (taken_by K.taken K.sent sink.old sink.new) result }
    ensures reads { failed_reads result ≡ 0 }
    ensures writes { K.failures sink.new ≡ K.failures sink.old + failed_writes result }
{
    ended(draw_events(player, sink))
}
