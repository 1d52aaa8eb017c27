//! The past of a heap, for proofs alone.
ghost use Rattle.std.specs.Prelude.{◌≡◌, []};
ghost use Rattle.paced.specs.Logged.{event_of};
ghost use Rattle.heap_shared.specs.Past.{PastView, with_event};

use crate::deed::Happened;
use ghosts::Ghost;
use paced::Logged;
use std::marker::Model;

/// The events that led to a heap, and the place of its history at which the last cycle began. No value is ever made: the type
/// is for proofs alone.
#[derive(Drop)]
pub struct Past {
    events: Vec<Happened>,
    place: u64,
}

impl Model for Past {
    ghost use Rattle.heap_shared.specs.Past.{PastView};

    ghost Value = { PastView };

    ghost view = { λ p. record { events = p.events.items; place = p.place } };
}

/// Returns the past of a new heap: nothing was done yet.
pub(crate) fn no_past() -> Ghost<Past>
    ensures { result.value ≡ record { events = []; place = 0 } }
{
    Ghost::new()
}

/// Returns this past with one more event.
#[inline(always)]
pub(crate) fn went_on(past: &Ghost<Past>, _event: Logged) -> Ghost<Past>
    ghost after: { PastView }
    requires { after ≡ with_event past.now.value (event_of _event) }
    ensures { result.value ≡ with_event past.now.value (event_of _event) }
{
    Ghost::new()
}
