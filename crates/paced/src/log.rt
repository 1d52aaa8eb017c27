//! Logs of the events of a heap.
ghost use Rattle.heap_model.specs.Event.{Event};
ghost use Rattle.paced.specs.Logged.{event_of};

use crate::logged::Logged;

/// A log of the events of a heap.
pub trait Log {
    ghost enters: { Self → Event → Self → Type 0 };

    /// Enters an event that was done.
    fn enter(&mut self, event: Logged)
        ensures { enters self.old (event_of event) self.new };
}

/// A log that keeps nothing.
#[derive(Drop)]
pub struct NoLog;

impl Log for NoLog {
    ghost enters = { λ _ _ _. Unit {0} };

    #[inline(always)]
    fn enter(&mut self, _event: Logged) {}
}
