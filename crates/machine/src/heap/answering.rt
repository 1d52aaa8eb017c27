//! The reply to a command, without doing it.
ghost use Rattle.std.specs.Prelude.{◌≡◌, ◌<◌};
ghost use Rattle.graph_heap.specs.Graph.{Graph};
ghost use Rattle.graph_heap.specs.Effect.{reply_of};
ghost use Rattle.heap_model.specs.Agreement.{Agrees};
ghost use Rattle.heap_model.specs.Event.{room_for};
ghost use Rattle.machine.specs.Plan.{IsPlan};

use super::planning::Plan;
use super::{Heap, planning};
use crate::plan::reply_to;
use graph_heap::{Command, Reply, dispatch};

impl Heap {
    /// Returns the reply that `step` would return for a command of a mutator. The heap stays as it is.
    pub fn answer(&self, mutator: u32, command: &Command) -> Reply
        ensures { (g : Graph) → Agrees self.now g
            → result ≡ reply_of (room_for self.now command.now) g mutator command.now }
    {
        match self.fields.roots.admit(mutator, command.is_join()) {
            Ok(()) => reply_to(self.plan(mutator, *command)),
            Err(refusal) => Reply::Refused(refusal),
        }
    }

    /// Returns the plan of a command, if the mutator is admitted.
    fn plan(&self, mutator: u32, command: Command) -> Plan
        requires { mutator < self.now.limits.mutators }
        ensures { IsPlan self.now mutator command result }
    {
        dispatch!(planning, self, mutator, command)
    }
}
