//! The collector's work, and pages that are touched before it, by a member in its turn.
ghost use Rattle.std.specs.Prelude.{◌≡◌};
ghost use Rattle.std.specs.Option.{option_map};
ghost use Rattle.machine.specs.Recorded.{begin_done, quantum_done};
ghost use Rattle.heap_shared.specs.Members.{DoesInTurn, PreparesIn, ChangesIn};
ghost use Rattle.heap_shared.specs.Ring.{TouchesBy, figures_of};

use super::Member;
use crate::fault::NotPrepared;
use machine::{BudgetOutOfRange, Busy, Spent};

impl Member {
    /// Begins a cycle of the collector in the turn, unless one is running.
    pub fn begin(&mut self) -> Option<Result<(), Busy>>
        ensures does { DoesInTurn begin_done self.old result self.new }
        ensures figures { option_map figures_of self.new.turn ≡ option_map figures_of self.old.turn }
    {
        if !self.inside {
            return None;
        }
        Some(self.seat.slot_mut(&self.table.shared, 0).begin())
    }

    /// Spends units of a budget, in the turn, on the cycle that is running.
    pub fn quantum(&mut self, budget: u32) -> Option<Result<Spent, BudgetOutOfRange>>
        ensures does { DoesInTurn (quantum_done budget) self.old result self.new }
        ensures figures { option_map figures_of self.new.turn ≡ option_map figures_of self.old.turn }
    {
        if !self.inside {
            return None;
        }
        Some(self.seat.slot_mut(&self.table.shared, 0).quantum(budget))
    }

    /// Has the collector do at most one piece of the work that the plan requires for `words` words, in the turn. Returns how many
    /// are left.
    pub fn prepare(&mut self, words: u64) -> Result<u64, NotPrepared>
        ensures { PreparesIn self.old words result self.new }
    {
        if !self.inside {
            return Err(NotPrepared::Outside);
        }
        self.seat.slot_mut(&self.table.shared, 0).prepare(words)
    }

    /// Touches the first `pages` pages, or all if there are fewer, in the turn, if no event was done yet. Returns whether it was
    /// so.
    pub fn touch(&mut self, pages: usize) -> Option<bool>
        ensures { ChangesIn (TouchesBy pages) self.old result self.new }
    {
        if !self.inside {
            return None;
        }
        Some(self.seat.slot_mut(&self.table.shared, 0).touch(pages))
    }
}
