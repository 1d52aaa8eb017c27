//! Figures of the collector's work for a pacer.
ghost use Rattle.std.specs.Prelude.{◌≡◌, ◌+◌, max};
ghost use Rattle.paced.specs.Cycles.{saturated};

/// The work that the collector did because a pacer required it, since the pacer was made. Work that a program asked for itself
/// isn't counted. A figure that has reached the most that it can hold stays there.
#[derive(Clone, Copy, Debug, PartialEq, Eq)]
pub struct Figures {
    /// Quanta that were spent.
    pub quanta: u64,
    /// Cycles that were begun.
    pub cycles: u64,
    /// The most quanta that were spent before one command.
    pub most_quanta: u64,
}

impl Figures {
    /// The figures before any work is done.
    pub(crate) const NONE: Figures = Figures {
        quanta: 0,
        cycles: 0,
        most_quanta: 0,
    };

    /// Returns the figures with this many quanta and beginnings before one more command.
    pub(crate) fn with_work(&self, quanta: u64, cycles: u64) -> Figures
        ensures { result ≡ record {
          quanta = saturated (self.now.quanta + quanta);
          cycles = saturated (self.now.cycles + cycles);
          most_quanta = max self.now.most_quanta quanta;
        } }
    {
        Figures {
            quanta: self.quanta.saturating_add(quanta),
            cycles: self.cycles.saturating_add(cycles),
            most_quanta: self.most_quanta.max(quanta),
        }
    }
}
