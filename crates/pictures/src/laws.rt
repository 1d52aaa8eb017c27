//! Laws of the constants of a run's data. Each function does nothing: its contract is the law.
ghost use Rattle.std.specs.Prelude.{◌≡◌};
ghost use Rattle.pictures.specs.declared.sample.TheConstants.{MOST_SAMPLES};
ghost use Rattle.pictures.specs.declared.share.TheConstants.{WINDOWS};
ghost use Rattle.pictures.specs.Utilisation.{round_numbers};

/// The most samples of a run.
pub fn samples_are_few()
    ensures { MOST_SAMPLES ≡ 4096 }
{}

/// The lengths of windows: 13 powers of ten, and two and five times these, in rising order.
pub fn windows_are_round()
    ensures { WINDOWS ≡ round_numbers 1 13 }
{}
