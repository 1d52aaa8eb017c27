//! Laws of the schedule's constants. Each function does nothing: its contract is the law.
ghost use Rattle.std.specs.Prelude.{◌≡◌, ◌^◌};
ghost use Rattle.quanta.specs.declared.schedule.TheConstants.{CLOCK_LIMIT};

/// The clock's greatest time: 2 to the power of 40.
pub fn clock_is_bounded()
    ensures { CLOCK_LIMIT ≡ 2 ^ 40 }
{}
