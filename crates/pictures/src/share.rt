//! The mutators' shares of windows.
ghost use Rattle.std.specs.Prelude.{◌≤◌};

/// The lengths of the windows, in ticks: powers of ten, twice and five times these. No span of a schedule is as long as
/// the last two.
pub const WINDOWS: [u64; 39] = [
    1,
    2,
    5,
    10,
    20,
    50,
    100,
    200,
    500,
    1000,
    2000,
    5000,
    10000,
    20000,
    50000,
    100000,
    200000,
    500000,
    1000000,
    2000000,
    5000000,
    10000000,
    20000000,
    50000000,
    100000000,
    200000000,
    500000000,
    1000000000,
    2000000000,
    5000000000,
    10000000000,
    20000000000,
    50000000000,
    100000000000,
    200000000000,
    500000000000,
    1000000000000,
    2000000000000,
    5000000000000,
];

/// The mutators' shares of a window, in thousandths, rounded down.
#[derive(Clone, Copy, Debug, PartialEq, Eq)]
pub struct Share {
    /// How many ticks the window has.
    pub window: u64,
    /// The least share that they had of any window of that many ticks.
    pub measured: u64,
    /// The share that the schedule promises them.
    pub promised: u64,
    ghost measured_part: { measured ≤ 1000 },
    ghost promised_part: { promised ≤ 1000 },
}
