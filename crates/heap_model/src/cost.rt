//! The costs of the collector's actions, in units. A move costs the words of its block.

/// A scan: of a root cell, of the header of a part, or of a reference cell.
pub const SCAN: u32 = 1;

/// A look: at a block in a sweep, or at a page in a pass.
pub const LOOK: u32 = 1;

/// To close a page whose blocks are swept.
pub const CLOSE: u32 = 1;

/// The turn from roots to marking, from marking to sweeping, out of a sweep, or from moving to idle.
pub const TURN: u32 = 1;
