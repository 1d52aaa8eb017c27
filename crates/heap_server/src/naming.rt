//! The ledgers of a server: their names, and how they are opened.
ghost use Rattle.std.specs.Prelude.{◌≡◌};

use crate::place::Opened;
use size_classes::Config;
use std::marker::{Brand, PhantomData};
use std::sync::ledger::{Blank, Ledger};

/// Which server it is: its names. Each call of a program picks them.
pub trait Naming {
    ghost use Rattle.heap_server.specs.Names.{Names};

    ghost names: { Names };
}

impl Naming for Brand {
    ghost names = { record {
      settings =
          record {
            limits = record { mutators = 1; slots = 1; statics = 0; identities = 1; live = 1 };
            pages = 1;
            defrag_below = 0;
            defrag_pages = 0;
          };
      calls = 0;
      begun = 0;
      ended = 0;
      quanta = 0;
      units = 0;
      book = record { number = 0; log_name = 0; cells_name = 0 };
    } };
}

/// Names the ledger of calls, which has a part for each mutator.
pub struct Calls<N: Naming> {
    of: PhantomData<N>,
}

impl<N: Naming> Ledger for Calls<N> {
    ghost name = { N.names.calls };

    ghost parts = { N.names.settings.limits.mutators };
}

/// Names the ledger of cycles begun.
pub struct Begun<N: Naming> {
    of: PhantomData<N>,
}

impl<N: Naming> Ledger for Begun<N> {
    ghost name = { N.names.begun };

    ghost parts = { 1 };
}

/// Names the ledger of cycles ended.
pub struct Ended<N: Naming> {
    of: PhantomData<N>,
}

impl<N: Naming> Ledger for Ended<N> {
    ghost name = { N.names.ended };

    ghost parts = { 1 };
}

/// Names the ledger of quanta done.
pub struct Quanta<N: Naming> {
    of: PhantomData<N>,
}

impl<N: Naming> Ledger for Quanta<N> {
    ghost name = { N.names.quanta };

    ghost parts = { 1 };
}

/// Names the ledger of units spent.
pub struct Units<N: Naming> {
    of: PhantomData<N>,
}

impl<N: Naming> Ledger for Units<N> {
    ghost name = { N.names.units };

    ghost parts = { 1 };
}

/// The parts of a new server: the configuration of its heap, and ledgers and a place word that have no name yet.
#[derive(Drop)]
pub struct Opening {
    pub config: Config,
    pub calls: Blank,
    pub begun: Blank,
    pub ended: Blank,
    pub quanta: Blank,
    pub units: Blank,
    pub place: Opened,
    ghost calls_parts: { calls.parts ≡ config.mutators },
    ghost begun_parts: { begun.parts ≡ 1 },
    ghost ended_parts: { ended.parts ≡ 1 },
    ghost quanta_parts: { quanta.parts ≡ 1 },
    ghost units_parts: { units.parts ≡ 1 },
}

impl Opening {
    /// Makes blank ledgers and a blank place word for a heap of this configuration.
    pub fn new(config: &Config) -> Opening
        ensures { result.config ≡ config.now }
    {
        Opening {
            config: *config,
            calls: Blank::new(u64::from(config.mutators)),
            begun: Blank::new(1),
            ended: Blank::new(1),
            quanta: Blank::new(1),
            units: Blank::new(1),
            place: Opened::new(),
        }
    }
}
