//! The blocks that an object needs, by class.
ghost use Rattle.std.specs.Prelude.{◌≡◌, ◌+◌, ◌*◌, ◌<◌, ◌≤◌, ◌^◌, ℕ, replicate, slice_index};
ghost use Rattle.size_classes.specs.Need.{blocks_needed, counts_at};
ghost use Rattle.size_classes.specs.Parts.{parts_in};

use crate::class::{CLASSES, Class, class_of};
use crate::parts::Parts;
use std::marker::Model;

/// How many blocks of each class an object needs. Contracts see the list of these numbers, by class.
#[derive(Clone, Copy, Debug, PartialEq, Eq)]
pub struct Need {
    blocks: [u32; CLASSES],
}

impl Model for Need {
    ghost use Rattle.std.specs.Prelude.{List, ℕ};

    ghost Value = { List ℕ };

    ghost view = { λ n. n.blocks };

    ghost inverse = { λ l. record { blocks = l } };
}

impl Need {
    /// Returns the need of no block.
    fn none() -> Need
        ensures { result ≡ replicate CLASSES 0 }
    {
        Need {
            blocks: [0; CLASSES],
        }
    }

    /// Adds `count` blocks of this many words each.
    fn add(&mut self, words: u32, count: u32)
        requires words { words ≤ 256 }
        requires few { (class : ℕ) → class < CLASSES → slice_index self.old class + count < 2 ^ 32 }
        ensures { (class : ℕ) → class < CLASSES
            → slice_index self.new class ≡ slice_index self.old class + count * counts_at words class }
    {
        let class = class_of(words).unwrap();
        self.blocks[class.number()] += count;
    }

    /// Returns the need of the parts of an object, one block for each. All pieces and middle spines have 256 words,
    /// except the last of each kind.
    pub fn from_parts(parts: &Parts) -> Need
        ensures { (class : ℕ) → class < CLASSES
            → slice_index result class ≡ blocks_needed parts.now (parts_in parts.now) class }
    {
        let spines = parts.spines();
        let pieces = parts.pieces();
        let mut need = Need::none();
        need.add(256, pieces - 1 + spines.saturating_sub(2));
        need.add(parts.words(spines + pieces - 1), 1);
        need.add(parts.words(0), spines.min(1));
        let last_spine = spines.saturating_sub(1);
        need.add(parts.words(last_spine), last_spine.min(1));
        need
    }

    /// Returns the number of needed blocks of a class.
    pub fn blocks(&self, class: Class) -> u32
        ensures { result ≡ slice_index self.now class }
    {
        self.blocks[class.number()]
    }
}
