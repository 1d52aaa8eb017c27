//! The laws of how objects are cut, the constants of sizes and of a configuration, and the order of its keys. Each
//! function does nothing: its contract is the law.
ghost use Rattle.std.specs.Prelude.{◌≡◌, ℕ, ◌+◌, ◌<◌, ◌≤◌, ◌⊎◌, [], ◌∷◌};
ghost use Rattle.graph_heap.specs.declared.command.TheConstants.{ARRAY_CELLS};
ghost use Rattle.size_classes.specs.Parts.{parts_in, spines_of, run_of, part_in, column_in, spine_of, spine_cell_of};
ghost use Rattle.size_classes.specs.declared.class.TheConstants.{CLASSES, MOST_BLOCKS, PAGE_WORDS};
ghost use Rattle.size_classes.specs.declared.parts.TheConstants.{PART_CELLS};
ghost use Rattle.size_classes.specs.declared.config.TheConstants.{LEAST_BUDGET, MOST_BUDGET, MOST_HEAP_PAGES, MOST_PAGES};
ghost use Rattle.size_classes.specs.declared.key.Key.TheVariants.{Pages, Mutators, Slots, Statics, Identities, DefragBelow, DefragPages, CollectorTicks, MutatorTicks, Rate, Live};
ghost use Rattle.size_classes.specs.declared.key.TheConstants.Key.{ALL};

/// No part has more than 252 cells, and there are at most 15938 parts.
pub fn parts_are_small()
    ensures cells { (n p : ℕ) → n ≤ ARRAY_CELLS → (run_of n p).count ≤ PART_CELLS }
    ensures count { (n : ℕ) → n ≤ ARRAY_CELLS → parts_in n ≤ 15938 }
{}

/// Each part except part 0 is referred to by one cell of an earlier spine, and each cell of a spine refers to one
/// part. From part 0 each part is at most two steps away.
pub fn spines_refer()
    ensures to { (n p : ℕ) → 0 < p → p < parts_in n → (spine_of n p < spines_of n) × (spine_of n p < p)
        × (spine_cell_of n p < (run_of n (spine_of n p)).count)
        × ((run_of n (spine_of n p)).first + spine_cell_of n p ≡ p) }
    ensures from { (n q c : ℕ) → q < spines_of n → c < (run_of n q).count → (q < (run_of n q).first + c)
        × ((run_of n q).first + c < parts_in n) × (spine_of n ((run_of n q).first + c) ≡ q)
        × (spine_cell_of n ((run_of n q).first + c) ≡ c) }
    ensures steps { (n p : ℕ) → 0 < p → p < parts_in n → (spine_of n p ≡ 0)
        ⊎ ((0 < spine_of n p) × (spine_of n (spine_of n p) ≡ 0)) }
{}

/// Each cell of an object stands in one piece at one place, and each cell of a piece is one of the object.
pub fn cells_stand()
    ensures to { (n i : ℕ) → i < n → (part_in n i < parts_in n) × (spines_of n ≤ part_in n i)
        × (column_in i < (run_of n (part_in n i)).count) × ((run_of n (part_in n i)).first + column_in i ≡ i) }
    ensures from { (n p c : ℕ) → spines_of n ≤ p → p < parts_in n → c < (run_of n p).count
        → ((run_of n p).first + c < n) × (part_in n ((run_of n p).first + c) ≡ p)
        × (column_in ((run_of n p).first + c) ≡ c) }
{}

/// The words of a page and the most blocks of one, the size classes, and the cells of a piece of an array.
pub fn sizes_are_fixed()
    ensures page { PAGE_WORDS ≡ 2048 }
    ensures blocks { MOST_BLOCKS ≡ 512 }
    ensures classes { CLASSES ≡ 38 }
    ensures piece { PART_CELLS ≡ 252 }
{}

/// The most pages that a file may ask for, the most of any heap, and the least and the most units of a quantum.
pub fn settings_are_bounded()
    ensures pages { MOST_PAGES ≡ 4096 }
    ensures heap { MOST_HEAP_PAGES ≡ 1048576 }
    ensures least { LEAST_BUDGET ≡ 256 }
    ensures most { MOST_BUDGET ≡ 1000000 }
{}

/// The order in which the keys of a configuration are checked.
pub fn keys_are_in_order()
    ensures { ALL ≡ Pages ∷ Mutators ∷ Slots ∷ Statics ∷ Identities ∷ DefragBelow ∷ DefragPages ∷ CollectorTicks
        ∷ MutatorTicks ∷ Rate ∷ Live ∷ [] }
{}
