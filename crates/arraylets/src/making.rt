//! How objects are made.
ghost use Rattle.std.specs.Prelude.{◌≡◌, ◌≢◌, ◌+◌, ◌/◌, ◌<◌, ◌≤◌, ℕ, true, length, slice_index, Some};
ghost use Rattle.graph_heap.specs.declared.command.Shape.{Shape};
ghost use Rattle.graph_heap.specs.declared.command.TheConstants.{ARRAY_CELLS};
ghost use Rattle.graph_heap.specs.Shape.{fits};
ghost use Rattle.size_classes.specs.Sizes.{class_for};
ghost use Rattle.size_classes.specs.Parts.{cells_of, parts_in, part_cells, part_words, spine_of};
ghost use Rattle.size_classes.specs.Need.{needed};
ghost use Rattle.heap_model.specs.Block.{new_record};
ghost use Rattle.heap_model.specs.Pages.{has_room, TakesBlock};
ghost use Rattle.heap_model.specs.Room.{needed_from};
ghost use Rattle.heap_model.specs.Store.{is_allocated, record_of, Adds};
ghost use Rattle.heap_model.specs.Making.{MakesObject};
ghost use Rattle.heap_model.specs.Taking.{Takes};
ghost use Rattle.nodes.specs.Links.{KeepsLinks};
ghost use Rattle.arraylets.specs.Made.{LinksPart};

use graph_heap::Shape;
use nodes::Nodes;
use size_classes::{Parts, class_of, parts_of};

/// How many spines an object has at most: of an array of 4000000 cells, the root spine and 63 others.
const SPINES: usize = 64;

/// The addresses of the first parts of an object, all spines among them.
type Spines = [usize; SPINES];

/// Makes a part of an object, for which and for the parts after it there is room.
#[inline(always)]
fn make_part(
    nodes: &mut Nodes,
    shape: Shape,
    parts: &Parts,
    part: u32,
    colour: bool,
    identity: u64,
) -> usize
    requires fits { fits shape ≡ true }
    requires parts { parts.now ≡ cells_of shape }
    requires part { part < parts_in (cells_of shape) }
    requires room { has_room nodes.old.pages (needed_from (cells_of shape) part (parts_in (cells_of shape))) ≡ true }
    ensures made { Adds nodes.old nodes.new result
        (new_record result (record { shape = shape; part = part; colour = colour }) identity) }
    ensures taken { (class : ℕ) × (index : ℕ) × (class_for (part_words (cells_of shape) part) ≡ Some class)
        × TakesBlock nodes.old.pages class (result / 2048) index nodes.new.pages }
    ensures room { has_room nodes.new.pages (needed_from (cells_of shape) (part + 1) (parts_in (cells_of shape)))
        ≡ true }
    ensures within { result ≤ 2147483648 }
    ensures links { KeepsLinks nodes.old nodes.new }
{
    let words = parts.words(part);
    let class = class_of(words).unwrap();
    nodes
        .make(class, shape, part, colour, identity, words as usize - 4)
        .unwrap()
}

/// Writes a part that was made into the spine that refers to it, which stands already. Nothing refers to part 0.
#[inline(always)]
fn link(nodes: &mut Nodes, parts: &Parts, spines: &Spines, part: u32, block: usize)
    requires few { parts.now ≤ ARRAY_CELLS }
    requires part { part < parts_in parts.now }
    requires within { block ≤ 2147483648 }
    requires allocated { 0 < part → is_allocated nodes.old (slice_index spines.now (spine_of parts.now part)) ≡ true }
    requires cells { 0 < part → length (record_of nodes.old (slice_index spines.now (spine_of parts.now part))).cells
        ≡ part_cells parts.now (spine_of parts.now part) }
    ensures linked { LinksPart parts.now nodes.old (slice_index spines.now (spine_of parts.now part)) part block
        nodes.new }
    ensures links { KeepsLinks nodes.old nodes.new }
{
    if part > 0 {
        let position = parts.position(part);
        nodes.set_cell(
            spines[position.spine as usize],
            position.cell,
            block as u64 + 1,
        );
    }
}

/// Notes the address of a part, if the part may be a spine.
fn note(spines: &mut Spines, part: u32, block: usize)
    ensures here { part < SPINES → slice_index spines.new part ≡ block }
    ensures others { (p : ℕ) → p ≢ part → slice_index spines.new p ≡ slice_index spines.old p }
{
    if (part as usize) < SPINES {
        spines[part as usize] = block;
    }
}

/// Makes the parts of an object, in rising part number. Returns the address of part 0.
#[inline(never)]
fn make_parts(nodes: &mut Nodes, shape: Shape, parts: &Parts, colour: bool, identity: u64) -> usize
    requires fits { fits shape ≡ true }
    requires parts { parts.now ≡ cells_of shape }
    requires room { has_room nodes.old.pages (needed_from (cells_of shape) 0 (parts_in (cells_of shape))) ≡ true }
    ensures made { (at : ℕ → ℕ) × (at 0 ≡ result) × MakesObject nodes.old shape colour identity at nodes.new
        × Takes (cells_of shape) at nodes.old.pages (parts_in (cells_of shape)) nodes.new.pages }
    ensures within { result ≤ 2147483648 }
    ensures links { KeepsLinks nodes.old nodes.new }
{
    let mut spines: Spines = [0; SPINES];
    for part in 0..parts.count() {
        let block = make_part(nodes, shape, parts, part, colour, identity);
        link(nodes, parts, &spines, part, block);
        note(&mut spines, part, block);
    }
    spines[0]
}

/// Makes an object with null references and words of 0; there must be room for its parts. Each part except part 0 is
/// written into its spine as soon as it is made. Returns the address of part 0.
#[inline(always)]
pub fn new_object(nodes: &mut Nodes, shape: Shape, colour: bool, identity: u64) -> usize
    requires fits { fits shape ≡ true }
    requires room { has_room nodes.old.pages (needed shape) ≡ true }
    ensures made { (at : ℕ → ℕ) × (at 0 ≡ result) × MakesObject nodes.old shape colour identity at nodes.new
        × Takes (cells_of shape) at nodes.old.pages (parts_in (cells_of shape)) nodes.new.pages }
    ensures within { result ≤ 2147483648 }
    ensures links { KeepsLinks nodes.old nodes.new }
{
    let parts = parts_of(&shape).unwrap();
    if parts.count() == 1 {
        return make_part(nodes, shape, &parts, 0, colour, identity);
    }
    make_parts(nodes, shape, &parts, colour, identity)
}
