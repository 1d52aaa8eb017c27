//! How many words an object asks for.
ghost use Rattle.std.specs.Prelude.{◌≡◌, if◌then◌else◌};
ghost use Rattle.graph_heap.specs.Shape.{fits};
ghost use Rattle.size_classes.specs.Need.{needed, blocks_needed};
ghost use Rattle.size_classes.specs.Parts.{parts_in};
ghost use Rattle.fragmentation.specs.Flow.{words_of};

use graph_heap::Shape;
use size_classes::{CLASSES, Class, Need, Parts, class_of, parts_of};

/// Returns the words of the blocks that an object with these parts needs.
fn words_of_parts(parts: &Parts) -> u64
    ensures { result ≡ words_of (blocks_needed parts.now (parts_in parts.now)) }
{
    let need = Need::from_parts(parts);
    let mut words = 0u64;
    for number in 0..CLASSES {
        let class = Class::new(number as u8);
        words += u64::from(class.size()) * u64::from(need.blocks(class));
    }
    words
}

/// Returns the words of the blocks that an object of a shape needs, or 0 if the shape is too large. An object of one part needs
/// one block, of the class of its words.
pub fn words_of_shape(shape: &Shape) -> u64
    ensures { result ≡ words_of (λ class. if fits shape.now then needed shape.now class else 0) }
{
    let Some(parts) = parts_of(shape) else {
        return 0;
    };
    if parts.count() > 1 {
        return words_of_parts(&parts);
    }
    u64::from(class_of(parts.words(0)).unwrap().size())
}
