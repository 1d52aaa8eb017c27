//! The objects that entries made.
ghost use Rattle.std.specs.Prelude.{◌≡◌, ◌≤◌, ◌<◌, ◌^◌, drop, count_by, sum_by};
ghost use Rattle.inspector.specs.Made.{makes, blocks_made};

use graph_heap::{Command, Entry, Reply};
use size_classes::parts_of;

/// The objects that entries made.
#[derive(Clone, Copy, Debug, PartialEq, Eq)]
pub struct Made {
    pub objects: u64,
    /// The blocks that they took.
    pub blocks: u128,
}

/// Returns whether an entry made an object.
fn makes(entry: &Entry) -> bool
    ensures { result ≡ makes entry.now }
{
    matches!(entry.reply, Reply::Made(_))
}

/// Returns the blocks of the object that an entry made.
fn blocks_of(entry: &Entry) -> u32
    ensures blocks { result ≡ blocks_made entry.now }
    ensures within { result ≤ 15938 }
{
    match (entry.command, entry.reply) {
        (Command::New { shape, .. }, Reply::Made(_)) => match parts_of(&shape) {
            Some(parts) => parts.count(),
            None => 0,
        },
        _ => 0,
    }
}

/// Returns the objects that entries made, and their blocks.
pub fn made_by(entries: &[Entry]) -> Made
    ensures objects { result.objects ≡ count_by makes entries.now }
    ensures blocks { result.blocks ≡ sum_by blocks_made entries.now }
    ensures within { result.blocks < 2 ^ 80 }
{
    let mut made = Made {
        objects: 0,
        blocks: 0,
    };
    for entry in entries {
        made.objects += u64::from(makes(entry));
        made.blocks += u128::from(blocks_of(entry));
    }
    made
}

/// Returns the entries from a place on.
pub fn from_place(entries: &[Entry], place: usize) -> &[Entry]
    ensures { result.now ≡ drop place entries.now }
{
    &entries[place.min(entries.len())..]
}
