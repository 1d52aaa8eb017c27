//! The events of a heap.
use graph_heap::Command;

/// A request to a heap: a mutator's command, the beginning of a cycle, or a quantum with this budget in units.
#[derive(Clone, Copy, Debug, PartialEq, Eq)]
pub enum Event {
    Command { mutator: u32, command: Command },
    Begin,
    Quantum(u32),
}
