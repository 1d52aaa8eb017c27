//! The end of the log of a heap that threads share, which a program reads in its turns.
ghost use Rattle.std.specs.Prelude.{◌≡◌};
ghost use Rattle.paced.specs.Logged.{event_of};
ghost use Rattle.heap_shared.specs.Members.{FindsEntry};
ghost use Rattle.metronome_c.specs.Entry.{asked, command_of, collected, entry_of, entry_found, entry_told};
ghost use Rattle.metronome_c.specs.Opened.{held_in};
ghost use Rattle.metronome_c.specs.Sharing.{TellsShared};

use crate::answer::{Answer, MetronomeShape};
use crate::figures::{found_in, tell};
use crate::metronome::Metronome;
use crate::phase::phase_number;
use crate::status::Status;
use graph_heap::{Command, Reply};
use heap_shared::NoEntry;
use paced::Logged;

/// A command: its place among the variants of `graph_heap::Command`, and its numbers and words in their order there, and 0 if
/// it has no more. The numbers of a shape are its kind, and how many cells of each kind it has. Beginnings and quanta of the
/// collector come after the variants. The numbers of a quantum are its budget, the units that it spent, and the phase after it.
#[repr(C)]
#[derive(Clone, Copy, Debug, PartialEq, Eq)]
pub struct MetronomeCommand {
    pub kind: u32,
    pub first: u32,
    pub second: u32,
    pub third: u32,
    pub fourth: u32,
    pub first_word: u64,
    pub second_word: u64,
}

/// The entry at a place of a log. Kind 1 is an event, kind 0 one that is no longer kept, and kind 2 a place that the log hasn't
/// reached. An event has the mutator, the command, its answer, and the shape that the answer tells, or a plain one without
/// cells. If the collector is called, the mutator is 0.
#[repr(C)]
#[derive(Clone, Copy, Debug, PartialEq, Eq)]
pub struct MetronomeEvent {
    pub kind: u32,
    pub mutator: u32,
    pub command: MetronomeCommand,
    pub answer: Answer,
    pub shape: MetronomeShape,
}

/// Stands for a shape without cells.
const NO_CELLS: MetronomeShape = MetronomeShape {
    kind: 0,
    refs: 0,
    words: 0,
};

/// Stands for an event that is no longer kept.
const NO_ENTRY: MetronomeEvent = MetronomeEvent {
    kind: 0,
    mutator: 0,
    command: MetronomeCommand {
        kind: 0,
        first: 0,
        second: 0,
        third: 0,
        fourth: 0,
        first_word: 0,
        second_word: 0,
    },
    answer: Answer { kind: 0, number: 0 },
    shape: NO_CELLS,
};

impl MetronomeCommand {
    /// Returns a command of this kind, with these numbers and words.
    fn of_kind(kind: u32, numbers: [u32; 4], words: [u64; 2]) -> MetronomeCommand
        ensures { result ≡ asked kind numbers words }
    {
        MetronomeCommand {
            kind,
            first: numbers[0],
            second: numbers[1],
            third: numbers[2],
            fourth: numbers[3],
            first_word: words[0],
            second_word: words[1],
        }
    }

    /// Returns the command, as C sees it.
    fn from_command(command: Command) -> MetronomeCommand
        ensures { result ≡ command_of command }
    {
        let (kind, numbers, words) = match command {
            Command::New { dst, shape } => {
                let MetronomeShape { kind, refs, words } = MetronomeShape::from_shape(shape);
                (0, [dst, kind, refs, words], [0; 2])
            }
            Command::Load { dst, obj, i } => (1, [dst, obj, i, 0], [0; 2]),
            Command::Store { obj, i, src } => (2, [obj, i, src, 0], [0; 2]),
            Command::CompareStore {
                obj,
                i,
                expect,
                new,
            } => (3, [obj, i, expect, new], [0; 2]),
            Command::Get { obj, i } => (4, [obj, i, 0, 0], [0; 2]),
            Command::Put { obj, i, word } => (5, [obj, i, 0, 0], [word, 0]),
            Command::ComparePut { obj, i, old, new } => (6, [obj, i, 0, 0], [old, new]),
            Command::Copy { dst, src } => (7, [dst, src, 0, 0], [0; 2]),
            Command::Clear { dst } => (8, [dst, 0, 0, 0], [0; 2]),
            Command::LoadStatic { dst, k } => (9, [dst, k, 0, 0], [0; 2]),
            Command::StoreStatic { k, src } => (10, [k, src, 0, 0], [0; 2]),
            Command::CompareStatic { k, expect, new } => (11, [k, expect, new, 0], [0; 2]),
            Command::Same { a, b } => (12, [a, b, 0, 0], [0; 2]),
            Command::Describe { a } => (13, [a, 0, 0, 0], [0; 2]),
            Command::Join => (14, [0; 4], [0; 2]),
            Command::Leave => (15, [0; 4], [0; 2]),
        };
        MetronomeCommand::of_kind(kind, numbers, words)
    }
}

impl MetronomeEvent {
    /// Returns a call of the collector, as C sees it.
    fn of_collector(kind: u32, numbers: [u32; 4], told: Result<Reply, Status>) -> MetronomeEvent
        ensures { result ≡ collected kind numbers told }
    {
        MetronomeEvent {
            kind: 1,
            mutator: 0,
            command: MetronomeCommand::of_kind(kind, numbers, [0; 2]),
            answer: Answer::from_outcome(told),
            shape: NO_CELLS,
        }
    }

    /// Returns an event, as C sees it.
    fn from_event(event: Logged) -> MetronomeEvent
        ensures { result ≡ entry_of (event_of event) }
    {
        match event {
            Logged::Command {
                mutator,
                command,
                reply,
            } => MetronomeEvent {
                kind: 1,
                mutator,
                command: MetronomeCommand::from_command(command),
                answer: Answer::from_outcome(Ok(reply)),
                shape: NO_CELLS.told_by(Ok(reply)),
            },
            Logged::Begun => MetronomeEvent::of_collector(16, [0; 4], Ok(Reply::Done)),
            Logged::BeginRefused => MetronomeEvent::of_collector(16, [0; 4], Err(Status::Busy)),
            Logged::Quantum {
                budget,
                units,
                phase,
            } => {
                let numbers = [budget, units, phase_number(phase), 0];
                MetronomeEvent::of_collector(17, numbers, Ok(Reply::Done))
            }
            Logged::QuantumRefused { budget } => {
                let refused = Err(Status::BudgetOutOfRange);
                MetronomeEvent::of_collector(17, [budget, 0, 0, 0], refused)
            }
        }
    }

    /// Returns the entry at a place, as C sees it, if there was a turn.
    fn from_entry(entry: Option<Result<Logged, NoEntry>>) -> Result<MetronomeEvent, Status>
        ensures { result ≡ entry_told entry }
    {
        match entry {
            Some(found) => Ok(MetronomeEvent::from_found(found)),
            None => Err(Status::Outside),
        }
    }

    /// Returns the entry at a place, as C sees it.
    fn from_found(found: Result<Logged, NoEntry>) -> MetronomeEvent
        ensures { result ≡ entry_found found }
    {
        match found {
            Ok(event) => MetronomeEvent::from_event(event),
            Err(NoEntry::Gone) => NO_ENTRY,
            Err(NoEntry::NotYet) => MetronomeEvent {
                kind: 2,
                ..NO_ENTRY
            },
        }
    }
}

/// Stores the entry at a place of the log of a shared heap, from 0, as it wraps at 2^63, in the turn.
#[unsafe(no_mangle)]
pub extern "C" fn metronome_entry(
    heap: &mut Metronome,
    place: u64,
    entry: &mut MetronomeEvent,
) -> u32
    ensures { TellsShared (FindsEntry place) entry_told (held_in heap.old) (held_in heap.new) (entry.old, entry.new) result }
{
    let found = heap.ask(
        |_own| Err(Status::NotShared),
        |member| MetronomeEvent::from_entry(member.entry(place)),
    );
    tell(entry, found_in(found))
}
