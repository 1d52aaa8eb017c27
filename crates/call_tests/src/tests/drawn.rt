//! Commands that are drawn, while a cycle is running before each of them.
ghost use Rattle.std.specs.Prelude.{◌<◌};

use super::*;
use graph_heap::{NoMemory, Reference};
use machine::Recorded;
use std::alloc::AllocGlobal;

/// How many commands are drawn.
const COMMANDS: u32 = 20_000;

/// Three pages: moving follows each sweep, if a cycle may empty a page.
const THREE_PAGES: Settings = Settings {
    pages: 3,
    slots: 12,
    defrag_below: 4,
    ..ONE_PAGE
};

/// Numbers of a linear congruence.
#[derive(Drop)]
struct Draws {
    last: u32,
}

impl Draws {
    /// Returns the next number, below this many.
    fn below(&mut self, count: u32) -> u32
        requires { 0 < count }
    {
        self.last = 25173u32.wrapping_mul(self.last).wrapping_add(13849) % 65536;
        self.last / 16 % count
    }

    /// Draws a slot, or the number behind the last one.
    fn slot(&mut self) -> u32 {
        self.below(13)
    }

    /// Returns a static: there is none.
    fn place(&mut self) -> u32 {
        self.below(2)
    }

    fn index(&mut self) -> u32 {
        self.below(5)
    }

    fn word(&mut self) -> u64 {
        u64::from(self.below(3))
    }

    fn shape(&mut self) -> Shape {
        let kind = self.below(4096);
        let first = self.below(4096);
        let second = self.below(4096);
        match kind % 3 {
            0 => Shape::Plain {
                refs: first % 4,
                words: second % 4,
            },
            1 => Shape::RefArray(first % 300),
            _ => Shape::WordArray(second % 300),
        }
    }

    /// Returns a command that makes or moves references.
    fn of_references(&mut self, number: u32) -> Command {
        match number {
            0 => Command::New {
                dst: self.slot(),
                shape: self.shape(),
            },
            1 => Command::Load {
                dst: self.slot(),
                obj: self.slot(),
                i: self.index(),
            },
            2 => Command::Store {
                obj: self.slot(),
                i: self.index(),
                src: self.slot(),
            },
            _ => Command::CompareStore {
                obj: self.slot(),
                i: self.index(),
                expect: self.slot(),
                new: self.slot(),
            },
        }
    }

    /// Returns a command on words, or on slots alone.
    fn of_words(&mut self, number: u32) -> Command {
        match number {
            4 => Command::Get {
                obj: self.slot(),
                i: self.index(),
            },
            5 => Command::Put {
                obj: self.slot(),
                i: self.index(),
                word: self.word(),
            },
            6 => Command::ComparePut {
                obj: self.slot(),
                i: self.index(),
                old: self.word(),
                new: self.word(),
            },
            7 => Command::Copy {
                dst: self.slot(),
                src: self.slot(),
            },
            _ => Command::Clear { dst: self.slot() },
        }
    }

    /// Returns a command on statics, or one that asks.
    fn of_statics(&mut self, number: u32) -> Command {
        match number {
            9 => Command::LoadStatic {
                dst: self.slot(),
                k: self.place(),
            },
            10 => Command::StoreStatic {
                k: self.place(),
                src: self.slot(),
            },
            11 => Command::CompareStatic {
                k: self.place(),
                expect: self.slot(),
                new: self.slot(),
            },
            12 => Command::Same {
                a: self.slot(),
                b: self.slot(),
            },
            _ => Command::Describe { a: self.slot() },
        }
    }

    fn command(&mut self) -> Command {
        let number = self.below(14);
        match number {
            0..=3 => self.of_references(number),
            4..=8 => self.of_words(number),
            _ => self.of_statics(number),
        }
    }
}

/// No cycle spends more than it may, after any event.
fn within(rt: &impl Abort, heap: &Recorded, limit: u64) {
    assert!(rt; heap.heap().units() <= limit);
}

/// The graph heap accepts each entry of commands that are drawn, and no cycle spends more than it may.
fn plays(rt: &(impl Abort + AllocGlobal), defrag_pages: i64) -> Result<(), NoMemory> {
    let settings = Settings {
        defrag_pages,
        ..THREE_PAGES
    };
    let config = config_of(rt, &settings);
    let limit = config.cycle_limit();
    let mut heap = Recorded::new(rt.alloc(), &config)?;
    let mut reference = Reference::new(rt.alloc(), &config.limits())?;
    let mut draws = Draws { last: 1 };
    for _ in 0..COMMANDS {
        let _running = heap.begin();
        within(rt, &heap, limit);
        let receipt = heap.call(0, draws.command())?;
        assert!(rt; reference.accepts(receipt.entry())?);
        within(rt, &heap, limit);
        let _spent = heap.quantum(256);
        within(rt, &heap, limit);
    }
    Ok(())
}

#[test]
fn drawn_commands_amid_cycles(rt: HostRuntime) -> Result<(), NoMemory> {
    for defrag_pages in [0, 1, 3] {
        plays(&rt, defrag_pages)?;
    }
    Ok(())
}
