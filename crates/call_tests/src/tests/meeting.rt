//! A gate that holds two workers and the collector until all three have come: before the command and the budget, and
//! after it.
ghost use Rattle.std.specs.Prelude.{◌<◌};

use super::*;
use graph_heap::NoMemory;
use heap_server::{Gate, OpenGate, play_threads};
use std::sync::atomic::{AtomicU64, Ordering};
use std::thread;

/// How often a worker looks for the others.
const TURNS: u32 = 1000000;

/// A flag for each worker and each count, and how many workers have given up.
#[derive(Drop)]
struct Meeting {
    flags: [AtomicU64; 6],
    late: AtomicU64,
}

impl Meeting {
    fn new() -> Meeting {
        Meeting {
            flags: [
                AtomicU64::new(0),
                AtomicU64::new(0),
                AtomicU64::new(0),
                AtomicU64::new(0),
                AtomicU64::new(0),
                AtomicU64::new(0),
            ],
            late: AtomicU64::new(0),
        }
    }

    /// Returns whether all three have come and have done as much.
    fn is_met(&self, made: usize) -> bool
        requires { made < 2 }
    {
        let row = made * 3;
        self.flags[row].load(Ordering::SeqCst) == 1
            && self.flags[row + 1].load(Ordering::SeqCst) == 1
            && self.flags[row + 2].load(Ordering::SeqCst) == 1
    }

    /// Waits for the others.
    fn wait(&self, made: usize)
        requires { made < 2 }
    {
        for _ in 0..TURNS {
            if self.is_met(made) {
                return;
            }
            thread::yield_now();
        }
        self.late.fetch_add(1, Ordering::SeqCst);
    }
}

impl Gate for Meeting {
    fn pass(&self, worker: u32, made: u64) {
        if worker < 3 && made < 2 {
            self.flags[made as usize * 3 + worker as usize].store(1, Ordering::SeqCst);
            self.wait(made as usize);
        }
    }
}

/// Two scripts of one command each, and one budget.
#[test]
fn all_three_meet(rt: HostRuntime) -> Result<(), NoMemory> {
    let alloc = rt.alloc();
    let meeting = Meeting::new();
    let scripts = vec![in alloc;
        vec![in alloc; Command::Clear { dst: 0 }]?,
        vec![in alloc; Command::Clear { dst: 1 }]?,
    ]?;
    let budgets = vec![in alloc; 256]?;
    let config = config_of(&rt, &FOUR_PAGES);
    assert!(&rt; config.mutators == 2);
    let outcome = play_threads(&rt, alloc, &config, scripts, budgets, &meeting)?;
    assert!(&rt; outcome.all && outcome.recorded.heap().units() == 16);
    for flag in &meeting.flags {
        assert!(&rt; flag.load(Ordering::SeqCst) == 1);
    }
    assert!(&rt; meeting.late.load(Ordering::SeqCst) == 0);
    Ok(())
}

/// The collector spends its budget while no mutator asks anything: 9 roots, 4 pages, and a unit for each of the three
/// changes of phase.
#[test]
fn the_collector_works_alone(rt: HostRuntime) -> Result<(), NoMemory> {
    let alloc = rt.alloc();
    let budgets = vec![in alloc; 256]?;
    let config = config_of(&rt, &FOUR_PAGES);
    let outcome = play_threads(&rt, alloc, &config, Vec::new(alloc), budgets, &OpenGate)?;
    assert!(&rt; outcome.all && outcome.recorded.heap().units() == 16);
    assert!(&rt; outcome.recorded.history().is_empty());
    Ok(())
}
