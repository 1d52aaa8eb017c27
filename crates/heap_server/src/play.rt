//! A play: scripts of mutators, each in a thread of its own, beside a collector.
ghost use Rattle.std.specs.Prelude.{◌≡◌, ◌↔◌, ◌≤◌, true, false, length, map, take, IfOk, vec_len, vec_capacity};
ghost use denote.Param.Send.{IsSync, IsSend};
ghost use Rattle.heap_model.specs.Settings.{settings_by};
ghost use Rattle.heap_server.specs.Opened.{names_of};
ghost use Rattle.heap_server.specs.Views.{PacerView};
ghost use Rattle.heap_server.specs.Seats.{new_seats};
ghost use Rattle.heap_server.specs.Played.{HavePlayed, IsCollected, IsOutcome};

use crate::gate::Gate;
use crate::locked::{Pacer, Seat};
use crate::naming::{Naming, Opening};
use crate::server::Server;
use crate::workers::{collect, play_seats};
use ghosts::Ghost;
use graph_heap::{Command, NoMemory};
use machine::Recorded;
use size_classes::Config;
use std::alloc::Global;
use std::marker::Brand;
use std::sync::Wait;
use std::thread;
use std::thread::Threads;

/// The outcome of a play.
#[derive(Drop)]
pub struct Outcome {
    /// The heap, with the history of all commands that were done.
    pub recorded: Recorded,
    /// How many commands of each script were done, by the number of the mutator.
    pub done: Vec<u64>,
    /// How many budgets were used.
    pub used: usize,
    /// How many cycles were begun and how many units spent, for proofs alone.
    pub tally: Ghost<Pacer<Brand>>,
    /// Whether the place word had another number in the end than the length of the history.
    pub torn: bool,
    /// Whether all commands were done and all budgets used, and the place word isn't torn.
    pub all: bool,
}

/// Plays scripts at a new heap, each in a thread of its own. Beside them a collector begins a cycle for each budget,
/// unless one is running, and spends the budget on it. Script m is mutator m's. Each worker passes the gate before each
/// of its commands or budgets and after the last. All threads have ended when this returns. If a thread can't be
/// started, its commands are done in turn.
///
/// Room for all commands is made before the threads start, so no call takes memory while it holds the lock. Only the
/// system may have to find a page of that room when a call first writes to it. If there is no memory for all of them,
/// the history grows when it needs to.
///
/// A script ends before a command that is refused memory or finds the place word torn. A budget outside 256 to 1000000
/// units ends the collector. It returns NoMemory only if nothing was started.
pub fn play_threads<G: Gate + Sync, R: Threads + Wait + Sync>(
    rt: &R,
    alloc: Global,
    config: &Config,
    scripts: Vec<Vec<Command>>,
    budgets: Vec<u32>,
    gate: &G,
) -> Result<Outcome, NoMemory>
    requires fits { vec_len scripts ≤ config.now.mutators }
    ensures { IfOk result (IsOutcome (settings_by config.now) (map (λ s. s.items) scripts.items) budgets.items) }
{
    let scripts = scripts.as_slice();
    let budgets = budgets.as_slice();
    played::<Brand, G, R>(rt, alloc, Opening::new(config), scripts, budgets, gate)
}

/// Plays scripts and a collector at a server of its own.
fn played<N: Naming + Send + Sync, G: Gate + Sync, R: Threads + Wait + Sync>(
    rt: &R,
    alloc: Global,
    opening: Opening,
    scripts: &[Vec<Command>],
    budgets: &[u32],
    gate: &G,
) -> Result<Outcome, NoMemory>
    requires names { names_of opening ≡ N.names }
    requires fits { length scripts.now ≤ N.names.settings.limits.mutators }
    ensures { IfOk result (IsOutcome N.names.settings (map (λ s. s.items) scripts.now) budgets.now) }
{
    let number = scripts.len() as u32;
    let (server, seats, pacer) = Server::<N>::new(alloc, opening)?;
    let mut done = Vec::new(alloc);
    done.reserve(scripts.len())?;
    reserve_for(rt, &server, scripts);
    let shared = &server;
    let ((used, pacer), seats) = thread::join(
        rt,
        move || -> (usize, Pacer<N>)
            requires { pacer ≡ record { begun = 0; ended = 0; quanta = 0; spent = 0 } }
            ensures { IsCollected budgets.entry.now result.0 result.1 }
        {
            let mut pacer = pacer;
            let used = collect(rt, shared, gate, number, budgets, &mut pacer);
            (used, pacer)
        },
        move || -> Vec<Seat<N>>
            requires { IsSync R.row × IsSync G.row × IsSend N.row × IsSync N.row × (length scripts.now ≤ vec_len seats)
                × (seats.items ≡ new_seats N.names.settings.limits.mutators) }
            ensures { HavePlayed N.names.settings.limits.mutators (map (λ s. s.items) scripts.entry.now) result.items }
        { play_seats(rt, shared, gate, scripts, seats) },
    );
    Ok(settled(server, seats, pacer, scripts, budgets, used, done))
}

/// Makes room for all commands of the scripts, if there is memory for that many entries.
fn reserve_for<N: Naming>(rt: &impl Wait, server: &Server<N>, scripts: &[Vec<Command>]) {
    let mut calls = 0usize;
    for script in scripts {
        calls = calls.saturating_add(script.len());
    }
    let _refused = server.reserve_history(calls, rt);
}

/// Takes the server apart once all threads have ended. The numbers are those of the pacer.
fn settled<N: Naming>(
    server: Server<N>,
    seats: Vec<Seat<N>>,
    pacer: Pacer<N>,
    scripts: &[Vec<Command>],
    budgets: &[u32],
    used: usize,
    mut done: Vec<u64>,
) -> Outcome
    ghost numbers: { PacerView }
    requires pacer { pacer ≡ numbers }
    requires fits { length scripts.now ≤ N.names.settings.limits.mutators }
    requires played { HavePlayed N.names.settings.limits.mutators (map (λ s. s.items) scripts.now) seats.items }
    requires collected { IsCollected budgets.now used numbers }
    requires room { (vec_len done ≡ 0) × (length scripts.now ≤ vec_capacity done) }
    ensures { IsOutcome N.names.settings (map (λ s. s.items) scripts.now) budgets.now result }
{
    count_calls(seats.as_slice(), scripts.len(), &mut done);
    let whole = is_whole(scripts, done.as_slice());
    let (recorded, found) = server.close(seats, pacer);
    let torn = found != recorded.history().len() as u64;
    let all = is_all(torn, whole, used, budgets.len());
    Outcome {
        recorded,
        done,
        used,
        tally: Ghost::new(),
        torn,
        all,
    }
}

/// Returns whether all was done.
fn is_all(torn: bool, whole: bool, used: usize, budgets: usize) -> bool
    ensures { result ≡ true ↔ (torn ≡ false) × (whole ≡ true) × (used ≡ budgets) }
{
    !torn && whole && used == budgets
}

/// Counts the calls of each of the first seats.
fn count_calls<N: Naming>(seats: &[Seat<N>], count: usize, done: &mut Vec<u64>)
    requires count { count ≤ length seats.now }
    requires room { (vec_len done.old ≡ 0) × (count ≤ vec_capacity done.old) }
    ensures items { done.new.items ≡ map (λ s. s.calls) (take count seats.now) }
    ensures len { vec_len done.new ≡ count }
{
    for i in 0..count {
        let seat = &seats[i];
        done.push_reserved(seat.made());
    }
}

/// Returns whether each script was done whole.
fn is_whole(scripts: &[Vec<Command>], done: &[u64]) -> bool
    requires { length scripts.now ≡ length done.now }
    ensures { result ≡ true ↔ (done.now ≡ map vec_len scripts.now) }
{
    for i in 0..scripts.len() {
        if done[i] != scripts[i].len() as u64 {
            return false;
        }
    }
    true
}
