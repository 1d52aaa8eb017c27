//! The workers of a play: one for each script, and the collector's.
ghost use Rattle.std.specs.Prelude.{◌≡◌, ◌<◌, ◌≤◌, length, map, slice_index_or, vec_len, All};
ghost use Rattle.std.specs.List.{AllZip};
ghost use Rattle.heap_server.specs.Seats.{new_seats, mutators_of};
ghost use Rattle.heap_server.specs.Played.{IsPlayed, HasPlayed, HavePlayed, IsCollected};

use crate::gate::Gate;
use crate::locked::{Pacer, Seat};
use crate::naming::Naming;
use crate::server::Server;
use graph_heap::Command;
use std::sync::Wait;
use std::thread;
use std::thread::Threads;

/// Does the commands of a script, one after the other. It stops at the first that is refused memory or finds the
/// place word torn.
fn work<N: Naming, G: Gate, R: Wait>(
    rt: &R,
    server: &Server<N>,
    gate: &G,
    script: &[Command],
    seat: &mut Seat<N>,
)
    requires { seat.old.calls ≡ 0 }
    ensures { IsPlayed script.now seat.old seat.new }
{
    for command in script {
        gate.pass(seat.mutator(), seat.made());
        let Ok(_) = server.call(seat, *command, rt) else {
            return;
        };
    }
    gate.pass(seat.mutator(), seat.made());
}

/// Begins a cycle, unless one is running, and spends a budget on it, for each budget up to the first that no
/// quantum may have. The result is how many were used.
pub fn collect<N: Naming, G: Gate, R: Wait>(
    rt: &R,
    server: &Server<N>,
    gate: &G,
    number: u32,
    budgets: &[u32],
    pacer: &mut Pacer<N>,
) -> usize
    requires { pacer.old ≡ record { begun = 0; ended = 0; quanta = 0; spent = 0 } }
    ensures { IsCollected budgets.now result pacer.new }
{
    let mut used = 0;
    for budget in budgets {
        gate.pass(number, used as u64);
        let _on = server.begin(pacer, rt);
        let Ok(_) = server.quantum(pacer, *budget, rt) else {
            return used;
        };
        used += 1;
    }
    gate.pass(number, used as u64);
    used
}

/// Plays each script from the seat at its place, in a thread of its own if one can be started, and in turn otherwise.
fn play_scripts<N: Naming + Send + Sync, G: Gate + Sync, R: Threads + Wait + Sync>(
    rt: &R,
    server: &Server<N>,
    gate: &G,
    scripts: &[Vec<Command>],
    seats: &mut [Seat<N>],
)
    requires count { length scripts.now ≡ length seats.old }
    requires fresh { All (λ s. s.calls ≡ 0) seats.old }
    ensures mutators { mutators_of seats.new ≡ mutators_of seats.old }
    ensures played { AllZip HasPlayed seats.new (map (λ s. s.items) scripts.now) }
{
    let threads = scripts.len().max(1);
    thread::for_each_mut(
        rt,
        seats,
        threads,
        &|i: usize, seat: &mut Seat<N>|
            requires { (i < length scripts.now) × (seat.now.calls ≡ 0) }
            ensures { (e : _) → IsPlayed (slice_index_or scripts.entry.now i e).items seat.entry.now seat.exit.now }
        { work(rt, server, gate, scripts[i].as_slice(), seat) },
    );
}

/// Plays each script from the seat of its mutator.
pub fn play_seats<N: Naming + Send + Sync, G: Gate + Sync, R: Threads + Wait + Sync>(
    rt: &R,
    server: &Server<N>,
    gate: &G,
    scripts: &[Vec<Command>],
    mut seats: Vec<Seat<N>>,
) -> Vec<Seat<N>>
    requires count { length scripts.now ≤ vec_len seats }
    requires new { seats.items ≡ new_seats N.names.settings.limits.mutators }
    ensures { HavePlayed N.names.settings.limits.mutators (map (λ s. s.items) scripts.now) result.items }
{
    let (playing, _) = seats.as_mut_slice().split_at_mut(scripts.len());
    play_scripts(rt, server, gate, scripts, playing);
    seats
}
