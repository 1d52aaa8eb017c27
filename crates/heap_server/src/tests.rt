//! The place, read while the lock is held: no public call lends the lock, so the test is here.
ghost use Rattle.std.specs.Prelude.{◌≡◌};
ghost use Rattle.heap_server.specs.Opened.{names_of};

use crate::naming::{Naming, Opening};
use crate::server::Server;
use graph_heap::{Command, NoMemory};
use size_classes::{Config, Settings};
use std::alloc::AllocGlobal;
use std::marker::Brand;
use std::process::Abort;
use std::sync::Wait;

/// A seat for each of two mutators.
const TWO_MUTATORS: Settings = Settings {
    mutators: 2,
    live: 2,
    ..Settings::DEFAULTS
};

/// One seat makes a call; then another reads the place while the lock is held, at which a call would wait for ever.
fn read_while_held<N: Naming, R: Wait + Abort + AllocGlobal>(
    rt: &R,
    opening: Opening,
) -> Result<u64, NoMemory>
    requires names { names_of opening ≡ N.names }
{
    let (server, mut seats, _pacer) = Server::<N>::new(rt.alloc(), opening)?;
    let Some(caller) = seats.get_mut(0) else {
        panic!(rt; "there are two seats");
    };
    let called = server.call(caller, Command::Clear { dst: 0 }, rt);
    assert!(rt; called.is_ok());
    let Some(reader) = seats.get_mut(1) else {
        panic!(rt; "there are two seats");
    };
    let guard = server.locked.lock(rt);
    let place = server.place_now(reader);
    drop(guard);
    Ok(place)
}

#[test]
fn the_place_is_read_while_the_lock_is_held(rt: HostRuntime) -> Result<(), NoMemory> {
    let Ok(config) = Config::check(&TWO_MUTATORS) else {
        panic!(&rt; "the settings are good");
    };
    let place = read_while_held::<Brand, _>(&rt, Opening::new(&config))?;
    assert!(&rt; place == 1);
    Ok(())
}
