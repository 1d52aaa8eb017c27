//! Servers, called from one thread: calls for which room is reserved; the parts of the history that two seats see of
//! each other's calls; objects that fill pages, and a cycle, through one seat and the pacer.
ghost use Rattle.std.specs.Prelude.{◌≡◌};
ghost use Rattle.heap_server.specs.Opened.{names_of};

use super::*;
use graph_heap::{Refusal, Reply, Shape};
use heap_model::phase::Phase;
use heap_server::{Naming, Opening, Pacer, Seat, Server, ServerFault};
use machine::{BudgetOutOfRange, Busy, Spent};
use std::alloc::{AllocGlobal, Global};
use std::marker::Brand;
use std::sync::Wait;

const NEW: Command = Command::New {
    dst: 0,
    shape: Shape::Plain { refs: 0, words: 0 },
};

const FILL: Command = Command::CompareStatic {
    k: 0,
    expect: 1,
    new: 0,
};

const READ: Command = Command::LoadStatic { dst: 1, k: 0 };

/// Each of two seats makes an object, puts it into the static if that is empty, and loads the static.
const RACE: [(usize, Command, Reply); 6] = [
    (0, NEW, Reply::Made(1)),
    (1, NEW, Reply::Made(2)),
    (0, FILL, Reply::Stored),
    (1, FILL, Reply::Kept(1)),
    (0, READ, Reply::Ref(1)),
    (1, READ, Reply::Ref(1)),
];

/// Three calls of one seat, and one of the other.
const IN_TURN: [(usize, Command, Reply); 4] = [
    (1, NEW, Reply::Made(1)),
    (1, Command::Copy { dst: 1, src: 0 }, Reply::Done),
    (1, Command::Same { a: 0, b: 1 }, Reply::Is(true)),
    (
        0,
        Command::Load {
            dst: 0,
            obj: 0,
            i: 0,
        },
        Reply::Refused(Refusal::NullSlot),
    ),
];

/// Returns the reply to a command from a seat, which is entered at this place.
fn call<N: Naming, R: Wait + Abort>(
    rt: &R,
    server: &Server<N>,
    seat: &mut Seat<N>,
    place: usize,
    command: Command,
) -> Result<Reply, ServerFault> {
    let made = seat.made();
    let receipt = server.call(seat, command, rt)?;
    assert!(rt; receipt.place() == place);
    assert!(rt; receipt.entry().mutator == seat.mutator() && receipt.entry().command == command);
    assert!(rt; seat.made() == made.wrapping_add(1));
    Ok(receipt.entry().reply)
}

/// Looks whether each seat sees this many calls.
fn each_sees<N: Naming, R: Abort>(rt: &R, server: &Server<N>, seats: &mut [Seat<N>], calls: usize) {
    for seat in seats {
        assert!(rt; server.place_now(seat) == calls as u64);
    }
}

/// Reserves room for calls, and makes them, each from the seat of its number. All seats see each of them.
fn take_turns<N: Naming, R: Wait + Abort + AllocGlobal>(
    rt: &R,
    opening: Opening,
    turns: &[(usize, Command, Reply)],
) -> Result<(), ServerFault>
    requires names { names_of opening ≡ N.names }
{
    let (server, mut seats, _pacer) = Server::<N>::new(rt.alloc(), opening)?;
    server.reserve_history(turns.len(), rt)?;
    each_sees(rt, &server, seats.as_mut_slice(), 0);
    for (place, (number, command, reply)) in turns.iter().enumerate() {
        let Some(seat) = seats.get_mut(*number) else {
            panic!(rt; "there are two seats");
        };
        assert!(rt; call(rt, &server, seat, place, *command).is_ok_and(|given| given == *reply));
        each_sees(rt, &server, seats.as_mut_slice(), place + 1);
    }
    Ok(())
}

/// Takes turns at a server of its own.
fn turns_at<R: Wait + Abort + AllocGlobal>(
    rt: &R,
    turns: &[(usize, Command, Reply)],
) -> Result<(), ServerFault> {
    let config = config_of(rt, &FOUR_PAGES);
    take_turns::<Brand, _>(rt, Opening::new(&config), turns)
}

#[test]
fn reserved_calls_are_sure(rt: HostRuntime) -> Result<(), ServerFault> {
    turns_at(&rt, &RACE)
}

#[test]
fn each_seat_sees_the_other(rt: HostRuntime) -> Result<(), ServerFault> {
    assert!(&rt; ServerFault::NoMemory.number() == 9 && ServerFault::Torn(5).number() == 10);
    turns_at(&rt, &IN_TURN)
}

/// Blocks are moved if fewer than four pages are free, so after each sweep.
const SPARSE: Settings = Settings {
    pages: 3,
    slots: 12,
    defrag_below: 4,
    defrag_pages: 1,
    ..ONE_PAGE
};

/// The shape of a large object: eight fill a page.
const LARGE: Shape = Shape::WordArray(252);

fn new(dst: u32, shape: Shape) -> Command {
    Command::New { dst, shape }
}

/// Large objects are made, in the slots from 0 on, and commands follow with these replies; then a cycle, and more
/// commands.
#[derive(Clone, Copy)]
struct ServerCase<'a> {
    objects: u32,
    before: &'a [(Command, Reply)],
    /// The units that each quantum of 256 units spends.
    spent: &'a [u32],
    after: &'a [(Command, Reply)],
}

/// Calls commands, and looks at the replies.
fn call_all<N: Naming, R: Wait + Abort>(
    rt: &R,
    server: &Server<N>,
    seat: &mut Seat<N>,
    steps: &[(Command, Reply)],
) -> Result<(), ServerFault> {
    for (command, reply) in steps {
        let place = seat.made() as usize;
        assert!(rt; call(rt, server, seat, place, *command)? == *reply);
    }
    Ok(())
}

/// A whole cycle, between quanta in idle, which spend nothing. While it runs none begins, and a budget that no
/// quantum may have changes nothing.
fn collect<N: Naming, R: Wait + Abort>(
    rt: &R,
    server: &Server<N>,
    pacer: &mut Pacer<N>,
    spent: &[u32],
) {
    let idle = Spent {
        units: 0,
        phase: Phase::Idle,
    };
    assert!(rt; server.quantum(pacer, 256, rt) == Ok(idle));
    assert!(rt; server.begin(pacer, rt) == Ok(()));
    for units in spent {
        assert!(rt; server.begin(pacer, rt) == Err(Busy));
        assert!(rt; server.quantum(pacer, 255, rt) == Err(BudgetOutOfRange));
        assert!(rt; server.quantum(pacer, 1000001, rt) == Err(BudgetOutOfRange));
        let Ok(done) = server.quantum(pacer, 256, rt) else {
            panic!(rt; "the budget is good");
        };
        assert!(rt; done.units == *units);
    }
    assert!(rt; server.quantum(pacer, 256, rt) == Ok(idle));
}

/// Does the call of a row.
fn follow<N: Naming, R: Wait + Abort>(
    rt: &R,
    alloc: Global,
    opening: Opening,
    row: &ServerCase,
) -> Result<(), ServerFault>
    requires names { names_of opening ≡ N.names }
{
    let (server, mut seats, mut pacer) = Server::<N>::new(alloc, opening)?;
    let Some(mut seat) = seats.pop() else {
        panic!(rt; "there is a seat");
    };
    for dst in 0..row.objects {
        let made = (new(dst, LARGE), Reply::Made(u64::from(dst) + 1));
        call_all(rt, &server, &mut seat, &[made])?;
    }
    call_all(rt, &server, &mut seat, row.before)?;
    collect(rt, &server, &mut pacer, row.spent);
    call_all(rt, &server, &mut seat, row.after)
}

/// Plays the row at a server of its own.
fn follow_row<R: Wait + Abort + AllocGlobal>(
    rt: &R,
    settings: &Settings,
    row: &ServerCase,
) -> Result<(), ServerFault> {
    let config = config_of(rt, settings);
    follow::<Brand, _>(rt, rt.alloc(), Opening::new(&config), row)
}

/// The cycle: 9 roots, 7 headers, 8 blocks and a page, and a unit for each of the three changes of phase.
const FULL_PAGE: ServerCase = ServerCase {
    objects: 8,
    before: &[
        (
            Command::New {
                dst: 8,
                shape: LARGE,
            },
            Reply::Refused(Refusal::NoSpace),
        ),
        (Command::Describe { a: 7 }, Reply::Described(8, LARGE)),
        (
            Command::Describe { a: 8 },
            Reply::Refused(Refusal::NullSlot),
        ),
        (Command::Clear { dst: 3 }, Reply::Done),
    ],
    spent: &[28],
    after: &[(
        Command::New {
            dst: 3,
            shape: LARGE,
        },
        Reply::Made(9),
    )],
};

/// The cycle: 12 roots, 9 for marking, 428 for sweeping, 114 looks at pages, a move of 256 words, and a unit
/// for each of the four changes of phase.
const SPARSE_PAGE: ServerCase = ServerCase {
    objects: 9,
    before: &[
        (
            Command::New {
                dst: 9,
                shape: Shape::Plain { refs: 1, words: 0 },
            },
            Reply::Made(10),
        ),
        (
            Command::Store {
                obj: 9,
                i: 0,
                src: 8,
            },
            Reply::Done,
        ),
        (Command::Clear { dst: 0 }, Reply::Done),
        (Command::Clear { dst: 1 }, Reply::Done),
    ],
    spent: &[256, 256, 54, 256, 1],
    after: &[
        (
            Command::Load {
                dst: 10,
                obj: 9,
                i: 0,
            },
            Reply::Ref(9),
        ),
        (Command::Same { a: 8, b: 10 }, Reply::Is(true)),
        (
            Command::CompareStore {
                obj: 9,
                i: 0,
                expect: 10,
                new: 11,
            },
            Reply::Stored,
        ),
        (Command::Describe { a: 8 }, Reply::Described(9, LARGE)),
    ],
};

/// No object: 9 roots, 4 pages, and a unit for each of the three changes of phase.
const FEW_ROOTS: ServerCase = ServerCase {
    objects: 0,
    before: &[],
    spent: &[16],
    after: &[],
};

/// 512 roots, 4 pages, and a unit for each of the three changes of phase.
const MANY_ROOTS: ServerCase = ServerCase {
    spent: &[256, 256, 7],
    ..FEW_ROOTS
};

#[test]
fn rows_are_followed(rt: HostRuntime) -> Result<(), ServerFault> {
    follow_row(&rt, &ONE_PAGE, &FULL_PAGE)?;
    follow_row(&rt, &SPARSE, &SPARSE_PAGE)?;
    follow_row(&rt, &FOUR_PAGES, &FEW_ROOTS)?;
    follow_row(&rt, &MANY_SLOTS, &MANY_ROOTS)
}
