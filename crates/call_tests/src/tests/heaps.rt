//! A heap with its history, and the limits of cycles.
use super::*;
use graph_heap::{NoMemory, Refusal, Reply, Shape};
use heap_model::phase::Phase;
use machine::{Heap, Recorded};

const TWO_SLOTS: Settings = Settings {
    slots: 2,
    ..ONE_PAGE
};

/// An object is made behind the sweep, and is kept.
#[test]
fn events_are_done_in_their_order(rt: HostRuntime) -> Result<(), NoMemory> {
    let mut heap = Recorded::new(rt.alloc(), &config_of(&rt, &TWO_SLOTS))?;
    let put = Command::Put {
        obj: 0,
        i: 0,
        word: 9,
    };
    let events = [
        called(plain(0, 0, 1)),
        called(plain(1, 0, 1)),
        called(Command::Clear { dst: 0 }),
        Event::Begin,
        Event::Quantum(256),
        called(plain(0, 0, 1)),
        called(put),
        Event::Begin,
        Event::Quantum(255),
        Event::Quantum(256),
        called(Command::Get { obj: 0, i: 0 }),
    ];
    let replies = [
        Reply::Made(1),
        Reply::Made(2),
        Reply::Done,
        Reply::Made(3),
        Reply::Done,
        Reply::Word(9),
    ];
    heap.run(events.as_slice())?;
    assert_eq!(rt; heap.history().len(), replies.len());
    for (entry, reply) in heap.history().iter().zip(replies) {
        assert_eq!(rt; entry.reply, reply);
    }
    assert_eq!(rt; heap.heap().phase(), Phase::Idle);
    assert_eq!(rt; heap.heap().units(), 416);
    Ok(())
}

/// A full page has room again after a cycle, through one list of events for whose commands room was made.
#[test]
fn a_list_of_events_has_the_room_that_was_made(rt: HostRuntime) -> Result<(), NoMemory> {
    let alloc = rt.alloc();
    let mut heap = Recorded::new(alloc, &config_of(&rt, &ONE_PAGE))?;
    let mut events = Vec::new(alloc);
    for slot in 0..8 {
        events.push(called(words(slot, 252)))?;
    }
    events.push(called(words(8, 252)))?;
    events.push(called(Command::Describe { a: 7 }))?;
    events.push(called(Command::Describe { a: 8 }))?;
    events.push(called(Command::Clear { dst: 3 }))?;
    events.push(Event::Begin)?;
    events.push(Event::Quantum(256))?;
    events.push(called(words(3, 252)))?;
    heap.reserve(13)?;
    heap.run(events.as_slice())?;
    let replies = [
        Reply::Made(8),
        Reply::Refused(Refusal::NoSpace),
        Reply::Described(8, Shape::WordArray(252)),
        Reply::Refused(Refusal::NullSlot),
        Reply::Done,
        Reply::Made(9),
    ];
    assert_eq!(rt; heap.history().len(), 13);
    for (entry, reply) in heap.history().iter().skip(7).zip(replies) {
        assert_eq!(rt; entry.reply, reply);
    }
    assert_eq!(rt; heap.heap().units(), 28);
    Ok(())
}

/// The most units of a cycle: of a page, of three that are emptied, and of 34.
#[test]
fn the_limits_of_cycles(rt: HostRuntime) {
    let emptied = Settings {
        pages: 3,
        slots: 12,
        defrag_below: 4,
        defrag_pages: 1,
        ..ONE_PAGE
    };
    let many = Settings {
        pages: 34,
        slots: 1,
        ..ONE_PAGE
    };
    for (settings, limit) in [(TWO_SLOTS, 6188), (emptied, 18565), (many, 210193)] {
        assert_eq!(rt; config_of(&rt, &settings).cycle_limit(), limit);
    }
}

/// Commands of mutators, and the reply to each after those before it.
const ASKED: [(u32, Command, Reply); 8] = [
    (
        0,
        Command::Get { obj: 0, i: 0 },
        Reply::Refused(Refusal::NullSlot),
    ),
    (
        0,
        Command::New {
            dst: 0,
            shape: Shape::Plain { refs: 0, words: 1 },
        },
        Reply::Made(1),
    ),
    (
        0,
        Command::Put {
            obj: 0,
            i: 0,
            word: 9,
        },
        Reply::Done,
    ),
    (0, Command::Get { obj: 0, i: 0 }, Reply::Word(9)),
    (
        0,
        Command::Get { obj: 0, i: 1 },
        Reply::Refused(Refusal::BadIndex),
    ),
    (
        0,
        Command::Clear { dst: 9 },
        Reply::Refused(Refusal::BadSlot),
    ),
    (0, Command::Join, Reply::Refused(Refusal::AlreadyLive)),
    (
        1,
        Command::Clear { dst: 0 },
        Reply::Refused(Refusal::BadSlot),
    ),
];

/// A heap answers a command as often as it is asked, and then does it, with the same reply.
fn answers(rt: &impl Abort, heap: &mut Heap, mutator: u32, command: Command, reply: Reply) {
    assert_eq!(rt; heap.answer(mutator, &command), reply);
    assert_eq!(rt; heap.answer(mutator, &command), reply);
    assert_eq!(rt; heap.step(mutator, command), reply);
}

#[test]
fn answers_change_nothing(rt: HostRuntime) -> Result<(), NoMemory> {
    let mut heap = Heap::new(rt.alloc(), &config_of(&rt, &ONE_PAGE))?;
    for (mutator, command, reply) in ASKED {
        answers(&rt, &mut heap, mutator, command, reply);
    }
    Ok(())
}
