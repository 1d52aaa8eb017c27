//! Heaps for which memory is refused: the answer says so, and nothing has changed.
use super::*;
use graph_heap::{Entry, NoMemory, Reference, Reply};
use machine::Recorded;
use std::alloc::AllocGlobal;

/// The slow heap does a command and accepts another, or says that memory was refused and does it when asked again.
#[test]
fn of_a_slow_heap(rt: HostRuntime) -> Result<(), NoMemory> {
    let limits = config_of(&rt, &ONE_PAGE).limits();
    let mut reference = Reference::new(rt.alloc(), &limits)?;
    let replied = reference.reply(0, &plain(0, 1, 1));
    let Ok(reply) = replied else {
        assert_eq!(&rt; reference.reply(0, &plain(0, 1, 1))?, Reply::Made(1));
        return Err(NoMemory);
    };
    assert_eq!(&rt; reply, Reply::Made(1));
    let entry = Entry {
        mutator: 0,
        command: plain(1, 0, 0),
        reply: Reply::Made(2),
    };
    let Ok(is_step) = reference.accepts(&entry) else {
        assert!(&rt; reference.accepts(&entry)?);
        return Err(NoMemory);
    };
    assert!(&rt; is_step);
    Ok(())
}

/// Returns a page with its history.
fn recorded(rt: &(impl Abort + AllocGlobal)) -> Result<Recorded, NoMemory> {
    Recorded::new(rt.alloc(), &config_of(rt, &ONE_PAGE))
}

/// Returns the reply to a command of mutator 0.
fn reply_to(heap: &mut Recorded, command: Command) -> Result<Reply, NoMemory> {
    Ok(heap.call(0, command)?.entry().reply)
}

/// Calls for which room was made are all done.
#[test]
fn of_reserved_calls(rt: HostRuntime) -> Result<(), NoMemory> {
    let mut heap = recorded(&rt)?;
    heap.reserve(40)?;
    for k in 0..40usize {
        assert!(&rt;
            reply_to(&mut heap, Command::Clear { dst: 0 }).is_ok(),
            "{k}"
        );
    }
    Ok(())
}

/// A call that is refused memory leaves history and heap, and is done when it is asked again.
#[test]
fn of_calls(rt: HostRuntime) -> Result<(), NoMemory> {
    let mut heap = recorded(&rt)?;
    for k in 0..40usize {
        let made = Reply::Made(k as u64 + 1);
        let Ok(reply) = reply_to(&mut heap, plain(0, 0, 0)) else {
            assert_eq!(&rt; heap.history().len(), k);
            assert_eq!(&rt; reply_to(&mut heap, plain(0, 0, 0))?, made);
            return Err(NoMemory);
        };
        assert_eq!(&rt; reply, made);
    }
    Ok(())
}
