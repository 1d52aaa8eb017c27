//! Calls that are lists of commands, each once.
use super::*;
use bulk::{Progress, clear_slots, copy_refs, get_words, move_slot, new_with, put_words};
use graph_heap::{Refusal, Reply};
use machine::Heap;

const SHAPE: Shape = Shape::Plain { refs: 2, words: 3 };

/// Returns whether `done` commands were done, and then one was refused for this reason, or none.
fn is(told: Progress, done: u32, refused: Option<Refusal>) -> bool {
    told == Progress { done, refused }
}

/// Makes an object that holds itself and null. Its words are written past the last, and read past it.
fn words_go_in_and_out(heap: &mut Heap) -> bool {
    let mut words = [1, 2, 3, 4];
    let made = new_with(heap, 0, 0, SHAPE, [0, 1].as_slice(), [7, 8].as_slice());
    let put = put_words(heap, 0, 0, 1, [9, 10, 11].as_slice());
    let got = get_words(heap, 0, 0, 0, words.as_mut_slice());
    is(made, 5, None)
        && is(put, 2, Some(Refusal::BadIndex))
        && is(got, 3, Some(Refusal::BadIndex))
        && words == [7, 9, 10, 4]
}

/// Its references go into another object, which is moved; and slots are cleared past the last.
fn references_are_copied(heap: &mut Heap) -> bool {
    let made = new_with(heap, 0, 1, SHAPE, [].as_slice(), [].as_slice());
    let copied = copy_refs(heap, 0, 2, 0, 0, 1, 0, 2);
    let moved = move_slot(heap, 0, 3, 1);
    let kept = move_slot(heap, 0, 3, 3);
    let loaded = heap.load(0, 1, 3, 0);
    let cleared = clear_slots(heap, 0, 2, u32::MAX);
    is(made, 1, None)
        && is(copied, 4, None)
        && is(moved, 2, None)
        && is(kept, 1, None)
        && loaded == Reply::Ref(1)
        && is(cleared, 2, Some(Refusal::BadSlot))
}

/// Each call once, on a heap of four slots.
#[test]
fn lists_are_done_up_to_a_refusal(rt: HostRuntime) {
    let settings = Settings {
        pages: 2,
        slots: 4,
        ..Settings::DEFAULTS
    };
    let Ok(config) = Config::check_for_library(&settings) else {
        panic!(rt; "the settings are good");
    };
    let Ok(heap) = Heap::new(rt.alloc(), &config) else {
        panic!(rt; "there is memory");
    };
    let mut heap = heap;
    assert!(rt; words_go_in_and_out(&mut heap));
    assert!(rt; references_are_copied(&mut heap));
}
