//! The deeds at a shared heap: events, and the members that did them. They are for proofs alone.
use crate::past::Past;
use machine::Heap;
use paced::Logged;
use std::marker::Model;

/// An event of a heap, as contracts see it. No value is ever made.
#[derive(Drop)]
pub struct Happened {
    event: Logged,
}

impl Model for Happened {
    ghost use Rattle.heap_model.specs.Event.{Event};
    ghost use Rattle.paced.specs.Logged.{event_of};

    ghost Value = { Event };

    ghost view = { λ h. event_of h.event };
}

/// A heap with its history, as contracts see it. No value is ever made.
#[derive(Drop)]
pub struct Stood {
    heap: Heap,
    past: Past,
}

impl Model for Stood {
    ghost use Rattle.heap_model.specs.Event.{Course};
    ghost use Rattle.heap_shared.specs.Past.{course_of};

    ghost Value = { Course };

    ghost view = { λ s. course_of s.heap s.past };
}

/// An event, and the number of the member that did it. No value is ever made.
pub struct Deed {
    pub by: u64,
    pub event: Happened,
}
