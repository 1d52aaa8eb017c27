//! The rule of the word by which members take turns, and the steps on it.
use crate::deed::{Deed, Stood};
use crate::shared_heap::{SharedConfig, SharedHeap};
use atomic_table::{Play, Split, TableRule};
use std::collections::LinkedList;

/// How many words the table has. Only one counts. The others keep its cache line free of the memory beside the table.
pub const WORDS: usize = 32;

/// The place of the word that counts.
pub const TURN_WORD: usize = 16;

/// A member's account of the log. It has these parts:
///
/// - the mutators for which it alone calls, from one number on and below another;
/// - its own number, and the step from one to the next of the numbers that it alone has, or can give away;
/// - the deeds that it has seen.
///
/// No value of it is made.
pub struct Account {
    pub from: u32,
    pub to: u32,
    pub number: u64,
    pub step: u64,
    pub seen: LinkedList<Deed>,
}

/// A heap that a member found or put back, and how long the log was then. No value of it is made.
pub struct Last {
    pub length: u64,
    pub heap: Stood,
}

/// The knowledge of a member. It has these parts:
///
/// - the wishes for the heap;
/// - its account, and where its mutators were cut last;
/// - the accounts of the members that it has learnt from;
/// - whether it has the turn;
/// - the heap that it found or put back last.
///
/// No value of it is made.
pub struct Known {
    pub config: Option<SharedConfig>,
    pub from: u32,
    pub to: u32,
    pub number: u64,
    pub step: u64,
    pub cut: u32,
    pub seen: LinkedList<Deed>,
    pub learnt: LinkedList<Account>,
    pub inside: bool,
    pub last: Option<Last>,
}

/// One word counts, and there is one slot. The word is twice the length of the log, as it wraps, and one more while a member has
/// the turn. While none has it, the heap lies in the slot, and exactly the log led to it. The log begins with the deeds that a
/// member has seen, and goes on with deeds of others.
pub struct TurnRule;

impl TableRule<SharedHeap, Known, SharedConfig> for TurnRule {
    ghost use Rattle.heap_shared.specs.Turns.{Keeps, newcomer};

    ghost holds = { Keeps };

    ghost first = { newcomer };
}

/// A step that takes the turn, if nobody has it.
pub struct Enter;

impl Play<SharedHeap, Known> for Enter {
    ghost use Rattle.heap_shared.specs.Turns.{Entered};

    ghost then = { Entered };
}

/// A step that gives the turn back.
pub struct Leave;

impl Play<SharedHeap, Known> for Leave {
    ghost use Rattle.heap_shared.specs.Turns.{Left};

    ghost then = { Left };
}

/// A step that looks at the word.
pub struct Look;

impl Play<SharedHeap, Known> for Look {
    ghost use Rattle.heap_shared.specs.Turns.{Looked};

    ghost then = { Looked };
}

/// A step that changes nothing of the table. It says where a member's mutators are cut in two.
pub struct Cut;

impl Play<SharedHeap, Known> for Cut {
    ghost use Rattle.heap_shared.specs.Turns as turns;

    ghost then = { turns.Cut };
}

/// A new member has seen the same deeds as its maker, and gets its maker's mutators from the cut on.
pub struct Halve;

impl Split<Known> for Halve {
    ghost use Rattle.heap_shared.specs.Turns.{before_cut, behind_cut};

    ghost left = { before_cut };

    ghost right = { behind_cut };
}

/// A spare seat is made, which knows nothing.
pub struct Spare;

impl Split<Known> for Spare {
    ghost use Rattle.heap_shared.specs.Turns.{nobody};

    ghost left = { λ v. v };

    ghost right = { λ _. nobody };
}

/// A member takes over another's account.
pub struct Learn;

impl atomic_table::Join<Known> for Learn {
    ghost use Rattle.heap_shared.specs.Turns.{learning, nobody};

    ghost both = { learning };

    ghost spent = { nobody };
}

/// A member takes back the mutators that it gave to another, which did nothing.
pub struct Rejoin;

impl atomic_table::Join<Known> for Rejoin {
    ghost use Rattle.heap_shared.specs.Turns.{rejoined, nobody};

    ghost both = { rejoined };

    ghost spent = { nobody };
}
