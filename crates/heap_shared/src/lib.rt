//! A heap that threads share, and none of them waits in here. A member takes its turn if no other has it, does as many commands of
//! its own mutators as it likes, and gives the turn back. The log of the heap exists in proofs alone, except its last entries, if a
//! ring for them is asked for. The heap may keep a plan.
#![tactic(auto)]

mod crossing;
mod deed;
mod fault;
mod fitting;
mod laws;
mod lists;
mod log;
mod member;
mod pacing;
mod past;
mod ring;
mod rule;
mod shared_heap;

pub use crossing::members_cross;
pub use deed::{Deed, Happened, Stood};
pub use fault::{NoEntry, NoMember, NoTurn, NotDone, NotPrepared};
pub use laws::{histories_merge, logs_merge, no_event_is_hidden, nothing_is_done_between};
pub use log::HeapLog;
pub use member::Member;
pub use past::Past;
pub use ring::Ring;
pub use rule::{Account, Known, Last, TurnRule};
pub use shared_heap::{SharedConfig, SharedHeap};
