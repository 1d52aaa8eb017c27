//! A heap that keeps a flow by itself: before it does a command, its collector works as much as the plan wants. So a
//! program that keeps what is live within the flow is never refused for lack of space.
#![tactic(auto)]

pub mod asking;
pub mod cycles;
pub mod figures;
mod laws;
pub mod log;
pub mod logged;
pub mod pacer;
pub mod plan;
mod quanta;

pub use asking::words_of_shape;
pub use cycles::{Cycle, Cycles};
pub use figures::Figures;
pub use laws::{
    calls_are_deeds, heaps_of_some_classes_find_room, objects_cost_few_quanta,
    other_commands_need_no_pacer, paced_calls_add_up, paced_events_run, paced_heaps_find_room,
    pieces_left_suffice, plans_need_pages, words_paid_ahead_are_free, work_keeps_to_words,
};
pub use log::{Log, NoLog};
pub use logged::Logged;
pub use pacer::{AbovePlan, Pacer};
pub use plan::{
    Plan, classes_in, cycle_quanta, flow_fits, lasts, least_pages, least_pages_for, moves_all,
    planned, planned_for,
};
