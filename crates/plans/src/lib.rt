//! Reports and data of the plans by which a heap paces itself. They say on how few pages there is a plan, which plan
//! there is on some numbers of pages, and for how many live words a trace or some objects need one.
#![tactic(auto)]

mod bars;
mod laws;
mod live;
mod needs;
mod objects;
mod observing;
mod order;
mod report;
mod row;
mod runs;
mod surveying;
mod table;
mod waits;

pub use bars::{PlanBar, PlanFigures, plans_data};
pub use laws::{programs_keep_their_share, told_shares_are_kept};
pub use live::{LiveMeter, MostLive};
pub use needs::Needs;
pub use objects::{kinds_take_the_same, objects_report, words_of_objects};
pub use report::plans_report;
pub use runs::run_plans;
