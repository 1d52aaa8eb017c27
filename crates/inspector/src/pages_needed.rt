//! The report of the pages that a program needs.
mod from;
mod lines;
mod needed_text;
mod pace_text;

pub use from::fits_from;
pub use needed_text::needed_report;
pub use pace_text::pace_report;
