//! Size classes, the parts into which an object is cut, and the settings of a heap: the checked configuration.
#![tactic(auto)]

pub mod class;
pub mod config;
pub mod fault;
pub mod key;
pub mod laws;
pub mod need;
pub mod parts;
pub mod ranges;
mod settings;

pub use class::{CLASSES, Class, MOST_BLOCKS, PAGE_WORDS, class_of};
pub use config::{Config, LEAST_BUDGET, MOST_BUDGET, MOST_HEAP_PAGES, MOST_PAGES};
pub use fault::ConfigFault;
pub use key::{Key, KeyRange};
pub use need::Need;
pub use parts::{PART_CELLS, PartContents, Parts, Position, parts_of, spines_in};
pub use ranges::Ranges;
pub use settings::Settings;
