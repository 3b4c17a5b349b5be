//! Filters made ready for the search for runs.
//!
//! `Plan::of` lowers them into points, and finds out once what the search asks of them again and again: which variables can still be read
//! at each point (`live`), which callbacks an operation can start (`starting`), which repeats only count (`straight`), what calls link and
//! queue and whether a test can see a value or the number of a file (`uses`), and which files are worth a try (`files`).
#![tactic(auto)]

mod files;
mod live;
mod plan;
mod starting;
mod straight;
mod uses;
mod variables;

pub use live::Live;
pub use plan::Plan;
pub use variables::{CONTEXTS, NUMBERS, REMOVED};
