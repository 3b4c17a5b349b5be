//! Runs a journal in the monitor's world, whatever it breaks, for those who show or explain a run that is judged already.
//!
//! `coming` has the upcoming statement of an activation, and says whether others see its step; `entries` makes moves and steps.
#![tactic(auto)]

mod coming;
mod entries;

pub use coming::{is_local, upcoming};
pub use entries::{go_locally, make_move, step_seen};
