//! Moves of the filter manager and of worker threads, as decisions: whether a move is enabled, and its effect, found out by reading alone
//! and without memory.
//!
//! A decision says which activation starts, which context is freed and how the store changes. Each is the machine's own step, by contract.
//! `next_of` and `next_of_teardown` find the move that comes next of an operation and of a filter's teardown.
#![tactic(auto)]

mod decision;
mod moves;
mod teardown;
mod turns;
mod waiting;

pub use decision::{Decision, Start};
pub use moves::decide;
pub use turns::{next_of, next_of_teardown};
