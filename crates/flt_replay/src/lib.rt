//! The monitor of journals: whether a journal is a run of the machine on some filters, and the first thing that it breaks.
//!
//! It runs the filters' trees, in the world of `flt_replay_world`, by the steps and moves of `flt_replay_steps`. `ledger` counts the
//! holders of objects, `rules` finds the rules that a step's events break, and `monitor` goes through the entries.
#![tactic(auto)]

mod ledger;
mod monitor;
mod rules;
mod statuses;

pub use monitor::{broken_rule_at_last, replay, world_after};
