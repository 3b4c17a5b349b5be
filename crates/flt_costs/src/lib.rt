//! Costs: in each journal that is a run, no activation makes more steps than its callback costs, whatever else runs beside it. All of it
//! is for proofs; no program runs any of it.
#![tactic(auto)]

mod laws;

pub use laws::{journals_stay_within_costs, steps_spend};
