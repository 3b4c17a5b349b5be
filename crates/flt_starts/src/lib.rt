//! Starts: no run of the machine starts a callback outside a closed set, which has the pre callbacks and all that the statements of its
//! callbacks ask for. All of it is for proofs; no program runs any of it.
#![tactic(auto)]

mod laws;

pub use laws::{starts_are_told, unasked_callbacks_never_start};
