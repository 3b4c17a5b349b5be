//! The preparation of a run: a script is read, each text of a filter gets its least certificate, and all are loaded.
//!
//! `prepare` (`preparing`) reads texts and script, certifies each text (`certified`) and loads them all.
#![tactic(auto)]

mod certified;
mod fault;
mod preparing;

pub use fault::RunFault;
pub use preparing::{PreparedRun, prepare};
