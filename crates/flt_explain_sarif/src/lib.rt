//! The findings of `explain` as SARIF 2.1.0, for other programs. It exports `sarif`.
//!
//! `results` writes the results of findings and of texts that don't parse, `warning_results` those of warnings, and `drift_results` those of
//! the drifts of C files; `run_flow` writes the run of a finding, and `fingerprints` has what stays the same of a result when lines move.
//! `artifacts` writes the files of the document, and `unread` how the program ran. `as_sarif` puts these together.
#![tactic(auto)]

mod artifacts;
mod as_sarif;
mod drift_results;
mod fingerprints;
mod results;
mod run_flow;
mod unread;
mod warning_results;

pub use as_sarif::sarif;
