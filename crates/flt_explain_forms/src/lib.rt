//! The findings of `explain` line by line: as a JSON object each, or as a sentence each. It exports `lines`, with the `Style` of a line, and
//! `drift_objects`, by which the drifts of C files are objects, too.
#![tactic(auto)]

mod as_lines;
mod clean;
mod drift_lines;
mod fault;
mod finding;
mod places;
mod preface;
mod run_member;
mod short;
mod steps;
mod warning;

pub use as_lines::{Style, lines};
pub use drift_lines::drift_objects;
