//! Reports for people with the run of the machine that breaks something because of each finding.
//!
//! After a report's help comes a journal that breaks what its rule prevents, row by row, or the reason why there is none: the note on the
//! finding, which `flt_explain_outcomes` makes. `lines` has the words for a note, and `again_lines` those for a run of the text with one more
//! callback. `notices` has the reports of a certificate, a journal or a script. `warnings` has the report of a text without findings: the
//! promise, and the warnings of a `warned` text, with the run to a deadlock below a circle of locks (`deadlocks`). `parts` is the report of
//! a text, part by part, and what writes it; `quiet` keeps other lines from being taken for those on runs. `printing` makes the report of a
//! text with its notes, `together` puts those of several texts out, each as soon as it is whole, and `totals` counts the findings of all of
//! them. It exports `explain`.
#![tactic(auto)]

mod again_lines;
mod deadlocks;
mod explaining;
mod fault;
mod lines;
mod notices;
mod parts;
mod printing;
mod quiet;
mod together;
mod totals;
mod warned;
mod warnings;

pub use explaining::{Asking, ExplainOutput, explain};
pub use fault::ExplainFault;
pub use flt_search::{SearchWatch, UnwatchedSearch};
