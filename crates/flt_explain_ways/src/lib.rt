//! The traces of findings: a path through the callback to each, with its origin, and which findings are reported by themselves.
//!
//! `ways` (`to_finding`) looks for a path from a situation at the entry, step by step, to the finding's point, and checks it; or it finds
//! out, from all that the search reached, that there is none. `Traces` (`tracing`) has the path and the origin of each finding of a text,
//! and the groups of one origin; `reported_findings` (`reported`) has the first of each group. Origins are those of `flt_explain_origins`.
#![tactic(auto)]

mod aims;
mod choices;
mod cover;
mod ends;
mod faults;
mod ground;
mod held;
mod meeting;
mod plan;
mod possible;
mod reached;
mod reported;
mod search;
mod seeking;
mod sought;
mod starts;
mod table;
mod tasks;
mod to_finding;
mod tracing;

pub use reported::{ReportedFinding, ReportedFindings, reported_findings};
pub use to_finding::ways;
pub use tracing::Traces;
