//! Where a finding comes from: the statement that caused it, or the entry of the callback.
//!
//! `facts` has what an instruction keeps and makes of a fact, and `fact_about` (`about`) the fact that a finding is about in a situation.
//! `origin_on` (`origin`) looks for the origin on a path, `origin_at` (`path`) by the graph alone, and `groups` (`grouping`) groups the
//! findings of one origin. A path is a list of steps between situations (`answer`, `situation`), and a `FindingTrace` (`trace`) has the
//! paths to a finding and its origin. `flt_explain_ways` looks for paths.
#![tactic(auto)]

mod about;
mod answer;
mod changes;
mod entered;
mod facts;
mod grouping;
mod origin;
mod path;
mod situation;
mod trace;

pub use about::fact_about;
pub use answer::{Answer, Step, Way, Ways};
pub use facts::{Fact, VariableStatus, keeps, makes, steps_follow_situations};
pub use grouping::{Group, TracedFinding, groups, groups_part_findings};
pub use origin::{Cause, Origin, origin_on, ways_have_origins};
pub use path::origin_at;
pub use situation::{Moment, Situation};
pub use trace::FindingTrace;
