//! Runs for other programs: each entry of a journal as a step, with its activation, its place and its words.
//!
//! `running` runs a journal, and keeps of each entry which activation starts or continues, and where. `naming` has the words for an
//! activation. `flow` puts these together with the words that `flt_explain_timeline` has for an entry. It exports `Flow`, `FlowStep` and
//! `FlowActivation`, and `FindingRun`, a run that breaks something because of a finding, with `run_of` and `source_of`, which look up the run
//! of a finding and the text of an activation.
#![tactic(auto)]

mod finding_run;
mod flows;
mod naming;
mod running;

pub use finding_run::{FindingRun, run_of, source_of};
pub use flows::{Flow, FlowActivation, FlowStep};
