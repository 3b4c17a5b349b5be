//! The words about a finding: `words_of` says the mistake, how to fix it, and where the rule is stricter than the driver kit. Each sentence
//! goes by the rule (`advice`) and by the facts that choose it (`case`). `subjects` has the words for what a finding is about, and
//! `branches` those for the outcomes on a path.
#![tactic(auto)]

mod advice;
mod branches;
mod case;
mod subjects;
mod words;

pub use branches::{step_call_outcome, step_outcome, tell_branch};
pub use subjects::fact_word;
pub use words::{Words, state_at_end, words_of};
