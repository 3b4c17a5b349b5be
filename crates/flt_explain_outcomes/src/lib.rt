//! The outcomes of findings in runs: the run of the machine that breaks something because of a finding, or why there is none.
//!
//! Finding runs: `violations` has the violations to which a broken rule leads, and `hand_over` finds out whether a callback is ever handed
//! a context. `outlook` knows which findings no run reaches, since nothing starts their callback or nothing sets a context that is got
//! before (`unset`); `reach` finds the possible states of a variable at each point of a text (`possible`), and checks that nothing leads
//! out of them. `schedules` looks for runs with `flt_search`, of all filters of a stack at once and of the findings' filter alone, or says
//! why there is none. `meeting` says which filters meet.
//!
//! Notes: each finding that is reported by itself has a note. `noted` is the outcome of a finding; `setters` adds a callback to a text that
//! sets contexts which nothing in it sets, and `again` has the outcome of a finding then. `also` has the violation of a run that was shown
//! beside its least one. `readings` has the texts and the trees of those that parse, and `noting` makes the notes of texts. No word of a
//! report is here: `flt_explain_runs` prints the notes. It exports `notes_on`, `read_all`, `first_journal`, `schedule_of`,
//! `outcomes_among`, `own_trees` and `own_files`.
#![tactic(auto)]

mod again;
mod also;
mod hand_over;
mod meeting;
mod noted;
mod noting;
mod outlook;
mod possible;
mod reach;
mod readings;
mod schedules;
mod setters;
mod unset;
mod violations;

pub use again::Setting;
pub use noted::{Note, SetterOutcome, first_journal, own_files, own_trees, schedule_of};
pub use noting::{ParsedText, Stage, TextNotes, notes_on, tree_at};
pub use outlook::Outlook;
pub use readings::{Reading, Readings, StudiedText, read_all};
pub use schedules::{
    JointOutcome, Outcome, RunSearch, Schedule, Suspect, Suspects, only, outcomes_among,
};
pub use setters::Setter;
pub use unset::Unset;
pub use violations::violations_of;
