//! One search for all findings of some filters: for each a run of the machine with a violation that its rule prevents.
//!
//! `search` goes through the rounds of `flt_search_rounds`, and picks a run that each has found for each goal (`searching`). Each pick is
//! replayed: it is a run only if the monitor judges it to break something by its last entry (`judging`), entries that a run doesn't need
//! are left out (`shortening`), and each goal is answered by a copy of a run that breaks one of its violations (`answering`). This is
//! proved. No clause says that a run is found if one exists.
#![tactic(auto)]

mod answering;
mod goal;
mod judging;
mod searching;
mod shortening;

pub use answering::Answer;
pub use flt_search_rounds::{SearchWatch, UnwatchedSearch, WatchedSearch};
pub use goal::{Bounds, Goal};
pub use judging::{BreakingJournal, journal_of};
pub use searching::search;
