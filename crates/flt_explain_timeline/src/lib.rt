//! Timelines: journals as people read them. A row is a stretch in which one activation or the system is on, a column is an operation, and a
//! repetition is shown once.
//!
//! `running` runs a journal in the monitor's world and describes each entry (`telling`): the steps of an activation by `going`, with the
//! lines of `callbacks` and the outcomes of `outcome`, in the columns of `columns`, and, if the entry isn't enabled, with the reason of
//! `refusal`. `course` does this up to the entry that ends the run, and `tellings` keeps equal descriptions (`likeness`) once. `rows` cuts
//! entries into rows, and `folds` finds repetitions. `words` and `text` write it all.
#![tactic(auto)]

mod callbacks;
mod columns;
mod course;
mod filters;
mod folds;
mod going;
mod likeness;
mod outcome;
mod refusal;
mod rows;
mod running;
mod telling;
mod tellings;
mod text;
mod timeline;
mod words;

pub use callbacks::{callbacks_at, start_of};
pub use filters::tree_at;
pub use folds::Fold;
pub use going::Stage;
pub use rows::Row;
pub use telling::StartedCallback;
pub use timeline::Timeline;
pub use words::put_callback;
