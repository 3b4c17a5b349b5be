//! The meaning of the emitted C source of a filter: a reader of sources, as a definition that no program runs, and the laws that it reads each
//! source back to the tree of its text. Beside them the one thing that C has no words for, a return that isn't one of its place.
#![tactic(auto)]

mod laws;
mod unfit;

pub use laws::{reads_back, reads_back_whole, says_one_filter};
pub use unfit::unfit_return;
