//! Sets of states that no step of a callback leads out of: a situation that isn't in such a set can't occur. It exports `is_closed`, which
//! checks whether a set is one, by one step from each of its states.
#![tactic(auto)]

mod closed;
mod member;

pub use closed::{closed_sets_are_closed, is_closed};
pub use member::Member;
