//! Finds all faults of a text: where the analyser stops at the first broken rule, the walk here takes the rule as kept and continues. It
//! exports `findings` for a text, `faults` for a point and a state, and `is_about` for one operand there.
#![tactic(auto)]

mod about;
mod at_point;
mod by_point;
mod finding;
mod locks;
mod mending;
mod of_text;
mod operands;
mod sets;
mod sight;
mod tell;
mod walk;
mod writes;

pub use about::{is_about, is_action_about, is_context, is_lock, is_operation};
pub use at_point::faults;
pub use finding::{Fault, Finding, Subject};
pub use mending::mending_is_exact;
pub use of_text::findings;
