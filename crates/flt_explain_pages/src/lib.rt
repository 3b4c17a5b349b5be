//! The pages that `explain` prints on rules, warnings, violations, faults of texts, calls and statuses. It exports `page`.
#![tactic(auto)]

mod calls;
mod faults;
mod pages;
mod rules;
mod statuses;
mod violations;
mod warnings;

pub use pages::page;
