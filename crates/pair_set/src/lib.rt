//! A set of pairs of numbers, which finds the least second number of a first one without a search.
#![tactic(auto)]

mod pairs;

pub use pairs::PairSet;
