//! Growths through a heap that counts the requests that were refused.
//!
//! A contract that says of an error that the count has changed, and of any other answer that it hasn't, lets no body report refused memory
//! where none was refused. Nothing but the calls of `Heap` changes a count, and each of them asks for memory first.
#![tactic(auto)]

mod heap;

pub use heap::Heap;
