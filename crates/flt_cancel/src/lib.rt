//! Cancel pads: requests to cancel an operation, named by its serial number, in 1,024 words that threads share.
//!
//! Any thread asks for a serial in one atomic step, and sets a mark in another, which says which 16 words must be looked at. It waits for
//! nobody, takes no memory and is never refused. Any thread collects a word of requests, or all marks, in one atomic step. Whatever the
//! threads do, no request and no mark is lost, and none is invented.
#![tactic(auto)]

mod laws;
mod pads;
mod rule;
mod seat;
mod step;
mod words;

pub use laws::{none_invented, none_lost, one_history};
pub use pads::Pads;
pub use seat::{Seat, View};
/// The answer of opening the pads if memory is refused.
pub use std::alloc::AllocError as OutOfMemory;
pub use step::Step;
