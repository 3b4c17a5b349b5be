//! The store, which activations share: filters, queues, lock holders, operations, contexts and work items.
//!
//! `Store` reads these, in the machine's own terms, and makes changes one at a time. A change needs memory in one place at most, before
//! anything is changed, so that a refusal leaves all as it was.
#![tactic(auto)]

mod change;
mod holders;
mod items;
mod performing;
mod places;
mod store;

pub use change::Change;
pub use flt_cbdq::Entry;
pub use flt_ops::{Frame, Visit};
pub use store::Store;
/// The answer of a change that was refused memory.
pub use std::alloc::AllocError as OutOfMemory;
