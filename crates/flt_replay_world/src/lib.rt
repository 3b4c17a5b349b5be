//! The monitor's world and the filters of a run: reads by number, and changes of one thing at a time.
//!
//! Contracts see `World` as the machine's world and `Stack` as the list of filters, so that each function here is a definition of
//! `flt_model/specs` or a change that those make.
#![tactic(auto)]

mod callbacks;
mod events;
mod filters;
mod opening;
mod stack;
mod unlinking;
mod world;

pub use events::{UncountedHeap, push_event};
pub use filters::filters_of;
pub use stack::Stack;
pub use world::World;
