//! An activation of a small world, and the steps that it makes by itself.
//!
//! An `Activation` is a copyable value: its point, the objects that its variables name, its holdings, its `locks` and its `turns`. `go_on`
//! makes the steps that nobody else sees (`local`), up to the next one that others see or that leaves the system a choice. If turns of a
//! `repeat` do the same, the rest of them is made at once (`laps`).
#![tactic(auto)]

mod activation;
mod laps;
mod local;
mod locks;
mod turns;

pub use activation::{Activation, NOBODY, Start, VariableValue};
pub use locks::Locks;
pub use turns::Turns;
