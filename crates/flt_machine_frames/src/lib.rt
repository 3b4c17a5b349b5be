//! How far activations have come, and their local steps, on points with turns in place of trees.
//!
//! A `Standing` is a machine's record of an activation: its point, the repeats in progress round it, its variables and the locks that it
//! holds. A frame is a `Standing` that was taken from a machine; `advance` makes its local steps, up to the next one that others see,
//! without the machine. Nothing here allocates. Contracts say which of the machine's activations a `Standing` represents.
#![tactic(auto)]

mod advancing;
mod fault;
mod frame;
mod held_locks;
mod loaded;
mod loading;
mod local;
mod points;
mod standing;
mod turns;

pub use advancing::advance;
pub use fault::LoadedFault;
pub use flt_graph::{Graph, Instruction, Operation, Place, Turn};
pub use flt_rules::HeldLock;
pub use frame::{Advanced, Frame};
pub use held_locks::HeldLocks;
pub use loaded::Loaded;
pub use points::standings_have_points;
pub use standing::Standing;
pub use turns::Turns;
