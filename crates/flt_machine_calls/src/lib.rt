//! Steps that others see, as plans: the effects of a call, a read, a test or the end of a callback, found out by reading alone.
//!
//! A plan has the step's events, the side by which the activation continues, the writes to its variables and locks, and the change of the
//! store. Nothing is changed before the plan is made, so that a refusal of memory leaves all as it was. Each plan is the machine's own
//! step, by contract; `plan_step` makes the plan of an activation's next instruction.
#![tactic(auto)]

mod caller;
mod contexts;
mod continuing;
mod locking;
mod planning;
mod plans;
mod queueing;
mod reads;
mod settling;

pub use caller::Caller;
pub use continuing::continued;
pub use planning::plan_step;
pub use plans::{Plan, Write};
/// The answer of a plan that was refused memory.
pub use std::alloc::AllocError as OutOfMemory;
