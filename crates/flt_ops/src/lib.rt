//! Operations that pass the filters: their arrivals, their positions, the post callbacks that wait for them, and their visits.
//!
//! `parts` has the records, `visit_rows` the visits with a list of those of each operation and a count of the unsettled ones,
//! `route_rows` how far each operation has come, with an index that finds the least operation with a frame of a filter, and
//! `operations` the calls. Contracts see the machine's own records; the lists, the count and the index save searches, and no
//! contract mentions them.
//!
//! Counted in instructions, with 65,536 operations that go down through 16 filters and up again side by side: a visit takes 1,000 from
//! `start_pre` or `pop_frame` to `settle`, `least_frame` and `is_done` together 270; with 16,384 operations 950 and 250.
#![tactic(auto)]

mod fault;
mod numbers;
mod operations;
mod parts;
mod route_rows;
mod visit_rows;

pub use fault::ArriveFault;
pub use operations::Operations;
pub use parts::{CallbackStart, Frame, Visit};
/// The answer of a call that was refused memory.
pub use std::alloc::AllocError as OutOfMemory;
