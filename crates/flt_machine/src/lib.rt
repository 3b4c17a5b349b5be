//! The board: an executable machine of one thread, with a journal.
//!
//! Each call of a board is exactly the machine's step, for any texts, accepted or not. It first finds its effect by reading alone, then
//! grows all that may need memory, then makes the change. So a refusal leaves board and journal unchanged.
#![tactic(auto)]

mod active;
mod actor;
mod applying;
mod board;
mod committing;
mod events;
mod fault;
mod kept;
mod tickets;
mod writing;

pub use board::Board;
pub use committing::Commit;
pub use events::Events;
pub use fault::ApplyFault;
pub use flt_machine_frames::{Advanced, Frame, Loaded, LoadedFault, advance};
/// How an operation ended at its lowest point.
pub use flt_model::Outcome;
/// The answer of a call that was refused memory.
pub use std::alloc::AllocError as OutOfMemory;
