//! Tickets: the subjects that wait for a move, shared between the threads that name them and the threads that make it.
//!
//! Each worker has a deque, first in, first out, and all share one injector. Callers put tickets into the injector; a worker pushes onto
//! its own deque, which waits for nobody, and takes from it, then from the injector, then from the others' deques. Whatever the threads
//! do, no ticket is taken twice and none is invented.
#![tactic(auto)]

mod deque;
mod gate;
mod hand;
mod laws;
mod opening;
mod pool;
mod rule;
mod seats;
mod way;

pub use flt_model::Subject as Ticket;
pub use gate::Gate;
pub use hand::Hand;
pub use laws::none_taken_twice;
pub use pool::Pool;
pub use seats::{PutSeat, TakeSeat};
/// The answer of opening a pool if memory is refused.
pub use std::alloc::AllocError as OutOfMemory;
