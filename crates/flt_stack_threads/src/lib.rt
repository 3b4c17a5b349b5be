//! The running stack: loaded filters, a board of them guarded by a lock, and the callers and workers that share it.
//!
//! A caller lets operations arrive, cancels them and begins teardowns; each goes through a seat of its own, which keeps the receipts of the
//! calls that succeeded. A worker has a seat too. Whenever the lock is free the board's journal is a run of the machine on the loaded
//! filters that breaks nothing. The journal that the end returns is one too.
//!
//! Callers and workers meet at an `exchange` of tickets and of requests to cancel an operation. A caller puts tickets and asks for cancels;
//! a worker takes tickets, pushes those that its own moves name, and collects the requests. Each has one of the `places` at the exchange,
//! which records in contracts the tickets and requests that went through it. Whatever the threads do, no ticket is taken twice, no request
//! is lost, and none of either is invented.
#![tactic(auto)]

mod asking;
mod ending;
mod exchange;
mod joining;
mod opening;
mod pace;
mod places;
mod requests;
mod round;
mod seats;
pub mod sharing;
mod stack;
mod waiting;
mod word;
mod working;

pub use ending::Differ;
pub use exchange::Exchange;
pub use flt_pool::{Gate, Ticket};
pub use flt_stack_core::{ArriveFault, Counts, DetachFault, Receipt, StackName, TurnFault};
pub use places::{CallerPlace, WorkerPlace};
pub use seats::{CallerSeat, WorkerSeat};
pub use stack::{Blanks, Stack};
/// The answer of opening an exchange or a stack if memory is refused.
pub use std::alloc::AllocError as OutOfMemory;
