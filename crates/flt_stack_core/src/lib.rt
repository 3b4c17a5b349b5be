//! The state that the running stack's lock guards: a board of the loaded filters and the system's choices, with two books that count the
//! entries of the journal, and one that counts refusals for lack of room.
//!
//! A stack has a name, a type: it names the loaded filters and three ledgers. A caller's arrivals count in its receipts' share of the first
//! ledger, a worker's moves in its share of the second. So the books say of the journal the same as the shares together. The third counts
//! nothing unless the journal is full, and a full journal stays full. Nothing here waits or starts a thread.
//!
//! A board is driven by tickets, one turn at a time. A ticket is a subject, which the next move may be about. `one::turn` makes the move of
//! the first subject of a list, and puts the subjects that this move names at the list's end.
//!
//! Receipts are the records that callers keep of their arrivals and detaches, and `agree` compares them with the journal. A journal has one
//! receipt for each entry that a caller made: the entry's number, its move, and the answer that the caller got. If those of the journal are
//! those of the seats together, each once, then one call of one caller requested each such entry, and got this answer.
#![tactic(auto)]

mod agreeing;
mod board;
mod choices;
mod fault;
mod holds;
mod laws;
mod names;
pub mod one;
mod receipt;
mod receipts;
mod search;
mod sought;
mod turn_fault;
mod turns;

pub use agreeing::agree;
pub use board::Core;
pub use choices::Choices;
pub use fault::{ArriveFault, DetachFault};
pub use holds::HoldsReceipts;
pub use laws::arrivals_are_operations;
pub use names::{CallerEntries, Counts, Fulls, OtherEntries, StackName};
pub use receipt::Receipt;
pub use receipts::Receipts;
pub use turn_fault::TurnFault;
pub use turns::TicketTurn;
