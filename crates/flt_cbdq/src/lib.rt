//! Cancel-safe queues: for each filter a sequence of pended operations' visits, first in first out, that can be disabled.
//!
//! A queue is a list of nodes of `ilist_core`; a table has the entries by the number of the node, and each queue finds the nodes of a visit
//! in a B-tree. With n entries in the queue of the filter that is named, a call takes
//!
//! | Call | Time |
//! |---|---|
//! | `insert` | logarithmic in n, over many calls: rows by node number grow as a `Vec` does |
//! | `remove_next`, `remove` | logarithmic in n |
//! | `first_of` | logarithmic in n for each given visit; if several have entries, also the steps to the found entry, for each |
//! | `entry` | as many steps as the place |
//! | `walk`, and each entry of the walk | constant |
//! | `disable` | constant |
//!
//! Counted in instructions, with 65,536 entries over the queues of 16 filters, `insert` takes 1,420 and `remove`, from the last entry to
//! the first, 1,750; with 16,384 entries 1,250 and 1,460.
//!
//! Only `new` and `insert` may take memory.
#![tactic(auto)]

mod chain;
mod entry;
mod fault;
mod nodes;
mod nodes_by_visit;
mod queues;
mod walk;

pub use entry::Entry;
pub use fault::InsertFault;
pub use queues::Queues;
pub use walk::Walk;
/// The answer of making the queues if memory is refused.
pub use std::alloc::AllocError as OutOfMemory;
