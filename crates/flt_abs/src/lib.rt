//! Abstract states: sets of possible situations at a point of a callback, with their order, their join, and the effect of each instruction
//! on them.
#![tactic(auto)]

mod breaks;
mod entry;
mod leads;
mod locks;
mod outcome;
mod past;
mod sets;
mod setting;
mod state;
mod step;
mod variables;

pub use entry::{entry_state, is_entry_below};
pub use leads::Leads;
pub use locks::LockList;
pub use outcome::transfer_follows_situations;
pub use past::{breaks_rule, breaks_rule_is_monotone, leads_past, leads_past_follows_situations};
pub use sets::{Draining, Modes, Statuses};
/// No call answers it: the definitions of the rules speak of it.
pub use setting::{Setting, graphs_are_registered_alike};
pub use state::{
    Abs, CONTEXTS, LocksDiffer, OPERATIONS, is_partial_order, join, joins_are_least, leq, unite,
};
pub use step::{
    Successor, Successors, transfer, transfer_into, transfer_is_monotone,
    transfer_keeps_states_proper,
};
