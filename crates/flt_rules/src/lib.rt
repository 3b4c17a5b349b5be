//! The tables of the verifier: the rules that it enforces, the levels and places at which a callback
//! may do what, the callback statuses, one row for each call, and the limits. The checker, the machine and the
//! monitor read levels, places and needs here and nowhere else.
#![tactic(auto)]

mod call;
mod columns;
mod held;
mod limits;
mod place;
mod refusal;
mod rule;
mod status;
mod table;

pub use call::{Anchor, Call, Existing, LockKind, LockNumber, Possessed, is_legal_in_draining};
pub use columns::{Change, Effects, LockChange, LockNeed, Need, Needs, Places, Row};
pub use held::{Access, HeldLock};
pub use limits::{
    MAX_ALTITUDE, MAX_CALLBACKS, MAX_COST, MAX_DEPTH, MAX_ENTRIES, MAX_FILTERS, MAX_LOCKS,
    MAX_OPERATIONS, MAX_POINTS, MAX_REPEATS, MAX_TEXT, MAX_TURNS,
};
pub use place::{Level, Mode, OPERATIONS, Operation, Place, Stage, entry_level, raised_by};
pub use refusal::Refusal;
pub use rule::{Rule, number, text};
pub use status::{FinalStatus, Possession, StatusRow, StatusWord, status_row};
pub use table::row;
