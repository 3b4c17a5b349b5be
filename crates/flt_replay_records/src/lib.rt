//! The data structures of the monitor's world: a struct for each record of the machine, and the lists of them, with indices that save
//! searches.
//!
//! `parts` and `route` are the records. `activation`, `going`, `rest` and `lock_list` are one run of a callback, `behind` the blocks round
//! it, `kept` and `slot` its variables, and `local` its steps that nobody else sees. `context_list` keeps contexts, and `linked` finds them
//! by their links. `visit_list` has visits by operation, `holders` the holders of a lock, and `waiting_list` queues and work items;
//! `place_set` and `counts` are their indices, and `sparse_counts` counts numbers of which few count. Contracts see each list as the
//! machine's own, and mention no index.
#![tactic(auto)]

mod activation;
mod behind;
mod context_list;
mod counts;
mod going;
mod holders;
mod kept;
mod laws;
mod linked;
mod local;
mod lock_list;
mod number_map;
mod parts;
mod place_set;
mod queue;
mod rest;
mod route;
mod slot;
mod sparse_counts;
mod visit_list;
mod waiting_list;

pub use activation::{Activation, Spare, Write};
pub use counts::Counts;
pub use holders::Holders;
pub use laws::same_tests_find_the_same;
pub use linked::Contexts;
pub use lock_list::holds_lock;
pub use parts::{Actor, Frame, Route, Visit};
pub use rest::Upcoming;
pub use sparse_counts::SparseCounts;
pub use visit_list::Visits;
pub use waiting_list::Waiting;
