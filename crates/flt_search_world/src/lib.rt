//! A small world: a bounded copy of the machine for the search for runs.
//!
//! A `World` is a copyable value with few places for objects (`world`). Activations make the steps that others see (`step`, `settle`), the
//! system makes its moves, several in a row if nobody sees the worlds between (`moves`), and objects that nothing reaches any more are
//! taken out (`sweep`). A step that needs more places isn't followed. A step says what it breaks. No clause ties any of this to the
//! machine: the runs that the search finds by it are replayed.
#![tactic(auto)]

mod entries;
mod frames;
mod moves;
mod settle;
mod step;
mod sweep;
mod violations;
mod world;

pub use entries::{Entries, Entry};
pub use frames::{Frame, Frames};
pub use moves::{MoveEntries, NOTHING_MADE, Next};
pub use step::Course;
pub use violations::{VIOLATIONS, Violations};
pub use world::{
    Context, ContextLink, Item, MAX_ACTIVATIONS, MAX_CONTEXTS, MAX_FILTERS, MAX_ITEMS,
    MAX_OPERATIONS, MAX_VISITS, OPENING, Passage, Visit, Whereabouts, World,
};
