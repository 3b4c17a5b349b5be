//! The kinds of a filter's contexts: which of them are allocated for the instance and which for a stream. A context of the driver kit has
//! one kind from its allocation on, while a text leaves the kind out. It exports `context_kinds`, which follows contexts from the
//! statements that allocate or give them, through variables, references, the queue, work items and completion contexts, to those that set
//! them; and `completed_create`, which finds a `pre create` that completes with success.
#![tactic(auto)]

mod cells;
mod creates;
mod flows;
mod kinds;
mod mixed;
mod rounds;
mod sites;
mod slot;

pub use creates::completed_create;
pub use kinds::{ContextKinds, context_kinds, kinds_exclude_mixtures};
pub use mixed::MixedContext;
pub use slot::{Flow, Slot, Spot};
