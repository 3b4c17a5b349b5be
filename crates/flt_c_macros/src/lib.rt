//! Directives of C: groups of lines are decided or marked, and macros are expanded.
//!
//! The tokens of a driver's files become tokens without directives (`whole`): lines of directives (`directive`) define macros (`define`,
//! `macros`) and open groups (`branch`, `groups`), whose conditions (`condition`, `form`, `guard`) are numbers or unknown. The text between
//! them is expanded (`text`) by a machine that reads items (`machine`, `item`): arguments are looked for (`arguments`) and put in bodies
//! (`body`). Macros with `#` or `##` stay in the text. These, and whatever couldn't be read, are noted at their places (`note`).
#![tactic(auto)]

mod arguments;
mod body;
mod branch;
mod condition;
mod define;
mod directive;
mod error;
mod form;
mod groups;
mod guard;
mod item;
mod kind;
mod machine;
mod macros;
mod note;
mod number;
mod state;
mod text;
mod value;
mod whole;

pub use error::MacroError;
pub use kind::spelling;
pub use note::{Note, NoteKind};
pub use state::MAX_ADDED;
pub use whole::{Expansion, expanded};
