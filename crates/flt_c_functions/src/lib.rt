//! Which functions and tables of some C files are read, as a listing: each function with the place where reading stops, and each table of
//! registrations with its rows.
//!
//! Options are lines of directives before each file (`option`). The files share one table of texts, and headers (`source`); names of
//! constants stay as they are (`constant`), and the types that any file names (`class`) are known before a body is read (`body`). Items of a
//! header have the header's name (`place`). A listing has the lines of notes on directives and macros (`note`), and then those of all items
//! in order (`listing`, by `item`, `table`, `bare` and `stray`), written from pieces (`line`, `text`, `reason`). The same files have one
//! listing at most (`laws`).
#![tactic(auto)]

mod bare;
mod body;
mod class;
mod constant;
mod item;
mod laws;
mod line;
mod listing;
mod note;
mod option;
mod place;
mod reason;
mod source;
mod stray;
mod table;
mod text;
mod words;

pub use laws::lists_at_most_one;
pub use listing::{Listing, functions};
pub use option::Options;
