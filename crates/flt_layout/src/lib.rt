//! Lays out a text of the callback language, with its comments and its blank lines, and the laws of that layout.
#![tactic(auto)]

mod formatted;
mod laws;
mod scanned;
mod space;
mod state;
mod writer;

pub use formatted::{FormatError, format};
pub use laws::{
    is_laid_out_once, keeps_comments, keeps_items, keeps_tokens, keeps_tree, tokens_are_items,
};
pub use writer::lay_out;
