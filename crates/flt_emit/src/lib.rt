//! The C source of a minifilter from the tree of its text, with a header for its writer and a file for its installation.
#![tactic(auto)]

mod actions;
mod callbacks;
mod expressions;
mod files;
mod fixed;
mod fixed_callbacks;
mod fixed_files;
mod line;
mod names;
mod part;
mod scope;
mod source;
mod statements;
mod uses;

pub use files::{emit_header, emit_installation};
pub use part::{Part, emit_part};
pub use scope::Allocation;
pub use source::emit;
