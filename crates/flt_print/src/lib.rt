//! The canonical text of a tree of the callback language, and the laws that it spells the tree.
#![tactic(auto)]

mod action_printer;
mod call_printer;
mod line;
mod operands;
mod printer;
mod vocabulary;

pub use printer::{parses_again, print, print_and_parse, prints_at_most_one};
pub use vocabulary::each_word_is_one_kind;
