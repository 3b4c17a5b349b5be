//! Bytes of a text, a C file or a name as they are shown (`put_shown`): a terminal acts on none of them, and each has one column.
#![tactic(auto)]

mod character;
mod shown;

pub use shown::put_shown;
