//! Scripts: commands to a stack of filters, one a line, read from their text.
//!
//! `read` (`reader`, by the `rules` of its lines) answers the commands, or the first line that is malformed. It takes the filters of the stack
//! where they are known.
#![tactic(auto)]

mod command;
mod fault;
mod reader;
mod rules;
mod script;

pub use command::Command;
pub use fault::ScriptFault;
pub use reader::read;
pub use script::Script;
