//! The words of a command line: what they ask for, and the texts that say how the program is used.
#![tactic(auto)]

mod commands;
mod program;
mod request;
mod shown;
mod values;
mod words;
mod workers;

pub use request::{Colour, Form, FormatMode, Part, Request, SearchChoice, WarningChoice};
pub use shown::visible;
pub use values::DEFAULT_STATES;
pub use words::{ask_to_serve, read_words};
pub use workers::Workers;
