//! The commands of `fltstack`, over inputs and writers of any kind, and over the files and streams of the system: from the words of a command
//! line to the printed report.
#![tactic(auto)]

mod answer;
mod clean;
mod commands;
mod explained;
mod failure_line;
mod folders;
mod host;
mod layouts;
mod report;
mod search;
mod single;

pub use commands::command;
pub use flt_commands_explain::{CommandFault, serve_client};
pub use flt_commands_runs::WatchDeadlock;
pub use flt_server_frames::{Incoming, ServeFault};
pub use flt_stack_crew::{NoWatch, Watch};
pub use folders::ExpandedFiles;
pub use host::{Execution, run};
pub use report::Report;
pub use search::WatchSearch;
pub use single::one_answer_at_most;
