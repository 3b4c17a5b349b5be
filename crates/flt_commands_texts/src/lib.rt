//! The commands on texts and C files, but `explain`: `check`, `analyse`, `thin`, `extract`, `compare`, `draft`, `format` and `emit`, each
//! with the answer on the names that it is given.
#![tactic(auto)]

mod analyse;
mod answer;
mod check;
mod compare;
mod comparison;
mod driver;
mod emit;
mod emit_into;
mod extract;
mod format;
mod functions;
mod header_inputs;
mod layout_remarks;
mod outcomes;
mod stamp;
mod thin;

pub use analyse::analyse_file;
pub use answer::TextAnswer;
pub use check::check_files;
pub use compare::compare_files;
pub use comparison::Comparison;
pub use driver::{Driver, DriverNames, DriverOutcome, RestOutcome, SourcePlace};
pub use emit::{EmitFault, emit_files};
pub use emit_into::{emit_files_into, into_remark};
pub use extract::extract_files;
pub use format::format_files;
pub use functions::list_functions;
pub use header_inputs::HeaderInputs;
pub use layout_remarks::all_remarks;
pub use outcomes::{FileOutcome, Outcome, Outcomes};
pub use thin::thin_files;
