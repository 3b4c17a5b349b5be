//! Reports for people: the errors in a text, each with the lines that show it, a path that leads there, and how to fix it. It exports
//! the parts of a text's report, which `flt_explain_runs` puts together, the report of a warning, and that of a line of another file. The
//! findings are those of `flt_explain_ways`, and the words those of `flt_explain_advice` and `flt_explain_warning_details`.
#![tactic(auto)]

mod colours;
mod excerpts;
mod fault_report;
mod finding_report;
mod heading;
mod indents;
mod line_report;
mod mark_order;
mod mark_words;
mod marks;
mod reports;
mod shown_lines;
mod warning_report;
mod way_lines;

pub use line_report::{MarkedLine, report_line};
pub use reports::{report_group, report_nothing, report_unread};
pub use warning_report::report_warning;
