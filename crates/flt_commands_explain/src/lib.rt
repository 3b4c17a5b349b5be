//! `explain`: reports of the texts that files make, with drifts of C files, in each form and for a client of `serve`; and pages.
#![tactic(auto)]

mod after;
mod allowed;
mod annotated;
mod answer;
mod drifts;
mod explain;
mod fault;
mod finding_runs;
mod html;
mod in_turn;
mod remarks;
mod serving;
mod sources;

pub use allowed::options_of;
pub use answer::ExplainAnswer;
pub use explain::{ExplainOptions, Explanation, explain_files, pages_of};
pub use fault::CommandFault;
pub use flt_server_frames::{Incoming, ServeFault};
pub use remarks::explain_remark;
pub use serving::serve_client;
