//! `run`: the journal of a script on the texts of some filters, by 1 to 16 workers.
//!
//! The filters are loaded into a running stack, and the caller of that stack gives it the commands of the script. One worker finishes each
//! command before the next one is given, in the same thread. Several work in threads of their own while the commands are given.
#![tactic(auto)]

mod alone;
mod ending;
mod followed;
mod giving;
mod joining;
mod progress;
mod running;
mod stopping;
mod watch;
mod working;

pub use ending::Ending;
pub use flt_stack_prepare::RunFault;
pub use running::{Ran, run};
pub use watch::{NoWatch, Watch};
