//! The commands on runs of filters: `run`, which drives them by a script, and `replay`, which judges a journal and shows it.
#![tactic(auto)]

mod answer;
mod deadlock;
mod replay;
mod running;
mod showing;

pub use answer::RunAnswer;
pub use deadlock::{WatchDeadlock, tell_deadlock};
pub use replay::replay_files;
pub use running::run_files;
pub use showing::{show_files, show_remark};
