//! Warnings: mistakes beside the rules that an accepted text may still have, by its least certificate and its graph. It exports `warnings`,
//! which lists all of them, and `Warning`, which says where each of them is and which items it is about. `allowances` are the comments that
//! leave a warning out: `# allow W03: why`, alone on a line before its statement. They are read from the lines of a text, beside its tokens.
#![tactic(auto)]

mod allowance;
mod called;
mod changed;
mod comment;
mod flow;
mod kinds;
mod late;
mod laws;
mod lost;
mod never;
mod of_text;
mod pended;
mod reading;
mod shared;
mod trail;
mod unreached;
mod unused;
mod warning;

pub use allowance::{Allowance, allowances};
pub use kinds::{AllowedKinds, kind_named};
pub use laws::{comments_begin_with_marks, ends_are_on_paths};
pub use of_text::warnings;
pub use warning::{Kind, Site, Warning};
