//! The details of warnings: `warning_details` finds the warnings of a text without findings, and says for each where it is, what the
//! problem is, how to fix it, and whether a comment of the text allows it. Comments that allow nothing are warnings, too.
#![tactic(auto)]

mod allowing;
mod comments;
mod contexts;
mod detail;
mod indexed;
mod late;
mod laws;
mod locks;
mod of_text;
mod options;
mod parsed;
mod places;
mod queue;
mod saying;
mod unused;

pub use detail::{RelatedPlace, WarningDetail};
pub use laws::texts_without_circles_are_orderly;
pub use of_text::warning_details;
pub use options::{WarningOptions, shown_count, warned_status};
