//! The drifts of a driver in C: the places where it and its annotations disagree, as far as their words show it.
//!
//! For each letter of a file, `flt_c` says whether it belongs to code or to an annotation (`part`). Words of both leave marks (`reader`,
//! `word`, `mark`), by the names that both have (`names`) and by those of functions that are declared to make a call (`wrapper`). Marks are
//! cut into stretches, each of which is some code and then the annotations about it. A stretch whose code and annotations disagree is
//! reported (`drift`), and likewise a callback that is only registered or only annotated (`callbacks`). Of a lock that an annotation
//! declares by its expression, this is compared with the first arguments of its calls (`lock`, `tokens`). People read reports on drifts
//! (`report`) or their lines (`line`); an editor's server sends the words (`drift_words`) one by one.
#![tactic(auto)]

mod callbacks;
mod drift;
mod drift_words;
mod flags;
mod line;
mod lock;
mod mark;
mod names;
mod part;
mod reader;
mod report;
mod run;
mod stretch;
mod tokens;
mod word;
mod wrapper;

pub use drift::{Drift, DriftKind, Span, drifts};
pub use drift_words::{code, help, is_difference};
pub use line::drift_lines;
pub use report::{drift_sentence, has_difference, report_drifts};
