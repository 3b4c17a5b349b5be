//! Parts of the forms of `explain` for other programs that need neither paths nor runs: members of JSON objects, the files and the rules of a
//! document, drifts of C files, and the warnings and the status of a text.
//!
//! `members` writes a member for each kind of value. `file` numbers the files of a document, `uri` writes their names as references, and
//! `rules` writes the rules that results name, each with the first of the `paragraphs` of its page. `points` has the places of the points of
//! a callback, and `help` says how to fix a text that doesn't parse. `drifted` has the members of a drift, and `warned` the warnings of a
//! text and its status. A function that writes fails only if a growth is refused.
#![tactic(auto)]

mod drifted;
mod file;
mod help;
mod members;
mod paragraphs;
mod points;
mod rules;
mod uri;
mod warned;

pub use drifted::{
    DriftedFile, drift_status, put_drift_help, put_drift_level, region_at, region_of,
};
pub use file::{Artifact, File, artifact_of, file_of, files_of, names_of};
pub use help::{help_of, home_of, open_line, place_of};
pub use members::{
    close_array, close_object, open_array, open_object, put_bytes, put_filled, put_filled_items,
    put_items, put_key, put_null, put_number, put_string, put_text, put_texts,
};
pub use points::Points;
pub use rules::{ResultKind, put_of_rule, put_tool};
pub use uri::{Reference, reference_to};
pub use warned::{greater, put_numbers, put_warning_level, status_of, warned_of};
