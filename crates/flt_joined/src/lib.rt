//! The texts that files make: a C file continues the text of a C file right before it, unless its annotations begin with `filter`. Each
//! line of a text knows in which file it is, and where (`joined`).
#![tactic(auto)]

mod beginning;
mod given;
mod joined;
mod making;

pub use given::GivenFile;
pub use joined::{JoinedText, JoinedTexts, join, source_file, source_files};
