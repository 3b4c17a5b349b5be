//! Places in a text: the lines and columns of its bytes, its lines, the files in which these are, and columns in UTF-16 units, as SARIF and
//! the Language Server Protocol count them.
#![tactic(auto)]

mod columns;
mod files;
mod places;
mod split;

pub use columns::{bytes_before, column_of, file_column_behind, file_column_up_to};
pub use files::{Files, SourceFile, Stand};
pub use places::{Lines, Region, Site};
pub use split::lines_of;
