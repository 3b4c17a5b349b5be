//! Which headers a C file includes, read once each, and its tokens with the headers in the place of their names.
//!
//! A line of `#include` names a header (`inclusion`), which is looked for under some names (`candidates`): beside the including file if
//! it is in quotes, and in folders of options. Each name is requested once (`answer`), and each header that is found has a number
//! (`headers`). Its tokens (`files`) are linked like those of the file (`linked`), and get places of their own, once for all files of a
//! driver (`reading`, `included`). Files that give one thing at most for each name have one reading (`laws`).
#![tactic(auto)]

mod answer;
mod candidates;
mod files;
mod headers;
mod included;
mod inclusion;
mod laws;
mod linked;
mod reading;

pub use answer::HeaderFiles;
pub use files::add_tokens;
pub use headers::{Headers, MAX_HEADERS};
pub use included::link;
pub use laws::links_at_most_one;
