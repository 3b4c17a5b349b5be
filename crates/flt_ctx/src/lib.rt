//! Contexts with counted references, and their links to the streams and instances of filters.
//!
//! Contexts are numbered from 0 in the order in which they were made, and no number is used again. A context that is freed keeps its
//! number, its value and its owner; calls that are given one leave its references and its value as they are.
//!
//! `new`, `alloc` and `set` may take memory; `set` does so only for a link that is new, and before anything is changed.
//!
//! Calls that are given a key go through the links of its target, one for each filter at most (streams whose numbers are equal modulo 1,024
//! share their list). `first_key` takes constant time if the filter has no link; otherwise it goes through the links of the instances, and
//! finds the first stream in an index, in logarithmic time. A link that is made or taken away changes that index, in logarithmic time too;
//! one that another context takes over leaves it as it is. `new` goes through the filters. Every other call takes constant time, `alloc` on
//! average.
//!
//! Counted in instructions, with 65,536 contexts over 1,024 files of 16 filters, of which 16,384 are linked: to make a context, to link
//! it in place of another and to release it takes 350; `linked_at` and `first_key` together take 700.
#![tactic(auto)]

mod answers;
mod contexts;
mod key;
mod links;
mod stream_set;

pub use answers::{Release, SetAnswer, UnlinkedContext};
pub use contexts::Contexts;
pub use key::{Key, Target};
/// The answer of `new`, `alloc` and `set` if memory is refused.
pub use std::alloc::AllocError as OutOfMemory;
