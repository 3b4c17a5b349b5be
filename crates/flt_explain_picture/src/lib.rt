//! Timelines as pictures: a line for each row, with lanes for the operations, the queues and the contexts with their references.
//!
//! A picture is a list of shapes and words (`element`), which `drawing` collects and `svg` writes. `course` runs the journal along, `hints`
//! has the lines of texts that rows name, `excerpt` says which lines are drawn, `plan` counts lanes and letters, and `page` lays out the
//! lines with the words of `title` and `words`.
#![tactic(auto)]

mod course;
mod drawing;
mod element;
mod excerpt;
mod hints;
mod page;
mod plan;
mod svg;
mod title;
mod words;

pub use page::picture;
