//! The annotations of a driver's C files: comments `//@flt TEXT` and `/*@flt TEXT*/`, which no compiler sees.
//!
//! A file is read byte by byte, as far as C's rules for comments (`mode`) and for the lines that compilers skip (`front`) require. The
//! annotations of several files make one text, each line of which knows where it begins in C (`text`, `files`); those of one file are laid
//! in their places (`laying`). Each byte of a file belongs to code, to an annotation, to a comment `@flt-`, or to something else
//! (`letter`). It is a law that this is C's own division of a file into pieces (`laws`). Commands and the editor's server take the same files
//! for C (`name`), and say the same of flaws (`flaw`).
#![tactic(auto)]

mod fault;
mod files;
mod flaw;
mod front;
mod laws;
mod laying;
mod letter;
mod lock;
mod mode;
mod name;
mod place;
mod run;
mod scan;
mod text;

pub use fault::{Fault, FaultKind};
pub use files::{FileFlaw, Flaw, extract};
pub use flaw::{fault_words, flaw_place, flaw_words};
pub use laws::{
    each_byte_is_in_its_place, each_byte_stands_in_c, files_are_pieces, letters_are_the_file,
    no_byte_is_left_out,
};
pub use laying::{PlaceFlaw, in_place};
pub use letter::{Letter, Part, letters};
pub use lock::{LockLine, LockWord, is_expression, lock_line_after};
pub use name::is_c_file;
pub use place::Place;
pub use text::{Annotations, Line};
