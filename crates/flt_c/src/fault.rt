//! The faults of a C file.

use crate::place::Place;

/// Why a file can't be read.
#[derive(Clone, Copy, Debug)]
pub enum FaultKind {
    /// A block comment that doesn't end.
    Comment,
    /// A string that doesn't end in its line.
    String,
    /// A character constant that doesn't end in its line.
    Character,
    /// A raw string of C++.
    RawString,
    /// A comment that begins with `@flt` and no blank after it, as `@fltx`.
    Marker,
    /// An annotation in a line that is continued.
    Continued,
    /// A group of lines that `#if 0` begins and that doesn't end.
    Group,
}

/// A fault, and its place.
#[derive(Clone, Copy, Debug)]
pub struct Fault {
    pub kind: FaultKind,
    pub place: Place,
}
