//! Chunks: a file is cut into these.

use flt_c_tokens::Token;

/// Why a chunk can't be read.
#[derive(Clone, Copy, PartialEq, Eq)]
pub enum Reason {
    /// It opens brackets that aren't closed before the next function, `#else` or the end.
    Unclosed,
    /// A `}` closes nothing.
    Unopened,
    /// A block in braces has no function's head before it: `NAME ( .. )`.
    Headless,
    /// A line of an `#if` is between a function's name and its body.
    Divided,
    /// It has a word of C++ or of a statement, or `:`, outside of brackets, where no declaration of C has one.
    Foreign,
}

/// How a chunk ends.
#[derive(Clone, Copy)]
pub(crate) enum Ending {
    /// With the `}` of a function's body. `bracket` is the number of tokens before the `(` of its parameters, `body` that of those before
    /// its body's `{`.
    Body {
        name: Token,
        bracket: usize,
        body: usize,
    },
    /// With a `;`, or outside of brackets before an `#else` or the end.
    Sentence,
    /// A line of an `#if`, a brace of a region, or the end of the file.
    Passed,
    Unread(Reason),
}

/// A chunk: tokens one after another.
#[derive(Clone, Copy)]
pub(crate) struct Chunk {
    /// The number of tokens before it.
    pub from: usize,
    /// The number of tokens up to its end.
    pub to: usize,
    pub ending: Ending,
}
