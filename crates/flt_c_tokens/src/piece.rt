//! Pieces: a file is read from the front, a blank or a token at a time.

use crate::token::Kind;

/// The kinds of piece.
#[derive(Clone, Copy)]
pub(crate) enum Part {
    /// A blank, a comment or continuations.
    Blank,
    /// A line feed that ends a line.
    Feed,
    /// A token without a spelling: a sign, or what can't be read.
    Sign(Kind),
    /// A token with a spelling. The words of C are names here.
    Word(Kind),
}

/// A piece, and how many bytes it has.
#[derive(Clone, Copy)]
pub(crate) struct Piece {
    pub(crate) part: Part,
    pub(crate) length: usize,
}
