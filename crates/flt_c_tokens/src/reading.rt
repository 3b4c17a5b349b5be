//! Where reading is.

ghost use Rattle.std.specs.Prelude.{◌≡◌, ◌<◌, ◌^◌};
ghost use Rattle.flt_c_tokens.specs.Tokens as spec;

use crate::piece::{Part, Piece};
use crate::token::{Kind, Token};

/// A byte of a file, and what comes before it.
#[derive(Clone, Copy)]
pub(crate) struct Reading {
    /// How many bytes are left of the piece that is being read.
    pub(crate) left: usize,
    /// Whether neither a blank nor a comment comes right before.
    pub(crate) is_glued: bool,
    /// Whether no token of its line comes before it.
    pub(crate) is_fresh: bool,
    pub(crate) in_directive: bool,
    /// The byte before.
    pub(crate) last: u8,
    pub(crate) start: u32,
    pub(crate) line: u32,
    pub(crate) column: u32,
}

#[tactic(auto, unfolding(crate::specs::Tokens::first))]
pub(crate) fn first() -> Reading
    ensures { result ≡ spec.first }
{
    Reading {
        left: 0,
        is_glued: true,
        is_fresh: true,
        in_directive: false,
        last: b'\n',
        start: 0,
        line: 1,
        column: 1,
    }
}

/// Whether a sign makes its line a directive.
#[inline(always)]
fn is_directive(at: Reading, kind: Kind) -> bool
    ensures { result ≡ spec.is_directive at kind }
{
    match kind {
        Kind::Hash => at.is_fresh,
        _ => false,
    }
}

#[inline(always)]
pub(crate) fn sign_kind(at: Reading, kind: Kind) -> Kind
    ensures { result ≡ spec.sign_kind at kind }
{
    if is_directive(at, kind) {
        Kind::Directive
    } else {
        kind
    }
}

/// Takes a piece that begins here: all its bytes are left to read, and the flags are those for what follows it.
#[inline(always)]
#[tactic(auto, unfolding(crate::specs::Tokens::behind))]
pub(crate) fn behind(at: Reading, piece: Piece) -> Reading
    ensures { result ≡ spec.behind at piece }
{
    let left = piece.length;
    match piece.part {
        Part::Blank => Reading {
            left,
            is_glued: false,
            ..at
        },
        Part::Feed => Reading {
            left,
            is_glued: false,
            is_fresh: true,
            in_directive: false,
            ..at
        },
        Part::Sign(kind) => Reading {
            left,
            is_glued: true,
            is_fresh: false,
            in_directive: at.in_directive || is_directive(at, kind),
            ..at
        },
        Part::Word(_) => Reading {
            left,
            is_glued: true,
            is_fresh: false,
            ..at
        },
    }
}

/// One byte more of a piece.
#[inline(always)]
#[tactic(auto, unfolding(crate::specs::Tokens::past))]
pub(crate) fn past(at: Reading, b: u8) -> Reading
    requires start { at.start < 2 ^ 31 }
    requires line { at.line < 2 ^ 31 }
    requires column { at.column < 2 ^ 31 }
    ensures { result ≡ spec.past b at }
{
    Reading {
        left: at.left.saturating_sub(1),
        last: b,
        start: at.start + 1,
        line: if b == b'\n' { at.line + 1 } else { at.line },
        column: if b == b'\n' { 1 } else { at.column + 1 },
        ..at
    }
}

/// A token that begins here.
#[inline(always)]
pub(crate) fn token(at: Reading, kind: Kind, word: u32) -> Token
    ensures { result ≡ spec.token_at at kind word }
{
    Token {
        kind,
        is_glued: at.is_glued,
        word,
        start: at.start,
        line: at.line,
        column: at.column,
    }
}
