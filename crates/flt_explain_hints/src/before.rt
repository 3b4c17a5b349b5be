//! The kinds of the tokens before a token.

ghost use Rattle.std.specs.Prelude.{◌≡◌};
ghost use Rattle.flt_explain_hints.specs.Before as spec;

use flt_syntax::{Kind, Token};

/// The kinds of the two tokens before another, each that of the end of the text if there is no such token.
#[derive(Clone, Copy)]
pub(crate) struct KindsBefore {
    pub(crate) last: Kind,
    pub(crate) earlier: Kind,
    /// The line of the last one, from 1.
    pub(crate) line: usize,
}

/// The kinds of the two tokens before another.
#[tactic(auto, unfolding(crate::specs::Before::kinds_before))]
pub(crate) fn kinds_before(tokens: &[Token], token: Token) -> KindsBefore
    ensures { result ≡ spec.kinds_before tokens.now token }
{
    let mut before = KindsBefore {
        last: Kind::End,
        earlier: Kind::End,
        line: 0,
    };
    for other in tokens {
        if other.start >= token.start {
            return before;
        }
        before = KindsBefore {
            last: other.word.kind,
            earlier: before.last,
            line: other.position.line,
        };
    }
    before
}
