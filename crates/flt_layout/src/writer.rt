//! Writes a text in the layout.

ghost use Rattle.flt_layout.specs.Layout.{laid_out};
ghost use Rattle.flt_syntax.specs.Lex as lex;
ghost use Rattle.std.specs.Prelude.{◌≡◌, ◌<◌, ◌^◌, length, IfOk};

use crate::scanned::{
    after_comment, after_front, after_token, comment, front, is_blank, is_fault, next_token,
};
use crate::space::{Space, gap, moved};
use crate::state::{Place, State, depth, ending, past_comment, past_token, placed};
use flt_syntax::Token;
use std::alloc::{AllocError, Global};

/// The layout of a text, given its tokens.
fn write_items(alloc: Global, text: &[u8], tokens: &[Token]) -> Result<Vec<u8>, AllocError>
    requires tokens { tokens.now ≡ lex.tokens text.now }
    requires small { length text.now < 2 ^ 32 }
    ensures { IfOk result (λ out. out.items ≡ laid_out text.now) }
{
    let mut out = Vec::new(alloc);
    let mut state = State {
        place: Place::Nothing,
        level: 0,
        names: 0,
        goes_on: false,
    };
    let mut space = Space::First;
    let mut left = tokens;
    let mut rest = text;
    while let [b, z @ ..] = rest {
        if *b == b'#' {
            gap(&mut out, space, state.level)?;
            out.extend_from_slice(comment(rest))?;
            state = past_comment(state);
            space = Space::Beside;
            rest = after_comment(z);
            continue;
        }
        if is_blank(*b) {
            space = moved(*b, space);
            rest = z;
            continue;
        }
        let (kind, len) = next_token(left);
        gap(&mut out, placed(state, kind, space), depth(state, kind))?;
        out.extend_from_slice(front(rest, len))?;
        state = past_token(state, kind);
        if is_fault(kind) {
            break;
        }
        left = after_token(left);
        space = Space::Beside;
        rest = after_front(z, len.saturating_sub(1));
    }
    ending(&mut out, state.place)?;
    Ok(out)
}

/// The layout of a text: its tokens and its comments, each on its line. Blank lines before a line become one, those at both ends none.
/// A text that has a fault is laid out up to its first byte or word that is no token.
pub fn lay_out(alloc: Global, text: &[u8]) -> Result<Vec<u8>, AllocError>
    requires { length text.now < 2 ^ 32 }
    ensures { IfOk result (λ out. out.items ≡ laid_out text.now) }
{
    let tokens = flt_syntax::tokens(alloc, text)?;
    write_items(alloc, text, tokens.as_slice())
}
