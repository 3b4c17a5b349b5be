//! The place where a text is refused, and the token there.

ghost use Rattle.std.specs.Prelude.{◌≡◌, IfOk};
ghost use Rattle.std.specs.List.{find};
ghost use Rattle.flt_syntax.specs.TextFails.{Fails};
ghost use Rattle.flt_explain_hints.specs.Spot as spec;

use flt_rules::MAX_TEXT;
use flt_syntax::{SyntaxFault, Token, bytes_of, tokens};
use sqlite_items::Items;
use std::alloc::{AllocError, Global};

/// The place where a text is refused, and the token there.
#[derive(Clone, Copy)]
pub struct Spot<'a> {
    pub fault: SyntaxFault,
    /// None if the text is too large.
    pub token: Option<Token>,
    /// The bytes of the token: none at the end of the text.
    pub bytes: &'a [u8],
}

fn stands_at(fault: SyntaxFault, token: Token) -> bool
    ensures { result ≡ spec.stands_at fault token }
{
    token.position.line == fault.line && token.position.column == fault.column
}

/// The first token that begins where a fault is.
fn token_at(fault: SyntaxFault, tokens: &[Token]) -> Option<Token>
    ensures { result ≡ find (spec.stands_at fault) tokens.now }
{
    for token in tokens {
        if stands_at(fault, *token) {
            return Some(*token);
        }
    }
    None
}

/// The tokens of a text: none if it is too large.
pub(crate) fn tokens_of(alloc: Global, text: &[u8]) -> Result<Items<Token>, AllocError>
    ensures { IfOk result (λ ts. ts ≡ spec.tokens_of text.now) }
{
    if MAX_TEXT < text.len() {
        Ok(Items::new(alloc))
    } else {
        tokens(alloc, text)
    }
}

fn bytes_at(text: &[u8], token: Option<Token>) -> &[u8]
    ensures { result.now ≡ spec.bytes_at text.now token }
{
    match token {
        None => &[],
        Some(token) => bytes_of(text, token),
    }
}

/// The place and the token of a text's first fault.
pub(crate) fn spot_at<'a>(text: &'a [u8], tokens: &[Token], fault: SyntaxFault) -> Spot<'a>
    requires refused { Fails text.now fault }
    requires tokens { tokens.now ≡ spec.tokens_of text.now }
    ensures { spec.IsSpot text.now result }
{
    let token = token_at(fault, tokens);
    Spot {
        fault,
        token,
        bytes: bytes_at(text, token),
    }
}
