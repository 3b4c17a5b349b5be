//! The texts of tokens, as a listing has them.

ghost use Rattle.std.specs.Prelude.{◌≡◌, ◌++◌, OnOk};
ghost use Rattle.flt_c_functions.specs.Texts as spec;

use crate::line::put;
use flt_c_tokens::{Kind, Spellings, Token};
use flt_shown::put_shown;
use std::alloc::AllocError;

/// The text of a word by its number.
pub(crate) fn text_at(spellings: &Spellings, number: u32) -> &[u8]
    ensures { result.now ≡ spec.text_at spellings.now number }
{
    match spellings.text(number) {
        Some(text) => text,
        None => &[],
    }
}

/// The text of a token that has no word.
fn sign_text(kind: Kind) -> &'static [u8]
    ensures { result.now ≡ spec.sign_text kind }
{
    match kind {
        Kind::OpenParen => b"(",
        Kind::CloseParen => b")",
        Kind::OpenBracket => b"[",
        Kind::CloseBracket => b"]",
        Kind::OpenBrace => b"{",
        Kind::CloseBrace => b"}",
        Kind::Semicolon => b";",
        Kind::Comma => b",",
        Kind::Colon => b":",
        Kind::DoubleColon => b"::",
        Kind::Question => b"?",
        Kind::Dot => b".",
        Kind::Arrow => b"->",
        Kind::Ellipsis => b"...",
        Kind::Assign => b"=",
        Kind::AssignSum => b"+=",
        Kind::AssignDifference => b"-=",
        Kind::AssignProduct => b"*=",
        Kind::AssignQuotient => b"/=",
        Kind::AssignRemainder => b"%=",
        Kind::AssignAnd => b"&=",
        Kind::AssignOr => b"|=",
        Kind::AssignXor => b"^=",
        Kind::AssignLeft => b"<<=",
        Kind::AssignRight => b">>=",
        Kind::Plus => b"+",
        Kind::Minus => b"-",
        Kind::Star => b"*",
        Kind::Slash => b"/",
        Kind::Percent => b"%",
        Kind::Ampersand => b"&",
        Kind::Bar => b"|",
        Kind::Caret => b"^",
        Kind::Tilde => b"~",
        Kind::Exclamation => b"!",
        Kind::Increment => b"++",
        Kind::Decrement => b"--",
        Kind::ShiftLeft => b"<<",
        Kind::ShiftRight => b">>",
        Kind::Less => b"<",
        Kind::Greater => b">",
        Kind::LessEqual => b"<=",
        Kind::GreaterEqual => b">=",
        Kind::Equal => b"==",
        Kind::NotEqual => b"!=",
        Kind::LogicalAnd => b"&&",
        Kind::LogicalOr => b"||",
        Kind::Hash => b"#",
        Kind::HashHash => b"##",
        Kind::Directive => b"#",
        Kind::GroupElse => b"#else",
        Kind::GroupEnd => b"#endif",
        _ => b"?",
    }
}

/// The text of a token.
fn text_of<'a>(spellings: &'a Spellings, token: Token) -> &'a [u8]
    ensures { result.now ≡ spec.text_of spellings.now token }
{
    if token.word == 0 {
        sign_text(token.kind)
    } else {
        text_at(spellings, token.word)
    }
}

/// Adds the text of a token as it is shown.
#[tactic(auto, unfolding(crate::specs::Texts::token_text))]
pub(crate) fn put_token(
    out: &mut Vec<u8>,
    spellings: &Spellings,
    token: Token,
) -> Result<(), AllocError>
    ensures { OnOk result (out.new.items ≡ out.old.items ++ spec.token_text spellings.now token) }
{
    put_shown(out, text_of(spellings, token))
}

/// Adds the texts of tokens after the first one, each after a blank.
fn put_more_tokens(
    out: &mut Vec<u8>,
    spellings: &Spellings,
    tokens: &[Token],
) -> Result<(), AllocError>
    ensures { OnOk result (out.new.items ≡ out.old.items ++ spec.more_tokens spellings.now tokens.now) }
{
    for token in tokens {
        put(out, b" ")?;
        put_token(out, spellings, *token)?;
    }
    Ok(())
}

/// Adds the texts of tokens, with a blank between two.
pub(crate) fn put_tokens(
    out: &mut Vec<u8>,
    spellings: &Spellings,
    tokens: &[Token],
) -> Result<(), AllocError>
    ensures { OnOk result (out.new.items ≡ out.old.items ++ spec.tokens_text spellings.now tokens.now) }
{
    match tokens {
        [] => Ok(()),
        [first, rest @ ..] => {
            put_token(out, spellings, *first)?;
            put_more_tokens(out, spellings, rest)
        }
    }
}
