//! The outcome of a function's body.

ghost use Rattle.std.specs.Prelude.{◌≡◌, IfOk};
ghost use Rattle.std.specs.List.{list_any};
ghost use Rattle.flt_c_items.specs.Rows as rows;
ghost use Rattle.flt_c_functions.specs.Outcomes as spec;

use flt_c_syntax::{Class, Fault, Place, ReadError, read_body};
use flt_c_tokens::{Kind, Token};
use std::alloc::{AllocError, Global};

/// The tokens of a file from a number up to another one.
#[tactic(auto, unfolding(flt_c_items::specs::Rows::stretch))]
pub(crate) fn stretch(tokens: &[Token], from: usize, to: usize) -> &[Token]
    ensures { result.now ≡ rows.stretch from to tokens.now }
{
    let end = to.min(tokens.len());
    &tokens[from.min(end)..end]
}

/// The token at a number; past the last one, an end without a place.
pub(crate) fn token_at(tokens: &[Token], number: usize) -> Token
    ensures { result ≡ spec.token_at tokens.now number }
{
    match tokens.get(number) {
        Some(token) => *token,
        None => Token {
            kind: Kind::End,
            is_glued: false,
            word: 0,
            start: 0,
            line: 0,
            column: 0,
        },
    }
}

/// An end at a token's place.
fn end_at(token: Token) -> Token
    ensures { result ≡ spec.end_at token }
{
    Token {
        kind: Kind::End,
        is_glued: false,
        word: 0,
        start: token.start,
        line: token.line,
        column: token.column,
    }
}

/// The tokens of a body, from the number of its `{` up to the end of its function, and an end at the place of the last one.
#[tactic(auto, unfolding(crate::specs::Outcomes::body_tokens))]
fn body_tokens(
    alloc: Global,
    tokens: &[Token],
    from: usize,
    to: usize,
) -> Result<Vec<Token>, AllocError>
    ensures { IfOk result (λ found. found.items ≡ spec.body_tokens tokens.now from to) }
{
    let mut found = Vec::new(alloc);
    found.extend_from_slice(stretch(tokens, from, to))?;
    found.push(end_at(token_at(tokens, to.saturating_sub(1))))?;
    Ok(found)
}

/// The first fault of a body, unless its tokens spell statements. The tree of these is let go.
fn outcome_of(alloc: Global, known: &[Class], tokens: &[Token]) -> Result<Option<Fault>, AllocError>
    ensures { IfOk result (spec.IsOutcome known.now tokens.now) }
{
    match read_body(alloc, known, tokens) {
        Ok(_) => Ok(None),
        Err(ReadError::Syntax(fault)) => Ok(Some(fault)),
        Err(ReadError::OutOfMemory) => Err(AllocError),
    }
}

/// The same of the body from the number of its `{` up to the end of its function.
pub(crate) fn outcome(
    alloc: Global,
    known: &[Class],
    tokens: &[Token],
    from: usize,
    to: usize,
) -> Result<Option<Fault>, AllocError>
    ensures { IfOk result (spec.IsOutcome known.now (spec.body_tokens tokens.now from to)) }
{
    let body = body_tokens(alloc, tokens, from, to)?;
    outcome_of(alloc, known, body.as_slice())
}

/// Whether a kind of token is a line of an `#if` that nothing decides.
fn is_mark(kind: Kind) -> bool
    ensures { result ≡ spec.is_mark kind }
{
    matches!(kind, Kind::GroupIf | Kind::GroupElse | Kind::GroupEnd)
}

fn is_mark_at(place: Place, token: Token) -> bool
    ensures { result ≡ spec.is_mark_at place token }
{
    is_mark(token.kind) && token.line == place.line && token.column == place.column
}

/// Whether such a line is at a place.
fn has_mark_at(tokens: &[Token], place: Place) -> bool
    ensures { result ≡ list_any (spec.is_mark_at place) tokens.now }
{
    tokens.iter().any(|token| is_mark_at(place, *token))
}

/// Whether reading stops at a line of an `#if`.
pub(crate) fn is_cut(tokens: &[Token], outcome: Option<Fault>) -> bool
    ensures { result ≡ spec.is_cut tokens.now outcome }
{
    match outcome {
        None => false,
        Some(fault) => has_mark_at(tokens, fault.place),
    }
}
