//! The elements between the brackets of a table, and its rows.

ghost use Rattle.std.specs.Prelude.{◌≡◌, ◌<◌, ◌+◌, ◌^◌, [], ◌∷◌, ◌++◌, length, map, IfOk, OnOk};
ghost use Rattle.flt_c_items.specs.Rows as spec;

use crate::item::{Element, Row, TableKind};
use crate::kind::{closes, depth_after, is_group, same_kind};
use flt_c_tokens::{Kind, Token};
use sqlite_items::Items;
use std::alloc::{AllocError, Global};

/// The tokens from a number up to another one.
#[tactic(auto, unfolding(crate::specs::Rows::stretch))]
pub(crate) fn stretch(tokens: &[Token], from: usize, to: usize) -> &[Token]
    ensures value { result.now ≡ spec.stretch from to tokens.now }
    ensures within { from + length result.now < 2 ^ 64 }
{
    let end = to.min(tokens.len());
    &tokens[from.min(end)..end]
}

/// An element that is being read.
#[derive(Clone, Copy)]
pub(crate) struct OpenElement {
    /// The number of tokens before its value, as far as it is known.
    pub from: usize,
    /// How deep in brackets its end is.
    pub depth: usize,
    /// Whether it began with `.` or `[`, and no `=` has come since.
    pub is_designated: bool,
    /// The last name outside of brackets.
    pub word: u32,
    /// The name of its designator, or 0.
    pub name: u32,
}

/// An element of which nothing is read.
fn begun(from: usize) -> OpenElement
    ensures { result ≡ spec.begun from }
{
    OpenElement {
        from,
        depth: 0,
        is_designated: false,
        word: 0,
        name: 0,
    }
}

/// Whether the token is the `=` of a designator.
fn designates(p: OpenElement, token: Token) -> bool
    ensures { result ≡ spec.designates p token }
{
    p.is_designated && p.depth == 0 && same_kind(token.kind, Kind::Assign)
}

/// Whether the token is a `.` or a `[` at the front of an element.
fn begins_designator(p: OpenElement, at: usize, token: Token) -> bool
    ensures { result ≡ spec.begins_designator p at token }
{
    p.depth == 0
        && p.from == at
        && (same_kind(token.kind, Kind::Dot) || same_kind(token.kind, Kind::OpenBracket))
}

/// An element after one more token, before which there are `at` tokens.
#[tactic(auto, unfolding(crate::specs::Rows::continued))]
fn continued(p: OpenElement, at: usize, token: Token) -> OpenElement
    requires { at + 1 < 2 ^ 64 }
    ensures { result ≡ spec.continued p at token }
{
    let ends = designates(p, token);
    OpenElement {
        from: if ends || is_group(token.kind) && p.from == at {
            at + 1
        } else {
            p.from
        },
        depth: depth_after(token.kind, p.depth),
        is_designated: !ends && (p.is_designated || begins_designator(p, at, token)),
        word: if p.depth == 0 && same_kind(token.kind, Kind::Name) {
            token.word
        } else {
            p.word
        },
        name: if ends { p.word } else { p.name },
    }
}

/// The element that ends before the token at a number.
fn element(p: OpenElement, at: usize) -> Element
    ensures { result ≡ spec.element p at }
{
    Element {
        name: p.name,
        from: p.from,
        to: at,
    }
}

/// Adds the last element, if there is one.
fn add_last(p: OpenElement, at: usize, found: &mut Items<Element>) -> Result<(), AllocError>
    ensures { OnOk result (found.new ≡ found.old ++ spec.last_element p at) }
{
    if p.from != at {
        found.push(element(p, at))?;
    }
    Ok(())
}

/// The elements of the tokens after the bracket that opens them.
fn elements_from(alloc: Global, from: usize, tokens: &[Token]) -> Result<Items<Element>, AllocError>
    requires { from + length tokens.now < 2 ^ 64 }
    ensures { IfOk result (λ found. found ≡ spec.elements_from (spec.begun from) from tokens.now) }
{
    let mut found = Items::new(alloc);
    let mut p = begun(from);
    let mut at = from;
    let mut rest = tokens;
    while let [token, after @ ..] = rest {
        if p.depth == 0 && closes(token.kind) {
            add_last(p, at, &mut found)?;
            return Ok(found);
        }
        if p.depth == 0 && same_kind(token.kind, Kind::Comma) {
            found.push(element(p, at))?;
            p = begun(at + 1);
        } else {
            p = continued(p, at, *token);
        }
        at += 1;
        rest = after;
    }
    add_last(p, at, &mut found)?;
    Ok(found)
}

/// The elements in the bracket at a number, of the tokens up to another one.
#[tactic(auto, unfolding(crate::specs::Rows::elements))]
pub(crate) fn elements(
    alloc: Global,
    tokens: &[Token],
    from: usize,
    to: usize,
) -> Result<Items<Element>, AllocError>
    ensures { IfOk result (λ found. found ≡ spec.elements tokens.now from to) }
{
    match stretch(tokens, from, to) {
        [] => Ok(Items::new(alloc)),
        [_, rest @ ..] => elements_from(alloc, from + 1, rest),
    }
}

/// The element alone.
fn alone(alloc: Global, e: Element) -> Result<Items<Element>, AllocError>
    ensures { IfOk result (λ found. found ≡ e ∷ []) }
{
    let mut found = Items::new(alloc);
    found.push(e)?;
    Ok(found)
}

/// The row that an element is.
#[tactic(auto, unfolding(crate::specs::Rows::row))]
fn row(alloc: Global, tokens: &[Token], e: Element) -> Result<Row, AllocError>
    ensures { IfOk result (λ found. found ≡ spec.row tokens.now e) }
{
    let elements = match tokens.get(e.from) {
        Some(token) if same_kind(token.kind, Kind::OpenBrace) => {
            elements(alloc, tokens, e.from, e.to)?
        }
        _ => alone(alloc, e)?,
    };
    Ok(Row { elements })
}

/// A row for each element.
fn rows_of(alloc: Global, tokens: &[Token], elements: &[Element]) -> Result<Items<Row>, AllocError>
    ensures { IfOk result (λ found. found ≡ map (spec.row tokens.now) elements.now) }
{
    let mut found = Items::new(alloc);
    let mut rest = elements;
    while let [e, after @ ..] = rest {
        found.push(row(alloc, tokens, *e)?)?;
        rest = after;
    }
    Ok(found)
}

/// The rows of a table with these elements.
#[tactic(auto, unfolding(crate::specs::Rows::rows))]
pub(crate) fn rows(
    alloc: Global,
    kind: TableKind,
    tokens: &[Token],
    elements: Items<Element>,
) -> Result<Items<Row>, AllocError>
    ensures { IfOk result (λ found. found ≡ spec.rows kind tokens.now elements) }
{
    match kind {
        TableKind::Registration => {
            let mut found = Items::new(alloc);
            found.push(Row { elements })?;
            Ok(found)
        }
        _ => rows_of(alloc, tokens, elements.as_slice()),
    }
}
