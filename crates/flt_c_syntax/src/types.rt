//! Types, which are words and stars, and what looks like one.

ghost use Rattle.flt_c_syntax.specs.Cursor.{Reads};
ghost use Rattle.flt_c_syntax.specs.Expression as reading;
ghost use Rattle.flt_c_syntax.specs.Tokens as left;
ghost use Rattle.flt_c_syntax.specs.Types as spec;
ghost use Rattle.std.specs.Prelude.{◌≡◌, ◌≤◌, length, take, drop, IfOk};

use crate::class::{Class, Part};
use crate::cursor::{Tokens, front, next, same_kind};
use crate::fault::ReadError;
use crate::operator::{begins_operand, is_either_sign, prefix_of};
use crate::tree::TypeName;
use flt_c_tokens::{Kind, Token};
use sqlite_items::Items;
use std::alloc::{AllocError, Global};

#[inline(always)]
pub fn is_type_part(kind: Kind) -> bool
    ensures { result ≡ left.is_type_part kind }
{
    matches!(
        kind,
        Kind::Name | Kind::TypeWord | Kind::Qualifier | Kind::Struct
    )
}

#[inline(always)]
fn is_part(part: Part, kind: Kind) -> bool
    ensures { result ≡ left.is_part part kind }
{
    match part {
        Part::Type => is_type_part(kind),
        Part::Star => matches!(kind, Kind::Star | Kind::Qualifier),
        Part::Text => matches!(kind, Kind::Text | Kind::Name),
    }
}

/// The tokens after the longest front of such tokens.
pub fn behind(part: Part, tokens: &[Token]) -> &[Token]
    ensures { result.now ≡ left.behind part tokens.now }
{
    let mut rest = tokens;
    while let [first, more @ ..] = rest {
        if !is_part(part, first.kind) {
            return rest;
        }
        rest = more;
    }
    rest
}

/// The words of such tokens.
fn words(alloc: Global, part: Part, tokens: &[Token]) -> Result<Items<u32>, AllocError>
    ensures { IfOk result (λ ws. ws ≡ left.words (left.run part tokens.now)) }
{
    let mut found = Items::new(alloc);
    let mut rest = tokens;
    while let [first, more @ ..] = rest {
        if !is_part(part, first.kind) {
            return Ok(found);
        }
        found.push(first.word)?;
        rest = more;
    }
    Ok(found)
}

/// How many stars there are at the front.
pub fn stars(tokens: &[Token]) -> usize
    ensures { result ≡ spec.stars (left.run Part.Star tokens.now) }
{
    let mut found = 0;
    let mut rest = tokens;
    while let [first, more @ ..] = rest {
        if !is_part(Part::Star, first.kind) {
            return found;
        }
        if same_kind(first.kind, Kind::Star) {
            found += 1;
        }
        rest = more;
    }
    found
}

fn behind_type(tokens: &[Token]) -> &[Token]
    ensures { result.now ≡ spec.behind_type tokens.now }
{
    behind(Part::Star, behind(Part::Type, tokens))
}

/// Words, at least one, and stars.
#[tactic(auto, unfolding(crate::specs::Expression::type_name))]
pub fn type_name(alloc: Global, tokens: &mut Tokens<'_>) -> Result<TypeName, ReadError>
    ensures { Reads (reading.type_name tokens.old.rest.now) result tokens.new.rest.now }
{
    if !is_type_part(tokens.peek()) {
        return Err(tokens.refuse());
    }
    let from = tokens.rest;
    let words = words(alloc, Part::Type, from)?;
    let stars = stars(behind(Part::Type, from));
    tokens.rest = behind_type(from);
    Ok(TypeName { words, stars })
}

/// Strings, and names among them.
#[tactic(auto, unfolding(crate::specs::Expression::texts))]
pub fn texts(alloc: Global, tokens: &mut Tokens<'_>) -> Result<Items<u32>, ReadError>
    ensures { Reads (reading.texts tokens.old.rest.now) result tokens.new.rest.now }
{
    let from = tokens.rest;
    let words = words(alloc, Part::Text, from)?;
    tokens.rest = behind(Part::Text, from);
    Ok(words)
}

#[inline(always)]
pub fn sees(kind: Kind, tokens: &[Token]) -> bool
    ensures { result ≡ left.sees kind tokens.now }
{
    same_kind(front(tokens).kind, kind)
}

fn is_type_word(kind: Kind) -> bool
    ensures { result ≡ spec.is_type_word kind }
{
    matches!(kind, Kind::TypeWord | Kind::Qualifier | Kind::Struct)
}

/// Words and stars that are a type whatever their names stand for.
fn is_surely_type(tokens: &[Token]) -> bool
    ensures { result ≡ spec.is_surely_type tokens.now }
{
    let first = front(tokens).kind;
    is_type_word(first)
        || is_type_part(first)
            && (is_type_part(front(next(tokens)).kind)
                || sees(Kind::Star, behind(Part::Type, tokens)))
}

fn class_of(known: &[Class], word: u32) -> Class
    ensures { result ≡ left.class_of known.now word }
{
    match known.get(word as usize) {
        Some(class) => *class,
        None => Class::Plain,
    }
}

fn class_at(known: &[Class], tokens: &[Token]) -> Class
    ensures { result ≡ spec.class_at known.now tokens.now }
{
    match tokens {
        [] => Class::Plain,
        [first, ..] => match first.kind {
            Kind::Name => class_of(known, first.word),
            _ => Class::Plain,
        },
    }
}

/// Words and stars up to a closing bracket.
fn is_group(tokens: &[Token]) -> bool
    ensures { result ≡ spec.is_group tokens.now }
{
    is_type_part(front(tokens).kind) && sees(Kind::CloseParen, behind_type(tokens))
}

fn behind_group(tokens: &[Token]) -> &[Token]
    ensures { result.now ≡ spec.behind_group tokens.now }
{
    next(behind_type(tokens))
}

/// Whether an operand begins with a token after the bracket of a type of this class.
fn follows_type(class: Class, kind: Kind) -> bool
    ensures { result ≡ spec.follows_type class kind }
{
    match class {
        Class::Type => begins_operand(kind) || is_either_sign(kind),
        Class::Capital => begins_operand(kind),
        Class::Plain => begins_operand(kind) && !same_kind(kind, Kind::OpenParen),
    }
}

#[tactic(auto, unfolding(crate::specs::Types::is_cast))]
fn is_cast(known: &[Class], tokens: &[Token]) -> bool
    ensures { result ≡ spec.is_cast known.now tokens.now }
{
    if !is_group(tokens) {
        return false;
    }
    let class = if is_surely_type(tokens) {
        Class::Type
    } else {
        class_at(known, tokens)
    };
    follows_type(class, front(behind_group(tokens)).kind)
}

#[tactic(auto, unfolding(crate::specs::Types::is_literal))]
pub fn is_literal(tokens: &[Token]) -> bool
    ensures { result ≡ spec.is_literal tokens.now }
{
    is_group(tokens) && sees(Kind::OpenBrace, behind_group(tokens))
}

#[tactic(auto, unfolding(crate::specs::Types::is_measured_type))]
fn is_measured_type(known: &[Class], tokens: &[Token]) -> bool
    ensures { result ≡ spec.is_measured_type known.now tokens.now }
{
    is_group(tokens)
        && (is_surely_type(tokens)
            || matches!(class_at(known, tokens), Class::Type | Class::Capital))
}

#[tactic(auto, unfolding(crate::specs::Types::is_type_argument))]
pub fn is_type_argument(tokens: &[Token]) -> bool
    ensures { result ≡ spec.is_type_argument tokens.now }
{
    if !is_surely_type(tokens) {
        return false;
    }
    let rest = behind_type(tokens);
    sees(Kind::CloseParen, rest) || sees(Kind::Comma, rest)
}

#[inline(always)]
pub fn begins_text(tokens: &[Token]) -> bool
    ensures { result ≡ spec.begins_text tokens.now }
{
    if sees(Kind::Name, tokens) {
        sees(Kind::Text, next(tokens))
    } else {
        sees(Kind::Text, tokens)
    }
}

/// Whether a sign, `sizeof` of an expression, or a cast is here.
#[tactic(auto, unfolding(crate::specs::Types::begins_prefix))]
pub fn begins_prefix(known: &[Class], tokens: &[Token]) -> bool
    ensures { result ≡ spec.begins_prefix known.now tokens.now }
{
    match front(tokens).kind {
        Kind::OpenParen => is_cast(known, next(tokens)),
        Kind::Sizeof => {
            let rest = next(tokens);
            !sees(Kind::OpenParen, rest) || !is_measured_type(known, next(rest))
        }
        kind => prefix_of(kind).is_some(),
    }
}
