//! Reads expressions. Nothing nests but brackets: prefixes, suffixes and operators of one level are lists.

ghost use Rattle.flt_c_syntax.specs.Cursor as base;
ghost use Rattle.flt_c_syntax.specs.Cursor.{Reads, Makes};
ghost use Rattle.flt_c_syntax.specs.Expression as spec;
ghost use Rattle.flt_c_syntax.specs.Made as made;
ghost use Rattle.flt_c_syntax.specs.Operators as operators;
ghost use Rattle.flt_c_syntax.specs.Tokens as left;
ghost use Rattle.std.specs.Prelude.{◌≡◌, ◌≤◌, suc, [], ◌∷◌, IfOk};

use crate::class::{Class, Role};
use crate::cursor::Tokens;
use crate::fault::{ReadError, Reason};
use crate::operator::{
    ASSIGNMENT_LEVEL, WHOLE_LEVEL, begins_designator, level_of, operator_of, prefix_of,
};
use crate::tree::{Designator, Expression, Initialiser, Link, Place, Prefix, Suffix, TypeName};
use crate::types::{begins_prefix, begins_text, is_literal, is_type_argument, texts, type_name};
use flt_c_tokens::Kind;
use sqlite_items::{Boxed, Items};
use std::alloc::{AllocError, Global};

fn boxed(alloc: Global, expression: Expression) -> Result<Boxed<Expression>, ReadError>
    ensures { Makes expression result }
{
    Ok(Boxed::new(alloc, expression)?)
}

fn prefixed(
    alloc: Global,
    at: Place,
    prefixes: Items<Prefix>,
    operand: Boxed<Expression>,
) -> Result<Boxed<Expression>, AllocError>
    ensures { IfOk result (λ e. e ≡ made.prefixed at prefixes operand) }
{
    if prefixes.is_empty() {
        Ok(operand)
    } else {
        Boxed::new(alloc, Expression::Prefixed(at, prefixes, operand))
    }
}

fn suffixed(
    alloc: Global,
    at: Place,
    operand: Boxed<Expression>,
    suffixes: Items<Suffix>,
) -> Result<Boxed<Expression>, AllocError>
    ensures { IfOk result (λ e. e ≡ made.suffixed at operand suffixes) }
{
    if suffixes.is_empty() {
        Ok(operand)
    } else {
        Boxed::new(alloc, Expression::Suffixed(at, operand, suffixes))
    }
}

/// An operand with its signs before it and its suffixes after it.
fn affixed(
    alloc: Global,
    at: Place,
    before: Items<Prefix>,
    from: Place,
    operand: Boxed<Expression>,
    behind: Items<Suffix>,
) -> Result<Boxed<Expression>, ReadError>
    ensures { Makes (made.prefixed at before (made.suffixed from operand behind)) result }
{
    let operand = suffixed(alloc, from, operand, behind)?;
    Ok(prefixed(alloc, at, before, operand)?)
}

fn linked(
    alloc: Global,
    at: Place,
    operand: Boxed<Expression>,
    links: Items<Link>,
) -> Result<Boxed<Expression>, ReadError>
    ensures { Makes (made.linked at operand links) result }
{
    if links.is_empty() {
        Ok(operand)
    } else {
        boxed(alloc, Expression::Linked(at, operand, links))
    }
}

/// A sign, `sizeof` or a cast, which is here.
fn prefix_here(alloc: Global, tokens: &mut Tokens<'_>) -> Result<Prefix, ReadError>
    ensures { Reads (spec.prefix_by (left.kind tokens.old.rest.now) tokens.old.rest.now) result tokens.new.rest.now }
{
    match tokens.peek() {
        Kind::OpenParen => {
            tokens.take();
            let name = type_name(alloc, tokens)?;
            tokens.ended_by(Kind::CloseParen, Prefix::Cast(name))
        }
        Kind::Sizeof => {
            tokens.take();
            Ok(Prefix::SizeOf)
        }
        kind => match prefix_of(kind) {
            None => Err(tokens.refuse()),
            Some(prefix) => {
                tokens.take();
                Ok(prefix)
            }
        },
    }
}

#[tactic(auto, unfolding(crate::specs::Expression::prefix))]
fn prefix(
    alloc: Global,
    known: &[Class],
    tokens: &mut Tokens<'_>,
) -> Result<Option<Prefix>, ReadError>
    ensures { Reads (spec.prefix known.now tokens.old.rest.now) result tokens.new.rest.now }
{
    if begins_prefix(known, tokens.rest) {
        Ok(Some(prefix_here(alloc, tokens)?))
    } else {
        Ok(None)
    }
}

#[tactic(auto, using(crate::proofs::Turns::turn_left, crate::proofs::Turns::none_left), unfolding(crate::specs::Cursor::many, crate::specs::Cursor::many_from))]
fn prefixes(
    alloc: Global,
    known: &[Class],
    tokens: &mut Tokens<'_>,
) -> Result<Items<Prefix>, ReadError>
    ensures { Reads (base.many (spec.prefix known.now) tokens.old.rest.now) result tokens.new.rest.now }
{
    let mut found = Items::new(alloc);
    for _turn in 0..tokens.turns() {
        match prefix(alloc, known, tokens)? {
            None => return Ok(found),
            Some(prefix) => found.push(prefix)?,
        }
    }
    Err(tokens.refuse())
}

/// After `sizeof`.
#[tactic(auto, unfolding(crate::specs::Expression::measured))]
fn measured(
    alloc: Global,
    at: Place,
    tokens: &mut Tokens<'_>,
) -> Result<Boxed<Expression>, ReadError>
    ensures { Reads (spec.measured at tokens.old.rest.now) result tokens.new.rest.now }
{
    tokens.expect(Kind::OpenParen)?;
    let name = type_name(alloc, tokens)?;
    tokens.expect(Kind::CloseParen)?;
    boxed(alloc, Expression::SizeOf(at, name))
}

#[tactic(auto, unfolding(crate::specs::Expression::designator))]
#[cycle(expression)]
fn designator(
    alloc: Global,
    known: &[Class],
    tokens: &mut Tokens<'_>,
    depth: usize,
) -> Result<Option<Designator>, ReadError>
    ensures { Reads (spec.designator known.now (spec.expression known.now depth) tokens.old.rest.now) result tokens.new.rest.now }
{
    match tokens.peek() {
        Kind::Dot => {
            tokens.take();
            Ok(Some(Designator::Member(tokens.word(Kind::Name)?)))
        }
        Kind::OpenBracket => {
            tokens.take();
            let index = expression(alloc, known, tokens, depth, Role::Whole)?;
            tokens.ended_by(Kind::CloseBracket, Some(Designator::Index(index)))
        }
        _ => Ok(None),
    }
}

#[tactic(auto, using(crate::proofs::Turns::turn_left, crate::proofs::Turns::none_left), unfolding(crate::specs::Cursor::many, crate::specs::Cursor::many_from))]
#[cycle(expression)]
fn designators(
    alloc: Global,
    known: &[Class],
    tokens: &mut Tokens<'_>,
    depth: usize,
) -> Result<Items<Designator>, ReadError>
    ensures { Reads (base.many (spec.designator known.now (spec.expression known.now depth))
        tokens.old.rest.now) result tokens.new.rest.now }
{
    let mut found = Items::new(alloc);
    for _turn in 0..tokens.turns() {
        match designator(alloc, known, tokens, depth)? {
            None => return Ok(found),
            Some(designator) => found.push(designator)?,
        }
    }
    Err(tokens.refuse())
}

#[tactic(auto, unfolding(crate::specs::Expression::initialiser))]
#[cycle(expression)]
fn initialiser(
    alloc: Global,
    known: &[Class],
    tokens: &mut Tokens<'_>,
    depth: usize,
) -> Result<Initialiser, ReadError>
    ensures { Reads (spec.initialiser known.now (spec.expression known.now depth) tokens.old.rest.now) result tokens.new.rest.now }
{
    if !begins_designator(tokens.peek()) {
        return Ok(Initialiser::Plain(expression(alloc, known, tokens, depth, Role::Value)?));
    }
    let designators = designators(alloc, known, tokens, depth)?;
    tokens.expect(Kind::Assign)?;
    let value = expression(alloc, known, tokens, depth, Role::Value)?;
    Ok(Initialiser::Designated(designators, value))
}

/// An initialiser with the comma after it, if another one is here.
#[tactic(auto, unfolding(crate::specs::Expression::next_initialiser))]
#[cycle(expression)]
fn next_initialiser(
    alloc: Global,
    known: &[Class],
    tokens: &mut Tokens<'_>,
    depth: usize,
) -> Result<Option<Initialiser>, ReadError>
    ensures { Reads (spec.next_initialiser known.now (spec.expression known.now depth) tokens.old.rest.now) result tokens.new.rest.now }
{
    if tokens.sees(Kind::CloseBrace) {
        return Ok(None);
    }
    let found = initialiser(alloc, known, tokens, depth)?;
    tokens.separated(Kind::CloseBrace, found)
}

#[tactic(auto, using(crate::proofs::Turns::turn_left, crate::proofs::Turns::none_left), unfolding(crate::specs::Cursor::many, crate::specs::Cursor::many_from))]
#[cycle(expression)]
fn initialisers(
    alloc: Global,
    known: &[Class],
    tokens: &mut Tokens<'_>,
    depth: usize,
) -> Result<Items<Initialiser>, ReadError>
    ensures { Reads (base.many (spec.next_initialiser known.now (spec.expression known.now depth))
        tokens.old.rest.now) result tokens.new.rest.now }
{
    let mut found = Items::new(alloc);
    for _turn in 0..tokens.turns() {
        match next_initialiser(alloc, known, tokens, depth)? {
            None => return Ok(found),
            Some(initialiser) => found.push(initialiser)?,
        }
    }
    Err(tokens.refuse())
}

#[tactic(auto, unfolding(crate::specs::Expression::braces))]
#[cycle(expression)]
fn braces(
    alloc: Global,
    known: &[Class],
    tokens: &mut Tokens<'_>,
    depth: usize,
) -> Result<Items<Initialiser>, ReadError>
    ensures { Reads (spec.braces known.now (spec.expression known.now depth) tokens.old.rest.now) result tokens.new.rest.now }
{
    tokens.expect(Kind::OpenBrace)?;
    let found = initialisers(alloc, known, tokens, depth)?;
    tokens.ended_by(Kind::CloseBrace, found)
}

/// An argument with the comma after it, if another one is here.
#[tactic(auto, unfolding(crate::specs::Expression::next_argument))]
#[cycle(expression)]
fn next_argument(
    alloc: Global,
    known: &[Class],
    tokens: &mut Tokens<'_>,
    depth: usize,
) -> Result<Option<Boxed<Expression>>, ReadError>
    ensures { Reads (spec.next_argument known.now (spec.expression known.now depth) tokens.old.rest.now) result tokens.new.rest.now }
{
    if tokens.sees(Kind::CloseParen) {
        return Ok(None);
    }
    let found = expression(alloc, known, tokens, depth, Role::Argument)?;
    tokens.separated(Kind::CloseParen, found)
}

#[tactic(auto, using(crate::proofs::Turns::turn_left, crate::proofs::Turns::none_left), unfolding(crate::specs::Cursor::many, crate::specs::Cursor::many_from))]
#[cycle(expression)]
pub fn arguments(
    alloc: Global,
    known: &[Class],
    tokens: &mut Tokens<'_>,
    depth: usize,
) -> Result<Items<Expression>, ReadError>
    ensures { Reads (base.many (spec.next_argument known.now (spec.expression known.now depth))
        tokens.old.rest.now) result tokens.new.rest.now }
{
    let mut found = Items::new(alloc);
    for _turn in 0..tokens.turns() {
        match next_argument(alloc, known, tokens, depth)? {
            None => return Ok(found),
            Some(argument) => found.push(argument.into_inner())?,
        }
    }
    Err(tokens.refuse())
}

/// A suffix with no expression in it, if one is here.
fn plain_suffix(tokens: &mut Tokens<'_>) -> Result<Option<Suffix>, ReadError>
    ensures { Reads (spec.plain_suffix_by (left.kind tokens.old.rest.now) tokens.old.rest.now) result tokens.new.rest.now }
{
    match tokens.peek() {
        Kind::Dot => {
            tokens.take();
            Ok(Some(Suffix::Member(tokens.word(Kind::Name)?)))
        }
        Kind::Arrow => {
            tokens.take();
            Ok(Some(Suffix::Arrow(tokens.word(Kind::Name)?)))
        }
        Kind::DoubleColon => {
            tokens.take();
            Ok(Some(Suffix::Scope(tokens.word(Kind::Name)?)))
        }
        Kind::Increment => {
            tokens.take();
            Ok(Some(Suffix::Increment))
        }
        Kind::Decrement => {
            tokens.take();
            Ok(Some(Suffix::Decrement))
        }
        _ => Ok(None),
    }
}

#[tactic(auto, unfolding(crate::specs::Expression::suffix))]
#[cycle(expression)]
fn suffix(
    alloc: Global,
    known: &[Class],
    tokens: &mut Tokens<'_>,
    depth: usize,
) -> Result<Option<Suffix>, ReadError>
    ensures { Reads (spec.suffix known.now (spec.expression known.now depth) tokens.old.rest.now) result tokens.new.rest.now }
{
    match tokens.peek() {
        Kind::OpenParen => {
            tokens.take();
            let found = arguments(alloc, known, tokens, depth)?;
            tokens.ended_by(Kind::CloseParen, Some(Suffix::Call(found)))
        }
        Kind::OpenBracket => {
            tokens.take();
            let index = expression(alloc, known, tokens, depth, Role::Whole)?;
            tokens.ended_by(Kind::CloseBracket, Some(Suffix::Index(index)))
        }
        _ => plain_suffix(tokens),
    }
}

#[tactic(auto, using(crate::proofs::Turns::turn_left, crate::proofs::Turns::none_left), unfolding(crate::specs::Cursor::many, crate::specs::Cursor::many_from))]
#[cycle(expression)]
fn suffixes(
    alloc: Global,
    known: &[Class],
    tokens: &mut Tokens<'_>,
    depth: usize,
) -> Result<Items<Suffix>, ReadError>
    ensures { Reads (base.many (spec.suffix known.now (spec.expression known.now depth)) tokens.old.rest.now) result tokens.new.rest.now }
{
    let mut found = Items::new(alloc);
    for _turn in 0..tokens.turns() {
        match suffix(alloc, known, tokens, depth)? {
            None => return Ok(found),
            Some(suffix) => found.push(suffix)?,
        }
    }
    Err(tokens.refuse())
}

/// After an opening bracket: braces of a type, or an expression.
#[tactic(auto, unfolding(crate::specs::Expression::bracketed))]
#[cycle(expression)]
fn bracketed(
    alloc: Global,
    known: &[Class],
    at: Place,
    tokens: &mut Tokens<'_>,
    depth: usize,
) -> Result<Boxed<Expression>, ReadError>
    ensures { Reads (spec.bracketed known.now (spec.expression known.now depth) at tokens.old.rest.now) result tokens.new.rest.now }
{
    if is_literal(tokens.rest) {
        let name = type_name(alloc, tokens)?;
        tokens.expect(Kind::CloseParen)?;
        let found = braces(alloc, known, tokens, depth)?;
        return boxed(alloc, Expression::Compound(at, name, found));
    }
    if tokens.sees(Kind::OpenBrace) {
        return Err(tokens.fault(Reason::StatementExpression));
    }
    let inside = expression(alloc, known, tokens, depth, Role::Whole)?;
    tokens.ended_by(Kind::CloseParen, inside)
}

fn cast(
    alloc: Global,
    at: Place,
    name: TypeName,
    operand: Boxed<Expression>,
) -> Result<Boxed<Expression>, ReadError>
    ensures { Makes (Expression.Prefixed at (Prefix.Cast name ∷ []) operand) result }
{
    let mut found = Items::new(alloc);
    found.push(Prefix::Cast(name))?;
    Ok(Boxed::new(alloc, Expression::Prefixed(at, found, operand))?)
}

/// After the word of a cast of C++.
#[tactic(auto, unfolding(crate::specs::Expression::named_cast))]
#[cycle(expression)]
fn named_cast(
    alloc: Global,
    known: &[Class],
    at: Place,
    tokens: &mut Tokens<'_>,
    depth: usize,
) -> Result<Boxed<Expression>, ReadError>
    ensures { Reads (spec.named_cast known.now (spec.expression known.now depth) at tokens.old.rest.now) result tokens.new.rest.now }
{
    tokens.expect(Kind::Less)?;
    let name = type_name(alloc, tokens)?;
    tokens.expect(Kind::Greater)?;
    tokens.expect(Kind::OpenParen)?;
    let operand = expression(alloc, known, tokens, depth, Role::Whole)?;
    tokens.expect(Kind::CloseParen)?;
    cast(alloc, at, name, operand)
}

/// An operand of one token, `sizeof` of a type, or none.
#[tactic(auto, unfolding(crate::specs::Cursor::word, crate::specs::Tokens::same_kind))]
fn plain_primary(
    alloc: Global,
    at: Place,
    tokens: &mut Tokens<'_>,
) -> Result<Boxed<Expression>, ReadError>
    ensures { Reads (spec.plain_primary_by at (left.kind tokens.old.rest.now) tokens.old.rest.now) result tokens.new.rest.now }
{
    match tokens.peek() {
        Kind::Name => boxed(alloc, Expression::Name(at, tokens.take())),
        Kind::Number => boxed(alloc, Expression::Number(at, tokens.take())),
        Kind::Character => boxed(alloc, Expression::Character(at, tokens.take())),
        Kind::Sizeof => {
            tokens.take();
            measured(alloc, at, tokens)
        }
        Kind::OpenBracket => Err(tokens.fault(Reason::Lambda)),
        _ => Err(tokens.refuse()),
    }
}

/// An operand without its prefixes and suffixes.
#[tactic(auto, unfolding(crate::specs::Expression::primary))]
#[cycle(expression)]
fn primary(
    alloc: Global,
    known: &[Class],
    tokens: &mut Tokens<'_>,
    depth: usize,
) -> Result<Boxed<Expression>, ReadError>
    ensures { Reads (spec.primary known.now (spec.expression known.now depth) tokens.old.rest.now) result tokens.new.rest.now }
{
    let at = tokens.place();
    if begins_text(tokens.rest) {
        let words = texts(alloc, tokens)?;
        return boxed(alloc, Expression::Text(at, words));
    }
    match tokens.peek() {
        Kind::OpenParen => {
            tokens.take();
            bracketed(alloc, known, at, tokens, depth)
        }
        Kind::Cast => {
            tokens.take();
            named_cast(alloc, known, at, tokens, depth)
        }
        _ => plain_primary(alloc, at, tokens),
    }
}

/// Prefixes, an operand and suffixes.
#[tactic(auto, unfolding(crate::specs::Expression::unary))]
#[cycle(expression)]
fn unary(
    alloc: Global,
    known: &[Class],
    tokens: &mut Tokens<'_>,
    depth: usize,
) -> Result<Boxed<Expression>, ReadError>
    ensures { Reads (spec.unary known.now (spec.expression known.now depth) tokens.old.rest.now) result tokens.new.rest.now }
{
    let at = tokens.place();
    let before = prefixes(alloc, known, tokens)?;
    let from = tokens.place();
    let operand = primary(alloc, known, tokens, depth)?;
    let behind = suffixes(alloc, known, tokens, depth)?;
    affixed(alloc, at, before, from, operand, behind)
}

/// The operand between `?` and `:`, if there is one.
#[tactic(auto, unfolding(crate::specs::Expression::middle))]
#[cycle(expression)]
fn middle(
    alloc: Global,
    known: &[Class],
    tokens: &mut Tokens<'_>,
    depth: usize,
) -> Result<Option<Boxed<Expression>>, ReadError>
    ensures { Reads (spec.middle known.now (spec.expression known.now depth) tokens.old.rest.now) result tokens.new.rest.now }
{
    if tokens.sees(Kind::Colon) {
        return Ok(None);
    }
    Ok(Some(expression(alloc, known, tokens, depth, Role::Whole)?))
}

/// An operator of the level above `n` with the operand after it.
#[cycle(expression)]
fn link_here(
    alloc: Global,
    known: &[Class],
    tokens: &mut Tokens<'_>,
    depth: usize,
    n: usize,
) -> Result<Link, ReadError>
    requires { n ≤ 12 }
    ensures { Reads (spec.link_by known.now (spec.expression known.now depth)
        (spec.level known.now (spec.expression known.now depth) n)
        (operators.operator_of (left.kind tokens.old.rest.now)) tokens.old.rest.now) result tokens.new.rest.now }
{
    match operator_of(tokens.peek()) {
        Some(operator) => {
            tokens.take();
            let operand = level(alloc, known, tokens, depth, n)?;
            Ok(Link::Operated(operator, operand))
        }
        None => {
            tokens.expect(Kind::Question)?;
            let middle = middle(alloc, known, tokens, depth)?;
            tokens.expect(Kind::Colon)?;
            let operand = level(alloc, known, tokens, depth, n)?;
            Ok(Link::Choice(middle, operand))
        }
    }
}

#[tactic(auto, unfolding(crate::specs::Expression::link))]
#[cycle(expression)]
fn link(
    alloc: Global,
    known: &[Class],
    tokens: &mut Tokens<'_>,
    depth: usize,
    n: usize,
) -> Result<Option<Link>, ReadError>
    requires { n ≤ 12 }
    ensures { Reads (spec.link known.now (spec.expression known.now depth) (suc n)
        (spec.level known.now (spec.expression known.now depth) n) tokens.old.rest.now) result tokens.new.rest.now }
{
    if level_of(tokens.peek()) == n + 1 {
        Ok(Some(link_here(alloc, known, tokens, depth, n)?))
    } else {
        Ok(None)
    }
}

#[tactic(auto, using(crate::proofs::Turns::turn_left, crate::proofs::Turns::none_left), unfolding(crate::specs::Cursor::many, crate::specs::Cursor::many_from))]
#[cycle(expression)]
fn links(
    alloc: Global,
    known: &[Class],
    tokens: &mut Tokens<'_>,
    depth: usize,
    n: usize,
) -> Result<Items<Link>, ReadError>
    requires { n ≤ 12 }
    ensures { Reads (base.many (spec.link known.now (spec.expression known.now depth) (suc n)
        (spec.level known.now (spec.expression known.now depth) n)) tokens.old.rest.now) result tokens.new.rest.now }
{
    let mut found = Items::new(alloc);
    for _turn in 0..tokens.turns() {
        match link(alloc, known, tokens, depth, n)? {
            None => return Ok(found),
            Some(link) => found.push(link)?,
        }
    }
    Err(tokens.refuse())
}

/// Operands with operators of the level between them; level 0 is an operand.
#[tactic(auto, using(crate::proofs::Turns::level_inside), unfolding(crate::specs::Expression::level))]
#[cycle(expression)]
fn level(
    alloc: Global,
    known: &[Class],
    tokens: &mut Tokens<'_>,
    depth: usize,
    n: usize,
) -> Result<Boxed<Expression>, ReadError>
    requires { n ≤ 13 }
    ensures { Reads (spec.level known.now (spec.expression known.now depth) n tokens.old.rest.now) result tokens.new.rest.now }
{
    if n == 0 {
        return unary(alloc, known, tokens, depth);
    }
    let at = tokens.place();
    let operand = level(alloc, known, tokens, depth, n - 1)?;
    let more = links(alloc, known, tokens, depth, n - 1)?;
    linked(alloc, at, operand, more)
}

#[tactic(auto, unfolding(crate::specs::Expression::argument))]
#[cycle(expression)]
fn argument(
    alloc: Global,
    known: &[Class],
    tokens: &mut Tokens<'_>,
    depth: usize,
) -> Result<Boxed<Expression>, ReadError>
    ensures { Reads (spec.argument known.now (spec.expression known.now depth) tokens.old.rest.now) result tokens.new.rest.now }
{
    if !is_type_argument(tokens.rest) {
        return level(alloc, known, tokens, depth, ASSIGNMENT_LEVEL);
    }
    let at = tokens.place();
    let name = type_name(alloc, tokens)?;
    boxed(alloc, Expression::Type(at, name))
}

#[tactic(auto, unfolding(crate::specs::Expression::value))]
#[cycle(expression)]
fn value(
    alloc: Global,
    known: &[Class],
    tokens: &mut Tokens<'_>,
    depth: usize,
) -> Result<Boxed<Expression>, ReadError>
    ensures { Reads (spec.value known.now (spec.expression known.now depth) tokens.old.rest.now) result tokens.new.rest.now }
{
    if !tokens.sees(Kind::OpenBrace) {
        return level(alloc, known, tokens, depth, ASSIGNMENT_LEVEL);
    }
    let at = tokens.place();
    let found = braces(alloc, known, tokens, depth)?;
    boxed(alloc, Expression::Braces(at, found))
}

/// An expression in which brackets nest no deeper than `depth`, itself counted.
#[tactic(auto, using(crate::proofs::Turns::expression_inside), unfolding(crate::specs::Expression::expression))]
#[cycle(expression)]
pub fn expression(
    alloc: Global,
    known: &[Class],
    tokens: &mut Tokens<'_>,
    depth: usize,
    role: Role,
) -> Result<Boxed<Expression>, ReadError>
    ensures { Reads (spec.expression known.now depth role tokens.old.rest.now) result tokens.new.rest.now }
{
    if depth == 0 {
        return Err(tokens.fault(Reason::TooDeep));
    }
    match role {
        Role::Whole => level(alloc, known, tokens, depth - 1, WHOLE_LEVEL),
        Role::Argument => argument(alloc, known, tokens, depth - 1),
        Role::Value => value(alloc, known, tokens, depth - 1),
    }
}
