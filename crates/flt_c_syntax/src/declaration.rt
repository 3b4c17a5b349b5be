//! Reads declarations: words of types, and declarators.

ghost use Rattle.flt_c_syntax.specs.Cursor as base;
ghost use Rattle.flt_c_syntax.specs.Cursor.{Reads};
ghost use Rattle.flt_c_syntax.specs.Made as made;
ghost use Rattle.flt_c_syntax.specs.Statement as spec;
ghost use Rattle.flt_c_syntax.specs.Tokens as left;
ghost use Rattle.flt_c_syntax.specs.Types as types;
ghost use Rattle.std.specs.Prelude.{◌≡◌};

use crate::class::{Class, Part, Role};
use crate::cursor::{Tokens, front, next};
use crate::expression::expression;
use crate::fault::ReadError;
use crate::group::{follows_specifier, group};
use crate::tree::{Declarator, Expression, Form, Place, Specifier, Statement};
use crate::types::{behind, stars};
use flt_c_tokens::Kind;
use sqlite_items::{Boxed, Items};
use std::alloc::Global;

#[tactic(auto, unfolding(crate::specs::Statement::specifier, crate::specs::Cursor::word, crate::specs::Tokens::same_kind))]
fn specifier(tokens: &mut Tokens<'_>) -> Result<Option<Specifier>, ReadError>
    ensures { Reads (spec.specifier tokens.old.rest.now) result tokens.new.rest.now }
{
    match tokens.peek() {
        Kind::TypeWord | Kind::Qualifier | Kind::Struct => {
            Ok(Some(Specifier::Word(tokens.take())))
        }
        Kind::Name => {
            if follows_specifier(front(next(tokens.rest)).kind) {
                Ok(Some(Specifier::Word(tokens.take())))
            } else {
                Ok(None)
            }
        }
        Kind::Attribute => {
            let word = tokens.take();
            group(tokens)?;
            Ok(Some(Specifier::Attribute(word)))
        }
        Kind::OpenBrace => {
            group(tokens)?;
            Ok(Some(Specifier::Members))
        }
        _ => Ok(None),
    }
}

#[tactic(auto, using(crate::proofs::Turns::turn_left, crate::proofs::Turns::none_left), unfolding(crate::specs::Cursor::many, crate::specs::Cursor::many_from))]
fn specifiers(alloc: Global, tokens: &mut Tokens<'_>) -> Result<Items<Specifier>, ReadError>
    ensures { Reads (base.many spec.specifier tokens.old.rest.now) result tokens.new.rest.now }
{
    let mut found = Items::new(alloc);
    for _turn in 0..tokens.turns() {
        match specifier(tokens)? {
            None => return Ok(found),
            Some(specifier) => found.push(specifier)?,
        }
    }
    Err(tokens.refuse())
}

/// The bounds of an array.
#[tactic(auto, using(crate::proofs::Turns::turn_left, crate::proofs::Turns::none_left), unfolding(crate::specs::Statement::bounds, crate::specs::Statement::bounds_from))]
fn bounds(tokens: &mut Tokens<'_>) -> Result<(), ReadError>
    ensures { Reads (spec.bounds tokens.old.rest.now) result tokens.new.rest.now }
{
    for _turn in 0..tokens.turns() {
        if !tokens.sees(Kind::OpenBracket) {
            return Ok(());
        }
        group(tokens)?;
    }
    Err(tokens.refuse())
}

/// The brackets after a declared name, which say what it is.
#[tactic(auto, unfolding(crate::specs::Statement::form))]
fn form(tokens: &mut Tokens<'_>) -> Result<Form, ReadError>
    ensures { Reads (spec.form tokens.old.rest.now) result tokens.new.rest.now }
{
    if tokens.sees(Kind::OpenParen) {
        group(tokens)?;
        return Ok(Form::Prototype);
    }
    if tokens.sees(Kind::OpenBracket) {
        bounds(tokens)?;
        return Ok(Form::Array);
    }
    Ok(Form::Plain)
}

/// How many stars there are here. They are taken, and qualifiers among them.
fn star_run(tokens: &mut Tokens<'_>) -> usize
    ensures { spec.star_run tokens.old.rest.now ≡ Ok (result, tokens.new.rest.now) }
{
    let from = tokens.rest;
    tokens.rest = behind(Part::Star, from);
    stars(from)
}

/// After the bracket of a pointer to a function.
#[tactic(auto, unfolding(crate::specs::Statement::function_pointer))]
fn function_pointer(tokens: &mut Tokens<'_>) -> Result<(Place, (usize, (u32, Form))), ReadError>
    ensures { Reads (spec.function_pointer tokens.old.rest.now) result tokens.new.rest.now }
{
    let stars = star_run(tokens);
    let at = tokens.place();
    let word = tokens.word(Kind::Name)?;
    tokens.expect(Kind::CloseParen)?;
    group(tokens)?;
    Ok((at, (stars, (word, Form::FunctionPointer))))
}

/// A name and its form, after so many stars.
#[tactic(auto, unfolding(crate::specs::Statement::plainly_declared))]
fn plainly_declared(
    tokens: &mut Tokens<'_>,
    stars: usize,
) -> Result<(Place, (usize, (u32, Form))), ReadError>
    ensures { Reads (spec.plainly_declared stars tokens.old.rest.now) result tokens.new.rest.now }
{
    let at = tokens.place();
    let word = tokens.word(Kind::Name)?;
    let form = form(tokens)?;
    Ok((at, (stars, (word, form))))
}

/// A declared name: its place, its stars, its word and its form.
#[tactic(auto, unfolding(crate::specs::Statement::declared))]
fn declared(tokens: &mut Tokens<'_>) -> Result<(Place, (usize, (u32, Form))), ReadError>
    ensures { Reads (spec.declared tokens.old.rest.now) result tokens.new.rest.now }
{
    let stars = star_run(tokens);
    if tokens.eat(Kind::OpenParen) {
        function_pointer(tokens)
    } else {
        plainly_declared(tokens, stars)
    }
}

#[tactic(auto, unfolding(crate::specs::Statement::first_value))]
fn first_value(
    alloc: Global,
    known: &[Class],
    tokens: &mut Tokens<'_>,
    depth: usize,
) -> Result<Option<Boxed<Expression>>, ReadError>
    ensures { Reads (spec.first_value known.now depth tokens.old.rest.now) result tokens.new.rest.now }
{
    if tokens.eat(Kind::Assign) {
        Ok(Some(expression(alloc, known, tokens, depth, Role::Value)?))
    } else {
        Ok(None)
    }
}

#[tactic(auto, unfolding(crate::specs::Statement::next_declarator))]
fn next_declarator(
    alloc: Global,
    known: &[Class],
    tokens: &mut Tokens<'_>,
    depth: usize,
) -> Result<Option<Declarator>, ReadError>
    ensures { Reads (spec.next_declarator known.now depth tokens.old.rest.now) result tokens.new.rest.now }
{
    if tokens.sees(Kind::Semicolon) {
        return Ok(None);
    }
    let (place, (stars, (name, form))) = declared(tokens)?;
    let value = first_value(alloc, known, tokens, depth)?;
    let found = Declarator {
        place,
        name,
        stars,
        form,
        value,
    };
    tokens.separated(Kind::Semicolon, found)
}

#[tactic(auto, using(crate::proofs::Turns::turn_left, crate::proofs::Turns::none_left), unfolding(crate::specs::Cursor::many, crate::specs::Cursor::many_from))]
fn declarators(
    alloc: Global,
    known: &[Class],
    tokens: &mut Tokens<'_>,
    depth: usize,
) -> Result<Items<Declarator>, ReadError>
    ensures { Reads (base.many (spec.next_declarator known.now depth) tokens.old.rest.now) result tokens.new.rest.now }
{
    let mut found = Items::new(alloc);
    for _turn in 0..tokens.turns() {
        match next_declarator(alloc, known, tokens, depth)? {
            None => return Ok(found),
            Some(declarator) => found.push(declarator)?,
        }
    }
    Err(tokens.refuse())
}

/// Words, declarators and a semicolon.
#[tactic(auto, unfolding(crate::specs::Statement::declaration))]
pub fn declaration(
    alloc: Global,
    known: &[Class],
    at: Place,
    tokens: &mut Tokens<'_>,
    depth: usize,
) -> Result<Statement, ReadError>
    ensures { Reads (spec.declaration known.now depth at tokens.old.rest.now) result tokens.new.rest.now }
{
    let words = specifiers(alloc, tokens)?;
    let found = declarators(alloc, known, tokens, depth)?;
    tokens.ended_by(Kind::Semicolon, Statement::Declaration(at, words, found))
}
