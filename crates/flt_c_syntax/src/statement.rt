//! Reads statements and blocks.

ghost use Rattle.flt_c_syntax.specs.Cursor as base;
ghost use Rattle.flt_c_syntax.specs.Cursor.{Reads, Makes};
ghost use Rattle.flt_c_syntax.specs.Expression as expressions;
ghost use Rattle.flt_c_syntax.specs.Statement as spec;
ghost use Rattle.flt_c_syntax.specs.Tokens as left;
ghost use Rattle.std.specs.Prelude.{◌≡◌, [], ◌∷◌, IfOk};

use crate::class::{Class, Nest, Role};
use crate::cursor::{Tokens, next};
use crate::declaration::declaration;
use crate::expression::{arguments, expression};
use crate::fault::{ReadError, Reason};
use crate::group::{
    begins_declaration, begins_label, begins_leave, begins_loop, begins_name_label, ends_list,
    group, is_macro, up_to_semicolon,
};
use crate::tree::{Branch, Expression, Place, Statement};
use crate::types::sees;
use flt_c_tokens::Kind;
use sqlite_items::{Boxed, Items};
use std::alloc::{AllocError, Global};

/// An expression in brackets.
#[tactic(auto, unfolding(crate::specs::Statement::tested))]
fn tested(
    alloc: Global,
    known: &[Class],
    tokens: &mut Tokens<'_>,
    depth: usize,
) -> Result<Boxed<Expression>, ReadError>
    ensures { Reads (spec.tested known.now depth tokens.old.rest.now) result tokens.new.rest.now }
{
    tokens.expect(Kind::OpenParen)?;
    let test = expression(alloc, known, tokens, depth, Role::Whole)?;
    tokens.ended_by(Kind::CloseParen, test)
}

/// An expression, if there is one, and the token after it.
#[tactic(auto, unfolding(crate::specs::Statement::optional))]
fn optional(
    alloc: Global,
    known: &[Class],
    tokens: &mut Tokens<'_>,
    depth: usize,
    close: Kind,
) -> Result<Option<Boxed<Expression>>, ReadError>
    ensures { Reads (spec.optional known.now depth close tokens.old.rest.now) result tokens.new.rest.now }
{
    if tokens.sees(close) {
        tokens.take();
        return Ok(None);
    }
    let found = expression(alloc, known, tokens, depth, Role::Whole)?;
    tokens.ended_by(close, Some(found))
}

fn one(alloc: Global, statement: Statement) -> Result<Items<Statement>, ReadError>
    ensures { Makes (statement ∷ []) result }
{
    let mut found = Items::new(alloc);
    found.push(statement)?;
    Ok(found)
}

fn with_first(
    alloc: Global,
    first: Branch,
    more: Items<Branch>,
) -> Result<Items<Branch>, AllocError>
    ensures { IfOk result (λ bs. bs ≡ first ∷ more) }
{
    let mut found = Items::new(alloc);
    found.push(first)?;
    found.append(more)?;
    Ok(found)
}

/// An expression and a semicolon.
#[tactic(auto, unfolding(crate::specs::Statement::expressed))]
fn expressed(
    alloc: Global,
    known: &[Class],
    at: Place,
    tokens: &mut Tokens<'_>,
    depth: usize,
) -> Result<Statement, ReadError>
    ensures { Reads (spec.expressed known.now depth at tokens.old.rest.now) result tokens.new.rest.now }
{
    let found = expression(alloc, known, tokens, depth, Role::Whole)?;
    tokens.ended_by(Kind::Semicolon, Statement::Expression(at, found))
}

/// The first part of a `for`.
#[tactic(auto, unfolding(crate::specs::Statement::first))]
fn first(
    alloc: Global,
    known: &[Class],
    tokens: &mut Tokens<'_>,
    depth: usize,
) -> Result<Items<Statement>, ReadError>
    ensures { Reads (spec.first known.now depth tokens.old.rest.now) result tokens.new.rest.now }
{
    let at = tokens.place();
    if begins_declaration(tokens.rest) {
        let found = declaration(alloc, known, at, tokens, depth)?;
        return one(alloc, found);
    }
    if tokens.sees(Kind::Semicolon) {
        tokens.take();
        return Ok(Items::new(alloc));
    }
    let found = expression(alloc, known, tokens, depth, Role::Whole)?;
    tokens.expect(Kind::Semicolon)?;
    one(alloc, Statement::Expression(at, found))
}

/// The last value of a range of cases.
#[tactic(auto, unfolding(crate::specs::Statement::last))]
fn last(
    alloc: Global,
    known: &[Class],
    tokens: &mut Tokens<'_>,
    depth: usize,
) -> Result<Option<Boxed<Expression>>, ReadError>
    ensures { Reads (spec.last known.now depth tokens.old.rest.now) result tokens.new.rest.now }
{
    if tokens.eat(Kind::Ellipsis) {
        Ok(Some(expression(alloc, known, tokens, depth, Role::Argument)?))
    } else {
        Ok(None)
    }
}

/// The arguments of a macro, in brackets.
#[tactic(auto, unfolding(crate::specs::Statement::arguments))]
fn bracketed_arguments(
    alloc: Global,
    known: &[Class],
    tokens: &mut Tokens<'_>,
    depth: usize,
) -> Result<Items<Expression>, ReadError>
    ensures { Reads (spec.arguments known.now depth tokens.old.rest.now) result tokens.new.rest.now }
{
    tokens.expect(Kind::OpenParen)?;
    let found = arguments(alloc, known, tokens, depth)?;
    tokens.ended_by(Kind::CloseParen, found)
}

/// After `case`.
#[tactic(auto, unfolding(crate::specs::Statement::case))]
fn case(
    alloc: Global,
    known: &[Class],
    at: Place,
    tokens: &mut Tokens<'_>,
    depth: usize,
) -> Result<Statement, ReadError>
    ensures { Reads (spec.case known.now depth at tokens.old.rest.now) result tokens.new.rest.now }
{
    let value = expression(alloc, known, tokens, depth, Role::Argument)?;
    let last = last(alloc, known, tokens, depth)?;
    tokens.ended_by(Kind::Colon, Statement::Case(at, value, last))
}

/// A jump, which is here.
fn jump(at: Place, tokens: &mut Tokens<'_>) -> Result<Statement, ReadError>
    ensures { Reads (spec.jump_by at (left.kind tokens.old.rest.now) tokens.old.rest.now) result tokens.new.rest.now }
{
    let kind = tokens.peek();
    tokens.take();
    match kind {
        Kind::Goto => {
            let word = tokens.word(Kind::Name)?;
            tokens.ended_by(Kind::Semicolon, Statement::Goto(at, word))
        }
        Kind::Break => tokens.ended_by(Kind::Semicolon, Statement::Break(at)),
        Kind::Continue => tokens.ended_by(Kind::Semicolon, Statement::Continue(at)),
        _ => tokens.ended_by(Kind::Semicolon, Statement::Leave(at)),
    }
}

/// A `typedef` or an attribute, which is here.
fn skipped(at: Place, tokens: &mut Tokens<'_>) -> Result<Statement, ReadError>
    ensures { Reads (spec.skipped_by at (left.kind tokens.old.rest.now) tokens.old.rest.now) result tokens.new.rest.now }
{
    match tokens.peek() {
        Kind::Typedef => {
            up_to_semicolon(tokens)?;
            Ok(Statement::Typedef(at))
        }
        _ => {
            let word = tokens.word(Kind::Attribute)?;
            group(tokens)?;
            Ok(Statement::Attribute(at, word))
        }
    }
}

/// A statement that begins with no name and has no other one in it.
#[tactic(auto, unfolding(crate::specs::Statement::plain_statement_by))]
fn plain_statement(
    alloc: Global,
    known: &[Class],
    at: Place,
    tokens: &mut Tokens<'_>,
    depth: usize,
) -> Result<Statement, ReadError>
    ensures { Reads (spec.plain_statement_by known.now depth at (left.kind tokens.old.rest.now)
        tokens.old.rest.now) result tokens.new.rest.now }
{
    match tokens.peek() {
        Kind::Semicolon => {
            tokens.take();
            Ok(Statement::Empty(at))
        }
        Kind::Case => {
            tokens.take();
            case(alloc, known, at, tokens, depth)
        }
        Kind::Default => {
            tokens.take();
            tokens.ended_by(Kind::Colon, Statement::Default(at))
        }
        Kind::Return => {
            tokens.take();
            let value = optional(alloc, known, tokens, depth, Kind::Semicolon)?;
            Ok(Statement::Return(at, value))
        }
        Kind::Goto | Kind::Break | Kind::Continue | Kind::Leave => jump(at, tokens),
        Kind::Typedef | Kind::Attribute => skipped(at, tokens),
        Kind::TypeWord | Kind::Qualifier | Kind::Struct => {
            declaration(alloc, known, at, tokens, depth)
        }
        _ => expressed(alloc, known, at, tokens, depth),
    }
}

/// A statement that begins with a name and has no other one in it.
#[tactic(auto, unfolding(crate::specs::Statement::plain_named))]
fn plain_named(
    alloc: Global,
    known: &[Class],
    at: Place,
    tokens: &mut Tokens<'_>,
    depth: usize,
) -> Result<Statement, ReadError>
    ensures { Reads (spec.plain_named known.now depth at tokens.old.rest.now) result tokens.new.rest.now }
{
    if begins_name_label(tokens.rest) {
        let word = tokens.word(Kind::Name)?;
        return tokens.ended_by(Kind::Colon, Statement::Label(at, word));
    }
    if begins_leave(tokens.rest) {
        tokens.take();
        return tokens.ended_by(Kind::Semicolon, Statement::Leave(at));
    }
    if begins_declaration(tokens.rest) {
        return declaration(alloc, known, at, tokens, depth);
    }
    if is_macro(tokens.rest) {
        let word = tokens.word(Kind::Name)?;
        let given = bracketed_arguments(alloc, known, tokens, depth)?;
        return Ok(Statement::Macro(at, word, given));
    }
    expressed(alloc, known, at, tokens, depth)
}

#[tactic(auto, unfolding(crate::specs::Statement::else_if))]
#[cycle(statement)]
fn else_if(
    alloc: Global,
    known: &[Class],
    tokens: &mut Tokens<'_>,
    depth: usize,
) -> Result<Option<Branch>, ReadError>
    ensures { Reads (spec.else_if known.now depth (spec.nested known.now depth) tokens.old.rest.now) result tokens.new.rest.now }
{
    if !tokens.sees(Kind::Else) || !sees(Kind::If, next(tokens.rest)) {
        return Ok(None);
    }
    tokens.take();
    tokens.take();
    let test = tested(alloc, known, tokens, depth)?;
    let body = nested(alloc, known, tokens, depth, Nest::Body)?;
    Ok(Some(Branch::If(test, body)))
}

#[tactic(auto, using(crate::proofs::Turns::turn_left, crate::proofs::Turns::none_left), unfolding(crate::specs::Cursor::many, crate::specs::Cursor::many_from))]
#[cycle(statement)]
fn else_ifs(
    alloc: Global,
    known: &[Class],
    tokens: &mut Tokens<'_>,
    depth: usize,
) -> Result<Items<Branch>, ReadError>
    ensures { Reads (base.many (spec.else_if known.now depth (spec.nested known.now depth))
        tokens.old.rest.now) result tokens.new.rest.now }
{
    let mut found = Items::new(alloc);
    for _turn in 0..tokens.turns() {
        match else_if(alloc, known, tokens, depth)? {
            None => return Ok(found),
            Some(next) => found.push(next)?,
        }
    }
    Err(tokens.refuse())
}

#[tactic(auto, unfolding(crate::specs::Statement::otherwise))]
#[cycle(statement)]
fn otherwise(
    alloc: Global,
    known: &[Class],
    tokens: &mut Tokens<'_>,
    depth: usize,
) -> Result<Items<Statement>, ReadError>
    ensures { Reads (spec.otherwise known.now depth (spec.nested known.now depth) tokens.old.rest.now) result tokens.new.rest.now }
{
    if tokens.eat(Kind::Else) {
        nested(alloc, known, tokens, depth, Nest::Body)
    } else {
        Ok(Items::new(alloc))
    }
}

/// After `if`.
#[tactic(auto, unfolding(crate::specs::Statement::choice))]
#[cycle(statement)]
fn choice(
    alloc: Global,
    known: &[Class],
    at: Place,
    tokens: &mut Tokens<'_>,
    depth: usize,
) -> Result<Statement, ReadError>
    ensures { Reads (spec.choice known.now depth (spec.nested known.now depth) at tokens.old.rest.now) result tokens.new.rest.now }
{
    let test = tested(alloc, known, tokens, depth)?;
    let body = nested(alloc, known, tokens, depth, Nest::Body)?;
    let more = else_ifs(alloc, known, tokens, depth)?;
    let refused = otherwise(alloc, known, tokens, depth)?;
    let branches = with_first(alloc, Branch::If(test, body), more)?;
    Ok(Statement::If(at, branches, refused))
}

/// After `for`.
#[tactic(auto, unfolding(crate::specs::Statement::counting))]
#[cycle(statement)]
fn counting(
    alloc: Global,
    known: &[Class],
    at: Place,
    tokens: &mut Tokens<'_>,
    depth: usize,
) -> Result<Statement, ReadError>
    ensures { Reads (spec.counting known.now depth (spec.nested known.now depth) at tokens.old.rest.now) result tokens.new.rest.now }
{
    tokens.expect(Kind::OpenParen)?;
    let first = first(alloc, known, tokens, depth)?;
    let test = optional(alloc, known, tokens, depth, Kind::Semicolon)?;
    let step = optional(alloc, known, tokens, depth, Kind::CloseParen)?;
    let body = nested(alloc, known, tokens, depth, Nest::Body)?;
    Ok(Statement::For(at, first, test, step, body))
}

/// After `do`.
#[tactic(auto, unfolding(crate::specs::Statement::repetition))]
#[cycle(statement)]
fn repetition(
    alloc: Global,
    known: &[Class],
    at: Place,
    tokens: &mut Tokens<'_>,
    depth: usize,
) -> Result<Statement, ReadError>
    ensures { Reads (spec.repetition known.now depth (spec.nested known.now depth) at tokens.old.rest.now) result tokens.new.rest.now }
{
    let body = nested(alloc, known, tokens, depth, Nest::Body)?;
    tokens.expect(Kind::While)?;
    let test = tested(alloc, known, tokens, depth)?;
    tokens.ended_by(Kind::Semicolon, Statement::Do(at, body, test))
}

/// After `__try`.
#[tactic(auto, unfolding(crate::specs::Statement::guarded))]
#[cycle(statement)]
fn guarded(
    alloc: Global,
    known: &[Class],
    at: Place,
    tokens: &mut Tokens<'_>,
    depth: usize,
) -> Result<Statement, ReadError>
    ensures { Reads (spec.guarded known.now depth (spec.nested known.now depth) at tokens.old.rest.now) result tokens.new.rest.now }
{
    let body = nested(alloc, known, tokens, depth, Nest::Body)?;
    match tokens.peek() {
        Kind::Finally => {
            tokens.take();
            let handler = nested(alloc, known, tokens, depth, Nest::Body)?;
            Ok(Statement::Finally(at, body, handler))
        }
        Kind::Except => {
            tokens.take();
            let filter = tested(alloc, known, tokens, depth)?;
            let handler = nested(alloc, known, tokens, depth, Nest::Body)?;
            Ok(Statement::Except(at, body, filter, handler))
        }
        _ => Err(tokens.refuse()),
    }
}

#[tactic(auto, unfolding(crate::specs::Statement::else_branch))]
#[cycle(statement)]
fn else_branch(
    alloc: Global,
    known: &[Class],
    tokens: &mut Tokens<'_>,
    depth: usize,
) -> Result<Option<Branch>, ReadError>
    ensures { Reads (spec.else_branch known.now depth (spec.nested known.now depth) tokens.old.rest.now) result tokens.new.rest.now }
{
    if !tokens.sees(Kind::GroupElse) {
        return Ok(None);
    }
    let word = tokens.word(Kind::GroupElse)?;
    let body = nested(alloc, known, tokens, depth, Nest::Branch)?;
    Ok(Some(Branch::Directive(word, body)))
}

#[tactic(auto, using(crate::proofs::Turns::turn_left, crate::proofs::Turns::none_left), unfolding(crate::specs::Cursor::many, crate::specs::Cursor::many_from))]
#[cycle(statement)]
fn else_branches(
    alloc: Global,
    known: &[Class],
    tokens: &mut Tokens<'_>,
    depth: usize,
) -> Result<Items<Branch>, ReadError>
    ensures { Reads (base.many (spec.else_branch known.now depth (spec.nested known.now depth))
        tokens.old.rest.now) result tokens.new.rest.now }
{
    let mut found = Items::new(alloc);
    for _turn in 0..tokens.turns() {
        match else_branch(alloc, known, tokens, depth)? {
            None => return Ok(found),
            Some(next) => found.push(next)?,
        }
    }
    Err(tokens.refuse())
}

/// A group of `#if`.
#[tactic(auto, unfolding(crate::specs::Statement::directed))]
#[cycle(statement)]
fn directed(
    alloc: Global,
    known: &[Class],
    at: Place,
    tokens: &mut Tokens<'_>,
    depth: usize,
) -> Result<Statement, ReadError>
    ensures { Reads (spec.directed known.now depth (spec.nested known.now depth) at tokens.old.rest.now) result tokens.new.rest.now }
{
    let word = tokens.word(Kind::GroupIf)?;
    let body = nested(alloc, known, tokens, depth, Nest::Branch)?;
    let more = else_branches(alloc, known, tokens, depth)?;
    tokens.expect(Kind::GroupEnd)?;
    let branches = with_first(alloc, Branch::Directive(word, body), more)?;
    Ok(Statement::Group(at, branches))
}

/// A statement that begins with a name.
#[tactic(auto, unfolding(crate::specs::Statement::named))]
#[cycle(statement)]
fn named(
    alloc: Global,
    known: &[Class],
    at: Place,
    tokens: &mut Tokens<'_>,
    depth: usize,
) -> Result<Statement, ReadError>
    ensures { Reads (spec.named known.now depth (spec.nested known.now depth) at tokens.old.rest.now) result tokens.new.rest.now }
{
    if !begins_loop(tokens.rest) {
        return plain_named(alloc, known, at, tokens, depth);
    }
    let word = tokens.word(Kind::Name)?;
    let given = bracketed_arguments(alloc, known, tokens, depth)?;
    let body = nested(alloc, known, tokens, depth, Nest::Body)?;
    Ok(Statement::Loop(at, word, given, body))
}

/// A statement that begins with a word of the kind, and has a test and a body.
fn conditional_of(
    at: Place,
    kind: Kind,
    test: Boxed<Expression>,
    body: Items<Statement>,
) -> Statement
    ensures { result ≡ spec.conditional_of at kind test body }
{
    match kind {
        Kind::While => Statement::While(at, test, body),
        _ => Statement::Switch(at, test, body),
    }
}

/// `while` or `switch`, which is here.
#[cycle(statement)]
fn conditional(
    alloc: Global,
    known: &[Class],
    at: Place,
    tokens: &mut Tokens<'_>,
    depth: usize,
) -> Result<Statement, ReadError>
    ensures { Reads (spec.conditional_by known.now depth (spec.nested known.now depth) at (left.kind tokens.old.rest.now)
        tokens.old.rest.now) result tokens.new.rest.now }
{
    let kind = tokens.peek();
    tokens.take();
    let test = tested(alloc, known, tokens, depth)?;
    let body = nested(alloc, known, tokens, depth, Nest::Body)?;
    Ok(conditional_of(at, kind, test, body))
}

#[tactic(auto, unfolding(crate::specs::Statement::statement))]
#[cycle(statement)]
fn statement(
    alloc: Global,
    known: &[Class],
    tokens: &mut Tokens<'_>,
    depth: usize,
) -> Result<Statement, ReadError>
    ensures { Reads (spec.statement known.now depth (spec.nested known.now depth) tokens.old.rest.now) result tokens.new.rest.now }
{
    let at = tokens.place();
    match tokens.peek() {
        Kind::Name => named(alloc, known, at, tokens, depth),
        Kind::OpenBrace => {
            let body = nested(alloc, known, tokens, depth, Nest::Body)?;
            Ok(Statement::Block(at, body))
        }
        Kind::If => {
            tokens.take();
            choice(alloc, known, at, tokens, depth)
        }
        Kind::While | Kind::Switch => conditional(alloc, known, at, tokens, depth),
        Kind::Do => {
            tokens.take();
            repetition(alloc, known, at, tokens, depth)
        }
        Kind::For => {
            tokens.take();
            counting(alloc, known, at, tokens, depth)
        }
        Kind::Try => {
            tokens.take();
            guarded(alloc, known, at, tokens, depth)
        }
        Kind::GroupIf => directed(alloc, known, at, tokens, depth),
        _ => plain_statement(alloc, known, at, tokens, depth),
    }
}

/// A statement, if the list does not end here.
#[tactic(auto, unfolding(crate::specs::Statement::next_statement))]
#[cycle(statement)]
fn next_statement(
    alloc: Global,
    known: &[Class],
    tokens: &mut Tokens<'_>,
    depth: usize,
) -> Result<Option<Statement>, ReadError>
    ensures { Reads (spec.next_statement known.now depth (spec.nested known.now depth) tokens.old.rest.now) result tokens.new.rest.now }
{
    if ends_list(tokens.peek()) {
        return Ok(None);
    }
    Ok(Some(statement(alloc, known, tokens, depth)?))
}

#[tactic(auto, using(crate::proofs::Turns::turn_left, crate::proofs::Turns::none_left), unfolding(crate::specs::Cursor::many, crate::specs::Cursor::many_from))]
#[cycle(statement)]
fn statements(
    alloc: Global,
    known: &[Class],
    tokens: &mut Tokens<'_>,
    depth: usize,
) -> Result<Items<Statement>, ReadError>
    ensures { Reads (base.many (spec.next_statement known.now depth (spec.nested known.now depth))
        tokens.old.rest.now) result tokens.new.rest.now }
{
    let mut found = Items::new(alloc);
    for _turn in 0..tokens.turns() {
        match next_statement(alloc, known, tokens, depth)? {
            None => return Ok(found),
            Some(next) => found.push(next)?,
        }
    }
    Err(tokens.refuse())
}

/// A block, or one statement without a label.
#[tactic(auto, unfolding(crate::specs::Statement::body))]
#[cycle(statement)]
fn body(
    alloc: Global,
    known: &[Class],
    tokens: &mut Tokens<'_>,
    depth: usize,
) -> Result<Items<Statement>, ReadError>
    ensures { Reads (spec.body known.now depth (spec.nested known.now depth) tokens.old.rest.now) result tokens.new.rest.now }
{
    if tokens.sees(Kind::OpenBrace) {
        tokens.expect(Kind::OpenBrace)?;
        let found = statements(alloc, known, tokens, depth)?;
        return tokens.ended_by(Kind::CloseBrace, found);
    }
    if begins_label(tokens.rest) {
        return Err(tokens.refuse());
    }
    let found = statement(alloc, known, tokens, depth)?;
    one(alloc, found)
}

/// Statements in which blocks and brackets nest no deeper than `depth`, themselves counted.
#[tactic(auto, using(crate::proofs::Turns::nested_inside), unfolding(crate::specs::Statement::nested))]
#[cycle(statement)]
pub fn nested(
    alloc: Global,
    known: &[Class],
    tokens: &mut Tokens<'_>,
    depth: usize,
    nest: Nest,
) -> Result<Items<Statement>, ReadError>
    ensures { Reads (spec.nested known.now depth nest tokens.old.rest.now) result tokens.new.rest.now }
{
    if depth == 0 {
        return Err(tokens.fault(Reason::TooDeep));
    }
    match nest {
        Nest::Body => body(alloc, known, tokens, depth - 1),
        Nest::Branch => statements(alloc, known, tokens, depth - 1),
    }
}
