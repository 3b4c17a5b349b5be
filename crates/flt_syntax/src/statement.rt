//! Reads statements and blocks. The statements of unfinished blocks are on a stack, from which each block takes its own at its end: a
//! nested block as a copy of exactly their size, that of a callback as the stack itself.

ghost use Rattle.flt_syntax.specs.Cursor.{Reads, ReadsOnto, onto};
ghost use Rattle.flt_syntax.specs.Scope.{scope_of};
ghost use Rattle.flt_syntax.specs.Statement as spec;
ghost use Rattle.std.specs.Prelude.{◌≡◌, ◌≤◌, drop, take, IfOk};
ghost use Rattle.std.specs.Vec.{vec_len};

use crate::action::simple_statement;
use crate::condition::condition;
use crate::cursor::{Tokens, span};
use crate::fault::{FaultKind, ParseError};
use crate::scope::Scope;
use crate::token::Kind;
use flt_rules::MAX_TURNS;
use flt_tree::{Span, Statement};
use sqlite_items::Items;
use std::alloc::{AllocError, Global};
use std::mem::replace;

/// The statements from a place on, which leave the stack. If that is all of them, the stack itself is handed over, and an empty one with as
/// much room takes its place.
fn taken_from(
    alloc: Global,
    stack: &mut Vec<Statement>,
    start: usize,
) -> Result<Items<Statement>, AllocError>
    requires { start ≤ vec_len stack.old }
    ensures taken { IfOk result (λ ss. ss ≡ drop start stack.old.items) }
    ensures stack { IfOk result (λ _. stack.new.items ≡ take start stack.old.items) }
{
    let taken = if start == 0 {
        let empty = Vec::with_capacity(alloc, stack.capacity())?;
        replace(stack, empty)
    } else {
        stack.split_off(start)?
    };
    Ok(Items::from_vec(taken))
}

#[tactic(auto, unfolding(crate::specs::Statement::otherwise))]
#[cycle(parser)]
fn otherwise(
    alloc: Global,
    scope: &Scope<'_>,
    tokens: &mut Tokens<'_>,
    depth: usize,
    repeats: usize,
    stack: &mut Vec<Statement>,
) -> Result<Items<Statement>, ParseError>
    ensures reads { Reads (spec.otherwise (scope_of scope.now) (spec.block (scope_of scope.now) depth) repeats tokens.old.rest.now)
        result tokens.new.rest.now }
    ensures stack { IfOk result (λ _. stack.new.items ≡ stack.old.items) }
{
    if tokens.eat(Kind::Else) {
        block(alloc, scope, tokens, depth, repeats, stack)
    } else {
        Ok(Items::new(alloc))
    }
}

#[tactic(auto, unfolding(crate::specs::Statement::choice))]
#[cycle(parser)]
fn choice(
    alloc: Global,
    scope: &Scope<'_>,
    tokens: &mut Tokens<'_>,
    depth: usize,
    repeats: usize,
    stack: &mut Vec<Statement>,
) -> Result<(), ParseError>
    ensures { ReadsOnto (onto stack.old.items (spec.choice (scope_of scope.now) (spec.block (scope_of scope.now) depth) repeats)
        tokens.old.rest.now) result stack.new.items tokens.new.rest.now }
{
    let line = tokens.position().line;
    tokens.take();
    let from = tokens.rest;
    let condition = condition(alloc, scope, tokens)?;
    let span = Span {
        line,
        ..span(from, tokens.rest)
    };
    let granted = block(alloc, scope, tokens, depth, repeats, stack)?;
    let refused = otherwise(alloc, scope, tokens, depth, repeats, stack)?;
    stack.reserve(1)?;
    stack.push_reserved(Statement::If(span, condition, granted, refused));
    Ok(())
}

/// `repeats` counts how many may still be nested.
#[tactic(auto, unfolding(crate::specs::Statement::repetition))]
#[cycle(parser)]
fn repetition(
    alloc: Global,
    scope: &Scope<'_>,
    tokens: &mut Tokens<'_>,
    depth: usize,
    repeats: usize,
    stack: &mut Vec<Statement>,
) -> Result<(), ParseError>
    ensures { ReadsOnto (onto stack.old.items (spec.repetition (scope_of scope.now) (spec.block (scope_of scope.now) depth) repeats)
        tokens.old.rest.now) result stack.new.items tokens.new.rest.now }
{
    if repeats == 0 {
        return Err(tokens.fault(FaultKind::E06));
    }
    let from = tokens.rest;
    tokens.take();
    let turns = tokens.number_within(0, MAX_TURNS)?;
    let span = span(from, tokens.rest);
    let body = block(alloc, scope, tokens, depth, repeats - 1, stack)?;
    stack.reserve(1)?;
    stack.push_reserved(Statement::Repeat(span, turns, body));
    Ok(())
}

#[tactic(auto, unfolding(crate::specs::Statement::statement))]
#[cycle(parser)]
fn statement(
    alloc: Global,
    scope: &Scope<'_>,
    tokens: &mut Tokens<'_>,
    depth: usize,
    repeats: usize,
    stack: &mut Vec<Statement>,
) -> Result<(), ParseError>
    ensures { ReadsOnto (onto stack.old.items (spec.statement (scope_of scope.now) (spec.block (scope_of scope.now) depth) repeats)
        tokens.old.rest.now) result stack.new.items tokens.new.rest.now }
{
    match tokens.peek() {
        Kind::If => choice(alloc, scope, tokens, depth, repeats, stack),
        Kind::Repeat => repetition(alloc, scope, tokens, depth, repeats, stack),
        _ => simple_statement(alloc, scope, tokens, stack),
    }
}

/// The statements up to the closing brace, which stays.
#[tactic(auto, using(crate::proofs::Turns::turn_left, crate::proofs::Turns::none_left), unfolding(crate::specs::Statement::statements, crate::specs::Statement::statements_from))]
#[cycle(parser)]
pub fn statements(
    alloc: Global,
    scope: &Scope<'_>,
    tokens: &mut Tokens<'_>,
    depth: usize,
    repeats: usize,
    stack: &mut Vec<Statement>,
) -> Result<Items<Statement>, ParseError>
    ensures reads { Reads (spec.statements (scope_of scope.now) (spec.block (scope_of scope.now) depth) repeats tokens.old.rest.now)
        result tokens.new.rest.now }
    ensures stack { IfOk result (λ _. stack.new.items ≡ stack.old.items) }
{
    let start = stack.len();
    for _turn in 0..tokens.left() {
        if tokens.sees(Kind::CloseBrace) {
            return Ok(taken_from(alloc, stack, start)?);
        }
        statement(alloc, scope, tokens, depth, repeats, stack)?;
    }
    Err(tokens.refuse())
}

/// A block in which blocks nest no deeper than `depth`, itself counted.
#[tactic(auto, using(crate::proofs::Turns::block_inside), unfolding(crate::specs::Statement::block))]
#[cycle(parser)]
fn block(
    alloc: Global,
    scope: &Scope<'_>,
    tokens: &mut Tokens<'_>,
    depth: usize,
    repeats: usize,
    stack: &mut Vec<Statement>,
) -> Result<Items<Statement>, ParseError>
    ensures reads { Reads (spec.block (scope_of scope.now) depth repeats tokens.old.rest.now) result tokens.new.rest.now }
    ensures stack { IfOk result (λ _. stack.new.items ≡ stack.old.items) }
{
    if depth == 0 {
        return Err(tokens.too_deep());
    }
    tokens.expect(Kind::OpenBrace)?;
    let body = statements(alloc, scope, tokens, depth - 1, repeats, stack)?;
    tokens.expect(Kind::CloseBrace)?;
    Ok(body)
}
