//! Reads statements without blocks.

ghost use Rattle.flt_syntax.specs.Action as spec;
ghost use Rattle.flt_syntax.specs.Cursor.{Reads, ReadsOnto, onto};
ghost use Rattle.flt_syntax.specs.Scope.{scope_of};
ghost use Rattle.std.specs.Prelude.{◌<◌};
ghost use Rattle.std.specs.Vec.{vec_len, vec_capacity};

use crate::call::plain_call;
use crate::cursor::{Tokens, span};
use crate::fault::ParseError;
use crate::operand::{
    atom, context_variable, context_variable_of, leading_atom, number_variable_of,
    operation_variable, removed_variable_of,
};
use crate::scope::Scope;
use crate::status::optional_status;
use crate::token::Kind;
use flt_tree::{Action, ContextVariable, Expression, NumberVariable, RemovedVariable, Statement};
use std::alloc::Global;

#[tactic(auto, unfolding(crate::specs::Action::expression))]
fn expression(tokens: &mut Tokens<'_>) -> Result<Expression, ParseError>
    ensures { Reads (spec.expression tokens.old.rest.now) result tokens.new.rest.now }
{
    let first = leading_atom(tokens)?;
    match tokens.peek() {
        Kind::Plus => {
            tokens.take();
            Ok(Expression::Sum(first, atom(tokens)?))
        }
        Kind::Minus => {
            tokens.take();
            Ok(Expression::Difference(first, atom(tokens)?))
        }
        _ => Ok(Expression::Atom(first)),
    }
}

/// A number variable gets an expression, a context's value or an operation's file.
#[tactic(auto, unfolding(crate::specs::Action::set_number))]
fn set_number(tokens: &mut Tokens<'_>, n: NumberVariable) -> Result<Action, ParseError>
    ensures { Reads (spec.set_number n tokens.old.rest.now) result tokens.new.rest.now }
{
    tokens.take();
    tokens.expect(Kind::Assign)?;
    match tokens.peek() {
        Kind::Value => {
            tokens.take();
            Ok(Action::ReadValue(n, context_variable(tokens)?))
        }
        Kind::File => {
            tokens.take();
            Ok(Action::ReadFile(n, operation_variable(tokens)?))
        }
        _ => Ok(Action::SetNumber(n, expression(tokens)?)),
    }
}

#[tactic(auto, unfolding(crate::specs::Action::clear_context))]
fn clear_context(tokens: &mut Tokens<'_>, c: ContextVariable) -> Result<Action, ParseError>
    ensures { Reads (spec.clear_context c tokens.old.rest.now) result tokens.new.rest.now }
{
    tokens.take();
    tokens.expect(Kind::Assign)?;
    tokens.expect(Kind::Null)?;
    Ok(Action::ClearContext(c))
}

#[tactic(auto, unfolding(crate::specs::Action::clear_operation))]
fn clear_operation(tokens: &mut Tokens<'_>, o: RemovedVariable) -> Result<Action, ParseError>
    ensures { Reads (spec.clear_operation o tokens.old.rest.now) result tokens.new.rest.now }
{
    tokens.take();
    tokens.expect(Kind::Assign)?;
    tokens.expect(Kind::Null)?;
    Ok(Action::ClearOperation(o))
}

#[tactic(auto, unfolding(crate::specs::Action::write_value))]
fn write_value(tokens: &mut Tokens<'_>) -> Result<Action, ParseError>
    ensures { Reads (spec.write_value tokens.old.rest.now) result tokens.new.rest.now }
{
    tokens.take();
    let context = context_variable(tokens)?;
    tokens.expect(Kind::Assign)?;
    Ok(Action::WriteValue(context, atom(tokens)?))
}

/// A statement without blocks that begins with a word of its own. There is room for it.
#[tactic(auto, unfolding(crate::specs::Action::word_statement))]
fn word_statement(
    alloc: Global,
    scope: &Scope<'_>,
    tokens: &mut Tokens<'_>,
    stack: &mut Vec<Statement>,
) -> Result<(), ParseError>
    requires { vec_len stack.old < vec_capacity stack.old }
    ensures { ReadsOnto (onto stack.old.items (spec.word_statement (scope_of scope.now)) tokens.old.rest.now) result
        stack.new.items tokens.new.rest.now }
{
    let from = tokens.rest;
    match tokens.peek() {
        Kind::Value => {
            let action = write_value(tokens)?;
            stack.push_reserved(Statement::Act(span(from, tokens.rest), action));
        }
        Kind::Return => {
            tokens.take();
            let status = optional_status(tokens)?;
            stack.push_reserved(Statement::Return(span(from, tokens.rest), status));
        }
        _ => {
            let call = plain_call(alloc, scope, tokens)?;
            stack.push_reserved(Statement::Call(span(from, tokens.rest), call));
        }
    }
    Ok(())
}

/// A statement without blocks. It is put onto the stack where it is made, since a statement is large.
#[tactic(auto, unfolding(crate::specs::Action::simple_statement))]
pub fn simple_statement(
    alloc: Global,
    scope: &Scope<'_>,
    tokens: &mut Tokens<'_>,
    stack: &mut Vec<Statement>,
) -> Result<(), ParseError>
    ensures { ReadsOnto (onto stack.old.items (spec.simple_statement (scope_of scope.now)) tokens.old.rest.now) result
        stack.new.items tokens.new.rest.now }
{
    stack.reserve(1)?;
    let from = tokens.rest;
    let kind = tokens.peek();
    if let Some(n) = number_variable_of(kind) {
        let action = set_number(tokens, n)?;
        stack.push_reserved(Statement::Act(span(from, tokens.rest), action));
        return Ok(());
    }
    if let Some(c) = context_variable_of(kind) {
        let action = clear_context(tokens, c)?;
        stack.push_reserved(Statement::Act(span(from, tokens.rest), action));
        return Ok(());
    }
    if let Some(o) = removed_variable_of(kind) {
        let action = clear_operation(tokens, o)?;
        stack.push_reserved(Statement::Act(span(from, tokens.rest), action));
        return Ok(());
    }
    word_statement(alloc, scope, tokens, stack)
}
