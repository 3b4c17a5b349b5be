//! Reads what an `if` tests.

ghost use Rattle.flt_syntax.specs.Condition as spec;
ghost use Rattle.flt_syntax.specs.Cursor.{Reads};
ghost use Rattle.flt_syntax.specs.Scope.{scope_of};

use crate::call::fallible_call;
use crate::cursor::Tokens;
use crate::fault::ParseError;
use crate::operand::{atom, context_variable_of, number_variable_of, removed_variable_of};
use crate::scope::Scope;
use crate::token::Kind;
use flt_tree::{Condition, ContextVariable, NumberVariable, RemovedVariable, Test};
use std::alloc::Global;

#[tactic(auto, unfolding(crate::specs::Condition::context_test))]
fn context_test(tokens: &mut Tokens<'_>, c: ContextVariable) -> Result<Test, ParseError>
    ensures { Reads (spec.context_test c tokens.old.rest.now) result tokens.new.rest.now }
{
    tokens.take();
    tokens.expect(Kind::NotEqual)?;
    tokens.expect(Kind::Null)?;
    Ok(Test::ContextIsSome(c))
}

#[tactic(auto, unfolding(crate::specs::Condition::operation_test))]
fn operation_test(tokens: &mut Tokens<'_>, o: RemovedVariable) -> Result<Test, ParseError>
    ensures { Reads (spec.operation_test o tokens.old.rest.now) result tokens.new.rest.now }
{
    tokens.take();
    tokens.expect(Kind::NotEqual)?;
    tokens.expect(Kind::Null)?;
    Ok(Test::OperationIsSome(o))
}

#[tactic(auto, unfolding(crate::specs::Condition::number_test))]
fn number_test(tokens: &mut Tokens<'_>, n: NumberVariable) -> Result<Test, ParseError>
    ensures { Reads (spec.number_test n tokens.old.rest.now) result tokens.new.rest.now }
{
    tokens.take();
    match tokens.peek() {
        Kind::Equal => {
            tokens.take();
            Ok(Test::Equal(n, atom(tokens)?))
        }
        Kind::Less => {
            tokens.take();
            Ok(Test::Less(n, atom(tokens)?))
        }
        _ => Err(tokens.refuse()),
    }
}

/// A test that begins with a word of its own.
#[tactic(auto, unfolding(crate::specs::Condition::word_test))]
fn word_test(
    alloc: Global,
    scope: &Scope<'_>,
    tokens: &mut Tokens<'_>,
) -> Result<Condition, ParseError>
    ensures { Reads (spec.word_test (scope_of scope.now) tokens.old.rest.now) result tokens.new.rest.now }
{
    match tokens.peek() {
        Kind::Irp => {
            tokens.take();
            tokens.expect(Kind::Data)?;
            Ok(Condition::Test(Test::IsIrp))
        }
        Kind::Draining => {
            tokens.take();
            Ok(Condition::Test(Test::IsDraining))
        }
        _ => Ok(Condition::Succeeds(fallible_call(alloc, scope, tokens)?)),
    }
}

#[tactic(auto, unfolding(crate::specs::Condition::condition))]
pub fn condition(
    alloc: Global,
    scope: &Scope<'_>,
    tokens: &mut Tokens<'_>,
) -> Result<Condition, ParseError>
    ensures { Reads (spec.condition (scope_of scope.now) tokens.old.rest.now) result tokens.new.rest.now }
{
    let kind = tokens.peek();
    if let Some(c) = context_variable_of(kind) {
        return Ok(Condition::Test(context_test(tokens, c)?));
    }
    if let Some(o) = removed_variable_of(kind) {
        return Ok(Condition::Test(operation_test(tokens, o)?));
    }
    if let Some(n) = number_variable_of(kind) {
        return Ok(Condition::Test(number_test(tokens, n)?));
    }
    word_test(alloc, scope, tokens)
}
