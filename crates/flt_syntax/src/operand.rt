//! Reads variables and numbers.

ghost use Rattle.flt_syntax.specs.Cursor.{Reads};
ghost use Rattle.flt_syntax.specs.Operand as spec;
ghost use Rattle.std.specs.Prelude.{◌≡◌};

use crate::cursor::Tokens;
use crate::fault::{FaultKind, ParseError};
use crate::token::Kind;
use flt_tree::{Atom, ContextVariable, NumberVariable, OperationVariable, RemovedVariable};

#[inline(always)]
pub fn number_variable_of(kind: Kind) -> Option<NumberVariable>
    ensures { result ≡ spec.number_variable_of kind }
{
    match kind {
        Kind::N0 => Some(NumberVariable::N0),
        Kind::N1 => Some(NumberVariable::N1),
        Kind::N2 => Some(NumberVariable::N2),
        Kind::N3 => Some(NumberVariable::N3),
        Kind::N4 => Some(NumberVariable::N4),
        Kind::N5 => Some(NumberVariable::N5),
        Kind::N6 => Some(NumberVariable::N6),
        Kind::N7 => Some(NumberVariable::N7),
        _ => None,
    }
}

#[inline(always)]
pub fn context_variable_of(kind: Kind) -> Option<ContextVariable>
    ensures { result ≡ spec.context_variable_of kind }
{
    match kind {
        Kind::C0 => Some(ContextVariable::C0),
        Kind::C1 => Some(ContextVariable::C1),
        Kind::C2 => Some(ContextVariable::C2),
        Kind::C3 => Some(ContextVariable::C3),
        Kind::C4 => Some(ContextVariable::C4),
        Kind::C5 => Some(ContextVariable::C5),
        Kind::C6 => Some(ContextVariable::C6),
        Kind::C7 => Some(ContextVariable::C7),
        Kind::Arg => Some(ContextVariable::Arg),
        _ => None,
    }
}

#[inline(always)]
pub fn removed_variable_of(kind: Kind) -> Option<RemovedVariable>
    ensures { result ≡ spec.removed_variable_of kind }
{
    match kind {
        Kind::O0 => Some(RemovedVariable::O0),
        Kind::O1 => Some(RemovedVariable::O1),
        Kind::O2 => Some(RemovedVariable::O2),
        Kind::O3 => Some(RemovedVariable::O3),
        _ => None,
    }
}

pub fn operation_variable_of(kind: Kind) -> Option<OperationVariable>
    ensures { result ≡ spec.operation_variable_of kind }
{
    match kind {
        Kind::O0 => Some(OperationVariable::Removed(RemovedVariable::O0)),
        Kind::O1 => Some(OperationVariable::Removed(RemovedVariable::O1)),
        Kind::O2 => Some(OperationVariable::Removed(RemovedVariable::O2)),
        Kind::O3 => Some(OperationVariable::Removed(RemovedVariable::O3)),
        Kind::Data => Some(OperationVariable::Data),
        _ => None,
    }
}

#[inline(always)]
#[tactic(auto, unfolding(crate::specs::Operand::context_variable))]
pub fn context_variable(tokens: &mut Tokens<'_>) -> Result<ContextVariable, ParseError>
    ensures { Reads (spec.context_variable tokens.old.rest.now) result tokens.new.rest.now }
{
    match context_variable_of(tokens.peek()) {
        None => Err(tokens.unknown()),
        Some(variable) => {
            tokens.take();
            Ok(variable)
        }
    }
}

#[tactic(auto, unfolding(crate::specs::Operand::removed_variable))]
pub fn removed_variable(tokens: &mut Tokens<'_>) -> Result<RemovedVariable, ParseError>
    ensures { Reads (spec.removed_variable tokens.old.rest.now) result tokens.new.rest.now }
{
    match removed_variable_of(tokens.peek()) {
        None => Err(tokens.unknown()),
        Some(variable) => {
            tokens.take();
            Ok(variable)
        }
    }
}

#[tactic(auto, unfolding(crate::specs::Operand::operation_variable))]
pub fn operation_variable(tokens: &mut Tokens<'_>) -> Result<OperationVariable, ParseError>
    ensures { Reads (spec.operation_variable tokens.old.rest.now) result tokens.new.rest.now }
{
    match operation_variable_of(tokens.peek()) {
        None => Err(tokens.unknown()),
        Some(variable) => {
            tokens.take();
            Ok(variable)
        }
    }
}

/// A number or a variable of numbers.
#[tactic(auto, unfolding(crate::specs::Operand::atom))]
pub fn atom(tokens: &mut Tokens<'_>) -> Result<Atom, ParseError>
    ensures { Reads (spec.atom tokens.old.rest.now) result tokens.new.rest.now }
{
    match number_variable_of(tokens.peek()) {
        Some(variable) => {
            tokens.take();
            Ok(Atom::Variable(variable))
        }
        None if tokens.sees(Kind::Number) => Ok(Atom::Number(tokens.take().word.value)),
        None => Err(tokens.unknown()),
    }
}

/// The same where other words are legal, too.
#[tactic(auto, unfolding(crate::specs::Operand::leading_atom))]
pub fn leading_atom(tokens: &mut Tokens<'_>) -> Result<Atom, ParseError>
    ensures { Reads (spec.leading_atom tokens.old.rest.now) result tokens.new.rest.now }
{
    match number_variable_of(tokens.peek()) {
        Some(variable) => {
            tokens.take();
            Ok(Atom::Variable(variable))
        }
        None if tokens.sees(Kind::Number) => Ok(Atom::Number(tokens.take().word.value)),
        None => Err(tokens.refuse()),
    }
}

#[tactic(auto, unfolding(crate::specs::Operand::same_context))]
fn same_context(a: ContextVariable, b: ContextVariable) -> bool
    ensures { result ≡ spec.same_context a b }
{
    a == b
}

/// A variable of contexts, in a call that has `first` already.
#[tactic(auto, unfolding(crate::specs::Operand::other_context))]
pub fn other_context(
    tokens: &mut Tokens<'_>,
    first: ContextVariable,
) -> Result<ContextVariable, ParseError>
    ensures { Reads (spec.other_context first tokens.old.rest.now) result tokens.new.rest.now }
{
    let twice = tokens.fault(FaultKind::E08);
    let second = context_variable(tokens)?;
    if same_context(second, first) {
        return Err(twice);
    }
    Ok(second)
}

/// The context that goes with an operation or a status.
#[tactic(auto, unfolding(crate::specs::Operand::with_context))]
pub fn with_context(tokens: &mut Tokens<'_>) -> Result<Option<ContextVariable>, ParseError>
    ensures { Reads (spec.with_context tokens.old.rest.now) result tokens.new.rest.now }
{
    if tokens.eat(Kind::Context) {
        Ok(Some(context_variable(tokens)?))
    } else {
        Ok(None)
    }
}
