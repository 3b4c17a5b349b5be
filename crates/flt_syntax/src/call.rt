//! Reads calls, each by the shape that its word says: slot after slot, and what ends it.

ghost use Rattle.flt_syntax.specs.Call as spec;
ghost use Rattle.flt_syntax.specs.Cursor.{Reads, ReadsOnto};
ghost use Rattle.flt_syntax.specs.Scope.{scope_of};
ghost use Rattle.std.specs.Prelude.{◌≡◌};

use crate::cursor::Tokens;
use crate::fault::{FaultKind, ParseError};
use crate::naming::{lock_named, routine};
use crate::operand::{
    context_variable, operation_variable, other_context, removed_variable, with_context,
};
use crate::scope::Scope;
use crate::shape::{Operands, Slot, Tail, fallible_shape_of, plain_shape_of};
use crate::status::status;
use crate::token::Kind;
use flt_rules::Existing;
use flt_tree::{ContextVariable, FallibleCall, PlainCall, Routine};
use std::alloc::Global;

fn existing_of(kind: Kind) -> Option<Existing>
    ensures { result ≡ spec.existing_of kind }
{
    match kind {
        Kind::KeepIfExists => Some(Existing::Keep),
        Kind::ReplaceIfExists => Some(Existing::Replace),
        _ => None,
    }
}

#[tactic(auto, unfolding(crate::specs::Call::existing))]
fn existing(tokens: &mut Tokens<'_>) -> Result<Existing, ParseError>
    ensures { Reads (spec.existing tokens.old.rest.now) result tokens.new.rest.now }
{
    match existing_of(tokens.peek()) {
        None => Err(tokens.refuse()),
        Some(existing) => {
            tokens.take();
            Ok(existing)
        }
    }
}

#[tactic(auto, unfolding(crate::specs::Call::old))]
fn old(tokens: &mut Tokens<'_>) -> Result<Option<ContextVariable>, ParseError>
    ensures { Reads (spec.old tokens.old.rest.now) result tokens.new.rest.now }
{
    if tokens.eat(Kind::Old) {
        Ok(Some(context_variable(tokens)?))
    } else {
        Ok(None)
    }
}

/// The same in a call that has a context already.
#[tactic(auto, unfolding(crate::specs::Call::other_old))]
fn other_old(
    tokens: &mut Tokens<'_>,
    first: ContextVariable,
) -> Result<Option<ContextVariable>, ParseError>
    ensures { Reads (spec.other_old first tokens.old.rest.now) result tokens.new.rest.now }
{
    if tokens.eat(Kind::Old) {
        Ok(Some(other_context(tokens, first)?))
    } else {
        Ok(None)
    }
}

/// A slot, which is put into the operands.
fn slot(
    alloc: Global,
    scope: &Scope<'_>,
    tokens: &mut Tokens<'_>,
    part: Slot,
    found: &mut Operands,
) -> Result<(), ParseError>
    ensures { ReadsOnto (spec.slot (scope_of scope.now) part found.old tokens.old.rest.now) result found.new tokens.new.rest.now }
{
    match part {
        Slot::Data => tokens.expect(Kind::Data)?,
        Slot::As => tokens.expect(Kind::As)?,
        Slot::With => tokens.expect(Kind::Context)?,
        Slot::Operation => found.operation = operation_variable(tokens)?,
        Slot::Removed => found.removed = removed_variable(tokens)?,
        Slot::Existing => found.existing = existing(tokens)?,
        Slot::Context => found.context = context_variable(tokens)?,
        Slot::Other => found.other = other_context(tokens, found.context)?,
        Slot::Routine => found.routine = routine(alloc, scope, tokens)?,
        Slot::Lock(kind) => found.lock = lock_named(scope, tokens, kind)?,
    }
    Ok(())
}

fn slots(
    alloc: Global,
    scope: &Scope<'_>,
    tokens: &mut Tokens<'_>,
    left: &[Slot],
    found: &mut Operands,
) -> Result<(), ParseError>
    ensures { ReadsOnto (spec.slots (scope_of scope.now) left.now found.old tokens.old.rest.now) result found.new tokens.new.rest.now }
{
    match left {
        [] => Ok(()),
        [first, others @ ..] => {
            slot(alloc, scope, tokens, *first, found)?;
            slots(alloc, scope, tokens, others, found)
        }
    }
}

/// Reads the end of a call and puts it into the operands.
fn tail(tokens: &mut Tokens<'_>, end: Tail, found: &mut Operands) -> Result<(), ParseError>
    ensures { ReadsOnto (spec.tail end found.old tokens.old.rest.now) result found.new tokens.new.rest.now }
{
    match end {
        Tail::Nothing => {}
        Tail::With => found.optional = with_context(tokens)?,
        Tail::Old => found.optional = old(tokens)?,
        Tail::OtherOld => found.optional = other_old(tokens, found.context)?,
        Tail::Status => found.status = status(tokens)?,
    }
    Ok(())
}

/// The word of a call, and its operands.
#[tactic(auto, unfolding(crate::specs::Call::operands))]
fn operands(
    alloc: Global,
    scope: &Scope<'_>,
    tokens: &mut Tokens<'_>,
    left: &[Slot],
    end: Tail,
) -> Result<Operands, ParseError>
    ensures { Reads (spec.operands (scope_of scope.now) left.now end tokens.old.rest.now) result tokens.new.rest.now }
{
    tokens.take();
    let mut found = Operands::unfilled(alloc);
    slots(alloc, scope, tokens, left, &mut found)?;
    tail(tokens, end, &mut found)?;
    Ok(found)
}

#[tactic(auto, unfolding(crate::specs::Call::fallible_call))]
pub fn fallible_call(
    alloc: Global,
    scope: &Scope<'_>,
    tokens: &mut Tokens<'_>,
) -> Result<FallibleCall<Routine>, ParseError>
    ensures { Reads (spec.fallible_call (scope_of scope.now) tokens.old.rest.now) result tokens.new.rest.now }
{
    match fallible_shape_of(tokens.peek()) {
        None => Err(tokens.refuse()),
        Some(shape) if shape.needs_queue() && !scope.has_queue => {
            Err(tokens.fault(FaultKind::E04))
        }
        Some(shape) => {
            let found = operands(alloc, scope, tokens, shape.slots(), shape.tail())?;
            Ok(shape.call(found))
        }
    }
}

#[tactic(auto, unfolding(crate::specs::Call::plain_call))]
pub fn plain_call(
    alloc: Global,
    scope: &Scope<'_>,
    tokens: &mut Tokens<'_>,
) -> Result<PlainCall, ParseError>
    ensures { Reads (spec.plain_call (scope_of scope.now) tokens.old.rest.now) result tokens.new.rest.now }
{
    match plain_shape_of(tokens.peek()) {
        None => Err(tokens.refuse()),
        Some(shape) => {
            let found = operands(alloc, scope, tokens, shape.slots(), shape.tail())?;
            Ok(shape.call(&found))
        }
    }
}
