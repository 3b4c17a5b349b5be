//! Facts that may hold in a situation, and the effect of an instruction on them.

ghost use Rattle.std.specs.Prelude.{◌≡◌};
ghost use Rattle.flt_abs.specs.Outcome.{agrees, can_fail};
ghost use Rattle.flt_explain_origins.specs.Facts as spec;

use crate::changes::{context_change, lock_change, operation_change};
use flt_explain::{is_context, is_operation};
use flt_graph::{ContextVariable, Instruction, LockNumber, OperationVariable, Test};
use flt_rules::{Change, LockChange, Mode};

/// The status of a variable: it is NULL, it is held, or it was released or handed over.
#[derive(Clone, Copy)]
pub enum VariableStatus {
    Null,
    Held,
    Stale,
}

/// A fact that may hold in a situation.
#[derive(Clone, Copy)]
pub enum Fact {
    Context(ContextVariable, VariableStatus),
    Operation(OperationVariable, VariableStatus),
    Mode(Mode),
    /// Whether FLTFL_POST_OPERATION_DRAINING is set.
    Draining(bool),
    /// Whether the lock is held.
    Lock(LockNumber, bool),
}

/// Whether a change leaves a variable with a status.
fn is_left(change: Change, gives: bool, status: VariableStatus) -> bool
    ensures { result ≡ spec.is_left change gives status }
{
    match (change, status) {
        (Change::Null, VariableStatus::Null)
        | (Change::Held, VariableStatus::Held)
        | (Change::Stale, VariableStatus::Stale) => true,
        (Change::NullOrHeld, VariableStatus::Held) => gives,
        (Change::NullOrHeld, VariableStatus::Null) => !gives,
        _ => false,
    }
}

/// Whether a change leaves a lock held, or not held.
fn is_lock_left(change: LockChange, held: bool) -> bool
    ensures { result ≡ spec.is_lock_left change held }
{
    match change {
        LockChange::Stays => false,
        LockChange::Taken(_) => held,
        LockChange::Released => !held,
    }
}

/// Whether a fact holds after an instruction, whatever held before: if `granted`, the call succeeds, and if it `gives`, a call that may
/// give a context gives one.
pub fn makes(instruction: &Instruction, granted: bool, gives: bool, fact: Fact) -> bool
    ensures { result ≡ spec.makes instruction.now granted gives fact }
{
    match fact {
        Fact::Context(variable, status) => {
            is_left(
                context_change(instruction, granted, variable),
                gives,
                status,
            )
        }
        Fact::Operation(variable, status) => {
            is_left(
                operation_change(instruction, granted, variable),
                gives,
                status,
            )
        }
        Fact::Lock(lock, held) => is_lock_left(lock_change(instruction, granted, lock), held),
        Fact::Mode(_) | Fact::Draining(_) => false,
    }
}

fn stays(change: Change) -> bool
    ensures { result ≡ spec.stays change }
{
    matches!(change, Change::Stays)
}

fn lock_stays(change: LockChange) -> bool
    ensures { result ≡ spec.lock_stays change }
{
    matches!(change, LockChange::Stays)
}

/// Whether an instruction doesn't touch the subject of a fact.
fn leaves_alone(instruction: &Instruction, granted: bool, fact: Fact) -> bool
    ensures { result ≡ spec.leaves_alone instruction.now granted fact }
{
    match fact {
        Fact::Context(variable, _) => stays(context_change(instruction, granted, variable)),
        Fact::Operation(variable, _) => stays(operation_change(instruction, granted, variable)),
        Fact::Lock(lock, _) => lock_stays(lock_change(instruction, granted, lock)),
        Fact::Mode(_) | Fact::Draining(_) => true,
    }
}

/// Whether a test may have this result, given whether its condition holds.
fn is_found(holds: bool, found: bool) -> bool
    ensures { result ≡ agrees holds found }
{
    if found { holds } else { !holds }
}

/// Whether a test of a variable may have this result, if the variable is the fact's.
fn finds(named: bool, status: VariableStatus, found: bool) -> bool
    ensures { result ≡ spec.finds named status found }
{
    !named || is_found(!matches!(status, VariableStatus::Null), found)
}

/// Whether a test may have this result while a fact holds.
fn may_find_with(test: Test, fact: Fact, found: bool) -> bool
    ensures { result ≡ spec.may_find_with test fact found }
{
    match (test, fact) {
        (Test::ContextIsSome(c), Fact::Context(variable, status)) => {
            finds(is_context(Some(c), variable), status, found)
        }
        (Test::OperationIsSome(o), Fact::Operation(variable, status)) => {
            let named = is_operation(Some(OperationVariable::Removed(o)), variable);
            finds(named, status, found)
        }
        (Test::IsIrp, Fact::Mode(mode)) => is_found(matches!(mode, Mode::Irp), found),
        (Test::IsDraining, Fact::Draining(draining)) => is_found(draining, found),
        _ => true,
    }
}

/// Whether an instruction may have this outcome while a fact holds.
fn lets_pass(instruction: &Instruction, granted: bool, fact: Fact) -> bool
    ensures { result ≡ spec.lets_pass instruction.now granted fact }
{
    match instruction {
        Instruction::Act(_, _) => granted,
        Instruction::Call(call, _, _) => granted || call.can_fail(),
        Instruction::Test(test, _, _) => may_find_with(*test, fact, granted),
        Instruction::Repeat(_, _, _) => true,
        Instruction::Return(_) | Instruction::End => false,
    }
}

/// Whether an instruction may have this outcome while a fact holds, and doesn't touch its subject.
pub fn keeps(instruction: &Instruction, granted: bool, fact: Fact) -> bool
    ensures { result ≡ spec.keeps instruction.now granted fact }
{
    leaves_alone(instruction, granted, fact) && lets_pass(instruction, granted, fact)
}
/// A fact that an instruction makes holds after it, a fact that it keeps is as it was, and each fact that holds after it was made or kept.
/// It does nothing at run time: its clauses are a law.
#[tactic(auto, using(crate::proofs::Steps::made, crate::proofs::Steps::kept, crate::proofs::Steps::made_or_kept))]
pub fn steps_follow_situations()
    ensures made { spec.Made }
    ensures kept { spec.Kept }
    ensures all { spec.MadeOrKept }
{}
