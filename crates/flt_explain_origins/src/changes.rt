//! The changes of a variable or a lock by an instruction.

ghost use Rattle.std.specs.Prelude.{◌≡◌};
ghost use Rattle.flt_explain_origins.specs.Facts as spec;

use flt_explain::{is_context, is_lock, is_operation};
use flt_graph::{Action, ContextVariable, Instruction, Invocation, LockNumber, OperationVariable};
use flt_rules::{Change, Effects, LockChange, row};

/// The change of a variable, if it is the one that is named.
fn change_of(named: bool, change: Change) -> Change
    ensures { result ≡ spec.change_of named change }
{
    if named { change } else { Change::Stays }
}

/// The later of two changes.
fn latest(last: Change, first: Change) -> Change
    ensures { result ≡ spec.latest last first }
{
    match last {
        Change::Stays => first,
        Change::Null | Change::Held | Change::Stale | Change::NullOrHeld => last,
    }
}

/// The change by a call that had these effects. A variable that receives a context is written last.
fn called_context(call: &Invocation, effects: &Effects, variable: ContextVariable) -> Change
    ensures { result ≡ spec.called_context call.now effects.now variable }
{
    let own = change_of(is_context(call.context, variable), effects.context);
    latest(
        change_of(is_context(call.output, variable), effects.output),
        own,
    )
}

fn called_operation(call: &Invocation, effects: &Effects, variable: OperationVariable) -> Change
    ensures { result ≡ spec.called_operation call.now effects.now variable }
{
    change_of(is_operation(call.operation, variable), effects.operation)
}

fn called_lock(call: &Invocation, effects: &Effects, lock: LockNumber) -> LockChange
    ensures { result ≡ spec.called_lock call.now effects.now lock }
{
    if is_lock(call.lock, lock) {
        effects.lock
    } else {
        LockChange::Stays
    }
}

/// The change of a variable of contexts by a statement that neither calls nor branches.
fn acted_context(action: Action, variable: ContextVariable) -> Change
    ensures { result ≡ spec.acted_context action variable }
{
    match action {
        Action::ClearContext(c) => change_of(is_context(Some(c), variable), Change::Null),
        _ => Change::Stays,
    }
}

fn acted_operation(action: Action, variable: OperationVariable) -> Change
    ensures { result ≡ spec.acted_operation action variable }
{
    match action {
        Action::ClearOperation(o) => {
            let named = is_operation(Some(OperationVariable::Removed(o)), variable);
            change_of(named, Change::Null)
        }
        _ => Change::Stays,
    }
}

/// The change of a variable of contexts by an instruction with this outcome.
pub(crate) fn context_change(
    instruction: &Instruction,
    granted: bool,
    variable: ContextVariable,
) -> Change
    ensures { result ≡ spec.context_change instruction.now granted variable }
{
    match (instruction, granted) {
        (Instruction::Act(action, _), _) => acted_context(*action, variable),
        (Instruction::Call(call, _, _), true) => {
            let call = call.roles();
            called_context(&call, &row(call.call).on_ok, variable)
        }
        (Instruction::Call(call, _, _), false) => {
            let call = call.roles();
            match row(call.call).on_fail {
                Some(effects) => called_context(&call, &effects, variable),
                None => Change::Stays,
            }
        }
        _ => Change::Stays,
    }
}

/// The change of a variable of operations by it.
pub(crate) fn operation_change(
    instruction: &Instruction,
    granted: bool,
    variable: OperationVariable,
) -> Change
    ensures { result ≡ spec.operation_change instruction.now granted variable }
{
    match (instruction, granted) {
        (Instruction::Act(action, _), _) => acted_operation(*action, variable),
        (Instruction::Call(call, _, _), true) => {
            let call = call.roles();
            called_operation(&call, &row(call.call).on_ok, variable)
        }
        (Instruction::Call(call, _, _), false) => {
            let call = call.roles();
            match row(call.call).on_fail {
                Some(effects) => called_operation(&call, &effects, variable),
                None => Change::Stays,
            }
        }
        _ => Change::Stays,
    }
}

/// The change of a lock by it.
pub(crate) fn lock_change(instruction: &Instruction, granted: bool, lock: LockNumber) -> LockChange
    ensures { result ≡ spec.lock_change instruction.now granted lock }
{
    match (instruction, granted) {
        (Instruction::Call(call, _, _), true) => {
            let call = call.roles();
            called_lock(&call, &row(call.call).on_ok, lock)
        }
        (Instruction::Call(call, _, _), false) => {
            let call = call.roles();
            match row(call.call).on_fail {
                Some(effects) => called_lock(&call, &effects, lock),
                None => LockChange::Stays,
            }
        }
        _ => LockChange::Stays,
    }
}
