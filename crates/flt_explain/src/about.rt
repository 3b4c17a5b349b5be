//! Which operand of a point is at fault when it breaks a rule.

ghost use Rattle.std.specs.Prelude.{◌≡◌};
ghost use Rattle.flt_abs.specs.Variables.{context_in, operation_in};
ghost use Rattle.flt_abs.specs.Breaks as breaks;
ghost use Rattle.flt_explain.specs.About as spec;

use crate::finding::Subject;
use flt_abs::{Abs, Modes, Statuses};
use flt_graph::{
    Action, ContextVariable, Instruction, Invocation, LockNumber, OperationVariable, Place, Status,
    Test,
};
use flt_rules::{
    Mode, Need, Possession, Row, Rule, StatusRow, is_legal_in_draining, row, status_row,
};
use flt_tree::named_context;

/// Whether a variable of contexts is the one that is named.
pub fn is_context(named: Option<ContextVariable>, variable: ContextVariable) -> bool
    ensures { result ≡ spec.is_context named variable }
{
    match named {
        Some(context) => context.place() == variable.place(),
        None => false,
    }
}

/// Whether a variable of operations is the one that is named.
pub fn is_operation(named: Option<OperationVariable>, variable: OperationVariable) -> bool
    ensures { result ≡ spec.is_operation named variable }
{
    match named {
        Some(operation) => operation.place() == variable.place(),
        None => false,
    }
}

/// Whether a lock is the one that is named.
pub fn is_lock(named: Option<LockNumber>, lock: LockNumber) -> bool
    ensures { result ≡ spec.is_lock named lock }
{
    match named {
        Some(named) => named.is_same(lock),
        None => false,
    }
}

/// Whether a subject is an operand of an action.
pub fn is_action_about(action: Action, subject: Subject) -> bool
    ensures { result ≡ spec.is_action_about action subject }
{
    match (action, subject) {
        (Action::ReadValue(_, c), Subject::Context(v)) => is_context(Some(c), v),
        (Action::WriteValue(c, _), Subject::Context(v)) => is_context(Some(c), v),
        (Action::ClearContext(c), Subject::Context(v)) => is_context(Some(c), v),
        (Action::ClearOperation(o), Subject::Operation(v)) => {
            is_operation(Some(OperationVariable::Removed(o)), v)
        }
        (Action::ReadFile(_, d), Subject::Operation(v)) => is_operation(Some(d), v),
        _ => false,
    }
}

fn is_test_about(test: Test, subject: Subject) -> bool
    ensures { result ≡ spec.is_test_about test subject }
{
    match (test, subject) {
        (Test::IsIrp, Subject::Operation(v)) => is_operation(Some(OperationVariable::Data), v),
        (Test::IsDraining, Subject::Draining) => true,
        _ => false,
    }
}

fn may_hold_context(state: &Abs, variable: ContextVariable) -> bool
    ensures { result ≡ (context_in state.now variable).held }
{
    state.context(variable).has_held()
}

fn may_hold_operation(state: &Abs, variable: OperationVariable) -> bool
    ensures { result ≡ (operation_in state.now variable).held }
{
    state.operation(variable).has_held()
}

fn may_be_fast(state: &Abs) -> bool
    ensures { result ≡ state.now.modes.fast }
{
    state.modes().has_fast()
}

fn may_be_draining(state: &Abs) -> bool
    ensures { result ≡ state.now.draining.yes }
{
    state.draining().has_yes()
}

/// Whether a variable receives what a call gives, and may be held.
fn is_overwritten_context(row: &Row, state: &Abs, call: &Invocation, v: ContextVariable) -> bool
    ensures { result ≡ spec.is_overwritten_context row.now state.now call.now v }
{
    matches!(row.needs.output, Need::Output)
        && is_context(call.output, v)
        && may_hold_context(state, v)
}

fn is_overwritten_operation(row: &Row, state: &Abs, call: &Invocation, v: OperationVariable) -> bool
    ensures { result ≡ spec.is_overwritten_operation row.now state.now call.now v }
{
    matches!(row.needs.operation, Need::Output)
        && is_operation(call.operation, v)
        && may_hold_operation(state, v)
}

fn is_row_about(
    row: &Row,
    place: Place,
    state: &Abs,
    call: &Invocation,
    rule: Rule,
    subject: Subject,
) -> bool
    ensures { result ≡ spec.is_row_about row.now place state.now call.now rule subject }
{
    match (rule, subject) {
        (Rule::R01 | Rule::R13, Subject::Context(v)) => is_context(call.context, v),
        (Rule::R03, Subject::Context(v)) => is_overwritten_context(row, state, call, v),
        (Rule::R03, Subject::Operation(v)) => is_overwritten_operation(row, state, call, v),
        (Rule::R04, Subject::Operation(v)) => is_operation(call.operation, v),
        (Rule::R06, Subject::Mode) => row.needs.irp && may_be_fast(state),
        (Rule::R08, Subject::Draining) => {
            may_be_draining(state) && !is_legal_in_draining(call.call)
        }
        (Rule::R08, Subject::Call) => !row.places.contains(place),
        (Rule::R09 | Rule::R11, Subject::Lock(l)) => is_lock(call.lock, l),
        _ => false,
    }
}

/// Whether a context may be held that doesn't go with the returned status.
fn is_kept_context(state: &Abs, named: Option<ContextVariable>, variable: ContextVariable) -> bool
    ensures { result ≡ spec.is_kept_context state.now named variable }
{
    !is_context(named, variable) && may_hold_context(state, variable)
}

fn owes_data(place: Place) -> bool
    ensures { result ≡ breaks.owes_data place }
{
    matches!(
        place,
        Place::Canceled | Place::DeferredPre | Place::DeferredPost
    )
}

/// Whether an operation may be held that nobody would complete.
fn is_kept_operation(place: Place, state: &Abs, variable: OperationVariable) -> bool
    ensures { result ≡ spec.is_kept_operation place state.now variable }
{
    match variable {
        OperationVariable::Removed(_) => may_hold_operation(state, variable),
        OperationVariable::Data => owes_data(place) && may_hold_operation(state, variable),
    }
}

/// Whether the operation is surely held or given away, as a status needs it.
fn is_possessed(operation: Statuses, possession: Possession) -> bool
    ensures { result ≡ breaks.is_possessed operation possession }
{
    match possession {
        Possession::Held => operation.is_held(),
        Possession::GivenAway => operation.is_stale(),
    }
}

/// Whether the operation is surely of a mode, if one is needed.
fn is_of_mode(modes: Modes, mode: Option<Mode>) -> bool
    ensures { result ≡ breaks.is_of_mode modes mode }
{
    match mode {
        Some(Mode::Irp) => modes.has_irp() && !modes.has_fast(),
        Some(Mode::Fast) => modes.has_fast() && !modes.has_irp(),
        None => true,
    }
}

/// Whether the row of a status needs another state of a subject.
fn is_status_about(row: &StatusRow, state: &Abs, subject: Subject) -> bool
    ensures { result ≡ spec.is_status_about row.now state.now subject }
{
    match subject {
        Subject::Operation(OperationVariable::Data) => {
            !is_possessed(state.operation(OperationVariable::Data), row.data)
        }
        Subject::Mode => !is_of_mode(state.modes(), row.mode),
        Subject::Draining => !row.in_draining && may_be_draining(state),
        _ => false,
    }
}

fn is_returned_about(state: &Abs, status: Option<Status>, subject: Subject) -> bool
    ensures { result ≡ spec.is_returned_about state.now status subject }
{
    match status {
        Some(status) => is_status_about(&status_row(status.word()), state, subject),
        None => false,
    }
}

fn is_return_about(
    place: Place,
    state: &Abs,
    status: Option<Status>,
    rule: Rule,
    subject: Subject,
) -> bool
    ensures { result ≡ spec.is_return_about place state.now status rule subject }
{
    match (rule, subject) {
        (Rule::R02, Subject::Context(v)) => is_kept_context(state, named_context(status), v),
        (Rule::R05, Subject::Operation(v)) => is_kept_operation(place, state, v),
        (Rule::R06, _) => is_returned_about(state, status, subject),
        (Rule::R10, Subject::Lock(l)) => state.locks().contains(l),
        (Rule::R13, Subject::Context(v)) => is_context(named_context(status), v),
        _ => false,
    }
}

/// Whether this operand is at fault for a rule that an instruction of a callback of the place breaks in a state. The call and the status
/// themselves, which aren't operands, are at fault if no operand is.
pub fn is_about(
    place: Place,
    state: &Abs,
    instruction: &Instruction,
    rule: Rule,
    subject: Subject,
) -> bool
    ensures { result ≡ spec.is_about place state.now instruction.now rule subject }
{
    match instruction {
        Instruction::Act(action, _) => is_action_about(*action, subject),
        Instruction::Call(call, _, _) => {
            let call = call.roles();
            is_row_about(&row(call.call), place, state, &call, rule, subject)
        }
        Instruction::Test(test, _, _) => is_test_about(*test, subject),
        Instruction::Repeat(_, _, _) => false,
        Instruction::Return(status) => is_return_about(place, state, *status, rule, subject),
        Instruction::End => is_return_about(place, state, None, rule, subject),
    }
}
