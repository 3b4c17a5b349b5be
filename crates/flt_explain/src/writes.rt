//! The variables that an instruction writes.

ghost use Rattle.std.specs.Prelude.{◌≡◌};
ghost use Rattle.flt_explain.specs.Writes as spec;

use crate::about::{is_context, is_operation};
use crate::finding::Subject;
use flt_graph::{Action, Instruction, Invocation, OperationVariable};
use flt_rules::{Change, Effects, row};

fn is_change(change: Change) -> bool
    ensures { result ≡ spec.is_change change }
{
    !matches!(change, Change::Stays)
}

/// The effects of a call on its operands if it succeeds, or if it fails; none if it can't fail.
fn effects(call: &Invocation, granted: bool) -> Option<Effects>
    ensures { result ≡ spec.effects call.now granted }
{
    let row = row(call.call);
    if granted {
        Some(row.on_ok)
    } else {
        row.on_fail
    }
}

fn call_writes(call: &Invocation, granted: bool, subject: Subject) -> bool
    ensures { result ≡ spec.effects_write (spec.effects call.now granted) call.now subject }
{
    let Some(effects) = effects(call, granted) else {
        return false;
    };
    match subject {
        Subject::Context(v) => {
            let own = is_change(effects.context) && is_context(call.context, v);
            own || (is_change(effects.output) && is_context(call.output, v))
        }
        Subject::Operation(v) => is_change(effects.operation) && is_operation(call.operation, v),
        _ => false,
    }
}

fn action_writes(action: Action, subject: Subject) -> bool
    ensures { result ≡ spec.action_writes action subject }
{
    match (action, subject) {
        (Action::ClearContext(c), Subject::Context(v)) => is_context(Some(c), v),
        (Action::ClearOperation(o), Subject::Operation(v)) => {
            is_operation(Some(OperationVariable::Removed(o)), v)
        }
        _ => false,
    }
}

/// Whether an instruction gives a variable a new status, if a call succeeds or if it fails.
pub(crate) fn writes(instruction: &Instruction, granted: bool, subject: Subject) -> bool
    ensures { result ≡ spec.writes instruction.now granted subject }
{
    match instruction {
        Instruction::Act(action, _) => action_writes(*action, subject),
        Instruction::Call(call, _, _) => call_writes(&call.roles(), granted, subject),
        _ => false,
    }
}
