//! Which rules an instruction breaks in a state. Several can be broken at once; the least is reported.

ghost use Rattle.std.specs.Prelude.{◌≡◌, find};
ghost use Rattle.flt_abs.specs.Breaks as spec;
ghost use Rattle.flt_abs.specs.Setting.{setting_of};

use crate::sets::{Modes, Statuses};
use crate::setting::{Setting, setting_of, standing_of};
use crate::state::Abs;
use flt_graph::{
    Action, ContextVariable, Graph, Instruction, Invocation, LockNumber, OperationVariable, Place,
    Status, Test,
};
use flt_rules::{
    LockNeed, Mode, Need, Possession, Row, Rule, StatusRow, is_legal_in_draining, row, status_row,
};
use flt_tree::named_context;

/// Whether a context is named that isn't surely held.
fn lacks_context(state: &Abs, variable: Option<ContextVariable>) -> bool
    ensures { result ≡ spec.lacks_context state.now variable }
{
    match variable {
        Some(variable) => !state.context(variable).is_held(),
        None => false,
    }
}

/// Whether an operation is named that isn't surely held.
fn lacks_operation(state: &Abs, variable: Option<OperationVariable>) -> bool
    ensures { result ≡ spec.lacks_operation state.now variable }
{
    match variable {
        Some(variable) => !state.operation(variable).is_held(),
        None => false,
    }
}

/// Whether a variable of contexts is named that may be held.
fn may_hold_context(state: &Abs, variable: Option<ContextVariable>) -> bool
    ensures { result ≡ spec.may_hold_context state.now variable }
{
    match variable {
        Some(variable) => state.context(variable).has_held(),
        None => false,
    }
}

/// Whether a variable of operations is named that may be held.
fn may_hold_operation(state: &Abs, variable: Option<OperationVariable>) -> bool
    ensures { result ≡ spec.may_hold_operation state.now variable }
{
    match variable {
        Some(variable) => state.operation(variable).has_held(),
        None => false,
    }
}

/// Whether the operation is surely of a mode.
fn is_mode_alone(modes: Modes, mode: Mode) -> bool
    ensures { result ≡ spec.is_mode_alone modes mode }
{
    match mode {
        Mode::Irp => modes.has_irp() && !modes.has_fast(),
        Mode::Fast => modes.has_fast() && !modes.has_irp(),
    }
}

/// Whether a statement that neither calls nor branches breaks a rule.
pub(crate) fn action_breaks(state: &Abs, action: Action, rule: Rule) -> bool
    ensures { result ≡ spec.action_breaks state.now action rule }
{
    match (action, rule) {
        (Action::ReadValue(_, c) | Action::WriteValue(c, _), Rule::R01) => {
            lacks_context(state, Some(c))
        }
        (Action::ClearContext(c), Rule::R03) => may_hold_context(state, Some(c)),
        (Action::ClearOperation(o), Rule::R03) => {
            may_hold_operation(state, Some(OperationVariable::Removed(o)))
        }
        (Action::ReadFile(_, d), Rule::R04) => lacks_operation(state, Some(d)),
        _ => false,
    }
}

/// Whether a test breaks a rule.
pub(crate) fn test_breaks(setting: &Setting, state: &Abs, test: Test, rule: Rule) -> bool
    ensures { result ≡ spec.test_breaks setting.now state.now test rule }
{
    match (test, rule) {
        (Test::IsIrp, Rule::R04) => lacks_operation(state, Some(OperationVariable::Data)),
        (Test::IsDraining, Rule::R08) => !matches!(setting.place, Place::Post(_)),
        _ => false,
    }
}

/// Whether a status may be handed to a pended operation.
fn is_handed_legally(setting: &Setting, call: &Invocation, status: Status) -> bool
    ensures { result ≡ spec.is_handed_legally setting.now call.now status }
{
    let word = status.word();
    let given_in_canceled = matches!(
        (setting.place, call.operation),
        (Place::Canceled, Some(OperationVariable::Data))
    );
    let only_complete = !given_in_canceled || word.is_complete();
    let paired = setting.all_registered || !word.is_with_callback();
    status_row(word).handed && !status.completes_pending() && only_complete && paired
}

fn hands_illegally(setting: &Setting, call: &Invocation) -> bool
    ensures { result ≡ spec.hands_illegally setting.now call.now }
{
    match call.status {
        Some(status) => !is_handed_legally(setting, call, status),
        None => false,
    }
}

fn releases_wrong_lock(state: &Abs, lock: Option<LockNumber>) -> bool
    ensures { result ≡ spec.releases_wrong_lock state.now lock }
{
    match lock {
        Some(lock) => !state.locks.is_latest(lock),
        None => false,
    }
}

fn takes_held_lock(state: &Abs, lock: Option<LockNumber>) -> bool
    ensures { result ≡ spec.takes_held_lock state.now lock }
{
    match lock {
        Some(lock) => state.locks.contains(lock),
        None => false,
    }
}

/// Whether a call breaks a rule: its row of the call table, read on the state.
fn row_breaks(row: &Row, setting: &Setting, state: &Abs, call: &Invocation, rule: Rule) -> bool
    ensures { result ≡ spec.row_breaks row.now setting.now state.now call.now rule }
{
    let needs = row.needs;
    match rule {
        Rule::R01 => matches!(needs.context, Need::Held) && lacks_context(state, call.context),
        Rule::R03 => {
            (matches!(needs.output, Need::Output) && may_hold_context(state, call.output))
                || (matches!(needs.operation, Need::Output)
                    && may_hold_operation(state, call.operation))
        }
        Rule::R04 => {
            matches!(needs.operation, Need::Held) && lacks_operation(state, call.operation)
        }
        Rule::R06 => {
            (needs.irp && !is_mode_alone(state.modes, Mode::Irp))
                || (needs.status && hands_illegally(setting, call))
        }
        Rule::R07 => setting.level.is_above(row.greatest),
        Rule::R08 => {
            !row.places.contains(setting.place)
                || (state.draining.has_yes() && !is_legal_in_draining(call.call))
        }
        Rule::R09 => matches!(needs.lock, LockNeed::Latest)
            && releases_wrong_lock(state, call.lock),
        Rule::R11 => matches!(needs.lock, LockNeed::NotHeld) && takes_held_lock(state, call.lock),
        Rule::R13 => {
            matches!(needs.context, Need::HandedOver) && lacks_context(state, call.context)
        }
        _ => false,
    }
}

pub(crate) fn call_breaks(setting: &Setting, state: &Abs, call: &Invocation, rule: Rule) -> bool
    ensures { result ≡ spec.call_breaks setting.now state.now call.now rule }
{
    row_breaks(&row(call.call), setting, state, call, rule)
}

/// Whether the operation is surely what a status asks of it.
fn is_possessed(operation: Statuses, possession: Possession) -> bool
    ensures { result ≡ spec.is_possessed operation possession }
{
    match possession {
        Possession::Held => operation.is_held(),
        Possession::GivenAway => operation.is_stale(),
    }
}

fn has_mode(modes: Modes, mode: Option<Mode>) -> bool
    ensures { result ≡ spec.is_of_mode modes mode }
{
    match mode {
        Some(mode) => is_mode_alone(modes, mode),
        None => true,
    }
}

/// Whether a callback may return the status of a row at all.
fn fits_setting(row: StatusRow, setting: &Setting) -> bool
    ensures { result ≡ spec.fits_setting row setting.now }
{
    setting.place.fits(row.stage)
        && (setting.registered || !row.needs_post)
        && (row.in_create || !setting.place.is_pre_create())
}

/// Whether the operation is surely as the row of a status asks.
fn fits_state(row: StatusRow, state: &Abs) -> bool
    ensures { result ≡ spec.fits_state row state.now }
{
    is_possessed(state.operation(OperationVariable::Data), row.data)
        && has_mode(state.modes, row.mode)
        && (row.in_draining || !state.draining.has_yes())
}

/// Whether a status may be returned.
fn is_returned_legally(setting: &Setting, state: &Abs, status: Status) -> bool
    ensures { result ≡ spec.is_returned_legally setting.now state.now status }
{
    let row = status_row(status.word());
    fits_setting(row, setting) && fits_state(row, state) && !status.completes_pending()
}

/// Whether the return of a status, or of none, breaks the rule on statuses.
fn returns_illegally(setting: &Setting, state: &Abs, status: Option<Status>) -> bool
    ensures { result ≡ spec.returns_illegally setting.now state.now status }
{
    match status {
        Some(status) => !is_returned_legally(setting, state, status),
        None => false,
    }
}

/// Whether a context may be held that doesn't go with the returned status.
fn keeps_context(state: &Abs, named: Option<ContextVariable>) -> bool
    ensures { result ≡ spec.keeps_context state.now named }
{
    let mut contexts = state.contexts;
    if let Some(variable) = named {
        contexts[variable.place()] = Statuses::null();
    }
    is_any_held(&contexts)
}

/// Whether a callback of the place must complete the operation that it was given.
fn owes_data(place: Place) -> bool
    ensures { result ≡ spec.owes_data place }
{
    matches!(
        place,
        Place::Canceled | Place::DeferredPre | Place::DeferredPost
    )
}

fn is_any_held(sets: &[Statuses]) -> bool
    ensures { result ≡ spec.is_any_held sets.now }
{
    sets.iter().any(|s| s.has_held())
}

/// Whether an operation may be held that nobody would complete.
fn keeps_operation(setting: &Setting, state: &Abs) -> bool
    ensures { result ≡ spec.keeps_operation setting.now state.now }
{
    let removed = is_any_held(&state.operations[..4]);
    let given = may_hold_operation(state, Some(OperationVariable::Data));
    removed || (owes_data(setting.place) && given)
}

/// Whether a return, or the end of the body, breaks a rule.
pub(crate) fn return_breaks(
    setting: &Setting,
    state: &Abs,
    status: Option<Status>,
    rule: Rule,
) -> bool
    ensures { result ≡ spec.return_breaks setting.now state.now status rule }
{
    match rule {
        Rule::R02 => keeps_context(state, named_context(status)),
        Rule::R05 => keeps_operation(setting, state),
        Rule::R06 => returns_illegally(setting, state, status),
        Rule::R10 => !state.locks.is_empty(),
        Rule::R13 => lacks_context(state, named_context(status)),
        Rule::R15 => status.is_none() && setting.place.answers(),
        _ => false,
    }
}

/// Whether an instruction breaks a rule.
pub(crate) fn breaks(setting: &Setting, state: &Abs, instruction: &Instruction, rule: Rule) -> bool
    ensures { result ≡ spec.breaks setting.now state.now instruction.now rule }
{
    match instruction {
        Instruction::Act(action, _) => action_breaks(state, *action, rule),
        Instruction::Call(call, _, _) => call_breaks(setting, state, &call.roles(), rule),
        Instruction::Test(test, _, _) => test_breaks(setting, state, *test, rule),
        Instruction::Repeat(_, _, _) => false,
        Instruction::Return(status) => return_breaks(setting, state, *status, rule),
        Instruction::End => return_breaks(setting, state, None, rule),
    }
}

/// The least rule that a statement breaks that neither calls nor branches.
#[inline(always)]
pub(crate) fn first_of_action(state: &Abs, action: Action) -> Option<Rule>
    ensures { result ≡ find (spec.action_breaks state.now action) spec.rules }
{
    if action_breaks(state, action, Rule::R01) {
        Some(Rule::R01)
    } else if action_breaks(state, action, Rule::R03) {
        Some(Rule::R03)
    } else if action_breaks(state, action, Rule::R04) {
        Some(Rule::R04)
    } else {
        None
    }
}

/// The least rule that a test breaks. No test asks which callbacks are registered.
#[tactic(auto, using(crate::proofs::Unasked::same_least_of_test))]
#[inline(always)]
pub(crate) fn first_of_test(graph: &Graph, callback: usize, state: &Abs, test: Test) -> Option<Rule>
    ensures { result ≡ find (spec.test_breaks (setting_of graph.now callback state.now) state.now test) spec.rules }
{
    let setting = standing_of(graph, callback, state);
    if test_breaks(&setting, state, test, Rule::R04) {
        Some(Rule::R04)
    } else if test_breaks(&setting, state, test, Rule::R08) {
        Some(Rule::R08)
    } else {
        None
    }
}

/// The least rule that a call breaks, by its row of the call table.
#[inline(always)]
fn first_of_row(row: &Row, setting: &Setting, state: &Abs, call: &Invocation) -> Option<Rule>
    ensures { result ≡ find (spec.row_breaks row.now setting.now state.now call.now) spec.rules }
{
    if row_breaks(row, setting, state, call, Rule::R01) {
        Some(Rule::R01)
    } else if row_breaks(row, setting, state, call, Rule::R03) {
        Some(Rule::R03)
    } else if row_breaks(row, setting, state, call, Rule::R04) {
        Some(Rule::R04)
    } else if row_breaks(row, setting, state, call, Rule::R06) {
        Some(Rule::R06)
    } else if row_breaks(row, setting, state, call, Rule::R07) {
        Some(Rule::R07)
    } else if row_breaks(row, setting, state, call, Rule::R08) {
        Some(Rule::R08)
    } else if row_breaks(row, setting, state, call, Rule::R09) {
        Some(Rule::R09)
    } else if row_breaks(row, setting, state, call, Rule::R11) {
        Some(Rule::R11)
    } else if row_breaks(row, setting, state, call, Rule::R13) {
        Some(Rule::R13)
    } else {
        None
    }
}

/// The least rule that a call of this row breaks. Which callbacks are registered is looked up for a call alone that hands over a
/// status.
#[tactic(auto, using(crate::proofs::Unasked::same_least))]
#[inline(always)]
pub(crate) fn first_of_call(
    graph: &Graph,
    callback: usize,
    state: &Abs,
    call: &Invocation,
    row: &Row,
) -> Option<Rule>
    ensures { result ≡ find (spec.row_breaks row.now (setting_of graph.now callback state.now) state.now call.now) spec.rules }
{
    let setting = if row.needs.status {
        setting_of(graph, callback, state)
    } else {
        standing_of(graph, callback, state)
    };
    first_of_row(row, &setting, state, call)
}

/// The least rule that a return, or the end of the body, breaks.
#[inline(always)]
pub(crate) fn first_of_return(
    graph: &Graph,
    callback: usize,
    state: &Abs,
    status: Option<Status>,
) -> Option<Rule>
    ensures { result ≡ find (spec.return_breaks (setting_of graph.now callback state.now) state.now status) spec.rules }
{
    let setting = setting_of(graph, callback, state);
    if return_breaks(&setting, state, status, Rule::R02) {
        Some(Rule::R02)
    } else if return_breaks(&setting, state, status, Rule::R05) {
        Some(Rule::R05)
    } else if return_breaks(&setting, state, status, Rule::R06) {
        Some(Rule::R06)
    } else if return_breaks(&setting, state, status, Rule::R10) {
        Some(Rule::R10)
    } else if return_breaks(&setting, state, status, Rule::R13) {
        Some(Rule::R13)
    } else if return_breaks(&setting, state, status, Rule::R15) {
        Some(Rule::R15)
    } else {
        None
    }
}
