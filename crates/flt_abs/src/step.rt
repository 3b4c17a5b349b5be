//! The effect of an instruction on a state.

ghost use Rattle.std.specs.Prelude.{◌≡◌, ℕ, true, false, None, Some, Ok, Err, IfSome, IfNone, IsTrue, IsFalse};
ghost use Rattle.flt_abs.specs.Proper.{AreProper};
ghost use Rattle.flt_abs.specs.Setting.{setting_of};
ghost use Rattle.flt_abs.specs.Sets as sets;
ghost use Rattle.flt_abs.specs.Step as spec;
ghost use Rattle.flt_graph.specs.declared.graph.Graph.{Graph};
ghost use Rattle.flt_graph.specs.declared.instruction.Instruction.TheVariants as variant;
ghost use Rattle.flt_rules.specs.Table.{row as row_of};
ghost use Rattle.flt_abs.specs.State.{State, is_below, is_proper};
ghost use Rattle.flt_abs.specs.declared.step.Successors.{Successors};

use crate::breaks::{first_of_action, first_of_call, first_of_return, first_of_test};
use crate::leads::Leads;
use crate::locks::LockList;
use crate::sets::{Draining, Modes, Statuses};
use crate::state::Abs;
use flt_graph::{
    Action, Graph, Instruction, Invocation, LockNumber, OperationVariable, ResolvedCall, Status,
    Test,
};
use flt_rules::{Change, Effects, LockChange, Row, Rule, row};

/// A point that follows, from 0, and the state with which it is reached.
#[derive(Drop)]
pub struct Successor {
    pub point: usize,
    pub state: Abs,
}

/// Where an instruction leads: first where a call succeeds or a test holds, then otherwise.
#[derive(Drop)]
pub struct Successors {
    pub first: Option<Successor>,
    pub second: Option<Successor>,
}

/// The statuses that a change leaves, if it changes anything.
fn changed(change: Change) -> Option<Statuses>
    ensures value { result ≡ spec.changed change }
    ensures possible { IfSome result (λ s. sets.is_possible s ≡ true) }
{
    match change {
        Change::Stays => None,
        Change::Null => Some(Statuses::null()),
        Change::Held => Some(Statuses::held()),
        Change::Stale => Some(Statuses::stale()),
        Change::NullOrHeld => Some(Statuses::null_or_held()),
    }
}

fn change_context(state: &mut Abs, call: &Invocation, effects: &Effects)
    ensures { state.new ≡ spec.change_context call.now effects.now state.old }
{
    if let (Some(variable), Some(statuses)) = (call.context, changed(effects.context)) {
        state.set_context(variable, statuses);
    }
}

fn change_output(state: &mut Abs, call: &Invocation, effects: &Effects)
    ensures { state.new ≡ spec.change_output call.now effects.now state.old }
{
    if let (Some(variable), Some(statuses)) = (call.output, changed(effects.output)) {
        state.set_context(variable, statuses);
    }
}

fn change_operation(state: &mut Abs, call: &Invocation, effects: &Effects)
    ensures { state.new ≡ spec.change_operation call.now effects.now state.old }
{
    if let (Some(variable), Some(statuses)) = (call.operation, changed(effects.operation)) {
        state.set_operation(variable, statuses);
    }
}

/// The locks after a change. A lock that is held already isn't added again.
fn changed_locks(locks: &LockList, lock: LockNumber, change: LockChange) -> LockList
    ensures { result ≡ spec.changed_locks locks.now lock change }
{
    let mut next = locks.copied();
    match change {
        LockChange::Stays => {}
        LockChange::Taken(access) => {
            if !locks.contains(lock) {
                next.take(lock, access);
            }
        }
        LockChange::Released => next.release(lock),
    }
    next
}

fn change_locks(state: &mut Abs, call: &Invocation, effects: &Effects)
    ensures { state.new ≡ spec.change_locks call.now effects.now state.old }
{
    if let Some(lock) = call.lock {
        let next = changed_locks(state.locks(), lock, effects.lock);
        state.set_locks(next);
    }
}

/// A call that had these effects.
fn change_by(state: &mut Abs, call: &Invocation, effects: &Effects)
    ensures { state.new ≡ spec.after_call call.now effects.now state.old }
{
    change_context(state, call, effects);
    change_output(state, call, effects);
    change_operation(state, call, effects);
    change_locks(state, call, effects);
}

/// A statement that neither calls nor branches.
fn act(state: &mut Abs, action: Action)
    ensures { state.new ≡ spec.after_action state.old action }
{
    match action {
        Action::ClearContext(c) => state.set_context(c, Statuses::null()),
        Action::ClearOperation(o) => {
            state.set_operation(OperationVariable::Removed(o), Statuses::null());
        }
        _ => {}
    }
}

/// Makes the state one in which a test holds. Whether it can.
fn hold(state: &mut Abs, test: Test) -> bool
    ensures can { IsTrue result → spec.where_true state.old test ≡ Some state.new }
    ensures cannot { IsFalse result → spec.where_true state.old test ≡ None }
{
    match test {
        Test::ContextIsSome(c) => {
            let some = state.context(c).without_null();
            if !some.is_possible() {
                return false;
            }
            state.set_context(c, some);
        }
        Test::OperationIsSome(o) => {
            let variable = OperationVariable::Removed(o);
            let some = state.operation(variable).without_null();
            if !some.is_possible() {
                return false;
            }
            state.set_operation(variable, some);
        }
        Test::IsIrp => {
            if !state.modes.has_irp() {
                return false;
            }
            state.modes = Modes::irp();
        }
        Test::IsDraining => {
            if !state.draining.has_yes() {
                return false;
            }
            state.draining = Draining::yes();
        }
        Test::Equal(_, _) | Test::Less(_, _) => {}
    }
    true
}

/// Makes the state one in which a test doesn't hold. Whether it can fail.
fn fail(state: &mut Abs, test: Test) -> bool
    ensures can { IsTrue result → spec.where_false state.old test ≡ Some state.new }
    ensures cannot { IsFalse result → spec.where_false state.old test ≡ None }
{
    match test {
        Test::ContextIsSome(c) => {
            if !state.context(c).has_null() {
                return false;
            }
            state.set_context(c, Statuses::null());
        }
        Test::OperationIsSome(o) => {
            let variable = OperationVariable::Removed(o);
            if !state.operation(variable).has_null() {
                return false;
            }
            state.set_operation(variable, Statuses::null());
        }
        Test::IsIrp => {
            if !state.modes.has_fast() {
                return false;
            }
            state.modes = Modes::fast();
        }
        Test::IsDraining => {
            if !state.draining.has_no() {
                return false;
            }
            state.draining = Draining::no();
        }
        Test::Equal(_, _) | Test::Less(_, _) => {}
    }
    true
}

// ---- where an instruction leads, written over where the one before led

/// Where a statement leads that neither calls nor branches.
#[inline(always)]
fn follow_action(leads: &mut Leads, state: &Abs, action: Action, next: usize)
    ensures { leads.new ≡ record { first = spec.at next (Some (spec.after_action state.now action)); second = None } }
{
    leads.first.reach(next, state);
    act(&mut leads.first.state, action);
    leads.second.point = None;
}

/// Where a call of this row leads.
#[inline(always)]
fn follow_call(
    leads: &mut Leads,
    state: &Abs,
    call: &Invocation,
    row: &Row,
    granted: usize,
    failed: usize,
)
    requires { row.now ≡ row_of call.now.call }
    ensures { leads.new ≡ spec.call_successors state.now call.now granted failed }
{
    leads.first.reach(granted, state);
    change_by(&mut leads.first.state, call, &row.on_ok);
    match row.on_fail {
        Some(effects) => {
            leads.second.reach(failed, state);
            change_by(&mut leads.second.state, call, &effects);
        }
        None => leads.second.point = None,
    }
}

/// Where a test leads.
#[inline(always)]
fn follow_test(leads: &mut Leads, state: &Abs, test: Test, yes: usize, no: usize)
    ensures { leads.new ≡
        record { first = spec.at yes (spec.where_true state.now test); second = spec.at no (spec.where_false state.now test) } }
{
    leads.first.reach(yes, state);
    if !hold(&mut leads.first.state, test) {
        leads.first.point = None;
    }
    leads.second.reach(no, state);
    if !fail(&mut leads.second.state, test) {
        leads.second.point = None;
    }
}

/// Where an instruction leads from a state.
fn follow(leads: &mut Leads, state: &Abs, instruction: &Instruction)
    ensures { leads.new ≡ spec.leads_to state.now instruction.now }
{
    match instruction {
        Instruction::Act(action, next) => follow_action(leads, state, *action, *next),
        Instruction::Call(call, granted, failed) => {
            let call = call.roles();
            follow_call(leads, state, &call, &row(call.call), *granted, *failed);
        }
        Instruction::Test(test, yes, no) => follow_test(leads, state, *test, *yes, *no),
        Instruction::Repeat(_, body, next) => {
            leads.first.reach(*body, state);
            leads.second.reach(*next, state);
        }
        Instruction::Return(_) | Instruction::End => leads.clear(),
    }
}

/// Where an instruction leads from a state, handed back.
pub(crate) fn leads_to(state: &Abs, instruction: &Instruction) -> Successors
    ensures { result ≡ spec.leads_to state.now instruction.now }
{
    let mut leads = Leads::none(state);
    follow(&mut leads, state, instruction);
    leads.into_successors()
}

// ---- the same, unless a rule is broken

/// A call. Its row is looked up once.
#[inline(never)]
fn transfer_call(
    graph: &Graph,
    callback: usize,
    state: &Abs,
    leads: &mut Leads,
    call: ResolvedCall,
    granted: usize,
    failed: usize,
) -> Option<Rule>
    ensures leads { IfNone result
        (spec.outcome (setting_of graph.now callback state.now) state.now (variant.Call call granted failed) ≡ Ok leads.new) }
    ensures rule { IfSome result
        (λ rule. spec.outcome (setting_of graph.now callback state.now) state.now (variant.Call call granted failed) ≡ Err rule) }
    ensures stays { IfSome result (λ _. leads.new ≡ leads.old) }
{
    let roles = call.roles();
    let row = row(roles.call);
    let rule = first_of_call(graph, callback, state, &roles, &row);
    if rule.is_none() {
        follow_call(leads, state, &roles, &row, granted, failed);
    }
    rule
}

/// A test.
#[inline(never)]
fn transfer_test(
    graph: &Graph,
    callback: usize,
    state: &Abs,
    leads: &mut Leads,
    test: Test,
    yes: usize,
    no: usize,
) -> Option<Rule>
    ensures leads { IfNone result
        (spec.outcome (setting_of graph.now callback state.now) state.now (variant.Test test yes no) ≡ Ok leads.new) }
    ensures rule { IfSome result
        (λ rule. spec.outcome (setting_of graph.now callback state.now) state.now (variant.Test test yes no) ≡ Err rule) }
    ensures stays { IfSome result (λ _. leads.new ≡ leads.old) }
{
    let rule = first_of_test(graph, callback, state, test);
    if rule.is_none() {
        follow_test(leads, state, test, yes, no);
    }
    rule
}

/// A return, or the end of the body.
#[inline(never)]
fn transfer_return(
    graph: &Graph,
    callback: usize,
    state: &Abs,
    leads: &mut Leads,
    status: Option<Status>,
) -> Option<Rule>
    ensures leads { IfNone result
        (spec.outcome (setting_of graph.now callback state.now) state.now (variant.Return status) ≡ Ok leads.new) }
    ensures rule { IfSome result
        (λ rule. spec.outcome (setting_of graph.now callback state.now) state.now (variant.Return status) ≡ Err rule) }
    ensures stays { IfSome result (λ _. leads.new ≡ leads.old) }
{
    let rule = first_of_return(graph, callback, state, status);
    if rule.is_none() {
        leads.clear();
    }
    rule
}

/// The same as `transfer`, written into `leads`: it answers the least rule that is broken, or none, and then `leads` has where the point
/// leads. If a rule is broken, `leads` stays as it was. It takes no memory.
pub fn transfer_into(
    graph: &Graph,
    callback: usize,
    point: usize,
    state: &Abs,
    leads: &mut Leads,
) -> Option<Rule>
    ensures leads { IfNone result (spec.transfer graph.now callback point state.now ≡ Ok leads.new) }
    ensures rule { IfSome result (λ rule. spec.transfer graph.now callback point state.now ≡ Err rule) }
    ensures stays { IfSome result (λ _. leads.new ≡ leads.old) }
{
    match graph.instruction_ref(callback, point) {
        Instruction::Act(action, next) => {
            let rule = first_of_action(state, *action);
            if rule.is_none() {
                follow_action(leads, state, *action, *next);
            }
            rule
        }
        Instruction::Call(call, granted, failed) => {
            transfer_call(graph, callback, state, leads, *call, *granted, *failed)
        }
        Instruction::Test(test, yes, no) => {
            transfer_test(graph, callback, state, leads, *test, *yes, *no)
        }
        Instruction::Repeat(_, body, next) => {
            leads.first.reach(*body, state);
            leads.second.reach(*next, state);
            None
        }
        Instruction::Return(status) => transfer_return(graph, callback, state, leads, *status),
        Instruction::End => transfer_return(graph, callback, state, leads, None),
    }
}

/// Where the point of a callback leads from a state, or the least rule that it breaks. Callbacks and points count
/// from 0; a point that isn't there is an end, and a callback that isn't there a generic routine. It takes no memory.
pub fn transfer(
    graph: &Graph,
    callback: usize,
    point: usize,
    state: &Abs,
) -> Result<Successors, Rule>
    ensures { result ≡ spec.transfer graph.now callback point state.now }
{
    let mut leads = Leads::none(state);
    match transfer_into(graph, callback, point, state, &mut leads) {
        Some(rule) => Err(rule),
        None => Ok(leads.into_successors()),
    }
}

/// The states that a state leads to are below those that each state above it leads to. It does nothing: its clause is the law.
pub fn transfer_is_monotone()
    ensures { (g : Graph) (callback point : ℕ) (x y : State) → IsTrue (is_proper x) → IsTrue (is_below x y) →
        spec.IsOutcomeBelow (spec.transfer g callback point x) (spec.transfer g callback point y) }
{}

/// If no rule is broken, a state without an empty set leads to states without one. It does nothing: its clause is the law.
pub fn transfer_keeps_states_proper()
    ensures { (g : Graph) (callback point : ℕ) (x : State) (next : Successors) → IsTrue (is_proper x) →
        spec.transfer g callback point x ≡ Ok next → AreProper next }
{}
