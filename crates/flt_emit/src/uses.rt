//! Finds the variables and locks in the body of a callback, so that C declares them, and whether a body comes to its end.

ghost use Rattle.flt_emit.specs.Uses as spec;
ghost use Rattle.std.specs.Prelude.{◌≡◌};

use crate::expressions::{is_variable, is_zero};
use flt_rules::LockNumber;
use flt_tree::{
    Action, Condition, ContextVariable, Expression, FallibleCall, NumberVariable,
    OperationVariable, PlainCall, Routine, Statement, Status, Test,
};

/// A variable or a lock that a body may use.
#[derive(Clone, Copy)]
pub(crate) enum Use {
    Number(NumberVariable),
    /// A variable of numbers whose value is read.
    Read(NumberVariable),
    Context(ContextVariable),
    Operation(OperationVariable),
    /// The lock of a place among the declared ones, from 0.
    Lock(usize),
    Return,
}

fn same_number(n: NumberVariable, m: NumberVariable) -> bool
    ensures { result ≡ spec.same_number n m }
{
    n.place() == m.place()
}

fn same_context(c: ContextVariable, d: ContextVariable) -> bool
    ensures { result ≡ spec.same_context c d }
{
    c.place() == d.place()
}

fn is_context(c: ContextVariable, context: Option<ContextVariable>) -> bool
    ensures { result ≡ spec.is_context c context }
{
    match context {
        None => false,
        Some(d) => same_context(c, d),
    }
}

fn same_operation(d: OperationVariable, e: OperationVariable) -> bool
    ensures { result ≡ spec.same_operation d e }
{
    d.place() == e.place()
}

fn is_lock_at(place: usize, l: LockNumber) -> bool
    ensures { result ≡ spec.is_lock_at place l }
{
    place == usize::from(l.place())
}

fn in_expression(n: NumberVariable, expression: Expression) -> bool
    ensures { result ≡ spec.in_expression n expression }
{
    match expression {
        Expression::Atom(x) => is_variable(n, x),
        Expression::Sum(x, y) | Expression::Difference(x, y) => {
            is_variable(n, x) || is_variable(n, y)
        }
    }
}

fn in_action(sought: Use, action: Action) -> bool
    ensures { result ≡ spec.in_action sought action }
{
    match (sought, action) {
        (Use::Number(n), Action::SetNumber(m, e)) => same_number(n, m) || in_expression(n, e),
        (Use::Number(n), Action::ReadValue(m, _)) => same_number(n, m),
        (Use::Number(n), Action::ReadFile(m, _)) => same_number(n, m),
        (Use::Number(n), Action::WriteValue(_, x)) => is_variable(n, x),
        (Use::Read(n), Action::SetNumber(_, e)) => in_expression(n, e),
        (Use::Read(n), Action::WriteValue(_, x)) => is_variable(n, x),
        (Use::Context(c), Action::ReadValue(_, d)) => same_context(c, d),
        (Use::Context(c), Action::WriteValue(d, _)) => same_context(c, d),
        (Use::Context(c), Action::ClearContext(d)) => same_context(c, d),
        (Use::Operation(d), Action::ReadFile(_, e)) => same_operation(d, e),
        (Use::Operation(d), Action::ClearOperation(o)) => {
            same_operation(d, OperationVariable::Removed(o))
        }
        _ => false,
    }
}

fn in_plain(sought: Use, call: PlainCall) -> bool
    ensures { result ≡ spec.in_plain sought call }
{
    match (sought, call) {
        (Use::Context(c), PlainCall::DeleteContext(d)) => same_context(c, d),
        (Use::Context(c), PlainCall::ReferenceContext(d, e)) => {
            same_context(c, d) || same_context(c, e)
        }
        (Use::Context(c), PlainCall::ReleaseContext(d)) => same_context(c, d),
        (Use::Context(c), PlainCall::CompletePendedPreOperation(_, s)) => {
            is_context(c, s.context())
        }
        (Use::Operation(d), PlainCall::CompletePendedPreOperation(e, _)) => same_operation(d, e),
        (Use::Lock(place), PlainCall::AcquireLock(_, l)) => is_lock_at(place, l),
        (Use::Lock(place), PlainCall::AcquirePushLockShared(l)) => is_lock_at(place, l),
        (Use::Lock(place), PlainCall::ReleaseLock(_, l)) => is_lock_at(place, l),
        _ => false,
    }
}

fn in_return(sought: Use, status: Option<Status>) -> bool
    ensures { result ≡ spec.in_return sought status }
{
    match (sought, status) {
        (Use::Return, _) => true,
        (Use::Context(c), Some(s)) => is_context(c, s.context()),
        _ => false,
    }
}

fn in_test(sought: Use, test: Test) -> bool
    ensures { result ≡ spec.in_test sought test }
{
    match (sought, test) {
        (Use::Number(n), Test::Equal(m, x)) => same_number(n, m) || is_variable(n, x),
        (Use::Number(n), Test::Less(m, x)) => same_number(n, m) || is_variable(n, x),
        (Use::Read(n), Test::Equal(m, x)) => {
            !is_variable(m, x) && (same_number(n, m) || is_variable(n, x))
        }
        (Use::Read(n), Test::Less(m, x)) => {
            !(is_variable(m, x) || is_zero(x)) && (same_number(n, m) || is_variable(n, x))
        }
        (Use::Context(c), Test::ContextIsSome(d)) => same_context(c, d),
        (Use::Operation(d), Test::OperationIsSome(o)) => {
            same_operation(d, OperationVariable::Removed(o))
        }
        _ => false,
    }
}

fn names_context(c: ContextVariable, call: &FallibleCall<Routine>) -> bool
    ensures { result ≡ spec.names_context c call.now }
{
    match call {
        FallibleCall::AllocateContext(d)
        | FallibleCall::GetContext(_, d)
        | FallibleCall::RemoveNextIo(_, d) => same_context(c, *d),
        FallibleCall::SetContext(_, _, d, old) => same_context(c, *d) || is_context(c, *old),
        FallibleCall::DeleteContextOf(_, found)
        | FallibleCall::InsertIo(found)
        | FallibleCall::QueueDeferredIoWorkItem(_, found)
        | FallibleCall::QueueGenericWorkItem(_, found) => is_context(c, *found),
    }
}

/// Whether a call removes an operation from the queue into the variable.
fn removes(d: OperationVariable, call: &FallibleCall<Routine>) -> bool
    ensures { result ≡ spec.removes d call.now }
{
    match call {
        FallibleCall::RemoveNextIo(o, _) => same_operation(d, OperationVariable::Removed(*o)),
        _ => false,
    }
}

fn in_fallible(sought: Use, call: &FallibleCall<Routine>) -> bool
    ensures { result ≡ spec.in_fallible sought call.now }
{
    match sought {
        Use::Context(c) => names_context(c, call),
        Use::Operation(d) => removes(d, call),
        _ => false,
    }
}

fn in_condition(sought: Use, asked: &Condition) -> bool
    ensures { result ≡ spec.in_condition sought asked.now }
{
    match asked {
        Condition::Test(test) => in_test(sought, *test),
        Condition::Succeeds(call) => in_fallible(sought, call),
    }
}

#[cycle(stands)]
fn stands_in(sought: Use, body: &[Statement]) -> bool
    ensures { result ≡ spec.stands_in sought body.now }
{
    for statement in body {
        if stands_in_statement(sought, statement) {
            return true;
        }
    }
    false
}

#[cycle(stands)]
fn stands_in_statement(sought: Use, statement: &Statement) -> bool
    ensures { result ≡ spec.stands_in_statement sought statement.now }
{
    match statement {
        Statement::Act(_, action) => in_action(sought, *action),
        Statement::Call(_, call) => in_plain(sought, *call),
        Statement::Return(_, status) => in_return(sought, *status),
        Statement::If(_, asked, granted, refused) => {
            in_condition(sought, asked)
                || stands_in(sought, granted.as_slice())
                || stands_in(sought, refused.as_slice())
        }
        Statement::Repeat(_, _, body) => stands_in(sought, body.as_slice()),
    }
}

#[cycle(returns)]
fn returns(body: &[Statement]) -> bool
    ensures { result ≡ spec.returns body.now }
{
    for statement in body {
        if statement_returns(statement) {
            return true;
        }
    }
    false
}

#[cycle(returns)]
fn statement_returns(statement: &Statement) -> bool
    ensures { result ≡ spec.statement_returns statement.now }
{
    match statement {
        Statement::Return(_, _) => true,
        Statement::If(_, _, granted, refused) => {
            returns(granted.as_slice()) && returns(refused.as_slice())
        }
        _ => false,
    }
}

/// Whether a variable or a lock is used in a body.
#[tactic(auto, unfolding(crate::specs::Uses::is_used))]
pub(crate) fn is_used(sought: Use, body: &[Statement]) -> bool
    ensures { result ≡ spec.is_used sought body.now }
{
    stands_in(sought, body)
}

/// Whether a body never comes to its end.
#[tactic(auto, unfolding(crate::specs::Uses::always_returns))]
pub(crate) fn always_returns(body: &[Statement]) -> bool
    ensures { result ≡ spec.always_returns body.now }
{
    returns(body)
}
