//! The tests of a text once it is read: the callbacks that others, the queue and work items need must be there.

ghost use Rattle.flt_syntax.specs.Whole as spec;
ghost use Rattle.flt_tree.specs.Declarations as declared;
ghost use Rattle.std.specs.Prelude.{◌≡◌};

use crate::cursor::fault;
use crate::fault::{FaultKind, SyntaxFault};
use crate::head::has_event;
use flt_tree::{Callback, Condition, FallibleCall, Filter, Head, Position, Routine, Statement};

/// Whether a deferred work item that is queued in a callback of the head `from` may run this callback.
fn runs_deferred(from: &Head, name: &[u8], head: &Head) -> bool
    ensures { result ≡ declared.runs_deferred from.now name.now head.now }
{
    match head {
        Head::DeferredPre(routine) => !matches!(from, Head::Post(_)) && routine.as_slice() == name,
        Head::DeferredPost(routine) => !matches!(from, Head::Pre(_)) && routine.as_slice() == name,
        _ => false,
    }
}

/// Whether a generic work item may run this callback.
fn runs_generic(name: &[u8], head: &Head) -> bool
    ensures { result ≡ declared.runs_generic name.now head.now }
{
    match head {
        Head::Generic(routine) => routine.as_slice() == name,
        _ => false,
    }
}

fn has_deferred(from: &Head, name: &[u8], callbacks: &[Callback]) -> bool
    ensures { result ≡ declared.has_deferred from.now name.now callbacks.now }
{
    callbacks.iter().any(|c| runs_deferred(from, name, &c.head))
}

fn has_generic(name: &[u8], callbacks: &[Callback]) -> bool
    ensures { result ≡ declared.has_generic name.now callbacks.now }
{
    callbacks.iter().any(|c| runs_generic(name, &c.head))
}

fn unless(found: bool, at: Position) -> Option<Position>
    ensures { result ≡ spec.unless found at }
{
    if found { None } else { Some(at) }
}

/// The place in a call of the name of a routine that isn't there.
fn missing_in(callbacks: &[Callback], from: &Head, call: &FallibleCall<Routine>) -> Option<Position>
    ensures { result ≡ spec.missing_in callbacks.now from.now call.now }
{
    match call {
        FallibleCall::QueueDeferredIoWorkItem(routine, _) => {
            let found = has_deferred(from, routine.name.as_slice(), callbacks);
            unless(found, routine.position)
        }
        FallibleCall::QueueGenericWorkItem(routine, _) => {
            let found = has_generic(routine.name.as_slice(), callbacks);
            unless(found, routine.position)
        }
        _ => None,
    }
}

/// The place in a body of the first name of a routine that isn't there.
#[cycle(missing)]
fn missing(callbacks: &[Callback], from: &Head, body: &[Statement]) -> Option<Position>
    ensures { result ≡ spec.missing callbacks.now from.now body.now }
{
    for statement in body {
        // The others have neither a condition, which may name a routine, nor a block.
        if matches!(
            statement,
            Statement::If(_, _, _, _) | Statement::Repeat(_, _, _)
        ) {
            if let Some(at) = missing_of(callbacks, from, statement) {
                return Some(at);
            }
        }
    }
    None
}

#[cycle(missing)]
fn missing_of(callbacks: &[Callback], from: &Head, statement: &Statement) -> Option<Position>
    ensures { result ≡ spec.missing_of callbacks.now from.now statement.now }
{
    match statement {
        Statement::Act(_, _) | Statement::Call(_, _) | Statement::Return(_, _) => None,
        Statement::If(_, condition, granted, refused) => {
            if let Some(at) = missing_by(callbacks, from, condition) {
                return Some(at);
            }
            if let Some(at) = missing(callbacks, from, granted.as_slice()) {
                return Some(at);
            }
            if refused.is_empty() {
                return None;
            }
            missing(callbacks, from, refused.as_slice())
        }
        Statement::Repeat(_, _, body) => missing(callbacks, from, body.as_slice()),
    }
}

fn missing_by(callbacks: &[Callback], from: &Head, condition: &Condition) -> Option<Position>
    ensures { result ≡ spec.missing_by callbacks.now from.now condition.now }
{
    match condition {
        Condition::Succeeds(call) => missing_in(callbacks, from, call),
        _ => None,
    }
}

/// Whether it is a post callback without its pre callback.
fn lacks_pre(callbacks: &[Callback], head: &Head) -> bool
    ensures { result ≡ declared.lacks_pre callbacks.now head.now }
{
    match head {
        Head::Post(operation) => !has_event(&Head::Pre(*operation), callbacks),
        _ => false,
    }
}

#[tactic(auto, unfolding(crate::specs::Whole::callback_fault))]
fn callback_fault(callbacks: &[Callback], callback: &Callback) -> Option<SyntaxFault>
    ensures { result ≡ spec.callback_fault callbacks.now callback.now }
{
    if lacks_pre(callbacks, &callback.head) {
        return Some(fault(FaultKind::E07, callback.position));
    }
    match missing(callbacks, &callback.head, callback.body.as_slice()) {
        None => None,
        Some(at) => Some(fault(FaultKind::E04, at)),
    }
}

/// The first fault of some of the callbacks.
fn first_fault(callbacks: &[Callback], some: &[Callback]) -> Option<SyntaxFault>
    ensures { result ≡ spec.first_fault callbacks.now some.now }
{
    for callback in some {
        if let Some(fault) = callback_fault(callbacks, callback) {
            return Some(fault);
        }
    }
    None
}

fn queue_fault(queue: Option<Position>, callbacks: &[Callback]) -> Option<SyntaxFault>
    ensures { result ≡ spec.queue_fault queue callbacks.now }
{
    match queue {
        Some(at) if !has_event(&Head::Canceled, callbacks) => Some(fault(FaultKind::E07, at)),
        _ => None,
    }
}

/// The first fault of a filter that was read.
pub fn whole_fault(filter: &Filter) -> Option<SyntaxFault>
    ensures { result ≡ spec.whole_fault filter.now }
{
    let callbacks = filter.callbacks.as_slice();
    if let Some(fault) = queue_fault(filter.queue, callbacks) {
        return Some(fault);
    }
    first_fault(callbacks, callbacks)
}
