//! Reads the head of a callback, before its body.

ghost use Rattle.flt_syntax.specs.Cursor.{Reads};
ghost use Rattle.flt_syntax.specs.Head as spec;
ghost use Rattle.flt_tree.specs.Declarations as declared;
ghost use Rattle.flt_tree.specs.Names.{names_of, routine_names};
ghost use Rattle.std.specs.Prelude.{◌≡◌, [], ◌∷◌, ◌++◌, IfOk};

use crate::cursor::{Tokens, bytes_of};
use crate::fault::{FaultKind, ParseError};
use crate::names::Names;
use crate::token::Kind;
use flt_rules::{MAX_CALLBACKS, Operation};
use flt_tree::{Callback, Head};
use sqlite_items::Items;
use std::alloc::Global;

#[tactic(auto, unfolding(crate::specs::Head::operation))]
fn operation(tokens: &mut Tokens<'_>) -> Result<Operation, ParseError>
    ensures { Reads (spec.operation tokens.old.rest.now) result tokens.new.rest.now }
{
    match tokens.peek().operation() {
        None => Err(tokens.refuse()),
        Some(operation) => {
            tokens.take();
            Ok(operation)
        }
    }
}

/// Whether both are for the same event. Routines are for none.
fn same_event(a: &Head, b: &Head) -> bool
    ensures { result ≡ declared.same_event a.now b.now }
{
    match (a, b) {
        (Head::Pre(a), Head::Pre(b)) | (Head::Post(a), Head::Post(b)) => a.is_same(*b),
        (Head::Canceled, Head::Canceled) => true,
        _ => false,
    }
}

pub fn has_event(head: &Head, callbacks: &[Callback]) -> bool
    ensures { result ≡ declared.has_event head.now callbacks.now }
{
    callbacks.iter().any(|c| same_event(&c.head, head))
}

#[tactic(auto, unfolding(crate::specs::Head::event))]
fn event(tokens: &mut Tokens<'_>) -> Result<Head, ParseError>
    ensures reads { Reads (spec.event tokens.old.rest.now) result tokens.new.rest.now }
    ensures names { IfOk result (λ h. names_of h ≡ []) }
{
    match tokens.peek() {
        Kind::Pre => {
            tokens.take();
            Ok(Head::Pre(operation(tokens)?))
        }
        Kind::Post => {
            tokens.take();
            Ok(Head::Post(operation(tokens)?))
        }
        Kind::Canceled => {
            tokens.take();
            Ok(Head::Canceled)
        }
        _ => Err(tokens.refuse()),
    }
}

/// A head for an event that none of the callbacks before is for.
#[tactic(auto, unfolding(crate::specs::Head::new_event))]
fn new_event(tokens: &mut Tokens<'_>, found: &[Callback]) -> Result<Head, ParseError>
    ensures reads { Reads (spec.new_event found.now tokens.old.rest.now) result tokens.new.rest.now }
    ensures names { IfOk result (λ h. names_of h ≡ []) }
{
    let twice = tokens.fault(FaultKind::E05);
    let head = event(tokens)?;
    if has_event(&head, found) {
        return Err(twice);
    }
    Ok(head)
}

/// The name of a routine, after its head word.
#[tactic(auto, using(crate::proofs::Numbers::routine_is_there), unfolding(crate::specs::Head::new_routine, crate::specs::Scope::spelled))]
fn new_routine<'a>(
    alloc: Global,
    text: &'a [u8],
    tokens: &mut Tokens<'_>,
    found: &[Callback],
    routines: &mut Names<'a>,
) -> Result<Items<u8>, ParseError>
    requires { routines.old ≡ routine_names found.now }
    ensures reads { Reads (spec.new_routine text.now found.now tokens.old.rest.now) result tokens.new.rest.now }
    ensures names { IfOk result (λ name. routines.new ≡ routines.old ++ name ∷ []) }
{
    tokens.take();
    let twice = tokens.fault(FaultKind::E05);
    let name = bytes_of(text, tokens.name()?);
    if !routines.add(name)? {
        return Err(twice);
    }
    Ok(Items::from_slice(alloc, name)?)
}

#[tactic(auto, using(crate::proofs::Numbers::and_no_name), unfolding(crate::specs::Head::new_head))]
fn new_head<'a>(
    alloc: Global,
    text: &'a [u8],
    tokens: &mut Tokens<'_>,
    found: &[Callback],
    routines: &mut Names<'a>,
) -> Result<Head, ParseError>
    requires { routines.old ≡ routine_names found.now }
    ensures reads { Reads (spec.new_head text.now found.now tokens.old.rest.now) result tokens.new.rest.now }
    ensures names { IfOk result (λ h. routines.new ≡ routines.old ++ names_of h) }
{
    match tokens.peek() {
        Kind::DeferredPre => {
            let name = new_routine(alloc, text, tokens, found, routines)?;
            Ok(Head::DeferredPre(name))
        }
        Kind::DeferredPost => {
            let name = new_routine(alloc, text, tokens, found, routines)?;
            Ok(Head::DeferredPost(name))
        }
        Kind::Generic => {
            let name = new_routine(alloc, text, tokens, found, routines)?;
            Ok(Head::Generic(name))
        }
        _ => new_event(tokens, found),
    }
}

/// The event that two words name.
fn event_of(first: Kind, second: Kind) -> Option<Head>
    ensures { result ≡ spec.event_of first second }
{
    match first {
        Kind::Pre => Some(Head::Pre(second.operation()?)),
        Kind::Post => Some(Head::Post(second.operation()?)),
        Kind::Canceled => Some(Head::Canceled),
        _ => None,
    }
}

/// Whether two words name an event that one of the callbacks is for.
fn is_taken(first: Kind, second: Kind, found: &[Callback]) -> bool
    ensures { result ≡ spec.is_taken first second found.now }
{
    match event_of(first, second) {
        None => false,
        Some(head) => has_event(&head, found),
    }
}

fn begins_head(kind: Kind) -> bool
    ensures { result ≡ spec.begins_head kind }
{
    matches!(
        kind,
        Kind::Pre
            | Kind::Post
            | Kind::Canceled
            | Kind::DeferredPre
            | Kind::DeferredPost
            | Kind::Generic
    )
}

/// The error if another head is read and there are as many callbacks as a text may have.
#[tactic(auto, unfolding(crate::specs::Head::crowded))]
fn crowded(tokens: &mut Tokens<'_>, found: &[Callback]) -> ParseError
    ensures { result ≡ ParseError.Syntax (spec.crowded found.now tokens.old.rest.now) }
{
    if !begins_head(tokens.peek()) {
        return tokens.refuse();
    }
    let limit = tokens.fault(FaultKind::E06);
    let twice = tokens.fault(FaultKind::E05);
    let first = tokens.take().word.kind;
    if is_taken(first, tokens.peek(), found) {
        twice
    } else {
        limit
    }
}

/// A head after the callbacks that were found.
#[tactic(auto, unfolding(crate::specs::Head::head))]
pub fn head<'a>(
    alloc: Global,
    text: &'a [u8],
    tokens: &mut Tokens<'_>,
    found: &[Callback],
    routines: &mut Names<'a>,
) -> Result<Head, ParseError>
    requires { routines.old ≡ routine_names found.now }
    ensures reads { Reads (spec.head text.now found.now tokens.old.rest.now) result tokens.new.rest.now }
    ensures names { IfOk result (λ h. routines.new ≡ routines.old ++ names_of h) }
{
    if found.len() < MAX_CALLBACKS {
        new_head(alloc, text, tokens, found, routines)
    } else {
        Err(crowded(tokens, found))
    }
}
