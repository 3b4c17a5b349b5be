//! Reads the names that a text and its calls use.

ghost use Rattle.flt_syntax.specs.Cursor.{Reads};
ghost use Rattle.flt_syntax.specs.Scope as spec;
ghost use Rattle.flt_tree.specs.Declarations as declared;
ghost use Rattle.flt_syntax.specs.Scope.{scope_of};
ghost use Rattle.std.specs.Prelude.{◌≡◌};

use crate::cursor::{Tokens, bytes_of};
use crate::fault::{FaultKind, ParseError};
use crate::scope::Scope;
use flt_rules::{LockKind, LockNumber};
use flt_tree::Routine;
use sqlite_items::Items;
use std::alloc::Global;

#[tactic(auto, unfolding(flt_tree::specs::Declarations::same_lock_kind))]
fn same_lock_kind(a: LockKind, b: LockKind) -> bool
    ensures { result ≡ declared.same_lock_kind a b }
{
    a == b
}

/// The place of a lock among the locks of a filter.
#[tactic(auto, using(crate::proofs::Numbers::place_by_name))]
fn lock_place(scope: &Scope<'_>, kind: LockKind, name: &[u8]) -> Option<usize>
    ensures { result ≡ declared.lock_place kind name.now scope.now.locks.now }
{
    let place = scope.names.number(name)?;
    let lock = scope.locks.get(place)?;
    if same_lock_kind(lock.kind, kind) {
        Some(place)
    } else {
        None
    }
}

fn lock_number(scope: &Scope<'_>, kind: LockKind, name: &[u8]) -> Option<LockNumber>
    ensures { result ≡ declared.lock_number kind name.now scope.now.locks.now }
{
    match lock_place(scope, kind, name) {
        Some(place) => LockNumber::at(place),
        None => None,
    }
}

/// A declared lock of the kind.
#[tactic(auto, unfolding(crate::specs::Scope::lock_named))]
pub fn lock_named(
    scope: &Scope<'_>,
    tokens: &mut Tokens<'_>,
    kind: LockKind,
) -> Result<LockNumber, ParseError>
    ensures { Reads (spec.lock_named (scope_of scope.now) kind tokens.old.rest.now) result tokens.new.rest.now }
{
    let unknown = tokens.fault(FaultKind::E04);
    let name = tokens.name()?;
    match lock_number(scope, kind, bytes_of(scope.text, name)) {
        None => Err(unknown),
        Some(number) => Ok(number),
    }
}

/// The bytes of a word.
#[tactic(auto, unfolding(crate::specs::Scope::spelled))]
pub fn spelled(alloc: Global, text: &[u8], tokens: &mut Tokens<'_>) -> Result<Items<u8>, ParseError>
    ensures { Reads (spec.spelled text.now tokens.old.rest.now) result tokens.new.rest.now }
{
    let name = tokens.name()?;
    Ok(Items::from_slice(alloc, bytes_of(text, name))?)
}

/// The name of a routine, which may be declared later.
#[tactic(auto, unfolding(crate::specs::Scope::routine))]
pub fn routine(
    alloc: Global,
    scope: &Scope<'_>,
    tokens: &mut Tokens<'_>,
) -> Result<Routine, ParseError>
    ensures { Reads (spec.routine (scope_of scope.now) tokens.old.rest.now) result tokens.new.rest.now }
{
    let position = tokens.position();
    let name = spelled(alloc, scope.text, tokens)?;
    Ok(Routine { name, position })
}
