//! W06: locks that no call names, and callbacks that nothing starts.

ghost use Rattle.std.specs.Prelude.{◌≡◌, ◌++◌, OnOk};
ghost use Rattle.flt_explain_warnings.specs.Unused as spec;

use crate::warning::{Site, Warning};
use flt_graph::{CallbackGraph, Graph, Instruction, LockNumber};
use flt_search_started::is_started;
use sqlite_items::Items;
use std::alloc::AllocError;

/// All locks that a filter can declare.
const LOCKS: [LockNumber; 8] = [
    LockNumber::L0,
    LockNumber::L1,
    LockNumber::L2,
    LockNumber::L3,
    LockNumber::L4,
    LockNumber::L5,
    LockNumber::L6,
    LockNumber::L7,
];

// ---- locks

/// Whether a lock is the one that is named.
fn is_lock(named: Option<LockNumber>, lock: LockNumber) -> bool
    ensures { result ≡ spec.is_lock named lock }
{
    match named {
        Some(named) => named.is_same(lock),
        None => false,
    }
}

fn names_lock(instruction: &Instruction, lock: LockNumber) -> bool
    ensures { result ≡ spec.names_lock lock instruction.now }
{
    match instruction {
        Instruction::Call(call, _, _) => is_lock(call.roles().lock, lock),
        _ => false,
    }
}

fn names_lock_in(callback: &CallbackGraph, lock: LockNumber) -> bool
    ensures { result ≡ spec.names_lock_in lock callback.now }
{
    callback
        .points
        .as_slice()
        .iter()
        .any(|point| names_lock(&point.instruction, lock))
}

fn is_declared(graph: &Graph, lock: LockNumber) -> bool
    ensures { result ≡ spec.is_declared graph.now lock }
{
    usize::from(lock.place()) < graph.locks.len()
}

/// Whether some call names a lock.
fn is_called(graph: &Graph, lock: LockNumber) -> bool
    ensures { result ≡ spec.is_called graph.now lock }
{
    graph
        .callbacks
        .as_slice()
        .iter()
        .any(|callback| names_lock_in(callback, lock))
}

/// Whether a lock is declared and no call names it.
fn is_unused(graph: &Graph, lock: LockNumber) -> bool
    ensures { result ≡ spec.is_unused graph.now lock }
{
    is_declared(graph, lock) && !is_called(graph, lock)
}

/// Adds a warning for each of these locks that no call names.
fn add_unused(
    warnings: &mut Items<Warning>,
    graph: &Graph,
    locks: &[LockNumber],
) -> Result<(), AllocError>
    ensures { OnOk result (warnings.new ≡ warnings.old ++ spec.unused_among graph.now locks.now) }
{
    if let [lock, others @ ..] = locks {
        if is_unused(graph, *lock) {
            warnings.push(Warning::UnusedLock(*lock))?;
        }
        add_unused(warnings, graph, others)?;
    }
    Ok(())
}

/// Adds a warning for each lock that no call names.
pub(crate) fn unused_locks(warnings: &mut Items<Warning>, graph: &Graph) -> Result<(), AllocError>
    ensures { OnOk result (warnings.new ≡ warnings.old ++ spec.unused_locks graph.now) }
{
    add_unused(warnings, graph, &LOCKS)?;
    Ok(())
}

// ---- callbacks

/// The warning, at the first point of a callback, that nothing starts it.
pub(crate) fn unused_callback(graph: &Graph, site: Site) -> Option<Warning>
    ensures { result ≡ spec.unused_callback graph.now site }
{
    if site.point == 0 && !is_started(graph, site.callback) {
        Some(Warning::UnusedCallback(site.callback))
    } else {
        None
    }
}
