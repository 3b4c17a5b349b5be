//! W02: an operation handed to the system while a lock is held.

ghost use Rattle.std.specs.Prelude.{◌≡◌};
ghost use Rattle.flt_explain_warnings.specs.Called as spec;

use crate::warning::{Site, Warning};
use flt_cert::FullCert;
use flt_graph::{Call, Graph, Instruction};
use flt_rules::{HeldLock, LockNumber};

/// Whether the system may run other code of the filter before the call returns.
fn gives_away(call: Call) -> bool
    ensures { result ≡ spec.gives_away call }
{
    matches!(
        call,
        Call::InsertIo | Call::CompletePendedPreOperation(_) | Call::CompletePendedPostOperation
    )
}

/// The lock that was taken last.
fn latest(locks: &[HeldLock]) -> Option<LockNumber>
    ensures { result ≡ spec.latest locks.now }
{
    match locks {
        [] => None,
        [held] => Some(held.lock),
        [_, others @ ..] => latest(others),
    }
}

/// The latest lock that an instruction holds while it gives an operation away.
fn locked_in(instruction: &Instruction, locks: &[HeldLock]) -> Option<LockNumber>
    ensures { result ≡ spec.locked_in instruction.now locks.now }
{
    match instruction {
        Instruction::Call(call, _, _) => {
            if gives_away(call.roles().call) {
                latest(locks)
            } else {
                None
            }
        }
        _ => None,
    }
}

/// The latest lock that a point holds while it gives an operation away.
fn locked_at(graph: &Graph, cert: &FullCert, site: Site) -> Option<LockNumber>
    ensures { result ≡ spec.locked_at graph.now cert.now site }
{
    let state = cert.state(site.callback, site.point)?;
    let instruction = graph.instruction_ref(site.callback, site.point);
    locked_in(instruction, state.locks().as_slice())
}

/// The warning that a point gives an operation away while it holds a lock.
pub(crate) fn called_locked(graph: &Graph, cert: &FullCert, site: Site) -> Option<Warning>
    ensures { result ≡ spec.called_locked graph.now cert.now site }
{
    let lock = locked_at(graph, cert, site)?;
    Some(Warning::CalledLocked(site, lock))
}
