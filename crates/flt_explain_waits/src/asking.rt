//! The lock that a statement asks for before it continues.

ghost use Rattle.std.specs.Prelude.{◌≡◌};
ghost use Rattle.flt_tree.specs.declared.filter.Statement.{out-Statement};
ghost use Rattle.flt_explain_waits.specs.Asking as spec;

use flt_rules::{Access, LockNumber};
use flt_tree::{PlainCall, Span, Statement};

/// A lock that a statement asks for: the place of the statement, and how it takes the lock.
#[derive(Clone, Copy)]
pub(crate) struct Request {
    pub(crate) span: Span,
    pub(crate) lock: LockNumber,
    pub(crate) access: Access,
}

/// The lock that a statement takes, if it takes one.
pub(crate) fn asked(statement: &Statement) -> Option<Request>
    ensures { result ≡ spec.asked (out-Statement statement.now) }
{
    match statement {
        Statement::Call(span, PlainCall::AcquireLock(_, lock)) => Some(Request {
            span: *span,
            lock: *lock,
            access: Access::Exclusive,
        }),
        Statement::Call(span, PlainCall::AcquirePushLockShared(lock)) => Some(Request {
            span: *span,
            lock: *lock,
            access: Access::Shared,
        }),
        _ => None,
    }
}
