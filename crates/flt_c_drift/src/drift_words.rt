//! The words of drifts.

ghost use Rattle.std.specs.Prelude.{◌≡◌};
ghost use Rattle.flt_c_drift.specs.DriftWords as spec;

use crate::drift::DriftKind;

/// The code of a kind: `C00` to `C05`.
pub fn code(kind: DriftKind) -> &'static str
    ensures { result.now ≡ spec.code kind }
{
    match kind {
        DriftKind::Malformed => "C00",
        DriftKind::NotCalled => "C01",
        DriftKind::NotNamed => "C02",
        DriftKind::OtherStatus => "C03",
        DriftKind::NotAnnotated | DriftKind::NotRegistered => "C04",
        DriftKind::OtherOperation => "C04",
        DriftKind::OtherLock => "C05",
    }
}

/// Whether code and annotations differ. If not, it is a note.
pub fn is_difference(kind: DriftKind) -> bool
    ensures { result ≡ spec.is_difference kind }
{
    !matches!(kind, DriftKind::OtherOperation)
}

/// The beginning of a report, up to its code.
pub(crate) fn heading(kind: DriftKind) -> &'static [u8]
    ensures { result.now ≡ spec.heading kind }
{
    if is_difference(kind) {
        b"warning["
    } else {
        b"note["
    }
}

/// The words before the drift's own word.
pub(crate) fn opening(kind: DriftKind) -> &'static [u8]
    ensures { result.now ≡ spec.opening kind }
{
    match kind {
        DriftKind::Malformed => b"this comment declares no call: `",
        DriftKind::NotCalled => b"no code beside this annotation calls `",
        DriftKind::NotNamed => b"no annotation beside this call names `",
        DriftKind::OtherStatus => b"the code returns `",
        DriftKind::NotAnnotated => b"no annotation begins the registered callback `",
        DriftKind::NotRegistered => b"no table registers the annotated callback of `",
        DriftKind::OtherOperation => {
            b"callbacks of other operations aren't compared, beginning with `"
        }
        DriftKind::OtherLock => b"the code's lock is `",
    }
}

/// The words before the word that the annotations have in its place.
pub(crate) fn joint(kind: DriftKind) -> &'static [u8]
    ensures { result.now ≡ spec.joint kind }
{
    match kind {
        DriftKind::OtherLock => b"`, and its annotation's is `",
        _ => b"`, and its annotation returns `",
    }
}

/// The help: how both are made to agree.
pub fn help(kind: DriftKind) -> &'static str
    ensures { result.now ≡ spec.help kind }
{
    match kind {
        DriftKind::Malformed =>
            "write `//@flt-call NAME CALL`, where CALL is a call of the language",
        DriftKind::NotCalled =>
            "make the call, take it out of the annotation, or declare the function that makes it: `//@flt-call NAME CALL`",
        DriftKind::NotNamed => "annotate the call, or take it out of the code",
        DriftKind::OtherStatus => "return the same status in both",
        DriftKind::NotAnnotated => "annotate the callback, or take it out of the table",
        DriftKind::NotRegistered => "register the callback, or delete its annotation",
        DriftKind::OtherOperation =>
            "a text has callbacks of creates, reads, writes and cleanups alone",
        DriftKind::OtherLock =>
            "take the same lock in both, or declare one for each expression: `lock KIND NAME = EXPRESSION`",
    }
}
