//! W04: a value changed without a lock.

ghost use Rattle.std.specs.Prelude.{◌≡◌};
ghost use Rattle.std.specs.List.{find, list_any};
ghost use Rattle.flt_explain_warnings.specs.Changed as spec;

use crate::shared::{SharedUse, Usage, same_anchor};
use crate::warning::{Site, Warning};
use flt_cert::FullCert;
use flt_rules::HeldLock;

// ---- locks

/// Whether two held locks are one that excludes one of the two.
fn excludes(one: HeldLock, other: HeldLock) -> bool
    ensures { result ≡ spec.excludes one other }
{
    one.lock.is_same(other.lock) && !one.access.is_compatible(other.access)
}

fn excludes_some(one: HeldLock, locks: &[HeldLock]) -> bool
    ensures { result ≡ list_any (spec.excludes one) locks.now }
{
    locks.iter().any(|other| excludes(one, *other))
}

/// Whether some lock keeps two points apart where these locks are held.
fn keeps_apart(locks: &[HeldLock], others: &[HeldLock]) -> bool
    ensures { result ≡ spec.keeps_apart locks.now others.now }
{
    locks.iter().any(|one| excludes_some(*one, others))
}

/// Whether two points are reached and no lock keeps them apart.
fn may_meet(cert: &FullCert, one: Site, other: Site) -> bool
    ensures { result ≡ spec.may_meet cert.now one other }
{
    let Some(state) = cert.state(one.callback, one.point) else {
        return false;
    };
    let Some(beside) = cert.state(other.callback, other.point) else {
        return false;
    };
    !keeps_apart(state.locks().as_slice(), beside.locks().as_slice())
}

// ---- uses

/// Whether a use reads the value in a callback of a number, or writes it in another one.
fn disturbs(callback: usize, other: SharedUse) -> bool
    ensures { result ≡ spec.disturbs callback other }
{
    match other.usage {
        Usage::Read => other.site.callback == callback,
        Usage::Write => other.site.callback != callback,
        Usage::HandOver => false,
    }
}

/// Whether a use is a write that another one disturbs.
fn clashes(cert: &FullCert, write: SharedUse, other: SharedUse) -> bool
    ensures { result ≡ spec.clashes cert.now write other }
{
    matches!(write.usage, Usage::Write)
        && same_anchor(write.anchor, other.anchor)
        && disturbs(write.site.callback, other)
        && may_meet(cert, write.site, other.site)
}

/// The first use that disturbs a write.
fn opponent(cert: &FullCert, uses: &[SharedUse], write: SharedUse) -> Option<SharedUse>
    ensures { result ≡ find (spec.clashes cert.now write) uses.now }
{
    for other in uses {
        if clashes(cert, write, *other) {
            return Some(*other);
        }
    }
    None
}

/// Whether a use is a write at a point that another one disturbs.
fn is_opposed(cert: &FullCert, uses: &[SharedUse], site: Site, write: SharedUse) -> bool
    ensures { result ≡ spec.is_opposed cert.now uses.now site write }
{
    write.site.callback == site.callback
        && write.site.point == site.point
        && opponent(cert, uses, write).is_some()
}

/// The first write at a point that another use disturbs.
fn opposed_at(cert: &FullCert, uses: &[SharedUse], site: Site) -> Option<SharedUse>
    ensures { result ≡ find (spec.is_opposed cert.now uses.now site) uses.now }
{
    for write in uses {
        if is_opposed(cert, uses, site, *write) {
            return Some(*write);
        }
    }
    None
}

/// The warning that a point writes a value that another one reads or writes at the same time.
pub(crate) fn changed_unlocked(cert: &FullCert, uses: &[SharedUse], site: Site) -> Option<Warning>
    ensures { result ≡ spec.changed_unlocked cert.now uses.now site }
{
    let write = opposed_at(cert, uses, site)?;
    let other = opponent(cert, uses, write)?;
    Some(Warning::ChangedUnlocked(site, other.site))
}
