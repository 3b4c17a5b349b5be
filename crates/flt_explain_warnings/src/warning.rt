//! A warning, with its kind and its place.

ghost use Rattle.std.specs.Prelude.{◌≡◌};
ghost use Rattle.flt_explain_warnings.specs.Warning as spec;

use flt_order::Circle;
use flt_rules::LockNumber;

/// The kinds of warnings, by number.
#[derive(Clone, Copy)]
pub enum Kind {
    /// A comment that allows no warning.
    W00,
    W01,
    W02,
    W03,
    W04,
    W05,
    W06,
    W07,
}

/// A point of a callback. Both count from 0.
#[derive(Clone, Copy)]
pub struct Site {
    pub callback: usize,
    pub point: usize,
}

/// A warning, with what it is about. A text that has some is accepted all the same.
#[derive(Drop)]
pub enum Warning {
    /// W01: no order of the locks allows all that the text does. Each acquisition of the circle takes the lock that the one before it
    /// holds, and the first takes the one that the last holds.
    LockCircle(Circle),
    /// W02: a call after which the system may run other code of the filter, and the latest of the locks that are held there.
    CalledLocked(Site, LockNumber),
    /// W03: an insert, in a text that removes nothing from its queue.
    NeverRemoved(Site),
    /// W03: an insert, and the point of the same callback that returns PENDING after it, without a work item queued that removes.
    LeftPended(Site, usize),
    /// W04: a write of the value of a context that others may have, and the first use of such a value with which it has no lock in
    /// common: a read of the same callback, or a write of another one.
    ChangedUnlocked(Site, Site),
    /// W05: a call that sets a context unless there is one, and the first point of the same callback that uses that context after the call
    /// fails.
    LostContext(Site, usize),
    /// W06: a lock that no call names.
    UnusedLock(LockNumber),
    /// W06: a callback, by its number from 0, that nothing starts: a routine, a post callback or `canceled`.
    UnusedCallback(usize),
    /// W06: the first of some statements that follow one another and that no path reaches.
    Unreached(Site),
    /// W06: a test that no run passes, since it compares a variable of numbers that nothing writes.
    NeverHolds(Site),
    /// W07: a call that needs the instance, in `canceled` or in the routine of a deferred work item, where no operation is surely held.
    CalledLate(Site),
}

impl Warning {
    pub fn kind(&self) -> Kind
        ensures { result ≡ spec.kind_of self.now }
    {
        match self {
            Warning::LockCircle(_) => Kind::W01,
            Warning::CalledLocked(_, _) => Kind::W02,
            Warning::NeverRemoved(_) | Warning::LeftPended(_, _) => Kind::W03,
            Warning::ChangedUnlocked(_, _) => Kind::W04,
            Warning::LostContext(_, _) => Kind::W05,
            Warning::UnusedLock(_)
            | Warning::UnusedCallback(_)
            | Warning::Unreached(_)
            | Warning::NeverHolds(_) => Kind::W06,
            Warning::CalledLate(_) => Kind::W07,
        }
    }

    /// The point that the warning is about: of a circle its first acquisition. `None` if it is about the declaration of a lock or of a
    /// callback.
    pub fn site(&self) -> Option<Site>
        ensures { result ≡ spec.site_of self.now }
    {
        match self {
            Warning::LockCircle(circle) => first_site(circle),
            Warning::CalledLocked(site, _)
            | Warning::NeverRemoved(site)
            | Warning::LeftPended(site, _)
            | Warning::ChangedUnlocked(site, _)
            | Warning::LostContext(site, _)
            | Warning::Unreached(site)
            | Warning::NeverHolds(site)
            | Warning::CalledLate(site) => Some(*site),
            Warning::UnusedLock(_) | Warning::UnusedCallback(_) => None,
        }
    }
}

/// The point of the first acquisition of a circle.
fn first_site(circle: &Circle) -> Option<Site>
    ensures { result ≡ spec.first_site circle.now }
{
    match circle.acquisitions() {
        [first, ..] => Some(Site {
            callback: first.callback,
            point: first.point,
        }),
        [] => None,
    }
}
