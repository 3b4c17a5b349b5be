//! How far a worker has come.
ghost use Rattle.std.specs.Prelude.{◌≡◌, ◌↔◌, IsTrue};

use flt_pool::Gate;

/// A worker's number, from 0 on, and how many changes it has announced to a gate.
#[derive(Drop)]
pub(crate) struct Pace {
    pub(crate) number: usize,
    changes: u64,
}

impl Pace {
    /// The worker of this number, before its first change.
    pub(crate) fn new(number: usize) -> Pace {
        Pace { number, changes: 0 }
    }

    /// Whether the worker is the one that collects requests.
    pub(crate) fn collects(&self) -> bool
        ensures { IsTrue result ↔ (self.now.number ≡ 0) }
    {
        self.number == 0
    }

    /// A change is about to be made: the gate is called before it.
    pub(crate) fn pass<G: Gate>(&mut self, gate: &mut G) {
        gate.before(self.number, self.changes);
        self.changes = self.changes.saturating_add(1);
    }
}
