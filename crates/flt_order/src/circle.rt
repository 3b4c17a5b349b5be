//! A circle of locks: from a lock that has no rank back to one that is held where it is taken, and so on, until a lock comes again.

ghost use Rattle.std.specs.Prelude.{◌≡◌, ◌<◌, ◌≤◌, ◌↔◌, ◌++◌, [], ◌∷◌, length, true, option_map, drop, IfNone, IfSome, IsNone};
ghost use Rattle.flt_check.specs.Covering.{Covers};
ghost use Rattle.flt_order.specs.Circle as spec;
ghost use Rattle.flt_order.specs.Order as order;

use crate::order::{Acquisition, any_left, is_left, reduce, remove, taken_from};
use flt_cert::FullCert;
use flt_graph::Graph;
use flt_rules::LockNumber;
use std::marker::Model;

/// The value of an unused place of a path.
const UNUSED: Acquisition = Acquisition {
    callback: 0,
    point: 0,
    line: 0,
    taken: LockNumber::L0,
    holding: LockNumber::L0,
};

/// Acquisitions in their order, eight at most: there are eight locks.
#[derive(Drop)]
struct Path {
    acquisitions: [Acquisition; 8],
    length: usize,
}

impl Model for Path {
    ghost use Rattle.std.specs.Prelude.{◌≤◌, List, take};
    ghost use Rattle.flt_order.specs.declared.order.Acquisition.{Acquisition};

    ghost Value = { List Acquisition };

    ghost view = { λ p. take p.length p.acquisitions };

    ghost invariant = { λ p. p.length ≤ 8 };
}

impl Path {
    fn new() -> Path
        ensures { result ≡ [] }
    {
        Path {
            acquisitions: [UNUSED; 8],
            length: 0,
        }
    }

    fn push(&mut self, acquisition: Acquisition)
        requires { length self.old < 8 }
        ensures { self.new ≡ self.old ++ acquisition ∷ [] }
    {
        self.acquisitions[self.length] = acquisition;
        self.length += 1;
    }

    fn as_slice(&self) -> &[Acquisition]
        ensures { result.now ≡ self.now }
    {
        &self.acquisitions[..self.length]
    }
}

/// Acquisitions in a circle: each takes the lock that the one before it holds, and the first takes the one that the last holds.
#[derive(Drop)]
pub struct Circle {
    path: Path,
    start: usize,
}

impl Model for Circle {
    ghost use Rattle.std.specs.Prelude.{◌≤◌, List, drop, length};
    ghost use Rattle.flt_order.specs.declared.order.Acquisition.{Acquisition};

    ghost Value = { List Acquisition };

    ghost view = { λ c. drop c.start c.path };

    ghost invariant = { λ c. c.start ≤ length c.path };
}

impl Circle {
    /// The acquisitions, from any one of them on.
    pub fn acquisitions(&self) -> &[Acquisition]
        ensures { result.now ≡ self.now }
    {
        &self.path.as_slice()[self.start..]
    }
}

/// The number of the first acquisition that takes the lock.
fn first_taken(acquisitions: &[Acquisition], lock: LockNumber) -> Option<usize>
    ensures within { IfSome result (λ n. n < length acquisitions.now) }
    ensures value { option_map (λ n. drop n acquisitions.now) result ≡ spec.from_taken lock acquisitions.now }
{
    for number in 0..acquisitions.len() {
        if lock.is_same(acquisitions[number].taken) {
            return Some(number);
        }
    }
    None
}

/// The acquisitions of a path from the first on that takes the lock.
fn from_taken(path: Path, lock: LockNumber) -> Option<Circle>
    ensures { result ≡ spec.from_taken lock path }
{
    let start = first_taken(path.as_slice(), lock)?;
    Some(Circle { path, start })
}

/// A circle that is met on the path back from a lock that is left; there is one if each lock that is left is taken while one is held.
fn circle_from(graph: &Graph, cert: &FullCert, left: &[bool; 8], lock: LockNumber) -> Option<Circle>
    requires { order.is_left left.now lock ≡ true }
    ensures circle { IfSome result (spec.IsCircle graph.now cert.now) }
    ensures once { IfSome result spec.TakesOnce }
    ensures none { IfNone result (order.AreTakenBefore graph.now cert.now left.now 8 → ⊥) }
{
    let mut path = Path::new();
    let mut unmet = [true; 8];
    let mut last = lock;
    for met in 0..8usize {
        let found = taken_from(graph, cert, left, last)?;
        path.push(found);
        remove(&mut unmet, last);
        if !is_left(&unmet, found.holding) {
            return from_taken(path, found.holding);
        }
        last = found.holding;
    }
    None
}

/// A circle of acquisitions, by a certificate; none exactly if locks are taken in an order. If the certificate covers the graph, a circle
/// has two acquisitions or more, since no lock is taken that is held. There are eight at most: no two take one lock. It takes no memory.
pub fn find_circle(graph: &Graph, cert: &FullCert) -> Option<Circle>
    ensures ordered { IsNone result ↔ order.TakesInOrder graph.now cert.now }
    ensures circle { IfSome result (spec.IsCircle graph.now cert.now) }
    ensures once { IfSome result spec.TakesOnce }
    ensures two { Covers graph.now cert.now → IfSome result (λ c. 2 ≤ length c) }
{
    let left = reduce(graph, cert);
    let lock = any_left(&left)?;
    circle_from(graph, cert, &left, lock)
}

/// A circle of acquisitions refutes every order. It does nothing: its clause is the law.
pub fn circles_have_no_order()
    ensures { spec.CirclesHaveNoOrder }
{}
