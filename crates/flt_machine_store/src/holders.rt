//! The holders of a filter's locks.

ghost use Rattle.std.specs.Prelude.{◌≡◌, ◌≢◌, [], ◌∷◌, ◌++◌, not, ◌==◌, filter, replicate, set, get_or, OnOk, OnErr};
ghost use Rattle.std.specs.List.{list_all};
ghost use Rattle.flt_model.specs.Locks as spec;
ghost use Rattle.flt_model.specs.declared.parts.Holder.{Holder};
ghost use Rattle.flt_machine_store.specs.Holding.{is_free, is_of, weight};

use crate::places::Places;
use counted_heap::Heap;
use flt_model::Holder;
use flt_rules::Access;
use std::alloc::{AllocError, Global};
use std::marker::Model;

/// The holders of a lock, in the order in which they took it. One is found by its activation, and counts decide whether a lock may be
/// taken. The holders are searched only if an activation once took the lock while it held it, which no callback's step does.
#[derive(Drop)]
pub(crate) struct Holders {
    /// In the order in which they took it. A holder that gave it back leaves an empty place until nobody holds the lock.
    places: Vec<Option<Holder>>,
    noted: Places,
    count: usize,
    /// How many hold it alone.
    alone: usize,
    repeats: bool,
}

impl Model for Holders {
    ghost use Rattle.std.specs.Prelude.{List};
    ghost use Rattle.flt_model.specs.declared.parts.Holder.{Holder};
    ghost use Rattle.flt_machine_store.specs.Holding.{AreHeld, standing};

    ghost Value = { List Holder };

    ghost view = { λ h. standing h.places.items };

    ghost invariant = { λ h. AreHeld h.places.items h.noted h.count h.alone h.repeats };
}

impl Holders {
    /// Nobody.
    pub(crate) fn new(alloc: Global) -> Holders
        ensures { result ≡ [] }
    {
        Holders {
            places: Vec::new(alloc),
            noted: Places::new(alloc),
            count: 0,
            alone: 0,
            repeats: false,
        }
    }

    /// Adds a holder.
    pub(crate) fn push(&mut self, heap: &mut Heap, holder: Holder) -> Result<(), AllocError>
        ensures ok { OnOk result (self.new ≡ self.old ++ holder ∷ []) }
        ensures refused { OnErr result (self.new ≡ self.old) }
        ensures granted { OnOk result (heap.new ≡ heap.old) }
        ensures memory { OnErr result (heap.new ≢ heap.old) }
    {
        heap.reserve(&mut self.places, 1)?;
        let place = self.places.len();
        let (false, None) = (self.repeats, self.noted.get(holder.activation)) else {
            self.repeats = true;
            self.places.push_reserved(Some(holder));
            return Ok(());
        };
        self.noted.insert(heap, holder.activation, place)?;
        self.count += 1;
        self.alone += alone(holder.access);
        self.places.push_reserved(Some(holder));
        Ok(())
    }

    /// The activation is a holder no longer.
    pub(crate) fn remove(&mut self, activation: usize)
        ensures { self.new ≡ filter (λ (h : Holder). not (h.activation == activation)) self.old }
    {
        if self.repeats {
            keep_others(&mut self.places, activation);
            return;
        }
        let Some(place) = self.noted.get(activation) else {
            return;
        };
        let Some(holder) = self.places[place] else {
            return;
        };
        self.noted.remove(activation);
        self.places[place] = None;
        self.count -= 1;
        self.alone -= alone(holder.access);
        if self.count == 0 {
            self.places.clear();
        }
    }

    /// Whether an activation may take the lock with this access, beside those that hold it: shared if nobody else holds it exclusively,
    /// exclusive if nobody else holds it at all.
    pub(crate) fn is_free_for(&self, activation: usize, access: Access) -> bool
        ensures { result ≡ spec.is_free_for activation access self.now }
    {
        if self.repeats {
            return let_all(self.places.as_slice(), activation, access);
        }
        let Some(place) = self.noted.get(activation) else {
            return match access {
                Access::Shared => self.alone == 0,
                Access::Exclusive => self.count == 0,
            };
        };
        match (access, self.places[place]) {
            (Access::Shared, Some(holder)) => self.alone == alone(holder.access),
            (Access::Shared, None) => self.alone == 0,
            (Access::Exclusive, _) => self.count == 1,
        }
    }
}

/// Keeps the holders at the places, without an activation.
fn keep_others(places: &mut Vec<Option<Holder>>, activation: usize)
    ensures { places.new.items ≡ filter (λ o. not (is_of activation o)) places.old.items }
{
    places.retain(|held| !is_held_by(activation, held));
}

/// Whether all holders at the places let an activation take the lock with this access.
fn let_all(places: &[Option<Holder>], activation: usize, access: Access) -> bool
    ensures { result ≡ list_all (is_free activation access) places.now }
{
    places.iter().all(|held| may_join(activation, access, held))
}

/// How many of one holder hold the lock alone.
fn alone(access: Access) -> usize
    ensures { result ≡ weight access }
{
    match access {
        Access::Exclusive => 1,
        Access::Shared => 0,
    }
}

fn is_held_by(activation: usize, held: &Option<Holder>) -> bool
    ensures { result ≡ is_of activation held.now }
{
    match held {
        Some(holder) => holder.activation == activation,
        None => false,
    }
}

/// Whether an activation may take the lock with this access beside the holder at a place.
fn may_join(activation: usize, access: Access, held: &Option<Holder>) -> bool
    ensures { result ≡ is_free activation access held.now }
{
    match held {
        Some(holder) => { holder.activation == activation || access.is_compatible(holder.access) }
        None => true,
    }
}

/// Locks that nobody holds.
pub(crate) fn unheld(alloc: Global) -> [Holders; 8]
    ensures { result ≡ replicate 8 [] }
{
    [
        Holders::new(alloc),
        Holders::new(alloc),
        Holders::new(alloc),
        Holders::new(alloc),
        Holders::new(alloc),
        Holders::new(alloc),
        Holders::new(alloc),
        Holders::new(alloc),
    ]
}
