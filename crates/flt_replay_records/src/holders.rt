//! The holders of a lock of a filter. Taking it, giving it up and asking whether it is free need no walk over its holders.

ghost use Rattle.std.specs.Prelude.{◌≡◌, ◌++◌, ◌∷◌, ◌==◌, ℕ, List, [], Option, false, true, not, filter, IfOk, OnOk, OnErr};
ghost use Rattle.std.specs.List.{list_all};
ghost use Rattle.flt_model.specs.Locks as spec;
ghost use Rattle.flt_model.specs.declared.parts.Holder.{Holder};
ghost use Rattle.flt_replay_records.specs.Slots.{left, is_own, is_slot_of, may_join_slot, no_other, ArePlaces};
ghost use Rattle.flt_rules.specs.Held.{same_access};
ghost use Rattle.flt_rules.specs.declared.held.Access.{Access};

use flt_model::Holder;
use flt_rules::Access;
use std::alloc::{AllocError, Global};
use std::collections::BTreeMap;
use std::marker::Model;

/// The holders of a lock, in the order in which they took it.
#[derive(Drop)]
pub struct Holders {
    /// None if the holder gave the lock up.
    slots: Vec<Option<Holder>>,
    /// The slot of each activation that holds the lock exclusively.
    exclusive: BTreeMap<usize, usize>,
    /// The slot of each activation that shares it.
    shared: BTreeMap<usize, usize>,
    /// Whether an activation took the lock twice in the same mode, which no step does: the slots are walked from then on.
    is_walked: bool,
}

impl Model for Holders {
    ghost use Rattle.std.specs.Prelude.{◌≡◌, List, false};
    ghost use Rattle.flt_model.specs.declared.parts.Holder.{Holder};

    ghost Value = { List Holder };

    ghost use Rattle.flt_replay_records.specs.Slots.{left, AreSlots};

    ghost view = { λ h. left h.slots.items };

    ghost invariant = { λ h. h.is_walked ≡ false → AreSlots h.slots.items h.exclusive.entries h.shared.entries };
}

impl Holders {
    /// Nobody.
    pub fn new(alloc: Global) -> Holders
        ensures { result ≡ [] }
    {
        Holders {
            slots: Vec::new(alloc),
            exclusive: BTreeMap::new(alloc),
            shared: BTreeMap::new(alloc),
            is_walked: false,
        }
    }

    /// Adds a holder.
    pub fn push(&mut self, holder: Holder) -> Result<(), AllocError>
        ensures ok { OnOk result (self.new ≡ self.old ++ holder ∷ []) }
        ensures err { OnErr result (self.new ≡ self.old) }
    {
        if holder.access.is_same(Access::Exclusive) {
            self.is_walked |= add(&mut self.slots, &mut self.exclusive, holder)?;
            return Ok(());
        }
        self.is_walked |= add(&mut self.slots, &mut self.shared, holder)?;
        Ok(())
    }

    /// Removes an activation from the holders.
    pub fn remove(&mut self, activation: usize)
        ensures { self.new ≡ filter (λ (h : Holder). not (h.activation == activation)) self.old }
    {
        if self.is_walked {
            drop_all(&mut self.slots, activation);
            return;
        }
        take_out(&mut self.slots, &mut self.exclusive, activation);
        take_out(&mut self.slots, &mut self.shared, activation);
        trim(&mut self.slots);
    }

    /// Whether an activation may take the lock with this access, beside those that hold it: shared if nobody else holds it exclusively,
    /// exclusive if nobody else holds it at all.
    pub fn is_free_for(&self, activation: usize, access: Access) -> bool
        ensures { result ≡ spec.is_free_for activation access self.now }
    {
        if self.is_walked {
            return may_join_all(activation, access, self.slots.as_slice());
        }
        if !has_no_other(&self.exclusive, activation) {
            return false;
        }
        match access {
            Access::Exclusive => has_no_other(&self.shared, activation),
            Access::Shared => true,
        }
    }
}

/// Whether a slot is that of an activation.
fn is_slot_of(activation: usize, slot: &Option<Holder>) -> bool
    ensures { result ≡ is_slot_of activation slot.now }
{
    match slot {
        Some(holder) => holder.activation == activation,
        None => false,
    }
}

/// Whether an activation may take the lock so beside the holder of a slot.
fn may_join(activation: usize, access: Access, slot: &Option<Holder>) -> bool
    ensures { result ≡ may_join_slot activation access slot.now }
{
    match slot {
        Some(holder) => holder.activation == activation || access.is_compatible(holder.access),
        None => true,
    }
}

/// The same for all slots.
fn may_join_all(activation: usize, access: Access, slots: &[Option<Holder>]) -> bool
    ensures { result ≡ list_all (may_join_slot activation access) slots.now }
{
    slots.iter().all(|slot| may_join(activation, access, slot))
}

/// Drops all slots of an activation.
fn drop_all(slots: &mut Vec<Option<Holder>>, activation: usize)
    ensures { slots.new.items ≡ filter (λ (s : Option Holder). not (is_slot_of activation s)) slots.old.items }
{
    slots.retain(|slot| !is_slot_of(activation, slot));
}

/// Whether no activation but this one has a place.
fn has_no_other(places: &BTreeMap<usize, usize>, activation: usize) -> bool
    ensures { (access : Access) (slots : List (Option Holder)) → ArePlaces access slots places.now.entries →
        result ≡ no_other access activation (left slots) }
{
    if places.contains_key(&activation) {
        places.len() == 1
    } else {
        places.is_empty()
    }
}

/// Adds a slot for one more holder, and its place among these. True if the activation had a place before.
fn add(
    slots: &mut Vec<Option<Holder>>,
    places: &mut BTreeMap<usize, usize>,
    holder: Holder,
) -> Result<bool, AllocError>
    ensures left { OnOk result (left slots.new.items ≡ left slots.old.items ++ holder ∷ []) }
    ensures places { IfOk result (λ had. had ≡ false → (access : Access) → same_access access holder.access ≡ true →
        ArePlaces access slots.old.items places.old.entries → ArePlaces access slots.new.items places.new.entries) }
    ensures others { OnOk result ((other : Access) (others : List (ℕ × ℕ)) → same_access other holder.access ≡ false →
        ArePlaces other slots.old.items others → ArePlaces other slots.new.items others) }
    ensures err { OnErr result ((slots.new.items ≡ slots.old.items) × (places.new.entries ≡ places.old.entries)) }
{
    slots.reserve(1)?;
    let place = slots.len();
    let earlier = places.insert(holder.activation, place)?;
    slots.push_reserved(Some(holder));
    Ok(earlier.is_some())
}

/// Empties the slot of an activation, if it has a place.
fn take_out(slots: &mut Vec<Option<Holder>>, places: &mut BTreeMap<usize, usize>, activation: usize)
    ensures left { (access : Access) → ArePlaces access slots.old.items places.old.entries →
        left slots.new.items ≡ filter (λ (h : Holder). not (is_own access activation h)) (left slots.old.items) }
    ensures places { (access : Access) → ArePlaces access slots.old.items places.old.entries →
        ArePlaces access slots.new.items places.new.entries }
    ensures others { (access other : Access) (others : List (ℕ × ℕ)) → ArePlaces access slots.old.items places.old.entries →
        same_access access other ≡ false → ArePlaces other slots.old.items others → ArePlaces other slots.new.items others }
{
    let Some(place) = places.remove(&activation) else {
        return;
    };
    if let Some(slot) = slots.get_mut(place) {
        *slot = None;
    }
}

/// Drops the empty slots at the end.
fn trim(slots: &mut Vec<Option<Holder>>)
    ensures left { left slots.new.items ≡ left slots.old.items }
    ensures places { (access : Access) (places : List (ℕ × ℕ)) → ArePlaces access slots.old.items places →
        ArePlaces access slots.new.items places }
{
    while let Some(None) = slots.last() {
        let _ = slots.pop();
    }
}
