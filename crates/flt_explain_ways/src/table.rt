//! A table of numbers by their keys, with open addressing.

use std::alloc::{AllocError, Global};

/// How many slots a table has at first.
const SLOTS: usize = 256;

/// How many slots are tried at most, since a table is never more than half full.
const TRIES: usize = 1_000_000;

/// The key of a number: a point, all that is possible there, and a list of locks.
#[derive(Clone, Copy)]
pub(crate) struct Key {
    pub(crate) point: usize,
    pub(crate) possible: u64,
    pub(crate) list: usize,
}

#[derive(Clone, Copy)]
struct Slot {
    key: Key,
    number: usize,
}

/// The slot of a key's number, or the one where it would be put.
#[derive(Clone, Copy)]
enum Place {
    Found(usize),
    Free(usize),
    Full,
}

#[derive(Drop)]
pub(crate) struct Table {
    slots: Vec<Option<Slot>>,
    used: usize,
}

impl Key {
    fn is_same(self, other: Key) -> bool {
        self.point == other.point && self.possible == other.possible && self.list == other.list
    }

    /// The key spread over all bits of a number.
    fn spread(self) -> u64 {
        let number = (self.point as u64) ^ (self.list as u64).rotate_left(16);
        let first = (number ^ self.possible).wrapping_mul(0x9E37_79B9_7F4A_7C15);
        let second = (first ^ (first >> 29)).wrapping_add(self.point as u64);
        second.wrapping_mul(0xBF58_476D_1CE4_E5B9) >> 20
    }
}

fn slots_of(alloc: Global, count: usize) -> Result<Vec<Option<Slot>>, AllocError> {
    let mut slots = Vec::new(alloc);
    for _slot in 0..count {
        slots.push(None)?;
    }
    Ok(slots)
}

impl Table {
    pub(crate) fn new(alloc: Global) -> Result<Table, AllocError> {
        Ok(Table {
            slots: slots_of(alloc, SLOTS)?,
            used: 0,
        })
    }

    fn place(&self, key: Key) -> Place {
        let count = self.slots.len();
        if count == 0 {
            return Place::Full;
        }
        let mut at = (key.spread() % count as u64) as usize;
        for _try in 0..TRIES {
            match self.slots.get(at) {
                Some(Some(slot)) if slot.key.is_same(key) => return Place::Found(slot.number),
                Some(Some(_)) => {}
                _ => return Place::Free(at),
            }
            at = at.saturating_add(1) % count;
        }
        Place::Full
    }

    /// The number of a key, if it has one.
    pub(crate) fn find(&self, key: Key) -> Option<usize> {
        match self.place(key) {
            Place::Found(number) => Some(number),
            _ => None,
        }
    }

    fn put(&mut self, key: Key, number: usize) {
        if let Place::Free(at) = self.place(key) {
            if let Some(slot) = self.slots.get_mut(at) {
                *slot = Some(Slot { key, number });
            }
        }
    }

    /// Doubles the number of slots.
    fn grow(&mut self, alloc: Global) -> Result<(), AllocError> {
        let more = slots_of(alloc, self.slots.len().saturating_mul(2))?;
        let old = std::mem::replace(&mut self.slots, more);
        for slot in old.iter() {
            if let Some(slot) = slot {
                self.put(slot.key, slot.number);
            }
        }
        drop(old);
        Ok(())
    }

    /// Gives a key that has none a number.
    pub(crate) fn insert(
        &mut self,
        alloc: Global,
        key: Key,
        number: usize,
    ) -> Result<(), AllocError> {
        if self.used >= self.slots.len() / 2 {
            self.grow(alloc)?;
        }
        self.used = self.used.saturating_add(1);
        self.put(key, number);
        Ok(())
    }
}
