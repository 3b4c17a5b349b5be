//! The heap, and each kind of growth.

ghost use Rattle.std.specs.Prelude.{◌≡◌, ◌≢◌, ◌≤◌, ◌<◌, ◌+◌, ◌++◌, ◌∷◌, [], ℕ, true, false, IfOk, OnOk, OnErr};
ghost use Rattle.std.specs.Prelude.{Some, None, is_ok, if◌then◌else◌, vec_len, vec_capacity, replicate, IsOk};
ghost use Rattle.std.specs.BTreeMap as map;
ghost use Rattle.std.specs.BTreeSet as set;
ghost use Rattle.std.specs.VecDeque.{deque_len, deque_capacity};
ghost use Rattle.slab.specs.Slab.{HasRoomFor};

use slab::Slab;
use sqlite_items::Items;
use std::alloc::{AllocError, Global};
use std::collections::{BTreeMap, BTreeSet, VecDeque};
use std::marker::Model;

/// A source of memory. Contracts see how many requests it refused, modulo 2^64; so they compare the count before a call and after it.
#[derive(Drop)]
pub struct Heap {
    alloc: Global,
    refused: u64,
}

impl Model for Heap {
    ghost use Rattle.std.specs.Prelude.{ℕ};

    ghost Value = { ℕ };

    ghost view = { λ h. h.refused };
}

impl Heap {
    /// Nothing was refused yet.
    pub fn new(alloc: Global) -> Heap
        ensures { result ≡ 0 }
    {
        Heap { alloc, refused: 0 }
    }

    /// The allocator, for making a list that has no room yet.
    pub fn alloc(&self) -> Global {
        self.alloc
    }

    /// A request was refused.
    fn count(&mut self) -> AllocError
        ensures { self.new ≢ self.old }
    {
        self.refused = self.refused.wrapping_add(1);
        AllocError
    }

    /// A list of so many marks, none of them set.
    pub fn marks(&mut self, count: usize) -> Result<Vec<bool>, AllocError>
        ensures items { IfOk result (λ list. list.items ≡ replicate count false) }
        ensures granted { OnOk result (self.new ≡ self.old) }
        ensures memory { OnErr result (self.new ≢ self.old) }
    {
        match vec![in self.alloc; false; count] {
            Ok(list) => Ok(list),
            Err(_) => Err(self.count()),
        }
    }

    /// Puts a value after the others of a list.
    pub fn push<T: Drop>(&mut self, list: &mut Vec<T>, value: T) -> Result<(), AllocError>
        ensures items { list.new.items ≡ (if is_ok result then list.old.items ++ value ∷ [] else list.old.items) }
        ensures len { vec_len list.new ≡ (if is_ok result then vec_len list.old + 1 else vec_len list.old) }
        ensures capacity { vec_capacity list.old ≤ vec_capacity list.new }
        ensures full { OnErr result (vec_capacity list.old ≤ vec_len list.old) }
        ensures granted { OnOk result (self.new ≡ self.old) }
        ensures memory { OnErr result (self.new ≢ self.old) }
    {
        match list.push(value) {
            Ok(()) => Ok(()),
            Err(_) => Err(self.count()),
        }
    }

    /// Makes room for so many more values in a list.
    pub fn reserve<T>(&mut self, list: &mut Vec<T>, additional: usize) -> Result<(), AllocError>
        ensures items { list.new.items ≡ list.old.items }
        ensures len { vec_len list.new ≡ vec_len list.old }
        ensures ok { OnOk result (vec_len list.new + additional ≤ vec_capacity list.new) }
        ensures capacity { vec_capacity list.old ≤ vec_capacity list.new }
        ensures full { OnErr result (vec_capacity list.old < vec_len list.old + additional) }
        ensures granted { OnOk result (self.new ≡ self.old) }
        ensures memory { OnErr result (self.new ≢ self.old) }
    {
        match list.reserve(additional) {
            Ok(()) => Ok(()),
            Err(_) => Err(self.count()),
        }
    }

    /// Puts a value after the others.
    pub fn push_item<T: Drop>(&mut self, items: &mut Items<T>, value: T) -> Result<(), AllocError>
        ensures ok { OnOk result (items.new ≡ items.old ++ value ∷ []) }
        ensures err { OnErr result (items.new ≡ items.old) }
        ensures granted { OnOk result (self.new ≡ self.old) }
        ensures memory { OnErr result (self.new ≢ self.old) }
    {
        match items.push(value) {
            Ok(()) => Ok(()),
            Err(_) => Err(self.count()),
        }
    }

    /// Puts a value after the others of a queue.
    pub fn push_back<T: Drop>(
        &mut self,
        queue: &mut VecDeque<T>,
        value: T,
    ) -> Result<(), AllocError>
        ensures items { queue.new.items ≡ (if is_ok result then queue.old.items ++ value ∷ [] else queue.old.items) }
        ensures full { OnErr result (deque_capacity queue.old ≤ deque_len queue.old) }
        ensures granted { OnOk result (self.new ≡ self.old) }
        ensures memory { OnErr result (self.new ≢ self.old) }
    {
        match queue.push_back(value) {
            Ok(()) => Ok(()),
            Err(_) => Err(self.count()),
        }
    }

    /// Makes room for so many more values in a queue.
    pub fn reserve_queue<T>(
        &mut self,
        queue: &mut VecDeque<T>,
        additional: usize,
    ) -> Result<(), AllocError>
        ensures items { queue.new.items ≡ queue.old.items }
        ensures len { deque_len queue.new ≡ deque_len queue.old }
        ensures capacity { deque_capacity queue.old ≤ deque_capacity queue.new }
        ensures ok { OnOk result (deque_len queue.new + additional ≤ deque_capacity queue.new) }
        ensures full { OnErr result (deque_capacity queue.old < deque_len queue.old + additional) }
        ensures granted { OnOk result (self.new ≡ self.old) }
        ensures memory { OnErr result (self.new ≢ self.old) }
    {
        match queue.reserve(additional) {
            Ok(()) => Ok(()),
            Err(_) => Err(self.count()),
        }
    }

    /// Makes room for so many more values in a table.
    pub fn reserve_rows<T>(
        &mut self,
        rows: &mut Slab<T>,
        additional: usize,
    ) -> Result<(), AllocError>
        ensures room { OnOk result (HasRoomFor rows.new additional) }
        ensures capacity { rows.old.capacity ≤ rows.new.capacity }
        ensures rest_kept { rows.new ≡ record rows.old { capacity = rows.new.capacity } }
        ensures succeeds { HasRoomFor rows.old additional → IsOk result }
        ensures granted { OnOk result (self.new ≡ self.old) }
        ensures memory { OnErr result (self.new ≢ self.old) }
    {
        match rows.reserve(additional) {
            Ok(()) => Ok(()),
            Err(_) => Err(self.count()),
        }
    }

    /// Puts a key in a set. It answers whether the key is new.
    pub fn add<K: Ord + Drop>(&mut self, keys: &mut BTreeSet<K>, key: K) -> Result<bool, AllocError>
        ensures updates { OnOk result (set.Updates K.cmp keys.old keys.new key true) }
        ensures err { OnErr result (set.IsUnchanged keys.old keys.new) }
        ensures absent { OnErr result (set.contains K.cmp keys.old key ≡ false) }
        ensures granted { OnOk result (self.new ≡ self.old) }
        ensures memory { OnErr result (self.new ≢ self.old) }
    {
        match keys.insert(key) {
            Ok(is_new) => Ok(is_new),
            Err(_) => Err(self.count()),
        }
    }

    /// Puts a value at a key of a map, in place of the one that was there.
    pub fn put<K: Ord + Drop, V: Drop>(
        &mut self,
        entries: &mut BTreeMap<K, V>,
        key: K,
        value: V,
    ) -> Result<Option<V>, AllocError>
        ensures old { IfOk result (λ old. old ≡ map.get K.cmp entries.old key) }
        ensures updates { OnOk result (map.Updates K.cmp entries.old entries.new key (Some value)) }
        ensures err { OnErr result (map.IsUnchanged entries.old entries.new) }
        ensures absent { OnErr result (map.get K.cmp entries.old key ≡ None) }
        ensures granted { OnOk result (self.new ≡ self.old) }
        ensures memory { OnErr result (self.new ≢ self.old) }
    {
        match entries.insert(key, value) {
            Ok(old) => Ok(old),
            Err(_) => Err(self.count()),
        }
    }

    /// A value in a place of its own.
    pub fn boxed<T: Drop>(&mut self, value: T) -> Result<Box<T>, AllocError>
        ensures ok { IfOk result (λ b. b.value ≡ value) }
        ensures granted { OnOk result (self.new ≡ self.old) }
        ensures memory { OnErr result (self.new ≢ self.old) }
    {
        match Box::new(self.alloc, value) {
            Ok(boxed) => Ok(boxed),
            Err(_) => Err(self.count()),
        }
    }
}
