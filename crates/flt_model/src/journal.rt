//! Journals as values.

ghost use Rattle.std.specs.Prelude.{◌≡◌, ◌≢◌, [], ◌∷◌, ◌++◌, length, slice_get, MatchOption, OnOk, OnErr};
ghost use Rattle.std.specs.Option.{option_copied};

use crate::moves::JournalEntry;
use counted_heap::Heap;
use sqlite_items::Items;
use std::alloc::{AllocError, Global};
use std::marker::Model;

/// The history of a stack, entry by entry.
#[derive(Drop)]
pub struct Journal {
    entries: Items<JournalEntry>,
}

impl Model for Journal {
    ghost use Rattle.flt_model.specs.JournalText.{Entries};

    ghost Value = { Entries };

    ghost view = { λ j. j.entries };
}

impl Journal {
    /// The journal without an entry.
    pub fn new(alloc: Global) -> Journal
        ensures { result ≡ [] }
    {
        Journal {
            entries: Items::new(alloc),
        }
    }

    /// Adds an entry, as the last one.
    pub fn push(&mut self, heap: &mut Heap, entry: JournalEntry) -> Result<(), AllocError>
        ensures ok { OnOk result (self.new ≡ self.old ++ entry ∷ []) }
        ensures err { OnErr result (self.new ≡ self.old) }
        ensures granted { OnOk result (heap.new ≡ heap.old) }
        ensures memory { OnErr result (heap.new ≢ heap.old) }
    {
        heap.push_item(&mut self.entries, entry)
    }

    /// Takes the last entry back out, or none if there is no entry.
    pub fn pop(&mut self) -> Option<JournalEntry>
        ensures { MatchOption result ((self.old ≡ []) × (self.new ≡ [])) (λ e. self.old ≡ self.new ++ e ∷ []) }
    {
        self.entries.pop()
    }

    /// The number of entries.
    pub fn len(&self) -> usize
        ensures { result ≡ length self.now }
    {
        self.entries.len()
    }

    /// The entry of a number, counted from 0, or none past the last one.
    pub fn entry(&self, number: usize) -> Option<JournalEntry>
        ensures { result ≡ slice_get self.now number }
    {
        self.entries.get(number).copied()
    }

    /// All entries, the first one first.
    pub fn entries(&self) -> &[JournalEntry]
        ensures { result.now ≡ self.now }
    {
        self.entries.as_slice()
    }
}
