//! The queues of all filters.

pub(crate) const MAX_ENTRIES: usize = 6;

/// An entry of a filter's queue.
#[derive(Clone, Copy)]
pub struct Entry {
    pub filter: u8,
    pub visit: u8,
    pub context: Option<u8>,
}

const NO_ENTRY: Entry = Entry {
    filter: 0,
    visit: 0,
    context: None,
};

/// The entries of all queues, in their order.
#[derive(Clone, Copy)]
pub struct Entries {
    entries: [Entry; 6],
    used: usize,
}

impl Entries {
    pub(crate) const NONE: Entries = Entries {
        entries: [NO_ENTRY; 6],
        used: 0,
    };

    /// The entry of a number, from the first.
    pub fn get(&self, place: usize) -> Option<Entry> {
        if place < self.used {
            self.entries.get(place).copied()
        } else {
            None
        }
    }

    /// How many there are.
    pub fn len(&self) -> usize {
        self.used
    }

    /// Adds an entry at the end. False if it has no room.
    pub(crate) fn push(&mut self, entry: Entry) -> bool {
        if self.used < MAX_ENTRIES {
            self.entries[self.used] = entry;
            self.used += 1;
            true
        } else {
            false
        }
    }

    pub(crate) fn remove(&mut self, place: usize) {
        let mut kept = Entries::NONE;
        for other in 0..MAX_ENTRIES {
            if let Some(entry) = self.get(other) {
                if other != place {
                    kept.push(entry);
                }
            }
        }
        *self = kept;
    }
}
