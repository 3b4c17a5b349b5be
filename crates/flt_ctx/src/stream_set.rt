//! The streams at which contexts are linked, in the order of their numbers: the first one of a filter is found without a search.
ghost use Rattle.std.specs.Prelude.{◌≡◌, ◌≢◌, ℕ, ◌<◌, false, true, not, ◌&&◌, ◌||◌, OnOk, OnErr, MatchOption};
ghost use Rattle.flt_ctx.specs.Streams.{is_stream};
ghost use Rattle.pair_set.specs.Pairs.{has};

use crate::key::{Key, Target};
use counted_heap::Heap;
use pair_set::PairSet;
use std::alloc::{AllocError, Global};

/// The filter and the file of each key whose target is a stream.
#[derive(Drop)]
pub(crate) struct StreamSet {
    set: PairSet,
}

impl StreamSet {
    pub(crate) fn new(alloc: Global) -> StreamSet
        ensures { (filter file : ℕ) → has result.set filter file ≡ false }
    {
        StreamSet {
            set: PairSet::new(alloc),
        }
    }

    /// Puts the key's stream in. A key of an instance changes nothing.
    pub(crate) fn insert(&mut self, heap: &mut Heap, key: Key) -> Result<(), AllocError>
        ensures ok { OnOk result ((filter file : ℕ) →
            has self.new.set filter file ≡ (is_stream key filter file || has self.old.set filter file)) }
        ensures err { OnErr result ((filter file : ℕ) → has self.new.set filter file ≡ has self.old.set filter file) }
        ensures granted { OnOk result (heap.new ≡ heap.old) }
        ensures memory { OnErr result (heap.new ≢ heap.old) }
    {
        match key.target {
            Target::Instance => Ok(()),
            Target::Stream(file) => self.set.insert(heap, key.filter, file),
        }
    }

    /// Takes the key's stream out. A key of an instance changes nothing.
    pub(crate) fn remove(&mut self, key: Key)
        ensures { (filter file : ℕ) →
            has self.new.set filter file ≡ (not (is_stream key filter file) && has self.old.set filter file) }
    {
        if let Target::Stream(file) = key.target {
            self.set.remove(key.filter, file);
        }
    }

    /// The file with the least number of a filter.
    pub(crate) fn least(&self, filter: usize) -> Option<u32>
        ensures { MatchOption result ((file : ℕ) → has self.now.set filter file ≡ false)
            (λ least. (has self.now.set filter least ≡ true) × ((file : ℕ) → file < least → has self.now.set filter file ≡ false)) }
    {
        self.set.least(filter)
    }
}
