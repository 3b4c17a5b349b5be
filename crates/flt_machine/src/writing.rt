//! Changes, each with its entry.

ghost use Rattle.std.specs.Prelude.{◌≡◌, ◌≢◌, ◌++◌, ◌∷◌, [], OnOk, OnErr};
ghost use Rattle.flt_machine_store.specs.Changes.{after_change, IsPossible};

use counted_heap::Heap;
use flt_machine_store::{Change, Store};
use flt_model::{Journal, JournalEntry};
use std::alloc::AllocError;

/// Changes the store and adds the entry that says so, or changes nothing.
pub(crate) fn write(
    heap: &mut Heap,
    journal: &mut Journal,
    store: &mut Store,
    entry: JournalEntry,
    change: Change,
) -> Result<(), AllocError>
    requires { IsPossible store.old change }
    ensures entry { OnOk result (journal.new ≡ journal.old ++ entry ∷ []) }
    ensures change { OnOk result (store.new ≡ after_change store.old change) }
    ensures refused { OnErr result ((journal.new ≡ journal.old) × (store.new ≡ store.old)) }
    ensures granted { OnOk result (heap.new ≡ heap.old) }
    ensures memory { OnErr result (heap.new ≢ heap.old) }
{
    journal.push(heap, entry)?;
    if let Err(refused) = store.perform(heap, change) {
        journal.pop();
        return Err(refused);
    }
    Ok(())
}
