//! How many activations of each filter haven't ended: a count beside the activations, so that nobody searches them.

ghost use Rattle.std.specs.Prelude.{◌≡◌, ◌≢◌, ℕ, ◌+◌, ◌-◌, ◌^◌, ◌<◌, ◌≤◌, nat_lt, length, get_or, set, OnOk, OnErr};

use counted_heap::Heap;
use std::alloc::AllocError;

/// Makes room for the count of a filter. Those up to it that weren't there count nothing.
pub(crate) fn make_room(
    heap: &mut Heap,
    counts: &mut Vec<usize>,
    filter: usize,
) -> Result<(), AllocError>
    ensures room { OnOk result (filter < length counts.new.items) }
    ensures same { (other : ℕ) → get_or counts.new.items other 0 ≡ get_or counts.old.items other 0 }
    ensures granted { OnOk result (heap.new ≡ heap.old) }
    ensures memory { OnErr result (heap.new ≢ heap.old) }
{
    while counts.len() <= filter {
        heap.push(counts, 0)?;
    }
    Ok(())
}

/// Counts an activation of the filter that starts.
pub(crate) fn count_start(counts: &mut Vec<usize>, filter: usize)
    requires room { filter < length counts.old.items }
    requires few { get_or counts.old.items filter 0 < 2 ^ 64 - 1 }
    ensures { counts.new.items ≡ set counts.old.items filter (get_or counts.old.items filter 0 + 1) }
{
    counts[filter] += 1;
}

/// Counts an activation of the filter that ends.
pub(crate) fn count_end(counts: &mut Vec<usize>, filter: usize)
    requires { 1 ≤ get_or counts.old.items filter 0 }
    ensures { counts.new.items ≡ set counts.old.items filter (get_or counts.old.items filter 0 - 1) }
{
    if filter < counts.len() {
        counts[filter] -= 1;
    }
}

/// Whether an activation of the filter hasn't ended.
pub(crate) fn has_any(counts: &[usize], filter: usize) -> bool
    ensures { result ≡ nat_lt 0 (get_or counts.now filter 0) }
{
    match counts.get(filter) {
        Some(count) => *count > 0,
        None => false,
    }
}
