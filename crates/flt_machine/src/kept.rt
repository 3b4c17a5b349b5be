//! The `Standing`s of activations that haven't ended.

ghost use Rattle.std.specs.Prelude.{◌≡◌, ◌≢◌, IfOk, OnOk, OnErr};

use counted_heap::Heap;
use flt_machine_frames::Standing;
use std::alloc::AllocError;
use std::marker::Model;

/// A `Standing` that takes no room once its activation has ended.
#[derive(Drop)]
pub(crate) struct StoredStanding {
    inner: Box<Standing>,
}

impl Model for StoredStanding {
    ghost use Rattle.flt_machine_frames.specs.declared.standing.Standing.{Standing};

    ghost Value = { Standing };

    ghost view = { λ k. k.inner.value };
}

impl StoredStanding {
    pub(crate) fn new(heap: &mut Heap, standing: Standing) -> Result<StoredStanding, AllocError>
        ensures kept { IfOk result (λ k. k ≡ standing) }
        ensures granted { OnOk result (heap.new ≡ heap.old) }
        ensures memory { OnErr result (heap.new ≢ heap.old) }
    {
        Ok(StoredStanding {
            inner: heap.boxed(standing)?,
        })
    }

    pub(crate) fn get(&self) -> &Standing
        ensures { result.now ≡ self.now }
    {
        &self.inner
    }

    pub(crate) fn set(&mut self, standing: Standing)
        ensures { self.new ≡ standing }
    {
        *self.inner = standing;
    }
}
