//! The nodes of one visit in one queue.
ghost use Rattle.std.specs.Prelude.{◌≡◌, ◌≢◌, true, [], ◌∷◌, ◌++◌, drop, cond, OnOk, OnErr, Some, None};
ghost use Rattle.ilist_core.specs.NodeLists.{first_of};

use counted_heap::Heap;
use ilist_core::NodeId;
use std::alloc::{AllocError, Global};
use std::collections::VecDeque;
use std::marker::Model;

/// The nodes of one visit in their order, at least one. There is a second one only if a visit was queued twice, which no accepted filter
/// does: so mostly a chain takes no memory of its own.
#[derive(Drop)]
pub(crate) struct Chain {
    first: NodeId,
    later: VecDeque<NodeId>,
}

impl Model for Chain {
    ghost use Rattle.std.specs.Prelude.{ℕ, List, ◌∷◌};

    ghost Value = { List ℕ };

    ghost view = { λ c. c.first ∷ c.later.items };
}

impl Chain {
    pub(crate) fn new(alloc: Global, first: NodeId) -> Self
        ensures { result ≡ first ∷ [] }
    {
        Chain {
            first,
            later: VecDeque::new(alloc),
        }
    }

    pub(crate) fn first(&self) -> NodeId
        ensures { Some result ≡ first_of self.now None }
    {
        self.first
    }

    pub(crate) fn push(&mut self, heap: &mut Heap, node: NodeId) -> Result<(), AllocError>
        ensures pushed { OnOk result (self.new ≡ self.old ++ node ∷ []) }
        ensures refused { OnErr result (self.new ≡ self.old) }
        ensures granted { OnOk result (heap.new ≡ heap.old) }
        ensures memory { OnErr result (heap.new ≢ heap.old) }
    {
        heap.push_back(&mut self.later, node)
    }

    /// Takes the first node out, unless it is the only one. Answers whether it was taken out.
    pub(crate) fn pop(&mut self) -> bool
        ensures rest { drop 1 self.old ≡ cond result self.new [] }
    {
        match self.later.pop_front() {
            Some(next) => {
                self.first = next;
                true
            }
            None => false,
        }
    }
}
