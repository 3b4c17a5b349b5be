//! The nodes of one queue, found by the visit of their entry.
ghost use Rattle.std.specs.Prelude.{◌≡◌, ◌≢◌, ℕ, [], ◌∷◌, ◌++◌, drop, OnOk, OnErr, None};
ghost use Rattle.ilist_core.specs.NodeLists.{first_of};
ghost use Rattle.flt_cbdq.specs.Kept.{nodes_with};

use crate::chain::Chain;
use counted_heap::Heap;
use ilist_core::NodeId;
use std::alloc::{AllocError, Global};
use std::collections::BTreeMap;
use std::marker::Model;

/// Of each visit, the nodes whose entries are of it, in the queue's order. A visit without an entry takes no memory.
#[derive(Drop)]
pub(crate) struct NodesByVisit {
    chains: BTreeMap<usize, Chain>,
}

impl Model for NodesByVisit {
    ghost use Rattle.std.specs.Prelude.{ℕ, List};

    ghost Value = { List (ℕ × List ℕ) };

    ghost view = { λ n. n.chains.entries };
}

impl NodesByVisit {
    #[tactic(auto, unfolding(crate::specs::Kept::nodes_with))]
    pub(crate) fn new(alloc: Global) -> Self
        ensures { result ≡ [] }
    {
        NodesByVisit {
            chains: BTreeMap::new(alloc),
        }
    }

    /// The first node of a visit.
    #[tactic(auto, unfolding(crate::specs::Kept::nodes_with))]
    pub(crate) fn first(&self, visit: usize) -> Option<NodeId>
        ensures { result ≡ first_of (nodes_with self.now visit) None }
    {
        match self.chains.get(&visit) {
            Some(chain) => Some(chain.first()),
            None => None,
        }
    }

    /// Puts a node after the others of a visit.
    #[tactic(auto, unfolding(crate::specs::Kept::nodes_with))]
    pub(crate) fn push(
        &mut self,
        heap: &mut Heap,
        visit: usize,
        node: NodeId,
    ) -> Result<(), AllocError>
        ensures here { OnOk result (nodes_with self.new visit ≡ nodes_with self.old visit ++ node ∷ []) }
        ensures others { (other : ℕ) → other ≢ visit → nodes_with self.new other ≡ nodes_with self.old other }
        ensures refused { OnErr result (nodes_with self.new visit ≡ nodes_with self.old visit) }
        ensures granted { OnOk result (heap.new ≡ heap.old) }
        ensures memory { OnErr result (heap.new ≢ heap.old) }
    {
        if let Some(chain) = self.chains.get_mut(&visit) {
            return chain.push(heap, node);
        }
        let chain = Chain::new(heap.alloc(), node);
        heap.put(&mut self.chains, visit, chain)?;
        Ok(())
    }

    /// Takes the first node of a visit out, if there is one.
    #[tactic(auto, unfolding(crate::specs::Kept::nodes_with))]
    pub(crate) fn pop(&mut self, visit: usize)
        ensures here { nodes_with self.new visit ≡ drop 1 (nodes_with self.old visit) }
        ensures others { (other : ℕ) → other ≢ visit → nodes_with self.new other ≡ nodes_with self.old other }
    {
        let is_left = match self.chains.get_mut(&visit) {
            Some(chain) => chain.pop(),
            None => true,
        };
        if !is_left {
            let _ = self.chains.remove(&visit);
        }
    }
}
