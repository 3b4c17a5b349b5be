//! The findings of a callback by their points, beside the list of all findings, so that one that is there already is found among few.

ghost use Rattle.std.specs.Prelude.{◌≡◌, ◌<◌, [], length, replicate, slice_index_or, slice_set, IfOk};

use crate::finding::Finding;
use sqlite_items::Items;
use std::alloc::{AllocError, Global};

/// For each point of a callback the findings there, in the order in which they were reported.
#[derive(Drop)]
pub(crate) struct ByPoint {
    lists: Items<Items<Finding>>,
}

impl ByPoint {
    /// So many points, without findings.
    pub(crate) fn none(alloc: Global, count: usize) -> Result<ByPoint, AllocError>
        ensures { IfOk result (λ b. b.lists ≡ replicate count []) }
    {
        let mut lists = Items::new(alloc);
        for _point in 0..count {
            lists.push(Items::new(alloc))?;
        }
        Ok(ByPoint { lists })
    }

    /// A copy of the findings at a point.
    #[tactic(auto, using(crate::proofs::Reading::found, crate::proofs::Reading::missing))]
    pub(crate) fn copied(&self, alloc: Global, point: usize) -> Result<Items<Finding>, AllocError>
        ensures { IfOk result (λ here. here ≡ slice_index_or self.now.lists point []) }
    {
        match self.lists.get(point) {
            Some(here) => Items::from_slice(alloc, here.as_slice()),
            None => Ok(Items::new(alloc)),
        }
    }

    /// Replaces the findings at a point.
    pub(crate) fn replace(&mut self, point: usize, here: Items<Finding>)
        requires { point < length self.old.lists }
        ensures { self.new.lists ≡ slice_set self.old.lists point here }
    {
        self.lists.set(point, here);
    }
}
