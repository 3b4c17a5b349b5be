//! The world before the first move.

ghost use Rattle.std.specs.Prelude.{◌≡◌, length, replicate, [], ◌∷◌, ◌++◌, None, IfOk, OnOk, List};
ghost use Rattle.flt_model.specs.World as spec;
ghost use Rattle.flt_tree.specs.declared.filter.Filter.{Filter};

use crate::world::World;
use std::alloc::{AllocError, Global};

impl<'a> World<'a> {
    #[tactic(auto, using(crate::proofs::Openings::opened_of))]
    /// Before the first move there are only filters.
    pub fn opening(alloc: Global, filters: usize) -> Result<World<'a>, AllocError>
        ensures { IfOk result (λ w. (p : List Filter) → length p ≡ filters → w ≡ spec.opening p) }
    {
        let mut world = World::empty(alloc);
        for number in 0..filters {
            world.add_filter(alloc)?;
        }
        Ok(world)
    }
}
