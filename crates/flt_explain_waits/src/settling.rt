//! The local steps of an activation, as many as come one after another.

ghost use Rattle.std.specs.Prelude.{◌≡◌, is_some, OnOk, IfOk, MatchOption, [], ◌∷◌};
ghost use Rattle.flt_model.specs.Steps.{local};
ghost use Rattle.flt_model.specs.World.{activation_at};
ghost use Rattle.flt_replay_records.specs.Rest.{statement_of};
ghost use Rattle.flt_explain_waits.specs.Waiting as spec;
ghost use Rattle.flt_replay_world.specs.Happening.{later};

use flt_replay_course::{is_local, upcoming};
use flt_replay_records::Upcoming;
use flt_replay_steps::step_unseen;
use flt_replay_world::World;
use flt_rules::MAX_COST;
use std::alloc::AllocError;

/// Whether an activation's next step is one that nobody else sees, given its upcoming statement.
#[tactic(auto, using(crate::proofs::LocalSteps::none_of_ended, crate::proofs::LocalSteps::local_of_list))]
fn goes_locally(world: &World<'_>, a: usize, next: Option<Upcoming<'_>>) -> bool
    ensures { MatchOption next.entry ((activation_at world.now a).rest ≡ [])
        (λ u. (activation_at world.now a).rest ≡ statement_of u ∷ later world.now a) → is_some (local [] [] world.now a) ≡ result }
{
    if world.has_ended(a) {
        return false;
    }
    is_local(next)
}

/// Makes an activation's local steps, as many as come one after another, and returns the upcoming statement; none at the end of its body.
#[tactic(auto, using(crate::proofs::LocalSteps::one_more, crate::proofs::LocalSteps::enabled, crate::proofs::LocalSteps::settled_at, crate::proofs::LocalSteps::settled_after))]
pub(crate) fn settle<'a>(
    world: &mut World<'a>,
    a: usize,
) -> Result<Option<Upcoming<'a>>, AllocError>
    ensures settled { OnOk result (spec.IsSettled world.old a world.new) }
    ensures next { IfOk result (λ next. MatchOption next ((activation_at world.new a).rest ≡ [])
        (λ u. (activation_at world.new a).rest ≡ statement_of u ∷ later world.new a)) }
{
    for _made in 0..MAX_COST {
        let next = upcoming(world, a)?;
        if !goes_locally(world, a, next) {
            return Ok(next);
        }
        if !step_unseen(world, a)? {
            unreachable!();
        }
    }
    let next = upcoming(world, a)?;
    Ok(next)
}
