//! Makes moves and steps, whatever they break: their events aren't read.

ghost use Rattle.std.specs.Prelude.{List, IfOk};
ghost use Rattle.flt_model.specs.declared.event.Event.{Event};
ghost use Rattle.flt_model.specs.Steps.{Make, Board};
ghost use Rattle.flt_replay_course.specs.Leading as spec;

use flt_model::Move;
use flt_replay_steps::Setup;
use flt_replay_world::{Stack, World};
use std::alloc::{AllocError, Global};

/// Makes a move. Returns false if it isn't enabled.
///
/// # Errors
///
/// If memory is refused, or a number or a count would reach 2^32.
#[tactic(auto, using(crate::proofs::Leading::led))]
pub fn make_move<'a>(
    world: &mut World<'a>,
    alloc: Global,
    stack: &Stack<'a>,
    step: Move,
) -> Result<bool, AllocError>
    ensures { IfOk result (λ made. (t : List Event) → spec.LeadsTo (spec.after_step stack.now world.old t (Make step)) made world.new) }
{
    let mut events = Vec::new(alloc);
    flt_replay_steps::make(world, alloc, stack, step, &mut events)
}

/// Makes so many steps of an activation that nobody else sees, up to one that isn't such a step, and returns how many it made.
///
/// # Errors
///
/// If memory is refused.
pub fn go_locally(world: &mut World<'_>, a: usize, steps: u32) -> Result<u32, AllocError>
    ensures { IfOk result (λ made. spec.GoesLocally steps world.old a made world.new) }
{
    for made in 0..steps {
        if !flt_replay_steps::step_unseen(world, a)? {
            return Ok(made);
        }
    }
    Ok(steps)
}

/// Makes a step of an activation that others see, with the choice that it leaves to the system. Returns false if it isn't enabled.
///
/// # Errors
///
/// If memory is refused, or a number or a count would reach 2^32.
pub fn step_seen<'a>(
    world: &mut World<'a>,
    alloc: Global,
    stack: &Stack<'a>,
    a: usize,
    grant: bool,
) -> Result<bool, AllocError>
    ensures { IfOk result (λ made. (t : List Event) → spec.LeadsTo (spec.after_step stack.now world.old t (Board a grant)) made world.new) }
{
    // Whether the activation holds its operation changes no world, only events.
    let setup = Setup {
        activation: a,
        grant,
        held: false,
    };
    let mut events = Vec::new(alloc);
    flt_replay_steps::step_seen(world, stack, setup, &mut events)
}
