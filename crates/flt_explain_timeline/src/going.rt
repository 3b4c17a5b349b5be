//! The steps of an activation in an entry.

ghost use Rattle.std.specs.Prelude.{◌≡◌, IfOk, option_map};
ghost use Rattle.flt_explain_timeline.specs.Course as spec;
ghost use Rattle.flt_explain_timeline.specs.Outcomes.{shows};

use crate::callbacks::next_line;
use crate::outcome::{Sign, sign_of};
use crate::refusal::{Refusal, of_step};
use crate::telling::Happening;
use flt_replay_course::{go_locally, step_seen, upcoming};
use flt_replay_world::{Stack, World};
use flt_tree::Filter;
use std::alloc::{AllocError, Global};

/// The stack on which a journal is run: the filters from the highest altitude to the lowest, as the machine has them and as they are lent.
#[derive(Clone, Copy)]
pub struct Stage<'b, 'a> {
    pub alloc: Global,
    pub stack: &'b Stack<'a>,
    pub filters: &'b [&'a Filter],
}

fn outcome_of(sign: Option<Sign>, world: &World<'_>, activation: usize) -> Option<bool>
    ensures { result ≡ option_map (shows world.now activation) sign }
{
    match sign {
        Some(sign) => Some(sign.shows(world, activation)),
        None => None,
    }
}

/// Makes the step that others see, in a callback of a filter, whose closing brace has this line; or says why it isn't enabled.
fn go_seen<'a>(
    world: &mut World<'a>,
    stage: &Stage<'_, 'a>,
    activation: usize,
    grant: bool,
    filter: usize,
    end: usize,
) -> Result<Result<Happening, Refusal>, AllocError>
    ensures { IfOk result (λ gone. spec.IsGone gone world.new (spec.seen stage.now.stack.now activation grant filter end world.old)) }
{
    let next = upcoming(world, activation)?;
    let line = next_line(next, end);
    let sign = sign_of(world, activation, grant, next);
    let why = of_step(next, grant);
    if !step_seen(world, stage.alloc, stage.stack, activation, grant)? {
        return Ok(Err(why));
    }
    let outcome = outcome_of(sign, world, activation);
    Ok(Ok(Happening::Runs(filter, line, outcome)))
}

/// Makes so many steps, of which the last is seen; or says why one of them isn't enabled.
pub(crate) fn go<'a>(
    world: &mut World<'a>,
    stage: &Stage<'_, 'a>,
    activation: usize,
    steps: u32,
    grant: bool,
    filter: usize,
    end: usize,
) -> Result<Result<Happening, Refusal>, AllocError>
    ensures { IfOk result (λ gone. spec.IsGone gone world.new (spec.go stage.now.stack.now activation grant filter end steps world.old)) }
{
    if world.has_ended(activation) {
        return Ok(Err(Refusal::HasEnded));
    }
    if steps == 0 {
        return Ok(Err(Refusal::NoStep));
    }
    let made = go_locally(world, activation, steps - 1)?;
    if made < steps - 1 {
        return Ok(Err(Refusal::IsSeen(made + 1)));
    }
    go_seen(world, stage, activation, grant, filter, end)
}
