//! How far an activation has come after a plan's step.

ghost use Rattle.std.specs.Prelude.{◌≡◌, ◌<◌, ◌≤◌, ◌+◌, ◌^◌, ℕ, [], List, false, true, length, if◌then◌else◌, Some};
ghost use Rattle.flt_machine_calls.specs.Continuing.{HasRoom, leads_on};
ghost use Rattle.flt_machine_calls.specs.Own.{AreOf, IsOf};
ghost use Rattle.flt_machine_calls.specs.Plans as plans;
ghost use Rattle.flt_machine_frames.specs.Firsts.{Remains};
ghost use Rattle.flt_machine_frames.specs.Standings.{activation_with};
ghost use Rattle.flt_graph.specs.Points.{successor};
ghost use Rattle.flt_tree.specs.declared.filter.Statement.{Statement};
ghost use Rattle.flt_model.specs.Trace as trace;
ghost use Rattle.flt_model.specs.declared.event.Object.TheVariants.{Visit};
ghost use Rattle.flt_tree.specs.declared.filter.Callback.{Callback};

use crate::plans::{Plan, Write};
use flt_graph::Instruction;
use flt_machine_frames::{HeldLock, Standing};
use flt_model::{Event, Object, Variables};
use flt_tree::OperationVariable;

/// How often a visit was gained and lost.
#[derive(Clone, Copy)]
struct Counts {
    gained: u64,
    lost: u64,
}

#[tactic(auto, unfolding(flt_model::specs::Trace::one_if))]
fn times(visit: usize, object: Object) -> u64
    ensures is { result ≡ trace.same_object object (Visit visit) }
    ensures few { result ≤ 1 }
{
    match object {
        Object::Visit(other) if other == visit => 1,
        _ => 0,
    }
}

/// How often one event of an activation gains and loses a visit.
#[tactic(auto, using(crate::proofs::Tallies::own_count))]
fn counted(visit: usize, event: Event) -> Counts
    ensures gained { (a : ℕ) → IsOf a event → result.gained ≡ trace.gain a (Visit visit) event }
    ensures lost { (a : ℕ) → IsOf a event → result.lost ≡ trace.lose a (Visit visit) event }
    ensures few_gained { result.gained ≤ 1 }
    ensures few_lost { result.lost ≤ 1 }
{
    match event {
        Event::Gain(_, object) => Counts {
            gained: times(visit, object),
            lost: 0,
        },
        Event::Lose(_, object) => Counts {
            gained: 0,
            lost: times(visit, object),
        },
        _ => Counts { gained: 0, lost: 0 },
    }
}

/// How often the events of an activation gain and lose a visit.
fn counts_of(visit: usize, events: &[Event]) -> Counts
    requires { length events.now ≤ 16 }
    ensures gained { (a : ℕ) → AreOf a events.now → result.gained ≡ trace.gains events.now a (Visit visit) }
    ensures lost { (a : ℕ) → AreOf a events.now → result.lost ≡ trace.loses events.now a (Visit visit) }
    ensures few_gained { result.gained ≤ length events.now }
    ensures few_lost { result.lost ≤ length events.now }
{
    match events {
        [] => Counts { gained: 0, lost: 0 },
        [first, rest @ ..] => {
            let one = counted(visit, *first);
            let others = counts_of(visit, rest);
            Counts {
                gained: one.gained + others.gained,
                lost: one.lost + others.lost,
            }
        }
    }
}

/// The `Standing` with the variables and locks that a plan writes.
fn written(standing: &Standing, write: Write) -> Standing
    requires { HasRoom standing.now write }
    ensures variables { plans.is_end write ≡ false → activation_with result [] ≡ plans.written write (activation_with standing.now []) }
    ensures callback { result.callback ≡ standing.now.callback }
    ensures turns { result.turns ≡ standing.now.turns }
    ensures given { plans.given_of result ≡ plans.given_of standing.now }
{
    let mut later = *standing;
    match write {
        Write::Nothing | Write::End | Write::Output(None, _) => {}
        Write::Number(variable, value) => later.set_number(variable, value),
        Write::Output(Some(variable), context) => later.set_context(variable, context),
        Write::Removed(operation, visit, variable, context) => {
            later.set_operation(OperationVariable::Removed(operation), visit);
            later.set_context(variable, context);
        }
        Write::Take(lock, access) => later.locks.take(HeldLock { lock, access }),
        Write::GiveUp(lock) => later.locks.give_up(lock),
    }
    later
}

/// Where an instruction leads by an outcome; the point itself where it leads nowhere.
fn point_after(instruction: Instruction, outcome: bool, point: usize) -> usize
    ensures { leads_on instruction ≡ true → successor instruction outcome ≡ Some result }
{
    match instruction {
        Instruction::Act(_, next) => next,
        Instruction::Call(_, granted, refused) | Instruction::Test(_, granted, refused) => {
            if outcome { granted } else { refused }
        }
        Instruction::Repeat(_, _, _) | Instruction::Return(_) | Instruction::End => point,
    }
}

/// The `Standing` after a plan's step by the instruction at its point, if the step doesn't end the activation.
pub fn continued(standing: &Standing, instruction: Instruction, plan: &Plan) -> Standing
    requires room { HasRoom standing.now plan.now.write }
    requires gained { standing.now.gained + 16 < 2 ^ 64 }
    requires lost { standing.now.lost + 16 < 2 ^ 64 }
    requires few { length plan.now.events ≤ 16 }
    ensures written { (cs : List Callback) (rest : List Statement) → plans.is_end plan.now.write ≡ false → leads_on instruction ≡ true →
        Remains cs standing.now rest instruction → plans.IsWritten cs standing.now result plan.now rest }
    ensures variables { plans.is_end plan.now.write ≡ false →
        activation_with result [] ≡ plans.written plan.now.write (activation_with standing.now []) }
    ensures counted { (a : ℕ) → AreOf a plan.now.events → plans.IsCountedOn a standing.now result plan.now }
    ensures few_gained { result.gained ≤ standing.now.gained + 16 }
    ensures few_lost { result.lost ≤ standing.now.lost + 16 }
{
    let point = point_after(instruction, plan.granted, standing.point);
    let counts = match standing.operation(OperationVariable::Data) {
        Some(visit) => counts_of(visit, plan.events.as_slice()),
        None => Counts { gained: 0, lost: 0 },
    };
    Standing {
        point,
        gained: standing.gained + counts.gained,
        lost: standing.lost + counts.lost,
        ..written(standing, plan.write)
    }
}
