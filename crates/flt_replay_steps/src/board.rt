//! The steps of an activation: those that others see, by its first statement or at the end of its body, and those that nobody
//! else sees.

ghost use Rattle.std.specs.Prelude.{◌≡◌, if◌then◌else◌, List, [], ◌∷◌, ◌++◌, Some, None, OnOk, IfOk, MatchOption};
ghost use Rattle.flt_model.specs.Program as program;
ghost use Rattle.flt_model.specs.Steps as steps;
ghost use Rattle.flt_model.specs.World as spec;
ghost use Rattle.flt_model.specs.declared.event.Event.{Event};
ghost use Rattle.flt_replay_records.specs.Rest.{statement_of};
ghost use Rattle.flt_replay_steps.specs.Boards.{coming};
ghost use Rattle.flt_replay_steps.specs.Unseen.{unseen};
ghost use Rattle.flt_replay_world.specs.Happening.{later, Happened, ComesOf, holds_given};
ghost use Rattle.flt_tree.specs.declared.filter.Filter.{Filter};
ghost use Rattle.flt_tree.specs.declared.filter.Statement.{out-Statement};

use crate::contexts::{Branches, Setting};
use crate::{contexts, ending, locking, queueing, reads, settling};
use flt_model::Event;
use flt_replay_records::Upcoming;
use flt_replay_world::{Stack, World};
use flt_rules::Access;
use flt_tree::{Action, Condition, FallibleCall, PlainCall, Routine, Statement, Test};
use std::alloc::AllocError;

/// The input of a step: its activation, the system's choice, and whether the activation holds the visit that it was given.
#[derive(Clone, Copy)]
pub struct Setup {
    pub activation: usize,
    pub grant: bool,
    pub held: bool,
}

fn may_be_refused(call: &FallibleCall<Routine>) -> bool
    ensures { result ≡ steps.may_be_refused call.now }
{
    matches!(
        call,
        FallibleCall::AllocateContext(_)
            | FallibleCall::QueueDeferredIoWorkItem(_, _)
            | FallibleCall::QueueGenericWorkItem(_, _)
    )
}

fn leaves_choice(condition: &Condition) -> bool
    ensures { result ≡ steps.leaves_choice condition.now }
{
    match condition {
        Condition::Succeeds(call) => may_be_refused(call),
        Condition::Test(_) => false,
    }
}

// ---- the first statement

/// Whether the first statement can be done with this choice.
fn may_go(world: &World<'_>, a: usize, grant: bool, statement: &Statement) -> bool
    ensures { result ≡ steps.may_go world.now a grant (out-Statement statement.now) }
{
    match statement {
        Statement::If(_, condition, _, _) => grant || leaves_choice(condition),
        Statement::Call(_, PlainCall::AcquireLock(_, lock)) => {
            grant && locking::may_take(world, a, *lock, Access::Exclusive)
        }
        Statement::Call(_, PlainCall::AcquirePushLockShared(lock)) => {
            grant && locking::may_take(world, a, *lock, Access::Shared)
        }
        _ => grant,
    }
}

/// The step of an action. False if nobody else sees it.
fn act_step(
    world: &mut World<'_>,
    a: usize,
    action: Action,
    events: &mut Vec<Event>,
) -> Result<bool, AllocError>
    ensures { IfOk result (λ seen. (p : List Filter) → (t : List Event) →
        ComesOf (steps.act_step p t world.old a (later world.old a) action) seen world.new events.old.items events.new.items) }
{
    match action {
        Action::ReadValue(n, c) => reads::read_value(world, a, n, c, events)?,
        Action::ReadFile(n, d) => reads::read_file(world, a, n, d, events)?,
        Action::WriteValue(c, value) => reads::write_value(world, a, c, value, events)?,
        Action::SetNumber(_, _) | Action::ClearContext(_) | Action::ClearOperation(_) => {
            return Ok(false);
        }
    }
    Ok(true)
}

fn plain_step<'a>(
    world: &mut World<'a>,
    stack: &Stack<'a>,
    a: usize,
    call: PlainCall,
    events: &mut Vec<Event>,
) -> Result<(), AllocError>
    ensures { OnOk result ((t : List Event) →
        Happened world.new events.old.items events.new.items (steps.plain_step stack.now t world.old a (later world.old a) call)) }
{
    match call {
        PlainCall::DeleteContext(c) => contexts::delete(world, a, c, events),
        PlainCall::ReferenceContext(c, d) => contexts::reference(world, a, c, d, events),
        PlainCall::ReleaseContext(c) => contexts::release(world, a, c, events),
        PlainCall::AcquireLock(kind, lock) => locking::acquire(world, a, kind, lock, events),
        PlainCall::AcquirePushLockShared(lock) => locking::acquire_shared(world, a, lock, events),
        PlainCall::ReleaseLock(kind, lock) => locking::release_lock(world, a, kind, lock, events),
        PlainCall::CompletePendedPreOperation(d, status) => {
            settling::complete_pre(world, stack, a, d, status, events)
        }
        PlainCall::CompletePendedPostOperation => settling::complete_post(world, stack, a, events),
    }
}

/// The number of the routine that a call names, of the activation's filter.
fn number_of<'a>(world: &World<'a>, stack: &Stack<'a>, a: usize, routine: &Routine) -> usize
    ensures { result ≡ program.routine_of (program.callbacks_at stack.now (spec.actor_at world.now a).filter) routine.now }
{
    stack.routine(world.filter(a), routine)
}

fn fallible_step<'a>(
    world: &mut World<'a>,
    stack: &Stack<'a>,
    a: usize,
    grant: bool,
    call: &FallibleCall<Routine>,
    to: Branches<'a>,
    events: &mut Vec<Event>,
) -> Result<(), AllocError>
    ensures { OnOk result ((t : List Event) →
        Happened world.new events.old.items events.new.items
        (steps.fallible_step stack.now t world.old a grant (to.entry.granted.now ++ later world.old a)
        (to.entry.refused.now ++ later world.old a) call.now)) }
{
    match call {
        FallibleCall::AllocateContext(d) => contexts::allocate(world, a, *d, grant, to, events),
        FallibleCall::GetContext(on, d) => contexts::get(world, a, *on, *d, to, events),
        FallibleCall::SetContext(on, existing, context, old) => {
            let set = Setting {
                on: *on,
                existing: *existing,
                context: *context,
                old: *old,
            };
            contexts::set_context(world, a, set, to, events)
        }
        FallibleCall::DeleteContextOf(on, old) => contexts::delete_at(
            world, a, *on, *old, to, events,
        ),
        FallibleCall::InsertIo(c) => queueing::insert(world, a, *c, to, events),
        FallibleCall::RemoveNextIo(o, d) => queueing::remove_next(world, a, *o, *d, to, events),
        FallibleCall::QueueDeferredIoWorkItem(routine, c) => {
            let number = number_of(world, stack, a, routine);
            queueing::queue_deferred(world, a, number, *c, grant, to, events)
        }
        FallibleCall::QueueGenericWorkItem(routine, c) => {
            let number = number_of(world, stack, a, routine);
            queueing::queue_generic(world, a, number, *c, grant, to, events)
        }
    }
}

/// The step of a test. False if nobody else sees it.
fn test_step<'a>(
    world: &mut World<'a>,
    a: usize,
    test: Test,
    to: Branches<'a>,
    events: &mut Vec<Event>,
) -> Result<bool, AllocError>
    ensures { IfOk result (λ seen. (p : List Filter) → (t : List Event) →
        ComesOf (steps.test_step p t world.old a (to.entry.granted.now ++ later world.old a)
        (to.entry.refused.now ++ later world.old a) test) seen world.new events.old.items events.new.items) }
{
    match test {
        Test::IsIrp => {
            reads::test_irp(world, a, to, events)?;
            Ok(true)
        }
        _ => Ok(false),
    }
}

fn if_step<'a>(
    world: &mut World<'a>,
    stack: &Stack<'a>,
    a: usize,
    grant: bool,
    condition: &Condition,
    to: Branches<'a>,
    events: &mut Vec<Event>,
) -> Result<bool, AllocError>
    ensures { IfOk result (λ seen. (t : List Event) →
        ComesOf (steps.if_step stack.now t world.old a grant (to.entry.granted.now ++ later world.old a)
        (to.entry.refused.now ++ later world.old a) condition.now) seen world.new events.old.items events.new.items) }
{
    match condition {
        Condition::Test(test) => test_step(world, a, *test, to, events),
        Condition::Succeeds(call) => {
            fallible_step(world, stack, a, grant, call, to, events)?;
            Ok(true)
        }
    }
}

/// The step of a statement. False if nobody else sees it.
fn statement_step<'a>(
    world: &mut World<'a>,
    stack: &Stack<'a>,
    setup: Setup,
    statement: &'a Statement,
    events: &mut Vec<Event>,
) -> Result<bool, AllocError>
    ensures { IfOk result (λ seen. (t : List Event) → setup.held ≡ holds_given t world.old setup.activation →
        ComesOf (steps.statement_step stack.now t world.old setup.activation (later world.old setup.activation) setup.grant
        (out-Statement statement.now)) seen world.new events.old.items events.new.items) }
{
    let a = setup.activation;
    match statement {
        Statement::Act(_, action) => act_step(world, a, *action, events),
        Statement::Call(_, call) => {
            plain_step(world, stack, a, *call, events)?;
            Ok(true)
        }
        Statement::Return(_, status) => {
            ending::end(world, stack, a, *status, setup.held, events)?;
            Ok(true)
        }
        Statement::If(_, condition, granted, refused) => {
            let to = Branches {
                granted: granted.as_slice(),
                refused: refused.as_slice(),
            };
            if_step(world, stack, a, setup.grant, condition, to, events)
        }
        Statement::Repeat(_, _, _) => Ok(false),
    }
}

/// The step of the first statement. False if it hasn't this choice, or if others hold a lock so that it is refused.
fn first_step<'a>(
    world: &mut World<'a>,
    stack: &Stack<'a>,
    setup: Setup,
    statement: &'a Statement,
    events: &mut Vec<Event>,
) -> Result<bool, AllocError>
    ensures { IfOk result (λ enabled. (t : List Event) → setup.held ≡ holds_given t world.old setup.activation →
        ComesOf (steps.first_step stack.now t world.old setup.activation (later world.old setup.activation) setup.grant
        (out-Statement statement.now)) enabled world.new events.old.items events.new.items) }
{
    if may_go(world, setup.activation, setup.grant, statement) {
        statement_step(world, stack, setup, statement, events)
    } else {
        Ok(false)
    }
}

// ---- an activation

/// The first statement of an activation, which stays.
fn first<'a>(world: &mut World<'a>, a: usize) -> Result<Option<Upcoming<'a>>, AllocError>
    ensures same { OnOk result (world.new ≡ world.old) }
    ensures first { IfOk result (λ f. MatchOption f ((spec.activation_at world.old a).rest ≡ [])
        (λ u. (spec.activation_at world.old a).rest ≡ statement_of u ∷ later world.old a)) }
{
    match world.activations.get_mut(a) {
        Some(activation) => activation.first(),
        None => Ok(None),
    }
}

/// The step of the first statement, or of the end of the body if none remains.
fn list_step<'a>(
    world: &mut World<'a>,
    stack: &Stack<'a>,
    setup: Setup,
    first: Option<Upcoming<'a>>,
    events: &mut Vec<Event>,
) -> Result<bool, AllocError>
    ensures { IfOk result (λ enabled. (t : List Event) → setup.held ≡ holds_given t world.old setup.activation →
        ComesOf (steps.list_step stack.now t world.old setup.activation
        (coming first.entry (later world.old setup.activation)) setup.grant) enabled world.new events.old.items events.new.items) }
{
    match first {
        Some(Upcoming::Statement(statement)) => {
            first_step(world, stack, setup, statement, events)
        }
        Some(Upcoming::Repeat(_, _, _)) => Ok(false),
        None if setup.grant => {
            ending::end(world, stack, setup.activation, None, setup.held, events)?;
            Ok(true)
        }
        None => Ok(false),
    }
}

/// A step that others see, with its events. False if the next one isn't seen, or isn't enabled.
pub fn step_seen<'a>(
    world: &mut World<'a>,
    stack: &Stack<'a>,
    setup: Setup,
    events: &mut Vec<Event>,
) -> Result<bool, AllocError>
    ensures { IfOk result (λ enabled. (t : List Event) → setup.held ≡ holds_given t world.old setup.activation →
        ComesOf (steps.board stack.now t world.old setup.activation setup.grant) enabled world.new events.old.items events.new.items) }
{
    if world.has_ended(setup.activation) {
        return Ok(false);
    }
    let first = first(world, setup.activation)?;
    list_step(world, stack, setup, first, events)
}

/// A step that nobody else sees. False if the next one is seen, or isn't enabled; the first statement is then gone.
pub fn step_unseen(world: &mut World<'_>, a: usize) -> Result<bool, AllocError>
    ensures { IfOk result (λ enabled. (p : List Filter) → (t : List Event) →
        ComesOf (steps.local p t world.old a) enabled world.new [] []) }
{
    if world.has_ended(a) {
        return Ok(false);
    }
    let draining = world.has_flag(a);
    match world.activations.get_mut(a) {
        Some(activation) => activation.step_locally(draining),
        None => Ok(false),
    }
}

/// Makes this many steps that nobody else sees, in place. False if one of them is seen, or isn't enabled.
#[tactic(auto, using(crate::proofs::Together::ended_unseen))]
pub fn steps_unseen(world: &mut World<'_>, a: usize, steps: u32) -> Result<bool, AllocError>
    ensures { IfOk result (λ all. unseen steps world.old a ≡ (if all then Some world.new else None)) }
{
    if steps == 0 {
        return Ok(true);
    }
    let ended = world.has_ended(a);
    if ended {
        return Ok(false);
    }
    let draining = world.has_flag(a);
    match world.activations.get_mut(a) {
        Some(activation) => activation.step_locally_often(draining, steps),
        None => Ok(false),
    }
}
