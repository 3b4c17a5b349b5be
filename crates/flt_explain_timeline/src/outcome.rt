//! Whether a call succeeded or a test held: the signs in the world before the step and after it.

ghost use Rattle.std.specs.Prelude.{◌≡◌, List, [], ◌∷◌, MatchOption};
ghost use Rattle.flt_model.specs.Calls.{link_of as link};
ghost use Rattle.flt_model.specs.Variables as variables;
ghost use Rattle.flt_model.specs.World as machine;
ghost use Rattle.flt_replay_records.specs.Rest.{statement_of};
ghost use Rattle.flt_tree.specs.declared.filter.Statement.{Statement as Written, out-Statement};
ghost use Rattle.flt_tree.specs.declared.variable.OperationVariable.TheVariants.{Data};
ghost use Rattle.flt_explain_timeline.specs.Outcomes as spec;

use flt_model::{Key, Link};
use flt_replay_records::Upcoming;
use flt_replay_world::World;
use flt_rules::Anchor;
use flt_tree::{
    Condition, ContextVariable, FallibleCall, OperationVariable, RemovedVariable, Routine,
    Statement, Test,
};

/// How the outcome shows, once the step is made.
#[derive(Clone, Copy)]
pub(crate) enum Sign {
    /// It is known before the step.
    Is(bool),
    /// The variable names a context.
    Gives(ContextVariable),
    /// The variable names an operation.
    Removes(RemovedVariable),
    /// The context is linked.
    Links(usize),
    /// The visit waits more often than this.
    Waits(usize, u64),
    /// There are more work items than this.
    Adds(usize),
}

/// The link that a call works on; none if it is on the stream of `data` and that is NULL.
fn link_of(world: &World<'_>, activation: usize, anchor: Anchor) -> Option<Link>
    ensures { result ≡ link world.now.store (machine.actor_at world.now activation).filter anchor
        (variables.operation_in (machine.activation_at world.now activation) Data) }
{
    let filter = world.filter(activation);
    match anchor {
        Anchor::Stream => match world.operation_in(activation, OperationVariable::Data) {
            Some(visit) => Some(Link {
                filter,
                key: Key::Stream(world.file_of(visit)),
            }),
            None => None,
        },
        Anchor::Instance => Some(Link {
            filter,
            key: Key::Instance,
        }),
    }
}

/// The sign of a set, which succeeds if it links a context that wasn't linked.
fn sign_of_set(world: &World<'_>, activation: usize, context: ContextVariable) -> Sign
    ensures { result ≡ spec.sign_of_set world.now.store (variables.context_in (machine.activation_at world.now activation) context) }
{
    match world.context_in(activation, context) {
        Some(context) if world.is_linked(context) => Sign::Is(false),
        Some(context) => Sign::Links(context),
        None => Sign::Is(false),
    }
}

fn is_there(world: &World<'_>, link: Option<Link>) -> bool
    ensures { result ≡ spec.is_there world.now.store link }
{
    match link {
        Some(link) => world.linked_at(link).is_some(),
        None => false,
    }
}

fn sign_of_insert(world: &World<'_>, activation: usize) -> Sign
    ensures { result ≡ spec.sign_of_insert world.now.store (variables.operation_in (machine.activation_at world.now activation) Data) }
{
    match world.operation_in(activation, OperationVariable::Data) {
        Some(visit) => Sign::Waits(visit, world.waiting(visit)),
        None => Sign::Is(false),
    }
}

fn sign_of_call(
    world: &World<'_>,
    activation: usize,
    grant: bool,
    call: &FallibleCall<Routine>,
) -> Sign
    ensures { result ≡ spec.sign_of_call world.now activation grant call.now }
{
    match call {
        FallibleCall::AllocateContext(_) => Sign::Is(grant),
        FallibleCall::GetContext(_, context) => Sign::Gives(*context),
        FallibleCall::SetContext(_, _, context, _) => sign_of_set(world, activation, *context),
        FallibleCall::DeleteContextOf(anchor, _) => {
            Sign::Is(is_there(world, link_of(world, activation, *anchor)))
        }
        FallibleCall::InsertIo(_) => sign_of_insert(world, activation),
        FallibleCall::RemoveNextIo(removed, _) => Sign::Removes(*removed),
        FallibleCall::QueueDeferredIoWorkItem(_, _) | FallibleCall::QueueGenericWorkItem(_, _) => {
            Sign::Adds(world.items().len())
        }
    }
}

/// Whether the operation is an I/O request packet.
fn is_irp(world: &World<'_>, activation: usize) -> bool
    ensures { result ≡ spec.is_packet world.now.store (variables.operation_in (machine.activation_at world.now activation) Data) }
{
    match world.operation_in(activation, OperationVariable::Data) {
        Some(visit) => world.mode_of(visit).is_irp(),
        None => false,
    }
}

fn sign_of_statement(
    world: &World<'_>,
    activation: usize,
    grant: bool,
    statement: &Statement,
) -> Option<Sign>
    ensures { result ≡ spec.sign_of_statement world.now activation grant (out-Statement statement.now) }
{
    match statement {
        Statement::If(_, Condition::Succeeds(call), _, _) => {
            Some(sign_of_call(world, activation, grant, call))
        }
        Statement::If(_, Condition::Test(Test::IsIrp), _, _) => {
            Some(Sign::Is(is_irp(world, activation)))
        }
        _ => None,
    }
}

/// The sign of the next step's outcome, with the choice that is left to the system; none if only one outcome is possible.
pub(crate) fn sign_of(
    world: &World<'_>,
    activation: usize,
    grant: bool,
    next: Option<Upcoming<'_>>,
) -> Option<Sign>
    ensures { (statements rest : List Written) → MatchOption next.entry (statements ≡ []) (λ u. statements ≡ statement_of u ∷ rest) →
        result ≡ spec.sign_of world.now activation grant statements }
{
    match next {
        Some(Upcoming::Statement(statement)) => {
            sign_of_statement(world, activation, grant, statement)
        }
        _ => None,
    }
}

impl Sign {
    /// Whether it shows in the world after the step.
    pub(crate) fn shows(self, world: &World<'_>, activation: usize) -> bool
        ensures { result ≡ spec.shows world.now activation self }
    {
        match self {
            Sign::Is(known) => known,
            Sign::Gives(variable) => world.context_in(activation, variable).is_some(),
            Sign::Removes(variable) => world
                .operation_in(activation, OperationVariable::Removed(variable))
                .is_some(),
            Sign::Links(context) => world.is_linked(context),
            Sign::Waits(visit, before) => world.waiting(visit) > before,
            Sign::Adds(before) => world.items().len() > before,
        }
    }
}
