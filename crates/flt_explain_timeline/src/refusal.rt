//! Why an entry isn't enabled: the condition of its move or step that fails in the world before it.

ghost use Rattle.std.specs.Prelude.{◌≡◌, Bool, List, is_some, length, [], ◌∷◌, MatchOption};
ghost use Rattle.flt_model.specs.LocalSteps.{local_step};
ghost use Rattle.flt_model.specs.World.{Activation as Acting, route_at};
ghost use Rattle.flt_replay_records.specs.Rest.{statement_of};
ghost use Rattle.flt_tree.specs.declared.filter.Statement.{Statement as Written};
ghost use Rattle.flt_explain_timeline.specs.Refusals as reasons;

use flt_model::{Move, Position};
use flt_replay_course::is_local;
use flt_replay_records::Upcoming;
use flt_replay_world::{Stack, World};
use flt_rules::{Mode, Operation};

/// Why an entry isn't enabled.
#[derive(Clone, Copy)]
pub(crate) enum Refusal {
    // Of operations.
    /// The mode doesn't fit.
    IsPacket,
    NoFile,
    NoOperation,
    IsVisited,
    GoesUp,
    GoesDown,
    IsBelow,
    IsAbove,
    HasPre,
    HasNoPre,
    NoFrame,
    IsDone,
    IsCancelled,
    // Of filters.
    NoFilter,
    IsNotAttached,
    IsNotDetaching,
    NeedNotEnd,
    NoEntry,
    NoFrameOf,
    NoLink,
    IsNotDrained,
    NoItem,
    ItemIsTaken,
    // Of activations.
    NoActivation,
    HasEnded,
    NoStep,
    /// The number of the step that others see first, from 1.
    IsSeen(u32),
    IsUnseen,
    NoChoice,
    IsLocked,
}

impl Refusal {
    ghost use Rattle.flt_explain_timeline.specs.Reasons as spec;

    /// The number of the step that others see first, if that is the reason.
    pub(crate) fn step(self) -> Option<u32>
        ensures { result ≡ spec.step_of self }
    {
        match self {
            Refusal::IsSeen(step) => Some(step),
            _ => None,
        }
    }

    /// The operations with which the reason begins.
    pub(crate) fn subject(self) -> &'static str
        ensures { result.now ≡ spec.subject self }
    {
        match self {
            Refusal::IsPacket => Operation::always_irp_named(),
            _ => "",
        }
    }

    /// The rest of the reason, in words; for a step that is seen, the words before its number.
    pub(crate) fn words(self) -> &'static str
        ensures { result.now ≡ spec.reason self }
    {
        match self {
            Refusal::IsPacket => " are `irp`",
            Refusal::NoFile => "files are numbered below 1,024",
            Refusal::NoOperation => "no such operation has arrived",
            Refusal::IsVisited => "a filter has the operation: it is in a visit",
            Refusal::GoesUp => "the operation is going up",
            Refusal::GoesDown => "the operation is going down",
            Refusal::IsBelow => "the operation is below the last filter: `lower` is next",
            Refusal::IsAbove => "the operation isn't below the last filter yet",
            Refusal::HasPre => "the filter there has a pre callback of it: `pre` is next",
            Refusal::HasNoPre =>
                "the filter there has no pre callback of it, or isn't attached: `skip` is next",
            Refusal::NoFrame => "no post callback of the operation is left",
            Refusal::IsDone => "the operation is done",
            Refusal::IsCancelled => "the operation is cancelled already",
            Refusal::NoFilter => "no filter has this altitude",
            Refusal::IsNotAttached => "the filter's teardown has begun already",
            Refusal::IsNotDetaching => "the filter isn't being detached",
            Refusal::NeedNotEnd =>
                "the operation isn't cancelled, and the filter isn't being detached",
            Refusal::NoEntry => "the filter's queue has no entry of the operation",
            Refusal::NoFrameOf => "the operation has no post callback of the filter left",
            Refusal::NoLink => "the filter has no context linked there",
            Refusal::IsNotDrained =>
                "the filter has a frame, an entry of its queue, a work item, a linked context or a running callback left",
            Refusal::NoItem => "there is no such work item",
            Refusal::ItemIsTaken => "the work item is taken already",
            Refusal::NoActivation => "no such activation has started",
            Refusal::HasEnded => "the activation has ended",
            Refusal::NoStep => "an entry has one step at least",
            Refusal::IsSeen(_) =>
                "the entry ends with the first step that others see, which is step ",
            Refusal::IsUnseen => "nobody else sees the last of these steps",
            Refusal::NoChoice => "the step leaves no choice: write `yes`",
            Refusal::IsLocked => "another activation holds the lock",
        }
    }
}

// ---- operations

fn of_arrival(kind: Operation, mode: Mode) -> Refusal
    ensures { result ≡ reasons.of_arrival kind mode }
{
    if kind.fits(mode) {
        Refusal::NoFile
    } else {
        Refusal::IsPacket
    }
}

/// Why a move isn't enabled: there is no such operation, or this reason.
fn of_operation(world: &World<'_>, operation: usize, why: Refusal) -> Refusal
    ensures { result ≡ reasons.of_operation world.now.store operation why }
{
    if operation < world.routes.len() {
        why
    } else {
        Refusal::NoOperation
    }
}

/// Why an operation doesn't go down: it is elsewhere, or at a filter, with a reason of its own.
fn of_position(
    world: &World<'_>,
    stack: &Stack<'_>,
    operation: usize,
    at_filter: Refusal,
) -> Refusal
    ensures { result ≡ reasons.of_position (length stack.now) at_filter (route_at world.now.store operation).position }
{
    match world.position(operation) {
        Position::Down(filter) if filter < stack.len() => at_filter,
        Position::Down(_) => Refusal::IsBelow,
        Position::Visiting => Refusal::IsVisited,
        Position::Up => Refusal::GoesUp,
    }
}

fn of_way_down(world: &World<'_>, stack: &Stack<'_>, serial: u32, at_filter: Refusal) -> Refusal
    ensures { result ≡ reasons.of_way_down stack.now world.now.store serial at_filter }
{
    let operation = serial as usize;
    let why = of_position(world, stack, operation, at_filter);
    of_operation(world, operation, why)
}

fn of_way_up(world: &World<'_>, operation: usize) -> Refusal
    ensures { result ≡ reasons.of_way_up (route_at world.now.store operation).position }
{
    match world.position(operation) {
        Position::Down(_) => Refusal::GoesDown,
        Position::Visiting => Refusal::IsVisited,
        Position::Up => Refusal::NoFrame,
    }
}

fn of_cancel(world: &World<'_>, operation: usize) -> Refusal
    ensures { result ≡ reasons.of_cancel world.now.store operation }
{
    let why = if world.is_cancelled(operation) {
        Refusal::IsCancelled
    } else {
        Refusal::IsDone
    };
    of_operation(world, operation, why)
}

// ---- filters

fn of_canceled(world: &World<'_>, filter: usize, operation: usize) -> Refusal
    ensures { result ≡ reasons.of_canceled world.now.store filter operation }
{
    let why = if world.is_cancelled(operation) || world.is_detaching(filter) {
        Refusal::NoEntry
    } else {
        Refusal::NeedNotEnd
    };
    of_operation(world, operation, why)
}

/// Why a teardown doesn't continue: it hasn't begun or is over, or a reason of its own.
fn of_teardown(world: &World<'_>, filter: usize, begun: Refusal) -> Refusal
    ensures { result ≡ reasons.of_teardown world.now.store filter begun }
{
    if world.is_detaching(filter) {
        begun
    } else {
        Refusal::IsNotDetaching
    }
}

/// Why a move of the filter of a number isn't enabled.
fn of_filter(world: &World<'_>, filter: usize, step: Move) -> Refusal
    ensures { result ≡ reasons.of_filter world.now.store filter step }
{
    match step {
        Move::Canceled { serial, .. } => of_canceled(world, filter, serial as usize),
        Move::Drain { serial, .. } => {
            let why = of_operation(world, serial as usize, Refusal::NoFrameOf);
            of_teardown(world, filter, why)
        }
        Move::Unlink { .. } => of_teardown(world, filter, Refusal::NoLink),
        Move::Detached { .. } => of_teardown(world, filter, Refusal::IsNotDrained),
        _ => Refusal::IsNotAttached,
    }
}

/// Why a move of the filter of an altitude isn't enabled.
fn at_altitude(world: &World<'_>, stack: &Stack<'_>, altitude: u32, step: Move) -> Refusal
    ensures { result ≡ reasons.at_altitude stack.now world.now.store altitude step }
{
    let filter = stack.number_of(altitude);
    if filter < stack.len() {
        of_filter(world, filter, step)
    } else {
        Refusal::NoFilter
    }
}

fn of_work(world: &World<'_>, item: usize) -> Refusal
    ensures { result ≡ reasons.of_work world.now.store item }
{
    if item < world.items().len() {
        Refusal::ItemIsTaken
    } else {
        Refusal::NoItem
    }
}

/// Why a move isn't enabled in this world.
pub(crate) fn of_move(world: &World<'_>, stack: &Stack<'_>, step: Move) -> Refusal
    ensures { result ≡ reasons.of_move stack.now world.now.store step }
{
    match step {
        Move::Arrive {
            operation,
            mode,
            ..
        } => of_arrival(operation, mode),
        Move::Pre { serial } => of_way_down(world, stack, serial, Refusal::HasNoPre),
        Move::Skip { serial } => of_way_down(world, stack, serial, Refusal::HasPre),
        Move::Lower { serial } => of_way_down(world, stack, serial, Refusal::IsAbove),
        Move::Post { serial } => {
            let why = of_way_up(world, serial as usize);
            of_operation(world, serial as usize, why)
        }
        Move::Cancel { serial } => of_cancel(world, serial as usize),
        Move::Work { item } => of_work(world, item as usize),
        Move::Canceled { altitude, .. }
        | Move::Detach { altitude }
        | Move::Drain { altitude, .. }
        | Move::Unlink { altitude, .. }
        | Move::Detached { altitude } => at_altitude(world, stack, altitude, step),
    }
}

// ---- steps

/// Why the last step of an entry isn't enabled with this choice, by what comes next in the activation: nothing at the end of its body.
pub(crate) fn of_step(next: Option<Upcoming<'_>>, grant: bool) -> Refusal
    ensures { (draining : Bool) (act : Acting) (statements rest : List Written) →
        MatchOption next.entry (statements ≡ []) (λ u. statements ≡ statement_of u ∷ rest) →
        result ≡ reasons.of_step (is_some (local_step draining act statements)) grant }
{
    if is_local(next) {
        Refusal::IsUnseen
    } else if grant {
        Refusal::IsLocked
    } else {
        Refusal::NoChoice
    }
}
