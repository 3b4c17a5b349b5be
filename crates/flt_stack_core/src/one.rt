//! One turn at a time, on a board of one thread.

ghost use Rattle.std.specs.VecDeque.{deque_len, deque_capacity};
ghost use Rattle.std.specs.Prelude.{◌≡◌, ◌≢◌, ◌↔◌, ◌≤◌, ◌+◌, ◌++◌, ◌∷◌, [], false, true, List, length};
ghost use Rattle.std.specs.Prelude.{drop, Ok, Err, Some, IfSome, IfOk, OnErr, if◌then◌else◌};
ghost use Rattle.flt_machine_dispatch.specs.Decisions.{is_cancelling};
ghost use Rattle.flt_machine.specs.Situations.{IsOwn, Now};
ghost use Rattle.flt_stack_core.specs.Turns as spec;
ghost use Rattle.flt_stack_core.specs.declared.turn_fault.TurnFault.TheVariants as fault;
ghost use Rattle.flt_rules.specs.Limits.{max_entries};

use crate::choices::Choices;
use crate::turn_fault::TurnFault;
use counted_heap::Heap;
use flt_machine::{ApplyFault, Board, Commit, Loaded, advance};
use flt_model::{Move, Subject};
use std::alloc::Global;
use std::collections::VecDeque;

/// How many subjects a turn names at most: an activation; and an operation, a work item or an entry.
const MOST_NAMED: usize = 2;

/// The result of a subject's turn.
#[derive(Drop)]
struct SubjectTurn {
    /// The subjects that it names.
    next: Vec<Subject>,
    /// Whether the subject goes to the end of the list.
    stays: bool,
}

impl SubjectTurn {
    /// Nothing is named.
    fn alone(alloc: Global, stays: bool) -> SubjectTurn
        ensures stays { result.stays ≡ stays }
        ensures next { result.next.items ≡ [] }
    {
        SubjectTurn {
            next: Vec::new(alloc),
            stays,
        }
    }
}

/// The move that a subject asks for, enabled or not; none of an activation, which makes steps. It is never a move that callers make.
pub fn asked_by(board: &Board, loaded: &Loaded, subject: Subject) -> Option<Move>
    requires own { IsOwn loaded.now board.now }
    ensures asks { Now loaded.now board.now (λ p m. spec.AsksFor p m.world subject result) }
    ensures following { IfSome result spec.IsFollowing }
    ensures few { IfSome result (λ step. is_cancelling step ≡ false) }
{
    match subject {
        Subject::Operation(serial) => board.next_move(loaded, serial),
        Subject::Activation(_) => None,
        Subject::Item(item) => Some(Move::Work { item }),
        Subject::Entry { altitude, serial } => Some(Move::Canceled { altitude, serial }),
        Subject::Detach(altitude) => board.next_detach(loaded, altitude),
    }
}

/// Whether a subject is a teardown that hasn't ended: its filter is being detached.
pub fn is_teardown(board: &Board, loaded: &Loaded, subject: Subject) -> bool
    requires own { IsOwn loaded.now board.now }
    ensures { Now loaded.now board.now (λ p m. result ≡ spec.is_teardown p m.world subject) }
{
    match subject {
        Subject::Detach(altitude) => board.is_detaching(loaded, altitude),
        _ => false,
    }
}

/// Whether a subject goes to the end of the list after this move. `teardown` says whether it is a teardown that hasn't ended.
pub fn stays_after(teardown: bool, made: Move) -> bool
    ensures { result ≡ spec.stays_after teardown (Some made) }
{
    teardown && !matches!(made, Move::Detached { .. })
}

/// Makes a subject's move, if it has one that is enabled.
fn move_on(
    heap: &mut Heap,
    board: &mut Board,
    loaded: &Loaded,
    subject: Subject,
) -> Result<SubjectTurn, TurnFault>
    requires own { IsOwn loaded.now board.old }
    ensures own { spec.RemainsBoard loaded.now board.old board.new }
    ensures entries { spec.GoesOn board.old board.new }
    ensures moved { IfOk result (λ t. spec.HasMoved loaded.now board.old board.new subject t.stays t.next.items) }
    ensures few { IfOk result (λ t. length t.next.items ≤ 2) }
    ensures full { result ≡ Err fault.Full → length board.old.entries ≡ max_entries }
    ensures refused { OnErr result (board.new ≡ board.old) }
    ensures granted { result ≢ Err fault.OutOfMemory → heap.new ≡ heap.old }
    ensures memory { result ≡ Err fault.OutOfMemory → heap.new ≢ heap.old }
{
    let teardown = is_teardown(board, loaded, subject);
    let Some(step) = asked_by(board, loaded, subject) else {
        return Ok(SubjectTurn::alone(heap.alloc(), teardown));
    };
    match board.apply(heap, loaded, step) {
        Ok(events) => Ok(SubjectTurn {
            next: events.next,
            stays: stays_after(teardown, step),
        }),
        Err(ApplyFault::NotEnabled) => Ok(SubjectTurn::alone(heap.alloc(), teardown)),
        Err(ApplyFault::Full) => Err(TurnFault::Full),
        Err(ApplyFault::OutOfMemory) => Err(TurnFault::OutOfMemory),
    }
}

/// Takes an activation from the board, and commits its steps.
fn go_on(
    heap: &mut Heap,
    board: &mut Board,
    loaded: &Loaded,
    choices: &mut Choices,
    activation: u32,
) -> Result<SubjectTurn, TurnFault>
    requires own { IsOwn loaded.now board.old }
    ensures own { spec.RemainsBoard loaded.now board.old board.new }
    ensures entries { spec.GoesOn board.old board.new }
    ensures gone { IfOk result
        (λ t. spec.HasGone loaded.now board.old board.new choices.old choices.new activation t.stays t.next.items) }
    ensures few { IfOk result (λ t. length t.next.items ≤ 2) }
    ensures full { result ≡ Err fault.Full → length board.old.entries ≡ max_entries }
    ensures refused { OnErr result ((board.new ≡ board.old) × (choices.new ≡ choices.old)) }
    ensures granted { result ≢ Err fault.OutOfMemory → heap.new ≡ heap.old }
    ensures memory { result ≡ Err fault.OutOfMemory → heap.new ≢ heap.old }
{
    let Some(frame) = board.checkout(activation) else {
        return Ok(SubjectTurn::alone(heap.alloc(), false));
    };
    let advanced = advance(loaded, frame);
    match board.commit(heap, loaded, &advanced, choices.next()) {
        Commit::Committed(events) => {
            choices.count(loaded, &advanced);
            Ok(SubjectTurn {
                next: events.next,
                stays: false,
            })
        }
        // What is committed was taken just now, so it isn't stale.
        Commit::Stale => Ok(SubjectTurn::alone(heap.alloc(), true)),
        Commit::Blocked => Ok(SubjectTurn::alone(heap.alloc(), true)),
        Commit::Full => Err(TurnFault::Full),
        Commit::OutOfMemory => Err(TurnFault::OutOfMemory),
    }
}

/// A subject's turn.
fn go(
    heap: &mut Heap,
    board: &mut Board,
    loaded: &Loaded,
    choices: &mut Choices,
    subject: Subject,
) -> Result<SubjectTurn, TurnFault>
    requires own { IsOwn loaded.now board.old }
    ensures own { spec.RemainsBoard loaded.now board.old board.new }
    ensures entries { spec.GoesOn board.old board.new }
    ensures had { IfOk result
        (λ t. spec.HasHad loaded.now board.old board.new choices.old choices.new subject t.stays t.next.items) }
    ensures few { IfOk result (λ t. length t.next.items ≤ 2) }
    ensures full { result ≡ Err fault.Full → length board.old.entries ≡ max_entries }
    ensures refused { OnErr result ((board.new ≡ board.old) × (choices.new ≡ choices.old)) }
    ensures granted { result ≢ Err fault.OutOfMemory → heap.new ≡ heap.old }
    ensures memory { result ≡ Err fault.OutOfMemory → heap.new ≢ heap.old }
{
    match subject {
        Subject::Activation(activation) => go_on(heap, board, loaded, choices, activation),
        _ => move_on(heap, board, loaded, subject),
    }
}

/// Some subjects come to the end of a list, which has room for them.
fn push_all(subjects: &mut VecDeque<Subject>, next: &[Subject])
    requires room { deque_len subjects.old + length next.now ≤ deque_capacity subjects.old }
    ensures items { subjects.new.items ≡ subjects.old.items ++ next.now }
    ensures room { deque_capacity subjects.new ≡ deque_capacity subjects.old }
{
    for subject in next {
        subjects.push_back_reserved(*subject);
    }
}

/// The first subject has had its turn.
fn put_behind(subjects: &mut VecDeque<Subject>, first: Subject, turned: SubjectTurn)
    requires room { deque_len subjects.old + 2 ≤ deque_capacity subjects.old }
    requires some { (others : List Subject) × (subjects.old.items ≡ first ∷ others) }
    requires few { length turned.next.items ≤ 2 }
    ensures { subjects.new.items ≡ drop 1 subjects.old.items ++ turned.next.items ++ (if turned.stays then first ∷ [] else []) }
{
    subjects.pop_front();
    push_all(subjects, turned.next.as_slice());
    if turned.stays {
        subjects.push_back_reserved(first);
    }
}

/// The first subject of a list has its turn. An operation, a work item or an entry makes its move, if it has one that is enabled; an
/// activation makes its local steps and the step after them. Then the subject leaves the list. It goes to the end of the list instead if it
/// is an activation that is blocked, or a teardown that has begun; a teardown leaves once it has ended its filter. The subjects to which
/// the move or the step gives a ticket come to the end first: at most an activation, and an operation, a work item or an entry. It answers
/// false if the list is empty. The loaded filters must be the board's own.
pub fn turn(
    heap: &mut Heap,
    board: &mut Board,
    loaded: &Loaded,
    subjects: &mut VecDeque<Subject>,
    choices: &mut Choices,
) -> Result<bool, TurnFault>
    requires own { IsOwn loaded.now board.old }
    ensures own { spec.RemainsBoard loaded.now board.old board.new }
    ensures entries { spec.GoesOn board.old board.new }
    ensures turned { result ≡ Ok true →
        spec.IsTurn loaded.now board.old board.new choices.old choices.new subjects.old.items subjects.new.items }
    ensures empty { (result ≡ Ok false) ↔ (subjects.old.items ≡ []) }
    ensures idle { result ≡ Ok false →
        (board.new ≡ board.old) × ((subjects.new.items ≡ subjects.old.items) × (choices.new ≡ choices.old)) }
    ensures full { result ≡ Err fault.Full → length board.old.entries ≡ max_entries }
    ensures refused { OnErr result ((board.new ≡ board.old) × ((subjects.new.items ≡ subjects.old.items) × (choices.new ≡ choices.old))) }
    ensures granted { result ≢ Err fault.OutOfMemory → heap.new ≡ heap.old }
    ensures memory { result ≡ Err fault.OutOfMemory → heap.new ≢ heap.old }
{
    let Some(first) = subjects.front().copied() else {
        return Ok(false);
    };
    heap.reserve_queue(subjects, MOST_NAMED)?;
    let turned = go(heap, board, loaded, choices, first)?;
    put_behind(subjects, first, turned);
    Ok(true)
}
