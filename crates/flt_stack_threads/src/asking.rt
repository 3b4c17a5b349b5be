//! The part of a caller's call that holds the lock. It puts the tickets first, so that a call that is refused adds nothing; a worker that
//! takes one can make no move before the lock is free.
ghost use Rattle.std.specs.Prelude.{◌≡◌, ◌≢◌, ◌≤◌, ◌⊎◌, ◌↔◌, ◌+◌, ◌<◌, ◌++◌, ◌∷◌, [], false, true, List};
ghost use Rattle.std.specs.Prelude.{length, is_some, Err, IfErr, IfOk, IfSome, None, OnErr, OnOk, Some};
ghost use Rattle.std.specs.BTreeSet.{insert_key};
ghost use Rattle.std.specs.Ordering.{nat_cmp};
ghost use Rattle.flt_stack_core.specs.Receipts.{receipt};
ghost use Rattle.flt_stack_core.specs.Refusals as refusals;
ghost use Rattle.flt_stack_core.specs.declared.fault.ArriveFault.TheVariants as arrive_fault;
ghost use Rattle.flt_stack_core.specs.declared.fault.DetachFault.TheVariants as detach_fault;
ghost use Rattle.flt_machine_frames.specs.Loading.{AreLoaded};
ghost use Rattle.flt_machine.specs.Situations.{Now};
ghost use Rattle.flt_machine.specs.Tickets as tickets;
ghost use Rattle.flt_rules.specs.Place.{fits_mode};
ghost use Rattle.flt_model.specs.Moves.{make};
ghost use Rattle.flt_model.specs.declared.moves.JournalEntry.TheVariants as journal_entry;
ghost use Rattle.flt_model.specs.declared.moves.Move.TheVariants as moves;
ghost use Rattle.flt_model.specs.declared.subject.Subject.{Subject};
ghost use Rattle.flt_model.specs.declared.subject.Subject.TheVariants as ticket;
ghost use Rattle.flt_pool.specs.Hands.{having_put};
ghost use Rattle.flt_stack_threads.specs.Asking.{HasCalled};
ghost use Rattle.flt_stack_threads.specs.Places.{IsCallerOf, asked_by, put_by};
ghost use Rattle.flt_rules.specs.Limits.{max_entries, max_operations};

use crate::seats::CallerSeat;
use crate::{CallerPlace, Exchange, OutOfMemory, Ticket};
use flt_machine::Loaded;
use flt_model::Move;
use flt_rules::{Mode, Operation};
use flt_stack_core::{ArriveFault, Core, DetachFault, StackName};
use std::alloc::{AllocError, Global};
use std::sync::Wait;

/// An operation arrives. Its ticket is put before it does.
pub(crate) fn arrive_on<N: StackName, R: Wait>(
    rt: &R,
    alloc: Global,
    exchange: &Exchange,
    loaded: &Loaded,
    core: &mut Core<N>,
    seat: &mut CallerSeat<N>,
    operation: Operation,
    mode: Mode,
    file: u32,
) -> Result<u32, ArriveFault>
    requires seat { IsCallerOf exchange.now seat.old.place }
    requires loaded { AreLoaded N.trees loaded.now }
    requires mode { fits_mode operation mode ≡ true }
    requires file { file < 1024 }
    ensures called { HasCalled exchange.now seat.old seat.new arrive_fault.Full result }
    ensures serial { IfOk result (λ serial. serial ≡ length core.old.board.store.arrivals) }
    ensures entry { OnOk result (core.new.board.entries
        ≡ core.old.board.entries ++ journal_entry.Move (moves.Arrive operation mode file) ∷ []) }
    ensures receipt { IfOk result (λ serial. seat.new.receipts.list.items ≡ seat.old.receipts.list.items
        ++ receipt (length core.old.board.entries) (moves.Arrive operation mode file) (Some serial) ∷ []) }
    ensures ticket { IfOk result (λ serial. put_by seat.new.place ≡ having_put (ticket.Operation serial) (put_by seat.old.place)) }
    ensures full { (result ≡ Err arrive_fault.Full)
        ↔ ((length core.old.board.entries ≡ max_entries) ⊎ (length core.old.board.store.arrivals ≡ max_operations)) }
    ensures refused { OnErr result (core.new.board ≡ core.old.board) }
    ensures choices { core.new.choices ≡ core.old.choices }
{
    let step = Move::Arrive {
        operation,
        mode,
        file,
    };
    if core.is_full_for(step) {
        core.count_full(&mut seat.fulls, step);
        return Err(ArriveFault::Full);
    }
    let serial = core.board().operations() as u32;
    put_one(rt, exchange, &mut seat.place, Ticket::Operation(serial))?;
    core.arrive(alloc, loaded, &mut seat.receipts, operation, mode, file)
}

/// A teardown begins. Its tickets are put before it does.
pub(crate) fn detach_on<N: StackName, R: Wait>(
    rt: &R,
    alloc: Global,
    exchange: &Exchange,
    loaded: &Loaded,
    core: &mut Core<N>,
    seat: &mut CallerSeat<N>,
    altitude: u32,
) -> Result<(), DetachFault>
    requires seat { IsCallerOf exchange.now seat.old.place }
    requires loaded { AreLoaded N.trees loaded.now }
    ensures called { HasCalled exchange.now seat.old seat.new detach_fault.Full result }
    ensures entry { OnOk result (core.new.board.entries
        ≡ core.old.board.entries ++ journal_entry.Move (moves.Detach altitude) ∷ []) }
    ensures receipt { OnOk result (seat.new.receipts.list.items ≡ seat.old.receipts.list.items
        ++ receipt (length core.old.board.entries) (moves.Detach altitude) None ∷ []) }
    ensures tickets { OnOk result (Now loaded.now core.old.board (λ p m. (put_by seat.new.place).put ≡ (put_by seat.old.place).put
        ++ tickets.by_move loaded.now.altitudes m.world (make p m.world (moves.Detach altitude)))) }
    ensures fault { IfSome (refusals.detach_fault N.trees core.old.board altitude) (λ fault. result ≡ Err fault) }
    ensures memory { refusals.detach_fault N.trees core.old.board altitude ≡ None
        → IfErr result (λ fault. fault ≡ detach_fault.OutOfMemory) }
    ensures refused { OnErr result (core.new.board ≡ core.old.board) }
    ensures more { (more : List Subject) × ((put_by seat.new.place).put ≡ (put_by seat.old.place).put ++ more) }
    ensures nothing { (result ≡ Err detach_fault.NoSuch) ⊎ ((result ≡ Err detach_fault.Already) ⊎ (result ≡ Err detach_fault.Full)) →
        put_by seat.new.place ≡ put_by seat.old.place }
    ensures no_such { (result ≡ Err detach_fault.NoSuch) ↔ (refusals.has_altitude N.trees altitude ≡ false) }
    ensures choices { core.new.choices ≡ core.old.choices }
{
    if let Some(fault) = core.detach_fault(loaded, altitude) {
        if let DetachFault::Full = fault {
            core.count_full(&mut seat.fulls, Move::Detach { altitude });
        }
        return Err(fault);
    }
    let next = core.tickets(alloc, loaded, Move::Detach { altitude })?;
    put_all(rt, exchange, &mut seat.place, next.as_slice())?;
    core.detach(alloc, loaded, &mut seat.receipts, altitude)
}

/// A choice is refused from now on, if it is still to come.
pub(crate) fn refuse_on<N: StackName>(core: &mut Core<N>, choice: u64) -> Result<(), OutOfMemory>
    ensures listed { OnOk result (core.new.choices.refused.keys ≡ insert_key nat_cmp core.old.choices.refused.keys choice) }
    ensures same { OnErr result (core.new.choices.refused.keys ≡ core.old.choices.refused.keys) }
    ensures rest { (core.new.board ≡ core.old.board) × (core.new.choices.made ≡ core.old.choices.made) }
{
    core.refuse(choice)
}

/// Puts a ticket where any worker finds it.
fn put_one<R: Wait>(
    rt: &R,
    exchange: &Exchange,
    place: &mut CallerPlace,
    ticket: Ticket,
) -> Result<(), OutOfMemory>
    requires { IsCallerOf exchange.now place.old }
    ensures place { IsCallerOf exchange.now place.new }
    ensures put { OnOk result (put_by place.new ≡ having_put ticket (put_by place.old)) }
    ensures same { OnErr result (put_by place.new ≡ put_by place.old) }
    ensures requests { asked_by place.new ≡ asked_by place.old }
{
    match exchange.put(rt, place, ticket) {
        Ok(()) => Ok(()),
        Err(_) => Err(AllocError),
    }
}

/// Puts tickets where any worker finds them, in their order. If one is refused, those before it stay.
fn put_all<R: Wait>(
    rt: &R,
    exchange: &Exchange,
    place: &mut CallerPlace,
    tickets: &[Ticket],
) -> Result<(), OutOfMemory>
    requires { IsCallerOf exchange.now place.old }
    ensures place { IsCallerOf exchange.now place.new }
    ensures put { OnOk result ((put_by place.new).put ≡ (put_by place.old).put ++ tickets.now) }
    ensures more { (more : List Subject) × ((put_by place.new).put ≡ (put_by place.old).put ++ more) }
    ensures requests { asked_by place.new ≡ asked_by place.old }
{
    for ticket in tickets {
        put_one(rt, exchange, place, *ticket)?;
    }
    Ok(())
}
