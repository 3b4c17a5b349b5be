//! The subjects that get a ticket by a step, since the next move may be about them. They are found before the step's change is made, by
//! reading alone.

ghost use Rattle.std.specs.Prelude.{◌≡◌, ◌≢◌, ℕ, ◌+◌, ◌≤◌, ◌&&◌, ◌++◌, true, false, not, nat_lt};
ghost use Rattle.std.specs.Prelude.{length, map, get_or, Option, OnOk, OnErr, IfOk};
ghost use Rattle.std.specs.List.{list_any};
ghost use Rattle.flt_machine.specs.Tickets as spec;
ghost use Rattle.flt_model.specs.Moves.{is_entry_of, is_up};
ghost use Rattle.flt_model.specs.World as machine;
ghost use Rattle.flt_model.specs.declared.parts.Position.TheVariants.{Down, Up};
ghost use Rattle.flt_model.specs.declared.subject.Subject.TheVariants as subject;
ghost use Rattle.flt_machine_store.specs.Changes.{after_change, cancels_entries, IsPossible};
ghost use Rattle.flt_machine_store.specs.declared.change.Change.TheVariants as change;
ghost use Rattle.flt_rules.specs.Limits.{max_entries, max_operations};

use counted_heap::Heap;
use flt_machine_frames::Loaded;
use flt_machine_store::{Change, Store};
use flt_model::{Position, Subject, Way};
use std::alloc::AllocError;

/// The subjects that get a ticket by a change of the store, with the activation that starts or hasn't ended.
pub(crate) fn subjects_by(
    heap: &mut Heap,
    loaded: &Loaded,
    store: &Store,
    change: Change,
    activation: Option<Subject>,
) -> Result<Vec<Subject>, AllocError>
    requires possible { IsPossible store.now change }
    requires few { length store.now.arrivals ≤ max_operations }
    requires items { length store.now.items ≤ max_entries }
    requires queues { length store.now.queues ≡ length store.now.presences }
    ensures next { IfOk result (λ next. next.items ≡ spec.subjects loaded.now.altitudes store.now (after_change store.now change)
        (spec.one_of activation)) }
    ensures few { cancels_entries change ≡ false → IfOk result (λ next. length next.items ≤ 2) }
    ensures granted { OnOk result (heap.new ≡ heap.old) }
    ensures memory { OnErr result (heap.new ≢ heap.old) }
{
    let mut next = Vec::new(heap.alloc());
    push_one(heap, operation_by(store, change), &mut next)?;
    push_one(heap, activation, &mut next)?;
    push_one(heap, item_by(store, change), &mut next)?;
    push_entries(heap, loaded, store, change, &mut next)?;
    push_one(heap, teardown_by(loaded, change), &mut next)?;
    Ok(next)
}

/// Adds a subject, if there is one.
fn push_one(
    heap: &mut Heap,
    one: Option<Subject>,
    next: &mut Vec<Subject>,
) -> Result<(), AllocError>
    ensures next { OnOk result (next.new.items ≡ next.old.items ++ spec.one_of one) }
    ensures granted { OnOk result (heap.new ≡ heap.old) }
    ensures memory { OnErr result (heap.new ≢ heap.old) }
{
    if let Some(one) = one {
        heap.push(next, one)?;
    }
    Ok(())
}

/// The operation that a change leaves neither in a visit nor done.
fn operation_by(store: &Store, change: Change) -> Option<Subject>
    requires possible { IsPossible store.now change }
    requires few { length store.now.arrivals ≤ max_operations }
    ensures { spec.operations store.now (after_change store.now change) ≡ spec.one_of result }
{
    match change {
        Change::Arrive(..) => Some(Subject::Operation(store.operations() as u32)),
        Change::Skip(serial, _) => Some(Subject::Operation(serial)),
        Change::Lower(serial) => {
            if store.is_spent(serial) {
                None
            } else {
                Some(Subject::Operation(serial))
            }
        }
        Change::Settle(visit, _, way) => settled_operation(store, visit, way),
        _ => None,
    }
}

/// The work item that a change queues.
fn item_by(store: &Store, change: Change) -> Option<Subject>
    requires items { length store.now.items ≤ max_entries }
    ensures { spec.newcomer subject.Item (length store.now.items) (length (after_change store.now change).items) ≡ spec.one_of result }
{
    match change {
        Change::Queue(..) => Some(Subject::Item(store.items() as u32)),
        _ => None,
    }
}

/// The operation of a visit, if settling the visit by this `Way` leaves the operation neither in a visit nor done.
fn settled_operation(store: &Store, visit: usize, way: Way) -> Option<Subject>
    ensures { (x : Option ℕ) → spec.operations store.now (after_change store.now (change.Settle visit x way)) ≡ spec.one_of result }
{
    if !store.is_led(visit) {
        return None;
    }
    let seen = store.visit(visit);
    let from = store.position(seen.operation);
    let spent = store.is_spent_after(seen.operation, visit);
    if leads_on(from, seen.filter, way, spent) {
        Some(Subject::Operation(seen.operation))
    } else {
        None
    }
}

/// Whether an operation at a position moves on by this `Way` from a filter without being done: it is done once it is up and spent.
fn leads_on(from: Position, filter: usize, way: Way, spent: bool) -> bool
    ensures { result ≡ (spec.goes_on from (spec.lands filter way from)
        && not (is_up (spec.lands filter way from) && spent)) }
{
    match way {
        Way::Passes => goes_below(from, filter),
        Way::Frames => goes_below(from, filter),
        Way::Ends(_) => goes_up(from) && !spent,
        Way::Rises => goes_up(from) && !spent,
        Way::Stays => false,
    }
}

/// Whether an operation at a position would move on below a filter.
fn goes_below(from: Position, filter: usize) -> bool
    ensures { result ≡ spec.goes_on from (Down (filter + 1)) }
{
    match from {
        Position::Down(from) => from == 0 || from - 1 != filter,
        Position::Visiting => true,
        Position::Up => false,
    }
}

/// Whether an operation at a position would move on by going up.
fn goes_up(from: Position) -> bool
    ensures { result ≡ spec.goes_on from Up }
{
    !matches!(from, Position::Up)
}

/// The entries of queues that a change lets be cancelled.
fn push_entries(
    heap: &mut Heap,
    loaded: &Loaded,
    store: &Store,
    change: Change,
    next: &mut Vec<Subject>,
) -> Result<(), AllocError>
    requires possible { IsPossible store.now change }
    requires few { length store.now.arrivals ≤ max_operations }
    requires queues { length store.now.queues ≡ length store.now.presences }
    ensures next { OnOk result (next.new.items ≡ next.old.items
        ++ spec.by_altitude (spec.entries_of store.now (after_change store.now change)) 0 loaded.now.altitudes) }
    ensures few { cancels_entries change ≡ false → OnOk result (length next.new.items ≤ length next.old.items + 1) }
    ensures granted { OnOk result (heap.new ≡ heap.old) }
    ensures memory { OnErr result (heap.new ≢ heap.old) }
{
    match change {
        Change::Cancel(serial) => push_cancelled(heap, loaded, store, serial, next),
        Change::Insert(filter, visit, _) => push_inserted(heap, loaded, store, filter, visit, next),
        Change::Detach(filter) => push_detached(heap, loaded, store, filter, next),
        _ => Ok(()),
    }
}

/// Whether a filter's queue has an entry of an operation.
fn stands(store: &Store, filter: usize, serial: u32) -> bool
    ensures { result ≡ list_any (is_entry_of store.now serial) (machine.queue_at store.now filter) }
{
    store.first_entry(filter, serial).is_some()
}

/// Whether there is an operation of the number.
fn is_there(store: &Store, serial: u32) -> bool
    ensures { result ≡ nat_lt serial (length store.now.arrivals) }
{
    (serial as usize) < store.operations()
}

/// Whether a filter gets an entry of an operation that is cancelled.
fn is_cancelled_at(store: &Store, filter: usize, serial: u32) -> bool
    ensures { result ≡ ((nat_lt serial (length store.now.arrivals)
        && list_any (is_entry_of store.now serial) (machine.queue_at store.now filter))
        && not (machine.is_detaching (machine.presence_at store.now filter))) }
{
    is_there(store, serial) && stands(store, filter, serial) && !store.is_detaching(filter)
}

/// The entries of an operation that is cancelled, unless the filter is being detached.
fn push_cancelled(
    heap: &mut Heap,
    loaded: &Loaded,
    store: &Store,
    serial: u32,
    next: &mut Vec<Subject>,
) -> Result<(), AllocError>
    requires possible { IsPossible store.now (change.Cancel serial) }
    ensures next { OnOk result (next.new.items ≡ next.old.items
        ++ spec.by_altitude (spec.entries_of store.now (after_change store.now (change.Cancel serial))) 0 loaded.now.altitudes) }
    ensures granted { OnOk result (heap.new ≡ heap.old) }
    ensures memory { OnErr result (heap.new ≢ heap.old) }
{
    let altitudes = loaded.altitudes.as_slice();
    let mut filter = altitudes.len();
    while filter > 0 {
        filter -= 1;
        if is_cancelled_at(store, filter, serial) {
            heap.push(
                next,
                Subject::Entry {
                    altitude: altitudes[filter],
                    serial,
                },
            )?;
        }
    }
    Ok(())
}

/// Whether an operation is cancelled, and a filter's queue has no entry of it.
fn is_new(store: &Store, filter: usize, serial: u32) -> bool
    ensures { result ≡ (nat_lt serial (length store.now.arrivals) && ((machine.route_at store.now serial).cancelled
        && not (list_any (is_entry_of store.now serial) (machine.queue_at store.now filter)))) }
{
    is_there(store, serial) && store.cancelled(serial) && !stands(store, filter, serial)
}

/// Adds an entry that is inserted into a queue after its operation was cancelled, unless the queue has one of that operation already.
fn push_inserted(
    heap: &mut Heap,
    loaded: &Loaded,
    store: &Store,
    filter: usize,
    visit: usize,
    next: &mut Vec<Subject>,
) -> Result<(), AllocError>
    requires possible { machine.is_attached (machine.presence_at store.now filter) ≡ true }
    requires queues { length store.now.queues ≡ length store.now.presences }
    ensures next { (x : Option ℕ) → OnOk result (next.new.items ≡ next.old.items
        ++ spec.by_altitude (spec.entries_of store.now (after_change store.now (change.Insert filter visit x))) 0 loaded.now.altitudes) }
    ensures few { OnOk result (length next.new.items ≤ length next.old.items + 1) }
    ensures granted { OnOk result (heap.new ≡ heap.old) }
    ensures memory { OnErr result (heap.new ≢ heap.old) }
{
    let serial = store.visit(visit).operation;
    if !is_new(store, filter, serial) {
        return Ok(());
    }
    if let Some(altitude) = loaded.altitudes.get(filter) {
        heap.push(
            next,
            Subject::Entry {
                altitude: *altitude,
                serial,
            },
        )?;
    }
    Ok(())
}

/// The entries of a filter that is being detached, but those whose operation is cancelled already.
fn push_detached(
    heap: &mut Heap,
    loaded: &Loaded,
    store: &Store,
    filter: usize,
    next: &mut Vec<Subject>,
) -> Result<(), AllocError>
    requires possible { machine.is_attached (machine.presence_at store.now filter) ≡ true }
    requires few { length store.now.arrivals ≤ max_operations }
    ensures next { OnOk result (next.new.items ≡ next.old.items
        ++ spec.by_altitude (spec.entries_of store.now (after_change store.now (change.Detach filter))) 0 loaded.now.altitudes) }
    ensures granted { OnOk result (heap.new ≡ heap.old) }
    ensures memory { OnErr result (heap.new ≢ heap.old) }
{
    let Some(altitude) = loaded.altitudes.get(filter) else {
        return Ok(());
    };
    let marks = store.waiting(heap, filter)?;
    push_marked(heap, *altitude, store, marks.as_slice(), next)
}

/// The marked operations that aren't cancelled, by rising serial numbers.
fn push_marked(
    heap: &mut Heap,
    altitude: u32,
    store: &Store,
    marks: &[bool],
    next: &mut Vec<Subject>,
) -> Result<(), AllocError>
    requires few { length marks.now ≤ max_operations }
    ensures next { OnOk result (next.new.items ≡ next.old.items ++ map (subject.Entry altitude)
        (spec.passing (λ o. get_or marks.now o false && not (machine.route_at store.now o).cancelled) (length marks.now))) }
    ensures granted { OnOk result (heap.new ≡ heap.old) }
    ensures memory { OnErr result (heap.new ≢ heap.old) }
{
    let mut serial = 0;
    while serial < marks.len() {
        if marks[serial] && !store.cancelled(serial as u32) {
            heap.push(
                next,
                Subject::Entry {
                    altitude,
                    serial: serial as u32,
                },
            )?;
        }
        serial += 1;
    }
    Ok(())
}

/// The teardown that a change begins.
fn teardown_by(loaded: &Loaded, change: Change) -> Option<Subject>
    ensures { (s : machine.Store) → IsPossible s change →
        spec.by_altitude (spec.teardown_of s (after_change s change)) 0 loaded.now.altitudes ≡ spec.one_of result }
{
    match change {
        Change::Detach(filter) => match loaded.altitudes.get(filter) {
            Some(altitude) => Some(Subject::Detach(*altitude)),
            None => None,
        },
        _ => None,
    }
}
