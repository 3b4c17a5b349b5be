//! The world of the monitor, and reads of it by number: an object that isn't there has ended, is settled and counts nothing.

ghost use Rattle.std.specs.Prelude.{◌≡◌, ◌+◌, true, get_or, set, replicate, sum_by, find, filter, ◌==◌};
ghost use Rattle.std.specs.Prelude.{is_some, length, Some, None, [], ◌∷◌, ◌++◌, OnOk, IfOk, MatchOption};
ghost use Rattle.flt_model.specs.Effects.{onward};
ghost use Rattle.flt_model.specs.Locks as locks;
ghost use Rattle.flt_model.specs.Moves as moves;
ghost use Rattle.flt_model.specs.Reads as reads;
ghost use Rattle.flt_model.specs.Variables as variables;
ghost use Rattle.flt_model.specs.Violations.{in_queue, in_item};
ghost use Rattle.flt_model.specs.World as spec;
ghost use Rattle.flt_model.specs.declared.parts.Presence.TheVariants.{Attached, Detached};
ghost use Rattle.flt_replay_world.specs.Opening.{opened};
ghost use Rattle.std.specs.List.{AllByRecursion, list_any};
ghost use Rattle.flt_replay_records.specs.Tickets.{is_of};
ghost use Rattle.flt_replay_records.specs.Writes.{written};
ghost use Rattle.flt_replay_world.specs.Happening.{later};

use flt_model::{Arrival, Entry, Holder, Item, Link, Position, Presence, Variables};
use flt_replay_records::{
    Activation, Actor, Contexts, Holders, Route, Spare, Visit, Visits, Waiting, Write,
    same_tests_find_the_same,
};
use flt_rules::{Access, HeldLock, LockNumber, Mode, Operation, Place, Stage};
use flt_tree::{Atom, ContextVariable, OperationVariable, Statement};
use sqlite_items::{Items, at};
use std::alloc::{AllocError, Global};
use std::marker::Model;

/// The monitor's world: the activations and all that they share. Presences, queues and lock holders are by filter.
#[derive(Drop)]
pub struct World<'a> {
    pub actors: Vec<Actor>,
    pub activations: Vec<Activation<'a>>,
    pub spare: Spare<'a>,
    presences: Vec<Presence>,
    /// By lock.
    holders: Vec<[Holders; 8]>,
    pub arrivals: Vec<Arrival>,
    pub routes: Vec<Route>,
    visits: Visits,
    contexts: Contexts,
    waiting: Waiting,
}

impl<'a> Model for World<'a> {
    ghost use Rattle.flt_model.specs.World as machine;

    ghost Value = { machine.World };

    ghost use Rattle.std.specs.Coded.{codes};
    ghost use Rattle.flt_replay_records.specs.Coded.{activation_code};

    ghost coded = { Prim.hlevel (codes, activation_code) };

    ghost view = { λ w. record {
      actors = w.actors.items;
      activations = w.activations.items;
      store = record {
        presences = w.presences.items;
        queues = w.waiting.0;
        holders = w.holders.items;
        arrivals = w.arrivals.items;
        routes = w.routes.items;
        visits = w.visits.0;
        settled = w.visits.1;
        contexts = w.contexts;
        items = w.waiting.1;
      };
    } };
}

#[tactic(auto, using(crate::proofs::Reading::found, crate::proofs::Reading::missing))]
fn presence_among(presences: &[Presence], filter: usize) -> Presence
    ensures { result ≡ get_or presences.now filter Detached }
{
    match at(presences, filter) {
        Some(presence) => *presence,
        None => Presence::Detached,
    }
}

/// Locks that nobody holds.
fn unheld(alloc: Global) -> [Holders; 8]
    ensures { result ≡ replicate 8 [] }
{
    [
        Holders::new(alloc),
        Holders::new(alloc),
        Holders::new(alloc),
        Holders::new(alloc),
        Holders::new(alloc),
        Holders::new(alloc),
        Holders::new(alloc),
        Holders::new(alloc),
    ]
}

/// Mostly there are none to copy.
fn copy_of(alloc: Global, locks: &[HeldLock]) -> Result<Items<HeldLock>, AllocError>
    ensures { IfOk result (λ copied. copied ≡ locks.now) }
{
    if locks.is_empty() {
        return Ok(Items::new(alloc));
    }
    Items::from_slice(alloc, locks)
}

// ---- what is there at a number

impl<'a> World<'a> {
    /// Whether a filter's instance is there; one that has no number was detached.
    pub fn presence(&self, filter: usize) -> Presence
        ensures { result ≡ spec.presence_at self.now.store filter }
    {
        presence_among(self.presences.as_slice(), filter)
    }

    /// Whether the filter is there, and not being detached.
    pub fn is_attached(&self, filter: usize) -> bool
        ensures { result ≡ spec.is_attached (spec.presence_at self.now.store filter) }
    {
        matches!(self.presence(filter), Presence::Attached)
    }

    /// Whether the filter is being detached.
    pub fn is_detaching(&self, filter: usize) -> bool
        ensures { result ≡ spec.is_detaching (spec.presence_at self.now.store filter) }
    {
        matches!(self.presence(filter), Presence::Detaching)
    }

    /// The kind of an operation; a read if it isn't there.
    #[tactic(auto, using(crate::proofs::Reading::found, crate::proofs::Reading::missing))]
    pub fn kind(&self, operation: usize) -> Operation
        ensures { result ≡ (spec.arrival_at self.now.store operation).kind }
    {
        match at(self.arrivals.as_slice(), operation) {
            Some(arrival) => arrival.kind,
            None => Operation::Read,
        }
    }

    /// How an operation was sent; as a packet if it isn't there.
    #[tactic(auto, using(crate::proofs::Reading::found, crate::proofs::Reading::missing))]
    pub fn mode(&self, operation: usize) -> Mode
        ensures { result ≡ (spec.arrival_at self.now.store operation).mode }
    {
        match at(self.arrivals.as_slice(), operation) {
            Some(arrival) => arrival.mode,
            None => Mode::Irp,
        }
    }

    /// The number of an operation's file; 0 if it isn't there.
    #[tactic(auto, using(crate::proofs::Reading::found, crate::proofs::Reading::missing))]
    pub fn file(&self, operation: usize) -> u32
        ensures { result ≡ (spec.arrival_at self.now.store operation).file }
    {
        match at(self.arrivals.as_slice(), operation) {
            Some(arrival) => arrival.file,
            None => 0,
        }
    }

    /// The position of an operation; up if it isn't there.
    #[tactic(auto, using(crate::proofs::Reading::found, crate::proofs::Reading::missing))]
    pub fn position(&self, operation: usize) -> Position
        ensures { result ≡ (spec.route_at self.now.store operation).position }
    {
        match at(self.routes.as_slice(), operation) {
            Some(route) => route.position,
            None => Position::Up,
        }
    }

    /// Whether an operation was cancelled; true of one that isn't there.
    #[tactic(auto, using(crate::proofs::Reading::found, crate::proofs::Reading::missing))]
    pub fn is_cancelled(&self, operation: usize) -> bool
        ensures { result ≡ (spec.route_at self.now.store operation).cancelled }
    {
        match at(self.routes.as_slice(), operation) {
            Some(route) => route.cancelled,
            None => true,
        }
    }

    /// How many contexts there have been; freed ones stay.
    pub fn context_count(&self) -> usize
        ensures { result ≡ length self.now.store.contexts }
    {
        self.contexts.len()
    }

    /// Whether a context has a link that the filter made.
    pub fn has_link(&self, filter: usize) -> bool
        ensures { result ≡ list_any (λ (c : spec.Context). moves.is_linked_by filter c.link) self.now.store.contexts }
    {
        self.contexts.is_any_linked_by(filter)
    }

    /// The work items by number.
    pub fn items(&self) -> &[Option<Item>]
        ensures { result.now ≡ self.now.store.items }
    {
        self.waiting.items()
    }

    /// How many visits there have been.
    pub fn visit_count(&self) -> usize
        ensures { result ≡ length self.now.store.visits }
    {
        self.visits.len()
    }

    /// Whether all visits of an operation are settled.
    pub fn are_settled(&self, operation: usize) -> bool
        ensures { result ≡ moves.are_settled operation self.now.store.visits self.now.store.settled }
    {
        self.visits.are_settled(operation)
    }

    /// How often a visit is in an entry or in a work item.
    pub fn waiting(&self, visit: usize) -> u64
        ensures { result ≡ sum_by (in_queue visit) self.now.store.queues + sum_by (in_item visit) self.now.store.items }
    {
        self.waiting.count(visit)
    }

    /// Whether a filter's queue is empty.
    pub fn is_queue_empty(&self, filter: usize) -> bool
        ensures { result ≡ moves.is_empty (spec.queue_at self.now.store filter) }
    {
        self.waiting.is_empty(filter)
    }

    /// The operation that a visit is of.
    #[tactic(auto, using(crate::proofs::Reading::found, crate::proofs::Reading::missing))]
    pub fn operation_of(&self, visit: usize) -> usize
        ensures { result ≡ (spec.visit_at self.now.store visit).operation }
    {
        match at(self.visits.as_slice(), visit) {
            Some(visit) => visit.operation as usize,
            None => 0,
        }
    }

    /// The filter that a visit is at.
    #[tactic(auto, using(crate::proofs::Reading::found, crate::proofs::Reading::missing))]
    pub fn filter_of(&self, visit: usize) -> usize
        ensures { result ≡ (spec.visit_at self.now.store visit).filter }
    {
        match at(self.visits.as_slice(), visit) {
            Some(visit) => visit.filter as usize,
            None => 0,
        }
    }

    /// Whether a visit is before or after the filters below; after if it isn't there.
    #[tactic(auto, using(crate::proofs::Reading::found, crate::proofs::Reading::missing))]
    pub fn stage(&self, visit: usize) -> Stage
        ensures { result ≡ (spec.visit_at self.now.store visit).stage }
    {
        match at(self.visits.as_slice(), visit) {
            Some(visit) => visit.stage,
            None => Stage::Post,
        }
    }

    /// Whether a visit is one of a teardown; true of one that isn't there.
    #[tactic(auto, using(crate::proofs::Reading::found, crate::proofs::Reading::missing))]
    pub fn is_draining(&self, visit: usize) -> bool
        ensures { result ≡ (spec.visit_at self.now.store visit).draining }
    {
        match at(self.visits.as_slice(), visit) {
            Some(visit) => visit.draining,
            None => true,
        }
    }

    /// Whether the filter's part in the operation is over; true of a visit that isn't there.
    #[tactic(auto, using(crate::proofs::Reading::found, crate::proofs::Reading::missing))]
    pub fn is_settled(&self, visit: usize) -> bool
        ensures { result ≡ spec.is_settled self.now.store visit }
    {
        match at(self.visits.settled(), visit) {
            Some(settled) => *settled,
            None => true,
        }
    }

    /// The kind of a visit's operation.
    pub fn kind_of(&self, visit: usize) -> Operation
        ensures { result ≡ (spec.arrival_of self.now.store visit).kind }
    {
        self.kind(self.operation_of(visit))
    }

    /// How the operation of a visit was sent.
    pub fn mode_of(&self, visit: usize) -> Mode
        ensures { result ≡ (spec.arrival_of self.now.store visit).mode }
    {
        self.mode(self.operation_of(visit))
    }

    /// The number of the file of a visit's operation.
    pub fn file_of(&self, visit: usize) -> u32
        ensures { result ≡ (spec.arrival_of self.now.store visit).file }
    {
        self.file(self.operation_of(visit))
    }

    /// The filter that allocated a context.
    #[inline(always)]
    pub fn owner(&self, context: usize) -> usize
        ensures { result ≡ (spec.context_at self.now.store context).owner }
    {
        self.contexts.owner(context)
    }

    /// The references of a context; 0 if it is freed or not there.
    #[inline(always)]
    pub fn references(&self, context: usize) -> u64
        ensures { result ≡ (spec.context_at self.now.store context).references }
    {
        self.contexts.references(context)
    }

    /// Whether a context has no reference.
    pub fn is_freed(&self, context: usize) -> bool
        ensures { result ≡ spec.is_freed (spec.context_at self.now.store context) }
    {
        self.references(context) == 0
    }

    /// The value of a context, which a freed one keeps; 0 if it isn't there.
    pub fn value(&self, context: usize) -> u64
        ensures { result ≡ (spec.context_at self.now.store context).value }
    {
        self.contexts.value(context)
    }

    /// Whether a context has a link.
    pub fn is_linked(&self, context: usize) -> bool
        ensures { result ≡ is_some (spec.context_at self.now.store context).link }
    {
        self.contexts.link(context).is_some()
    }

    /// The filter whose callback an activation runs; 0 if it isn't there.
    #[tactic(auto, using(crate::proofs::Reading::found, crate::proofs::Reading::missing))]
    pub fn filter(&self, activation: usize) -> usize
        ensures { result ≡ (spec.actor_at self.now activation).filter }
    {
        match at(self.actors.as_slice(), activation) {
            Some(actor) => actor.filter as usize,
            None => 0,
        }
    }

    /// The place for which the callback of an activation is registered.
    #[tactic(auto, using(crate::proofs::Reading::found, crate::proofs::Reading::missing))]
    pub fn place(&self, activation: usize) -> Place
        ensures { result ≡ (spec.actor_at self.now activation).place }
    {
        match at(self.actors.as_slice(), activation) {
            Some(actor) => actor.place,
            None => Place::Generic,
        }
    }

    /// Whether the activation was called with the draining flag.
    #[tactic(auto, using(crate::proofs::Reading::found, crate::proofs::Reading::missing))]
    pub fn has_flag(&self, activation: usize) -> bool
        ensures { result ≡ (spec.actor_at self.now activation).draining }
    {
        match at(self.actors.as_slice(), activation) {
            Some(actor) => actor.draining,
            None => false,
        }
    }

    /// Whether an activation may take a lock of a filter with this access, beside those that hold it.
    #[tactic(auto, using(crate::proofs::Reading::found, crate::proofs::Reading::missing))]
    pub fn is_free_for(
        &self,
        filter: usize,
        lock: LockNumber,
        activation: usize,
        access: Access,
    ) -> bool
        ensures { result ≡ locks.is_free_for activation access (locks.holders_of self.now.store filter lock) }
    {
        match self.holders.get(filter) {
            Some(holders) => holders[usize::from(lock.place())].is_free_for(activation, access),
            None => true,
        }
    }

    /// Whether an activation ended; true of one that isn't there.
    #[tactic(auto, using(crate::proofs::Reading::found, crate::proofs::Reading::missing))]
    pub fn has_ended(&self, activation: usize) -> bool
        ensures { result ≡ (spec.activation_at self.now activation).ended }
    {
        match self.activations.get(activation) {
            Some(activation) => activation.has_ended(),
            None => true,
        }
    }

    /// The locks that an activation holds.
    pub fn locks_of(&self, alloc: Global, activation: usize) -> Result<Items<HeldLock>, AllocError>
        ensures { IfOk result (λ locks. locks ≡ (spec.activation_at self.now activation).locks) }
    {
        match self.activations.get(activation) {
            Some(activation) => copy_of(alloc, activation.locks()),
            None => Ok(Items::new(alloc)),
        }
    }

    /// The context that a variable of an activation names; none if it is NULL or the activation isn't there.
    pub fn context_in(&self, activation: usize, variable: ContextVariable) -> Option<usize>
        ensures { result ≡ variables.context_in (spec.activation_at self.now activation) variable }
    {
        match self.activations.get(activation) {
            Some(activation) => activation.context(variable),
            None => None,
        }
    }

    /// The context that an optional operand names; none if the call hasn't the operand.
    pub fn named_in(
        &self,
        activation: usize,
        variable: Option<ContextVariable>,
    ) -> Option<Option<usize>>
        ensures { result ≡ variables.named_in (spec.activation_at self.now activation) variable }
    {
        match variable {
            Some(variable) => Some(self.context_in(activation, variable)),
            None => None,
        }
    }

    /// The visit that a variable of an activation names; none if it is NULL or the activation isn't there.
    pub fn operation_in(&self, activation: usize, variable: OperationVariable) -> Option<usize>
        ensures { result ≡ variables.operation_in (spec.activation_at self.now activation) variable }
    {
        match self.activations.get(activation) {
            Some(activation) => activation.operation(variable),
            None => None,
        }
    }

    /// The value of a number or of a variable of an activation; 0 if that isn't there.
    pub fn atom_in(&self, activation: usize, atom: Atom) -> u64
        ensures { result ≡ variables.atom_value (spec.activation_at self.now activation) atom }
    {
        match self.activations.get(activation) {
            Some(activation) => activation.atom(atom),
            None => match atom {
                Atom::Number(number) => number,
                Atom::Variable(_) => 0,
            },
        }
    }

    /// The context that is linked there.
    pub fn linked_at(&self, link: Link) -> Option<usize>
        ensures { result ≡ spec.linked_at self.now.store link }
    {
        self.contexts.linked_at(link)
    }
}

// ---- changes

impl<'a> World<'a> {
    /// Nothing at all.
    pub fn empty(alloc: Global) -> World<'a>
        ensures { result ≡ opened 0 }
    {
        World {
            actors: Vec::new(alloc),
            activations: Vec::new(alloc),
            spare: Spare::none(),
            presences: Vec::new(alloc),
            holders: Vec::new(alloc),
            arrivals: Vec::new(alloc),
            routes: Vec::new(alloc),
            visits: Visits::new(alloc),
            contexts: Contexts::new(alloc),
            waiting: Waiting::new(alloc),
        }
    }

    /// Adds a filter, which is attached and has an empty queue, and whose locks nobody holds.
    pub fn add_filter(&mut self, alloc: Global) -> Result<(), AllocError>
        ensures { OnOk result (self.new ≡ record self.old {
          store =
              record self.old.store {
                presences = self.old.store.presences ++ Attached ∷ [];
                queues = self.old.store.queues ++ [] ∷ [];
                holders = self.old.store.holders ++ replicate 8 [] ∷ [];
              };
        }) }
    {
        self.presences.push(Presence::Attached)?;
        self.waiting.add_queue(alloc)?;
        self.holders.push(unheld(alloc))?;
        Ok(())
    }

    /// An activation continues with a block in place of its first statement.
    #[inline(always)]
    pub fn go_on(
        &mut self,
        a: usize,
        block: &'a [Statement],
        write: Write,
    ) -> Result<(), AllocError>
        ensures { OnOk result (self.new ≡ record self.old {
          activations =
              set self.old.activations a (written write (onward self.old a (block.now ++ later self.old a)));
        }) }
    {
        if let Some(activation) = self.activations.get_mut(a) {
            activation.go_on(block, write)?;
        }
        Ok(())
    }

    /// Sets the presence of a filter.
    pub fn set_presence(&mut self, filter: usize, presence: Presence)
        ensures { self.new ≡ record self.old { store = spec.with_presence self.old.store filter presence } }
    {
        if let Some(kept) = self.presences.get_mut(filter) {
            *kept = presence;
        }
    }

    /// Sets the position of an operation.
    pub fn set_position(&mut self, operation: usize, position: Position)
        ensures { self.new ≡ record self.old {
          store =
              spec.with_route self.old.store operation
              (record (spec.route_at self.old.store operation) { position = position });
        } }
    {
        if let Some(route) = self.routes.get_mut(operation) {
            route.position = position;
        }
    }

    /// The operation is cancelled.
    pub fn set_cancelled(&mut self, operation: usize)
        ensures { self.new ≡ record self.old {
          store =
              spec.with_route self.old.store operation (record (spec.route_at self.old.store operation) { cancelled = true });
        } }
    {
        if let Some(route) = self.routes.get_mut(operation) {
            route.cancelled = true;
        }
    }

    /// Adds a holder of a lock of a filter.
    pub fn add_holder(
        &mut self,
        filter: usize,
        lock: LockNumber,
        holder: Holder,
    ) -> Result<(), AllocError>
        ensures { OnOk result (self.new ≡ record self.old { store = locks.with_holder self.old.store filter lock holder }) }
    {
        if let Some(holders) = self.holders.get_mut(filter) {
            holders[usize::from(lock.place())].push(holder)?;
        }
        Ok(())
    }

    /// The activation holds a lock of a filter no longer.
    pub fn remove_holder(&mut self, filter: usize, lock: LockNumber, activation: usize)
        ensures { self.new ≡ record self.old { store = locks.without_holder self.old.store filter lock activation } }
    {
        if let Some(holders) = self.holders.get_mut(filter) {
            holders[usize::from(lock.place())].remove(activation);
        }
    }

    /// A new context, with the value 0 and one reference. It fails if the owner is 2^32 or greater.
    pub fn add_context(&mut self, owner: usize) -> Result<usize, AllocError>
        ensures { IfOk result (λ x. (x ≡ length self.old.store.contexts)
            × (self.new ≡ record self.old {
              store =
                  record self.old.store {
                    contexts = self.old.store.contexts
                        ++ record { owner = owner; references = 1; value = 0; link = None } ∷ [];
                  };
            })) }
    {
        let number = self.contexts.len();
        self.contexts.add(owner)?;
        Ok(number)
    }

    /// A freed context keeps its value.
    pub fn set_value(&mut self, context: usize, value: u64) -> Result<(), AllocError>
        ensures { OnOk result (self.new ≡ record self.old { store = reads.put_value self.old.store context value }) }
    {
        self.contexts.set_value(context, value)
    }

    /// Adds a reference; a freed context stays as it is. It fails if the references would reach 2^32.
    pub fn add_reference(&mut self, context: usize) -> Result<(), AllocError>
        ensures { OnOk result (self.new ≡ record self.old { store = spec.add_reference self.old.store context }) }
    {
        self.contexts.add_reference(context)
    }

    /// Drops a reference; a freed context stays as it is.
    pub fn drop_reference(&mut self, context: usize)
        ensures { self.new ≡ record self.old { store = spec.drop_reference self.old.store context } }
    {
        self.contexts.drop_reference(context);
    }

    /// The context has this link from now on.
    pub fn set_link(&mut self, context: usize, link: Link) -> Result<(), AllocError>
        ensures { OnOk result (self.new ≡ record self.old { store = spec.with_link self.old.store context (Some link) }) }
    {
        self.contexts.set_link(context, link)
    }

    /// The context has no link from now on.
    pub fn clear_link(&mut self, context: usize)
        ensures { self.new ≡ record self.old { store = spec.with_link self.old.store context None } }
    {
        self.contexts.clear_link(context);
    }

    /// Adds an entry at the end of a filter's queue.
    pub fn add_entry(&mut self, filter: usize, entry: Entry) -> Result<(), AllocError>
        ensures { OnOk result (self.new ≡ record self.old {
          store =
              spec.with_queue self.old.store filter (spec.queue_at self.old.store filter ++ entry ∷ []);
        }) }
    {
        self.waiting.push(filter, entry)
    }

    /// Takes the front entry out of a filter's queue.
    pub fn take_first(&mut self, filter: usize) -> Option<Entry>
        ensures { MatchOption result ((spec.queue_at self.old.store filter ≡ []) × (self.new ≡ self.old))
            (λ e. (spec.queue_at self.old.store filter ≡ e ∷ spec.queue_at self.new.store filter)
            × (self.new ≡ record self.old { store = spec.with_queue self.old.store filter (spec.queue_at self.new.store filter) })) }
    {
        self.waiting.take_first(filter)
    }

    /// Those of some visits that are of an operation.
    fn visits_among(
        &self,
        alloc: Global,
        visits: &[usize],
        operation: usize,
    ) -> Result<Vec<usize>, AllocError>
        ensures { IfOk result (λ vs. vs.items ≡ filter (λ v. (spec.visit_at self.now.store v).operation == operation) visits.now) }
    {
        let mut among = Vec::new(alloc);
        for visit in visits {
            if self.operation_of(*visit) == operation {
                among.push(*visit)?;
            }
        }
        Ok(among)
    }

    /// Visits by which the entries of an operation are found in a filter's queue. An entry of a visit that isn't there, which no run of the
    /// machine has, is of operation 0, so for that one the queue is looked through.
    fn visits_for(
        &self,
        alloc: Global,
        filter: usize,
        operation: usize,
    ) -> Result<Vec<usize>, AllocError>
        ensures { IfOk result (λ vs. AllByRecursion (λ e. is_of vs.items e ≡ moves.is_entry_of self.now.store operation e)
            (spec.queue_at self.now.store filter)) }
    {
        if operation == 0 {
            let visits = self.waiting.visits(alloc, filter)?;
            self.visits_among(alloc, visits.as_slice(), operation)
        } else {
            self.visits.of(alloc, operation)
        }
    }

    /// Takes the first entry of an operation out of a filter's queue.
    pub fn take_entry(
        &mut self,
        alloc: Global,
        filter: usize,
        operation: usize,
    ) -> Result<Option<Entry>, AllocError>
        ensures { IfOk result (λ r. MatchOption r
            (find (moves.is_entry_of self.old.store operation) (spec.queue_at self.old.store filter) ≡ None)
            (λ e. (find (moves.is_entry_of self.old.store operation) (spec.queue_at self.old.store filter) ≡ Some e)
            × (self.new ≡ record self.old {
              store =
                  spec.with_queue self.old.store filter
                  (moves.other_entries self.old.store operation (spec.queue_at self.old.store filter));
            }))) }
    {
        same_tests_find_the_same();
        let visits = self.visits_for(alloc, filter, operation)?;
        Ok(self.waiting.take_entry(filter, visits.as_slice()))
    }

    /// Adds a work item.
    pub fn add_item(&mut self, item: Item) -> Result<(), AllocError>
        ensures { OnOk result (self.new ≡ record self.old {
          store =
              record self.old.store { items = self.old.store.items ++ Some item ∷ [] };
        }) }
    {
        self.waiting.add_item(item)
    }

    /// Takes a work item out, whose number stays.
    pub fn take_item(&mut self, item: usize) -> Option<Item>
        ensures item { result ≡ spec.item_at self.old.store item }
        ensures after { self.new ≡ record self.old { store = record self.old.store { items = set self.old.store.items item None } } }
    {
        self.waiting.take_item(item)
    }

    /// A new visit, which isn't settled.
    pub fn add_visit(&mut self, visit: Visit) -> Result<usize, AllocError>
        ensures { IfOk result (λ v. (v ≡ length self.old.store.visits)
            × (self.new ≡ record self.old { store = moves.with_visit self.old.store visit })) }
    {
        let number = self.visits.len();
        self.visits.add(visit)?;
        Ok(number)
    }

    /// The filter's part in the operation is over.
    pub fn settle(&mut self, visit: usize)
        ensures { self.new ≡ record self.old { store = record self.old.store { settled = set self.old.store.settled visit true } } }
    {
        self.visits.settle(visit);
    }
}
