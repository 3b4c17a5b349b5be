//! The events so far, as running counts: which activations hold an object, and which objects are freed or settled. They show whether an
//! event breaks something without a look at the events before it.

ghost use Rattle.std.specs.Prelude.{◌≡◌, ◌+◌, ℕ, ◌<◌, true, false, List, [], ◌∷◌, ◌++◌, length, nat_lt, ◌&&◌};
ghost use Rattle.std.specs.Prelude.{if◌then◌else◌, Some, None, get_or, set, OnOk, IfOk, IfSome, ◌↔◌, IsTrue};
ghost use Rattle.std.specs.List.{list_all};
ghost use Rattle.flt_tree.specs.declared.filter.Filter.{Filter};
ghost use Rattle.flt_model.specs.Effects.{Step};
ghost use Rattle.flt_model.specs.Runs.{Moment, start, after};
ghost use Rattle.flt_model.specs.Steps.{Transition};
ghost use Rattle.flt_replay.specs.Apart.{ends_in};
ghost use Rattle.flt_replay.specs.Judging.{Follows, first_of, of_holding};
ghost use Rattle.flt_model.specs.Trace.{is_held, one_if, of_actor};
ghost use Rattle.flt_model.specs.declared.event.Event.{Event};
ghost use Rattle.flt_model.specs.declared.event.Event.TheVariants.{Use, Gain, Lose, Free, Settle, End};
ghost use Rattle.flt_model.specs.declared.verdict.Violation.TheVariants.{V1, V2, V3, V4};
ghost use Rattle.flt_model.specs.World as machine;
ghost use Rattle.flt_model.specs.Violations as rules;
ghost use Rattle.flt_replay_records.specs.Counts.{count, occurs};
ghost use Rattle.flt_replay.specs.Rows.{count_of};
ghost use Rattle.flt_replay.specs.Ledger as spec;

use flt_model::{Event, Object, Violation, local_steps_are_quiet};
use flt_replay_records::Counts;
use flt_replay_world::World;
use std::alloc::{AllocError, Global};
use std::marker::Model;

mod holdings;
mod others;
pub(crate) mod rows;

use holdings::Holdings;
use rows::Rows;

#[derive(Drop)]
pub(crate) struct Ledger {
    contexts: Holdings,
    /// The number of times that each activation holds each visit.
    visits: Rows,
    /// The number of times that each context was freed.
    freed: Counts,
    /// The number of times that each visit was settled.
    settled: Counts,
    /// By activation, whether it continues.
    running: Vec<bool>,
    /// The number of continuing activations that hold each visit.
    holders: Counts,
}

impl Model for Ledger {
    ghost use Rattle.flt_replay.specs.Ledger.{Tally};

    ghost Value = { Tally };

    ghost view = { λ l. record {
      contexts = l.contexts;
      visits = l.visits;
      freed = l.freed;
      settled = l.settled;
      running = l.running.items;
      holders = l.holders;
    } };
}

/// The rules that the events of a step have kept so far, and whether an activation ended.
#[derive(Clone, Copy)]
struct StepRules {
    /// No activation ended that still held a context.
    tight: bool,
    /// No visit was settled again.
    once: bool,
    /// An activation ended.
    ends: bool,
}

impl StepRules {
    /// All is kept before the first event.
    fn all() -> StepRules
        ensures { result ≡ record { tight = true; once = true; ends = false } }
    {
        StepRules {
            tight: true,
            once: true,
            ends: false,
        }
    }

    fn broken(self) -> Option<Violation>
        ensures { result ≡ (if self.tight then (if self.once then None else Some V3) else Some V2) }
    {
        if !self.tight {
            Some(Violation::V2)
        } else if !self.once {
            Some(Violation::V3)
        } else {
            None
        }
    }
}

/// Lists a visit. Room is made first: `push` would hand the number back if memory is refused, and takes longer for that.
#[inline(always)]
fn list_visit(touched: &mut Vec<usize>, visit: usize) -> Result<(), AllocError>
    ensures { OnOk result (touched.new.items ≡ touched.old.items ++ visit ∷ []) }
{
    touched.reserve(1)?;
    touched.push_reserved(visit);
    Ok(())
}

/// Whether a context is the activation's own filter's.
fn is_own(world: &World<'_>, activation: usize, object: Object) -> bool
    ensures { result ≡ rules.is_own world.now activation object }
{
    match object {
        Object::Context(context) => world.owner(context) == world.filter(activation),
        Object::Visit(_) => true,
    }
}

impl Ledger {
    fn times_held(&self, activation: usize, object: Object) -> u64
        ensures { result ≡ spec.held self.now activation object }
    {
        match object {
            Object::Context(context) => self.contexts.count(activation, context),
            Object::Visit(visit) => self.visits.count(activation, visit),
        }
    }

    /// Whether the activation gained the object more often than it lost it.
    #[inline(always)]
    #[tactic(auto, using(crate::proofs::Counting::Tallies::held_is))]
    pub(crate) fn holds(&self, activation: usize, object: Object) -> bool
        ensures told { (t : List Event) → spec.Tells t self.now → result ≡ is_held t activation object }
        ensures at_moment { (m : Moment) → spec.Agrees m self.now → result ≡ is_held m.trace activation object }
    {
        self.times_held(activation, object) > 0
    }

    /// Whether the object isn't a context that was freed.
    #[tactic(auto, using(crate::proofs::Counting::Tallies::live_is, crate::proofs::Counting::Tallies::live_visit))]
    fn is_live(&self, object: Object) -> bool
        ensures { (t : List Event) → spec.Tells t self.now → result ≡ rules.is_live t object }
    {
        match object {
            Object::Context(context) => self.freed.count(context) == 0,
            Object::Visit(_) => true,
        }
    }

    /// Whether an activation may use or lose an object: it holds it, and nothing stale is touched.
    #[inline(always)]
    fn may_use(&self, world: &World<'_>, a: usize, object: Object) -> bool
        ensures used { (t : List Event) → spec.Tells t self.now → result ≡ rules.is_fresh world.now t (Use a object) }
        ensures lost { (t : List Event) → spec.Tells t self.now → result ≡ rules.is_fresh world.now t (Lose a object) }
    {
        self.holds(a, object) && self.is_live(object) && is_own(world, a, object)
    }

    /// Whether an activation may gain an object: nothing stale is touched.
    fn may_gain(&self, world: &World<'_>, a: usize, object: Object) -> bool
        ensures { (t : List Event) → spec.Tells t self.now → result ≡ rules.is_fresh world.now t (Gain a object) }
    {
        self.is_live(object) && is_own(world, a, object)
    }

    /// Whether an activation that ends holds no context.
    #[tactic(auto, using(crate::proofs::Counting::Tallies::leaks_nothing_is))]
    fn leaks_nothing(&self, a: usize) -> bool
        ensures { (t : List Event) → spec.Tells t self.now → result ≡ rules.leaks_nothing t (End a) }
    {
        self.contexts.is_empty(a)
    }

    /// Whether a visit isn't settled again.
    fn is_first_settling(&self, visit: usize) -> bool
        ensures { (t : List Event) → spec.Tells t self.now → result ≡ rules.is_first_settling t (Settle visit) }
    {
        self.settled.count(visit) == 0
    }

    fn is_running(&self, activation: usize) -> bool
        ensures { result ≡ get_or self.now.running activation false }
    {
        match self.running.get(activation) {
            Some(running) => *running,
            None => false,
        }
    }

    /// Whether the activation continues and doesn't hold the visit.
    fn is_without(&self, activation: usize, visit: usize) -> bool
        ensures { result ≡ spec.is_without (get_or self.now.running activation false) (count_of self.now.visits activation visit) }
    {
        self.visits.count(activation, visit) == 0 && self.is_running(activation)
    }

    /// Adds one to the count of a visit that an activation holds.
    #[tactic(auto, using(crate::proofs::Counting::Holders::gained_first, crate::proofs::Counting::Holders::gained_again))]
    fn gain_visit(&mut self, alloc: Global, a: usize, visit: usize) -> Result<(), AllocError>
        ensures visits { OnOk result ((b v : ℕ) →
            count_of self.new.visits b v ≡ count_of self.old.visits b v + of_actor a b (one_if visit v)) }
        ensures turned { OnOk result (spec.Turned self.old self.new) }
    {
        let first = self.is_without(a, visit);
        self.visits.add(alloc, a, visit)?;
        if !first {
            return Ok(());
        }
        self.holders.add(visit)?;
        Ok(())
    }

    /// Takes one off the count of a visit that an activation holds.
    #[tactic(auto, using(crate::proofs::Counting::Holders::lost_last, crate::proofs::Counting::Holders::lost_one, crate::proofs::Counting::Holders::some_holder))]
    fn lose_visit(&mut self, a: usize, visit: usize)
        ensures visits { 0 < count_of self.old.visits a visit → (b v : ℕ) →
            count_of self.old.visits b v ≡ count_of self.new.visits b v + of_actor a b (one_if visit v) }
        ensures turned { 0 < count_of self.old.visits a visit → spec.IsCounted self.old → spec.Turned self.old self.new }
    {
        self.visits.take(a, visit);
        if !self.is_without(a, visit) {
            return;
        }
        self.holders.take(visit);
    }

    /// Takes in that an activation gained an object, and lists the object if it is a visit.
    fn gain(
        &mut self,
        alloc: Global,
        a: usize,
        object: Object,
        touched: &mut Vec<usize>,
    ) -> Result<(), AllocError>
        ensures { OnOk result ((t : List Event) → spec.Tells t self.old → spec.IsCounted self.old →
            spec.Noted t (Gain a object) self.old self.new touched.old.items touched.new.items) }
    {
        match object {
            Object::Context(context) => {
                self.contexts.add(alloc, a, context)?;
                Ok(())
            }
            Object::Visit(visit) => {
                list_visit(touched, visit)?;
                self.gain_visit(alloc, a, visit)?;
                Ok(())
            }
        }
    }

    /// Takes in that an activation lost an object that it holds, and lists the object if it is a visit.
    fn lose(&mut self, a: usize, object: Object, touched: &mut Vec<usize>) -> Result<(), AllocError>
        ensures { OnOk result ((t : List Event) → spec.Tells t self.old → spec.IsCounted self.old →
            0 < spec.held self.old a object → spec.Noted t (Lose a object) self.old self.new touched.old.items touched.new.items) }
    {
        match object {
            Object::Context(context) => {
                self.contexts.take(a, context);
                Ok(())
            }
            Object::Visit(visit) => {
                list_visit(touched, visit)?;
                self.lose_visit(a, visit);
                Ok(())
            }
        }
    }

    /// Takes in that a context was freed.
    fn free(&mut self, context: usize) -> Result<(), AllocError>
        ensures { OnOk result ((t : List Event) (was : List ℕ) → spec.Tells t self.old → spec.IsCounted self.old →
            spec.Noted t (Free context) self.old self.new was was) }
    {
        self.freed.add(context)?;
        Ok(())
    }

    /// Takes in that a visit was settled, and lists it.
    fn settle(&mut self, visit: usize, touched: &mut Vec<usize>) -> Result<(), AllocError>
        ensures { OnOk result ((t : List Event) → spec.Tells t self.old → spec.IsCounted self.old →
            spec.Noted t (Settle visit) self.old self.new touched.old.items touched.new.items) }
    {
        list_visit(touched, visit)?;
        self.settled.add(visit)?;
        Ok(())
    }

    /// Takes in the end of an activation: whether it holds no context.
    fn keep_at_end(&self, a: usize, kept: &mut StepRules)
        ensures tight { (t : List Event) → spec.Tells t self.now → kept.new.tight ≡ (kept.old.tight && rules.leaks_nothing t (End a)) }
        ensures others { (kept.new.once ≡ kept.old.once) × (kept.new.ends ≡ true) }
    {
        kept.tight &= self.leaks_nothing(a);
        kept.ends = true;
    }

    /// Takes in the settling of a visit: whether it is the first.
    fn keep_at_settling(&self, visit: usize, kept: &mut StepRules)
        ensures once { (t : List Event) → spec.Tells t self.now →
            kept.new.once ≡ (kept.old.once && rules.is_first_settling t (Settle visit)) }
        ensures others { (kept.new.tight ≡ kept.old.tight) × (kept.new.ends ≡ kept.old.ends) }
    {
        kept.once &= self.is_first_settling(visit);
    }

    /// Takes in an event, lists the visit that it may name, and updates the rules kept. False if it touches something stale.
    fn take_event(
        &mut self,
        alloc: Global,
        world: &World<'_>,
        event: Event,
        touched: &mut Vec<usize>,
        kept: &mut StepRules,
    ) -> Result<bool, AllocError>
        ensures stale { IfOk result
            (λ fresh. fresh ≡ false → (t : List Event) → spec.Tells t self.old → rules.is_fresh world.now t event ≡ false) }
        ensures taken { IfOk result (λ fresh. fresh ≡ true → (t : List Event) → spec.Tells t self.old → spec.IsCounted self.old →
            spec.Taken world.now t event self.old self.new touched.old.items touched.new.items
            kept.old.tight kept.old.once kept.new.tight kept.new.once) }
        ensures ends { IfOk result (λ fresh. kept.new.ends ≡ false → (kept.old.ends ≡ false) × ((a : ℕ) → ends_in a (event ∷ []) ≡ false)) }
    {
        match event {
            Event::Use(a, object) => Ok(self.may_use(world, a, object)),
            Event::Lose(a, object) => {
                if !self.may_use(world, a, object) {
                    return Ok(false);
                }
                self.lose(a, object, touched)?;
                Ok(true)
            }
            Event::Gain(a, object) => {
                if !self.may_gain(world, a, object) {
                    return Ok(false);
                }
                self.gain(alloc, a, object, touched)?;
                Ok(true)
            }
            Event::Empty(_) => Ok(false),
            Event::Free(context) => {
                self.free(context)?;
                Ok(true)
            }
            Event::Settle(visit) => {
                self.keep_at_settling(visit, kept);
                self.settle(visit, touched)?;
                Ok(true)
            }
            Event::End(a) => {
                self.keep_at_end(a, kept);
                Ok(true)
            }
            _ => Ok(true),
        }
    }

    /// Takes in events, up to one that touches something stale, and lists the visits that they name. Returns the least of the first three
    /// violations that they break, and whether an activation ended.
    #[tactic(auto, using(crate::proofs::Counting::Taking::judged_all))]
    fn take_events(
        &mut self,
        alloc: Global,
        world: &World<'_>,
        events: &[Event],
        touched: &mut Vec<usize>,
        ends: &mut bool,
    ) -> Result<Option<Violation>, AllocError>
        ensures first { IfOk result (λ found. (t : List Event) → spec.Tells t self.old → spec.IsCounted self.old →
            found ≡ spec.first_broken world.now t events.now) }
        ensures taken { IfOk result (λ found. found ≡ None → (t : List Event) → spec.Tells t self.old → spec.IsCounted self.old →
            spec.Judged world.now t events.now self.old self.new touched.old.items touched.new.items true true) }
        ensures ends { IfOk result (λ found. found ≡ None → ends.new ≡ false → (a : ℕ) → ends_in a events.now ≡ false) }
    {
        let mut kept = StepRules::all();
        for event in events {
            let fresh = self.take_event(alloc, world, *event, touched, &mut kept)?;
            if !fresh {
                return Ok(Some(Violation::V1));
            }
        }
        *ends = kept.ends;
        Ok(kept.broken())
    }

    fn activations(&self) -> usize
        ensures { result ≡ length self.now.running }
    {
        self.running.len()
    }

    fn set_ended(&mut self, a: usize)
        ensures { self.new ≡ record self.old { running = set self.old.running a false } }
    {
        if let Some(running) = self.running.get_mut(a) {
            *running = false;
        }
    }

    /// Stops an activation, which no longer continues. The visits that it holds are listed.
    fn stop(&mut self, alloc: Global, a: usize, touched: &mut Vec<usize>) -> Result<(), AllocError>
        ensures { OnOk result (spec.Stopped a self.old self.new touched.old.items touched.new.items) }
    {
        self.visits.list(alloc, a, touched)?;
        if !self.is_running(a) {
            return Ok(());
        }
        self.visits.take_from(alloc, a, &mut self.holders)?;
        self.set_ended(a);
        Ok(())
    }

    /// Adds an activation, which continues.
    fn begin(&mut self, alloc: Global) -> Result<(), AllocError>
        ensures { OnOk result (spec.Started self.old self.new) }
    {
        let number = self.activations();
        self.running.push(true)?;
        self.visits.add_to(alloc, number, &mut self.holders)?;
        Ok(())
    }

    /// Adds the activation that a step made, if any. A step makes one at most.
    #[tactic(auto, using(crate::proofs::Counting::Following::joined_one, crate::proofs::Counting::Following::joined_none))]
    fn follow_new(&mut self, alloc: Global, world: &World<'_>) -> Result<(), AllocError>
        ensures { OnOk result (spec.Joined (length world.now.activations) self.old self.new) }
    {
        if self.activations() >= world.activations.len() {
            return Ok(());
        }
        self.begin(alloc)?;
        Ok(())
    }

    fn follow_end(
        &mut self,
        alloc: Global,
        event: Event,
        touched: &mut Vec<usize>,
    ) -> Result<(), AllocError>
        ensures { OnOk result (spec.Halted (event ∷ []) self.old self.new touched.old.items touched.new.items) }
    {
        match event {
            Event::End(a) => {
                self.stop(alloc, a, touched)?;
                Ok(())
            }
            _ => Ok(()),
        }
    }

    /// Takes in which activations end, and lists the visits that they hold.
    fn follow_ends(
        &mut self,
        alloc: Global,
        events: &[Event],
        touched: &mut Vec<usize>,
    ) -> Result<(), AllocError>
        ensures { OnOk result (spec.Halted events.now self.old self.new touched.old.items touched.new.items) }
    {
        for event in events {
            self.follow_end(alloc, *event, touched)?;
        }
        Ok(())
    }

    /// The same, if it is known whether any ends: mostly none does.
    fn follow_any_ends(
        &mut self,
        alloc: Global,
        events: &[Event],
        ends: bool,
        touched: &mut Vec<usize>,
    ) -> Result<(), AllocError>
        ensures { (ends ≡ false → (a : ℕ) → ends_in a events.now ≡ false) →
            OnOk result (spec.Halted events.now self.old self.new touched.old.items touched.new.items) }
    {
        if ends {
            self.follow_ends(alloc, events, touched)?;
        }
        Ok(())
    }

    /// Whether a visit has one owner while it is unsettled, and none after.
    fn owns(&self, world: &World<'_>, visit: usize) -> bool
        ensures { result ≡ spec.owns self.now world.now visit }
    {
        let due = if world.is_settled(visit) { 0 } else { 1 };
        match self.holders.count(visit).checked_add(world.waiting(visit)) {
            Some(owners) => owners == due,
            None => false,
        }
    }

    fn owns_each(&self, world: &World<'_>, visits: &[usize]) -> bool
        ensures { result ≡ list_all (spec.owns_any self.now world.now) visits.now }
    {
        let known = world.visit_count();
        visits
            .iter()
            .all(|visit| *visit >= known || self.owns(world, *visit))
    }

    pub(crate) fn new(alloc: Global) -> Ledger
        ensures { (p : List Filter) → spec.Agrees (start p) result }
    {
        Ledger {
            contexts: Holdings::new(alloc),
            visits: Rows::new(alloc),
            freed: Counts::new(alloc),
            settled: Counts::new(alloc),
            running: Vec::new(alloc),
            holders: Counts::new(alloc),
        }
    }

    /// Takes in the events of a step, which led to the world. Returns the least of the first four violations that they break; after one the
    /// counts mean nothing. The last argument lends memory, and its contents don't matter.
    pub(crate) fn take(
        &mut self,
        alloc: Global,
        world: &World<'_>,
        events: &[Event],
        touched: &mut Vec<usize>,
    ) -> Result<Option<Violation>, AllocError>
        ensures { IfOk result (λ found. (p : List Filter) (m : Moment) (x : Transition) (s : Step) → spec.Agrees m self.old →
            Follows p m x s world.now events.now → (found ≡ first_of of_holding p m s)
            × (found ≡ None → spec.Agrees (after m s) self.new)) }
    {
        local_steps_are_quiet();
        touched.clear();
        let mut ends = false;
        let first = self.take_events(alloc, world, events, touched, &mut ends)?;
        if first.is_some() {
            return Ok(first);
        }
        self.follow_any_ends(alloc, events, ends, touched)?;
        self.follow_new(alloc, world)?;
        if self.owns_each(world, touched.as_slice()) {
            Ok(None)
        } else {
            Ok(Some(Violation::V4))
        }
    }
}
