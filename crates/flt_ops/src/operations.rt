//! Operations, with the calls that move them.

ghost use Rattle.std.specs.Prelude.{◌≡◌, ◌≢◌, ◌↔◌, ◌≤◌, true, false, not, ◌||◌, ◌&&◌, length, slice_get, get_or, set, find, position};
ghost use Rattle.std.specs.Prelude.{is_some, if◌then◌else◌, Some, None, Err, OnOk, OnErr, IfOk, MatchOption};
ghost use Rattle.flt_model.specs.Moves as moves;
ghost use Rattle.flt_model.specs.Settling as settling;
ghost use Rattle.flt_model.specs.World as machine;
ghost use Rattle.flt_ops.specs.Operating.{store_of, after, no_operations, route_of, filter_at, is_past_filters, frame_at, in_pre_visit};
ghost use Rattle.flt_ops.specs.Operating.{past_filter, lowered, in_post_visit, in_draining_visit, with_cancel, IsStarted};
ghost use Rattle.flt_ops.specs.Numbered.{numbers_of};
ghost use Rattle.flt_ops.specs.declared.fault.ArriveFault.TheVariants as fault;
ghost use Rattle.flt_rules.specs.Limits.{max_operations};

use crate::OutOfMemory;
use crate::fault::ArriveFault;
use crate::parts::{CallbackStart, Frame, Visit};
use crate::route_rows::Routes;
use crate::visit_rows::Visits;
use counted_heap::Heap;
use flt_model::{Arrival, Outcome, Position, Way};
use flt_rules::{FinalStatus, MAX_OPERATIONS, Mode, Operation, Stage};
use std::alloc::Global;
use std::marker::Model;

/// Operations by serial number, from 0, with their frames and visits. No number is used again.
///
/// No call walks all operations or all visits: its time grows with the logarithm of their number, and with the frames of its own
/// operation. A number that isn't there is that of an operation that has ended, or of a visit that is settled.
#[derive(Drop)]
pub struct Operations {
    /// How many filters there are.
    filters: usize,
    arrivals: Vec<Arrival>,
    routes: Routes,
    visits: Visits,
}

impl Model for Operations {
    ghost use Rattle.flt_ops.specs.Operating.{Operating};
    ghost use Rattle.flt_ops.specs.Kept.{AreOperations};

    ghost Value = { Operating };

    ghost view = { λ s. record {
      filters = s.filters;
      arrivals = s.arrivals.items;
      routes = s.routes;
      visits = s.visits.visits;
      settled = s.visits.settled;
    } };

    ghost invariant = { λ s. AreOperations s.filters s.arrivals.items s.routes s.visits };
}

// ---- reads

impl Operations {
    /// No operations, and so many filters, numbered from 0 at the highest altitude.
    pub fn new(alloc: Global, filters: usize) -> Operations
        ensures { result ≡ no_operations filters }
    {
        Operations {
            filters,
            arrivals: Vec::new(alloc),
            routes: Routes::new(alloc),
            visits: Visits::new(alloc),
        }
    }

    /// How many operations there are: the serial number of the next one.
    pub fn len(&self) -> usize
        ensures { result ≡ length self.now.arrivals }
    {
        self.arrivals.len()
    }

    /// How many visits there have been: the number of the next one.
    pub fn visits(&self) -> usize
        ensures { result ≡ length self.now.visits }
    {
        self.visits.len()
    }

    /// The kind, mode and file of an operation. One that isn't there reads file 0 by an I/O request packet.
    pub fn arrival(&self, serial: u32) -> Arrival
        ensures { result ≡ machine.arrival_at (store_of self.now) serial }
    {
        match self.arrivals.get(serial as usize) {
            Some(arrival) => *arrival,
            None => Arrival {
                kind: Operation::Read,
                mode: Mode::Irp,
                file: 0,
            },
        }
    }

    /// The position of an operation. One that isn't there is up.
    pub fn position(&self, serial: u32) -> Position
        ensures { result ≡ (route_of self.now serial).position }
    {
        self.routes.position(serial)
    }

    /// Whether an operation is cancelled. One that isn't there is.
    pub fn cancelled(&self, serial: u32) -> bool
        ensures { result ≡ (route_of self.now serial).cancelled }
    {
        self.routes.cancelled(serial)
    }

    /// How an operation ended at its lowest point, from the moment at which it goes up.
    pub fn outcome(&self, serial: u32) -> Option<Outcome>
        ensures { result ≡ (route_of self.now serial).outcome }
    {
        self.routes.outcome(serial)
    }

    /// The first frame of a filter that an operation has.
    pub fn first_frame(&self, filter: usize, serial: u32) -> Option<Frame>
        ensures { result ≡ find (moves.is_frame_of filter) (route_of self.now serial).frames }
    {
        self.routes.first_frame(serial, filter)
    }

    /// The least serial number of an operation with a frame of the filter.
    pub fn least_frame(&self, filter: usize) -> Option<u32>
        ensures { result ≡ position (moves.has_frame filter) self.now.routes }
    {
        self.routes.least(filter)
    }

    /// Whether an operation is over: it is up, no post callback of it waits, and all its visits are settled.
    pub fn is_done(&self, serial: u32) -> bool
        ensures { result ≡ moves.is_done (store_of self.now) serial }
    {
        matches!(self.routes.position(serial), Position::Up)
            && self.routes.is_without_frames(serial)
            && self.visits.are_settled(serial)
    }

    /// Whether nothing of an operation waits any more: no post callback of it, and all its visits are settled. It is over once it is up.
    pub fn is_spent(&self, serial: u32) -> bool
        ensures { result ≡ (moves.is_empty (route_of self.now serial).frames && moves.are_settled serial self.now.visits self.now.settled) }
    {
        self.routes.is_without_frames(serial) && self.visits.are_settled(serial)
    }

    /// The same, once a visit is settled.
    pub fn is_spent_after(&self, serial: u32, visit: usize) -> bool
        ensures { result ≡ (moves.is_empty (route_of self.now serial).frames
            && moves.are_settled serial self.now.visits (set self.now.settled visit true)) }
    {
        self.routes.is_without_frames(serial) && self.visits.are_settled_but(serial, visit)
    }

    /// The visit of a number. One that isn't there is a draining one.
    pub fn visit(&self, visit: usize) -> Visit
        ensures { result ≡ machine.visit_at (store_of self.now) visit }
    {
        self.visits.get(visit)
    }

    /// The numbers of an operation's visits, in order.
    pub fn visits_of(&self, serial: u32) -> &[usize]
        ensures { result.now ≡ numbers_of serial self.now.visits }
    {
        self.visits.of(serial)
    }

    /// Whether the filter's part in a visit is over. It is in one that isn't there.
    pub fn is_settled(&self, visit: usize) -> bool
        ensures { result ≡ machine.is_settled (store_of self.now) visit }
    {
        self.visits.is_settled(visit)
    }

    /// Whether `settle` would make a frame, which takes the completion context over.
    pub fn makes_frame(&self, visit: usize, way: Way) -> bool
        ensures { result ≡ settling.makes_frame (store_of self.now) visit way }
    {
        way.asks_for_frame() && self.is_led(visit)
    }

    /// The filter that an operation is at while it goes down.
    pub fn filter_at(&self, serial: u32) -> Option<usize>
        ensures { result ≡ filter_at self.now serial }
    {
        match self.routes.position(serial) {
            Position::Down(filter) if filter < self.filters => Some(filter),
            _ => None,
        }
    }

    /// The frame whose post callback is next: the last one, if the operation goes up.
    pub fn frame_at(&self, serial: u32) -> Option<Frame>
        ensures { result ≡ frame_at self.now serial }
    {
        match self.routes.position(serial) {
            Position::Up => self.routes.last_frame(serial),
            _ => None,
        }
    }

    /// Whether an operation is below the last filter.
    pub fn is_past_filters(&self, serial: u32) -> bool
        ensures { result ≡ is_past_filters self.now serial }
    {
        match self.routes.position(serial) {
            Position::Down(filter) => filter >= self.filters,
            _ => false,
        }
    }
}

// ---- changes: each is made, or nothing is

impl Operations {
    /// One more operation arrives at the highest filter. The answer is its serial number. Any kind may come in any mode, on any
    /// file: whether they go together is the caller's question.
    pub fn arrive(
        &mut self,
        heap: &mut Heap,
        kind: Operation,
        mode: Mode,
        file: u32,
    ) -> Result<u32, ArriveFault>
        ensures arrived { IfOk result (λ serial. (serial ≡ length self.old.arrivals)
            × (self.new ≡ after (λ s. moves.with_arrival s (record { kind = kind; mode = mode; file = file })) self.old)) }
        ensures full { (result ≡ Err fault.Full) ↔ (max_operations ≤ length self.old.arrivals) }
        ensures refused { OnErr result (self.new ≡ self.old) }
        ensures granted { result ≢ Err fault.OutOfMemory → heap.new ≡ heap.old }
        ensures memory { result ≡ Err fault.OutOfMemory → heap.new ≢ heap.old }
    {
        let serial = self.arrivals.len();
        if serial >= MAX_OPERATIONS {
            return Err(ArriveFault::Full);
        }
        heap.reserve(&mut self.arrivals, 1)?;
        self.visits.make_room(heap, serial)?;
        self.routes.add(heap)?;
        self.arrivals.push_reserved(Arrival { kind, mode, file });
        Ok(serial as u32)
    }

    /// The pre callback of the filter that the operation is at starts. `None` if it isn't at one while it goes down.
    pub fn start_pre(
        &mut self,
        heap: &mut Heap,
        serial: u32,
    ) -> Result<Option<CallbackStart>, OutOfMemory>
        ensures started { IfOk result (λ started. MatchOption (filter_at self.old serial)
            ((started ≡ None) × (self.new ≡ self.old))
            (λ f. (started ≡ Some (record { visit = length self.old.visits; filter = f; context = None }))
            × (self.new ≡ after (in_pre_visit serial f) self.old))) }
        ensures refused { OnErr result (self.new ≡ self.old) }
        ensures granted { OnOk result (heap.new ≡ heap.old) }
        ensures memory { OnErr result (heap.new ≢ heap.old) }
    {
        let Some(filter) = self.filter_at(serial) else {
            return Ok(None);
        };
        let visit = self.visits.add(
            heap,
            Visit {
                operation: serial,
                filter,
                stage: Stage::Pre,
                draining: false,
            },
        )?;
        self.routes.set_position(serial, Position::Visiting);
        Ok(Some(CallbackStart {
            visit,
            filter,
            context: None,
        }))
    }

    /// The operation passes the filter that it is at, and `true` is answered. `false` if it isn't at one while it goes down.
    pub fn skip(&mut self, serial: u32) -> bool
        ensures { MatchOption (filter_at self.old serial) ((result ≡ false) × (self.new ≡ self.old))
            (λ f. (result ≡ true) × (self.new ≡ after (past_filter serial f) self.old)) }
    {
        match self.filter_at(serial) {
            Some(filter) => {
                self.routes.set_position(serial, Position::Down(filter + 1));
                true
            }
            None => false,
        }
    }

    /// The operation is carried out below the last filter, and `true` is answered. `false` if it isn't there.
    pub fn lower(&mut self, serial: u32) -> bool
        ensures answer { result ≡ is_past_filters self.old serial }
        ensures lowered { self.new ≡ (if is_past_filters self.old serial then after (lowered serial) self.old else self.old) }
    {
        let is_past = self.is_past_filters(serial);
        if is_past {
            self.routes
                .end(serial, Outcome::Completed(FinalStatus::Success));
        }
        is_past
    }

    /// The last frame is taken off, and its post callback starts. `None` if the operation isn't up or has no frame.
    #[tactic(auto, using(std::proofs::lemmas::Grind::common_steps, crate::proofs::OtherFrames::any_front, crate::proofs::OtherFrames::any_last, crate::proofs::Changes::is_last))]
    pub fn pop_frame(
        &mut self,
        heap: &mut Heap,
        serial: u32,
    ) -> Result<Option<CallbackStart>, OutOfMemory>
        ensures started { IfOk result (λ started. IsStarted self.old (frame_at self.old serial) (in_post_visit serial) started self.new) }
        ensures refused { OnErr result (self.new ≡ self.old) }
        ensures granted { OnOk result (heap.new ≡ heap.old) }
        ensures memory { OnErr result (heap.new ≢ heap.old) }
    {
        let Some(frame) = self.frame_at(serial) else {
            return Ok(None);
        };
        let visit = self.visits.add(
            heap,
            Visit {
                operation: serial,
                filter: frame.filter,
                stage: Stage::Post,
                draining: false,
            },
        )?;
        self.routes.pop_frame(serial);
        Ok(Some(CallbackStart {
            visit,
            filter: frame.filter,
            context: frame.context,
        }))
    }

    /// The first frame of a filter is taken out, and its post callback starts with the draining flag; the operation stays where it is.
    /// `None` if it has no frame of the filter.
    #[tactic(auto, using(std::proofs::lemmas::Grind::common_steps, crate::proofs::OtherFrames::any_left, crate::proofs::OtherFrames::found_of))]
    pub fn drain(
        &mut self,
        heap: &mut Heap,
        filter: usize,
        serial: u32,
    ) -> Result<Option<CallbackStart>, OutOfMemory>
        ensures started { IfOk result (λ started. IsStarted self.old
            (find (moves.is_frame_of filter) (route_of self.old serial).frames) (in_draining_visit serial) started self.new) }
        ensures refused { OnErr result (self.new ≡ self.old) }
        ensures granted { OnOk result (heap.new ≡ heap.old) }
        ensures memory { OnErr result (heap.new ≢ heap.old) }
    {
        let Some(frame) = self.routes.first_frame(serial, filter) else {
            return Ok(None);
        };
        let visit = self.visits.add(
            heap,
            Visit {
                operation: serial,
                filter: frame.filter,
                stage: Stage::Post,
                draining: true,
            },
        )?;
        self.routes.take_frame(serial, frame.filter);
        Ok(Some(CallbackStart {
            visit,
            filter: frame.filter,
            context: frame.context,
        }))
    }

    /// The operation is cancelled, and `true` is answered. `false` if it is over or cancelled already.
    pub fn cancel(&mut self, serial: u32) -> bool
        ensures answer { result ≡ not (moves.is_done (store_of self.old) serial || (route_of self.old serial).cancelled) }
        ensures cancelled { self.new ≡ (if moves.is_done (store_of self.old) serial || (route_of self.old serial).cancelled
            then self.old else after (with_cancel serial) self.old) }
    {
        if self.is_done(serial) || self.routes.cancelled(serial) {
            return false;
        }
        self.routes.cancel(serial);
        true
    }

    /// Whether a visit still moves its operation: it isn't settled, nor a draining one.
    pub fn is_led(&self, visit: usize) -> bool
        ensures { result ≡ settling.is_led (store_of self.now) visit }
    {
        !self.visits.is_settled(visit) && !self.visits.get(visit).draining
    }

    /// Leads the visit's operation, if the visit still moves it.
    #[tactic(auto, using(std::proofs::lemmas::Grind::common_steps, crate::proofs::OtherFrames::led_within, crate::proofs::OtherFrames::led_framed, crate::proofs::Changes::is_seen))]
    fn lead(
        &mut self,
        heap: &mut Heap,
        visit: usize,
        context: Option<usize>,
        way: Way,
    ) -> Result<(), OutOfMemory>
        ensures led { OnOk result (self.new ≡ after (λ s. settling.lead s visit context way) self.old) }
        ensures refused { OnErr result (self.new ≡ self.old) }
        ensures granted { OnOk result (heap.new ≡ heap.old) }
        ensures memory { OnErr result (heap.new ≢ heap.old) }
    {
        if self.is_led(visit) {
            let seen = self.visits.get(visit);
            self.routes
                .lead(heap, seen.operation, seen.filter, context, way)?;
        }
        Ok(())
    }

    /// The visit is settled, and its operation led by this `Way`, with this context for a frame. A visit that is settled already moves
    /// nothing, nor does a draining one; `Way::Stays` settles nothing.
    pub fn settle(
        &mut self,
        heap: &mut Heap,
        visit: usize,
        context: Option<usize>,
        way: Way,
    ) -> Result<(), OutOfMemory>
        ensures settled { OnOk result (self.new ≡ after (λ s. settling.settled_by s visit context way) self.old) }
        ensures refused { OnErr result (self.new ≡ self.old) }
        ensures granted { OnOk result (heap.new ≡ heap.old) }
        ensures memory { OnErr result (heap.new ≢ heap.old) }
    {
        if !way.settles_visit() {
            return Ok(());
        }
        self.lead(heap, visit, context, way)?;
        self.visits.settle(visit);
        Ok(())
    }
}
