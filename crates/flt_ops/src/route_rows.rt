//! How far each operation has come, with the set of its frames by filter.

ghost use Rattle.std.specs.Prelude.{◌≡◌, ◌≢◌, ℕ, ◌<◌, ◌+◌, true, false, List, [], ◌∷◌, ◌++◌, length, set, get_or, find, position, Some};
ghost use Rattle.std.specs.Prelude.{None, OnOk, OnErr, IfOk};
ghost use Rattle.flt_model.specs.Moves as moves;
ghost use Rattle.flt_model.specs.Settling as settling;
ghost use Rattle.flt_model.specs.declared.settling.Way.TheVariants.{Frames};
ghost use Rattle.flt_model.specs.World as machine;
ghost use Rattle.flt_model.specs.declared.parts.Position.TheVariants.{Down, Visiting, Up};

use crate::parts::{Frame, Route};
use counted_heap::Heap;
use flt_model::{Outcome, Position, Way};
use flt_rules::FinalStatus;
use pair_set::PairSet;
use std::alloc::{AllocError, Global};
use std::marker::Model;

/// Routes by operation.
#[derive(Drop)]
pub(crate) struct Routes {
    routes: Vec<Route>,
    /// The filter and the operation of each frame.
    framed: PairSet,
}

impl Model for Routes {
    ghost use Rattle.std.specs.Prelude.{List};
    ghost use Rattle.flt_model.specs.World as machine;
    ghost use Rattle.flt_ops.specs.Kept.{AreFramed};

    ghost Value = { List machine.Route };

    ghost view = { λ r. r.routes.items };

    ghost invariant = { λ r. AreFramed r.routes.items r.framed };
}

// ---- one route

impl Route {
    /// The frame of the lowest filter.
    #[tactic(auto, using(crate::proofs::Framed::last_is))]
    fn last_frame(&self) -> Option<Frame>
        ensures { result ≡ moves.last_frame self.now.frames }
    {
        self.frames.last().copied()
    }

    /// The first frame of a filter.
    #[tactic(auto, using(flt_tree::proofs::FirstPlaces::found_at, flt_tree::proofs::FirstPlaces::none_found, flt_tree::proofs::FirstPlaces::within))]
    fn first_frame(&self, filter: usize) -> Option<Frame>
        ensures { result ≡ find (moves.is_frame_of filter) self.now.frames }
    {
        match first_place(self.frames.as_slice(), filter) {
            Some(place) => Some(self.frames[place]),
            None => None,
        }
    }

    /// The last frame is taken off, and the operation is in a visit.
    #[tactic(auto, using(flt_model::proofs::LastFrames::last_after, flt_model::proofs::LastFrames::without_after))]
    fn take_last(&mut self) -> Option<Frame>
        ensures last { result ≡ moves.last_frame self.old.frames }
        ensures others { self.new ≡ record self.old { position = Visiting; frames = moves.without_last self.old.frames } }
    {
        self.position = Position::Visiting;
        self.frames.pop()
    }

    /// Whether a post callback of the filter will be called.
    fn has_frame(&self, filter: usize) -> bool
        ensures { result ≡ moves.has_frame filter self.now }
    {
        self.frames.iter().any(|frame| is_frame_of(filter, *frame))
    }
}

fn is_frame_of(filter: usize, frame: Frame) -> bool
    ensures { result ≡ moves.is_frame_of filter frame }
{
    frame.filter == filter
}

/// The place of the first frame of a filter.
fn first_place(frames: &[Frame], filter: usize) -> Option<usize>
    ensures { result ≡ position (moves.is_frame_of filter) frames.now }
{
    frames.iter().position(|frame| is_frame_of(filter, *frame))
}

/// Takes the first frame of a filter out.
#[tactic(auto, using(flt_tree::proofs::FirstPlaces::without, flt_tree::proofs::FirstPlaces::none_goes, flt_tree::proofs::FirstPlaces::within))]
fn take_first(frames: &mut Vec<Frame>, filter: usize)
    ensures { frames.new.items ≡ moves.other_frames filter frames.old.items }
{
    if let Some(place) = first_place(frames.as_slice(), filter) {
        let _ = frames.remove(place);
    }
}

/// How far one has come as it arrives.
fn arrived(alloc: Global) -> Route
    ensures { result ≡ record { position = Down 0; frames = []; cancelled = false; outcome = None } }
{
    Route {
        position: Position::Down(0),
        frames: Vec::new(alloc),
        cancelled: false,
        outcome: None,
    }
}

// ---- reads

impl Routes {
    /// No operation has arrived.
    pub(crate) fn new(alloc: Global) -> Routes
        ensures { result ≡ [] }
    {
        Routes {
            routes: Vec::new(alloc),
            framed: PairSet::new(alloc),
        }
    }

    /// The position of an operation; one that isn't there is up.
    pub(crate) fn position(&self, operation: u32) -> Position
        ensures { result ≡ (get_or self.now operation machine.no_route).position }
    {
        match self.routes.get(operation as usize) {
            Some(route) => route.position,
            None => Position::Up,
        }
    }

    /// Whether an operation is cancelled; one that isn't there is.
    pub(crate) fn cancelled(&self, operation: u32) -> bool
        ensures { result ≡ (get_or self.now operation machine.no_route).cancelled }
    {
        match self.routes.get(operation as usize) {
            Some(route) => route.cancelled,
            None => true,
        }
    }

    /// How an operation ended at its lowest point, if it did.
    pub(crate) fn outcome(&self, operation: u32) -> Option<Outcome>
        ensures { result ≡ (get_or self.now operation machine.no_route).outcome }
    {
        match self.routes.get(operation as usize) {
            Some(route) => route.outcome,
            None => None,
        }
    }

    /// Whether an operation has no frame.
    pub(crate) fn is_without_frames(&self, operation: u32) -> bool
        ensures { result ≡ moves.is_empty (get_or self.now operation machine.no_route).frames }
    {
        match self.routes.get(operation as usize) {
            Some(route) => route.frames.is_empty(),
            None => true,
        }
    }

    /// The frame of an operation's lowest filter.
    pub(crate) fn last_frame(&self, operation: u32) -> Option<Frame>
        ensures { result ≡ moves.last_frame (get_or self.now operation machine.no_route).frames }
    {
        match self.routes.get(operation as usize) {
            Some(route) => route.last_frame(),
            None => None,
        }
    }

    /// The first frame of a filter on an operation.
    pub(crate) fn first_frame(&self, operation: u32, filter: usize) -> Option<Frame>
        ensures { result ≡ find (moves.is_frame_of filter) (get_or self.now operation machine.no_route).frames }
    {
        match self.routes.get(operation as usize) {
            Some(route) => route.first_frame(filter),
            None => None,
        }
    }

    /// The least operation with a frame of a filter.
    pub(crate) fn least(&self, filter: usize) -> Option<u32>
        ensures { result ≡ position (moves.has_frame filter) self.now }
    {
        self.framed.least(filter)
    }
}

// ---- changes: each is made, or nothing is

impl Routes {
    /// Adds an operation, at the highest filter.
    pub(crate) fn add(&mut self, heap: &mut Heap) -> Result<(), AllocError>
        ensures ok { OnOk result (self.new ≡ self.old
            ++ record { position = Down 0; frames = []; cancelled = false; outcome = None } ∷ []) }
        ensures refused { OnErr result (self.new ≡ self.old) }
        ensures granted { OnOk result (heap.new ≡ heap.old) }
        ensures memory { OnErr result (heap.new ≢ heap.old) }
    {
        let route = arrived(heap.alloc());
        heap.push(&mut self.routes, route)
    }

    /// Sets the position of an operation.
    pub(crate) fn set_position(&mut self, operation: u32, position: Position)
        ensures { self.new ≡ set self.old operation
            (record (get_or self.old operation machine.no_route) { position = position }) }
    {
        if let Some(route) = self.routes.get_mut(operation as usize) {
            route.position = position;
        }
    }

    /// The operation goes up from here, with this outcome.
    pub(crate) fn end(&mut self, operation: u32, outcome: Outcome)
        ensures { self.new ≡ set self.old operation
            (record (get_or self.old operation machine.no_route) { position = Up; outcome = Some outcome }) }
    {
        if let Some(route) = self.routes.get_mut(operation as usize) {
            route.position = Position::Up;
            route.outcome = Some(outcome);
        }
    }

    /// The operation is cancelled.
    pub(crate) fn cancel(&mut self, operation: u32)
        ensures { self.new ≡ set self.old operation (record (get_or self.old operation machine.no_route) { cancelled = true }) }
    {
        if let Some(route) = self.routes.get_mut(operation as usize) {
            route.cancelled = true;
        }
    }

    /// The operation goes down from a filter, with a frame for its post callback.
    fn frame(
        &mut self,
        heap: &mut Heap,
        operation: u32,
        filter: usize,
        context: Option<usize>,
    ) -> Result<(), AllocError>
        requires { filter < usize.MAX }
        ensures ok { OnOk result (self.new ≡ set self.old operation
            (settling.led filter context Frames (get_or self.old operation machine.no_route))) }
        ensures refused { OnErr result (self.new ≡ self.old) }
        ensures granted { OnOk result (heap.new ≡ heap.old) }
        ensures memory { OnErr result (heap.new ≢ heap.old) }
    {
        if let Some(route) = self.routes.get_mut(operation as usize) {
            heap.reserve(&mut route.frames, 1)?;
            self.framed.insert(heap, filter, operation)?;
            route.frames.push_reserved(Frame { filter, context });
            route.position = Position::Down(filter + 1);
        }
        Ok(())
    }

    /// The operation is led by this `Way` from a filter, with this context for the frame.
    pub(crate) fn lead(
        &mut self,
        heap: &mut Heap,
        operation: u32,
        filter: usize,
        context: Option<usize>,
        way: Way,
    ) -> Result<(), AllocError>
        requires { filter < usize.MAX }
        ensures ok { OnOk result (self.new ≡ set self.old operation
            (settling.led filter context way (get_or self.old operation machine.no_route))) }
        ensures refused { OnErr result (self.new ≡ self.old) }
        ensures granted { OnOk result (heap.new ≡ heap.old) }
        ensures memory { OnErr result (heap.new ≢ heap.old) }
    {
        match way {
            Way::Passes => self.set_position(operation, Position::Down(filter + 1)),
            Way::Frames => self.frame(heap, operation, filter, context)?,
            Way::Ends(outcome) => self.end(operation, outcome),
            Way::Rises => self.set_position(operation, Position::Up),
            Way::Stays => {}
        }
        Ok(())
    }

    /// The last frame is removed, and the operation is in a visit.
    #[tactic(auto, using(std::proofs::lemmas::Grind::common_steps, crate::proofs::Framed::popped_last, crate::proofs::Framed::popped_one, crate::proofs::Framed::popped_none))]
    pub(crate) fn pop_frame(&mut self, operation: u32)
        ensures { self.new ≡ set self.old operation
            (record (get_or self.old operation machine.no_route) {
              position = Visiting;
              frames = moves.without_last (get_or self.old operation machine.no_route).frames;
            }) }
    {
        if let Some(route) = self.routes.get_mut(operation as usize) {
            if let Some(frame) = route.take_last() {
                if !route.has_frame(frame.filter) {
                    self.framed.remove(frame.filter, operation);
                }
            }
        }
    }

    /// The first frame of a filter is removed.
    #[tactic(auto, using(std::proofs::lemmas::Grind::common_steps, crate::proofs::Framed::taken_last, crate::proofs::Framed::taken_one))]
    pub(crate) fn take_frame(&mut self, operation: u32, filter: usize)
        ensures { self.new ≡ set self.old operation
            (record (get_or self.old operation machine.no_route) {
              frames =
                  moves.other_frames filter (get_or self.old operation machine.no_route).frames;
            }) }
    {
        if let Some(route) = self.routes.get_mut(operation as usize) {
            take_first(&mut route.frames, filter);
            if !route.has_frame(filter) {
                self.framed.remove(filter, operation);
            }
        }
    }
}
