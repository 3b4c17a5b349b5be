//! The filters that a machine runs, as their points.

ghost use Rattle.std.specs.Prelude.{◌≡◌, ◌==◌, ℕ, List, length, option_map, position, slice_get};
ghost use Rattle.std.specs.List.{list_any, position_or_len};
ghost use Rattle.flt_machine_frames.specs.Loading as spec;
ghost use Rattle.flt_graph.specs.declared.graph.CallbackGraph.{CallbackGraph};
ghost use Rattle.flt_model.specs.Program as program;
ghost use Rattle.flt_tree.specs.declared.filter.Filter.{Filter};

use flt_graph::{CallbackGraph, Graph, Instruction, Operation, Place};
use sqlite_items::Items;

/// The altitude and the points of each filter, in the order of the filters' numbers, from 0: from the highest altitude to the lowest.
#[derive(Drop)]
pub struct Loaded {
    pub altitudes: Items<u32>,
    pub graphs: Items<Graph>,
}

/// Whether a place is that of an event: of a pre or a post callback of the operation, or of `canceled`. A routine is for none.
fn is_event(event: Place, place: Place) -> bool
    ensures { result ≡ spec.is_event event place }
{
    match (event, place) {
        (Place::Pre(kind), Place::Pre(own)) | (Place::Post(kind), Place::Post(own)) => {
            own.is_same(kind)
        }
        (Place::Canceled, Place::Canceled) => true,
        _ => false,
    }
}

/// The number of the first altitude that is equal.
fn first_equal(altitudes: &[u32], altitude: u32) -> Option<usize>
    ensures { result ≡ position (λ (n : ℕ). n == altitude) altitudes.now }
{
    altitudes.iter().position(|other| *other == altitude)
}

/// The number of the first callback for an event.
fn first_for(callbacks: &[CallbackGraph], event: Place) -> Option<usize>
    ensures { result ≡ position (λ (c : CallbackGraph). spec.is_event event c.place) callbacks.now }
{
    callbacks
        .iter()
        .position(|callback| is_event(event, callback.place))
}

impl Loaded {
    // ---- filters

    /// How many filters there are.
    pub fn filters(&self) -> usize
        ensures { (p : List Filter) → spec.AreLoaded p self.now → result ≡ length p }
    {
        self.altitudes.len()
    }

    /// The number of the filter at an altitude; past all filters if none has it.
    pub fn number(&self, altitude: u32) -> usize
        ensures { (p : List Filter) → spec.AreLoaded p self.now → result ≡ program.filter_of p altitude }
    {
        let altitudes = self.altitudes.as_slice();
        first_equal(altitudes, altitude).unwrap_or(altitudes.len())
    }

    /// The altitude of a filter; none if it isn't there.
    pub fn altitude(&self, filter: usize) -> Option<u32>
        ensures { (p : List Filter) → spec.AreLoaded p self.now → result ≡ option_map (λ f. f.altitude) (slice_get p filter) }
    {
        self.altitudes.get(filter).copied()
    }

    // ---- callbacks

    /// The callbacks of a filter; none if it isn't there.
    fn callbacks(&self, filter: usize) -> &[CallbackGraph]
        ensures { result.now ≡ (spec.graph_at self.now.graphs filter).callbacks }
    {
        match self.graphs.get(filter) {
            Some(graph) => graph.callbacks.as_slice(),
            None => &[],
        }
    }

    /// Whether a filter has a callback for an event.
    fn has(&self, filter: usize, event: Place) -> bool
        ensures { result ≡ list_any (λ c. spec.is_event event c.place) (spec.graph_at self.now.graphs filter).callbacks }
    {
        self.callbacks(filter)
            .iter()
            .any(|callback| is_event(event, callback.place))
    }

    /// The number of a filter's callback for an event; past all callbacks if it has none.
    fn callback_for(&self, filter: usize, event: Place) -> usize
        ensures { result ≡ position_or_len (λ c. spec.is_event event c.place) (spec.graph_at self.now.graphs filter).callbacks }
    {
        let callbacks = self.callbacks(filter);
        first_for(callbacks, event).unwrap_or(callbacks.len())
    }

    /// Whether a filter has a pre callback of the operation.
    pub fn has_pre(&self, filter: usize, kind: Operation) -> bool
        ensures { (p : List Filter) → spec.AreLoaded p self.now → result ≡ program.has_pre (program.callbacks_at p filter) kind }
    {
        self.has(filter, Place::Pre(kind))
    }

    /// Whether a filter has a post callback of the operation.
    pub fn has_post(&self, filter: usize, kind: Operation) -> bool
        ensures { (p : List Filter) → spec.AreLoaded p self.now → result ≡ program.has_post (program.callbacks_at p filter) kind }
    {
        self.has(filter, Place::Post(kind))
    }

    /// The number of a filter's pre callback of the operation; past all callbacks if it has none.
    pub fn pre(&self, filter: usize, kind: Operation) -> usize
        ensures number { (p : List Filter) → spec.AreLoaded p self.now →
            result ≡ spec.callback_for (program.is_pre_of kind) (program.callbacks_at p filter) }
        ensures body { (p : List Filter) → spec.AreLoaded p self.now →
            program.body_at (program.callbacks_at p filter) result ≡
            program.body_for (program.is_pre_of kind) (program.callbacks_at p filter) }
    {
        self.callback_for(filter, Place::Pre(kind))
    }

    /// The number of a filter's post callback of the operation; past all callbacks if it has none.
    pub fn post(&self, filter: usize, kind: Operation) -> usize
        ensures number { (p : List Filter) → spec.AreLoaded p self.now →
            result ≡ spec.callback_for (program.is_post_of kind) (program.callbacks_at p filter) }
        ensures body { (p : List Filter) → spec.AreLoaded p self.now →
            program.body_at (program.callbacks_at p filter) result ≡
            program.body_for (program.is_post_of kind) (program.callbacks_at p filter) }
    {
        self.callback_for(filter, Place::Post(kind))
    }

    /// The number of a filter's `canceled` callback; past all callbacks if it has none.
    pub fn canceled(&self, filter: usize) -> usize
        ensures number { (p : List Filter) → spec.AreLoaded p self.now →
            result ≡ spec.callback_for program.is_canceled (program.callbacks_at p filter) }
        ensures body { (p : List Filter) → spec.AreLoaded p self.now →
            program.body_at (program.callbacks_at p filter) result ≡ program.body_for program.is_canceled (program.callbacks_at p filter) }
    {
        self.callback_for(filter, Place::Canceled)
    }

    /// Where a callback runs; as a generic routine if it isn't there.
    pub fn place(&self, filter: usize, callback: usize) -> Place
        ensures { (p : List Filter) → spec.AreLoaded p self.now → result ≡ program.place_at (program.callbacks_at p filter) callback }
    {
        match self.graphs.get(filter) {
            Some(graph) => graph.place(callback),
            None => Place::Generic,
        }
    }

    // ---- points

    /// The instruction at a point of a filter's callback, with the points where it leads; the end if the point doesn't exist.
    /// `standings_have_points` relates it to the statements that remain.
    pub fn instruction(&self, filter: usize, callback: usize, point: usize) -> Instruction
        ensures { result ≡ spec.instruction_in self.now filter callback point }
    {
        match self.graphs.get(filter) {
            Some(graph) => graph.instruction(callback, point),
            None => Instruction::End,
        }
    }
}
