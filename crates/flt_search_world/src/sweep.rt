//! Takes objects that nothing reaches any more out of a world.

use crate::world::{
    ContextLink, MAX_ACTIVATIONS, MAX_CONTEXTS, MAX_FILTERS, MAX_OPERATIONS, MAX_VISITS,
    NO_CONTEXT, NO_PASSAGE, Whereabouts, World,
};
use flt_rules::{Operation, Place};
use flt_search_activation::VariableValue;
use flt_search_plan::{CONTEXTS, Plan};

/// Some contexts of a world.
#[derive(Clone, Copy)]
struct ReachedContexts {
    flags: [bool; 16],
}

impl ReachedContexts {
    fn add(&mut self, context: u8) {
        if let Some(flag) = self.flags.get_mut(usize::from(context)) {
            *flag = true;
        }
    }

    fn add_optional(&mut self, context: Option<u8>) {
        if let Some(context) = context {
            self.add(context);
        }
    }

    fn has(&self, context: u8) -> bool {
        match self.flags.get(usize::from(context)) {
            Some(flag) => *flag,
            None => false,
        }
    }
}

const NONE_REACHED: ReachedContexts = ReachedContexts { flags: [false; 16] };

impl World {
    /// The contexts that an activation names by a variable which is read later.
    fn named_later(&self, plan: &Plan, a: u8) -> ReachedContexts {
        let activation = self.activation(a);
        let live = plan.live(activation.filter, activation.callback, activation.point);
        let mut named = NONE_REACHED;
        for variable in CONTEXTS {
            if live.context(variable) {
                if let VariableValue::At(context) = activation.context(variable) {
                    named.add(context);
                }
            }
        }
        named
    }

    /// The contexts that an activation holds and doesn't name later leak.
    fn leak(&mut self, plan: &Plan, a: u8) {
        if !self.activation(a).is_on || !self.activation(a).holds_contexts() {
            return;
        }
        let named = self.named_later(plan, a);
        if let Some(activation) = self.activations.get_mut(usize::from(a)) {
            for context in 0..MAX_CONTEXTS {
                if activation.held(context) > 0 && !named.has(context) {
                    activation.forget(context);
                    activation.is_leaking = true;
                }
            }
        }
    }

    fn add_held(&self, reached: &mut ReachedContexts) {
        for place in 0..MAX_ACTIVATIONS {
            let activation = self.activation(place);
            if activation.is_on {
                for context in 0..MAX_CONTEXTS {
                    if activation.held(context) > 0 {
                        reached.add(context);
                    }
                }
            }
        }
    }

    fn add_framed(&self, reached: &mut ReachedContexts) {
        for operation in self.operations.iter() {
            if operation.is_there {
                for place in 0..operation.frames.len() {
                    if let Some(frame) = operation.frames.get(place) {
                        reached.add_optional(frame.context);
                    }
                }
            }
        }
    }

    fn add_waiting(&self, reached: &mut ReachedContexts) {
        for place in 0..self.entries.len() {
            if let Some(entry) = self.entries.get(place) {
                reached.add_optional(entry.context);
            }
        }
        for item in self.items.iter() {
            if item.is_there {
                reached.add_optional(item.context);
            }
        }
    }

    /// The contexts that something reaches.
    fn reached(&self) -> ReachedContexts {
        let mut reached = NONE_REACHED;
        self.add_held(&mut reached);
        self.add_framed(&mut reached);
        self.add_waiting(&mut reached);
        for place in 0..MAX_CONTEXTS {
            if self.context(place).link != ContextLink::Nowhere {
                reached.add(place);
            }
        }
        reached
    }

    /// Frees a context: each variable that named it names nothing.
    fn free(&mut self, place: u8) {
        if let Some(context) = self.contexts.get_mut(usize::from(place)) {
            *context = NO_CONTEXT;
        }
        for activation in self.activations.iter_mut() {
            activation.free(place);
        }
    }

    fn free_unreached(&mut self) {
        let reached = self.reached();
        for place in 0..MAX_CONTEXTS {
            if self.context(place).is_there && !reached.has(place) {
                self.free(place);
            }
        }
    }

    fn has_visit(&self, operation: u8) -> bool {
        for place in 0..MAX_VISITS {
            let visit = self.visit(place);
            if visit.is_there && visit.operation == operation {
                return true;
            }
        }
        false
    }

    /// Whether a filter from this one on has a pre callback.
    fn has_pre_ahead(&self, plan: &Plan, filter: u8, kind: Operation) -> bool {
        for other in filter..MAX_FILTERS {
            if plan.has_callback(other, Place::Pre(kind)) && !self.detaches(other) {
                return true;
            }
        }
        false
    }

    /// Whether nothing more happens to an operation.
    fn is_over(&self, plan: &Plan, place: u8) -> bool {
        let operation = self.operation(place);
        if operation.frames.len() > 0 || self.has_visit(place) {
            return false;
        }
        match operation.at {
            Whereabouts::Down(filter) => !self.has_pre_ahead(plan, filter, operation.kind),
            Whereabouts::Up => true,
            Whereabouts::Visiting => false,
        }
    }

    fn drop_over(&mut self, plan: &Plan) {
        for place in 0..MAX_OPERATIONS {
            if self.operation(place).is_there && self.is_over(plan, place) {
                if let Some(operation) = self.operations.get_mut(usize::from(place)) {
                    *operation = NO_PASSAGE;
                }
            }
        }
    }

    /// Takes out all that nothing reaches.
    pub fn sweep(&mut self, plan: &Plan) {
        for place in 0..MAX_ACTIVATIONS {
            self.leak(plan, place);
        }
        self.free_unreached();
        self.drop_over(plan);
    }
}
