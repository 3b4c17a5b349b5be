//! The keys that distinguish worlds, as numbers that are spread over 64 bits. Two worlds of one number are taken for the same, which at
//! most loses journals. Contexts and visits are numbered in the order in which they are met; variables that aren't read later are ignored.

use flt_graph::OperationVariable;
use flt_rules::{Access, Operation, Stage};
use flt_search_activation::{Activation, VariableValue};
use flt_search_plan::{CONTEXTS, Live, NUMBERS, Plan, REMOVED};
use flt_search_world::{
    ContextLink, MAX_ACTIVATIONS, MAX_CONTEXTS, MAX_FILTERS, MAX_ITEMS, MAX_OPERATIONS, MAX_VISITS,
    Passage, Whereabouts, World,
};

/// Spreads a part over all bits of a number.
fn mixed(number: u64, part: u64) -> u64 {
    let product = (number ^ part).wrapping_mul(0x9E37_79B9_7F4A_7C15);
    product ^ (product >> 29)
}

/// The number so far, and the numbers of the contexts and visits that were met.
#[derive(Clone, Copy)]
struct Mix {
    number: u64,
    contexts: [u8; 16],
    visits: [u8; 8],
    met: u8,
}

impl Mix {
    fn put(&mut self, part: u64) {
        self.number = mixed(self.number, part);
    }

    fn put_bool(&mut self, part: bool) {
        self.put(if part { 1 } else { 2 });
    }

    fn put_size(&mut self, part: usize) {
        self.put(part as u64);
    }

    /// Takes in a part that has no place among others.
    fn add(&mut self, part: u64) {
        self.number = self.number.wrapping_add(mixed(part, 77));
    }

    /// The number of a context, from 1.
    fn context(&mut self, place: u8) -> u64 {
        let next = self.met.saturating_add(1);
        if let Some(number) = self.contexts.get_mut(usize::from(place)) {
            if *number == 0 {
                *number = next;
                self.met = next;
            }
            return u64::from(*number);
        }
        0
    }

    fn visit(&mut self, place: u8) -> u64 {
        let next = self.met.saturating_add(1);
        if let Some(number) = self.visits.get_mut(usize::from(place)) {
            if *number == 0 {
                *number = next;
                self.met = next;
            }
            return u64::from(*number);
        }
        0
    }

    fn put_context(&mut self, place: Option<u8>) {
        let part = match place {
            Some(place) => self.context(place),
            None => 100,
        };
        self.put(part);
    }

    fn put_visit(&mut self, place: Option<u8>) {
        let part = match place {
            Some(place) => self.visit(place),
            None => 100,
        };
        self.put(part);
    }
}

// ---- operations

fn kind_part(kind: Operation) -> u64 {
    (kind.number() as u64).wrapping_add(11)
}

fn at_part(at: Whereabouts) -> u64 {
    match at {
        Whereabouts::Down(filter) => u64::from(filter).wrapping_add(20),
        Whereabouts::Visiting => 18,
        Whereabouts::Up => 19,
    }
}

fn put_operation(mix: &mut Mix, place: u8, operation: &Passage) {
    mix.put(u64::from(place));
    mix.put(kind_part(operation.kind));
    mix.put(at_part(operation.at));
    mix.put_bool(operation.mode.is_irp());
    mix.put_bool(operation.is_cancelled);
    mix.put(u64::from(operation.file));
    for number in 0..operation.frames.len() {
        if let Some(frame) = operation.frames.get(number) {
            mix.put(u64::from(frame.filter));
            mix.put_context(frame.context);
        }
    }
}

fn put_operations(mix: &mut Mix, world: &World) {
    for place in 0..MAX_OPERATIONS {
        let operation = world.operation(place);
        if operation.is_there {
            put_operation(mix, place, &operation);
        }
    }
}

// ---- what waits

fn put_waiting(mix: &mut Mix, world: &World) {
    for place in 0..world.entries.len() {
        if let Some(entry) = world.entries.get(place) {
            mix.put(u64::from(entry.filter));
            mix.put_visit(Some(entry.visit));
            mix.put_context(entry.context);
        }
    }
    mix.put(5);
    for place in 0..MAX_ITEMS {
        let item = world.item(place);
        if item.is_there {
            mix.put(u64::from(item.filter));
            mix.put_size(item.routine);
            mix.put_visit(item.visit);
            mix.put_context(item.context);
        }
    }
    mix.put(6);
}

// ---- activations

fn put_numbers(mix: &mut Mix, activation: &Activation, live: Live) {
    for variable in NUMBERS {
        if live.number(variable) {
            mix.put(activation.number(variable));
        }
    }
}

fn put_named_context(mix: &mut Mix, activation: &Activation, named: VariableValue) {
    let part = match named {
        VariableValue::Null => 101,
        VariableValue::Gone => 102,
        VariableValue::At(place) => {
            if activation.held(place) > 0 {
                mix.context(place)
            } else {
                102
            }
        }
    };
    mix.put(part);
}

fn put_named_visit(mix: &mut Mix, activation: &Activation, named: VariableValue) {
    let part = match named {
        VariableValue::Null => 103,
        VariableValue::Gone => 104,
        VariableValue::At(place) => {
            if activation.held_visit(place) > 0 {
                mix.visit(place)
            } else {
                104
            }
        }
    };
    mix.put(part);
}

fn put_variables(mix: &mut Mix, activation: &Activation, live: Live) {
    put_numbers(mix, activation, live);
    for variable in CONTEXTS {
        if live.context(variable) {
            put_named_context(mix, activation, activation.context(variable));
        }
    }
    put_named_visit(
        mix,
        activation,
        activation.operation(OperationVariable::Data),
    );
    for variable in REMOVED {
        if live.removed(variable) {
            let named = activation.operation(OperationVariable::Removed(variable));
            put_named_visit(mix, activation, named);
        }
    }
}

/// Takes in how many times an activation holds each context and visit, by the numbers of these.
fn put_held(mix: &mut Mix, activation: &Activation) {
    for place in 0..MAX_CONTEXTS {
        let held = activation.held(place);
        if held > 0 {
            let number = mix.context(place);
            mix.add(number.wrapping_mul(1000).wrapping_add(u64::from(held)));
        }
    }
    for place in 0..MAX_VISITS {
        let held = activation.held_visit(place);
        if held > 0 {
            let number = mix.visit(place);
            mix.add(number.wrapping_mul(3000).wrapping_add(u64::from(held)));
        }
    }
}

fn put_locks(mix: &mut Mix, activation: &Activation) {
    for place in 0..activation.locks.len() {
        if let Some(held) = activation.locks.get(place) {
            mix.put(u64::from(held.lock.place()));
            mix.put_bool(matches!(held.access, Access::Exclusive));
        }
    }
    mix.put(7);
    for place in 0..activation.turns.len() {
        if let Some(turn) = activation.turns.get(place) {
            mix.put_size(turn.point);
            mix.put(turn.left);
        }
    }
    mix.put(8);
}

fn put_activation(mix: &mut Mix, plan: &Plan, activation: &Activation) {
    let live = plan.live(activation.filter, activation.callback, activation.point);
    mix.put(u64::from(activation.filter));
    mix.put_size(activation.callback);
    mix.put_size(activation.point);
    mix.put_bool(activation.is_draining);
    mix.put_bool(activation.is_leaking);
    mix.put_bool(activation.is_packet);
    put_variables(mix, activation, live);
    put_held(mix, activation);
    put_locks(mix, activation);
}

// ---- links, values and visits

fn link_part(link: ContextLink) -> u64 {
    match link {
        ContextLink::Nowhere => 0,
        ContextLink::Instance => 1,
        ContextLink::Stream(file) => u64::from(file).wrapping_add(2),
    }
}

fn put_contexts(mix: &mut Mix, plan: &Plan, world: &World) {
    for place in 0..MAX_CONTEXTS {
        let context = world.context(place);
        if context.is_there {
            let number = mix.context(place);
            let link = link_part(context.link).wrapping_mul(64);
            mix.add(link.wrapping_add(number).wrapping_mul(77));
            if plan.sees_values(context.filter) {
                mix.add(mixed(context.value, number));
            }
        }
    }
}

fn put_visits(mix: &mut Mix, world: &World) {
    for place in 0..MAX_VISITS {
        let visit = world.visit(place);
        if visit.is_there {
            let number = mix.visit(place);
            let stage = if matches!(visit.stage, Stage::Pre) {
                1
            } else {
                2
            };
            let whose = u64::from(visit.operation).wrapping_mul(64);
            mix.add(mixed(number.wrapping_add(whose), stage));
            mix.add(mixed(u64::from(visit.filter), number));
        }
    }
}

fn put_detaching(mix: &mut Mix, world: &World) {
    for filter in 0..MAX_FILTERS {
        if world.detaches(filter) {
            mix.put(u64::from(filter));
        }
    }
}

/// The number of a world in which this activation, or none, is running.
pub(crate) fn key_of(plan: &Plan, world: &World, runner: Option<u8>) -> u64 {
    let mut mix = Mix {
        number: 1,
        contexts: [0; 16],
        visits: [0; 8],
        met: 0,
    };
    if world.detaches_one() {
        put_detaching(&mut mix, world);
    }
    put_operations(&mut mix, world);
    put_waiting(&mut mix, world);
    for place in 0..MAX_ACTIVATIONS {
        let activation = world.activation(place);
        if activation.is_on {
            mix.put_bool(is_runner(runner, place));
            put_activation(&mut mix, plan, activation);
        }
    }
    put_contexts(&mut mix, plan, world);
    put_visits(&mut mix, world);
    mix.put(u64::from(world.cancels));
    mix.number
}

/// Whether the activation at a place is the running one.
pub(crate) fn is_runner(runner: Option<u8>, place: u8) -> bool {
    match runner {
        Some(runner) => runner == place,
        None => false,
    }
}
