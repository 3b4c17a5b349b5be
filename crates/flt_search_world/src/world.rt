//! A small world: the objects that exist at one moment, in a few places. It is a copyable value, apart from the monitor's world: it has
//! nothing that is over, and a step that needs more places isn't followed. Operations, activations and work items have their numbers in the
//! journal.

use crate::entries::{Entries, MAX_ENTRIES};
use crate::frames::Frames;
use crate::violations::Violations;
use flt_rules::{Mode, Operation, Stage};
use flt_search_activation::{Activation, NOBODY};

/// How many operations there may be.
pub const MAX_OPERATIONS: u8 = 4;

/// How many visits there may be.
pub const MAX_VISITS: u8 = 8;

/// How many contexts there may be.
pub const MAX_CONTEXTS: u8 = 16;

/// How many activations there may be.
pub const MAX_ACTIVATIONS: u8 = 4;

/// How many filters there may be.
pub const MAX_FILTERS: u8 = flt_rules::MAX_FILTERS as u8;

/// How many work items there may be.
pub const MAX_ITEMS: u8 = 6;

/// Where an operation is: down at a filter, in a visit, or up.
#[derive(Clone, Copy)]
pub enum Whereabouts {
    Down(u8),
    Visiting,
    Up,
}

/// An operation that isn't done.
#[derive(Clone, Copy)]
pub struct Passage {
    pub is_there: bool,
    /// Its number in the journal.
    pub serial: u32,
    pub kind: Operation,
    pub mode: Mode,
    pub file: u32,
    pub at: Whereabouts,
    pub is_cancelled: bool,
    pub frames: Frames,
}

/// A visit that isn't settled.
#[derive(Clone, Copy)]
pub struct Visit {
    pub is_there: bool,
    pub operation: u8,
    pub filter: u8,
    pub stage: Stage,
    pub is_draining: bool,
}

/// The link of a context.
#[derive(Clone, Copy, PartialEq, Eq)]
pub enum ContextLink {
    Nowhere,
    Instance,
    Stream(u32),
}

/// A context that something reaches.
#[derive(Clone, Copy)]
pub struct Context {
    pub is_there: bool,
    pub filter: u8,
    pub value: u64,
    pub link: ContextLink,
}

/// A work item that is queued.
#[derive(Clone, Copy)]
pub struct Item {
    pub is_there: bool,
    /// Its number in the journal.
    pub serial: u32,
    pub filter: u8,
    pub routine: usize,
    pub visit: Option<u8>,
    pub context: Option<u8>,
}

/// All that exists.
#[derive(Clone, Copy)]
pub struct World {
    pub(crate) is_detaching: [bool; 16],
    pub(crate) operations: [Passage; 4],
    pub(crate) visits: [Visit; 8],
    pub(crate) contexts: [Context; 16],
    pub(crate) activations: [Activation; 4],
    pub(crate) items: [Item; 6],
    pub entries: Entries,
    /// How many operations, activations and items have come.
    pub arrived: u32,
    pub(crate) started: u32,
    pub(crate) queued: u32,
    pub cancels: u32,
    pub(crate) broken: Violations,
}

// ---- what isn't there

pub(crate) const NO_PASSAGE: Passage = Passage {
    is_there: false,
    serial: 0,
    kind: Operation::Create,
    mode: Mode::Irp,
    file: 0,
    at: Whereabouts::Up,
    is_cancelled: false,
    frames: Frames::NONE,
};

pub(crate) const NO_VISIT: Visit = Visit {
    is_there: false,
    operation: 0,
    filter: 0,
    stage: Stage::Pre,
    is_draining: false,
};

pub(crate) const NO_CONTEXT: Context = Context {
    is_there: false,
    filter: 0,
    value: 0,
    link: ContextLink::Nowhere,
};

pub(crate) const NO_ITEM: Item = Item {
    is_there: false,
    serial: 0,
    filter: 0,
    routine: 0,
    visit: None,
    context: None,
};

/// The world in which nothing has come.
pub const OPENING: World = World {
    is_detaching: [false; 16],
    operations: [NO_PASSAGE; 4],
    visits: [NO_VISIT; 8],
    contexts: [NO_CONTEXT; 16],
    activations: [NOBODY; 4],
    items: [NO_ITEM; 6],
    entries: Entries::NONE,
    arrived: 0,
    started: 0,
    queued: 0,
    cancels: 0,
    broken: Violations::NOTHING,
};

// ---- reading

impl World {
    /// The activation at a place; past the last place, the first activation.
    pub fn activation(&self, place: u8) -> &Activation {
        match self.activations.get(usize::from(place)) {
            Some(activation) => activation,
            None => &self.activations[0],
        }
    }

    /// The operation at a place; past the last place, one that doesn't exist.
    pub fn operation(&self, place: u8) -> Passage {
        match self.operations.get(usize::from(place)) {
            Some(operation) => *operation,
            None => NO_PASSAGE,
        }
    }

    /// The visit at a place; past the last place, one that doesn't exist.
    pub fn visit(&self, place: u8) -> Visit {
        match self.visits.get(usize::from(place)) {
            Some(visit) => *visit,
            None => NO_VISIT,
        }
    }

    /// The context at a place; past the last place, one that doesn't exist.
    pub fn context(&self, place: u8) -> Context {
        match self.contexts.get(usize::from(place)) {
            Some(context) => *context,
            None => NO_CONTEXT,
        }
    }

    /// The work item at a place; past the last place, one that doesn't exist.
    pub fn item(&self, place: u8) -> Item {
        match self.items.get(usize::from(place)) {
            Some(item) => *item,
            None => NO_ITEM,
        }
    }

    /// Whether a filter is detached.
    pub fn detaches(&self, filter: u8) -> bool {
        match self.is_detaching.get(usize::from(filter)) {
            Some(detaching) => *detaching,
            None => true,
        }
    }

    /// Whether some filter is detached.
    pub fn detaches_one(&self) -> bool {
        self.is_detaching.iter().any(|detaching| *detaching)
    }

    /// The context of a filter that has this link.
    pub(crate) fn linked(&self, filter: u8, link: ContextLink) -> Option<u8> {
        for place in 0..MAX_CONTEXTS {
            let context = self.context(place);
            if context.is_there && context.filter == filter && context.link == link {
                return Some(place);
            }
        }
        None
    }

    /// The place of the first entry of a filter's queue.
    pub(crate) fn front(&self, filter: u8) -> Option<usize> {
        for place in 0..MAX_ENTRIES {
            if let Some(entry) = self.entries.get(place) {
                if entry.filter == filter {
                    return Some(place);
                }
            }
        }
        None
    }

    /// The place of the first entry of an operation in a filter's queue.
    pub fn entry_of(&self, filter: u8, operation: u8) -> Option<usize> {
        for place in 0..MAX_ENTRIES {
            if let Some(entry) = self.entries.get(place) {
                if entry.filter == filter && self.visit(entry.visit).operation == operation {
                    return Some(place);
                }
            }
        }
        None
    }

    /// How many own a visit: activations, entries and items.
    pub(crate) fn owners(&self, visit: u8) -> u32 {
        let mut owners: u32 = 0;
        for activation in self.activations.iter() {
            if activation.is_on && activation.held_visit(visit) > 0 {
                owners = owners.saturating_add(1);
            }
        }
        for place in 0..MAX_ENTRIES {
            if let Some(entry) = self.entries.get(place) {
                if entry.visit == visit {
                    owners = owners.saturating_add(1);
                }
            }
        }
        for item in self.items.iter() {
            if item.is_there && item.visit == Some(visit) {
                owners = owners.saturating_add(1);
            }
        }
        owners
    }

    /// How many turns are left of the innermost `repeat` in which an activation is.
    pub fn turns_left(&self, a: u8) -> Option<u64> {
        self.activation(a).turns.last_left()
    }

    /// Sets how many turns are left of it.
    pub fn set_turns_left(&mut self, a: u8, left: u64) {
        if let Some(activation) = self.activations.get_mut(usize::from(a)) {
            activation.turns.set_last_left(left);
        }
    }

    /// How many operations aren't done.
    pub fn alive(&self) -> u32 {
        let mut alive: u32 = 0;
        for operation in self.operations.iter() {
            if operation.is_there {
                alive = alive.saturating_add(1);
            }
        }
        alive
    }
}

// ---- room

impl World {
    /// A place for another context, if there is one.
    pub fn free_context(&self) -> Option<u8> {
        for place in 0..MAX_CONTEXTS {
            if !self.context(place).is_there {
                return Some(place);
            }
        }
        None
    }

    pub(crate) fn free_visit(&self) -> Option<u8> {
        for place in 0..MAX_VISITS {
            if !self.visit(place).is_there {
                return Some(place);
            }
        }
        None
    }

    pub(crate) fn free_operation(&self) -> Option<u8> {
        for place in 0..MAX_OPERATIONS {
            if !self.operation(place).is_there {
                return Some(place);
            }
        }
        None
    }

    pub(crate) fn free_activation(&self) -> Option<u8> {
        for place in 0..MAX_ACTIVATIONS {
            if !self.activation(place).is_on {
                return Some(place);
            }
        }
        None
    }

    pub(crate) fn free_item(&self) -> Option<u8> {
        for place in 0..MAX_ITEMS {
            if !self.item(place).is_there {
                return Some(place);
            }
        }
        None
    }

    /// Whether there is no room for an operation, a visit or an activation.
    pub fn is_full(&self) -> bool {
        self.free_operation().is_none()
            || self.free_visit().is_none()
            || self.free_activation().is_none()
    }
}
