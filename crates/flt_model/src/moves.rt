//! The moves of the machine, and the entries of a journal: a move, or the steps with which an activation continued.
//!
//! Operations, activations and work items are named by their serial number, from 0 in the order in which they came, filters
//! by their altitude, files by a number of the script's own.

use flt_rules::{Mode, Operation};

/// The object to which a context is linked.
#[derive(Clone, Copy, PartialEq, Eq)]
pub enum Key {
    /// A stream, by the number of its file.
    Stream(u32),
    /// The filter's instance.
    Instance,
}

/// One move of the machine: what the filter manager or a thread may do next.
#[derive(Clone, Copy, PartialEq, Eq)]
pub enum Move {
    /// An operation on a file comes in at the top of the stack.
    Arrive {
        operation: Operation,
        mode: Mode,
        file: u32,
    },
    /// The operation's pre callback of the filter at which it is is called.
    Pre {
        serial: u32,
    },
    /// The operation passes a filter that has no such pre callback, or is being detached or is gone.
    Skip {
        serial: u32,
    },
    /// The operation leaves the lowest filter and is carried out below: from here it goes up.
    Lower {
        serial: u32,
    },
    /// As the operation goes up, the post callback of its latest frame is called.
    Post {
        serial: u32,
    },
    /// The operation is cancelled, as by IoCancelIrp.
    Cancel {
        serial: u32,
    },
    /// An entry of the operation is taken out of a filter's queue, and its canceled callback is called.
    Canceled {
        altitude: u32,
        serial: u32,
    },
    /// A worker thread calls the routine of a queued work item.
    Work {
        item: u32,
    },
    /// A filter's instance begins to be detached: its queue is disabled.
    Detach {
        altitude: u32,
    },
    /// A post callback of a filter that is being detached is called early, with the draining flag.
    Drain {
        altitude: u32,
        serial: u32,
    },
    /// A context of a filter that is being detached loses its link.
    Unlink {
        altitude: u32,
        key: Key,
    },
    /// The filter's instance is gone.
    Detached {
        altitude: u32,
    },
}

/// One line of a journal.
#[derive(Clone, Copy, PartialEq, Eq)]
pub enum JournalEntry {
    /// A move.
    Move(Move),
    /// An activation continues by this many steps, the last of which is a call or another step that others can see. `grant` says whether an
    /// allocation or a queued work item was granted there.
    Go {
        activation: u32,
        steps: u32,
        grant: bool,
    },
}
