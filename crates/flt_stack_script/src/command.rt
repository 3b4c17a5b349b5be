//! Commands, which are the lines of scripts.

use flt_rules::{Mode, Operation};

/// A command to the stack, one line of a script.
#[derive(Clone, Copy, PartialEq, Eq)]
pub enum Command {
    /// An operation on a file comes in at the top of the stack.
    Arrive {
        operation: Operation,
        mode: Mode,
        file: u32,
    },
    /// An operation is cancelled. Its serial number counts arrivals from 0; the operation need not have arrived.
    Cancel {
        serial: u32,
    },
    /// The filter of this altitude begins to be detached.
    Detach {
        altitude: u32,
    },
    /// A grant is refused. Its number counts from 0 the steps that ask for memory or for a work item.
    Refuse {
        choice: u32,
    },
}
