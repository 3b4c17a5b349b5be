//! Why an entry was not queued.

use crate::Entry;

/// Why an entry was not queued. It comes back, and the queues are as they were.
#[derive(Clone, Copy, Debug, PartialEq, Eq)]
pub enum InsertFault {
    /// The queue is disabled, or there is no such filter.
    Disabled(Entry),
    /// Memory was refused.
    OutOfMemory(Entry),
}
