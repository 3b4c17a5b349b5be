//! The parts of the machine's world that need no representation of their own: whoever keeps a world keeps these as they are.

use crate::moves::Key;
use flt_rules::{Access, FinalStatus, Mode, Operation};

/// Whether a filter's instance is there.
#[derive(Clone, Copy, PartialEq, Eq)]
pub enum Presence {
    Attached,
    /// Its teardown has begun.
    Detaching,
    Detached,
}

/// An entry of a cancel-safe queue.
#[derive(Clone, Copy)]
pub struct Entry {
    pub visit: usize,
    pub context: Option<usize>,
}

/// The kind, mode and file of an operation; they never change.
#[derive(Clone, Copy)]
pub struct Arrival {
    pub kind: Operation,
    pub mode: Mode,
    pub file: u32,
}

/// The position of an operation.
#[derive(Clone, Copy)]
pub enum Position {
    /// Going down, at a filter or below the last one. Filters are numbered from the highest altitude.
    Down(usize),
    /// In a visit.
    Visiting,
    /// Going up.
    Up,
}

/// How an operation ended at its lowest point.
#[derive(Clone, Copy)]
pub enum Outcome {
    /// With a final status.
    Completed(FinalStatus),
    /// As a fast I/O that was disallowed.
    Disallowed,
}

/// The object to which a context of a filter is linked.
#[derive(Clone, Copy)]
pub struct Link {
    pub filter: usize,
    pub key: Key,
}

/// A queued work item: the filter, its routine by the number of the callback, and the visit and the context that it hands over.
#[derive(Clone, Copy)]
pub struct Item {
    pub filter: usize,
    pub routine: usize,
    pub visit: Option<usize>,
    pub context: Option<usize>,
}

/// An activation that holds a lock, and its access.
#[derive(Clone, Copy)]
pub struct Holder {
    pub activation: usize,
    pub access: Access,
}
