//! The events of a step of the machine that others can see, in the order in which they happen.
//!
//! Activations, contexts and visits are named by their numbers, each from 0 in the order in which they came. A visit is one call of a
//! filter for one operation, before the filters below it or after them.

use flt_rules::{Call, LockNumber, Possessed};
use flt_tree::Status;

/// An object that an activation can hold.
#[derive(Clone, Copy)]
pub enum Object {
    Context(usize),
    Visit(usize),
}

/// The channel by which a status reaches the filter manager.
#[derive(Clone, Copy)]
pub enum Answer {
    /// Returned by the callback, or missing if one is expected.
    Returned(Option<Status>),
    /// Handed on by FltCompletePendedPreOperation, for the visit.
    CompletesPre {
        whose: Possessed,
        visit: usize,
        status: Status,
    },
    /// FINISHED_PROCESSING, by FltCompletePendedPostOperation, for the visit.
    CompletesPost {
        visit: usize,
    },
}

/// One thing that happens in a step. The first number is the activation's.
#[derive(Clone, Copy)]
pub enum Event {
    /// A call of the driver kit is made.
    Call(usize, Call),
    /// A status is given.
    Status(usize, Answer),
    /// A lock is requested.
    Lock(usize, LockNumber),
    /// A lock is given back.
    Unlock(usize, LockNumber),
    /// The object that a variable names is used.
    Use(usize, Object),
    /// A variable that is NULL is used.
    Empty(usize),
    /// The activation holds the object once more.
    Gain(usize, Object),
    /// The activation holds the object once less.
    Lose(usize, Object),
    /// The last reference of a context goes.
    Free(usize),
    /// The filter's part in the operation is over.
    Settle(usize),
    /// The activation ends.
    End(usize),
}
