//! Changes of the store, one for each effect of a call or a move of the machine.

use flt_model::{Key, Way};
use flt_rules::{Access, LockNumber, Mode, Operation};
use flt_tree::ContextVariable;

/// A change of the store. Filters, visits, contexts, items and activations are named by their numbers, operations by their serial numbers,
/// all from 0.
#[derive(Clone, Copy)]
pub enum Change {
    Nothing,
    // ---- contexts
    /// A new context of the filter, with one reference.
    Allocate(usize),
    AddReference(usize),
    DropReference(usize),
    /// The context has this value. A freed one keeps its own.
    Write(usize, u64),
    /// The context is linked for the filter at the key, in place of the one that is linked there now, whose reference goes to the variable,
    /// or is dropped if no variable is given.
    Link(usize, usize, Key, Option<usize>, Option<ContextVariable>),
    /// The context's link is removed; its reference goes to the variable, or is dropped if no variable is given.
    Unlink(usize, Option<ContextVariable>),
    // ---- locks
    /// The activation holds the filter's lock, so.
    TakeLock(usize, LockNumber, usize, Access),
    /// The activation holds the filter's lock no longer.
    GiveUpLock(usize, LockNumber, usize),
    // ---- what waits
    /// An entry comes to the end of the filter's queue: a visit and a context.
    Insert(usize, usize, Option<usize>),
    /// The front entry of the filter's queue goes.
    RemoveNext(usize),
    /// The first entry of the operation goes out of the filter's queue; it is of the visit.
    RemoveOf(usize, u32, usize),
    /// One more work item: filter, routine, visit, context.
    Queue(usize, usize, Option<usize>, Option<usize>),
    /// A work item starts, and is gone.
    Start(usize),
    // ---- operations
    /// The visit is settled, with this context for a frame.
    Settle(usize, Option<usize>, Way),
    /// An operation on a file arrives.
    Arrive(Operation, Mode, u32),
    /// The operation, going down, is in a new visit of the filter.
    StartPre(u32, usize),
    /// The operation passes the filter.
    Skip(u32, usize),
    /// The operation is carried out below the last filter.
    Lower(u32),
    /// The operation, going up, is in a new visit of the filter; its last frame is removed, which is of the filter, with this context.
    StartPost(u32, usize, Option<usize>),
    /// The operation has a new draining visit of the filter; its first frame of the filter goes, with this context.
    StartDraining(u32, usize, Option<usize>),
    Cancel(u32),
    // ---- filters
    /// The filter's teardown begins.
    Detach(usize),
    /// The filter's teardown ends.
    Finish(usize),
}
