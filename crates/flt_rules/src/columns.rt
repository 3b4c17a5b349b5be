//! The columns of the call table.

ghost use Rattle.std.specs.Prelude.{◌≡◌};

use crate::held::Access;
use crate::place::{Level, Operation, Place};

/// The places at which a call is legal.
#[derive(Clone, Copy)]
pub enum Places {
    All,
    /// All but the pre callback of a create, which has no stream yet.
    NotPreCreate,
    PreOrDeferredPre,
    PreOrPost,
    CanceledOrDeferredPre,
    DeferredPost,
}

/// The state that a call requires of a variable before it is made.
#[derive(Clone, Copy)]
pub enum Need {
    Nothing,
    /// It is surely held.
    Held,
    /// It is surely held, and goes to the receiver that the call names.
    HandedOver,
    /// It receives what the call gives, so it must not be held.
    Output,
}

/// The state that a call requires of the lock that it names.
#[derive(Clone, Copy)]
pub enum LockNeed {
    Nothing,
    /// The callback doesn't hold it.
    NotHeld,
    /// It is the latest lock that the callback took.
    Latest,
}

/// The states that a call requires of its operands.
#[derive(Clone, Copy)]
pub struct Needs {
    /// Of the context that it works on or hands over.
    pub context: Need,
    /// Of the variable that receives a context.
    pub output: Need,
    /// Of the operation that it works on.
    pub operation: Need,
    /// Whether the operation must be surely no fast I/O.
    pub irp: bool,
    /// Whether it names a status, which must be legal.
    pub status: bool,
    pub lock: LockNeed,
}

/// The effect of a call on a variable.
#[derive(Clone, Copy)]
pub enum Change {
    Stays,
    Null,
    Held,
    Stale,
    NullOrHeld,
}

/// The effect of a call on the lock list.
#[derive(Clone, Copy)]
pub enum LockChange {
    Stays,
    /// The lock is added as the latest.
    Taken(Access),
    /// Its last entry goes, of either kind.
    Released,
}

/// The effects of a call on its operands.
#[derive(Clone, Copy)]
pub struct Effects {
    pub context: Change,
    pub output: Change,
    pub operation: Change,
    pub lock: LockChange,
}

/// A row of the call table.
#[derive(Clone, Copy)]
pub struct Row {
    /// The greatest level at which the call may be made.
    pub greatest: Level,
    pub places: Places,
    pub needs: Needs,
    /// The effects on the operands if the call succeeds.
    pub on_ok: Effects,
    /// The same if it fails. None for a call that always succeeds.
    pub on_fail: Option<Effects>,
}

impl Places {
    ghost use Rattle.flt_rules.specs.Columns.{has_place};

    /// Whether a place is among these.
    pub fn contains(self, place: Place) -> bool
        ensures { result ≡ has_place self place }
    {
        match self {
            Places::All => true,
            Places::NotPreCreate => !matches!(place, Place::Pre(Operation::Create)),
            Places::PreOrDeferredPre => matches!(place, Place::Pre(_) | Place::DeferredPre),
            Places::PreOrPost => matches!(place, Place::Pre(_) | Place::Post(_)),
            Places::CanceledOrDeferredPre => {
                matches!(place, Place::Canceled | Place::DeferredPre)
            }
            Places::DeferredPost => matches!(place, Place::DeferredPost),
        }
    }
}
