//! Plans.

ghost use Rattle.std.specs.Prelude.{◌≡◌};

use flt_machine_store::Change;
use flt_model::Event;
use flt_rules::{Access, LockNumber};
use flt_tree::{ContextVariable, NumberVariable, RemovedVariable};
use sqlite_items::Items;

/// The writes of a step to the variables and the locks of an activation, or the activation's end.
#[derive(Clone, Copy)]
pub enum Write {
    Nothing,
    Number(NumberVariable, u64),
    /// A variable that a call need not have receives a context, or becomes NULL.
    Output(Option<ContextVariable>, Option<usize>),
    /// The visit and the context of a queue's first entry go to two variables.
    Removed(RemovedVariable, Option<usize>, ContextVariable, Option<usize>),
    Take(LockNumber, Access),
    GiveUp(LockNumber),
    End,
}

/// The effect of a step: its events, whether the activation continues on the side where a call succeeds or a test holds, and its changes.
#[derive(Drop)]
pub struct Plan {
    pub events: Items<Event>,
    pub granted: bool,
    pub write: Write,
    pub change: Change,
}

pub(crate) fn made_plan(events: Vec<Event>, granted: bool, write: Write, change: Change) -> Plan
    ensures { result ≡ record { events = events.items; granted = granted; write = write; change = change } }
{
    Plan {
        events: Items::from_vec(events),
        granted,
        write,
        change,
    }
}
