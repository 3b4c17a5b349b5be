//! The variables of an abstract state, by name.

ghost use Rattle.std.specs.Prelude.{◌≡◌, true};
ghost use Rattle.flt_abs.specs.Sets as sets;
ghost use Rattle.flt_abs.specs.Variables as spec;

use crate::locks::LockList;
use crate::sets::Statuses;
use crate::state::Abs;
use flt_graph::{ContextVariable, OperationVariable};

impl Abs {
    /// The possible statuses of a variable of contexts.
    pub fn context(&self, variable: ContextVariable) -> Statuses
        ensures { result ≡ spec.context_in self.now variable }
    {
        self.contexts[variable.place()]
    }

    /// The possible statuses of a variable of operations.
    pub fn operation(&self, variable: OperationVariable) -> Statuses
        ensures { result ≡ spec.operation_in self.now variable }
    {
        self.operations[variable.place()]
    }

    pub(crate) fn set_context(&mut self, variable: ContextVariable, statuses: Statuses)
        requires { sets.is_possible statuses ≡ true }
        ensures { self.new ≡ spec.with_context self.old variable statuses }
    {
        let place = variable.place();
        self.contexts[place] = statuses;
    }

    pub(crate) fn set_operation(&mut self, variable: OperationVariable, statuses: Statuses)
        requires { sets.is_possible statuses ≡ true }
        ensures { self.new ≡ spec.with_operation self.old variable statuses }
    {
        let place = variable.place();
        self.operations[place] = statuses;
    }

    pub(crate) fn set_locks(&mut self, locks: LockList)
        ensures { self.new ≡ record self.old { locks = locks } }
    {
        let _places = locks.as_slice();
        self.locks = locks;
    }
}
