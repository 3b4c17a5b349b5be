//! The possible states of one variable of contexts, and how an instruction changes them.

ghost use Rattle.std.specs.Prelude.{◌≡◌, true, false, Some};
ghost use Rattle.flt_rules.specs.Table.{row as row_of};
ghost use Rattle.flt_explain_outcomes.specs.Possible as spec;

use crate::hand_over::is_argument;
use flt_explain::is_context;
use flt_graph::{Action, ContextVariable, Instruction, Invocation, Place, Test};
use flt_rules::{Change, Effects, row};

/// Whether the variable may be NULL, held, or released or handed over. If none of these is possible, the place isn't reached.
#[derive(Clone, Copy)]
pub(crate) struct Possible {
    pub(crate) null: bool,
    pub(crate) held: bool,
    pub(crate) stale: bool,
}

impl Possible {
    /// No state is possible.
    pub(crate) fn nothing() -> Possible
        ensures { result ≡ spec.nothing }
    {
        Possible {
            null: false,
            held: false,
            stale: false,
        }
    }

    fn null_alone() -> Possible
        ensures { result ≡ spec.null_alone }
    {
        Possible {
            null: true,
            ..Possible::nothing()
        }
    }

    fn null_or_held() -> Possible
        ensures { result ≡ spec.of true true false }
    {
        Possible {
            null: true,
            held: true,
            stale: false,
        }
    }

    /// The possible states of a variable when a callback at this place is entered.
    pub(crate) fn entered(place: Place, variable: ContextVariable) -> Possible
        ensures { result ≡ spec.entered place variable }
    {
        if !is_argument(variable) {
            return Possible::null_alone();
        }
        match place {
            Place::Pre(_) => Possible::null_alone(),
            _ => Possible::null_or_held(),
        }
    }

    pub(crate) fn is_some(self) -> bool
        ensures { result ≡ spec.is_some self }
    {
        self.null || self.held || self.stale
    }

    /// Whether each state that is possible here is possible in the other.
    pub(crate) fn is_within(self, other: Possible) -> bool
        ensures { result ≡ spec.is_within self other }
    {
        (!self.null || other.null) && (!self.held || other.held) && (!self.stale || other.stale)
    }

    /// The states that are possible in one of both.
    pub(crate) fn or(self, other: Possible) -> Possible {
        Possible {
            null: self.null || other.null,
            held: self.held || other.held,
            stale: self.stale || other.stale,
        }
    }

    fn changed(self, change: Change) -> Possible
        ensures { result ≡ spec.changed change self }
    {
        match change {
            Change::Stays => self,
            Change::Null => Possible::null_alone(),
            Change::Held => Possible {
                held: true,
                ..Possible::nothing()
            },
            Change::Stale => Possible {
                stale: true,
                ..Possible::nothing()
            },
            Change::NullOrHeld => Possible::null_or_held(),
        }
    }

    /// The same if the variable is the one that is named.
    fn changed_if(self, is_own: bool, change: Change) -> Possible
        ensures { result ≡ spec.changed_if is_own change self }
    {
        if is_own { self.changed(change) } else { self }
    }

    fn after_effects(
        self,
        call: &Invocation,
        effects: &Effects,
        variable: ContextVariable,
    ) -> Possible
        ensures { result ≡ spec.after_effects call.now effects.now variable self }
    {
        self.changed_if(is_context(call.context, variable), effects.context)
            .changed_if(is_context(call.output, variable), effects.output)
    }

    fn after_call(self, call: &Invocation, outcome: bool, variable: ContextVariable) -> Possible
        ensures granted { outcome ≡ true → result ≡ spec.after_effects call.now (row_of call.now.call).on_ok variable self }
        ensures refused { outcome ≡ false → result ≡ spec.after_call call.now (row_of call.now.call).on_fail variable self }
    {
        let row = row(call.call);
        if outcome {
            return self.after_effects(call, &row.on_ok, variable);
        }
        match &row.on_fail {
            Some(effects) => self.after_effects(call, effects, variable),
            None => self,
        }
    }

    fn after_action(self, action: Action, variable: ContextVariable) -> Possible
        ensures { result ≡ spec.after_action action variable self }
    {
        match action {
            Action::ClearContext(own) => {
                self.changed_if(is_context(Some(own), variable), Change::Null)
            }
            _ => self,
        }
    }

    /// The states that are left if a test of NULL has this outcome.
    fn where_found(self, is_own: bool, outcome: bool) -> Possible
        ensures { result ≡ spec.where_found is_own outcome self }
    {
        if !is_own {
            return self;
        }
        if outcome {
            Possible {
                null: false,
                ..self
            }
        } else {
            Possible {
                held: false,
                stale: false,
                ..self
            }
        }
    }

    fn after_test(self, test: Test, outcome: bool, variable: ContextVariable) -> Possible
        ensures { result ≡ spec.after_test test outcome variable self }
    {
        match test {
            Test::ContextIsSome(own) => self.where_found(is_context(Some(own), variable), outcome),
            _ => self,
        }
    }

    /// The possible states of a variable after an instruction, by its outcome.
    pub(crate) fn after(
        self,
        instruction: &Instruction,
        outcome: bool,
        variable: ContextVariable,
    ) -> Possible
        ensures { result ≡ spec.after instruction.now outcome variable self }
    {
        match instruction {
            Instruction::Act(action, _) => self.after_action(*action, variable),
            Instruction::Call(call, _, _) => self.after_call(&call.roles(), outcome, variable),
            Instruction::Test(test, _, _) => self.after_test(*test, outcome, variable),
            _ => self,
        }
    }
}
