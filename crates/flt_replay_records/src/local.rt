//! The steps of an activation that nobody else can see.

ghost use Rattle.std.specs.Prelude.{◌≡◌, Some, None, if◌then◌else◌, IfOk, OnOk};
ghost use Rattle.flt_model.specs.LocalSteps as spec;
ghost use Rattle.flt_replay_records.specs.Local.{local_steps};
ghost use Rattle.flt_replay_records.specs.Rest.{statement_of};
ghost use Rattle.flt_tree.specs.declared.filter.Statement.{out-Statement};

use crate::going::Going;
use crate::rest::Upcoming;
use flt_model::Variables;
use flt_tree::{Action, Condition, OperationVariable, Statement};
use std::alloc::AllocError;

impl<'a> Going<'a> {
    /// Computes a number, or sets a variable to NULL. False if others see the action.
    #[inline(always)]
    fn act(&mut self, action: Action) -> Result<bool, AllocError>
        ensures after { IfOk result (λ local. spec.after_action self.old action ≡ (if local then Some self.new else None)) }
        ensures rest { OnOk result (self.new.rest ≡ self.old.rest) }
    {
        match action {
            Action::SetNumber(variable, expression) => {
                let value = self.expression(expression);
                self.set_number(variable, value)?;
                Ok(true)
            }
            Action::ClearContext(variable) => {
                self.set_context(variable, None)?;
                Ok(true)
            }
            Action::ClearOperation(variable) => {
                self.set_operation(OperationVariable::Removed(variable), None)?;
                Ok(true)
            }
            Action::ReadValue(_, _) | Action::ReadFile(_, _) | Action::WriteValue(_, _) => {
                Ok(false)
            }
        }
    }

    #[inline(always)]
    fn condition(&self, draining: bool, condition: &Condition) -> Option<bool>
        ensures { result ≡ spec.holds_condition draining self.now condition.now }
    {
        match condition {
            Condition::Test(test) => self.test(draining, *test),
            Condition::Succeeds(_) => None,
        }
    }

    /// The step of a statement of the text, which was the first one. False if others see it.
    #[inline(always)]
    fn statement(&mut self, draining: bool, statement: &'a Statement) -> Result<bool, AllocError>
        ensures { IfOk result (λ local. spec.after_statement draining self.old self.old.rest (out-Statement statement.now) ≡
            (if local then Some self.new else None)) }
    {
        match statement {
            Statement::Act(_, action) => self.act(*action),
            Statement::Call(_, _) | Statement::Return(_, _) => Ok(false),
            Statement::If(_, condition, granted, refused) => {
                match self.condition(draining, condition) {
                    Some(true) => {
                        self.enter(granted.as_slice())?;
                        Ok(true)
                    }
                    Some(false) => {
                        self.enter(refused.as_slice())?;
                        Ok(true)
                    }
                    None => Ok(false),
                }
            }
            Statement::Repeat(span, turns, body) => {
                self.turn(span, *turns, body.as_slice())?;
                Ok(true)
            }
        }
    }

    /// The step after the end of the block at hand, if no `repeat` continues with it: execution is in the block round it.
    #[tactic(auto, using(crate::proofs::LocalLaws::statement_same))]
    fn step_behind(&mut self, draining: bool) -> Result<bool, AllocError>
        ensures { IfOk result (λ local. spec.local_step draining self.old self.old.rest ≡ (if local then Some self.new else None)) }
    {
        match self.next() {
            Some(Upcoming::Statement(statement)) => self.statement(draining, statement),
            Some(Upcoming::Repeat(span, turns, body)) => {
                self.turn(span, turns, body)?;
                Ok(true)
            }
            None => Ok(false),
        }
    }

    /// The step after the end of the block at hand: mostly another turn of a `repeat`.
    #[inline(always)]
    #[tactic(auto, using(crate::proofs::Turning::turned_step))]
    fn step_on(&mut self, draining: bool) -> Result<bool, AllocError>
        ensures { IfOk result (λ local. spec.local_step draining self.old self.old.rest ≡ (if local then Some self.new else None)) }
    {
        if self.turn_again() {
            return Ok(true);
        }
        self.step_behind(draining)
    }

    /// One step, in place if the block at hand continues or another turn begins.
    #[inline(always)]
    #[tactic(auto, using(crate::proofs::LocalLaws::statement_same))]
    fn step(&mut self, draining: bool) -> Result<bool, AllocError>
        ensures { IfOk result (λ local. spec.local_step draining self.old self.old.rest ≡ (if local then Some self.new else None)) }
    {
        match self.next_in_block() {
            Some(statement) => self.statement(draining, statement),
            None => self.step_on(draining),
        }
    }

    /// Takes one step that nobody else sees. False if the next one is seen; the first statement is then gone.
    pub(crate) fn step_locally(&mut self, draining: bool) -> Result<bool, AllocError>
        ensures { IfOk result (λ local. spec.local_step draining self.old self.old.rest ≡ (if local then Some self.new else None)) }
    {
        self.step(draining)
    }

    /// Takes this many steps that nobody else sees. False if one of them is seen, or others see the end of the body.
    pub(crate) fn step_locally_often(
        &mut self,
        draining: bool,
        steps: u32,
    ) -> Result<bool, AllocError>
        ensures { IfOk result (λ local. local_steps draining steps self.old ≡ (if local then Some self.new else None)) }
    {
        for _ in 0..steps {
            if !self.step(draining)? {
                return Ok(false);
            }
        }
        Ok(true)
    }
}
