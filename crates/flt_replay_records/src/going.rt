//! An activation in progress: its position in its blocks, its variables and the locks that it holds.

ghost use Rattle.std.specs.Prelude.{◌≡◌, ◌++◌, ◌∷◌, true, false, [], replicate, IfOk, IfSome, OnOk, MatchOption};
ghost use Rattle.flt_model.specs.LocalSteps.{turns_left};
ghost use Rattle.flt_model.specs.Variables as spec;
ghost use Rattle.flt_replay_records.specs.Activations.{ended_with};
ghost use Rattle.flt_replay_records.specs.Rest.{statement_of, others, IsTurn};
ghost use Rattle.flt_replay_records.specs.Writes.{written};

use crate::activation::Write;
use crate::kept::{ActivationRest, Few};
use crate::rest::{Rest, Upcoming};
use flt_model::Variables;
use flt_rules::{HeldLock, LockNumber};
use flt_tree::{
    ContextVariable, NumberVariable, OperationVariable, RemovedVariable, Span, Statement,
};
use std::alloc::{AllocError, Global};
use std::marker::Model;

/// How far a callback has come. It may have ended too, with variables of which few make use.
#[derive(Drop)]
pub(crate) struct Going<'a> {
    rest: Rest<'a>,
    pub(crate) kept: ActivationRest<'a>,
}

impl<'a> Model for Going<'a> {
    ghost use Rattle.flt_model.specs.World as machine;

    ghost Value = { machine.Activation };

    ghost use Rattle.flt_replay_records.specs.Coded.{activation_code};

    ghost coded = { activation_code };

    ghost use Rattle.flt_replay_records.specs.Kept.{contents};
    ghost use Rattle.flt_replay_records.specs.Rest.{remains};

    ghost view = { λ a. record {
      rest = remains a.rest (contents a.kept).after;
      numbers = (contents a.kept).numbers;
      contexts = (contents a.kept).contexts;
      operations = (contents a.kept).operations;
      locks = (contents a.kept).locks;
      ended = (contents a.kept).ended;
    } };
}

impl<'a> Going<'a> {
    /// An activation at its entry: all is 0 or NULL except the given operation and the given context. It fails if a number is 2^32 - 1 or
    /// greater.
    pub(crate) fn starting(
        alloc: Global,
        body: &'a [Statement],
        given: Option<usize>,
        arg: Option<usize>,
    ) -> Result<Going<'a>, AllocError>
        ensures { IfOk result (λ act. act ≡ spec.starting body.now given arg) }
    {
        Ok(Going {
            rest: Rest::new(body),
            kept: ActivationRest::starting(alloc, given, arg)?,
        })
    }

    /// One that ended, with these variables.
    pub(crate) fn ended(alloc: Global, few: Few) -> Going<'a>
        ensures { result ≡ ended_with few }
    {
        Going {
            rest: Rest::new(&[]),
            kept: ActivationRest::ended(alloc, few),
        }
    }

    /// The variables, if none but these are in use and no locks are held.
    pub(crate) fn few(&self) -> Option<Few>
        ensures { IfSome result (λ few. record self.now { rest = []; ended = true } ≡ ended_with few) }
    {
        self.kept.few()
    }

    /// Sets a number variable.
    #[inline(always)]
    pub(crate) fn set_number(
        &mut self,
        variable: NumberVariable,
        value: u64,
    ) -> Result<(), AllocError>
        ensures { OnOk result (self.new ≡ spec.with_number self.old variable value) }
    {
        self.kept.set_number(variable.place(), value)
    }

    /// Sets a context variable, or makes it NULL. It fails if the number is 2^32 - 1 or greater, or if memory is refused.
    pub(crate) fn set_context(
        &mut self,
        variable: ContextVariable,
        context: Option<usize>,
    ) -> Result<(), AllocError>
        ensures { OnOk result (self.new ≡ spec.with_context_in self.old variable context) }
    {
        self.kept.set_context(variable.place(), context)
    }

    /// Sets an operation variable, or makes it NULL. It fails if the number is 2^32 - 1 or greater, or if memory is refused.
    pub(crate) fn set_operation(
        &mut self,
        variable: OperationVariable,
        visit: Option<usize>,
    ) -> Result<(), AllocError>
        ensures { OnOk result (self.new ≡ spec.with_operation_in self.old variable visit) }
    {
        self.kept.set_operation(variable.place(), visit)
    }

    /// Sets a variable that a call need not have. It fails if the number is 2^32 - 1 or greater, or if memory is refused.
    pub(crate) fn set_old(
        &mut self,
        variable: Option<ContextVariable>,
        context: Option<usize>,
    ) -> Result<(), AllocError>
        ensures { OnOk result (self.new ≡ spec.with_old self.old variable context) }
    {
        match variable {
            Some(variable) => self.set_context(variable, context),
            None => Ok(()),
        }
    }

    fn write(&mut self, write: Write) -> Result<(), AllocError>
        ensures { OnOk result (self.new ≡ written write self.old) }
    {
        match write {
            Write::Nothing => {}
            Write::Number(variable, value) => self.set_number(variable, value)?,
            Write::Output(variable, context) => self.set_old(variable, context)?,
            Write::Entry(removed, variable, visit, context) => {
                self.set_operation(OperationVariable::Removed(removed), visit)?;
                self.set_context(variable, context)?;
            }
            Write::Lock(held) => self.kept.push_lock(held)?,
            Write::Unlock(lock) => self.remove_lock(lock),
        }
        Ok(())
    }

    /// Continues with a block in place of the first statement.
    pub(crate) fn go_on(&mut self, block: &'a [Statement], write: Write) -> Result<(), AllocError>
        ensures { OnOk result (self.new ≡ written write (record self.old { rest = block.now ++ others self.old.rest })) }
    {
        self.rest.replace_first(&mut self.kept, block)?;
        self.write(write)
    }
}

impl<'a> Variables for Going<'a> {
    ghost activation = { λ act. act };

    #[inline(always)]
    fn number(&self, variable: NumberVariable) -> u64
        ensures { result ≡ spec.number_in self.now variable }
    {
        self.kept.number(variable.place())
    }

    fn context(&self, variable: ContextVariable) -> Option<usize>
        ensures { result ≡ spec.context_in self.now variable }
    {
        self.kept.context(variable.place())
    }

    fn operation(&self, variable: OperationVariable) -> Option<usize>
        ensures { result ≡ spec.operation_in self.now variable }
    {
        self.kept.operation(variable.place())
    }
}

// ---- what remains

impl<'a> Going<'a> {
    /// Takes out the first statement that remains.
    pub(crate) fn next(&mut self) -> Option<Upcoming<'a>>
        ensures rest { MatchOption result ((self.old.rest ≡ []) × (self.new.rest ≡ []))
            (λ u. self.old.rest ≡ statement_of u ∷ self.new.rest) }
        ensures others { self.new ≡ record self.old { rest = self.new.rest } }
    {
        self.rest.next(&mut self.kept)
    }

    /// Takes out the first statement of the block at hand, or none if nothing is left of it.
    #[inline(always)]
    pub(crate) fn next_in_block(&mut self) -> Option<&'a Statement>
        ensures rest { MatchOption result (self.new ≡ self.old) (λ s. self.old.rest ≡ s.now ∷ self.new.rest) }
        ensures others { self.new ≡ record self.old { rest = self.new.rest } }
    {
        self.rest.next_in_block()
    }

    /// Begins another turn of a `repeat` whose body is through. False, and nothing is changed, if that doesn't come next.
    #[inline(always)]
    pub(crate) fn turn_again(&mut self) -> bool
        ensures turned { result ≡ true → IsTurn self.old.rest self.new.rest }
        ensures same { result ≡ false → self.new ≡ self.old }
        ensures others { self.new ≡ record self.old { rest = self.new.rest } }
    {
        self.rest.turn_again(&mut self.kept)
    }

    /// The first statement that remains, which stays. A `repeat` that was begun is taken out and put back.
    #[inline(always)]
    pub(crate) fn first(&mut self) -> Result<Option<Upcoming<'a>>, AllocError>
        ensures same { OnOk result (self.new ≡ self.old) }
        ensures first { IfOk result (λ f. MatchOption f (self.old.rest ≡ []) (λ u. self.old.rest ≡ statement_of u ∷ others self.old.rest)) }
    {
        self.rest.first(&mut self.kept)
    }

    /// Enters a block, after which execution continues here.
    #[inline(always)]
    pub(crate) fn enter(&mut self, block: &'a [Statement]) -> Result<(), AllocError>
        ensures { OnOk result (self.new ≡ record self.old { rest = block.now ++ self.old.rest }) }
    {
        self.rest.enter(&mut self.kept, block)
    }

    /// Takes a turn of a `repeat`, if one is left.
    pub(crate) fn turn(
        &mut self,
        span: &'a Span,
        turns: u64,
        body: &'a [Statement],
    ) -> Result<(), AllocError>
        ensures { OnOk result (self.new ≡ record self.old { rest = turns_left span.now turns body.now self.old.rest }) }
    {
        self.rest.turn(&mut self.kept, span, turns, body)
    }

    /// Whether it ended.
    #[inline(always)]
    pub(crate) fn has_ended(&self) -> bool
        ensures { result ≡ self.now.ended }
    {
        self.kept.has_ended()
    }

    /// Ends the activation: nothing remains. A lock that it holds stays held.
    pub(crate) fn end(&mut self)
        ensures { self.new ≡ record self.old { rest = []; ended = true } }
    {
        self.rest = Rest::new(&[]);
        self.kept.end();
    }
}
