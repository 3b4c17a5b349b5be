//! An activation: one run of a callback, with its variables and the locks that it holds. Most that ended have few variables, and keep
//! no more than these.

ghost use Rattle.std.specs.Prelude.{◌≡◌, ◌++◌, ◌∷◌, [], true, Some, None, if◌then◌else◌, IfOk, OnOk, MatchOption};
ghost use Rattle.flt_model.specs.LocalSteps as local;
ghost use Rattle.flt_model.specs.Variables as spec;
ghost use Rattle.flt_replay_records.specs.Activations.{activation_of, IsGoing};
ghost use Rattle.flt_replay_records.specs.Local.{local_steps};
ghost use Rattle.flt_replay_records.specs.Rest.{statement_of, others};
ghost use Rattle.flt_replay_records.specs.Writes.{written};
ghost use Rattle.flt_rules.specs.Held as held;

use crate::going::Going;
use crate::kept::Few;
use crate::rest::Upcoming;
use flt_model::Variables;
use flt_rules::{HeldLock, LockNumber};
use flt_tree::{ContextVariable, NumberVariable, OperationVariable, RemovedVariable, Statement};
use std::alloc::{AllocError, Global};
use std::marker::Model;

#[derive(Drop)]
enum State<'a> {
    Going(Box<Going<'a>>),
    /// It ended, and all other variables are 0 or NULL.
    Ended(Few),
}

/// How far a callback has come. A variable keeps its number when what it names is released or handed over.
#[derive(Drop)]
pub struct Activation<'a> {
    alloc: Global,
    state: State<'a>,
}

impl<'a> Model for Activation<'a> {
    ghost use Rattle.flt_model.specs.World as machine;

    ghost Value = { machine.Activation };

    ghost use Rattle.flt_replay_records.specs.Coded.{activation_code};

    ghost coded = { activation_code };

    ghost use Rattle.flt_replay_records.specs.Activations.{activation_of};

    ghost view = { λ a. activation_of a.state };
}

/// The memory of an activation that ended, for the next one that starts.
#[derive(Drop)]
pub struct Spare<'a> {
    room: Option<Box<Going<'a>>>,
}

/// The effect of a step on an activation.
#[derive(Clone, Copy)]
pub enum Write {
    Nothing,
    Number(NumberVariable, u64),
    /// A context or NULL, to a variable that a call need not have.
    Output(Option<ContextVariable>, Option<usize>),
    /// A visit and a context, as of an entry of a queue.
    Entry(RemovedVariable, ContextVariable, Option<usize>, Option<usize>),
    /// Takes the lock.
    Lock(HeldLock),
    /// Gives up the last entry of the lock, of either kind.
    Unlock(LockNumber),
}

impl<'a> Spare<'a> {
    /// No memory.
    pub fn none() -> Spare<'a> {
        Spare { room: None }
    }

    /// The memory at hand, or else new memory.
    fn place(&mut self, alloc: Global, going: Going<'a>) -> Result<Box<Going<'a>>, AllocError>
        ensures { IfOk result (λ room. room.value ≡ going.entry) }
    {
        match self.room.take() {
            Some(mut room) => {
                *room = going;
                Ok(room)
            }
            None => Ok(Box::new(alloc, going)?),
        }
    }
}

/// Allocates memory again for an activation that ended and now continues.
#[cold]
fn go_again<'a>(state: &mut State<'a>, alloc: Global) -> Result<(), AllocError>
    ensures same { OnOk result (activation_of state.new ≡ activation_of state.old) }
    ensures going { OnOk result (IsGoing state.new) }
{
    let State::Ended(few) = &*state else {
        return Ok(());
    };
    let going = Box::new(alloc, Going::ended(alloc, few.copied()))?;
    *state = State::Going(going);
    Ok(())
}

impl<'a> Variables for Activation<'a> {
    ghost activation = { λ act. act };

    fn number(&self, variable: NumberVariable) -> u64
        ensures { result ≡ spec.number_in self.now variable }
    {
        match &self.state {
            State::Going(going) => going.number(variable),
            State::Ended(_) => 0,
        }
    }

    fn context(&self, variable: ContextVariable) -> Option<usize>
        ensures { result ≡ spec.context_in self.now variable }
    {
        match &self.state {
            State::Going(going) => going.context(variable),
            State::Ended(few) => few.context(variable.place()),
        }
    }

    fn operation(&self, variable: OperationVariable) -> Option<usize>
        ensures { result ≡ spec.operation_in self.now variable }
    {
        match &self.state {
            State::Going(going) => going.operation(variable),
            State::Ended(few) => few.operation(variable.place()),
        }
    }
}

impl<'a> Activation<'a> {
    /// An activation at its entry: all is 0 or NULL except the given operation and the given context. It fails if a number is 2^32 - 1 or
    /// greater.
    pub fn starting(
        alloc: Global,
        spare: &mut Spare<'a>,
        body: &'a [Statement],
        given: Option<usize>,
        arg: Option<usize>,
    ) -> Result<Activation<'a>, AllocError>
        ensures { IfOk result (λ act. act ≡ spec.starting body.now given arg) }
    {
        let going = Going::starting(alloc, body, given, arg)?;
        Ok(Activation {
            alloc,
            state: State::Going(spare.place(alloc, going)?),
        })
    }

    /// The locks that the activation holds.
    pub fn locks(&self) -> &[HeldLock]
        ensures { result.now ≡ self.now.locks }
    {
        match &self.state {
            State::Going(going) => going.locks(),
            State::Ended(_) => &[],
        }
    }

    /// Whether the activation took the lock and didn't give it up.
    pub fn holds_lock(&self, lock: LockNumber) -> bool
        ensures { result ≡ held.holds_lock lock self.now.locks }
    {
        match &self.state {
            State::Going(going) => going.holds_lock(lock),
            State::Ended(_) => false,
        }
    }

    /// Continues with a block in place of the first statement.
    pub fn go_on(&mut self, block: &'a [Statement], write: Write) -> Result<(), AllocError>
        ensures { OnOk result (self.new ≡ written write (record self.old { rest = block.now ++ others self.old.rest })) }
    {
        if let State::Ended(_) = &self.state {
            go_again(&mut self.state, self.alloc)?;
        }
        if let State::Going(going) = &mut self.state {
            going.go_on(block, write)?;
        }
        Ok(())
    }

    /// Takes out the first statement that remains.
    pub fn next(&mut self) -> Option<Upcoming<'a>>
        ensures rest { MatchOption result ((self.old.rest ≡ []) × (self.new.rest ≡ []))
            (λ u. self.old.rest ≡ statement_of u ∷ self.new.rest) }
        ensures others { self.new ≡ record self.old { rest = self.new.rest } }
    {
        match &mut self.state {
            State::Going(going) => going.next(),
            State::Ended(_) => None,
        }
    }

    /// The first statement that remains, which stays. A `repeat` that was begun is taken out and put back.
    #[inline(always)]
    pub fn first(&mut self) -> Result<Option<Upcoming<'a>>, AllocError>
        ensures same { OnOk result (self.new ≡ self.old) }
        ensures first { IfOk result (λ f. MatchOption f (self.old.rest ≡ []) (λ u. self.old.rest ≡ statement_of u ∷ others self.old.rest)) }
    {
        match &mut self.state {
            State::Going(going) => going.first(),
            State::Ended(_) => Ok(None),
        }
    }

    /// Takes one step that nobody else sees. False if the next one is seen; the first statement is then gone.
    pub fn step_locally(&mut self, draining: bool) -> Result<bool, AllocError>
        ensures { IfOk result (λ stepped. local.local_step draining self.old self.old.rest ≡ (if stepped then Some self.new else None)) }
    {
        match &mut self.state {
            State::Going(going) => going.step_locally(draining),
            State::Ended(_) => Ok(false),
        }
    }

    /// Takes this many steps that nobody else sees. False if one of them is seen, or others see the end of the body.
    #[tactic(auto, using(crate::proofs::LocalLaws::none_of_ended))]
    pub fn step_locally_often(&mut self, draining: bool, steps: u32) -> Result<bool, AllocError>
        ensures { IfOk result (λ stepped. local_steps draining steps self.old ≡ (if stepped then Some self.new else None)) }
    {
        match &mut self.state {
            State::Going(going) => going.step_locally_often(draining, steps),
            State::Ended(_) if steps == 0 => Ok(true),
            State::Ended(_) => Ok(false),
        }
    }

    /// Whether it ended.
    #[inline(always)]
    pub fn has_ended(&self) -> bool
        ensures { result ≡ self.now.ended }
    {
        match &self.state {
            State::Going(going) => going.has_ended(),
            State::Ended(_) => true,
        }
    }

    /// Ends the activation: nothing remains. A lock that it holds stays held. Memory that it no longer needs is spare.
    pub fn end(&mut self, spare: &mut Spare<'a>)
        ensures { self.new ≡ record self.old { rest = []; ended = true } }
    {
        let State::Going(going) = &mut self.state else {
            return;
        };
        let Some(few) = going.few() else {
            going.end();
            return;
        };
        if let State::Going(room) = std::mem::replace(&mut self.state, State::Ended(few)) {
            spare.room = Some(room);
        }
    }
}
