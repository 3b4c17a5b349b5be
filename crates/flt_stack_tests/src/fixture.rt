//! A stack with one caller and one worker, which takes steps.
ghost use Rattle.std.specs.Prelude.{◌≡◌};
ghost use Rattle.flt_stack_threads.specs.Places.{IsCallerOf, IsWorkerOf};

use flt_model::Journal;
use flt_rules::{Mode, Operation};
use flt_stack::Loaded;
use flt_stack_threads::{
    ArriveFault, Blanks, CallerSeat, DetachFault, Differ, Gate, Stack, StackName, TurnFault,
    WorkerSeat,
};
use std::alloc::{AllocError, Global};
use std::marker::Brand;
use std::sync::Wait;
use std::sync::ledger::Blank;

/// A request of the caller, or the work of the worker.
#[derive(Clone, Copy)]
pub(crate) enum Step {
    /// A read of file 0 arrives.
    Arrive,
    Cancel(u16),
    Detach(u32),
    Refuse(u64),
    Work,
}

/// The answer to a step.
#[derive(Clone, Copy, PartialEq)]
pub(crate) enum Answer {
    Serial(u32),
    Done,
    /// This many entries were added.
    Added(u64),
    NoSuch,
    Already,
    Full,
    /// Memory was refused twice.
    Refused,
}

/// A journal, and whether it agrees with the callers' receipts.
#[derive(Drop)]
pub(crate) struct Ended {
    pub(crate) journal: Journal,
    pub(crate) agrees: bool,
}

/// The results of steps.
#[derive(Drop)]
pub(crate) struct Told {
    pub(crate) answers: Vec<Answer>,
    /// Whether a step was refused memory, and was taken once more.
    pub(crate) refused: bool,
    pub(crate) ended: Ended,
}

/// A gate that lets every worker pass.
#[derive(Drop)]
struct Open;

impl Gate for Open {
    fn before(&mut self, _worker: usize, _n: u64) {}
}

/// A stack with one caller and one worker, and room for their seats.
struct Fixture<N: StackName> {
    stack: Stack<N>,
    caller: CallerSeat<N>,
    worker: WorkerSeat<N>,
    callers: Vec<CallerSeat<N>>,
    workers: Vec<WorkerSeat<N>>,
    refused: bool,
    ghost of_caller: { IsCallerOf stack.exchange caller.place },
    ghost of_worker: { IsWorkerOf stack.exchange worker.place },
}

/// The answer to an arrival, unless memory is refused.
fn arrived(answer: Result<u32, ArriveFault>) -> Result<Answer, AllocError> {
    match answer {
        Ok(serial) => Ok(Answer::Serial(serial)),
        Err(ArriveFault::Full) => Ok(Answer::Full),
        Err(ArriveFault::OutOfMemory) => Err(AllocError),
    }
}

/// The answer to a detach, unless memory is refused.
fn detached(answer: Result<(), DetachFault>) -> Result<Answer, AllocError> {
    match answer {
        Ok(()) => Ok(Answer::Done),
        Err(DetachFault::NoSuch) => Ok(Answer::NoSuch),
        Err(DetachFault::Already) => Ok(Answer::Already),
        Err(DetachFault::Full) => Ok(Answer::Full),
        Err(DetachFault::OutOfMemory) => Err(AllocError),
    }
}

/// The answer to work, unless memory is refused.
fn worked(answer: Result<u64, TurnFault>) -> Result<Answer, AllocError> {
    match answer {
        Ok(made) => Ok(Answer::Added(made)),
        Err(TurnFault::Full) => Ok(Answer::Full),
        Err(TurnFault::OutOfMemory) => Err(AllocError),
    }
}

impl<N: StackName> Fixture<N> {
    fn open(alloc: Global, loaded: Loaded, blanks: Blanks) -> Result<Fixture<N>, AllocError>
        requires filters { loaded ≡ N.trees }
        requires callers { (blanks.callers.name ≡ N.callers_name) × (blanks.callers.parts ≡ N.callers_parts) × (N.callers_parts ≡ 1) }
        requires others { (blanks.others.name ≡ N.others_name) × (blanks.others.parts ≡ N.others_parts) × (N.others_parts ≡ 1) }
        requires fulls { (blanks.fulls.name ≡ N.fulls_name) × (blanks.fulls.parts ≡ N.fulls_parts) × (N.fulls_parts ≡ 2) }
    {
        let (stack, mut callers, mut workers) = Stack::<N>::open(alloc, loaded, blanks, 1, 1)?;
        let (Some(caller), Some(worker)) = (callers.pop(), workers.pop()) else {
            unreachable!()
        };
        Ok(Fixture::of(stack, caller, worker, callers, workers))
    }

    /// A stack with these seats.
    fn of(
        stack: Stack<N>,
        caller: CallerSeat<N>,
        worker: WorkerSeat<N>,
        callers: Vec<CallerSeat<N>>,
        workers: Vec<WorkerSeat<N>>,
    ) -> Fixture<N>
        requires caller { IsCallerOf stack.exchange caller.place }
        requires worker { IsWorkerOf stack.exchange worker.place }
    {
        Fixture {
            stack,
            caller,
            worker,
            callers,
            workers,
            refused: false,
        }
    }

    /// Takes a step.
    fn step<R: Wait>(&mut self, rt: &R, alloc: Global, step: Step) -> Result<Answer, AllocError> {
        match step {
            Step::Arrive => self.arrive(rt, alloc),
            Step::Cancel(serial) => Ok(self.cancel(serial)),
            Step::Detach(altitude) => self.detach(rt, alloc, altitude),
            Step::Refuse(choice) => self.refuse(rt, choice),
            Step::Work => self.work(rt, alloc),
        }
    }

    fn arrive<R: Wait>(&mut self, rt: &R, alloc: Global) -> Result<Answer, AllocError> {
        let seat = &mut self.caller;
        arrived(
            self.stack
                .arrive(rt, alloc, seat, Operation::Read, Mode::Irp, 0),
        )
    }

    fn detach<R: Wait>(
        &mut self,
        rt: &R,
        alloc: Global,
        altitude: u32,
    ) -> Result<Answer, AllocError> {
        detached(self.stack.detach(rt, alloc, &mut self.caller, altitude))
    }

    fn cancel(&mut self, serial: u16) -> Answer {
        self.stack.cancel(&mut self.caller, serial as u32);
        Answer::Done
    }

    fn refuse<R: Wait>(&self, rt: &R, choice: u64) -> Result<Answer, AllocError> {
        self.stack.refuse(rt, choice)?;
        Ok(Answer::Done)
    }

    fn work<R: Wait>(&mut self, rt: &R, alloc: Global) -> Result<Answer, AllocError> {
        worked(self.stack.work(rt, alloc, &mut self.worker, &mut Open))
    }

    /// Takes a step, and takes it once more if memory was refused.
    fn step_or_again<R: Wait>(&mut self, rt: &R, alloc: Global, step: Step) -> Answer {
        if let Ok(answer) = self.step(rt, alloc, step) {
            return answer;
        }
        self.refused = true;
        match self.step(rt, alloc, step) {
            Ok(answer) => answer,
            Err(_) => Answer::Refused,
        }
    }

    /// Ends the stack. The seats go back to where they came from, for which no memory is needed.
    fn end(self) -> Ended {
        let Fixture {
            stack,
            caller,
            worker,
            mut callers,
            mut workers,
            refused: _,
        } = self;
        let _ = callers.push(caller);
        let _ = workers.push(worker);
        finished(stack, callers, workers)
    }
}

/// Ends a stack.
pub(crate) fn finished<N: StackName>(
    stack: Stack<N>,
    callers: Vec<CallerSeat<N>>,
    workers: Vec<WorkerSeat<N>>,
) -> Ended {
    match stack.finish(callers, workers) {
        Ok(journal) => Ended {
            journal,
            agrees: true,
        },
        Err(Differ(journal)) => Ended {
            journal,
            agrees: false,
        },
    }
}

/// The results of steps on a stack of these filters.
fn taken<N: StackName, R: Wait>(
    rt: &R,
    alloc: Global,
    loaded: Loaded,
    blanks: Blanks,
    steps: &[Step],
) -> Result<Told, AllocError>
    requires filters { loaded ≡ N.trees }
    requires callers { (blanks.callers.name ≡ N.callers_name) × (blanks.callers.parts ≡ N.callers_parts) × (N.callers_parts ≡ 1) }
    requires others { (blanks.others.name ≡ N.others_name) × (blanks.others.parts ≡ N.others_parts) × (N.others_parts ≡ 1) }
    requires fulls { (blanks.fulls.name ≡ N.fulls_name) × (blanks.fulls.parts ≡ N.fulls_parts) × (N.fulls_parts ≡ 2) }
{
    let mut answers = Vec::with_capacity(alloc, steps.len())?;
    let mut fixture = Fixture::<N>::open(alloc, loaded, blanks)?;
    for step in steps {
        let _ = answers.push(fixture.step_or_again(rt, alloc, *step));
    }
    let refused = fixture.refused;
    Ok(Told {
        answers,
        refused,
        ended: fixture.end(),
    })
}

/// The results of steps on a stack of these filters, by one caller and one worker. A step that is refused memory is taken once more.
pub(crate) fn take_steps<R: Wait>(
    rt: &R,
    alloc: Global,
    loaded: Loaded,
    steps: &[Step],
) -> Result<Told, AllocError> {
    let blanks = Blanks {
        callers: Blank::new(1),
        others: Blank::new(1),
        fulls: Blank::new(2),
    };
    taken::<Brand, R>(rt, alloc, loaded, blanks, steps)
}
