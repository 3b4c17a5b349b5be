//! A finding with the facts that choose its words: all of them are in the graph, or in the state where a path ends.

ghost use Rattle.std.specs.Prelude.{◌≡◌, ◌++◌, option_copied};
ghost use Rattle.flt_explain_advice.specs.Case as spec;
ghost use Rattle.flt_explain_texts.specs.Page.{said};
ghost use Rattle.flt_shown.specs.Shown.{shown};

use crate::subjects::subject_words;
use flt_abs::Abs;
use flt_explain::{Finding, Subject};
use flt_explain_origins::{Cause, FindingTrace, Step, VariableStatus, Way};
use flt_explain_texts::{Part, Scene, lock_word};
use flt_graph::{Instruction, Invocation, Status};
use flt_rules::{LockKind, LockNumber, Operation, Place};

/// A finding of a text, and its trace.
#[derive(Clone, Copy)]
pub(crate) struct Case<'a> {
    pub(crate) scene: Scene<'a>,
    pub(crate) finding: Finding,
    pub(crate) shown: Option<&'a FindingTrace>,
}

/// The only status in a set.
fn only_status(digit: u8) -> Option<VariableStatus>
    ensures { result ≡ spec.only_status digit }
{
    match digit {
        1 => Some(VariableStatus::Null),
        2 => Some(VariableStatus::Held),
        4 => Some(VariableStatus::Stale),
        _ => None,
    }
}

impl<'a> Case<'a> {
    pub(crate) fn of(
        scene: &Scene<'a>,
        finding: &Finding,
        shown: Option<&'a FindingTrace>,
    ) -> Case<'a>
        ensures scene { result.scene ≡ scene.now }
        ensures finding { result.finding ≡ finding.now }
        ensures shown { result.shown ≡ shown.entry }
    {
        Case {
            scene: *scene,
            finding: *finding,
            shown,
        }
    }

    /// Where the callback runs.
    #[tactic(auto, unfolding(crate::specs::Case::place))]
    pub(crate) fn place(&self) -> Place
        ensures { result ≡ spec.place (spec.of_case self.now) }
    {
        self.scene.graph.place(self.finding.callback)
    }

    /// The head of the callback.
    pub(crate) fn head(&self) -> &'a [u8]
        ensures { result.now ≡ spec.head (spec.of_case self.now) }
    {
        self.scene.head(self.finding.callback)
    }

    /// The instruction where the finding is.
    #[tactic(auto, unfolding(crate::specs::Case::instruction))]
    pub(crate) fn instruction(&self) -> Instruction
        ensures { result ≡ spec.instruction (spec.of_case self.now) }
    {
        self.scene
            .instruction(self.finding.callback, self.finding.point)
    }

    /// The call where the finding is.
    pub(crate) fn call(&self) -> Option<Invocation>
        ensures { result ≡ spec.call_in (spec.instruction (spec.of_case self.now)) }
    {
        match self.instruction() {
            Instruction::Call(call, _, _) => Some(call.roles()),
            _ => None,
        }
    }

    /// The status that is returned where the finding is, or given to a call.
    pub(crate) fn status(&self) -> Option<Status>
        ensures { result ≡ spec.status_in (spec.instruction (spec.of_case self.now)) }
    {
        match self.instruction() {
            Instruction::Call(call, _, _) => call.roles().status,
            Instruction::Return(status) => status,
            _ => None,
        }
    }

    /// The finding's subject, as `subject_words` returns it.
    pub(crate) fn subject(&self) -> (&'a [u8], &'a [u8])
        ensures { shown result.0.now ++ (shown result.1.now ++ shown result.0.now)
            ≡ spec.subject (spec.of_case self.now) }
    {
        subject_words(self.scene.tree, self.finding.subject)
    }

    /// The path to the finding, if there is one.
    #[tactic(auto, unfolding(crate::specs::Case::path))]
    pub(crate) fn path(&self) -> Option<&'a Way>
        ensures { option_copied result ≡ spec.path (spec.of_case self.now) }
    {
        let (way, _) = self.shown?.ways();
        way
    }

    /// The state where the path to the finding ends.
    #[tactic(auto, unfolding(crate::specs::Case::state))]
    pub(crate) fn state(&self) -> Option<&'a Abs>
        ensures { option_copied result ≡ spec.state (spec.of_case self.now) }
    {
        Some(self.path()?.end.situation.state())
    }

    /// The status of the variable that the finding is about, at the end of the path.
    #[tactic(auto, unfolding(crate::specs::Case::variable_status))]
    pub(crate) fn variable_status(&self) -> Option<VariableStatus>
        ensures { result ≡ spec.variable_status (spec.of_case self.now) }
    {
        let state = self.state()?;
        let set = match self.finding.subject {
            Subject::Context(variable) => state.contexts().get(variable.place())?,
            Subject::Operation(variable) => state.operations().get(variable.place())?,
            _ => return None,
        };
        only_status(set.digit())
    }

    /// The step that caused the finding, if one is known.
    #[tactic(auto, unfolding(crate::specs::Case::cause))]
    pub(crate) fn cause(&self) -> Option<Step>
        ensures { result ≡ spec.cause (spec.of_case self.now) }
    {
        let origin = self.shown?.origin.as_ref()?;
        match origin.cause {
            Cause::Made(step) => Some(step),
            Cause::Entry => None,
        }
    }

    /// The instruction at a step of the callback.
    #[tactic(auto, unfolding(crate::specs::Case::done_at))]
    pub(crate) fn step_instruction(&self, step: Step) -> Instruction
        ensures { result ≡ spec.done_at (spec.of_case self.now) step }
    {
        self.scene.instruction(self.finding.callback, step.point)
    }

    /// The call at a step of the callback.
    pub(crate) fn call_at(&self, step: Step) -> Option<Invocation>
        ensures { result ≡ spec.call_at (spec.of_case self.now) step }
    {
        match self.step_instruction(step) {
            Instruction::Call(call, _, _) => Some(call.roles()),
            _ => None,
        }
    }

    /// The line of a step of the callback.
    #[tactic(auto, unfolding(crate::specs::Case::line_of))]
    pub(crate) fn step_line(&self, step: Step) -> usize
        ensures { result ≡ spec.line_of (spec.of_case self.now) step }
    {
        self.scene.line(self.finding.callback, step.point)
    }

    /// A line of the text, by its number in its file.
    #[tactic(auto, unfolding(crate::specs::Case::line_named))]
    pub(crate) fn line(&self, line: usize) -> Part<'a>
        ensures { said result ≡ spec.line_named (spec.of_case self.now) line }
    {
        let files = self.scene.files;
        Part::Line(files, files.file_at(self.finding.line), line)
    }

    /// The kind of a lock.
    #[tactic(auto, unfolding(crate::specs::Case::lock_kind))]
    pub(crate) fn lock_kind(&self, lock: LockNumber) -> Option<LockKind>
        ensures { result ≡ spec.lock_kind (spec.of_case self.now) lock }
    {
        let kinds = self.scene.graph.locks.as_slice();
        kinds.get(usize::from(lock.place())).copied()
    }

    /// The name of a lock.
    #[tactic(auto, unfolding(crate::specs::Case::lock_name))]
    pub(crate) fn lock_name(&self, lock: LockNumber) -> &'a [u8]
        ensures { result.now ≡ spec.lock_name (spec.of_case self.now) lock }
    {
        lock_word(self.scene.tree, lock)
    }

    /// The operation of a `pre` or a `post` callback.
    pub(crate) fn operation(&self) -> Option<Operation>
        ensures { result ≡ spec.operation_at (spec.place (spec.of_case self.now)) }
    {
        match self.place() {
            Place::Pre(operation) | Place::Post(operation) => Some(operation),
            _ => None,
        }
    }
}
