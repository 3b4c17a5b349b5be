//! A text that parses, with all that is looked up in it.

ghost use Rattle.std.specs.Prelude.{◌≡◌};
ghost use Rattle.flt_explain_texts.specs.Operands.{context_word};
ghost use Rattle.flt_explain_texts.specs.Scene.{head_of};
ghost use Rattle.flt_graph.specs.Graph.{instruction_at, line_at};
ghost use Rattle.flt_explain_warning_details.specs.Parsed as spec;

use flt_explain::Subject;
use flt_explain_texts::{Scene, word_of};
use flt_explain_warnings::Site;
use flt_graph::{ContextVariable, Instruction, LockNumber};
use flt_syntax::Token;

/// A text that parses, with all that is looked up in it, and its tokens.
#[derive(Clone, Copy)]
pub(crate) struct ParsedText<'a> {
    pub(crate) scene: Scene<'a>,
    pub(crate) tokens: &'a [Token],
}

impl<'a> ParsedText<'a> {
    /// The instruction at a point.
    #[tactic(auto, unfolding(crate::specs::Parsed::instruction))]
    pub(crate) fn instruction(&self, site: Site) -> Instruction
        ensures { result ≡ spec.instruction (spec.of_parsed self.now) site }
    {
        self.scene.graph.instruction(site.callback, site.point)
    }

    /// The line of a point's statement, from 1.
    #[tactic(auto, unfolding(crate::specs::Parsed::line))]
    pub(crate) fn line(&self, site: Site) -> usize
        ensures { result ≡ spec.line (spec.of_parsed self.now) site }
    {
        self.scene.line(site.callback, site.point)
    }

    /// The name of a lock.
    #[tactic(auto, unfolding(crate::specs::Parsed::lock))]
    pub(crate) fn lock(&self, lock: LockNumber) -> &'a [u8]
        ensures { result.now ≡ spec.lock (spec.of_parsed self.now) lock }
    {
        word_of(self.scene.tree, Subject::Lock(lock))
    }

    /// The word of a variable of contexts.
    pub(crate) fn context(&self, variable: ContextVariable) -> &'a [u8]
        ensures { result.now ≡ context_word variable }
    {
        word_of(self.scene.tree, Subject::Context(variable))
    }

    /// The head of a callback.
    #[tactic(auto, unfolding(crate::specs::Parsed::head))]
    pub(crate) fn head(&self, callback: usize) -> &'a [u8]
        ensures { result.now ≡ spec.head (spec.of_parsed self.now) callback }
    {
        self.scene.head(callback)
    }
}
