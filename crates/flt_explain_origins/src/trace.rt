//! The trace of a finding: the paths to it, and its origin.

ghost use Rattle.std.specs.Prelude.{◌≡◌};
ghost use Rattle.std.specs.Option.{option_copied};
ghost use Rattle.flt_explain_origins.specs.Trace as spec;

use crate::answer::{Answer, Way};
use crate::origin::Origin;

/// The trace of a finding: the answer of the search for a path to it, and the origin of its fact, if that is known.
#[derive(Drop)]
pub struct FindingTrace {
    pub answer: Answer,
    pub origin: Option<Origin>,
}

impl FindingTrace {
    /// The path to a finding, and the other one if there are two.
    pub fn ways(&self) -> (Option<&Way>, Option<&Way>)
        ensures way { option_copied result.0 ≡ spec.way_of self.now.answer }
        ensures other { option_copied result.1 ≡ spec.other_way self.now.answer }
    {
        match &self.answer {
            Answer::Clean(found) | Answer::Behind(found) => (
                Some(&found.way),
                found.other.as_ref(),
            ),
            Answer::Unreached | Answer::Unknown => (None, None),
        }
    }
}
