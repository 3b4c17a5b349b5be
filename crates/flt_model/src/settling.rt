//! Where an answer leads the operation of a visit.

ghost use Rattle.std.specs.Prelude.{◌≡◌};
ghost use Rattle.flt_model.specs.Settling as spec;
ghost use Rattle.flt_model.specs.declared.event.Answer.TheVariants.{CompletesPre};
ghost use Rattle.flt_tree.specs.Variable.{whose};

use crate::event::Answer;
use crate::parts::Outcome;
use flt_tree::{OperationVariable, Status};

/// Where a status leads the operation of a visit.
#[derive(Clone, Copy)]
pub enum Way {
    /// On to the next filter.
    Passes,
    /// On to the next filter, with a frame for the post callback.
    Frames,
    /// Up from here.
    Ends(Outcome),
    /// On up, after a post callback.
    Rises,
    /// Nowhere: the filter keeps the operation.
    Stays,
}

impl Answer {
    /// The answer that FltCompletePendedPreOperation hands on, for the visit that a variable names.
    pub fn completes_pre(variable: OperationVariable, visit: usize, status: Status) -> Answer
        ensures { result ≡ CompletesPre (whose variable) visit status }
    {
        Answer::CompletesPre {
            whose: variable.whose(),
            visit,
            status,
        }
    }

    /// The status that it gives.
    pub fn status(self) -> Option<Status>
        ensures { result ≡ spec.given_by self }
    {
        match self {
            Answer::Returned(status) => status,
            Answer::CompletesPre { status, .. } => Some(status),
            Answer::CompletesPost { .. } => Some(Status::FinishedProcessing),
        }
    }

    /// Whether a callback returned it.
    pub fn is_returned(self) -> bool
        ensures { result ≡ spec.is_returned self }
    {
        matches!(self, Answer::Returned(_))
    }
}

impl Way {
    /// Before the filters below. A status without a meaning of its own there is taken as NO_CALLBACK.
    pub fn before(has_post: bool, returned: bool, status: Option<Status>) -> Way
        ensures { result ≡ spec.way_before has_post returned status }
    {
        match status {
            Some(Status::WithCallback(_) | Status::Synchronize(_)) if has_post => Way::Frames,
            Some(Status::Complete(last)) => Way::Ends(Outcome::Completed(last)),
            Some(Status::Pending) if returned => Way::Stays,
            Some(Status::DisallowFastIo) if returned => Way::Ends(Outcome::Disallowed),
            _ => Way::Passes,
        }
    }

    /// After the filters below.
    pub fn after(returned: bool, status: Option<Status>) -> Way
        ensures { result ≡ spec.way_after returned status }
    {
        match status {
            Some(Status::MoreProcessingRequired) if returned => Way::Stays,
            _ => Way::Rises,
        }
    }

    /// Whether the filter's part is over.
    pub fn settles_visit(self) -> bool
        ensures { result ≡ spec.settles_visit self }
    {
        !matches!(self, Way::Stays)
    }

    /// Whether the post callback will be called.
    pub fn asks_for_frame(self) -> bool
        ensures { result ≡ spec.asks_for_frame self }
    {
        matches!(self, Way::Frames)
    }
}
