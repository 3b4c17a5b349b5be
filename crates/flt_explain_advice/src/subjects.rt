//! The subjects of findings, in words.

ghost use Rattle.std.specs.Prelude.{◌≡◌, ◌++◌, option_copied};
ghost use Rattle.flt_shown.specs.Shown.{shown};
ghost use Rattle.flt_explain_advice.specs.Subjects as spec;

use flt_abs::{Abs, Statuses};
use flt_explain::Subject;
use flt_explain_origins::{Fact, VariableStatus};
use flt_explain_texts::word_of;
use flt_rules::Mode;
use flt_syntax::Tree;

/// The words for a subject that no word of a text names.
fn phrase(subject: Subject) -> Option<&'static [u8]>
    ensures { option_copied result ≡ spec.phrase subject }
{
    match subject {
        Subject::Mode => Some(b"the mode of the operation"),
        Subject::Draining => Some(b"FLTFL_POST_OPERATION_DRAINING"),
        Subject::Call => Some(b"this call"),
        Subject::Status => Some(b"this status"),
        Subject::Context(_) | Subject::Operation(_) | Subject::Lock(_) => None,
    }
}

/// The words for a subject, after the mark that surrounds them if they are words of the text.
pub(crate) fn subject_words(tree: &Tree, subject: Subject) -> (&[u8], &[u8])
    ensures { shown result.0.now ++ (shown result.1.now ++ shown result.0.now) ≡ spec.subject_told tree.now.filter subject }
{
    match phrase(subject) {
        Some(phrase) => (b"", phrase),
        None => (b"`", word_of(tree, subject)),
    }
}

/// The word for a single status.
fn status_word(set: Option<&Statuses>) -> Option<&'static str>
    ensures { option_copied result ≡ spec.status_word (option_copied set.entry) }
{
    match set?.digit() {
        1 => Some("NULL"),
        2 => Some("held"),
        4 => Some("stale"),
        _ => None,
    }
}

/// The word for a subject's state, if just one status of each variable is possible; none if there is no word for it.
pub(crate) fn state_word(state: &Abs, subject: Subject) -> Option<&'static str>
    ensures { option_copied result ≡ spec.state_word state.now subject }
{
    match subject {
        Subject::Context(variable) => status_word(state.contexts().get(variable.place())),
        Subject::Operation(variable) => status_word(state.operations().get(variable.place())),
        Subject::Lock(lock) => {
            if state.locks().contains(lock) {
                Some("taken")
            } else {
                Some("not taken")
            }
        }
        Subject::Mode => match state.modes().digit() {
            1 => Some("IRP"),
            2 => Some("fast I/O"),
            _ => None,
        },
        Subject::Draining => match state.draining().digit() {
            1 => Some("not set"),
            2 => Some("set"),
            _ => None,
        },
        Subject::Call | Subject::Status => None,
    }
}

/// The word for a fact.
pub fn fact_word(fact: Fact) -> &'static str
    ensures { result.now ≡ spec.fact_word fact }
{
    match fact {
        Fact::Context(_, VariableStatus::Null) | Fact::Operation(_, VariableStatus::Null) => "NULL",
        Fact::Context(_, VariableStatus::Held) | Fact::Operation(_, VariableStatus::Held) => "held",
        Fact::Context(_, VariableStatus::Stale) | Fact::Operation(_, VariableStatus::Stale) =>
            "stale",
        Fact::Mode(Mode::Irp) => "IRP",
        Fact::Mode(Mode::Fast) => "fast I/O",
        Fact::Draining(true) => "set",
        Fact::Draining(false) => "not set",
        Fact::Lock(_, true) => "taken",
        Fact::Lock(_, false) => "not taken",
    }
}
