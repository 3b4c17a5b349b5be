//! Violations of a run, and verdicts about a journal.

ghost use Rattle.std.specs.Prelude.{◌≡◌, Some};
ghost use Rattle.flt_model.specs.Verdicts as spec;

use std::fmt;

/// A violation, named by its number as it is printed. At one moment the least is reported.
#[derive(Clone, Copy)]
pub enum Violation {
    /// A context or an operation is used that isn't held, a context that was freed or is another filter's, or nothing.
    V1,
    /// An activation ends with a context reference of its own.
    V2,
    /// A visit is settled twice.
    V3,
    /// An unsettled visit doesn't have exactly one owner, or a settled one has an owner.
    V4,
    /// A status, or the mode of a pended operation, isn't legal.
    V5,
    /// A call is made above its greatest level.
    V6,
    /// A lock is released that isn't the latest, taken while held, or kept at the end.
    V7,
    /// A call is made at a place where it isn't legal.
    V8,
}

/// The verdict about a journal. Entries are numbered from 0.
#[derive(Clone, Copy)]
pub enum Verdict {
    /// It is a run that breaks nothing.
    Legal,
    /// The entry isn't enabled, and none before it broke anything.
    NotARun(usize),
    /// The violation holds after the entry, and none before it.
    Breaks(Violation, usize),
}

impl Violation {
    /// The number of a violation, from 1. Of several violations at one moment the least is reported.
    pub fn number(self) -> u8
        ensures { result ≡ spec.violation_number self }
    {
        match self {
            Violation::V1 => 1,
            Violation::V2 => 2,
            Violation::V3 => 3,
            Violation::V4 => 4,
            Violation::V5 => 5,
            Violation::V6 => 6,
            Violation::V7 => 7,
            Violation::V8 => 8,
        }
    }

    /// The violation's number as it is printed: `V1` to `V8`.
    pub fn name(self) -> &'static str
        ensures { result.now ≡ spec.violation_name self }
    {
        match self {
            Violation::V1 => "V1",
            Violation::V2 => "V2",
            Violation::V3 => "V3",
            Violation::V4 => "V4",
            Violation::V5 => "V5",
            Violation::V6 => "V6",
            Violation::V7 => "V7",
            Violation::V8 => "V8",
        }
    }
}

impl fmt::Display for Verdict {
    ghost output = { λ v. Some (spec.verdict_line v) };

    fn fmt<W: fmt::Write>(&self, f: &mut fmt::Formatter<W>) -> fmt::Result {
        match *self {
            Verdict::Legal => write!(f, "legal"),
            Verdict::NotARun(entry) => write!(f, "not a run at {entry}"),
            Verdict::Breaks(violation, entry) => {
                let name = violation.name();
                write!(f, "breaks {name} at {entry}")
            }
        }
    }
}
