//! Sets of violations.

use flt_model::Violation;

/// Some violations.
#[derive(Clone, Copy)]
pub struct Violations {
    bits: u8,
}

impl Violations {
    pub const NOTHING: Violations = Violations { bits: 0 };

    /// Adds one.
    pub fn add(&mut self, violation: Violation) {
        self.bits |= bit_of(violation);
    }

    /// The least one.
    pub(crate) fn least(self) -> Option<Violation> {
        for violation in VIOLATIONS {
            if self.bits & bit_of(violation) != 0 {
                return Some(violation);
            }
        }
        None
    }

    /// Whether a violation is one of them.
    pub fn contains(self, violation: Violation) -> bool {
        self.bits & bit_of(violation) != 0
    }

    /// Whether there is none.
    pub fn is_empty(self) -> bool {
        self.bits == 0
    }
}

/// All violations, from the least.
pub const VIOLATIONS: [Violation; 8] = [
    Violation::V1,
    Violation::V2,
    Violation::V3,
    Violation::V4,
    Violation::V5,
    Violation::V6,
    Violation::V7,
    Violation::V8,
];

fn bit_of(violation: Violation) -> u8 {
    match violation {
        Violation::V1 => 1,
        Violation::V2 => 2,
        Violation::V3 => 4,
        Violation::V4 => 8,
        Violation::V5 => 16,
        Violation::V6 => 32,
        Violation::V7 => 64,
        Violation::V8 => 128,
    }
}
