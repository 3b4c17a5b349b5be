//! All that is possible on the path to a point, part by part.

ghost use Rattle.std.specs.Prelude.{◌<◌};

use flt_graph::{ContextVariable, OperationVariable};

/// The digits of a variable's possible statuses: it isn't held, and it is held.
pub(crate) const NOT_HELD: u8 = 5;

pub(crate) const HELD: u8 = 2;

/// The digits of a mode, and of an answer to the draining test.
pub(crate) const IRP: u8 = 1;

pub(crate) const FAST: u8 = 2;

pub(crate) const NO: u8 = 1;

pub(crate) const YES: u8 = 2;

/// The lowest bit of each part, and all bits that can be set: three statuses of a variable, two modes, two answers.
const LOWEST: u64 = 0x1111_1111_1111_1111;

const ALL: u64 = 0x3377_7777_7777_7777;

/// How many parts there are, and how many bits each has.
const PARTS: usize = 16;

const BITS: usize = 4;

/// A part of the state: a variable, the mode or draining.
#[derive(Clone, Copy)]
pub(crate) struct Part {
    place: usize,
}

impl Part {
    pub(crate) const MODE: Part = Part { place: 14 };

    pub(crate) const DRAINING: Part = Part { place: 15 };

    pub(crate) const ARG: Part = Part { place: 8 };

    /// The part of this place: nine variables of contexts, five of operations, the mode, draining.
    pub(crate) fn at(place: usize) -> Part {
        Part { place }
    }

    pub(crate) fn context(variable: ContextVariable) -> Part {
        Part {
            place: variable.place(),
        }
    }

    pub(crate) fn operation(variable: OperationVariable) -> Part {
        Part {
            place: 9 + variable.place(),
        }
    }

    /// The number of its lowest bit.
    fn shift(self) -> u32
        ensures { result < 64 }
    {
        (self.place % PARTS * BITS) as u32
    }
}

/// For each part the set of its possible values, in the bits of its digit: NULL, held and stale for a variable, IRP and fast I/O, draining
/// not set and set.
#[derive(Clone, Copy)]
pub(crate) struct Possible {
    bits: u64,
}

impl Possible {
    pub(crate) const NOTHING: Possible = Possible { bits: 0 };

    pub(crate) const ALL: Possible = Possible { bits: ALL };

    /// A digit of one part, and nothing else.
    pub(crate) fn of(part: Part, digit: u8) -> Possible {
        Possible {
            bits: u64::from(digit % 16) << part.shift(),
        }
    }

    /// All of a part, and nothing else.
    pub(crate) fn whole(part: Part) -> Possible {
        Possible::of(part, 15)
    }

    /// The digit of a part.
    pub(crate) fn digit(self, part: Part) -> u8 {
        ((self.bits >> part.shift()) % 16) as u8
    }

    pub(crate) fn and(self, other: Possible) -> Possible {
        Possible {
            bits: self.bits & other.bits,
        }
    }

    pub(crate) fn or(self, other: Possible) -> Possible {
        Possible {
            bits: self.bits | other.bits,
        }
    }

    pub(crate) fn without(self, other: Possible) -> Possible {
        Possible {
            bits: self.bits & !other.bits,
        }
    }

    /// The same with another digit of a part.
    pub(crate) fn with(self, part: Part, digit: u8) -> Possible {
        self.without(Possible::whole(part))
            .or(Possible::of(part, digit))
    }

    pub(crate) fn is_nothing(self) -> bool {
        self.bits == 0
    }

    pub(crate) fn is_same(self, other: Possible) -> bool {
        self.bits == other.bits
    }

    /// The parts of which nothing is possible, with all their bits.
    pub(crate) fn missing(self) -> Possible {
        let some = self.bits | (self.bits >> 1) | (self.bits >> 2) | (self.bits >> 3);
        Possible {
            bits: (LOWEST & !some).wrapping_mul(15),
        }
    }

    /// The first part of which something is possible.
    pub(crate) fn first(self) -> Option<Part> {
        if self.bits == 0 {
            return None;
        }
        Some(Part {
            place: self.bits.trailing_zeros() as usize / BITS,
        })
    }

    /// How many bits are set.
    pub(crate) fn count(self) -> u32 {
        self.bits.count_ones()
    }

    /// All of it in one number.
    pub(crate) fn number(self) -> u64 {
        self.bits
    }
}

/// The lowest digit of a set; 1 of an empty one.
pub(crate) fn lowest(digit: u8) -> u8 {
    if digit % 2 == 1 {
        1
    } else if digit / 2 % 2 == 1 {
        2
    } else if digit / 4 % 2 == 1 {
        4
    } else {
        1
    }
}
