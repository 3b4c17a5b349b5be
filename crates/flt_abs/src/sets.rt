//! Sets of statuses, of modes and of answers to the draining test, as bits.

use bitflags::{Flag, Flags, bitflag_items};
use std::marker::Model;

/// The bits of `Statuses`, as a certificate writes them.
#[derive(Clone, Copy)]
struct StatusBits(u8);

bitflag_items! {
    impl StatusBits: u8 {
        const NULL = 1;
        const HELD = 2;
        const STALE = 4;
    }
}

impl Flags for StatusBits {
    type Bits = u8;

    ghost use Rattle.std.specs.Prelude.{⊤, [], ◌∷◌, codes};

    ghost exact = { ⊤ };

    ghost table = { (codes "NULL", 1) ∷ (codes "HELD", 2) ∷ (codes "STALE", 4) ∷ [] };

    ghost set_of = { λ s. s.0 };

    fn flags<'a>() -> &'a [Flag<StatusBits>] {
        StatusBits::FLAGS
    }

    fn bits(&self) -> u8 {
        self.0
    }

    fn from_bits_retain(bits: u8) -> StatusBits {
        StatusBits(bits)
    }
}

/// The possible statuses of a variable: it is NULL, it is held, or it was released or handed over.
#[derive(Clone, Copy)]
pub struct Statuses {
    bits: StatusBits,
}

impl Model for Statuses {
    ghost use Rattle.std.specs.Prelude.{◌<◌};
    ghost use Rattle.flt_abs.specs.Sets.{StatusSet, statuses, status_bits};
    ghost use Rattle.std.proofs.Common.{ap};
    ghost use Rattle.flt_abs.specs.SetLaws.{status_bits-statuses};
    ghost use Rattle.flt_abs.specs.declared.sets.Statuses.TheInside.{Inside};

    ghost Value = { StatusSet };

    ghost view = { λ s. statuses s.bits.0 };

    ghost invariant = { λ s. s.bits.0 < 8 };

    ghost inverse = { λ s. record { bits = record { 0 = status_bits s } } };

    ghost inverse_ok = { λ a h. ap (λ n. record { bits = record { 0 = n } }) (status_bits-statuses a.bits.0 h) };
}

impl Statuses {
    ghost use Rattle.std.specs.Prelude.{◌≡◌, ◌<◌, IsSome, IfSome, ◌↔◌};
    ghost use Rattle.flt_abs.specs.Sets as spec;

    /// NULL alone.
    pub fn null() -> Statuses
        ensures { result ≡ spec.null_alone }
    {
        Statuses {
            bits: StatusBits::NULL,
        }
    }

    /// Held alone.
    pub(crate) fn held() -> Statuses
        ensures { result ≡ spec.held_alone }
    {
        Statuses {
            bits: StatusBits::HELD,
        }
    }

    /// Stale alone.
    pub(crate) fn stale() -> Statuses
        ensures { result ≡ spec.stale_alone }
    {
        Statuses {
            bits: StatusBits::STALE,
        }
    }

    /// NULL or held.
    pub(crate) fn null_or_held() -> Statuses
        ensures { result ≡ spec.null_or_held }
    {
        Statuses {
            bits: StatusBits(3),
        }
    }

    /// Whether the variable is surely held.
    pub fn is_held(self) -> bool
        ensures { result ≡ spec.is_held self }
    {
        self.has_held() && !self.has_null() && !self.has_stale()
    }

    /// Whether the variable was surely released or handed over.
    pub fn is_stale(self) -> bool
        ensures { result ≡ spec.is_stale self }
    {
        self.has_stale() && !self.has_null() && !self.has_held()
    }

    /// The set of a certificate's digit, the sum of NULL 1, held 2 and stale 4. 0 is the empty set.
    pub fn from_digit(digit: u8) -> Option<Statuses>
        ensures known { IsSome result ↔ (digit < 8) }
        ensures value { IfSome result (λ s. s ≡ spec.statuses digit) }
    {
        if digit < 8 {
            Some(Statuses {
                bits: StatusBits(digit),
            })
        } else {
            None
        }
    }

    /// The set of a number's three lowest bits: NULL 1, held 2 and stale 4.
    #[tactic(auto, using(crate::proofs::SetLemmas::low_bits, crate::proofs::SetLemmas::low_bits_below_eight))]
    pub fn from_low_bits(number: u8) -> Statuses
        ensures { result ≡ spec.statuses number }
    {
        Statuses {
            bits: StatusBits(number & 7),
        }
    }

    /// The digit that a certificate writes for the set; 0 if it is empty.
    pub fn digit(self) -> u8
        ensures { result ≡ spec.status_bits self }
    {
        self.bits.bits()
    }

    /// Whether the variable may be NULL.
    pub fn has_null(self) -> bool
        ensures { result ≡ self.null }
    {
        self.bits.contains(StatusBits::NULL)
    }

    /// Whether the variable may be held.
    pub fn has_held(self) -> bool
        ensures { result ≡ self.held }
    {
        self.bits.contains(StatusBits::HELD)
    }

    /// Whether the variable may have been released or handed over.
    pub fn has_stale(self) -> bool
        ensures { result ≡ self.stale }
    {
        self.bits.contains(StatusBits::STALE)
    }

    /// Whether some status is in the set.
    pub fn is_possible(self) -> bool
        ensures { result ≡ spec.is_possible self }
    {
        self.has_null() || self.has_held() || self.has_stale()
    }

    /// Whether each of this set is in the other.
    #[tactic(auto, using(crate::proofs::SetLemmas::statuses_within_bits))]
    pub(crate) fn is_within(self, other: Statuses) -> bool
        ensures { result ≡ spec.statuses_within self other }
    {
        other.bits.contains(self.bits)
    }

    /// The union of both sets.
    #[tactic(auto, using(crate::proofs::SetLemmas::either_status_bits, crate::proofs::SetLemmas::or_below_eight))]
    pub fn union(self, other: Statuses) -> Statuses
        ensures { result ≡ spec.either_status self other }
    {
        Statuses {
            bits: self.bits.union(other.bits),
        }
    }

    /// The set without NULL.
    #[tactic(auto, using(crate::proofs::SetLemmas::without_null_bits, crate::proofs::SetLemmas::and_below_eight))]
    pub(crate) fn without_null(self) -> Statuses
        ensures { result ≡ spec.without_null self }
    {
        Statuses {
            bits: self.bits.intersection(StatusBits(6)),
        }
    }
}

/// The bits of `Modes`, as a certificate writes them.
#[derive(Clone, Copy)]
struct ModeBits(u8);

bitflag_items! {
    impl ModeBits: u8 {
        const IRP = 1;
        const FAST = 2;
    }
}

impl Flags for ModeBits {
    type Bits = u8;

    ghost use Rattle.std.specs.Prelude.{⊤, [], ◌∷◌, codes};

    ghost exact = { ⊤ };

    ghost table = { (codes "IRP", 1) ∷ (codes "FAST", 2) ∷ [] };

    ghost set_of = { λ s. s.0 };

    fn flags<'a>() -> &'a [Flag<ModeBits>] {
        ModeBits::FLAGS
    }

    fn bits(&self) -> u8 {
        self.0
    }

    fn from_bits_retain(bits: u8) -> ModeBits {
        ModeBits(bits)
    }
}

/// Which modes the operation may have.
#[derive(Clone, Copy)]
pub struct Modes {
    bits: ModeBits,
}

impl Model for Modes {
    ghost use Rattle.std.specs.Prelude.{◌<◌};
    ghost use Rattle.std.proofs.Common.{ap};
    ghost use Rattle.flt_abs.specs.Sets.{ModeSet, modes, mode_bits};
    ghost use Rattle.flt_abs.specs.SetLaws.{mode_bits-modes};
    ghost use Rattle.flt_abs.specs.declared.sets.Modes.TheInside.{Inside};

    ghost Value = { ModeSet };

    ghost view = { λ s. modes s.bits.0 };

    ghost invariant = { λ s. s.bits.0 < 4 };

    ghost inverse = { λ s. record { bits = record { 0 = mode_bits s } } };

    ghost inverse_ok = { λ a h. ap (λ n. record { bits = record { 0 = n } }) (mode_bits-modes a.bits.0 h) };
}

impl Modes {
    ghost use Rattle.std.specs.Prelude.{◌≡◌, ◌<◌, IsSome, IfSome, ◌↔◌};
    ghost use Rattle.flt_abs.specs.Sets as spec;

    /// Irp alone.
    pub(crate) fn irp() -> Modes
        ensures { result ≡ spec.irp_alone }
    {
        Modes {
            bits: ModeBits::IRP,
        }
    }

    /// Fast alone.
    pub(crate) fn fast() -> Modes
        ensures { result ≡ spec.fast_alone }
    {
        Modes {
            bits: ModeBits::FAST,
        }
    }

    /// The set of a certificate's digit: 1 for irp, 2 for fast, and 3 for both. 0 is the empty set.
    pub fn from_digit(digit: u8) -> Option<Modes>
        ensures known { IsSome result ↔ (digit < 4) }
        ensures value { IfSome result (λ s. s ≡ spec.modes digit) }
    {
        if digit < 4 {
            Some(Modes {
                bits: ModeBits(digit),
            })
        } else {
            None
        }
    }

    /// The digit that a certificate writes for the set; 0 if it is empty.
    pub fn digit(self) -> u8
        ensures { result ≡ spec.mode_bits self }
    {
        self.bits.bits()
    }

    /// Whether the operation may be an IRP.
    pub fn has_irp(self) -> bool
        ensures { result ≡ self.irp }
    {
        self.bits.contains(ModeBits::IRP)
    }

    /// Whether the operation may be fast I/O.
    pub fn has_fast(self) -> bool
        ensures { result ≡ self.fast }
    {
        self.bits.contains(ModeBits::FAST)
    }

    /// Whether some mode is in the set.
    pub fn is_possible(self) -> bool
        ensures { result ≡ spec.is_mode_possible self }
    {
        self.has_irp() || self.has_fast()
    }

    /// Whether each of this set is in the other.
    #[tactic(auto, using(crate::proofs::SetLemmas::modes_within_bits))]
    pub(crate) fn is_within(self, other: Modes) -> bool
        ensures { result ≡ spec.modes_within self other }
    {
        other.bits.contains(self.bits)
    }

    /// The union of both sets.
    #[tactic(auto, using(crate::proofs::SetLemmas::either_mode_bits, crate::proofs::SetLemmas::or_below_four))]
    pub fn union(self, other: Modes) -> Modes
        ensures { result ≡ spec.either_mode self other }
    {
        Modes {
            bits: self.bits.union(other.bits),
        }
    }
}

/// The bits of `Draining`, as a certificate writes them.
#[derive(Clone, Copy)]
struct DrainingBits(u8);

bitflag_items! {
    impl DrainingBits: u8 {
        const NO = 1;
        const YES = 2;
    }
}

impl Flags for DrainingBits {
    type Bits = u8;

    ghost use Rattle.std.specs.Prelude.{⊤, [], ◌∷◌, codes};

    ghost exact = { ⊤ };

    ghost table = { (codes "NO", 1) ∷ (codes "YES", 2) ∷ [] };

    ghost set_of = { λ s. s.0 };

    fn flags<'a>() -> &'a [Flag<DrainingBits>] {
        DrainingBits::FLAGS
    }

    fn bits(&self) -> u8 {
        self.0
    }

    fn from_bits_retain(bits: u8) -> DrainingBits {
        DrainingBits(bits)
    }
}

/// Whether FLTFL_POST_OPERATION_DRAINING may be set, and whether it may be unset.
#[derive(Clone, Copy)]
pub struct Draining {
    bits: DrainingBits,
}

impl Model for Draining {
    ghost use Rattle.std.specs.Prelude.{◌<◌};
    ghost use Rattle.std.proofs.Common.{ap};
    ghost use Rattle.flt_abs.specs.Sets.{DrainingSet, draining, draining_bits};
    ghost use Rattle.flt_abs.specs.SetLaws.{draining_bits-draining};
    ghost use Rattle.flt_abs.specs.declared.sets.Draining.TheInside.{Inside};

    ghost Value = { DrainingSet };

    ghost view = { λ s. draining s.bits.0 };

    ghost invariant = { λ s. s.bits.0 < 4 };

    ghost inverse = { λ s. record { bits = record { 0 = draining_bits s } } };

    ghost inverse_ok = { λ a h. ap (λ n. record { bits = record { 0 = n } }) (draining_bits-draining a.bits.0 h) };
}

impl Draining {
    ghost use Rattle.std.specs.Prelude.{◌≡◌, ◌<◌, IsSome, IfSome, ◌↔◌};
    ghost use Rattle.flt_abs.specs.Sets as spec;

    /// Surely not set.
    pub(crate) fn no() -> Draining
        ensures { result ≡ spec.no_alone }
    {
        Draining {
            bits: DrainingBits::NO,
        }
    }

    /// Surely set.
    pub(crate) fn yes() -> Draining
        ensures { result ≡ spec.yes_alone }
    {
        Draining {
            bits: DrainingBits::YES,
        }
    }

    /// The set of a certificate's digit: 1 for no, 2 for yes, and 3 for both. 0 is the empty set.
    pub fn from_digit(digit: u8) -> Option<Draining>
        ensures known { IsSome result ↔ (digit < 4) }
        ensures value { IfSome result (λ s. s ≡ spec.draining digit) }
    {
        if digit < 4 {
            Some(Draining {
                bits: DrainingBits(digit),
            })
        } else {
            None
        }
    }

    /// The digit that a certificate writes for the set; 0 if it is empty.
    pub fn digit(self) -> u8
        ensures { result ≡ spec.draining_bits self }
    {
        self.bits.bits()
    }

    /// Whether the flag may be unset.
    pub fn has_no(self) -> bool
        ensures { result ≡ self.no }
    {
        self.bits.contains(DrainingBits::NO)
    }

    /// Whether the flag may be set.
    pub fn has_yes(self) -> bool
        ensures { result ≡ self.yes }
    {
        self.bits.contains(DrainingBits::YES)
    }

    /// Whether some answer is in the set.
    pub fn is_possible(self) -> bool
        ensures { result ≡ spec.is_draining_possible self }
    {
        self.has_no() || self.has_yes()
    }

    /// Whether each of this set is in the other.
    #[tactic(auto, using(crate::proofs::SetLemmas::drainings_within_bits))]
    pub(crate) fn is_within(self, other: Draining) -> bool
        ensures { result ≡ spec.drainings_within self other }
    {
        other.bits.contains(self.bits)
    }

    /// The union of both sets.
    #[tactic(auto, using(crate::proofs::SetLemmas::either_draining_bits, crate::proofs::SetLemmas::or_below_four))]
    pub fn union(self, other: Draining) -> Draining
        ensures { result ≡ spec.either_draining self other }
    {
        Draining {
            bits: self.bits.union(other.bits),
        }
    }
}
