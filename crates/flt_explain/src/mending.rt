//! The part of a set by which a rule isn't broken.

ghost use Rattle.std.specs.Prelude.{◌≡◌, ◌&&◌, true, false, IsTrue};
ghost use Rattle.flt_abs.specs.Sets.{StatusSet, is_held, is_possible};
ghost use Rattle.flt_abs.specs.State.{Status, has_status};
ghost use Rattle.flt_explain.specs.Mending as spec;
ghost use Rattle.flt_rules.specs.declared.rule.Rule.{Rule};

use flt_abs::{Draining, Modes, Statuses};
use flt_rules::Rule;

/// The digit of held alone, and that of NULL and stale.
const HELD: u8 = 2;

const NOT_HELD: u8 = 5;

/// The part of a set of statuses that a rule needs; it may be empty.
#[tactic(auto, using(crate::proofs::MendedSets::kept_held, crate::proofs::MendedSets::kept_not_held, crate::proofs::MendedSets::within_held, crate::proofs::MendedSets::within_not_held, crate::proofs::MendedSets::kept))]
pub(crate) fn mended(set: Statuses, rule: Rule) -> Statuses
    ensures { result ≡ spec.mended rule set }
{
    match rule {
        Rule::R01 | Rule::R04 | Rule::R13 => Statuses::from_digit(set.digit() & HELD).unwrap(),
        Rule::R02 | Rule::R03 | Rule::R05 => Statuses::from_digit(set.digit() & NOT_HELD).unwrap(),
        Rule::R06
        | Rule::R07
        | Rule::R08
        | Rule::R09
        | Rule::R10
        | Rule::R11
        | Rule::R12
        | Rule::R14
        | Rule::R15 => set,
    }
}

/// An IRP alone, if it is possible.
#[tactic(auto, using(crate::proofs::MendedSets::kept_irp, crate::proofs::MendedSets::within_irp))]
pub(crate) fn mended_modes(modes: Modes) -> Modes
    ensures { result ≡ spec.mended_modes modes }
{
    Modes::from_digit(modes.digit() & 1).unwrap()
}

/// No draining alone, if it is possible.
#[tactic(auto, using(crate::proofs::MendedSets::kept_no, crate::proofs::MendedSets::within_no))]
pub(crate) fn mended_draining(draining: Draining) -> Draining
    ensures { result ≡ spec.mended_draining draining }
{
    Draining::from_digit(draining.digit() & 1).unwrap()
}

/// A fixed set has exactly the statuses of the set that keep the rule. So a variable that must be held is surely held then, and one that
/// mustn't be held isn't, unless nothing is left. It does nothing at run time: its clauses are a law.
#[tactic(auto, using(crate::proofs::MendedSets::exact, crate::proofs::MendedSets::held, crate::proofs::MendedSets::not_held))]
pub fn mending_is_exact()
    ensures exact { (r : Rule) (s : StatusSet) (t : Status) → has_status (spec.mended r s) t ≡ (has_status s t && spec.is_fine r t) }
    ensures held { (r : Rule) (s : StatusSet) → IsTrue (spec.wants_held r) → IsTrue (is_possible (spec.mended r s)) →
        IsTrue (is_held (spec.mended r s)) }
    ensures not_held { (r : Rule) (s : StatusSet) → IsTrue (spec.wants_not_held r) → (spec.mended r s).held ≡ false }
{}
