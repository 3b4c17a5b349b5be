//! The violations to which a broken rule leads.

ghost use Rattle.std.specs.Prelude.{◌≡◌};
ghost use Rattle.flt_explain_outcomes.specs.Violations as spec;

use flt_model::Violation;
use flt_rules::Rule;

/// The violations that a run can have if a callback breaks a rule: those that the rule prevents. A certificate that doesn't cover (R14) is
/// no fault of the callback, and leads to none.
pub fn violations_of(rule: Rule) -> &'static [Violation]
    ensures { result.now ≡ spec.violations_of rule }
{
    match rule {
        Rule::R01 | Rule::R13 => &[Violation::V1],
        Rule::R02 => &[Violation::V2],
        Rule::R03 => &[Violation::V2, Violation::V4],
        Rule::R04 => &[Violation::V1, Violation::V3],
        Rule::R05 => &[Violation::V4],
        Rule::R06 => &[Violation::V3, Violation::V4, Violation::V5],
        Rule::R07 => &[Violation::V6],
        Rule::R08 => &[Violation::V8],
        Rule::R09 | Rule::R10 | Rule::R11 | Rule::R12 => &[Violation::V7],
        Rule::R14 => &[],
        Rule::R15 => &[Violation::V5],
    }
}
