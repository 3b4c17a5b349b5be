//! The rules that an accepted text keeps at each point.

ghost use Rattle.std.specs.Prelude.{◌≡◌};
ghost use Rattle.flt_rules.specs.Rule as spec;

/// A rule, named by its number as it is printed. `text` says what it forbids.
#[derive(Clone, Copy, Debug)]
pub enum Rule {
    R01,
    R02,
    R03,
    R04,
    R05,
    R06,
    R07,
    R08,
    R09,
    R10,
    R11,
    R12,
    R13,
    R14,
    R15,
}

/// The number of a rule, from 1. Of several rules at one point the least is reported.
pub fn number(rule: Rule) -> u8
    ensures { result ≡ spec.number rule }
{
    match rule {
        Rule::R01 => 1,
        Rule::R02 => 2,
        Rule::R03 => 3,
        Rule::R04 => 4,
        Rule::R05 => 5,
        Rule::R06 => 6,
        Rule::R07 => 7,
        Rule::R08 => 8,
        Rule::R09 => 9,
        Rule::R10 => 10,
        Rule::R11 => 11,
        Rule::R12 => 12,
        Rule::R13 => 13,
        Rule::R14 => 14,
        Rule::R15 => 15,
    }
}

/// The words that follow a rule's number in a refusal line.
pub fn text(rule: Rule) -> &'static str
    ensures { result.now ≡ spec.text rule }
{
    match rule {
        Rule::R01 => "context not held where used",
        Rule::R02 => "context held at end",
        Rule::R03 => "held variable overwritten",
        Rule::R04 => "operation not held where used",
        Rule::R05 => "operation held at end",
        Rule::R06 => "status not legal",
        Rule::R07 => "call above its level",
        Rule::R08 => "call not legal at this place",
        Rule::R09 => "lock not the latest taken",
        Rule::R10 => "lock kept at end",
        Rule::R11 => "lock taken twice",
        Rule::R12 => "lock lists differ where paths meet",
        Rule::R13 => "hand-over of a variable not held",
        Rule::R14 => "certificate does not cover",
        Rule::R15 => "end without status",
    }
}

impl Rule {
    /// The rule's number as it is printed: `R01` to `R15`.
    pub fn name(self) -> &'static str
        ensures { result.now ≡ spec.rule_name self }
    {
        match self {
            Rule::R01 => "R01",
            Rule::R02 => "R02",
            Rule::R03 => "R03",
            Rule::R04 => "R04",
            Rule::R05 => "R05",
            Rule::R06 => "R06",
            Rule::R07 => "R07",
            Rule::R08 => "R08",
            Rule::R09 => "R09",
            Rule::R10 => "R10",
            Rule::R11 => "R11",
            Rule::R12 => "R12",
            Rule::R13 => "R13",
            Rule::R14 => "R14",
            Rule::R15 => "R15",
        }
    }
}
