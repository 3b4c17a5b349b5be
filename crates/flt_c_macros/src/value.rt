//! Values of conditions: a number, or `None` where it is unknown.

ghost use Rattle.std.specs.Prelude.{◌≡◌};
ghost use Rattle.flt_c_macros.specs.Values as spec;

use crate::kind::same_kind;
use flt_c_tokens::Kind;

/// An operator with a value on each side.
#[derive(Clone, Copy)]
pub enum Operator {
    Either,
    Both,
    Equal,
    NotEqual,
    Less,
    LessEqual,
    Greater,
    GreaterEqual,
}

fn is_false(value: Option<u64>) -> bool
    ensures { result ≡ spec.is_false value }
{
    match value {
        Some(number) => number == 0,
        None => false,
    }
}

fn is_true(value: Option<u64>) -> bool
    ensures { result ≡ spec.is_true value }
{
    match value {
        Some(number) => number != 0,
        None => false,
    }
}

pub fn truth(holds: bool) -> Option<u64>
    ensures { result ≡ spec.truth holds }
{
    if holds { Some(1) } else { Some(0) }
}

pub fn negation(value: Option<u64>) -> Option<u64>
    ensures { result ≡ spec.negation value }
{
    match value {
        Some(number) => truth(number == 0),
        None => None,
    }
}

fn either(a: Option<u64>, b: Option<u64>) -> Option<u64>
    ensures { result ≡ spec.either a b }
{
    if is_true(a) || is_true(b) {
        Some(1)
    } else if is_false(a) && is_false(b) {
        Some(0)
    } else {
        None
    }
}

fn both(a: Option<u64>, b: Option<u64>) -> Option<u64>
    ensures { result ≡ spec.both a b }
{
    if is_false(a) || is_false(b) {
        Some(0)
    } else if is_true(a) && is_true(b) {
        Some(1)
    } else {
        None
    }
}

fn holds(operator: Operator, a: u64, b: u64) -> bool
    ensures { result ≡ spec.holds operator a b }
{
    match operator {
        Operator::Equal => a == b,
        Operator::NotEqual => a != b,
        Operator::Less => a < b,
        Operator::LessEqual => a <= b,
        Operator::Greater => b < a,
        Operator::GreaterEqual => b <= a,
        _ => false,
    }
}

pub fn applied(operator: Operator, a: Option<u64>, b: Option<u64>) -> Option<u64>
    ensures { result ≡ spec.applied operator a b }
{
    match operator {
        Operator::Either => either(a, b),
        Operator::Both => both(a, b),
        _ => match (a, b) {
            (Some(a), Some(b)) => truth(holds(operator, a, b)),
            _ => None,
        },
    }
}

/// The operator that a kind of token is, of those that bind alike: from `<` to `||` they bind looser.
#[tactic(auto, unfolding(crate::specs::Values::operator_of))]
pub fn operator_of(rank: usize, kind: Kind) -> Option<Operator>
    ensures { result ≡ spec.operator_of rank kind }
{
    if rank == 0 {
        if same_kind(kind, Kind::Less) {
            Some(Operator::Less)
        } else if same_kind(kind, Kind::LessEqual) {
            Some(Operator::LessEqual)
        } else if same_kind(kind, Kind::Greater) {
            Some(Operator::Greater)
        } else if same_kind(kind, Kind::GreaterEqual) {
            Some(Operator::GreaterEqual)
        } else {
            None
        }
    } else if rank == 1 {
        if same_kind(kind, Kind::Equal) {
            Some(Operator::Equal)
        } else if same_kind(kind, Kind::NotEqual) {
            Some(Operator::NotEqual)
        } else {
            None
        }
    } else if rank == 2 {
        if same_kind(kind, Kind::LogicalAnd) {
            Some(Operator::Both)
        } else {
            None
        }
    } else if same_kind(kind, Kind::LogicalOr) {
        Some(Operator::Either)
    } else {
        None
    }
}
