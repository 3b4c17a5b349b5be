//! Operators of expressions by their tokens.

ghost use Rattle.flt_c_syntax.specs.Operators as spec;
ghost use Rattle.std.specs.Prelude.{◌≡◌, ◌≤◌};

use crate::tree::{Operator, Prefix};
use flt_c_tokens::Kind;

/// The levels up to assignments, and all.
pub const ASSIGNMENT_LEVEL: usize = 12;

pub const WHOLE_LEVEL: usize = 13;

pub fn level_of(kind: Kind) -> usize
    ensures { result ≡ spec.level_of kind }
{
    match kind {
        Kind::Star | Kind::Slash | Kind::Percent => 1,
        Kind::Plus | Kind::Minus => 2,
        Kind::ShiftLeft | Kind::ShiftRight => 3,
        Kind::Less | Kind::Greater | Kind::LessEqual | Kind::GreaterEqual => 4,
        Kind::Equal | Kind::NotEqual => 5,
        Kind::Ampersand => 6,
        Kind::Caret => 7,
        Kind::Bar => 8,
        Kind::LogicalAnd => 9,
        Kind::LogicalOr => 10,
        Kind::Question => 11,
        Kind::Assign
        | Kind::AssignSum
        | Kind::AssignDifference
        | Kind::AssignProduct
        | Kind::AssignQuotient
        | Kind::AssignRemainder
        | Kind::AssignAnd
        | Kind::AssignOr
        | Kind::AssignXor
        | Kind::AssignLeft
        | Kind::AssignRight => 12,
        Kind::Comma => 13,
        _ => 0,
    }
}

pub fn operator_of(kind: Kind) -> Option<Operator>
    ensures { result ≡ spec.operator_of kind }
{
    match kind {
        Kind::Star => Some(Operator::Product),
        Kind::Slash => Some(Operator::Quotient),
        Kind::Percent => Some(Operator::Remainder),
        Kind::Plus => Some(Operator::Sum),
        Kind::Minus => Some(Operator::Difference),
        Kind::ShiftLeft => Some(Operator::ShiftLeft),
        Kind::ShiftRight => Some(Operator::ShiftRight),
        Kind::Less => Some(Operator::Less),
        Kind::Greater => Some(Operator::Greater),
        Kind::LessEqual => Some(Operator::LessEqual),
        Kind::GreaterEqual => Some(Operator::GreaterEqual),
        Kind::Equal => Some(Operator::Equal),
        Kind::NotEqual => Some(Operator::NotEqual),
        Kind::Ampersand => Some(Operator::BitAnd),
        Kind::Caret => Some(Operator::BitXor),
        Kind::Bar => Some(Operator::BitOr),
        Kind::LogicalAnd => Some(Operator::And),
        Kind::LogicalOr => Some(Operator::Or),
        Kind::Assign => Some(Operator::Assign),
        Kind::AssignSum => Some(Operator::AssignSum),
        Kind::AssignDifference => Some(Operator::AssignDifference),
        Kind::AssignProduct => Some(Operator::AssignProduct),
        Kind::AssignQuotient => Some(Operator::AssignQuotient),
        Kind::AssignRemainder => Some(Operator::AssignRemainder),
        Kind::AssignAnd => Some(Operator::AssignAnd),
        Kind::AssignOr => Some(Operator::AssignOr),
        Kind::AssignXor => Some(Operator::AssignXor),
        Kind::AssignLeft => Some(Operator::AssignLeft),
        Kind::AssignRight => Some(Operator::AssignRight),
        Kind::Comma => Some(Operator::Comma),
        _ => None,
    }
}

pub fn prefix_of(kind: Kind) -> Option<Prefix>
    ensures { result ≡ spec.prefix_of kind }
{
    match kind {
        Kind::Exclamation => Some(Prefix::Not),
        Kind::Tilde => Some(Prefix::Complement),
        Kind::Minus => Some(Prefix::Minus),
        Kind::Plus => Some(Prefix::Plus),
        Kind::Ampersand => Some(Prefix::Address),
        Kind::Star => Some(Prefix::Content),
        Kind::Increment => Some(Prefix::Increment),
        Kind::Decrement => Some(Prefix::Decrement),
        _ => None,
    }
}

#[inline(always)]
pub fn begins_designator(kind: Kind) -> bool
    ensures { result ≡ spec.begins_designator kind }
{
    matches!(kind, Kind::Dot | Kind::OpenBracket)
}

pub fn begins_operand(kind: Kind) -> bool
    ensures { result ≡ spec.begins_operand kind }
{
    matches!(
        kind,
        Kind::Name
            | Kind::Number
            | Kind::Character
            | Kind::Text
            | Kind::OpenParen
            | Kind::Tilde
            | Kind::Exclamation
            | Kind::Sizeof
            | Kind::Cast
    )
}

pub fn is_either_sign(kind: Kind) -> bool
    ensures { result ≡ spec.is_either_sign kind }
{
    matches!(
        kind,
        Kind::Ampersand | Kind::Star | Kind::Plus | Kind::Minus | Kind::Increment | Kind::Decrement
    )
}
