//! Writes tests, and statements that neither call nor branch.

ghost use Rattle.flt_print.specs.ActionWords as spec;
ghost use Rattle.flt_print.specs.Line.{begun, spaced};
ghost use Rattle.flt_print.specs.Vocabulary.{atom_word};
ghost use Rattle.std.specs.Prelude.{◌≡◌, ◌∷◌, ◌++◌, OnOk};

use crate::call_printer::fallible_call;
use crate::line::{begin, number, word};
use crate::vocabulary::{context_kind, number_kind, operation_variable_kind, removed_kind};
use flt_syntax::Kind;
use flt_tree::{Action, Atom, Condition, Expression, Test};
use std::alloc::AllocError;

fn atom(out: &mut Vec<u8>, atom: Atom) -> Result<(), AllocError>
    ensures { OnOk result (out.new.items ≡ out.old.items ++ 32 ∷ atom_word atom) }
{
    match atom {
        Atom::Number(n) => number(out, n),
        Atom::Variable(n) => word(out, number_kind(n)),
    }
}

fn expression(out: &mut Vec<u8>, expression: Expression) -> Result<(), AllocError>
    ensures { OnOk result (out.new.items ≡ out.old.items ++ spaced (spec.expression_words expression)) }
{
    match expression {
        Expression::Atom(x) => atom(out, x),
        Expression::Sum(x, y) => {
            atom(out, x)?;
            word(out, Kind::Plus)?;
            atom(out, y)
        }
        Expression::Difference(x, y) => {
            atom(out, x)?;
            word(out, Kind::Minus)?;
            atom(out, y)
        }
    }
}

/// A line with a statement that neither calls nor branches, up to its end.
pub fn action(out: &mut Vec<u8>, level: usize, action: Action) -> Result<(), AllocError>
    ensures { OnOk result (out.new.items ≡ out.old.items ++ begun level (spec.action_words action)) }
{
    match action {
        Action::SetNumber(n, e) => {
            begin(out, level, number_kind(n))?;
            word(out, Kind::Assign)?;
            expression(out, e)
        }
        Action::ReadValue(n, c) => {
            begin(out, level, number_kind(n))?;
            word(out, Kind::Assign)?;
            word(out, Kind::Value)?;
            word(out, context_kind(c))
        }
        Action::ReadFile(n, d) => {
            begin(out, level, number_kind(n))?;
            word(out, Kind::Assign)?;
            word(out, Kind::File)?;
            word(out, operation_variable_kind(d))
        }
        Action::WriteValue(c, x) => {
            begin(out, level, Kind::Value)?;
            word(out, context_kind(c))?;
            word(out, Kind::Assign)?;
            atom(out, x)
        }
        Action::ClearContext(c) => {
            begin(out, level, context_kind(c))?;
            word(out, Kind::Assign)?;
            word(out, Kind::Null)
        }
        Action::ClearOperation(o) => {
            begin(out, level, removed_kind(o))?;
            word(out, Kind::Assign)?;
            word(out, Kind::Null)
        }
    }
}

fn test(out: &mut Vec<u8>, test: Test) -> Result<(), AllocError>
    ensures { OnOk result (out.new.items ≡ out.old.items ++ spaced (spec.test_words test)) }
{
    match test {
        Test::ContextIsSome(c) => {
            word(out, context_kind(c))?;
            word(out, Kind::NotEqual)?;
            word(out, Kind::Null)
        }
        Test::OperationIsSome(o) => {
            word(out, removed_kind(o))?;
            word(out, Kind::NotEqual)?;
            word(out, Kind::Null)
        }
        Test::Equal(n, x) => {
            word(out, number_kind(n))?;
            word(out, Kind::Equal)?;
            atom(out, x)
        }
        Test::Less(n, x) => {
            word(out, number_kind(n))?;
            word(out, Kind::Less)?;
            atom(out, x)
        }
        Test::IsIrp => {
            word(out, Kind::Irp)?;
            word(out, Kind::Data)
        }
        Test::IsDraining => word(out, Kind::Draining),
    }
}

/// The condition of an `if`, after that word.
pub fn condition(out: &mut Vec<u8>, condition: &Condition) -> Result<(), AllocError>
    ensures { OnOk result (out.new.items ≡ out.old.items ++ spaced (spec.condition_words condition.now)) }
{
    match condition {
        Condition::Test(found) => test(out, *found),
        Condition::Succeeds(call) => fallible_call(out, call),
    }
}
