//! The variables of an activation: what they name, the numbers that are computed with them, and the tests of them.

ghost use Rattle.std.specs.Prelude.{◌≡◌};
ghost use Rattle.flt_model.specs.LocalSteps.{holds_test};
ghost use Rattle.flt_model.specs.Variables as spec;
ghost use Rattle.flt_model.specs.World.{Activation};

use flt_tree::{Atom, ContextVariable, Expression, NumberVariable, OperationVariable, Test};

/// The keeper of an activation's variables.
pub trait Variables {
    /// The activation whose variables these are.
    ghost activation: { Self → Activation };

    /// The value of a number variable.
    fn number(&self, variable: NumberVariable) -> u64
        ensures { result ≡ spec.number_in (activation self.now) variable };

    /// The number of the context that a variable names; none if it is NULL.
    fn context(&self, variable: ContextVariable) -> Option<usize>
        ensures { result ≡ spec.context_in (activation self.now) variable };

    /// The number of the visit that a variable names; none if it is NULL.
    fn operation(&self, variable: OperationVariable) -> Option<usize>
        ensures { result ≡ spec.operation_in (activation self.now) variable };

    /// The value of a number or of a variable.
    #[inline(always)]
    fn atom(&self, atom: Atom) -> u64
        ensures { result ≡ spec.atom_value (activation self.now) atom }
    {
        match atom {
            Atom::Number(number) => number,
            Atom::Variable(variable) => self.number(variable),
        }
    }

    /// The value of a number, a sum or a difference; these wrap.
    #[inline(always)]
    fn expression(&self, expression: Expression) -> u64
        ensures { result ≡ spec.expression_value (activation self.now) expression }
    {
        match expression {
            Expression::Atom(atom) => self.atom(atom),
            Expression::Sum(left, right) => self.atom(left).wrapping_add(self.atom(right)),
            Expression::Difference(left, right) => self.atom(left).wrapping_sub(self.atom(right)),
        }
    }

    /// The result of a test of the activation's own variables and flag; none if it is about the operation.
    #[inline(always)]
    fn test(&self, draining: bool, test: Test) -> Option<bool>
        ensures { result ≡ holds_test draining (activation self.now) test }
    {
        match test {
            Test::ContextIsSome(variable) => Some(self.context(variable).is_some()),
            Test::OperationIsSome(variable) => {
                Some(
                    self.operation(OperationVariable::Removed(variable))
                        .is_some(),
                )
            }
            Test::Equal(variable, atom) => Some(self.number(variable) == self.atom(atom)),
            Test::Less(variable, atom) => Some(self.number(variable) < self.atom(atom)),
            Test::IsDraining => Some(draining),
            Test::IsIrp => None,
        }
    }
}
