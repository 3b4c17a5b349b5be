//! The steps of an activation that nobody else sees.

use crate::activation::{Activation, VariableValue};
use crate::laps::{Laps, NO_LAPS};
use flt_graph::{Action, Instruction, OperationVariable, Test, Turn};
use flt_rules::MAX_COST;
use flt_search_plan::{NUMBERS, Plan};
use flt_tree::{Atom, Expression};

/// How many steps an entry of a journal has at most.
const MAX_JOURNALED: u32 = 4_000_000;

impl Activation {
    /// The value of an atom.
    pub fn atom(&self, atom: Atom) -> u64 {
        match atom {
            Atom::Number(number) => number,
            Atom::Variable(variable) => self.numbers[variable.place()],
        }
    }

    fn expression(&self, expression: Expression) -> u64 {
        match expression {
            Expression::Atom(atom) => self.atom(atom),
            Expression::Sum(left, right) => self.atom(left).wrapping_add(self.atom(right)),
            Expression::Difference(left, right) => self.atom(left).wrapping_sub(self.atom(right)),
        }
    }

    /// The result of a test; none if it is about the operation.
    fn test(&self, test: Test) -> Option<bool> {
        match test {
            Test::ContextIsSome(variable) => Some(is_some(self.context(variable))),
            Test::OperationIsSome(variable) => {
                Some(is_some(self.operation(OperationVariable::Removed(variable))))
            }
            Test::Equal(variable, atom) => {
                Some(self.numbers[variable.place()] == self.atom(atom))
            }
            Test::Less(variable, atom) => Some(self.numbers[variable.place()] < self.atom(atom)),
            Test::IsDraining => Some(self.is_draining),
            Test::IsIrp => None,
        }
    }

    /// The point after an action; none if others see it.
    fn act(&mut self, action: Action, next: usize) -> Option<usize> {
        match action {
            Action::SetNumber(variable, expression) => {
                let value = self.expression(expression);
                self.set_number(variable, value);
                Some(next)
            }
            Action::ClearContext(variable) => {
                self.set_context(variable, VariableValue::Null);
                Some(next)
            }
            Action::ClearOperation(variable) => {
                self.set_operation(OperationVariable::Removed(variable), VariableValue::Null);
                Some(next)
            }
            _ => None,
        }
    }

    /// The point after the start of a turn, or after all of them.
    fn turn(&mut self, text: u64, body: usize, behind: usize) -> usize {
        let point = self.point;
        match self.turns.left(point, text).checked_sub(1) {
            Some(left) => {
                self.turns.begin(Turn { point, left });
                body
            }
            None => {
                self.turns.leave(point);
                behind
            }
        }
    }

    /// The point after a local step; none if the next one isn't local.
    fn next(&mut self, instruction: &Instruction) -> Option<usize> {
        match instruction {
            Instruction::Act(action, next) => self.act(*action, *next),
            Instruction::Test(test, yes, no) => match self.test(*test)? {
                true => Some(*yes),
                false => Some(*no),
            },
            Instruction::Repeat(text, body, behind) => Some(self.turn(*text, *body, *behind)),
            _ => None,
        }
    }

    /// Makes the remaining turns of the `repeat` at its point at once, if each of them does the same.
    fn leap(&mut self, plan: &Plan, laps: &mut Laps, text: u64) {
        let point = self.point;
        let turns = self.turns.left(point, text);
        let is_begun = self.turns.is_in(point);
        let Some(leap) = laps.leap(plan, self, is_begun, turns) else {
            return;
        };
        for variable in NUMBERS {
            let place = variable.place();
            let more = leap.numbers[place].wrapping_mul(turns);
            self.numbers[place] = self.numbers[place].wrapping_add(more);
        }
        self.turns.begin(Turn { point, left: 0 });
        self.steps = leap.steps;
    }

    /// Advances to the next step that isn't local, and counts the steps before it. False if they are too many.
    pub fn go_on(&mut self, plan: &Plan, left: &mut u32) -> bool {
        self.steps = 0;
        let mut laps = NO_LAPS;
        for made in 0..MAX_COST {
            let instruction = plan.instruction(self.filter, self.callback, self.point);
            if let Instruction::Repeat(text, _, _) = instruction {
                self.leap(plan, &mut laps, *text);
            }
            let Some(next) = self.next(instruction) else {
                return spend(left, made) && self.steps < MAX_JOURNALED;
            };
            self.point = next;
            self.steps = self.steps.saturating_add(1);
        }
        false
    }
}

/// Takes some steps off those that are left. False if too few are left.
fn spend(left: &mut u32, steps: u32) -> bool {
    match left.checked_sub(steps) {
        Some(rest) => {
            *left = rest;
            true
        }
        None => {
            *left = 0;
            false
        }
    }
}

fn is_some(named: VariableValue) -> bool {
    !matches!(named, VariableValue::Null)
}
