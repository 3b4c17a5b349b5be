//! The steps of an activation that nobody else can see.

ghost use Rattle.std.specs.Prelude.{◌≡◌, [], is_some, option_map};
ghost use Rattle.std.specs.Option.{unwrap_or};
ghost use Rattle.flt_model.specs.LocalSteps as model;
ghost use Rattle.flt_machine_frames.specs.Standings.{activation_with, with_variables};
ghost use Rattle.flt_machine_frames.specs.Steps as spec;

use crate::standing::Standing;
use flt_graph::{Instruction, Turn};
use flt_model::Variables;
use flt_tree::{Action, OperationVariable};

impl Standing {
    /// Computes a number, or sets a variable to NULL, and answers whether it did: if others see the action, nothing is changed.
    fn act(&mut self, action: &Action) -> bool
        ensures local { result ≡ is_some (model.after_action (activation_with self.old []) action.now) }
        ensures after { self.new
            ≡ unwrap_or (option_map (with_variables self.old) (model.after_action (activation_with self.old []) action.now)) self.old }
    {
        match action {
            Action::SetNumber(variable, expression) => {
                let value = self.expression(*expression);
                self.set_number(*variable, value);
                true
            }
            Action::ClearContext(variable) => {
                self.set_context(*variable, None);
                true
            }
            Action::ClearOperation(variable) => {
                self.set_operation(OperationVariable::Removed(*variable), None);
                true
            }
            Action::ReadValue(_, _) | Action::ReadFile(_, _) | Action::WriteValue(_, _) => false,
        }
    }

    /// Makes a turn of the `repeat` at the point, whose text has `text` turns: to its body if a turn is left, otherwise past it. False, and
    /// nothing is changed, if the body would nest too deep.
    fn turn(&mut self, text: u64, body: usize, behind: usize) -> bool
        ensures local { result ≡ is_some (spec.turned text body behind self.old) }
        ensures after { self.new ≡ unwrap_or (spec.turned text body behind self.old) self.old }
    {
        let left = self.turns.left_at(self.point, text);
        if left == 0 {
            self.turns.leave(self.point);
            self.point = behind;
            return true;
        }
        let turn = Turn {
            point: self.point,
            left: left - 1,
        };
        if self.turns.begin(turn) {
            self.point = body;
            return true;
        }
        false
    }

    /// Makes the step of an instruction, and answers whether it is local: if others see it, nothing is changed.
    pub(crate) fn step_locally(&mut self, draining: bool, instruction: &Instruction) -> bool
        ensures local { result ≡ is_some (spec.stepped draining instruction.now self.old) }
        ensures after { self.new ≡ unwrap_or (spec.stepped draining instruction.now self.old) self.old }
    {
        match instruction {
            Instruction::Act(action, next) => {
                if self.act(action) {
                    self.point = *next;
                    return true;
                }
                false
            }
            Instruction::Test(test, granted, refused) => match self.test(draining, *test) {
                Some(holds) => {
                    self.point = if holds { *granted } else { *refused };
                    true
                }
                None => false,
            },
            Instruction::Repeat(text, body, behind) => self.turn(*text, *body, *behind),
            Instruction::Call(_, _, _) | Instruction::Return(_) | Instruction::End => false,
        }
    }
}
