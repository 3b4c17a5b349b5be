//! The variables that can still be read at each point, before they are written.

use flt_graph::{
    Action, ContextVariable, Instruction, Invocation, NumberVariable, OperationVariable,
    RemovedVariable, Status, Test,
};
use flt_rules::Call;
use flt_tree::{Atom, Expression, named_context};
use std::alloc::{AllocError, Global};

/// Variables that are read later.
#[derive(Clone, Copy, PartialEq, Eq)]
pub struct Live {
    numbers: u8,
    contexts: u16,
    removed: u8,
}

pub(crate) const NONE_LIVE: Live = Live {
    numbers: 0,
    contexts: 0,
    removed: 0,
};

const ALL_LIVE: Live = Live {
    numbers: u8::MAX,
    contexts: u16::MAX,
    removed: u8::MAX,
};

fn number_bit(variable: NumberVariable) -> u8 {
    match variable {
        NumberVariable::N0 => 1,
        NumberVariable::N1 => 2,
        NumberVariable::N2 => 4,
        NumberVariable::N3 => 8,
        NumberVariable::N4 => 16,
        NumberVariable::N5 => 32,
        NumberVariable::N6 => 64,
        NumberVariable::N7 => 128,
    }
}

fn context_bit(variable: ContextVariable) -> u16 {
    match variable {
        ContextVariable::C0 => 1,
        ContextVariable::C1 => 2,
        ContextVariable::C2 => 4,
        ContextVariable::C3 => 8,
        ContextVariable::C4 => 16,
        ContextVariable::C5 => 32,
        ContextVariable::C6 => 64,
        ContextVariable::C7 => 128,
        ContextVariable::Arg => 256,
    }
}

fn removed_bit(variable: RemovedVariable) -> u8 {
    match variable {
        RemovedVariable::O0 => 1,
        RemovedVariable::O1 => 2,
        RemovedVariable::O2 => 4,
        RemovedVariable::O3 => 8,
    }
}

impl Live {
    /// Whether a variable for a number is read later.
    pub fn number(self, variable: NumberVariable) -> bool {
        self.numbers & number_bit(variable) != 0
    }

    /// Whether a variable for a context is read later.
    pub fn context(self, variable: ContextVariable) -> bool {
        self.contexts & context_bit(variable) != 0
    }

    /// Whether a variable for a removed operation is read later.
    pub fn removed(self, variable: RemovedVariable) -> bool {
        self.removed & removed_bit(variable) != 0
    }

    fn and(self, other: Live) -> Live {
        Live {
            numbers: self.numbers | other.numbers,
            contexts: self.contexts | other.contexts,
            removed: self.removed | other.removed,
        }
    }

    fn with_number(self, variable: NumberVariable) -> Live {
        Live {
            numbers: self.numbers | number_bit(variable),
            ..self
        }
    }

    fn without_number(self, variable: NumberVariable) -> Live {
        Live {
            numbers: self.numbers & !number_bit(variable),
            ..self
        }
    }

    fn with_context(self, variable: Option<ContextVariable>) -> Live {
        match variable {
            Some(variable) => Live {
                contexts: self.contexts | context_bit(variable),
                ..self
            },
            None => self,
        }
    }

    fn without_context(self, variable: Option<ContextVariable>) -> Live {
        match variable {
            Some(variable) => Live {
                contexts: self.contexts & !context_bit(variable),
                ..self
            },
            None => self,
        }
    }

    fn with_operation(self, variable: Option<OperationVariable>) -> Live {
        match variable {
            Some(OperationVariable::Removed(variable)) => Live {
                removed: self.removed | removed_bit(variable),
                ..self
            },
            _ => self,
        }
    }

    fn without_operation(self, variable: Option<OperationVariable>) -> Live {
        match variable {
            Some(OperationVariable::Removed(variable)) => Live {
                removed: self.removed & !removed_bit(variable),
                ..self
            },
            _ => self,
        }
    }

    fn with_atom(self, atom: Atom) -> Live {
        match atom {
            Atom::Variable(variable) => self.with_number(variable),
            Atom::Number(_) => self,
        }
    }

    fn with_expression(self, expression: Expression) -> Live {
        match expression {
            Expression::Atom(atom) => self.with_atom(atom),
            Expression::Sum(left, right) | Expression::Difference(left, right) => {
                self.with_atom(left).with_atom(right)
            }
        }
    }
}

// ---- before an instruction

/// The variables that are live before an action. Values of contexts count only if something reads them.
fn before_action(action: Action, after: Live, values: bool) -> Live {
    match action {
        Action::SetNumber(variable, expression) => {
            if after.number(variable) {
                after.without_number(variable).with_expression(expression)
            } else {
                after
            }
        }
        Action::ReadValue(variable, context) => {
            after.without_number(variable).with_context(Some(context))
        }
        Action::ReadFile(variable, operation) => {
            after
                .without_number(variable)
                .with_operation(Some(operation))
        }
        Action::WriteValue(context, atom) => {
            let live = after.with_context(Some(context));
            if values { live.with_atom(atom) } else { live }
        }
        Action::ClearContext(variable) => after.without_context(Some(variable)),
        Action::ClearOperation(variable) => {
            after.without_operation(Some(OperationVariable::Removed(variable)))
        }
    }
}

fn before_call(call: &Invocation, after: Live) -> Live {
    match call.call {
        Call::RemoveNextIo => after
            .without_context(call.output)
            .without_operation(call.operation),
        _ => after
            .without_context(call.output)
            .with_context(call.context)
            .with_operation(call.operation),
    }
}

fn before_test(test: Test, after: Live) -> Live {
    match test {
        Test::ContextIsSome(variable) => after.with_context(Some(variable)),
        Test::OperationIsSome(variable) => {
            after.with_operation(Some(OperationVariable::Removed(variable)))
        }
        Test::Equal(variable, atom) | Test::Less(variable, atom) => {
            after.with_number(variable).with_atom(atom)
        }
        Test::IsIrp | Test::IsDraining => after,
    }
}

fn before_return(status: Option<Status>) -> Live {
    NONE_LIVE.with_context(named_context(status))
}

fn live_at(lives: &[Live], point: usize) -> Live {
    match lives.get(point) {
        Some(live) => *live,
        None => NONE_LIVE,
    }
}

fn before(instruction: &Instruction, lives: &[Live], values: bool) -> Live {
    match instruction {
        Instruction::Act(action, next) => before_action(*action, live_at(lives, *next), values),
        Instruction::Call(call, yes, no) => {
            before_call(&call.roles(), live_at(lives, *yes).and(live_at(lives, *no)))
        }
        Instruction::Test(test, yes, no) => {
            before_test(*test, live_at(lives, *yes).and(live_at(lives, *no)))
        }
        Instruction::Repeat(_, body, behind) => live_at(lives, *body).and(live_at(lives, *behind)),
        Instruction::Return(status) => before_return(*status),
        Instruction::End => NONE_LIVE,
    }
}

// ---- all points

/// How often the points are gone through, at most: repeats nest four deep.
const PASSES: usize = 12;

/// The variables that are live before a point.
fn before_at(points: &[flt_graph::Point], lives: &[Live], point: usize, values: bool) -> Live {
    match points.get(point) {
        Some(own) => before(&own.instruction, lives, values),
        None => NONE_LIVE,
    }
}

/// Goes through the points from the last, and returns whether something was added.
fn pass(points: &[flt_graph::Point], lives: &mut [Live], values: bool) -> bool {
    let mut is_more = false;
    for point in (0..points.len()).rev() {
        let live = before_at(points, lives, point, values);
        if let Some(own) = lives.get_mut(point) {
            if *own != live {
                *own = live;
                is_more = true;
            }
        }
    }
    is_more
}

fn all_of(alloc: Global, count: usize, live: Live) -> Result<Vec<Live>, AllocError> {
    let mut lives = Vec::new(alloc);
    for _ in 0..count {
        lives.push(live)?;
    }
    Ok(lives)
}

/// The variables that are live at each point.
pub(crate) fn lives(
    alloc: Global,
    points: &[flt_graph::Point],
    values: bool,
) -> Result<Vec<Live>, AllocError> {
    let mut lives = all_of(alloc, points.len(), NONE_LIVE)?;
    for _ in 0..PASSES {
        if !pass(points, lives.as_mut_slice(), values) {
            return Ok(lives);
        }
    }
    all_of(alloc, points.len(), ALL_LIVE)
}
