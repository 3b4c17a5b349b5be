//! The effects of a callback's points on all that is possible, read from the call table once. Nothing is proved of it: the paths that the
//! search finds by it are checked by walking them again.

use crate::possible::{FAST, HELD, IRP, NO, NOT_HELD, Part, Possible, YES};
use flt_abs::{Abs, Draining, Modes, breaks_rule, entry_state};
use flt_graph::{
    Action, ContextVariable, Graph, Instruction, Invocation, LockNumber, OperationVariable, Place,
    Status, Test,
};
use flt_rules::{
    Change, Effects, Level, LockChange, LockNeed, Need, Rule, is_legal_in_draining, row,
};
use std::alloc::{AllocError, Global};

/// The need of a point for the locks that are held.
#[derive(Clone, Copy)]
pub(crate) enum LockAsk {
    Nothing,
    /// A call needs this level at most, and this of the lock that it names.
    Call(Level, LockNeed, Option<LockNumber>),
    /// A return needs that no lock is held.
    None,
}

/// The side of a point by one outcome. It is ruled out if nothing that it keeps of a tested part is possible; parts that are written are
/// cleared first.
#[derive(Clone, Copy)]
pub(crate) struct Side {
    pub(crate) point: usize,
    pub(crate) keeps: Possible,
    pub(crate) clears: Possible,
    pub(crate) puts: Possible,
    /// The part that a call leaves NULL or held.
    pub(crate) gives: Option<Part>,
}

/// The effects of a point.
#[derive(Clone, Copy)]
pub(crate) struct Spot {
    /// The digits of each part that break a rule there.
    pub(crate) bad: Possible,
    /// A rule is broken there in every situation.
    pub(crate) is_broken: bool,
    pub(crate) asks: LockAsk,
    pub(crate) changes_locks: bool,
    /// The outcome if the call succeeds, the test holds or a turn is left.
    pub(crate) granted: Option<Side>,
    pub(crate) refused: Option<Side>,
    /// A fact of the entry is tested, and the outcome without it is looked at first.
    pub(crate) asks_entry: bool,
}

/// Nothing is asked, and it leads nowhere.
const NOTHING: Spot = Spot {
    bad: Possible::NOTHING,
    is_broken: false,
    asks: LockAsk::Nothing,
    changes_locks: false,
    granted: None,
    refused: None,
    asks_entry: false,
};

fn of_context(variable: Option<ContextVariable>, digit: u8) -> Possible {
    match variable {
        Some(variable) => Possible::of(Part::context(variable), digit),
        None => Possible::NOTHING,
    }
}

fn of_operation(variable: Option<OperationVariable>, digit: u8) -> Possible {
    match variable {
        Some(variable) => Possible::of(Part::operation(variable), digit),
        None => Possible::NOTHING,
    }
}

/// The statuses of a variable that break a rule, by the need of a call.
fn bad_by(need: Need) -> u8 {
    match need {
        Need::Nothing => 0,
        Need::Held | Need::HandedOver => NOT_HELD,
        Need::Output => HELD,
    }
}

fn bad_of_call(call: &Invocation) -> Possible {
    let needs = row(call.call).needs;
    let mode = if needs.irp { FAST } else { 0 };
    let draining = if is_legal_in_draining(call.call) {
        0
    } else {
        YES
    };
    of_context(call.context, bad_by(needs.context))
        .or(of_context(call.output, bad_by(needs.output)))
        .or(of_operation(call.operation, bad_by(needs.operation)))
        .or(Possible::of(Part::MODE, mode))
        .or(Possible::of(Part::DRAINING, draining))
}

fn bad_of_action(action: Action) -> Possible {
    match action {
        Action::ReadValue(_, c) | Action::WriteValue(c, _) => of_context(Some(c), NOT_HELD),
        Action::ClearContext(c) => of_context(Some(c), HELD),
        Action::ClearOperation(o) => of_operation(Some(OperationVariable::Removed(o)), HELD),
        Action::ReadFile(_, d) => of_operation(Some(d), NOT_HELD),
        _ => Possible::NOTHING,
    }
}

/// The digit that a change leaves of a variable; none if the variable stays as it is.
fn left(change: Change) -> Option<u8> {
    match change {
        Change::Stays => None,
        Change::Null => Some(1),
        Change::Held => Some(2),
        Change::Stale => Some(4),
        Change::NullOrHeld => Some(3),
    }
}

impl Side {
    /// A side that leads to a point and changes nothing.
    fn to(point: usize) -> Side {
        Side {
            point,
            keeps: Possible::ALL,
            clears: Possible::NOTHING,
            puts: Possible::NOTHING,
            gives: None,
        }
    }

    /// The same if a part is written.
    fn put(self, part: Part, change: Change) -> Side {
        match left(change) {
            Some(digit) => Side {
                clears: self.clears.or(Possible::whole(part)),
                puts: self.puts.with(part, digit),
                gives: if digit == 3 { Some(part) } else { self.gives },
                ..self
            },
            None => self,
        }
    }

    fn put_context(self, variable: Option<ContextVariable>, change: Change) -> Side {
        match variable {
            Some(variable) => self.put(Part::context(variable), change),
            None => self,
        }
    }

    fn put_operation(self, variable: Option<OperationVariable>, change: Change) -> Side {
        match variable {
            Some(variable) => self.put(Part::operation(variable), change),
            None => self,
        }
    }

    /// The same if a call had these effects. A variable that receives a context is written last.
    fn after(self, call: &Invocation, effects: Effects) -> Side {
        self.put_context(call.context, effects.context)
            .put_context(call.output, effects.output)
            .put_operation(call.operation, effects.operation)
    }

    /// The same if a test of a part keeps a digit of it.
    fn keep(self, part: Part, digit: u8) -> Side {
        Side {
            keeps: self.keeps.with(part, digit),
            ..self
        }
    }
}

/// The part that a test reads, with its digits if the test holds, and if it doesn't.
fn asked_by(test: Test) -> Option<(Part, u8, u8)> {
    match test {
        Test::ContextIsSome(c) => Some((Part::context(c), 6, 1)),
        Test::OperationIsSome(o) => { Some((Part::operation(OperationVariable::Removed(o)), 6, 1)) }
        Test::IsIrp => Some((Part::MODE, IRP, FAST)),
        Test::IsDraining => Some((Part::DRAINING, YES, NO)),
        _ => None,
    }
}

/// Whether a rule is broken at a point by something other than the state: the operation is as a status needs it, and fast I/O or draining
/// doesn't matter.
fn is_broken_anyway(
    alloc: Global,
    graph: &Graph,
    callback: usize,
    point: usize,
    rule: Rule,
) -> bool {
    let state = entry_state(alloc, Place::Generic);
    breaks_rule(graph, callback, point, &state, rule)
}

fn spot_of_call(
    alloc: Global,
    graph: &Graph,
    callback: usize,
    point: usize,
    call: &Invocation,
    granted: usize,
    refused: usize,
) -> Spot {
    let row = row(call.call);
    let hands_badly = row.needs.status
        && is_broken_anyway(alloc, graph, callback, point, Rule::R06);
    let failed = match row.on_fail {
        Some(effects) => Some(Side::to(refused).after(call, effects)),
        None => None,
    };
    Spot {
        bad: bad_of_call(call),
        is_broken: hands_badly || !row.places.contains(graph.place(callback)),
        asks: LockAsk::Call(row.greatest, row.needs.lock, call.lock),
        changes_locks: !matches!(row.on_ok.lock, LockChange::Stays),
        granted: Some(Side::to(granted).after(call, row.on_ok)),
        refused: failed,
        asks_entry: false,
    }
}

fn spot_of_test(
    graph: &Graph,
    callback: usize,
    test: Test,
    granted: usize,
    refused: usize,
) -> Spot {
    let place = graph.place(callback);
    let bad = match test {
        Test::IsIrp => of_operation(Some(OperationVariable::Data), NOT_HELD),
        _ => Possible::NOTHING,
    };
    let (yes, no) = match asked_by(test) {
        Some((part, holds, fails)) => (
            Side::to(granted).keep(part, holds),
            Side::to(refused).keep(part, fails),
        ),
        None => (Side::to(granted), Side::to(refused)),
    };
    Spot {
        bad,
        is_broken: matches!(test, Test::IsDraining) && !matches!(place, Place::Post(_)),
        granted: Some(yes),
        refused: Some(no),
        asks_entry: matches!(
            test,
            Test::IsDraining | Test::ContextIsSome(ContextVariable::Arg)
        ),
        ..NOTHING
    }
}

fn spot_of_action(action: Action, next: usize) -> Spot {
    let side = Side::to(next);
    let side = match action {
        Action::ClearContext(c) => side.put(Part::context(c), Change::Null),
        Action::ClearOperation(o) => {
            side.put(Part::operation(OperationVariable::Removed(o)), Change::Null)
        }
        _ => side,
    };
    Spot {
        bad: bad_of_action(action),
        granted: Some(side),
        ..NOTHING
    }
}

/// The effects of a point of a callback.
fn spot_at(alloc: Global, graph: &Graph, callback: usize, point: usize) -> Spot {
    let spot = match graph.instruction_ref(callback, point) {
        Instruction::Act(action, next) => spot_of_action(*action, *next),
        Instruction::Call(call, granted, refused) => {
            let call = call.roles();
            spot_of_call(alloc, graph, callback, point, &call, *granted, *refused)
        }
        Instruction::Test(test, granted, refused) => {
            spot_of_test(graph, callback, *test, *granted, *refused)
        }
        Instruction::Repeat(_, block, next) => Spot {
            granted: Some(Side::to(*block)),
            refused: Some(Side::to(*next)),
            ..NOTHING
        },
        Instruction::Return(_) | Instruction::End => Spot {
            asks: LockAsk::None,
            ..NOTHING
        },
    };
    // A part of which all is bad can't be passed.
    let is_broken = spot.is_broken || !Possible::ALL.without(spot.bad).missing().is_nothing();
    Spot { is_broken, ..spot }
}

/// The effects of each point of a callback.
#[derive(Drop)]
pub(crate) struct Plan {
    spots: Vec<Spot>,
}

impl Plan {
    pub(crate) fn of(alloc: Global, graph: &Graph, callback: usize) -> Result<Plan, AllocError> {
        let mut spots = Vec::new(alloc);
        for point in 0..graph.points(callback) {
            spots.push(spot_at(alloc, graph, callback, point))?;
        }
        Ok(Plan { spots })
    }

    /// The effects of a point. A point that isn't there leads nowhere.
    pub(crate) fn spot(&self, point: usize) -> Spot {
        match self.spots.get(point) {
            Some(spot) => *spot,
            None => NOTHING,
        }
    }

    pub(crate) fn points(&self) -> usize {
        self.spots.len()
    }
}
