//! The conditions that hold at the point of a finding.

use crate::ground::Ground;
use crate::held::Lists;
use crate::possible::{FAST, HELD, IRP, NO, NOT_HELD, Part, Possible, YES};
use crate::search::{FollowedParts, Node, Stop, kept};
use flt_explain::{Finding, Subject};
use flt_graph::{Graph, Instruction};
use flt_rules::{
    Level, LockNumber, Mode, Possession, Rule, StatusRow, is_legal_in_draining, row, status_row,
};
use std::alloc::{AllocError, Global};

/// A condition on the locks that are held.
#[derive(Clone, Copy)]
pub(crate) enum LockWant {
    Nothing,
    Above(Level),
    Held(LockNumber),
    NotLatest(LockNumber),
}

/// The conditions on a point, and the search's number of the first moment that meets them; a part that isn't followed may have stopped the
/// path there.
#[derive(Clone, Copy)]
pub(crate) struct Aim {
    pub(crate) point: usize,
    pub(crate) wants: Possible,
    pub(crate) locks: LockWant,
    pub(crate) met: Option<usize>,
    pub(crate) stop: Option<Stop>,
    /// The next aim at this point, and which task it is of.
    next: Option<usize>,
    pub(crate) task: usize,
}

/// The statuses of a variable that break a rule.
fn bad_by(rule: Rule) -> u8 {
    match rule {
        Rule::R02 | Rule::R03 | Rule::R05 => HELD,
        _ => NOT_HELD,
    }
}

/// The statuses of the operation that the row of a returned status refuses; likewise below for the mode and draining.
fn bad_data(row: &StatusRow) -> u8 {
    match row.data {
        Possession::Held => NOT_HELD,
        Possession::GivenAway => 3,
    }
}

fn bad_mode(row: &StatusRow) -> u8 {
    match row.mode {
        Some(Mode::Irp) => FAST,
        Some(Mode::Fast) => IRP,
        None => 0,
    }
}

fn bad_draining(row: &StatusRow) -> u8 {
    if row.in_draining { 0 } else { YES }
}

/// The row of the status that a point returns.
fn returned(instruction: &Instruction) -> Option<StatusRow> {
    match instruction {
        Instruction::Return(Some(status)) => Some(status_row(status.word())),
        _ => None,
    }
}

/// All but the digits that break a rule of the state where a status is returned, so that the fault is the status itself.
fn fine_for_status(instruction: &Instruction) -> Possible {
    match returned(instruction) {
        Some(row) => Possible::ALL
            .without(Possible::of(Part::at(13), bad_data(&row)))
            .without(Possible::of(Part::MODE, bad_mode(&row)))
            .without(Possible::of(Part::DRAINING, bad_draining(&row))),
        None => Possible::ALL,
    }
}

/// The same for a call, so that the fault is the call itself.
fn fine_for_call(instruction: &Instruction) -> Possible {
    match instruction {
        Instruction::Call(call, _, _) if !is_legal_in_draining(call.roles().call) => {
            Possible::ALL.with(Part::DRAINING, NO)
        }
        _ => Possible::ALL,
    }
}

fn wanted_mode(instruction: &Instruction) -> Possible {
    match returned(instruction) {
        Some(row) => Possible::ALL.with(Part::MODE, bad_mode(&row)),
        None => Possible::ALL.with(Part::MODE, FAST),
    }
}

fn wanted_draining(instruction: &Instruction) -> Possible {
    match instruction {
        Instruction::Test(_, _, _) => Possible::ALL,
        _ => Possible::ALL.with(Part::DRAINING, YES),
    }
}

fn wanted_operation(rule: Rule, instruction: &Instruction) -> u8 {
    match (rule, returned(instruction)) {
        (Rule::R06, Some(row)) => bad_data(&row),
        _ => bad_by(rule),
    }
}

/// The values of each part of which one must be possible where a finding is.
fn wanted(finding: &Finding, instruction: &Instruction) -> Possible {
    match finding.subject {
        Subject::Context(v) => Possible::ALL.with(Part::context(v), bad_by(finding.rule)),
        Subject::Operation(v) => {
            let digit = wanted_operation(finding.rule, instruction);
            Possible::ALL.with(Part::operation(v), digit)
        }
        Subject::Mode => wanted_mode(instruction),
        Subject::Draining => wanted_draining(instruction),
        Subject::Call if matches!(finding.rule, Rule::R08) => fine_for_call(instruction),
        Subject::Status => fine_for_status(instruction),
        Subject::Lock(_) | Subject::Call => Possible::ALL,
    }
}

/// The condition that a call's greatest level is exceeded.
fn wanted_level(instruction: &Instruction) -> LockWant {
    match instruction {
        Instruction::Call(call, _, _) => LockWant::Above(row(call.roles().call).greatest),
        _ => LockWant::Nothing,
    }
}

/// The condition on the locks where a finding is.
fn wanted_locks(finding: &Finding, instruction: &Instruction) -> LockWant {
    match finding.subject {
        Subject::Lock(lock) => match finding.rule {
            Rule::R09 => LockWant::NotLatest(lock),
            _ => LockWant::Held(lock),
        },
        _ => match finding.rule {
            Rule::R07 => wanted_level(instruction),
            _ => LockWant::Nothing,
        },
    }
}

impl LockWant {
    fn is_met(self, lists: &Lists, list: usize) -> bool {
        match self {
            LockWant::Nothing => true,
            LockWant::Above(level) => lists.is_above(list, level),
            LockWant::Held(lock) => lists.contains(list, lock),
            LockWant::NotLatest(lock) => !lists.is_latest(list, lock),
        }
    }
}

/// The part of the state that is followed for a finding alone: its subject.
pub(crate) fn asked(finding: &Finding) -> FollowedParts {
    let part = match finding.subject {
        Subject::Context(v) => Some(Part::context(v)),
        Subject::Operation(v) => Some(Part::operation(v)),
        Subject::Mode => Some(Part::MODE),
        Subject::Draining => Some(Part::DRAINING),
        Subject::Lock(_) | Subject::Call | Subject::Status => None,
    };
    FollowedParts {
        parts: match part {
            Some(part) => Possible::whole(part),
            None => Possible::NOTHING,
        },
        locks: matches!(finding.subject, Subject::Lock(_)) || matches!(finding.rule, Rule::R07),
    }
}

impl Aim {
    pub(crate) fn of(graph: &Graph, finding: &Finding, task: usize) -> Aim {
        let instruction = graph.instruction_ref(finding.callback, finding.point);
        Aim {
            point: finding.point,
            wants: wanted(finding, instruction),
            locks: wanted_locks(finding, instruction),
            met: None,
            stop: None,
            next: None,
            task,
        }
    }
}

/// The aims of a search, by their points.
#[derive(Drop)]
pub(crate) struct Aims {
    pub(crate) aims: Vec<Aim>,
    firsts: Vec<Option<usize>>,
    /// How many aims aren't met, how many are met where the path was stopped, and how many steps the last of these took.
    open: usize,
    stopped: usize,
    last: usize,
}

impl Aims {
    pub(crate) fn none(alloc: Global, points: usize) -> Result<Aims, AllocError> {
        let mut firsts = Vec::new(alloc);
        for _point in 0..points {
            firsts.push(None)?;
        }
        Ok(Aims {
            aims: Vec::new(alloc),
            firsts,
            open: 0,
            stopped: 0,
            last: 0,
        })
    }

    pub(crate) fn push(&mut self, aim: Aim) -> Result<(), AllocError> {
        let number = self.aims.len();
        let next = self.first_at(aim.point);
        self.aims.push(Aim { next, ..aim })?;
        if let Some(first) = self.firsts.get_mut(aim.point) {
            *first = Some(number);
        }
        self.open = self.open.saturating_add(1);
        Ok(())
    }

    /// The first aim at a point.
    fn first_at(&self, point: usize) -> Option<usize> {
        match self.firsts.get(point) {
            Some(first) => *first,
            None => None,
        }
    }

    /// Whether an aim isn't met.
    pub(crate) fn is_any_open(&self) -> bool {
        self.open != 0
    }

    /// Whether all aims are met, and moments of this many steps could meet none better.
    pub(crate) fn are_met(&self, steps: usize) -> bool {
        self.open == 0 && (self.stopped == 0 || steps > self.last)
    }

    /// Meets an aim, unless it is met as well already.
    fn meet(&mut self, at: usize, number: usize, steps: usize, stop: Option<Stop>) {
        let Some(aim) = self.aims.get_mut(at) else {
            return;
        };
        if aim.met.is_none() {
            aim.met = Some(number);
            aim.stop = stop;
            self.open = self.open.saturating_sub(1);
            if stop.is_some() {
                self.stopped = self.stopped.saturating_add(1);
                self.last = steps;
            }
        } else if aim.stop.is_some() && stop.is_none() && steps == self.last {
            aim.met = Some(number);
            aim.stop = None;
            self.stopped = self.stopped.saturating_sub(1);
        }
    }

    /// Meets the aims that a moment reaches.
    pub(crate) fn look(
        &mut self,
        ground: &Ground<'_>,
        followed: FollowedParts,
        number: usize,
        node: Node,
    ) {
        let mut at = self.first_at(node.point);
        for _aim in 0..self.aims.len() {
            let Some(number_of_aim) = at else {
                return;
            };
            let Some(aim) = self.aims.get(number_of_aim) else {
                return;
            };
            let aim = *aim;
            if aim.locks.is_met(&ground.lists, node.list) {
                if let Some((_, part)) = kept(followed.parts, node.all, aim.wants) {
                    let stop = node.stop.or(Stop::of(part));
                    self.meet(number_of_aim, number, node.steps, stop);
                }
            }
            at = aim.next;
        }
    }
}
