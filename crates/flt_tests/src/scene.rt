//! A board with its loaded filters, driven entry by entry or turn by turn.

ghost use Rattle.std.specs.Prelude.{IfOk};
ghost use Rattle.std.specs.List.{All};
ghost use Rattle.flt_machine.specs.Situations.{IsOwn};
ghost use Rattle.flt_model.specs.Program.{filters_of};
ghost use Rattle.flt_tree.specs.WellFormed.{IsWellFormed};

use counted_heap::Heap;
use flt_machine::{ApplyFault, Board, Commit, Loaded, Outcome, advance};
use flt_model::{Journal, JournalEntry, Move, Subject, Verdict, read};
use flt_replay::replay;
use flt_rules::FinalStatus;
use flt_stack_core::one::turn;
use flt_stack_core::{Choices, TurnFault};
use flt_syntax::{Tree, parse};
use std::alloc::Global;
use std::collections::VecDeque;
use std::marker::Model;
use std::test::Fail;

/// The number of contexts, operations and activations that are compared.
pub(crate) const SHOWN: usize = 5;

/// The visible state of a board.
#[derive(Clone, Copy, PartialEq)]
pub(crate) struct Look {
    pub(crate) entries: usize,
    pub(crate) last: Option<JournalEntry>,
    pub(crate) references: [Option<u64>; SHOWN],
    pub(crate) ends: [u8; SHOWN],
    pub(crate) nexts: [Option<Move>; SHOWN],
    pub(crate) points: [Option<usize>; SHOWN],
}

/// A board with its own filters.
#[derive(Drop)]
pub(crate) struct Scene {
    loaded: Loaded,
    board: Board,
}

impl Model for Scene {
    ghost use Rattle.flt_machine.specs.Situations.{Situation, IsOwn};

    ghost Value = { Situation };

    ghost view = { λ s. s.board };

    ghost invariant = { λ s. IsOwn s.loaded s.board };
}

// ---- texts

/// The trees of texts.
pub(crate) fn trees_of(alloc: Global, texts: &[&str]) -> Result<Vec<Tree>, Fail>
    ensures { IfOk result (λ trees. All IsWellFormed (filters_of trees.items)) }
{
    let mut trees = Vec::new(alloc);
    for text in texts {
        let tree = parse(alloc, text.as_bytes())?;
        trees.push(tree)?;
    }
    Ok(trees)
}

/// The journal of these entries.
pub(crate) fn journal_of(alloc: Global, entries: &str) -> Result<Journal, Fail> {
    let text = format!(in alloc; "fltjournal 1\n{entries}end\n")?;
    let mut bytes = text.as_bytes();
    Ok(read(alloc, &mut bytes)?)
}

/// The monitor's finding of a journal, as a number, with the number of the entry: none if it is legal, 0 if it isn't a run, 1 to 8 for the
/// violation.
pub(crate) fn finding(
    alloc: Global,
    texts: &[&str],
    journal: &Journal,
) -> Result<Option<(u8, usize)>, Fail> {
    let trees = trees_of(alloc, texts)?;
    match replay(alloc, trees.as_slice(), journal)? {
        Verdict::Legal => Ok(None),
        Verdict::NotARun(number) => Ok(Some((0, number))),
        Verdict::Breaks(violation, number) => Ok(Some((violation.number(), number))),
    }
}

/// The end of an operation, as a number: 0 if it hasn't ended, 1 if it was disallowed, then the final statuses.
fn end_of(outcome: Option<Outcome>) -> u8 {
    match outcome {
        None => 0,
        Some(Outcome::Disallowed) => 1,
        Some(Outcome::Completed(FinalStatus::Success)) => 2,
        Some(Outcome::Completed(FinalStatus::AccessDenied)) => 3,
        Some(Outcome::Completed(FinalStatus::Cancelled)) => 4,
        Some(Outcome::Completed(_)) => 5,
    }
}

// ---- the board

/// Takes a turn on a board. Afterwards it is again the loaded filters' own.
fn turn_on(
    board: &mut Board,
    alloc: Global,
    loaded: &Loaded,
    subjects: &mut VecDeque<Subject>,
    choices: &mut Choices,
) -> Result<bool, TurnFault>
    requires own { IsOwn loaded.now board.old }
    ensures own { IsOwn loaded.now board.new }
{
    turn(&mut Heap::new(alloc), board, loaded, subjects, choices)
}

impl Scene {
    pub(crate) fn new(alloc: Global, texts: &[&str]) -> Result<Scene, Fail> {
        let loaded = Loaded::new(alloc, trees_of(alloc, texts)?)?;
        let board = Board::new(&mut Heap::new(alloc), &loaded)?;
        Ok(Scene { loaded, board })
    }

    /// Ends it. Only here is it dropped.
    pub(crate) fn end(self) {}

    pub(crate) fn board(&self) -> &Board {
        &self.board
    }

    /// Makes a move. Returns the subjects that get tickets by it.
    pub(crate) fn tickets_of_move(
        &mut self,
        alloc: Global,
        step: Move,
    ) -> Result<Vec<Subject>, ApplyFault> {
        let events = self.board.apply(&mut Heap::new(alloc), &self.loaded, step)?;
        Ok(events.next)
    }

    /// The same for an activation that continues by this many steps.
    fn tickets_of_go(
        &mut self,
        alloc: Global,
        activation: u32,
        steps: u32,
        grant: bool,
    ) -> Option<Vec<Subject>> {
        let frame = self.board.checkout(activation)?;
        let advanced = advance(&self.loaded, frame);
        if advanced.steps + 1 != steps {
            return None;
        }
        match self
            .board
            .commit(&mut Heap::new(alloc), &self.loaded, &advanced, grant)
        {
            Commit::Committed(events) => Some(events.next),
            _ => None,
        }
    }

    /// Takes a turn. False if there is no ticket.
    pub(crate) fn turn(
        &mut self,
        alloc: Global,
        subjects: &mut VecDeque<Subject>,
        choices: &mut Choices,
    ) -> Result<bool, TurnFault> {
        turn_on(&mut self.board, alloc, &self.loaded, subjects, choices)
    }

    /// Does the action of an entry. Returns the subjects that get tickets by it, if it succeeds.
    pub(crate) fn tickets_of(
        &mut self,
        alloc: Global,
        entry: JournalEntry,
    ) -> Option<Vec<Subject>> {
        match entry {
            JournalEntry::Move(step) => self.tickets_of_move(alloc, step).ok(),
            JournalEntry::Go {
                activation,
                steps,
                grant,
            } => self.tickets_of_go(alloc, activation, steps, grant),
        }
    }

    /// The visible state of the board.
    pub(crate) fn look(&self) -> Look {
        let entries = self.board.journal().len();
        let mut look = Look {
            entries,
            last: self.board.journal().entry(entries.saturating_sub(1)),
            references: [None; SHOWN],
            ends: [0; SHOWN],
            nexts: [None; SHOWN],
            points: [None; SHOWN],
        };
        for number in 0..SHOWN {
            let serial = number as u32;
            look.references[number] = self.board.references(number);
            look.ends[number] = end_of(self.board.outcome(serial));
            look.nexts[number] = self.board.next_move(&self.loaded, serial);
            if let Some(frame) = self.board.checkout(serial) {
                look.points[number] = Some(frame.standing.point);
            }
        }
        look
    }
}
