//! A journal is run along with the rows that are drawn.

use flt_model::{Journal, JournalEntry, Move};
use flt_replay_course::{go_locally, make_move, step_seen, upcoming};
use flt_replay_world::{Stack, World};
use flt_tree::{OperationVariable, Statement};
use std::alloc::{AllocError, Global};

/// The greatest number of lines that are kept, of those that some entries name.
const MOST_NAMED: usize = 40;

/// A line of a text, from 1, and the number of its filter, from the highest altitude.
#[derive(Clone, Copy, PartialEq, Eq)]
pub(crate) struct NamedLine {
    pub(crate) filter: usize,
    pub(crate) line: usize,
}

/// The run of a journal up to an entry.
#[derive(Drop)]
pub(crate) struct Course<'b, 'a> {
    alloc: Global,
    stack: &'b Stack<'a>,
    journal: &'b Journal,
    world: World<'a>,
    /// The number of the next entry.
    next: usize,
    /// The lines that the entries of the last `go_to` named, each once.
    named: Vec<NamedLine>,
    /// Whether these named more lines.
    are_more: bool,
}

impl<'b, 'a> Course<'b, 'a> {
    pub(crate) fn new(
        alloc: Global,
        stack: &'b Stack<'a>,
        journal: &'b Journal,
    ) -> Result<Course<'b, 'a>, AllocError> {
        Ok(Course {
            alloc,
            stack,
            journal,
            world: World::opening(alloc, stack.len())?,
            next: 0,
            named: Vec::new(alloc),
            are_more: false,
        })
    }

    // ---- entries

    /// Keeps a line of the filter that an activation is of.
    fn name(&mut self, activation: usize, line: usize) -> Result<(), AllocError> {
        let filter = self.world.filter(activation);
        let named = NamedLine { filter, line };
        if self.named.contains(&named) {
            return Ok(());
        }
        if self.named.len() == MOST_NAMED {
            self.are_more = true;
            return Ok(());
        }
        self.named.push(named)?;
        Ok(())
    }

    /// The line of the next statement in an activation; none at the end of its body.
    fn next_line(&mut self, activation: usize) -> Result<Option<usize>, AllocError> {
        Ok(match upcoming(&mut self.world, activation)? {
            Some(next) => Some(next.span().line),
            None => None,
        })
    }

    /// Makes the step of an activation that others see, and keeps the line of its statement.
    fn go_seen(&mut self, activation: usize, grant: bool) -> Result<(), AllocError> {
        let line = self.next_line(activation)?;
        let is_made = step_seen(&mut self.world, self.alloc, self.stack, activation, grant)?;
        if let Some(line) = line {
            if is_made {
                self.name(activation, line)?;
            }
        }
        Ok(())
    }

    /// Makes so many steps of an activation, of which others see the last.
    fn go(&mut self, activation: usize, steps: u32, grant: bool) -> Result<(), AllocError> {
        let unseen = steps.saturating_sub(1);
        if steps > 0 && go_locally(&mut self.world, activation, unseen)? == unseen {
            self.go_seen(activation, grant)?;
        }
        Ok(())
    }

    fn make(&mut self, entry: JournalEntry) -> Result<(), AllocError> {
        match entry {
            JournalEntry::Move(step) => {
                make_move(&mut self.world, self.alloc, self.stack, step)?;
                Ok(())
            }
            JournalEntry::Go {
                activation,
                steps,
                grant,
            } => self.go(activation as usize, steps, grant),
        }
    }

    /// Makes the entries up to the one of a number, which isn't made.
    pub(crate) fn go_to(&mut self, end: usize) -> Result<(), AllocError> {
        self.named.clear();
        self.are_more = false;
        for number in self.next..end {
            if let Some(entry) = self.journal.entry(number) {
                self.make(entry)?;
            }
        }
        self.next = end;
        Ok(())
    }

    // ---- what is there

    /// The lines of the statements that were seen in the last `go_to`, each once, in the order of their first times.
    pub(crate) fn named(&self) -> &[NamedLine] {
        self.named.as_slice()
    }

    /// Whether there were more of them.
    pub(crate) fn are_more(&self) -> bool {
        self.are_more
    }

    /// The operation that an activation is about.
    fn operation_on(&self, activation: usize) -> Option<usize> {
        let visit = self
            .world
            .operation_in(activation, OperationVariable::Data)?;
        Some(self.world.operation_of(visit))
    }

    /// The operation that a move is about, which was the last that was made.
    fn operation_by(&self, step: Move) -> Option<usize> {
        match step {
            Move::Arrive { .. } => Some(self.world.routes.len().saturating_sub(1)),
            Move::Skip { serial } | Move::Lower { serial } | Move::Cancel { serial } => {
                Some(serial as usize)
            }
            _ => self.operation_on(self.world.activations.len().saturating_sub(1)),
        }
    }

    /// The operation that the last entry is about, if it is about one.
    pub(crate) fn operation(&self) -> Option<usize> {
        match self.journal.entry(self.next.saturating_sub(1))? {
            JournalEntry::Move(step) => self.operation_by(step),
            JournalEntry::Go { activation, .. } => self.operation_on(activation as usize),
        }
    }

    /// The number of contexts so far.
    pub(crate) fn contexts(&self) -> usize {
        self.world.context_count()
    }

    /// The number of references of a context.
    pub(crate) fn references(&self, context: usize) -> u64 {
        self.world.references(context)
    }

    /// Whether a context is linked.
    pub(crate) fn is_linked(&self, context: usize) -> bool {
        self.world.is_linked(context)
    }

    /// The number of visits that wait in queues and work items.
    pub(crate) fn waiting(&self) -> u64 {
        let mut waiting: u64 = 0;
        for visit in 0..self.world.visit_count() {
            waiting = waiting.saturating_add(self.world.waiting(visit));
        }
        waiting
    }
}
