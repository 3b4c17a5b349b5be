//! The counts that are made before anything is drawn: of lanes, lines and letters.

use crate::course::Course;
use crate::excerpt::{Excerpt, broken_line, ends_broken, last_in, lines_of, row_of};
use crate::words::{number_words, row_words};
use flt_explain_timeline::{Fold, Row, Timeline};
use flt_model::{Journal, JournalEntry, Move, Verdict};
use flt_replay_world::Stack;
use std::alloc::{AllocError, Global};

/// The least width of a lane.
pub(crate) const LANE: usize = 24;

/// The left side of the lanes.
pub(crate) const LANES: usize = 100;

/// The greatest number of pixels that a letter takes.
const LETTER: usize = 8;

/// The least number of letters for which there is room.
const LEAST_LETTERS: usize = 40;

/// The greatest number of contexts that have lanes.
const MOST_CONTEXTS: usize = 12;

/// The greatest number of operations that have columns of their own.
const OWN_COLUMNS: usize = 8;

/// The greatest number of columns: with the one after all others, for operations without their own.
const COLUMNS: usize = OWN_COLUMNS + 1;

/// The contents of a picture, and the numbers of its lanes.
#[derive(Clone, Copy)]
pub(crate) struct Plan<'b, 'a> {
    pub(crate) alloc: Global,
    pub(crate) timeline: &'b Timeline<'a>,
    pub(crate) verdict: Verdict,
    pub(crate) excerpt: Excerpt,
    pub(crate) columns: usize,
    /// The first operation of each column.
    pub(crate) firsts: [Option<usize>; 9],
    /// Whether a column may be that of several operations.
    pub(crate) is_shared: bool,
    /// The width of the lane of an operation.
    pub(crate) lane: usize,
    pub(crate) contexts: usize,
    /// The greatest number of letters of the words of a row.
    letters: usize,
    /// The number of letters of the title.
    title: usize,
}

/// The number of columns of the rows of a timeline.
fn columns_of(timeline: &Timeline<'_>) -> usize {
    let mut columns: usize = 0;
    for row in timeline.rows.as_slice() {
        if let Some(column) = timeline.column(*row) {
            columns = columns.max(column.saturating_add(1));
        }
    }
    columns
}

fn is_arrival(entry: &JournalEntry) -> bool {
    matches!(entry, JournalEntry::Move(Move::Arrive { .. }))
}

/// The number of operations that arrive in a journal.
fn operations_of(journal: &Journal) -> usize {
    let mut operations: usize = 0;
    for entry in journal.entries() {
        if is_arrival(entry) {
            operations = operations.saturating_add(1);
        }
    }
    operations
}

/// Whether an operation arrives in a row, which then begins with that.
fn begins(journal: &Journal, row: Row) -> bool {
    match journal.entry(row.first) {
        Some(entry) => is_arrival(&entry),
        None => false,
    }
}

/// Makes an operation the first of a column, if it has none yet.
fn take_column(firsts: &mut [Option<usize>; 9], column: Option<usize>, operation: usize) {
    if let Some(column) = column {
        if let Some(first) = firsts.get_mut(column) {
            if first.is_none() {
                *first = Some(operation);
            }
        }
    }
}

/// The first operation of each column.
fn firsts_of(journal: &Journal, timeline: &Timeline<'_>) -> [Option<usize>; 9] {
    let mut firsts = [None; COLUMNS];
    let mut operation: usize = 0;
    for row in timeline.rows.as_slice() {
        if begins(journal, *row) {
            take_column(&mut firsts, timeline.column(*row), operation);
            operation = operation.saturating_add(1);
        }
    }
    firsts
}

/// The width of the lane of an operation, with room for the numbers of so many operations.
fn lane_of(alloc: Global, operations: usize) -> Result<usize, AllocError> {
    let letters = number_words(alloc, operations.saturating_sub(1))?.len();
    let room = letters.saturating_mul(LETTER).saturating_add(LETTER);
    Ok(room.max(LANE))
}

// ---- letters

/// The number of letters of the longest words of a block and of the row after it by which the run breaks something.
fn letters_in(
    alloc: Global,
    timeline: &Timeline<'_>,
    verdict: Verdict,
    fold: Fold,
) -> Result<usize, AllocError> {
    let mut letters: usize = 0;
    for number in 0..fold.block {
        let row = row_of(timeline, fold.first.saturating_add(number));
        letters = letters.max(row_words(alloc, timeline, verdict, row)?.len());
    }
    if ends_broken(timeline, fold) {
        let last = row_words(alloc, timeline, verdict, last_in(timeline, fold))?;
        letters = letters.max(last.len());
    }
    Ok(letters)
}

/// The number of letters of the longest words of a timeline.
fn letters_of(
    alloc: Global,
    timeline: &Timeline<'_>,
    verdict: Verdict,
) -> Result<usize, AllocError> {
    let mut letters: usize = 0;
    for fold in timeline.folds.as_slice() {
        letters = letters.max(letters_in(alloc, timeline, verdict, *fold)?);
    }
    Ok(letters)
}

// ---- contexts

/// The number of contexts after so many entries, up to the number that has lanes.
fn contexts_behind(course: &mut Course<'_, '_>, entries: usize) -> Result<usize, AllocError> {
    course.go_to(entries)?;
    Ok(course.contexts().min(MOST_CONTEXTS))
}

/// The number of contexts in a journal, up to the number that has lanes.
fn contexts_of<'b, 'a>(
    alloc: Global,
    stack: &'b Stack<'a>,
    journal: &'b Journal,
) -> Result<usize, AllocError> {
    let mut course = Course::new(alloc, stack, journal)?;
    let contexts = contexts_behind(&mut course, journal.len());
    drop(course);
    contexts
}

impl<'b, 'a> Plan<'b, 'a> {
    /// The plan for a journal, below a title of so many letters.
    pub(crate) fn of(
        alloc: Global,
        stack: &Stack<'_>,
        journal: &Journal,
        verdict: Verdict,
        timeline: &'b Timeline<'a>,
        title: usize,
    ) -> Result<Plan<'b, 'a>, AllocError> {
        let contexts = contexts_of(alloc, stack, journal)?;
        let letters = letters_of(alloc, timeline, verdict)?.max(LEAST_LETTERS);
        let operations = operations_of(journal);
        Ok(Plan {
            alloc,
            timeline,
            verdict,
            excerpt: Excerpt::of(lines_of(timeline), broken_line(timeline)),
            columns: columns_of(timeline),
            firsts: firsts_of(journal, timeline),
            is_shared: operations > OWN_COLUMNS,
            lane: lane_of(alloc, operations)?,
            contexts,
            letters,
            title,
        })
    }

    pub(crate) fn row(&self, number: usize) -> Row {
        row_of(self.timeline, number)
    }

    /// The left side of a lane. The first one is for rows that concern no operation.
    pub(crate) fn left(&self, number: usize) -> usize {
        LANES.saturating_add(self.lane.saturating_mul(number))
    }

    /// The left side of an operation's lane.
    pub(crate) fn operation(&self, column: usize) -> usize {
        self.left(column.saturating_add(1))
    }

    /// The left side of the lane of the visits that wait.
    pub(crate) fn queue(&self) -> usize {
        self.operation(self.columns.max(3)).saturating_add(LANE)
    }

    /// The left side of a context's lane.
    pub(crate) fn context(&self, number: usize) -> usize {
        let lanes = number.saturating_add(3);
        self.queue().saturating_add(LANE.saturating_mul(lanes))
    }

    /// The left side of the words.
    pub(crate) fn words(&self) -> usize {
        self.context(self.contexts.max(3)).saturating_add(LANE)
    }

    /// The number of lines that are drawn: those of the timeline, and one in each place where some are left out.
    pub(crate) fn lines(&self) -> usize {
        let mut lines: usize = 0;
        let mut is_drawn = true;
        for number in 0..lines_of(self.timeline) {
            let was_drawn = is_drawn;
            is_drawn = self.excerpt.has(number);
            if is_drawn || was_drawn {
                lines = lines.saturating_add(1);
            }
        }
        lines
    }

    /// The right side of words of so many letters from a place on, with the empty room after them.
    fn room(&self, left: usize, letters: usize) -> usize {
        let end = left.saturating_add(letters.saturating_mul(LETTER));
        end.saturating_add(LANE)
    }

    /// The width of the picture.
    pub(crate) fn width(&self) -> usize {
        let rows = self.room(self.words(), self.letters);
        rows.max(self.room(LANES - 65, self.title))
    }
}
