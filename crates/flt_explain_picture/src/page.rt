//! The lines of a picture.

ghost use Rattle.std.specs.Prelude.{IfOk, string_bytes};
ghost use Rattle.flt_model.specs.Program.{filters_of};
ghost use Rattle.flt_explain_picture.specs.Pictures as spec;
ghost use Rattle.flt_explain_picture.specs.Titles as titles;

use crate::course::Course;
use crate::drawing::Drawing;
use crate::element::{Area, Colour, Look};
use crate::excerpt::{ends_broken, last_in, repeated_in};
use crate::hints::Sources;
use crate::plan::{LANE, LANES, Plan};
use crate::svg::written;
use crate::title::title_of;
use crate::words::{entries_words, left_out_words, number_words, repeated_words, row_words};
use flt_explain_timeline::{Fold, Row, Timeline};
use flt_model::{Journal, Verdict};
use flt_replay_world::Stack;
use flt_tree::Tree;
use std::alloc::{AllocError, Global};

/// The height of a line.
const LINE: usize = 22;

/// The meanings of the colours.
const KEY: [(Colour, &str); 5] = [
    (Colour::Blue, "a callback is running"),
    (Colour::Grey, "the filter manager is at work"),
    (
        Colour::Orange,
        "how many operations wait in queues and work items when the row ends",
    ),
    (
        Colour::Green,
        "how many references a linked context has when the row ends",
    ),
    (
        Colour::Purple,
        "how many references a context that isn't linked has when the row ends",
    ),
];

/// The meaning of the numbers of operations if columns are shared.
const SHARED: &str =
    "the number in a box is its operation's; above a column is the first operation that has it";

/// The words above the lanes.
const HEADS: [&str; 5] = [
    "entries",
    "operations",
    "waiting",
    "contexts",
    "lines that ran, and how calls went",
];

/// The picture so far.
#[derive(Drop)]
struct Sheet<'t, 'b, 'a> {
    alloc: Global,
    drawing: Drawing,
    course: Course<'b, 'a>,
    sources: Sources<'t>,
    /// The top of the next line.
    top: usize,
    /// The number of the next line of the timeline, drawn or not.
    number: usize,
    /// The number of lines that are left out since the last one that is drawn.
    left_out: usize,
}

/// The number after that of a row's last entry.
fn end_of(row: Row) -> usize {
    row.first.saturating_add(row.count)
}

impl Sheet<'_, '_, '_> {
    /// The height of the words in the next line.
    fn base(&self) -> usize {
        self.top.saturating_add(15)
    }

    /// Draws a box in the next line.
    fn fill(&mut self, x: usize, width: usize, colour: Colour) -> Result<(), AllocError> {
        let area = Area {
            x,
            y: self.top.saturating_add(2),
            width,
            height: LINE - 4,
        };
        self.drawing.fill(area, colour)
    }

    /// Draws a number round a place.
    fn draw_number(
        &mut self,
        x: usize,
        y: usize,
        look: Look,
        number: usize,
    ) -> Result<(), AllocError> {
        let words = number_words(self.alloc, number)?;
        self.drawing.words(x, y, look, words)
    }

    /// Draws a number in a box, in the lane with this left side.
    fn draw_count(&mut self, lane: usize, colour: Colour, count: usize) -> Result<(), AllocError> {
        let left = lane.saturating_add(2);
        self.fill(left, LANE - 4, colour)?;
        let middle = left.saturating_add(LANE / 2 - 2);
        self.draw_number(middle, self.base(), Look::Inside, count)
    }

    /// Draws words in the next line, which is then done.
    fn end_line(&mut self, left: usize, look: Look, words: String) -> Result<(), AllocError> {
        let base = self.base();
        self.top = self.top.saturating_add(LINE);
        self.drawing.words(left, base, look, words)
    }

    /// Draws a row's words with its lines as a hint, which end its line.
    fn end_row(&mut self, left: usize, look: Look, words: String) -> Result<(), AllocError> {
        let base = self.base();
        self.top = self.top.saturating_add(LINE);
        let are_more = self.course.are_more();
        let hint = self
            .sources
            .hint(self.alloc, self.course.named(), are_more)?;
        self.drawing.hinted(left, base, look, words, hint)
    }
}

impl<'b, 'a> Plan<'b, 'a> {
    // ---- lanes

    /// Draws in a lane whether a callback or the filter manager runs in a row.
    fn draw_turn(
        &self,
        sheet: &mut Sheet<'_, '_, '_>,
        row: Row,
        left: usize,
    ) -> Result<(), AllocError> {
        let colour = if self.timeline.is_running(row) {
            Colour::Blue
        } else {
            Colour::Grey
        };
        sheet.fill(left.saturating_add(4), self.lane.saturating_sub(8), colour)
    }

    /// The middle of a lane.
    fn middle(&self, left: usize) -> usize {
        left.saturating_add(self.lane / 2)
    }

    /// Draws a line in each column whose operation isn't done.
    fn draw_rules(&self, sheet: &mut Sheet<'_, '_, '_>, row: Row) -> Result<(), AllocError> {
        let top = sheet.top;
        for column in 0..self.columns {
            if self.timeline.is_alive(row, column) {
                let middle = self.middle(self.operation(column));
                sheet.drawing.rule(middle, top, top.saturating_add(LINE))?;
            }
        }
        Ok(())
    }

    /// Draws the same for a row about an operation, with its number if its column may be that of others, too.
    fn draw_operation(
        &self,
        sheet: &mut Sheet<'_, '_, '_>,
        row: Row,
        column: usize,
    ) -> Result<(), AllocError> {
        let left = self.operation(column);
        self.draw_turn(sheet, row, left)?;
        let Some(operation) = sheet.course.operation() else {
            return Ok(());
        };
        if self.is_shared {
            let base = sheet.base();
            sheet.draw_number(self.middle(left), base, Look::Inside, operation)?;
        }
        Ok(())
    }

    /// Draws the lanes of the operations.
    fn draw_operations(&self, sheet: &mut Sheet<'_, '_, '_>, row: Row) -> Result<(), AllocError> {
        self.draw_rules(sheet, row)?;
        match self.timeline.column(row) {
            Some(column) => self.draw_operation(sheet, row, column),
            None => self.draw_turn(sheet, row, self.left(0)),
        }
    }

    /// Draws how many visits wait.
    fn draw_queue(&self, sheet: &mut Sheet<'_, '_, '_>) -> Result<(), AllocError> {
        let waiting = sheet.course.waiting();
        if waiting == 0 {
            return Ok(());
        }
        sheet.draw_count(self.queue(), Colour::Orange, waiting as usize)
    }

    /// Draws the references of a context.
    fn draw_context(&self, sheet: &mut Sheet<'_, '_, '_>, number: usize) -> Result<(), AllocError> {
        let references = sheet.course.references(number);
        if references == 0 {
            return Ok(());
        }
        let colour = if sheet.course.is_linked(number) {
            Colour::Green
        } else {
            Colour::Purple
        };
        sheet.draw_count(self.context(number), colour, references as usize)
    }

    /// Draws the visits that wait and the contexts when a row ends.
    fn draw_state(&self, sheet: &mut Sheet<'_, '_, '_>) -> Result<(), AllocError> {
        self.draw_queue(sheet)?;
        for number in 0..self.contexts {
            self.draw_context(sheet, number)?;
        }
        Ok(())
    }

    // ---- heads

    /// Draws the number of the first operation of a column, above it.
    fn draw_first(&self, sheet: &mut Sheet<'_, '_, '_>, column: usize) -> Result<(), AllocError> {
        let middle = self.middle(self.operation(column));
        match self.firsts.get(column) {
            Some(Some(first)) => sheet.draw_number(middle, 34 + LINE, Look::Above, *first),
            _ => Ok(()),
        }
    }

    /// Draws the numbers of operations and contexts.
    fn draw_numbers(&self, sheet: &mut Sheet<'_, '_, '_>) -> Result<(), AllocError> {
        for column in 0..self.columns {
            self.draw_first(sheet, column)?;
        }
        for number in 0..self.contexts {
            let middle = self.context(number).saturating_add(LANE / 2);
            sheet.draw_number(middle, 34 + LINE, Look::Above, number)?;
        }
        Ok(())
    }

    fn draw_heads(&self, sheet: &mut Sheet<'_, '_, '_>) -> Result<(), AllocError> {
        let places = [
            LANES - 65,
            self.operation(0),
            self.queue(),
            self.context(0),
            self.words(),
        ];
        sheet
            .drawing
            .heads(&places, 16 + LINE, Look::Faint, &HEADS)?;
        self.draw_numbers(sheet)
    }

    /// Draws the meanings of the colours, below the lines.
    fn draw_colours(&self, sheet: &mut Sheet<'_, '_, '_>) -> Result<(), AllocError> {
        for (colour, said) in &KEY {
            sheet.fill(LANES + 4, LANE - 8, *colour)?;
            let words = String::from_str(self.alloc, said)?;
            sheet.end_line(LANES + LANE + 8, Look::Faint, words)?;
        }
        Ok(())
    }

    /// Draws the meanings of the colours, and that of the numbers of operations if columns are shared.
    fn draw_key(&self, sheet: &mut Sheet<'_, '_, '_>) -> Result<(), AllocError> {
        sheet.top = sheet.top.saturating_add(LINE / 2);
        self.draw_colours(sheet)?;
        if self.is_shared {
            let words = String::from_str(self.alloc, SHARED)?;
            sheet.end_line(LANES + LANE + 8, Look::Faint, words)?;
        }
        Ok(())
    }

    // ---- lines

    /// Begins the line of some entries, with the number of the first and the one after the last.
    fn begin_line(
        &self,
        sheet: &mut Sheet<'_, '_, '_>,
        first: usize,
        end: usize,
    ) -> Result<(), AllocError> {
        sheet.course.go_to(first)?;
        sheet.course.go_to(end)?;
        let words = entries_words(self.alloc, first, end.saturating_sub(1))?;
        let base = sheet.base();
        sheet.drawing.words(LANES - 15, base, Look::Before, words)
    }

    /// Highlights the line of a row in which the run breaks something.
    fn draw_ground(&self, sheet: &mut Sheet<'_, '_, '_>, row: Row) -> Result<(), AllocError> {
        if !self.timeline.is_broken(row) {
            return Ok(());
        }
        let area = Area {
            x: 0,
            y: sheet.top,
            width: self.width(),
            height: LINE,
        };
        sheet.drawing.fill(area, Colour::Pink)
    }

    /// Draws a row's words, which end its line.
    fn draw_words(&self, sheet: &mut Sheet<'_, '_, '_>, row: Row) -> Result<(), AllocError> {
        let words = row_words(self.alloc, self.timeline, self.verdict, row)?;
        let look = if self.timeline.is_broken(row) {
            Look::Bad
        } else {
            Look::Plain
        };
        sheet.end_row(self.words(), look, words)
    }

    fn draw_row(&self, sheet: &mut Sheet<'_, '_, '_>, row: Row) -> Result<(), AllocError> {
        self.draw_ground(sheet, row)?;
        self.begin_line(sheet, row.first, end_of(row))?;
        self.draw_operations(sheet, row)?;
        self.draw_state(sheet)?;
        self.draw_words(sheet, row)
    }

    /// Draws so many rows that repeat a block, with the visits that wait and the contexts after them.
    fn draw_repetition(
        &self,
        sheet: &mut Sheet<'_, '_, '_>,
        fold: Fold,
        repeated: usize,
    ) -> Result<(), AllocError> {
        let first = fold.first.saturating_add(fold.block);
        let last = self.row(first.saturating_add(repeated).saturating_sub(1));
        self.begin_line(sheet, self.row(first).first, end_of(last))?;
        self.draw_state(sheet)?;
        let words = repeated_words(self.alloc, repeated)?;
        sheet.end_line(self.words(), Look::Faint, words)
    }

    /// Draws a line in place of those that are left out, if some are.
    fn draw_left_out(&self, sheet: &mut Sheet<'_, '_, '_>) -> Result<(), AllocError> {
        if sheet.left_out == 0 {
            return Ok(());
        }
        let words = left_out_words(self.alloc, sheet.left_out)?;
        sheet.left_out = 0;
        let base = sheet.base();
        let dots = String::from_str(self.alloc, "...")?;
        sheet.drawing.words(LANES - 15, base, Look::Before, dots)?;
        sheet.end_line(self.words(), Look::Plain, words)
    }

    /// Whether the next line is drawn. If so, a line for those left out before it is drawn first.
    fn begins(&self, sheet: &mut Sheet<'_, '_, '_>) -> Result<bool, AllocError> {
        let number = sheet.number;
        sheet.number = number.saturating_add(1);
        if !self.excerpt.has(number) {
            sheet.left_out = sheet.left_out.saturating_add(1);
            return Ok(false);
        }
        self.draw_left_out(sheet)?;
        Ok(true)
    }

    /// Draws a row, if its line is drawn.
    fn draw_next(&self, sheet: &mut Sheet<'_, '_, '_>, row: Row) -> Result<(), AllocError> {
        if self.begins(sheet)? {
            self.draw_row(sheet, row)?;
        }
        Ok(())
    }

    /// Draws a block, the rows that repeat it, and the one of them by which the run breaks something.
    fn draw_fold(&self, sheet: &mut Sheet<'_, '_, '_>, fold: Fold) -> Result<(), AllocError> {
        for number in 0..fold.block {
            self.draw_next(sheet, self.row(fold.first.saturating_add(number)))?;
        }
        let repeated = repeated_in(self.timeline, fold);
        if repeated > 0 && self.begins(sheet)? {
            self.draw_repetition(sheet, fold, repeated)?;
        }
        if ends_broken(self.timeline, fold) {
            self.draw_next(sheet, last_in(self.timeline, fold))?;
        }
        Ok(())
    }

    /// Draws the blocks, as far as they are drawn, and how many lines are left out after them.
    fn draw_folds(&self, sheet: &mut Sheet<'_, '_, '_>) -> Result<(), AllocError> {
        for fold in self.timeline.folds.as_slice() {
            self.draw_fold(sheet, *fold)?;
        }
        self.draw_left_out(sheet)
    }

    fn draw(&self, sheet: &mut Sheet<'_, '_, '_>) -> Result<(), AllocError> {
        self.draw_heads(sheet)?;
        self.draw_folds(sheet)?;
        self.draw_key(sheet)
    }

    /// The height of the picture.
    fn height(&self) -> usize {
        let key = KEY.len() + usize::from(self.is_shared);
        let lines = self.lines().saturating_add(key).saturating_add(4);
        lines.saturating_mul(LINE)
    }
}

/// The drawing of a journal by a plan.
fn drawn(
    plan: &Plan<'_, '_>,
    stack: &Stack<'_>,
    journal: &Journal,
    sources: Sources<'_>,
) -> Result<Drawing, AllocError> {
    let mut sheet = Sheet {
        alloc: plan.alloc,
        drawing: Drawing::new(plan.alloc),
        course: Course::new(plan.alloc, stack, journal)?,
        sources,
        top: 3 * LINE,
        number: 0,
        left_out: 0,
    };
    plan.draw(&mut sheet)?;
    Ok(sheet.drawing)
}

/// A journal as a picture, in SVG: the names of the filters and the verdict above the rows of its timeline, with lanes for operations, for
/// the number of visits that wait in queues and work items when a row ends, and for the references that each context then has. The
/// statements' lines that a row names are a hint over its words. The meanings of the colours are below the rows. The filters, the journal
/// and the verdict are those of the timeline, and the texts those of the trees, in their order. At most 1,000 lines are drawn, the one that
/// breaks something among them, the first twelve contexts, and 40 lines of a text in a hint. If lines are left out, a line says how many.
///
/// # Errors
///
/// `AllocError` if a growth is refused, or a number or a count would reach 2^32.
pub fn picture(
    alloc: Global,
    trees: &[Tree],
    texts: &[Vec<u8>],
    journal: &Journal,
    verdict: Verdict,
    timeline: &Timeline<'_>,
) -> Result<String, AllocError>
    ensures { IfOk result (λ text. spec.IsPicture (titles.title_of (filters_of trees.now) verdict) (string_bytes text)) }
{
    let stack = Stack::of(alloc, trees)?;
    let title = title_of(alloc, trees, verdict)?;
    let plan = Plan::of(alloc, &stack, journal, verdict, timeline, title.len())?;
    let sources = Sources::of(alloc, &stack, trees, texts, timeline)?;
    let drawing = drawn(&plan, &stack, journal, sources)?;
    let elements = drawing.elements.as_slice();
    written(alloc, plan.width(), plan.height(), title.as_str(), elements)
}
