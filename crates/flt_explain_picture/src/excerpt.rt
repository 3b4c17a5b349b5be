//! The lines of a timeline that are drawn: one for each row of a block, and one for the rows that repeat it.

use flt_explain_timeline::{Fold, Row, Timeline};

/// The greatest number of lines that are drawn; besides them, there is a line in each place where some are left out.
const MOST_LINES: usize = 1_000;

/// The number of these that are the first ones, if the line that breaks something isn't among the first `MOST_LINES`.
const FIRST_LINES: usize = 500;

const NOTHING: Row = Row { first: 0, count: 0 };

/// The lines that are drawn: those before `first`, and those from `from` to before `end`. A line is given by its number, from 0.
#[derive(Clone, Copy)]
pub(crate) struct Excerpt {
    first: usize,
    from: usize,
    end: usize,
}

impl Excerpt {
    /// The excerpt of so many lines, of which `broken` breaks something. If it isn't among the first, it is the last that is drawn.
    pub(crate) fn of(lines: usize, broken: Option<usize>) -> Excerpt {
        match broken {
            Some(number) if number >= MOST_LINES => {
                let end = number.saturating_add(1);
                Excerpt {
                    first: FIRST_LINES,
                    from: end.saturating_sub(MOST_LINES - FIRST_LINES),
                    end,
                }
            }
            _ => Excerpt {
                first: lines.min(MOST_LINES),
                from: lines,
                end: lines,
            },
        }
    }

    pub(crate) fn has(&self, number: usize) -> bool {
        number < self.first || self.from <= number && number < self.end
    }
}

/// The last row of a block and of the rows that repeat it.
pub(crate) fn last_in(timeline: &Timeline<'_>, fold: Fold) -> Row {
    let rows = fold.block.saturating_add(fold.repeated);
    row_of(timeline, fold.first.saturating_add(rows).saturating_sub(1))
}

/// Whether the run breaks something by the last row that repeats a block. Such a row has a line of its own.
pub(crate) fn ends_broken(timeline: &Timeline<'_>, fold: Fold) -> bool {
    fold.repeated > 0 && timeline.is_broken(last_in(timeline, fold))
}

/// The number of rows that are drawn as repetitions of a block, in one line.
pub(crate) fn repeated_in(timeline: &Timeline<'_>, fold: Fold) -> usize {
    fold.repeated
        .saturating_sub(usize::from(ends_broken(timeline, fold)))
}

/// The number of lines of a block and of the rows that repeat it.
fn lines_in(timeline: &Timeline<'_>, fold: Fold) -> usize {
    let again = usize::from(repeated_in(timeline, fold) > 0);
    let broken = usize::from(ends_broken(timeline, fold));
    fold.block.saturating_add(again).saturating_add(broken)
}

/// The number of lines of the blocks of a timeline.
pub(crate) fn lines_of(timeline: &Timeline<'_>) -> usize {
    let mut lines: usize = 0;
    for fold in timeline.folds.as_slice() {
        lines = lines.saturating_add(lines_in(timeline, *fold));
    }
    lines
}

/// The number of the line of a block and of the rows that repeat it that breaks something, if one does.
fn broken_in(timeline: &Timeline<'_>, fold: Fold) -> Option<usize> {
    for number in 0..fold.block {
        if timeline.is_broken(row_of(timeline, fold.first.saturating_add(number))) {
            return Some(number);
        }
    }
    if ends_broken(timeline, fold) {
        return Some(lines_in(timeline, fold).saturating_sub(1));
    }
    None
}

/// The number of the line that breaks something, if one does.
pub(crate) fn broken_line(timeline: &Timeline<'_>) -> Option<usize> {
    let mut lines: usize = 0;
    for fold in timeline.folds.as_slice() {
        if let Some(number) = broken_in(timeline, *fold) {
            return Some(lines.saturating_add(number));
        }
        lines = lines.saturating_add(lines_in(timeline, *fold));
    }
    None
}

/// The row of a number; one without entries if there is none.
pub(crate) fn row_of(timeline: &Timeline<'_>, number: usize) -> Row {
    match timeline.rows.get(number) {
        Some(row) => *row,
        None => NOTHING,
    }
}
